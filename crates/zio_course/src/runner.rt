//! What runs a round: the trees of a batch, or those that are suspended.

ghost use Rattle.std.specs.Prelude.{◌≡◌, ◌<◌, ℕ, Bool, List, false, true, IfErr, IfOk, IsErrOf, OnErr, OnOk, IfSome, map};
ghost use Rattle.std.specs.List.{AllByRecursion};
ghost use Rattle.zio_types.specs.Choices.{Choice};
ghost use Rattle.zio_cksum.specs.Images.{Images};
ghost use Rattle.zio_gang.specs.Attempts.{Pending, Terms};
ghost use Rattle.zio_gang.specs.declared.tree.Tree.{Tree as SeenTree};
ghost use Rattle.zio_course.specs.declared.runner.RequestEnd.{RequestEnd as SeenRequestEnd};
ghost use Rattle.zio_course.specs.declared.runner.Stop.TheVariants.{Memory};
ghost use Rattle.zio_course.specs.Faults.{fault_of};
ghost use Rattle.zio_course.specs.Runners.{AreRunnable, IsNewTree, IsRound, IsRoundEnd, Standing, Stays, StoppedAfter, StandsAfter, AnyRose, DiffersInRound, ended_seen, fresh, made_trees, terms_at, tree_over};

use zio_gang::Tree;
use zio_report::RunFault;
use zio_script::{Failmode, Request};
use zio_types::{Bytes, Completion, Entry, Errno, List, NoMemory, ReqNo};

/// A round that is to be run.
#[derive(Debug, Drop)]
pub struct Job<T> {
    /// Above the number of each round before.
    pub round: u32,
    /// The resume point.
    pub point: u32,
    pub failmode: Failmode,
    /// By the numbers of their roots.
    pub trees: List<T>,
}

/// What is told of a request that finished.
#[derive(Debug, Drop)]
pub struct RequestEnd {
    pub request: ReqNo,
    pub error: Option<Errno>,
    /// What a read without error gave.
    pub bytes: Bytes,
    /// The block that a write or a claim without error made.
    pub tree: Option<Tree>,
}

/// What a round leaves.
#[derive(Debug, Drop)]
pub struct RoundEnd<T, F> {
    /// By number.
    pub finished: List<F>,
    /// What is left of the trees that are suspended.
    pub left: List<T>,
    /// One for each request that finished, a child's before its parent's.
    pub completions: List<Completion>,
    /// What was asked of the space, with the places found.
    pub entries: List<Entry>,
}

/// Why a round was stopped.
#[derive(Clone, Copy, Debug, PartialEq, Eq)]
pub enum Stop {
    /// A disk failed.
    Device,
    /// Want of memory.
    Memory,
}

impl From<NoMemory> for Stop {
    ghost from_gives = { λ _ s. s ≡ Memory };

    fn from(_refused: NoMemory) -> Stop {
        Stop::Memory
    }
}

impl From<Stop> for RunFault {
    ghost from_gives = { λ stop fault. fault ≡ fault_of stop };

    fn from(stop: Stop) -> RunFault {
        match stop {
            Stop::Device => RunFault::Device,
            Stop::Memory => RunFault::Memory,
        }
    }
}

/// Want of memory for a tree: its children's trees come back.
#[derive(Debug, Drop)]
pub struct ChildrenBack<T> {
    pub children: List<T>,
}

/// Makes trees of requests, and runs rounds of them.
pub trait Runner {
    /// A tree of requests that hasn't finished.
    type Tree: Drop;

    /// A request that finished. The type is the runner's own, so it alone says what can make one.
    type Finished: Drop;

    /// Its requests in the order of their attempts: each child's tree by number, then the request itself.
    ghost pending: { Self.Tree → List Pending };

    /// What is told of a request that finished.
    ghost told: { Self.Finished → SeenRequestEnd };

    /// What is known of it beside the images.
    ghost standing: { Self → Standing };

    /// The images of its disks, where they tell them.
    ghost tells: { Self → Images → Type 0 };

    /// Neither call changes of its disks what this says of the runner before and after.
    ghost same: { Self → Self → Type 0 };

    /// A block that a read or a free may be given.
    ghost fits: { SeenTree → Type 0 };

    /// What the entries of a round of this number are, beside its choices.
    ghost chosen: { ℕ → List Choice → Type 0 };

    /// What a round needs beside, as of the threads that it starts. It stays so.
    ghost Can: { Self → Type 0 };

    /// What it means that a round was stopped for want of memory: of the round's terms, its trees and the images before
    /// it.
    ghost stops: { Self → Terms → List (List Pending) → Images → Type 0 };

    /// Makes a tree of a request and its children's trees, for the batch of this number. A read or a free is given the
    /// block that it names. Where memory is refused the children's trees come back.
    fn tree(
        &mut self,
        request: &Request,
        birth: u32,
        block: Option<Tree>,
        children: List<Self::Tree>,
    ) -> Result<Self::Tree, ChildrenBack<Self::Tree>>
        requires whole { IsNewTree request.now birth block (map pending children) }
        requires fits { IfSome block fits }
        ensures made { IfOk result (λ tree. pending tree
            ≡ tree_over (map pending children) (fresh request.now birth block)) }
        ensures back { IfErr result (λ back. back.children ≡ children) }
        ensures stays { Stays (standing self.old) (standing self.new) (tells self.old) (tells self.new) }
        ensures can { Can self.old → Can self.new }
        ensures same { same self.old self.new };

    /// Runs a round.
    ///
    /// `Stop::Device` comes exactly where a count of a disk's faults rose, `Stop::Memory` for want of memory. No round
    /// runs after a stop.
    fn round(&mut self, job: Job<Self::Tree>) -> Result<RoundEnd<Self::Tree, Self::Finished>, Stop>
        requires runs { (standing self.old).stopped ≡ false }
        requires next { (standing self.old).last < job.round }
        requires trees { AreRunnable (standing self.old) (map pending job.trees) }
        requires can { Can self.old }
        ensures round { IfOk result (λ end. (before : Images) → tells self.old before → (after : Images)
            × tells self.new after
            × IsRound (terms_at (standing self.old) job.failmode job.round job.point)
            (map pending job.trees) before after (ended_seen pending told end)
            × DiffersInRound (standing self.old) (map pending job.trees) before after) }
        ensures end { IfOk result (λ end. IsRoundEnd (standing self.old) job.round (map pending job.trees)
            (ended_seen pending told end)) }
        ensures fits { IfOk result (λ end. AllByRecursion fits (made_trees (map told end.finished))) }
        ensures chosen { IfOk result (λ end. chosen job.round end.entries) }
        ensures stands { IfOk result (λ end. StandsAfter (standing self.old) (standing self.new) job.round
            (map pending job.trees) (ended_seen pending told end)) }
        ensures stopped { OnErr result (StoppedAfter (standing self.old) (standing self.new) job.round) }
        ensures device { IsErrOf result Stop.Device → AnyRose (standing self.old).faults (standing self.new).faults }
        ensures calm { IsErrOf result Stop.Memory → (standing self.new).faults ≡ (standing self.old).faults }
        ensures stops { IsErrOf result Stop.Memory → (before : Images) → tells self.old before
            → stops self.new (terms_at (standing self.old) job.failmode job.round job.point)
            (map pending job.trees) before }
        ensures images { OnErr result ((before : Images) → tells self.old before → (after : Images)
            × tells self.new after
            × DiffersInRound (standing self.old) (map pending job.trees) before after) }
        ensures can { Can self.new }
        ensures same { same self.old self.new };

    /// What is told of a request that finished.
    fn told(finished: Self::Finished) -> RequestEnd
        ensures { result ≡ told finished };

    /// What no call changes isn't changed by two.
    ghost same_then: { (a b c : Self) → same a b → same b c → same a c };

    ghost same_itself: { (a : Self) → same a a };
}
