//! The runner of whole rounds over disks and a chooser of places.

use crate::entries::{AsGiven, RoundEntries};
use crate::evaluated::Evaluated;
use crate::ground::Ground;
use crate::plain::ends::{begin_round, end_round, entries_of};
use crate::tree::{PlainTree, tree_over};
use crate::trees::{TreesEnd, run_trees};
use std::alloc::Global;
use std::marker::{Model, PhantomData};
use zio_blocks::Chooser;
use zio_course::{ChildrenBack, Job, RequestEnd, RoundEnd, Runner, Stop};
use zio_disks::Setting;
use zio_gang::Tree;
use zio_outside::Disk;
use zio_script::Request;
use zio_types::List;

mod ends;

/// Runs rounds by the definitions, with the entries that its chooser gives where these are lawful in the order of its
/// asks, or with those that were recorded, as `S` says. Contracts see it as its setting, its disks and its chooser, the
/// number of its last round, whether a round was stopped, and whether this was since what was recorded is strange.
#[derive(Drop)]
pub struct Plain<D: Disk + Drop, C: Chooser + Drop, S = AsGiven> {
    ground: Ground<D, C>,
    last: u32,
    stopped: bool,
    strange: bool,
    entries: PhantomData<S>,
}

impl<D: Disk + Drop, C: Chooser + Drop, S> Model for Plain<D, C, S> {
    ghost use Rattle.std.specs.Prelude.{◌≡◌, false, map};
    ghost use Rattle.zio_plain.specs.Plains.{IsSteady, SeenPlain};

    ghost Value = { SeenPlain D C };

    ghost view = { λ p. record {
      setting = p.ground.setting;
      disks = p.ground.disks.items;
      chooser = p.ground.chooser;
      last = p.last;
      stopped = p.stopped;
      strange = p.strange;
    } };

    ghost invariant = { λ p. p.stopped ≡ false
        → IsSteady p.ground.setting (map D.bytes p.ground.disks.items) (C.sizes p.ground.chooser)
        (C.used p.ground.chooser) (C.live p.ground.chooser) (C.given p.ground.chooser) };
}

impl<D: Disk + Drop, C: Chooser + Drop> Plain<D, C> {
    ghost use Rattle.std.specs.Prelude.{◌≡◌, [], false, map};
    ghost use Rattle.zio_gang.specs.Trees.{sizes_of};
    ghost use Rattle.zio_disks.specs.Trees.{BearsTops};
    ghost use Rattle.zio_blocks.specs.Blocks.{HavePointers};

    /// Over disks that bear the tops, with a chooser that has all of them free. A round has the entries that it gives.
    pub fn new(alloc: Global, setting: Setting, disks: Vec<D>, chooser: C) -> Plain<D, C>
        requires bears { BearsTops setting (map D.bytes disks.items) }
        requires pointers { HavePointers setting.tops }
        requires sizes { C.sizes chooser ≡ sizes_of setting.tops }
        requires used { C.used chooser ≡ [] }
        requires live { C.live chooser ≡ [] }
        requires given { C.given chooser ≡ [] }
        ensures { result ≡ record {
          setting = setting;
          disks = disks.items;
          chooser = chooser;
          last = 0;
          stopped = false;
          strange = false;
        } }
    {
        Plain::with_entries(alloc, setting, disks, chooser)
    }
}

impl<D: Disk + Drop, C: Chooser + Drop, S> Plain<D, C, S> {
    ghost use Rattle.std.specs.Prelude.{◌≡◌, ◌&&◌, [], false, map};
    ghost use Rattle.zio_gang.specs.Trees.{sizes_of};
    ghost use Rattle.zio_disks.specs.Trees.{BearsTops};
    ghost use Rattle.zio_blocks.specs.Blocks.{HavePointers};

    /// The same, where a round has the entries that `S` says.
    pub fn with_entries(
        alloc: Global,
        setting: Setting,
        disks: Vec<D>,
        chooser: C,
    ) -> Plain<D, C, S>
        requires bears { BearsTops setting (map D.bytes disks.items) }
        requires pointers { HavePointers setting.tops }
        requires sizes { C.sizes chooser ≡ sizes_of setting.tops }
        requires used { C.used chooser ≡ [] }
        requires live { C.live chooser ≡ [] }
        requires given { C.given chooser ≡ [] }
        ensures { result ≡ record {
          setting = setting;
          disks = disks.items;
          chooser = chooser;
          last = 0;
          stopped = false;
          strange = false;
        } }
    {
        Plain {
            ground: Ground {
                alloc,
                setting,
                round: 0,
                disks,
                chooser,
            },
            last: 0,
            stopped: false,
            strange: false,
            entries: PhantomData,
        }
    }

    /// Whether a round was stopped since what was recorded of it is strange.
    pub fn is_strange(&self) -> bool
        ensures { result ≡ (self.now.stopped && self.now.strange) }
    {
        self.stopped && self.strange
    }

    /// The disks, by the numbers of the leaves.
    pub fn into_disks(self) -> Vec<D>
        ensures { result.items ≡ self.disks }
    {
        self.ground.disks
    }
}

impl<D: Disk + Drop, C: Chooser + Drop, S: RoundEntries<C>> Runner for Plain<D, C, S> {
    ghost use Rattle.std.specs.Prelude.{◌≡◌, ◌<◌, List, false, true, IfErr, IfOk, IfSome, IsErrOf, OnErr, map};
    ghost use Rattle.std.specs.List.{AllByRecursion};
    ghost use Rattle.zio_cksum.specs.Images.{Images};
    ghost use Rattle.zio_gang.specs.Attempts.{Pending};
    ghost use Rattle.zio_disks.specs.Disks.{AreSameDisks, Tell};
    ghost use Rattle.zio_disks.specs.Whole.{IsWholeTree};
    ghost use Rattle.zio_course.specs.declared.runner.RequestEnd.{RequestEnd as SeenRequestEnd};
    ghost use Rattle.zio_course.specs.declared.runner.Stop.TheVariants.{Device, Memory};
    ghost use Rattle.zio_course.specs.Runners.{AnyRose, AreRunnable, DiffersInRound, IsNewTree, IsRound, IsRoundEnd, StandsAfter, Stays, StoppedAfter, ended_seen, fresh, made_trees, terms_at, tree_over};
    ghost use Rattle.zio_plain.specs.Plains.{standing_of};

    type Tree = PlainTree;

    type Finished = Evaluated;

    ghost pending = { λ tree. tree };

    ghost told = { λ finished. finished };

    ghost standing = { standing_of D.faults C.live };

    ghost tells = { λ p images. Tell D.image p.disks images };

    ghost same = { λ a b. AreSameDisks D.bytes D.faults D.faults_at_fetch D.home D.image D.sound a.disks b.disks };

    ghost fits = { IsWholeTree };

    ghost chosen = { S.chosen };

    ghost Can = { λ _. Unit {0} };

    ghost stops = { λ p t trees before. p.strange ≡ true → S.strange t trees before };

    fn tree(
        &mut self,
        request: &Request,
        birth: u32,
        block: Option<Tree>,
        children: List<PlainTree>,
    ) -> Result<PlainTree, ChildrenBack<PlainTree>>
        requires whole { IsNewTree request.now birth block (map (λ (tree : List Pending). tree) children) }
        requires fits { IfSome block IsWholeTree }
        ensures made { IfOk result (λ tree. tree ≡ tree_over (map (λ (tree : List Pending). tree) children)
            (fresh request.now birth block)) }
        ensures back { IfErr result (λ back. back.children ≡ children) }
        ensures stays { Stays (standing_of D.faults C.live self.old) (standing_of D.faults C.live self.new)
            (λ images. Tell D.image self.old.disks images) (λ images. Tell D.image self.new.disks images) }
        ensures same { AreSameDisks D.bytes D.faults D.faults_at_fetch D.home D.image D.sound self.old.disks
            self.new.disks }
    {
        tree_over(self.ground.alloc, request, birth, block, children)
    }

    fn round(&mut self, job: Job<PlainTree>) -> Result<RoundEnd<PlainTree, Evaluated>, Stop>
        requires runs { self.old.stopped ≡ false }
        requires next { self.old.last < job.round }
        requires trees { AreRunnable (standing_of D.faults C.live self.old)
            (map (λ (tree : List Pending). tree) job.trees) }
        ensures round { IfOk result (λ end. (before : Images) → Tell D.image self.old.disks before → (after : Images)
            × Tell D.image self.new.disks after
            × IsRound (terms_at (standing_of D.faults C.live self.old) job.failmode job.round job.point)
            (map (λ (tree : List Pending). tree) job.trees) before after
            (ended_seen (λ (tree : List Pending). tree) (λ (f : SeenRequestEnd). f) end)
            × DiffersInRound (standing_of D.faults C.live self.old) (map (λ (tree : List Pending). tree) job.trees)
            before after) }
        ensures end { IfOk result (λ end. IsRoundEnd (standing_of D.faults C.live self.old) job.round
            (map (λ (tree : List Pending). tree) job.trees)
            (ended_seen (λ (tree : List Pending). tree) (λ (f : SeenRequestEnd). f) end)) }
        ensures fits { IfOk result
            (λ end. AllByRecursion IsWholeTree (made_trees (map (λ (f : SeenRequestEnd). f) end.finished))) }
        ensures chosen { IfOk result (λ end. S.chosen job.round end.entries) }
        ensures stands { IfOk result
            (λ end. StandsAfter (standing_of D.faults C.live self.old) (standing_of D.faults C.live self.new) job.round
            (map (λ (tree : List Pending). tree) job.trees)
            (ended_seen (λ (tree : List Pending). tree) (λ (f : SeenRequestEnd). f) end)) }
        ensures stopped { OnErr result
            (StoppedAfter (standing_of D.faults C.live self.old) (standing_of D.faults C.live self.new) job.round) }
        ensures device { IsErrOf result Device → AnyRose (map D.faults self.old.disks) (map D.faults self.new.disks) }
        ensures calm { IsErrOf result Memory → map D.faults self.new.disks ≡ map D.faults self.old.disks }
        ensures stops { IsErrOf result Memory → (before : Images) → Tell D.image self.old.disks before
            → self.new.strange ≡ true → S.strange
            (terms_at (standing_of D.faults C.live self.old) job.failmode job.round job.point)
            (map (λ (tree : List Pending). tree) job.trees) before }
        ensures images { OnErr result ((before : Images) → Tell D.image self.old.disks before → (after : Images)
            × Tell D.image self.new.disks after
            × DiffersInRound (standing_of D.faults C.live self.old) (map (λ (tree : List Pending). tree) job.trees)
            before after) }
        ensures same { AreSameDisks D.bytes D.faults D.faults_at_fetch D.home D.image D.sound self.old.disks
            self.new.disks }
    {
        let Job {
            round,
            point,
            failmode,
            trees,
        } = job;
        let alloc = self.ground.alloc;
        self.last = round;
        self.stopped = true;
        begin_round::<D, C, S>(&mut self.ground, &mut self.strange, round, point)?;
        let TreesEnd {
            finished,
            left,
            completions,
            freed,
        } = run_trees(alloc, &mut self.ground, round, failmode, trees)?;
        let given = end_round(alloc, &mut self.ground.chooser, freed.as_slice())?;
        let entries = entries_of::<C, S>(&self.ground.chooser, &mut self.strange, round, given)?;
        self.stopped = false;
        Ok(RoundEnd {
            finished,
            left,
            completions,
            entries,
        })
    }

    fn told(finished: Evaluated) -> RequestEnd {
        finished.into_end()
    }

    ghost use Rattle.zio_disks.proofs.DiskLemmas.{same_itself as disks_itself, same_then as disks_then};

    ghost same_then = { λ a b c first second. disks_then D.bytes D.faults D.faults_at_fetch D.home D.image D.sound
        a.disks b.disks c.disks first second };

    ghost same_itself = { λ a. disks_itself D.bytes D.faults D.faults_at_fetch D.home D.image D.sound a.disks };
}
