//! What a request in an attempt is to do, and in which attempt of which round.

ghost use Rattle.std.specs.Prelude.{◌≡◌, length, ℕ};
ghost use Rattle.zio_script.specs.Requests.{kind_of};
ghost use Rattle.zio_script.specs.Whys.{body_len};
ghost use Rattle.zio_stages.specs.Labels.{request_label};
ghost use Rattle.zio_stages.specs.RequestKinds.{body_len_of, has_gang_stages, is_gang_tree, is_stored, points_to_gang};
ghost use Rattle.zio_stages.specs.RequestOwns.{IsOwnSeat};

use crate::family::Seat;
use crate::request_name::request_label;
use crate::request_node::{Own, RequestNode};
use zio_blkptr::decode;
use zio_gang::Tree;
use zio_script::{Body, Failmode, Work};
use zio_types::{Kind, ReqNo};

impl RequestNode {
    /// The kind of the request.
    pub fn kind(&self) -> Kind
        ensures { result ≡ kind_of self.now.waiting.request.work }
    {
        self.waiting.request.work.kind()
    }

    /// The number of the request.
    pub fn number(&self) -> ReqNo
        ensures { result ≡ self.now.waiting.request.number }
    {
        self.waiting.request.number
    }

    /// How many of its children hadn't finished when its attempt began.
    pub fn unfinished(&self) -> usize
        ensures { result ≡ length self.now.kids.kids.kids }
    {
        self.kids.len()
    }

    /// The label of its node.
    pub fn label(&self) -> u64
        ensures { result ≡ request_label self.now.waiting self.now.attempt }
    {
        request_label(&self.waiting, self.attempt)
    }

    /// How many bytes the body of a write has, which stands behind its children's pointers; 0 where it is no write.
    pub fn body_len(&self) -> usize
        ensures { result ≡ body_len_of self.now.waiting.request.work }
    {
        match &self.waiting.request.work {
            Work::Write { body, .. } => len_of(body),
            Work::Null | Work::Read { .. } | Work::Free { .. } | Work::Claim { .. } => 0,
        }
    }

    /// Whether its pipeline has the gang stages: those of a read, a free or a claim of a gang do.
    pub fn has_gang_stages(&self) -> bool
        ensures { result ≡ has_gang_stages self.now.waiting.request.work self.now.waiting.block }
    {
        match &self.waiting.request.work {
            Work::Null => false,
            Work::Read { .. } => is_gang_tree(&self.waiting.block),
            Work::Write { .. } => false,
            Work::Free { .. } => is_gang_tree(&self.waiting.block),
            Work::Claim { pointer, .. } => points_to_gang(pointer),
        }
    }

    /// Whether the block of a write was written.
    pub fn is_stored(&self) -> bool
        ensures { result ≡ is_stored self.now.own }
    {
        match &self.own {
            Own::Stored(_) => true,
            Own::Due
            | Own::Write(_)
            | Own::Read(_)
            | Own::Free(_)
            | Own::Claim(_)
            | Own::Found(_)
            | Own::Over => false,
        }
    }

    /// Which operation of its own work the child does: these stand behind those for the request's children.
    pub fn own_number(&self, child: usize) -> usize
        requires { (n : ℕ) × IsOwnSeat self.now child n }
        ensures { IsOwnSeat self.now child result }
    {
        let Seat::Outer(place) = self.family.seat(child) else {
            unreachable!()
        };
        place - self.kids.len()
    }

    /// The number of its round.
    pub fn round(&self) -> u32
        ensures { result ≡ self.now.round }
    {
        self.round
    }

    /// The number of its attempt in that round.
    pub fn attempt(&self) -> u32
        ensures { result ≡ self.now.attempt }
    {
        self.attempt
    }

    /// How the script decides failures.
    pub fn failmode(&self) -> Failmode
        ensures { result ≡ self.now.failmode }
    {
        self.failmode
    }
}

/// How many bytes the body has.
fn len_of(body: &Body) -> usize
    ensures { result ≡ body_len body.now }
{
    match body {
        Body::Hex(bytes) => bytes.len(),
        Body::Fill { len, .. } | Body::Seq { len, .. } => *len as usize,
    }
}

/// Whether the block is a gang.
pub(crate) fn is_gang_tree(tree: &Option<Tree>) -> bool
    ensures { result ≡ is_gang_tree tree.now }
{
    match tree {
        Some(tree) => tree.bp.gang,
        None => false,
    }
}

/// Whether the bytes of a pointer are a gang's.
fn points_to_gang(bytes: &[u8; 128]) -> bool
    ensures { result ≡ points_to_gang bytes.now }
{
    match decode(bytes) {
        Ok(bp) => bp.gang,
        Err(_) => false,
    }
}
