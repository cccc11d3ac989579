// What names a node among all of a round.

ghost use Rattle.std.specs.Prelude.{◌≡◌, ◌+◌, ◌*◌, ◌<◌, ◌≤◌, ◌^◌, length};
ghost use Rattle.zio_stages.specs.Labels.{IsLabel, copy_number, label_of, level_number, part_label, pass_number, role_number, sectors_in, steps_number};

use crate::named::Named;
use zio_types::{Path, ReqNo, Role};

/// What kind of child a node is.
#[derive(Clone, Copy, Debug, PartialEq, Eq)]
pub(crate) enum Level {
    /// A request, or a part of its block.
    Part,
    /// An operation on a leaf.
    Leaf,
}

/// Which part of a request's work a node does.
#[derive(Clone, Copy, Debug)]
pub(crate) struct Label {
    pub(crate) request: ReqNo,
    pub(crate) path: Path,
    pub(crate) role: Role,
    /// Of an operation on a leaf: the number of its place among the piece's.
    pub(crate) place: u32,
    /// And the leaf.
    pub(crate) image: u32,
    pub(crate) level: Level,
    pub(crate) attempt: u32,
    /// In the second pass.
    pub(crate) retry: bool,
    /// Good bytes are written to a copy that failed.
    pub(crate) repair: bool,
    /// How many sectors of 512 bytes are read.
    pub(crate) sectors: u32,
}

impl Label {
    /// Its fields in one number: bits 0 to 15 the request, 16 to 19 the length of the path, 20 to 35 its steps, 36 the
    /// role, 37 and 38 the place, 39 to 42 the image, 43 and 44 the level, 0 of a part and 2 of an operation on a leaf,
    /// 45 and 46 the attempt, 47 the second pass, 48 a repair, and from 49 on the sectors.
    pub(crate) fn pack(&self) -> u64
        requires { IsLabel self.now }
        ensures { result ≡ label_of self.now }
    {
        let steps = steps_number(&self.path.steps[..self.path.len as usize]);
        let part = joined(steps, 65_536, self.copy_number(), 33_554_432);
        let path = joined(self.path.len as u64, 16, part, 2_199_023_255_552);
        joined(self.request as u64, 65_536, path, 35_184_372_088_832)
    }

    /// The fields from the role up.
    fn copy_number(&self) -> u64
        requires { IsLabel self.now }
        ensures number { result ≡ copy_number self.now }
        ensures below { result < 33_554_432 }
    {
        let level = joined(level_number(self.level), 4, self.pass_number(), 65_536);
        let image = joined(self.image as u64, 16, level, 262_144);
        let place = joined(self.place as u64, 4, image, 4_194_304);
        joined(role_number(self.role), 2, place, 16_777_216)
    }

    /// The fields from the attempt up.
    fn pass_number(&self) -> u64
        requires { IsLabel self.now }
        ensures number { result ≡ pass_number self.now }
        ensures below { result < 65_536 }
    {
        let repair = joined(self.repair as u64, 2, self.sectors as u64, 4096);
        let retry = joined(self.retry as u64, 2, repair, 8192);
        joined(self.attempt as u64, 4, retry, 16_384)
    }
}

impl Named {
    /// The label of a node that does the whole part, and reads so many bytes.
    pub(crate) fn label(&self, bytes: usize) -> u64
        ensures { result ≡ part_label self.now bytes }
    {
        let label = Label {
            request: self.request,
            path: self.path,
            role: self.role,
            place: 0,
            image: 0,
            level: Level::Part,
            attempt: self.attempt,
            retry: false,
            repair: false,
            sectors: sectors_in(bytes),
        };
        label.pack()
    }
}

/// The sectors of 512 bytes in so many bytes, as far as a label has room.
pub(crate) fn sectors_in(bytes: usize) -> u32
    ensures number { result ≡ sectors_in bytes }
    ensures room { result < 4096 }
{
    (bytes / 512 % 4096) as u32
}

/// Two fields in one number, the lower below this base, and the higher below this bound.
fn joined(low: u64, base: u64, high: u64, bound: u64) -> u64
    requires low { low < base }
    requires high { high < bound }
    requires room { base * bound < 2 ^ 64 }
    ensures number { result ≡ low + base * high }
    ensures below { result < base * bound }
{
    low + base * high
}

/// The steps of a path, two bits each, the first lowest.
fn steps_number(steps: &[u8]) -> u64
    requires few { length steps.now ≤ 8 }
    ensures number { result ≡ steps_number steps.now }
    ensures below { result < 4 ^ length steps.now }
{
    match steps {
        [] => 0,
        [step, rest @ ..] => 4 * steps_number(rest) + (*step % 4) as u64,
    }
}

fn role_number(role: Role) -> u64
    ensures { result ≡ role_number role }
{
    match role {
        Role::Body => 0,
        Role::Head => 1,
    }
}

fn level_number(level: Level) -> u64
    ensures { result ≡ level_number level }
{
    match level {
        Level::Part => 0,
        Level::Leaf => 2,
    }
}
