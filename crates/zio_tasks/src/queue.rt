ghost use Rattle.std.specs.Prelude.{◌≡◌, ◌<◌};
ghost use Rattle.zio_tasks.specs.Queues.{place_of, kind_place};

use zio_types::Kind;

/// A queue: that of tasks to be issued to the devices, or of those whose device work has ended, for a kind of request.
#[derive(Clone, Copy, Debug, PartialEq, Eq)]
pub enum QueueId {
    Issue(Kind),
    Interrupt(Kind),
}

/// How many queues there are.
pub const QUEUES: usize = 10;

impl QueueId {
    pub(crate) fn place(self) -> usize
        ensures is { result ≡ place_of self }
        ensures within { result < QUEUES }
    {
        match self {
            QueueId::Issue(kind) => place_of_kind(kind),
            QueueId::Interrupt(kind) => 5 + place_of_kind(kind),
        }
    }
}

fn place_of_kind(kind: Kind) -> usize
    ensures is { result ≡ kind_place kind }
    ensures within { result < 5 }
{
    match kind {
        Kind::Null => 0,
        Kind::Read => 1,
        Kind::Write => 2,
        Kind::Free => 3,
        Kind::Claim => 4,
    }
}
