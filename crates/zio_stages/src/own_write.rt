// A write's own work: its content is set once its children told their pointers, and its block is written as one part.

ghost use Rattle.std.specs.Prelude.{◌≡◌, ◌+◌, IfOk, List as Seq, None, length, true};
ghost use Rattle.std.specs.List.{list_all};
ghost use Rattle.zio_types.specs.declared.place.Top.{Top as SeenTop};
ghost use Rattle.zio_gang.specs.Attempts.{Terms};
ghost use Rattle.zio_children.specs.RequestKids.{is_told, pointers_of};
ghost use Rattle.zio_frames.specs.Frames.{Child, Stack};
ghost use Rattle.zio_exchange.specs.Waits.{pending_of};
ghost use Rattle.zio_stages.specs.KidPointers.{HaveValidPointers};
ghost use Rattle.zio_stages.specs.NodeIos.{NoneSits};
ghost use Rattle.zio_stages.specs.OwnWrites.{IsBlockAt, IsIdleAt};
ghost use Rattle.zio_stages.specs.WrittenBlocks.{IsSoundWrite};
ghost use Rattle.zio_stages.specs.PartWorks.{Front, IsPartOver};
ghost use Rattle.zio_stages.specs.declared.family.Layer.TheVariants.{Within};

use crate::part_work::PartWork;
use std::alloc::Global;
use zio_children::Kids;
use zio_exchange::UnfinishedRequest;
use zio_gang::content;
use zio_parts::BlockWrite;
use zio_script::Work;
use zio_types::{NoMemory, Path};

/// A write's own work, once its content is set: the write of its block as one part, behind the operations for its
/// children.
#[derive(Drop)]
pub(crate) struct OwnWrite {
    pub(crate) work: PartWork,
}

/// The write of the request's block, of which nothing is asked. Its content begins with the pointers that its children
/// told, and its sum is taken here, so no later stage goes over the bytes again.
pub(crate) fn block_of(
    alloc: Global,
    waiting: &UnfinishedRequest,
    kids: &Kids,
    round: u32,
    attempt: u32,
) -> Result<PartWork, NoMemory>
    requires told { list_all is_told kids.now.kids ≡ true }
    requires valid { HaveValidPointers kids.now }
    requires sound { IsSoundWrite (length kids.now.kids + length kids.now.kept) waiting.now }
    ensures fresh { IfOk result (λ work. (t : Terms) (f : Front) (family : Seq Child) (st : Stack) → t.round ≡ round →
        IsIdleAt family f st →
        IsBlockAt t work family f attempt (pending_of waiting.now) (pointers_of kids.now) st) }
    ensures over { IfOk result (λ work. (tops : Seq SeenTop) (family : Seq Child) → NoneSits Within family
        → IsPartOver tops work family) }
    ensures io { IfOk result (λ work. work.io ≡ None) }
{
    let Work::Write {
        sum,
        copies,
        prio,
        body,
        ..
    } = &waiting.request.work
    else {
        unreachable!()
    };
    let pointers = kids.pointers(alloc)?;
    let bytes = content(alloc, pointers.as_slice(), body)?;
    let top = Path {
        len: 0,
        steps: [0; 8],
    };
    let write = BlockWrite {
        request: waiting.request.number,
        round,
        attempt,
        sum: *sum,
        copies: *copies,
        birth: u64::from(waiting.birth),
    };
    Ok(PartWork::new(write, top, bytes, *prio))
}
