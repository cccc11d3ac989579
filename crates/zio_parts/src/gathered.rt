// A walk that is put together from its header and from what the walks below its members left.

ghost use Rattle.std.specs.Prelude.{◌≡◌, ◌++◌, ◌+◌, ◌≤◌, IfOk, length, vec_capacity};
ghost use Rattle.zio_trace.specs.Plans.{under_head};
ghost use Rattle.zio_parts.specs.Gathers.{FitsIn, IsRoomFor, KeepsRoom, gathered};
ghost use Rattle.zio_parts.specs.HeadWalks.{joined, joined_behind, no_walk, with_member};

use crate::walked::{Body, Counts, Walked};
use std::alloc::Global;
use zio_gang::Head;
use zio_types::{Errno, List, NoMemory, Path};

/// A walk that is put together. There is room from the start on for all that is to come, so that no walk is lost where
/// memory is refused.
#[derive(Drop)]
pub(crate) struct Gathered {
    errors: Vec<Option<Errno>>,
    bodies: Vec<Body>,
    heads: Vec<Head>,
}

impl Gathered {
    /// A walk that read this header, with room for what the walks below its members left.
    pub(crate) fn head(
        alloc: Global,
        path: Path,
        bytes: [u8; 512],
        members: &[Option<Walked>],
    ) -> Result<Gathered, NoMemory>
        ensures head { IfOk result (λ all. gathered all ≡ under_head path bytes no_walk) }
        ensures room { IfOk result (λ all. FitsIn (joined_behind (under_head path bytes no_walk) members.now) all) }
    {
        let room = room_for(members);
        let errors = Vec::with_capacity(alloc, room.errors)?;
        let bodies = Vec::with_capacity(alloc, room.bodies)?;
        let mut heads = Vec::with_capacity(alloc, room.heads)?;
        heads.push_reserved(Head { path, bytes });
        Ok(Gathered {
            errors,
            bodies,
            heads,
        })
    }

    /// Moves what the walk below a member left behind it, where there is one.
    pub(crate) fn put(&mut self, member: Option<Walked>)
        requires { FitsIn (with_member (gathered self.old) member) self.old }
        ensures with { gathered self.new ≡ with_member (gathered self.old) member }
        ensures room { KeepsRoom self.old self.new }
    {
        let Some(walked) = member else {
            return;
        };
        let (errors, bodies, heads) = walked.into_parts();
        put_reserved(&mut self.errors, errors);
        put_reserved(&mut self.bodies, bodies);
        put_reserved(&mut self.heads, heads);
    }

    pub(crate) fn into_walked(self) -> Walked
        ensures { result ≡ gathered self }
    {
        let Gathered {
            errors,
            bodies,
            heads,
        } = self;
        Walked::of(
            List::from_vec(errors),
            List::from_vec(bodies),
            List::from_vec(heads),
        )
    }
}

/// How much the walks below the members left, and a header. More than can be counted counts as the most: no vector has
/// room for so much, and memory for it is refused.
fn room_for(members: &[Option<Walked>]) -> Counts
    ensures { IsRoomFor (joined members.now) result }
{
    match members {
        [] => Counts {
            errors: 0,
            bodies: 0,
            heads: 1,
        },
        [member, rest @ ..] => {
            let behind = room_for(rest);
            match member {
                Some(walked) => walked.counts().and(behind),
                None => behind,
            }
        }
    }
}

/// Moves these to the end, where there is room for them.
fn put_reserved<T: Drop>(all: &mut Vec<T>, mut more: Vec<T>)
    requires { length all.old.items + length more.items ≤ vec_capacity all.old }
    ensures items { all.new.items ≡ all.old.items ++ more.items }
    ensures capacity { vec_capacity all.old ≤ vec_capacity all.new }
{
    if all.append(&mut more).is_err() {
        unreachable!()
    }
}
