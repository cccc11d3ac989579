ghost use Rattle.std.specs.Prelude.{◌≡◌, ◌+◌, ◌-◌, ◌^◌, ◌<◌, length, IfOk, IfSome};
ghost use Rattle.zio_latch.specs.Calls.{kids};

use anyhow::Result;
use std::alloc::Global;
use zio_latch::{Fits, Owner, Rests};
use zio_types::{ChildKind, NoMemory, Phase};

/// What is parked, and what a child gives.
#[derive(Drop)]
struct Word(u64);

impl Rests for Word {
    ghost rests = { λ _ _ _ _. Unit {0} };
}

impl Fits for Word {
    ghost fits = { λ _ _. Unit {0} };
}

/// Adds a child, gives its value and waits for it, so many times at one latch. The answer is how many waits were made.
pub fn add_done_and_wait(alloc: Global, label: u32, times: u32) -> Result<u64> {
    let mut owner = Owner::<Word, Word, Word>::new(alloc, 4)?;
    let mut made = 0u64;
    for number in 0..times {
        let Some(next) = turn(owner, label ^ number)? else {
            return Ok(made);
        };
        owner = next;
        made = made.saturating_add(1);
    }
    Ok(made)
}

/// One child, and the wait for it.
fn turn(
    mut owner: Owner<Word, Word, Word>,
    label: u32,
) -> Result<Option<Owner<Word, Word, Word>>, NoMemory>
    requires { length (kids owner) < 2 ^ 32 - 1 }
    ensures { IfOk result (λ o. IfSome o (λ next. length (kids next) ≡ length (kids owner) + 1)) }
{
    let Some(child) = owner.add(ChildKind::Vdev, u64::from(label))? else {
        return Ok(None);
    };
    let _receipt = child.done(Word(7));
    let Ok(woken) = owner.wait(Word(5), ChildKind::Vdev, Phase::Done) else {
        return Ok(None);
    };
    Ok(Some(woken.arrived.into_owner()))
}
