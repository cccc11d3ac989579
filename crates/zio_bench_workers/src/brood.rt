use anyhow::Result;
use std::alloc::Global;
use zio_counts::Brood;
use zio_types::{ChildKind, NoMemory, Phase};

/// Adds so many children, of which each hands in both its values and is asked after, so many times. The answer is how
/// many were missing.
pub fn hand_in(alloc: Global, children: u32, times: u32) -> Result<u64> {
    let mut missing = 0u64;
    for _ in 0..times {
        let mut brood = Brood::<u32, u64>::new(alloc);
        for label in 0..children {
            if one_child(&mut brood, label)? {
                missing = missing.saturating_add(1);
            }
        }
    }
    Ok(missing)
}

/// Adds a child and hands in its values. Whether it was missing between the two.
fn one_child(brood: &mut Brood<u32, u64>, label: u32) -> Result<bool, NoMemory> {
    let number = brood.add(ChildKind::Logical, u64::from(label))?;
    brood.ready(number, label);
    let missing = brood.missing(ChildKind::Logical, Phase::Done).is_some();
    brood.done(number, u64::from(label));
    Ok(missing)
}
