//! A line against a plain list, in a fixed order of picks, and the picks.

use std::process::Abort;
use std::test::Fail;
use zio_turns::{FirstPicks, Line, Picks, SeedPicks, from_seed};
use zio_types::NoMemory;

/// Adds a value to both.
fn push(line: &mut Line, plain: &mut Vec<usize>, value: usize) -> Result<(), NoMemory> {
    line.push(value)?;
    plain.push(value)?;
    Ok(())
}

/// Takes a picked value from both, which have to agree.
fn take(rt: &impl Abort, line: &mut Line, plain: &mut Vec<usize>, picks: &mut SeedPicks) {
    assert_eq!(rt; line.len(), plain.len());
    let waiting = u32::try_from(line.len()).unwrap_or(0);
    if waiting > 0 {
        let k = picks.pick(waiting) as usize;
        assert_eq!(rt; line.take(k), plain.remove(k));
    }
}

/// More come than go, then more go than come, so that tables of several sizes are made and one is made anew.
#[test]
fn values_are_those_of_a_plain_list(rt: HostRuntime) -> Result<(), Fail> {
    let mut picks = from_seed(7);
    let mut line = Line::new(rt.alloc());
    let mut plain = Vec::new(rt.alloc());
    for pushes in [3, 2, 1, 3, 2] {
        for value in 0..500 {
            if picks.pick(4) < pushes {
                push(&mut line, &mut plain, value)?;
            } else {
                take(&rt, &mut line, &mut plain, &mut picks);
            }
        }
    }
    for _ in 0..3_000 {
        take(&rt, &mut line, &mut plain, &mut picks);
    }
    assert_eq!(rt; line.len(), 0);
    assert_eq!(rt; plain.len(), 0);
    Ok(())
}

/// The figures are those of a program in another language.
#[test]
fn picks_among_a_thousand_from_seed_0(rt: HostRuntime) {
    let mut picks = from_seed(0);
    for want in [407, 466, 793, 940, 283] {
        assert_eq!(rt; picks.pick(1_000), want);
    }
}

#[test]
fn the_first_is_picked(rt: HostRuntime) {
    assert_eq!(rt; FirstPicks.pick(9), 0);
}
