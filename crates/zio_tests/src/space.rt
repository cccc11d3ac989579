ghost use Rattle.std.specs.Prelude.{◌≡◌, ◌%◌, ◌<◌, ◌≤◌};

use std::alloc::Global;
use std::test::Fail;
use zio_places::{ClaimFault, Space};
use zio_types::{Key, NoMemory, Path, Place, Role, TopSize};

fn key(path: Path, role: Role) -> Key {
    Key {
        request: 1,
        round: 0,
        attempt: 0,
        path,
        role,
    }
}

fn root() -> Path {
    Path {
        len: 0,
        steps: [0; 8],
    }
}

/// How many places an ask finds.
fn ask(space: &mut Space, key: Key, size: u32, copies: u32) -> Result<usize, NoMemory>
    requires some { 0 < size }
    requires whole { size % 512 ≡ 0 }
    requires one { 1 ≤ copies }
    requires most { copies ≤ 3 }
{
    space.reserve(1)?;
    Ok(space.take(key, size, copies).found as usize)
}

/// Single sectors: every second one of the first top.
fn every_second(alloc: Global, count: u64) -> Result<Vec<Place>, NoMemory>
    requires { count < 1000 }
{
    let mut places = Vec::new(alloc);
    for i in 0..count {
        places.push(Place {
            top: 0,
            sector: 2 * i,
            sectors: 1,
        })?;
    }
    Ok(places)
}

#[test]
fn a_body_without_a_run_asks_for_its_gang(rt: HostRuntime) -> Result<(), Fail> {
    let mut space = Space::new(
        rt.alloc(),
        &[TopSize {
            sectors: 128,
            unit: 1,
        }],
    )?;
    space.claim(every_second(rt.alloc(), 64)?.as_slice())?;
    let whole = root();
    let first = whole.child(0).ok_or("too deep")?;
    let first_first = first.child(0).ok_or("too deep")?;
    let first_second = first.child(1).ok_or("too deep")?;
    let second = whole.child(1).ok_or("too deep")?;
    let third = whole.child(2).ok_or("too deep")?;
    let mut found = Vec::new(rt.alloc());
    found.push(ask(&mut space, key(whole, Role::Body), 2048, 1)?)?;
    found.push(ask(&mut space, key(whole, Role::Head), 512, 2)?)?;
    found.push(ask(&mut space, key(first, Role::Body), 1024, 1)?)?;
    found.push(ask(&mut space, key(first, Role::Head), 512, 2)?)?;
    found.push(ask(&mut space, key(first_first, Role::Body), 512, 1)?)?;
    found.push(ask(&mut space, key(first_second, Role::Body), 512, 1)?)?;
    found.push(ask(&mut space, key(second, Role::Body), 512, 1)?)?;
    found.push(ask(&mut space, key(third, Role::Body), 512, 1)?)?;
    assert_eq!(rt; found.as_slice(), [0, 2, 0, 2, 1, 1, 1, 1].as_slice());
    assert_eq!(rt; space.entries().len(), 8);
    Ok(())
}

#[test]
fn no_place_is_given_to_two_blocks(rt: HostRuntime) -> Result<(), Fail> {
    let mut space = Space::new(
        rt.alloc(),
        &[
            TopSize {
                sectors: 40,
                unit: 1,
            },
            TopSize {
                sectors: 0,
                unit: 1,
            },
            TopSize {
                sectors: 100,
                unit: 1,
            },
        ],
    )?;
    let mut seen = vec![in rt.alloc(); false; 140]?;
    for i in 0..28u32 {
        space.reserve(1)?;
        let entry = space.take(key(root(), Role::Body), 2560, 1);
        assert_eq!(rt; entry.found, 1, "block {i}");
        let place = entry.places[0];
        assert!(rt; space.is_live(&place));
        let offset = if place.top == 0 { 0 } else { 40 };
        for sector in 0..5 {
            assert!(rt; place.sector < 100);
            let at = (offset + place.sector + sector) as usize;
            assert!(rt; at < seen.len());
            assert!(rt; !seen[at], "sector {at}");
            seen[at] = true;
        }
    }
    assert_eq!(rt; ask(&mut space, key(root(), Role::Body), 512, 1)?, 0);
    Ok(())
}

#[test]
fn a_place_is_free_again_only_after_the_round(rt: HostRuntime) -> Result<(), Fail> {
    let mut space = Space::new(
        rt.alloc(),
        &[TopSize {
            sectors: 100,
            unit: 1,
        }],
    )?;
    let whole = Place {
        top: 0,
        sector: 0,
        sectors: 100,
    };
    space.claim(&[whole])?;
    assert!(rt; space.is_live(&whole));
    space.give_back(whole);
    assert!(rt; !space.is_live(&whole));
    assert_eq!(rt; ask(&mut space, key(root(), Role::Body), 512, 1)?, 0);
    space.close_round();
    assert_eq!(rt; ask(&mut space, key(root(), Role::Body), 51200, 1)?, 1);
    Ok(())
}

#[test]
fn a_top_of_unit_8_takes_as_many_blocks_as_it_has_units(rt: HostRuntime) -> Result<(), Fail> {
    let mut space = Space::new(
        rt.alloc(),
        &[TopSize {
            sectors: 128,
            unit: 8,
        }],
    )?;
    let mut is_taken = vec![in rt.alloc(); false; 128]?;
    for i in 0..16u32 {
        space.reserve(1)?;
        let entry = space.take(key(root(), Role::Body), 512, 1);
        assert_eq!(rt; entry.found, 1, "block {i}");
        let place = entry.places[0];
        assert_eq!(rt; place.sectors, 8);
        assert_eq!(rt; place.sector % 8, 0);
        assert!(rt; place.sector < 128);
        let at = place.sector as usize;
        assert!(rt; at < is_taken.len());
        assert!(rt; !is_taken[at], "sector {at}");
        is_taken[at] = true;
    }
    assert_eq!(rt; ask(&mut space, key(root(), Role::Body), 512, 1)?, 0);
    Ok(())
}

#[test]
fn copies_on_tops_of_two_units_have_their_own_lengths(rt: HostRuntime) -> Result<(), Fail> {
    let mut space = Space::new(
        rt.alloc(),
        &[
            TopSize {
                sectors: 16,
                unit: 8,
            },
            TopSize {
                sectors: 16,
                unit: 1,
            },
        ],
    )?;
    space.reserve(1)?;
    let entry = space.take(key(root(), Role::Body), 512, 2);
    assert_eq!(rt; entry.found, 2);
    let mut lengths = [0; 2];
    for place in &entry.places[..2] {
        if place.top < 2 {
            lengths[place.top as usize] = place.sectors;
        }
    }
    assert_eq!(rt; lengths, [8, 1]);
    Ok(())
}

#[test]
fn a_claim_is_of_whole_units(rt: HostRuntime) -> Result<(), Fail> {
    let mut space = Space::new(
        rt.alloc(),
        &[TopSize {
            sectors: 128,
            unit: 8,
        }],
    )?;
    let cases = [
        (8, 1, Err(ClaimFault::Outside)),
        (4, 8, Err(ClaimFault::Outside)),
        (128, 8, Err(ClaimFault::Outside)),
        (8, 8, Ok(())),
        (8, 8, Err(ClaimFault::Taken)),
    ];
    for (sector, sectors, wanted) in cases {
        let place = Place {
            top: 0,
            sector,
            sectors,
        };
        let claimed = space.claim(&[place]);
        assert!(rt; claimed == wanted, "sector {sector}, {sectors} sectors");
    }
    Ok(())
}

#[test]
fn a_journal_is_taken_out_and_goes_on(rt: HostRuntime) -> Result<(), Fail> {
    let mut space = Space::new(
        rt.alloc(),
        &[TopSize {
            sectors: 4,
            unit: 1,
        }],
    )?;
    space.reserve(3)?;
    let first = space.take(key(root(), Role::Body), 512, 1);
    let entries = space.take_entries();
    assert_eq!(rt; entries.len(), 1);
    assert!(rt; space.entries().is_empty());
    assert!(rt; space.is_live(&first.places[0]));
    assert_eq!(rt; ask(&mut space, key(root(), Role::Head), 512, 3)?, 3);
    assert_eq!(rt; space.entries().len(), 1);
    Ok(())
}
