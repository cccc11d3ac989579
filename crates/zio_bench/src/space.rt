ghost use Rattle.std.specs.Prelude.{◌≡◌, true};
ghost use Rattle.zio_types.specs.Places.{is_lawful_top};

use anyhow::{Result, bail};
use std::alloc::Global;
use zio_places::{Space, TopSize};
use zio_types::{Key, Path, Place, Role};

/// How many calls there are before a round is closed.
const ROUND: u32 = 64;

/// The unit of the top that places are taken from.
#[derive(Clone, Copy)]
pub enum Unit {
    One,
    Eight,
}

/// Takes a place of one unit and gives it back, so many times, beside so many free runs of one unit. The answer is how
/// many places were found.
pub fn take_and_give_back(alloc: Global, unit: Unit, runs: u32, calls: u32) -> Result<u32> {
    match unit {
        Unit::One => {
            let sectors = 2 * u64::from(runs);
            take_in(alloc, TopSize { sectors, unit: 1 }, runs, calls)
        }
        Unit::Eight => {
            let sectors = 16 * u64::from(runs);
            take_in(alloc, TopSize { sectors, unit: 8 }, runs, calls)
        }
    }
}

fn take_in(alloc: Global, top: TopSize, runs: u32, calls: u32) -> Result<u32>
    requires { is_lawful_top top ≡ true }
{
    let Ok(mut space) = Space::new(alloc, &[top]) else {
        bail!("no memory");
    };
    let mut between = Vec::new(alloc);
    for i in 0..u64::from(runs) {
        between.push(Place {
            top: 0,
            sector: 2 * i * u64::from(top.unit),
            sectors: top.unit,
        })?;
    }
    if space.claim(&between).is_err() {
        bail!("no room between the runs");
    }
    let mut found = 0u32;
    for call in 0..calls {
        if space.reserve(1).is_err() {
            bail!("no memory");
        }
        let entry = space.take(key_of(call), 512, 1);
        let place = entry.places[0];
        if space.is_live(&place) {
            found = found.saturating_add(1);
            space.give_back(place);
        }
        if call % ROUND == 0 {
            space.close_round();
        }
    }
    Ok(found)
}

fn key_of(call: u32) -> Key {
    Key {
        request: 1,
        round: call,
        attempt: 0,
        path: Path {
            len: 0,
            steps: [0; 8],
        },
        role: Role::Body,
    }
}
