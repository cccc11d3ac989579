//! Entries for a top of eight sectors.

use zio_types::{Entry, Key, NOWHERE, Path, Place, Role, TopSize};

pub(crate) const EIGHT: TopSize = TopSize {
    sectors: 8,
    unit: 1,
};

/// An entry for one copy that found this place.
pub(crate) fn found(request: u32, sector: u64, sectors: u32) -> Entry {
    Entry {
        key: key(request),
        size: 1024,
        copies: 1,
        found: 1,
        places: [
            Place {
                top: 0,
                sector,
                sectors,
            },
            NOWHERE,
            NOWHERE,
        ],
    }
}

/// An entry for one copy that found no place.
pub(crate) fn refused(request: u32) -> Entry {
    Entry {
        key: key(request),
        size: 1024,
        copies: 1,
        found: 0,
        places: [NOWHERE; 3],
    }
}

fn key(request: u32) -> Key {
    Key {
        request,
        round: 1,
        attempt: 0,
        path: Path {
            len: 0,
            steps: [0; 8],
        },
        role: Role::Body,
    }
}
