//! A sink that keeps the first bytes.

use zio_outside::{Failed, Sink};

/// How many bytes of the output are kept: more than the longest line of a refused run, or of an audit, has.
const FRONT_LEN: usize = 32;

/// A sink whose first bytes are kept, so that what was refused can be told in words.
#[derive(Drop)]
pub struct Watched<O> {
    sink: O,
    front: [u8; FRONT_LEN],
    len: usize,
}

impl<O: Sink> Watched<O> {
    pub fn new(sink: O) -> Watched<O> {
        Watched {
            sink,
            front: [0; FRONT_LEN],
            len: 0,
        }
    }

    /// The first bytes that were to be written.
    pub fn front(&self) -> &[u8] {
        match self.front.get(..self.len) {
            Some(front) => front,
            None => &[],
        }
    }
}

/// Puts the bytes of the piece behind those that are there, as far as there is room, and says how many there are then.
fn keep(front: &mut [u8; FRONT_LEN], len: usize, piece: &[u8]) -> usize {
    let mut end = len;
    for byte in piece {
        let Some(place) = front.get_mut(end) else {
            return end;
        };
        *place = *byte;
        end += 1;
    }
    end
}

impl<O: Sink> Sink for Watched<O> {
    ghost faults = { λ w. O.faults w.sink };

    ghost holds = { λ w. O.holds w.sink };

    ghost sound = { λ w. O.sound w.sink };

    fn write(&mut self, piece: &[u8]) -> Result<(), Failed> {
        self.len = keep(&mut self.front, self.len, piece);
        self.sink.write(piece)
    }

    ghost sound_counts = { λ w. O.sound_counts w.sink };

    ghost sound_fewer = { λ w. O.sound_fewer w.sink };
}
