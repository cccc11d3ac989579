ghost use Rattle.std.specs.Prelude.{◌≡◌, ◌≤◌};
ghost use Rattle.zio_outside.specs.Outside.{count_max};

use crate::{Failed, Sink, Source};
use std::io;
use std::io::{Printer, Read, Write};

/// Standard input, which tells nothing of what is left.
///
/// Each error raises its count of faults by one.
#[derive(Drop)]
pub struct StdSource<R: Input> {
    reader: R::Reader,
    faults: u64,
    ghost in_range: { faults ≤ count_max },
}

impl<R: Input> StdSource<R> {
    /// The input of the runtime, without a fault.
    pub fn new(rt: &R) -> StdSource<R>
        ensures { ⟦<StdSource<R> as Source>⟧.faults result ≡ 0 }
    {
        StdSource {
            reader: rt.reader(),
            faults: 0,
        }
    }
}

impl<R: Input> Source for StdSource<R> {
    ghost faults = { λ s. s.faults };

    ghost left = { λ _ _. ⊥ };

    ghost sound = { λ _. ⊥ };

    fn read(&mut self, buffer: &mut [u8]) -> Result<usize, Failed> {
        match self.reader.read(buffer) {
            Ok(n) => Ok(n),
            Err(_) => {
                self.faults = self.faults.saturating_add(1);
                Err(Failed)
            }
        }
    }

    ghost sound_counts = { λ s sound. absurd sound };
}

/// Standard output, which tells nothing of what it holds and is flushed after each piece.
///
/// Each error raises its count of faults by one, as does an output that takes nothing of a rest.
#[derive(Drop)]
pub struct StdSink<'a, R: Print> {
    writer: Printer<'a, R>,
    faults: u64,
    ghost in_range: { faults ≤ count_max },
}

impl<'a, R: Print> StdSink<'a, R> {
    /// The output of the runtime, without a fault.
    pub fn new(rt: &'a R) -> StdSink<'a, R>
        ensures { ⟦<StdSink<'a, R> as Sink>⟧.faults result ≡ 0 }
    {
        StdSink {
            writer: io::writer(rt),
            faults: 0,
        }
    }

    fn write_through(&mut self, piece: &[u8]) -> io::Result<()>
        ensures { self.new.faults ≡ self.old.faults }
    {
        self.writer.write_all(piece)?;
        self.writer.flush()
    }
}

impl<'a, R: Print> Sink for StdSink<'a, R> {
    ghost faults = { λ s. s.faults };

    ghost holds = { λ _ _. ⊥ };

    ghost sound = { λ _ _. ⊥ };

    fn write(&mut self, piece: &[u8]) -> Result<(), Failed> {
        match self.write_through(piece) {
            Ok(()) => Ok(()),
            Err(_) => {
                self.faults = self.faults.saturating_add(1);
                Err(Failed)
            }
        }
    }

    ghost sound_counts = { λ s room sound. absurd sound };

    ghost sound_fewer = { λ s fewer room less sound. absurd sound };
}
