ghost use Rattle.std.specs.Prelude.{◌≡◌, ℕ, List, [], true, IfSome};

use std::alloc::Global;
use zio_outside::{Failed, Sink};

/// A sink that takes every piece. It holds them while memory is granted, and from then on tells nothing.
#[derive(Debug, Drop)]
pub struct GrowingSink {
    bytes: Vec<u8>,
    is_whole: bool,
}

impl GrowingSink {
    ghost use Rattle.zio_row.specs.Sinks.{holds};

    /// An empty sink, without memory.
    pub fn new(alloc: Global) -> GrowingSink
        ensures { holds result [] }
    {
        GrowingSink {
            bytes: Vec::new(alloc),
            is_whole: true,
        }
    }

    /// What was written, none where memory was refused for a part of it.
    pub fn written(&self) -> Option<&[u8]>
        ensures { IfSome result (λ bytes. holds self.now bytes.now) }
    {
        if self.is_whole {
            Some(self.bytes.as_slice())
        } else {
            None
        }
    }
}

impl Sink for GrowingSink {
    ghost use Rattle.zio_row.specs.Sinks.{holds};
    ghost use Rattle.std.proofs.Common.{arith};
    ghost use Rattle.zio_outside.specs.Outside.{count_max};

    ghost faults = { λ _. 0 };

    ghost holds = { holds };

    ghost sound = { λ _ _. Unit {0} };

    fn write(&mut self, piece: &[u8]) -> Result<(), Failed> {
        if self.bytes.extend_from_slice(piece).is_err() {
            self.is_whole = false;
        }
        Ok(())
    }

    ghost sound_counts = { λ sink room sound. omega arith };

    ghost sound_fewer = { λ sink fewer room less sound. tt };
}
