ghost use Rattle.std.specs.Prelude.{◌≡◌};
ghost use Rattle.zio_script.specs.Decisions.{all_bits, decided, gone_bits, write_bits_unless};

use zio_script::Failmode;
use zio_types::{Bits, Errno, Kind};

/// How often a tree is attempted again at once in a round.
pub const REEXECUTIONS_MAX: u32 = 3;

const NOW: Bits = Bits {
    now: true,
    suspend: false,
};

const SUSPEND: Bits = Bits {
    now: false,
    suspend: true,
};

/// All bits of a request with this error and its children's bits: those, and its own by the failure decision.
///
/// `error` is that of its own work, with its vdev and gang children's.
pub fn all_bits(
    kind: Kind,
    error: Option<Errno>,
    canfail: bool,
    failmode: Failmode,
    children: Bits,
) -> Bits
    ensures { result ≡ all_bits kind error canfail failmode children }
{
    let Some(error) = error else {
        return children;
    };
    match kind {
        Kind::Null => decided(canfail, children),
        Kind::Read => decided(canfail, gone_bits(error, failmode).join(children)),
        Kind::Write => decided(canfail, write_bits_unless(canfail, error).join(children)),
        Kind::Free => decided(canfail, gone_bits(error, failmode).join(children)),
        Kind::Claim => children,
    }
}

fn write_bits_unless(canfail: bool, error: Errno) -> Bits
    ensures { result ≡ write_bits_unless canfail error }
{
    if canfail {
        return Bits::NONE;
    }
    match error {
        Errno::Nospc => SUSPEND,
        _ => NOW,
    }
}

fn gone_bits(error: Errno, failmode: Failmode) -> Bits
    ensures { result ≡ gone_bits error failmode }
{
    match (error, failmode) {
        (Errno::Nxio, Failmode::Wait | Failmode::Panic) => SUSPEND,
        _ => Bits::NONE,
    }
}

/// A request that may not fail and has no bit waits.
fn decided(canfail: bool, bits: Bits) -> Bits
    ensures { result ≡ decided canfail bits }
{
    if canfail || bits.go_again() {
        bits
    } else {
        SUSPEND
    }
}
