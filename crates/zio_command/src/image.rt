ghost use Rattle.std.specs.Prelude.{IsTrue, ◌↔◌};
ghost use Rattle.zio_command.specs.Outcomes.{HasLawfulSize};

/// The fewest bytes of an image.
pub const IMAGE_LEN_MIN: u64 = 64 * 1024;

/// The most bytes of an image.
pub const IMAGE_LEN_MAX: u64 = 256 * 1024 * 1024;

pub(crate) fn is_lawful_size(bytes: u64) -> bool
    ensures { IsTrue result ↔ HasLawfulSize bytes }
{
    IMAGE_LEN_MIN <= bytes && bytes <= IMAGE_LEN_MAX
}
