ghost use Rattle.std.specs.Prelude.{◌≡◌};
ghost use Rattle.zio_script.specs.Whys.{why_number};

/// Why a line of a script is refused, as docs/FORMATS.md has it under "Whys".
#[derive(Clone, Copy, Debug, PartialEq, Eq)]
pub enum Why {
    /// The line has no shape.
    Word,
    /// A word is no number, or no hexadecimal digits, where it has to be.
    Number,
    /// A number is out of its range, or something is too much.
    Limit,
    /// The line stands where it may not, or is missing.
    Order,
    /// A word in a name's place is no name.
    Name,
    /// The batch names the block already.
    Conflict,
    /// A child may not fail, and says that it may.
    Flag,
    /// The request may not stand where it says.
    Parent,
    /// A leaf stands twice or in no top, or there is no top.
    Pool,
}

impl Why {
    /// 1 to 9, in this order.
    pub fn number(self) -> u32
        ensures { result ≡ why_number self }
    {
        match self {
            Why::Word => 1,
            Why::Number => 2,
            Why::Limit => 3,
            Why::Order => 4,
            Why::Name => 5,
            Why::Conflict => 6,
            Why::Flag => 7,
            Why::Parent => 8,
            Why::Pool => 9,
        }
    }
}
