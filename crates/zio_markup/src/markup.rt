//! The text of a picture. What comes from outside stands in it escaped, and nothing else does.
ghost use Rattle.std.specs.Prelude.{◌≡◌, ◌++◌, [], OnOk, string_bytes};
ghost use Rattle.zio_markup.specs.Escapes.{escape_of, escaped};
ghost use Rattle.zio_markup.specs.Pieces.{piece_text, pieces_text};

use std::alloc::{AllocError, Global};
use std::marker::Model;
use zio_types::NoMemory;

/// A piece of a picture's text.
#[derive(Clone, Copy)]
pub enum Piece<'a> {
    /// Markup that stands in this program.
    Fixed(&'static str),
    /// A number, in decimal.
    Number(u32),
    /// Text from outside, which is escaped.
    Outside(&'a [u8]),
}

/// The text of a picture, made of pieces alone. A contract sees it as its bytes.
#[derive(Drop)]
pub struct Markup {
    text: String,
}

impl Model for Markup {
    ghost use Rattle.std.specs.Prelude.{List, ℕ, string_bytes};

    ghost Value = { List ℕ };

    ghost view = { λ m. string_bytes m.text };
}

impl Markup {
    /// No text yet; it takes no memory.
    pub fn new(alloc: Global) -> Markup
        ensures { result ≡ [] }
    {
        Markup {
            text: String::new(alloc),
        }
    }

    /// The text so far.
    pub fn as_bytes(&self) -> &[u8]
        ensures { result.now ≡ self.now }
    {
        self.text.as_bytes()
    }

    /// Adds the pieces at the end.
    pub fn put(&mut self, pieces: &[Piece<'_>]) -> Result<(), NoMemory>
        ensures { OnOk result (self.new ≡ self.old ++ pieces_text pieces.now) }
    {
        Ok(put_pieces(&mut self.text, pieces)?)
    }

    /// Adds the other text at the end.
    pub fn append(&mut self, other: &Markup) -> Result<(), NoMemory>
        ensures { OnOk result (self.new ≡ self.old ++ other.now) }
    {
        Ok(self.text.push_str(other.text.as_str())?)
    }
}

fn put_pieces(text: &mut String, pieces: &[Piece<'_>]) -> Result<(), AllocError>
    ensures { OnOk result (string_bytes text.new ≡ string_bytes text.old ++ pieces_text pieces.now) }
{
    for piece in pieces {
        put_piece(text, piece)?;
    }
    Ok(())
}

fn put_piece(text: &mut String, piece: &Piece<'_>) -> Result<(), AllocError>
    ensures { OnOk result (string_bytes text.new ≡ string_bytes text.old ++ piece_text piece.now) }
{
    match piece {
        Piece::Fixed(markup) => text.push_str(markup),
        Piece::Number(number) => write!(text, "{number}"),
        Piece::Outside(outside) => put_outside(text, outside),
    }
}

fn put_outside(text: &mut String, outside: &[u8]) -> Result<(), AllocError>
    ensures { OnOk result (string_bytes text.new ≡ string_bytes text.old ++ escaped outside.now) }
{
    for byte in outside {
        put_byte(text, *byte)?;
    }
    Ok(())
}

fn put_byte(text: &mut String, byte: u8) -> Result<(), AllocError>
    ensures { OnOk result (string_bytes text.new ≡ string_bytes text.old ++ escape_of byte) }
{
    match byte {
        b'<' => text.push_str("&lt;"),
        b'>' => text.push_str("&gt;"),
        b'&' => text.push_str("&amp;"),
        b'"' => text.push_str("&quot;"),
        b'\'' => text.push_str("&apos;"),
        b'\t' => text.push_str(" "),
        b' '..=b'~' => text.push(char::from(byte)),
        _ => text.push_str("?"),
    }
}
