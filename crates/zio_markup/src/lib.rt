//! The text of a picture: markup that stands in a program, numbers, and escaped text from outside.
//!
//! It stands on `zio_types` alone. Read `Markup::put` first, by which all is written. `specs/Escapes` says what
//! becomes of text from outside, and `specs/Pieces` what each piece is written as; by the law
//! `outside_is_character_data`, whose statements are in `specs/Laws`, nothing from outside is taken for markup.
#![tactic(auto)]

mod laws;
mod markup;

pub use laws::outside_is_character_data;
pub use markup::{Markup, Piece};
