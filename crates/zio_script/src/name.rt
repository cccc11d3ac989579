ghost use Rattle.std.specs.Prelude.{◌≡◌, MatchOption, true, false};
ghost use Rattle.std.specs.List.{list_all};
ghost use Rattle.zio_script.specs.Keys.{name_key};
ghost use Rattle.zio_script.specs.Words.{is_name, is_name_char};

use std::marker::Model;

/// The most characters of a name.
pub const NAME_LEN_MAX: u32 = 16;

/// A block's name: 1 to 16 characters of a to z, 0 to 9 and `_`. A contract sees it as its text.
#[derive(Clone, Copy, Debug, PartialEq, Eq, Hash)]
pub struct Name {
    pub len: u32,
    /// Zeros from `len` on.
    pub bytes: [u8; 16],
}

impl Model for Name {
    ghost use Rattle.std.specs.Prelude.{List, ℕ, take, length};
    ghost use mathlib.Core.Path.{sym};
    ghost use Rattle.zio_types.specs.Filled.{IsFilled, filled_to, length-take-filled};
    ghost use Rattle.zio_script.specs.Words.{is_name};
    ghost use Rattle.std.specs.Prelude.{◌≡◌, true};

    ghost Value = { List ℕ };

    ghost view = { λ n. take n.len n.bytes };

    ghost invariant = { λ n. IsFilled 0 16 n.len n.bytes × (is_name (take n.len n.bytes) ≡ true) };

    ghost inverse = { λ t. record { len = length t; bytes = filled_to 0 16 t } };

    ghost inverse_ok = { λ n h i. record {
      len = length-take-filled 0 16 n.len n.bytes h.0 i;
      bytes = sym h.0.rest i;
    } };
}

impl Name {
    /// The characters.
    pub fn as_bytes(&self) -> &[u8]
        ensures text { result.now ≡ self.now }
        ensures name { is_name self.now ≡ true }
    {
        &self.bytes[..self.len as usize]
    }

    /// A number that no other name has.
    pub(crate) fn key(&self) -> u128
        ensures { result ≡ name_key self.now }
    {
        u128::from_le_bytes(self.bytes)
    }

    /// The name that the word is. None where it is empty, has more than `NAME_LEN_MAX` characters, or one that a name
    /// may not have.
    pub fn from_word(word: &[u8]) -> Option<Name>
        ensures { MatchOption result (is_name word.now ≡ false)
            (λ name. (is_name word.now ≡ true) × (name ≡ word.now)) }
    {
        if word.is_empty() || word.len() > NAME_LEN_MAX as usize || !are_name_chars(word) {
            return None;
        }
        let mut bytes = [0; 16];
        bytes[..word.len()].copy_from_slice(word);
        Some(Name {
            len: word.len() as u32,
            bytes,
        })
    }
}

fn are_name_chars(word: &[u8]) -> bool
    ensures { result ≡ list_all is_name_char word.now }
{
    word.iter().all(|c| is_name_char(*c))
}

fn is_name_char(c: u8) -> bool
    ensures { result ≡ is_name_char c }
{
    matches!(c, b'a'..=b'z' | b'0'..=b'9' | b'_')
}
