//! The line of completed requests.
ghost use Rattle.std.specs.Prelude.{◌≡◌, ℕ, [], List, IfOk, MatchOption};
ghost use Rattle.zio_spelled.specs.Spelled.{IsOrder};
ghost use Rattle.zio_spelled.specs.Reading.{numbers_onto, order_in, unread};

use crate::number::number_in;
use crate::parts::Parts;
use std::alloc::Global;
use zio_types::{List, NoMemory, ReqNo};

/// The requests that an `order` line spells, none exactly where it isn't of its shape.
pub fn order_line(alloc: Global, line: &[u8]) -> Result<Option<List<ReqNo>>, NoMemory>
    ensures { IfOk result (λ numbers. MatchOption numbers
        ((numbers : List ℕ) → ¬ IsOrder line.now numbers)
        (λ numbers. IsOrder line.now numbers)) }
{
    order_in(alloc, line)
}

pub(crate) fn order_in(alloc: Global, line: &[u8]) -> Result<Option<List<ReqNo>>, NoMemory>
    ensures { IfOk result (λ numbers. numbers ≡ order_in line.now) }
{
    let mut words = Parts::of(line, b' ');
    match words.next() {
        Some(b"order") => numbers_in(alloc, words),
        _ => Ok(None),
    }
}

// The numbers of the words, none where one isn't a number or there is none.
fn numbers_in(alloc: Global, words: Parts<'_>) -> Result<Option<List<ReqNo>>, NoMemory>
    ensures { IfOk result (λ numbers. numbers ≡ numbers_onto [] (unread words.entry)) }
{
    let mut words = words;
    let mut numbers = List::new(alloc);
    while let Some(word) = words.next() {
        let Some(number) = number_in(word) else {
            return Ok(None);
        };
        numbers.push(number)?;
    }
    if numbers.is_empty() {
        Ok(None)
    } else {
        Ok(Some(numbers))
    }
}
