//! The shape of a line, found by its words.
ghost use Rattle.std.specs.Prelude.{◌≡◌, MatchOption, map, option_map};
ghost use Rattle.zio_script.specs.Lines.{body_found, clear_shape, fault_shape, first_of_end, flag_tail, go_shape, kind_shape, failmode_shape, named_shape, request_shape, shape_of, tail_of, top_shape, top_words, under_tail};
ghost use Rattle.zio_script.specs.Shapes.{HasNoSector, HasSector, body_as, content_found, first_shape, request_as, shape_as, tail_as, top_as};
ghost use Rattle.zio_types.specs.declared.request.Kind.TheVariants.{Null, Read, Write, Free, Claim};

use crate::Failmode;
use crate::fixed::{
    BodyForm, FirstWord, body_form_in, failmode_in, fault_in, first_in, flag_in, is_first,
    is_sector, is_under, kind_in, operation_in, read_class_in, sum_in, write_class_in,
};
use crate::shape::{BodyShape, LineShape, RequestShape, RowShape, Tail, TopShape, WorkShape};
use zio_blkptr::SumKind;
use zio_faults::{FaultKind, On};
use zio_types::{Kind, Prio};

/// A body, and the words behind it.
#[derive(Clone, Copy)]
struct BodyFound<'w, 'a> {
    body: BodyShape<'a>,
    rest: &'w [&'a [u8]],
}

/// The shape of a line, if it has one.
pub(crate) fn shape_of<'w, 'a>(words: &'w [&'a [u8]]) -> Option<LineShape<'w, 'a>>
    ensures { option_map shape_as result ≡ shape_of (map (λ w. w.now) words.now) }
{
    match named_shape(words) {
        Some(shape) => Some(shape),
        None => Some(LineShape::Request(request_shape(words)?)),
    }
}

// The shape by the first word.
fn named_shape<'w, 'a>(words: &'w [&'a [u8]]) -> Option<LineShape<'w, 'a>>
    ensures { option_map shape_as result ≡ named_shape (map (λ w. w.now) words.now) }
{
    let (word, rest) = words.split_first()?;
    first_shape(first_in(word)?, rest)
}

fn first_shape<'w, 'a>(first: FirstWord, words: &'w [&'a [u8]]) -> Option<LineShape<'w, 'a>>
    ensures { option_map shape_as result ≡ first_shape first (map (λ w. w.now) words.now) }
{
    match first {
        FirstWord::Failmode => failmode_shape(words),
        FirstWord::Top => top_shape(words),
        FirstWord::Fault => fault_shape(words),
        FirstWord::Go => go_shape(words),
        FirstWord::Clear => clear_shape(words),
    }
}

fn failmode_shape<'w, 'a>(words: &'w [&'a [u8]]) -> Option<LineShape<'w, 'a>>
    ensures { option_map shape_as result ≡ failmode_shape (map (λ w. w.now) words.now) }
{
    match words {
        [mode] => Some(LineShape::Failmode(failmode_in(mode)?)),
        _ => None,
    }
}

fn go_shape<'w, 'a>(words: &'w [&'a [u8]]) -> Option<LineShape<'w, 'a>>
    ensures { option_map shape_as result ≡ go_shape (map (λ w. w.now) words.now) }
{
    match words {
        [] => Some(LineShape::Go),
        _ => None,
    }
}

fn clear_shape<'w, 'a>(words: &'w [&'a [u8]]) -> Option<LineShape<'w, 'a>>
    ensures { option_map shape_as result ≡ clear_shape (map (λ w. w.now) words.now) }
{
    match words {
        [] => Some(LineShape::Clear),
        _ => None,
    }
}

fn top_shape<'w, 'a>(words: &'w [&'a [u8]]) -> Option<LineShape<'w, 'a>>
    ensures { option_map shape_as result ≡ top_shape (map (λ w. w.now) words.now) }
{
    let top = top_words(words);
    match top.leaves.len() {
        1..=4 => Some(LineShape::Top(top)),
        _ => None,
    }
}

#[tactic(auto, using(crate::proofs::LineShapeLemmas::top_with_sector, crate::proofs::LineShapeLemmas::top_without_sector))]
fn top_words<'w, 'a>(words: &'w [&'a [u8]]) -> TopShape<'w, 'a>
    ensures { top_as result ≡ top_words (map (λ w. w.now) words.now) }
{
    match sector_end(words) {
        Some((leaves, sector)) => TopShape {
            leaves,
            sector: Some(sector),
        },
        None => TopShape {
            leaves: words,
            sector: None,
        },
    }
}

// The leaves before `sector S`, and S, where the words end so behind a leaf.
fn sector_end<'w, 'a>(words: &'w [&'a [u8]]) -> Option<(&'w [&'a [u8]], &'a [u8])>
    ensures { MatchOption result (HasNoSector (map (λ w. w.now) words.now))
        (λ found. HasSector (map (λ w. w.now) words.now) (map (λ w. w.now) found.0.now) found.1.now) }
{
    let (sector, front) = words.split_last()?;
    let (word, leaves) = front.split_last()?;
    if leaves.is_empty() || !is_sector(word) {
        return None;
    }
    Some((leaves, sector))
}

fn fault_shape<'w, 'a>(words: &'w [&'a [u8]]) -> Option<LineShape<'w, 'a>>
    ensures { option_map shape_as result ≡ fault_shape (map (λ w. w.now) words.now) }
{
    match words {
        [leaf, operation, at, len, from, until, fault, end @ ..] => {
            let on = operation_in(operation)?;
            let kind = fault_in(fault)?;
            let first = first_of_end(end)?;
            Some(LineShape::Fault(RowShape {
                leaf,
                on,
                at,
                len,
                from,
                until,
                kind,
                first,
            }))
        }
        _ => None,
    }
}

fn first_of_end(words: &[&[u8]]) -> Option<bool>
    ensures { result ≡ first_of_end (map (λ w. w.now) words.now) }
{
    match words {
        [] => Some(false),
        [word] if is_first(word) => Some(true),
        _ => None,
    }
}

fn request_shape<'a>(words: &[&'a [u8]]) -> Option<RequestShape<'a>>
    ensures { option_map request_as result ≡ request_shape (map (λ w. w.now) words.now) }
{
    match words {
        [number, word, rest @ ..] => kind_shape(number, kind_in(word)?, rest),
        _ => None,
    }
}

fn kind_shape<'a>(number: &'a [u8], kind: Kind, words: &[&'a [u8]]) -> Option<RequestShape<'a>>
    ensures { option_map request_as result ≡ kind_shape number.now kind (map (λ w. w.now) words.now) }
{
    match kind {
        Kind::Null => null_shape(number, words),
        Kind::Read => read_shape(number, words),
        Kind::Write => write_shape(number, words),
        Kind::Free => free_shape(number, words),
        Kind::Claim => claim_shape(number, words),
    }
}

fn null_shape<'a>(number: &'a [u8], words: &[&'a [u8]]) -> Option<RequestShape<'a>>
    ensures { option_map request_as result ≡ kind_shape number.now Null (map (λ w. w.now) words.now) }
{
    let tail = tail_of(words)?;
    Some(RequestShape {
        number,
        work: WorkShape::Null,
        tail,
    })
}

fn read_shape<'a>(number: &'a [u8], words: &[&'a [u8]]) -> Option<RequestShape<'a>>
    ensures { option_map request_as result ≡ kind_shape number.now Read (map (λ w. w.now) words.now) }
{
    match words {
        [name, class, rest @ ..] => {
            let prio = read_class_in(class)?;
            let tail = tail_of(rest)?;
            Some(RequestShape {
                number,
                work: WorkShape::Read { name, prio },
                tail,
            })
        }
        _ => None,
    }
}

fn write_shape<'a>(number: &'a [u8], words: &[&'a [u8]]) -> Option<RequestShape<'a>>
    ensures { option_map request_as result ≡ kind_shape number.now Write (map (λ w. w.now) words.now) }
{
    match words {
        [name, sum, copies, class, rest @ ..] => {
            let sum = sum_in(sum)?;
            let prio = write_class_in(class)?;
            let found = body_found(rest)?;
            let tail = tail_of(found.rest)?;
            Some(RequestShape {
                number,
                work: WorkShape::Write {
                    name,
                    sum,
                    copies,
                    prio,
                    body: found.body,
                },
                tail,
            })
        }
        _ => None,
    }
}

fn free_shape<'a>(number: &'a [u8], words: &[&'a [u8]]) -> Option<RequestShape<'a>>
    ensures { option_map request_as result ≡ kind_shape number.now Free (map (λ w. w.now) words.now) }
{
    match words {
        [name, rest @ ..] => {
            let tail = tail_of(rest)?;
            Some(RequestShape {
                number,
                work: WorkShape::Free { name },
                tail,
            })
        }
        _ => None,
    }
}

fn claim_shape<'a>(number: &'a [u8], words: &[&'a [u8]]) -> Option<RequestShape<'a>>
    ensures { option_map request_as result ≡ kind_shape number.now Claim (map (λ w. w.now) words.now) }
{
    match words {
        [name, hex] => Some(RequestShape {
            number,
            work: WorkShape::Claim { name, hex },
            tail: Tail {
                under: None,
                flag: None,
            },
        }),
        _ => None,
    }
}

// The body at the front of the words.
fn body_found<'w, 'a>(words: &'w [&'a [u8]]) -> Option<BodyFound<'w, 'a>>
    ensures { option_map body_as result ≡ body_found (map (λ w. w.now) words.now) }
{
    match words {
        [] => None,
        [word, rest @ ..] => content_found(body_form_in(word)?, rest),
    }
}

fn content_found<'w, 'a>(form: BodyForm, words: &'w [&'a [u8]]) -> Option<BodyFound<'w, 'a>>
    ensures { option_map body_as result ≡ content_found form (map (λ w. w.now) words.now) }
{
    match (form, words) {
        (BodyForm::Data, [hex, rest @ ..]) => Some(BodyFound {
            body: BodyShape::Hex(hex),
            rest,
        }),
        (BodyForm::Fill, [byte, len, rest @ ..]) => Some(BodyFound {
            body: BodyShape::Fill { byte, len },
            rest,
        }),
        (BodyForm::Seq, [seed, len, rest @ ..]) => Some(BodyFound {
            body: BodyShape::Seq { seed, len },
            rest,
        }),
        _ => None,
    }
}

// `[under P] [must|canfail]`
fn tail_of<'a>(words: &[&'a [u8]]) -> Option<Tail<'a>>
    ensures { option_map tail_as result ≡ tail_of (map (λ w. w.now) words.now) }
{
    match words {
        [] => Some(Tail {
            under: None,
            flag: None,
        }),
        [flag] => flag_tail(None, flag),
        [word, parent] if is_under(word) => Some(Tail {
            under: Some(parent),
            flag: None,
        }),
        [word, parent, flag] if is_under(word) => flag_tail(Some(parent), flag),
        _ => None,
    }
}

fn flag_tail<'a>(under: Option<&'a [u8]>, word: &[u8]) -> Option<Tail<'a>>
    ensures { option_map tail_as result ≡ flag_tail (option_map (λ w. w.now) under.entry) word.now }
{
    let flag = flag_in(word)?;
    Some(Tail {
        under,
        flag: Some(flag),
    })
}
