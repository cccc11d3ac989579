//! What the fixed words of a line stand for.
ghost use Rattle.std.specs.Prelude.{◌≡◌};
ghost use Rattle.zio_script.specs.Shapes.{body_form_words, line_words};
ghost use Rattle.zio_script.specs.Words.{failmode_words, fault_words, flag_words, is_word, kind_words, operation_words, read_classes, sum_words, value_in, write_classes};
ghost use Rattle.std.specs.Prelude.{codes};

use crate::Failmode;
use zio_blkptr::SumKind;
use zio_faults::{FaultKind, On};
use zio_types::{Kind, Prio};

/// The first word of a line that is no request.
#[derive(Clone, Copy, PartialEq, Eq)]
pub(crate) enum FirstWord {
    Failmode,
    Top,
    Fault,
    Go,
    Clear,
}

/// How a body is written.
#[derive(Clone, Copy, PartialEq, Eq)]
pub(crate) enum BodyForm {
    /// `data HEX`
    Data,
    /// `fill HH LEN`
    Fill,
    /// `seq SEED LEN`
    Seq,
}

/// What the line is that begins with this word, unless it is a request.
pub(crate) fn first_in(word: &[u8]) -> Option<FirstWord>
    ensures { result ≡ value_in line_words word.now }
{
    match word {
        b"failmode" => Some(FirstWord::Failmode),
        b"top" => Some(FirstWord::Top),
        b"fault" => Some(FirstWord::Fault),
        b"go" => Some(FirstWord::Go),
        b"clear" => Some(FirstWord::Clear),
        _ => None,
    }
}

/// The kind of a request.
pub(crate) fn kind_in(word: &[u8]) -> Option<Kind>
    ensures { result ≡ value_in kind_words word.now }
{
    match word {
        b"null" => Some(Kind::Null),
        b"read" => Some(Kind::Read),
        b"write" => Some(Kind::Write),
        b"free" => Some(Kind::Free),
        b"claim" => Some(Kind::Claim),
        _ => None,
    }
}

/// The checksum of a write.
pub(crate) fn sum_in(word: &[u8]) -> Option<SumKind>
    ensures { result ≡ value_in sum_words word.now }
{
    match word {
        b"off" => Some(SumKind::Off),
        b"fletcher4" => Some(SumKind::Fletcher4),
        b"sha256" => Some(SumKind::Sha256),
        _ => None,
    }
}

/// The class of a read.
pub(crate) fn read_class_in(word: &[u8]) -> Option<Prio>
    ensures { result ≡ value_in read_classes word.now }
{
    match word {
        b"sync" => Some(Prio::SyncRead),
        b"async" => Some(Prio::AsyncRead),
        b"scrub" => Some(Prio::Scrub),
        _ => None,
    }
}

/// The class of a write.
pub(crate) fn write_class_in(word: &[u8]) -> Option<Prio>
    ensures { result ≡ value_in write_classes word.now }
{
    match word {
        b"sync" => Some(Prio::SyncWrite),
        b"async" => Some(Prio::AsyncWrite),
        _ => None,
    }
}

/// How the body behind this word is written.
pub(crate) fn body_form_in(word: &[u8]) -> Option<BodyForm>
    ensures { result ≡ value_in body_form_words word.now }
{
    match word {
        b"data" => Some(BodyForm::Data),
        b"fill" => Some(BodyForm::Fill),
        b"seq" => Some(BodyForm::Seq),
        _ => None,
    }
}

/// What a run does where a tree can't go on.
pub(crate) fn failmode_in(word: &[u8]) -> Option<Failmode>
    ensures { result ≡ value_in failmode_words word.now }
{
    match word {
        b"wait" => Some(Failmode::Wait),
        b"continue" => Some(Failmode::Continue),
        b"panic" => Some(Failmode::Panic),
        _ => None,
    }
}

/// The operations that a row of the fault table is for.
pub(crate) fn operation_in(word: &[u8]) -> Option<On>
    ensures { result ≡ value_in operation_words word.now }
{
    match word {
        b"read" => Some(On::Read),
        b"write" => Some(On::Write),
        b"any" => Some(On::Any),
        _ => None,
    }
}

/// What an operation that meets a row does.
pub(crate) fn fault_in(word: &[u8]) -> Option<FaultKind>
    ensures { result ≡ value_in fault_words word.now }
{
    match word {
        b"eio" => Some(FaultKind::Eio),
        b"gone" => Some(FaultKind::Gone),
        b"flip" => Some(FaultKind::Flip),
        _ => None,
    }
}

/// Whether a request may fail, by its flag.
pub(crate) fn flag_in(word: &[u8]) -> Option<bool>
    ensures { result ≡ value_in flag_words word.now }
{
    match word {
        b"must" => Some(false),
        b"canfail" => Some(true),
        _ => None,
    }
}

/// The word stands before the number of a parent.
pub(crate) fn is_under(word: &[u8]) -> bool
    ensures { result ≡ is_word (codes "under") word.now }
{
    matches!(word, b"under")
}

/// The word stands before the size of a top's sectors.
pub(crate) fn is_sector(word: &[u8]) -> bool
    ensures { result ≡ is_word (codes "sector") word.now }
{
    matches!(word, b"sector")
}

/// The word marks a row that a retry pass doesn't meet.
pub(crate) fn is_first(word: &[u8]) -> bool
    ensures { result ≡ is_word (codes "first") word.now }
{
    matches!(word, b"first")
}
