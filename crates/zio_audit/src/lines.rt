//! The lines of a report, and which are of its journal.
ghost use Rattle.std.specs.Prelude.{◌≡◌, ◌∷◌, ◌<◌, [], IfSome, MatchOption, length};
ghost use Rattle.zio_script.specs.Words.{lines_of};
ghost use Rattle.zio_spelled.specs.Spelled.{first_word, is_journal, is_order, is_round, is_take};
ghost use Rattle.zio_audit.specs.Putting.{is_close};

/// The first line of the text without its newline, and what follows it; none where the text is empty.
pub(crate) fn next_line(text: &[u8]) -> Option<(&[u8], &[u8])>
    ensures line { MatchOption result (text.now ≡ []) (λ p. lines_of text.now ≡ p.0.now ∷ lines_of p.1.now) }
    ensures shorter { IfSome result (λ p. length p.1.now < length text.now) }
{
    if text.is_empty() {
        return None;
    }
    match text.iter().position(|c| *c == b'\n') {
        Some(end) => Some((&text[..end], &text[end + 1..])),
        None => Some((text, &[])),
    }
}

fn first_word(line: &[u8]) -> &[u8]
    ensures { result.now ≡ first_word line.now }
{
    match line.iter().position(|c| *c == b' ') {
        Some(end) => &line[..end],
        None => line,
    }
}

/// The head of a round.
pub(crate) fn is_round(line: &[u8]) -> bool
    ensures { result ≡ is_round line.now }
{
    match first_word(line) {
        b"round" => true,
        _ => false,
    }
}

/// The line of a held batch, or the last.
pub(crate) fn is_close(line: &[u8]) -> bool
    ensures { result ≡ is_close line.now }
{
    match first_word(line) {
        b"held" | b"end" => true,
        _ => false,
    }
}

/// A line of the journal.
pub(crate) fn is_journal(line: &[u8]) -> bool
    ensures { result ≡ is_journal line.now }
{
    match first_word(line) {
        b"take" | b"order" => true,
        _ => false,
    }
}

/// The line of an entry.
pub(crate) fn is_take(line: &[u8]) -> bool
    ensures { result ≡ is_take line.now }
{
    match first_word(line) {
        b"take" => true,
        _ => false,
    }
}

/// The line of completions.
pub(crate) fn is_order(line: &[u8]) -> bool
    ensures { result ≡ is_order line.now }
{
    match first_word(line) {
        b"order" => true,
        _ => false,
    }
}
