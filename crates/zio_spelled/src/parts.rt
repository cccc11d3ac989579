//! The parts of a text between its separators.
ghost use Rattle.std.specs.Prelude.{◌≡◌, ◌∷◌, [], MatchOption, option_map, ◌==◌};
ghost use Rattle.std.specs.List.{slice_split};
ghost use Rattle.zio_spelled.specs.Reading.{parts_left};

/// What is left of a text whose parts a separator keeps apart.
#[derive(Clone, Copy)]
pub(crate) struct Parts<'a> {
    separator: u8,
    /// None behind the last part.
    rest: Option<&'a [u8]>,
}

impl<'a> Parts<'a> {
    /// All parts of the text.
    pub(crate) fn of(text: &'a [u8], separator: u8) -> Parts<'a>
        ensures parts { parts_left separator (option_map (λ t. t.now) result.rest)
            ≡ slice_split (λ c. c == separator) text.now }
        ensures separator_is { result.separator ≡ separator }
    {
        Parts {
            separator,
            rest: Some(text),
        }
    }

    /// The next part.
    pub(crate) fn next(&mut self) -> Option<&'a [u8]>
        ensures part { MatchOption result
            (parts_left self.old.separator (option_map (λ t. t.now) self.old.rest) ≡ [])
            (λ part. parts_left self.old.separator (option_map (λ t. t.now) self.old.rest)
            ≡ part.now ∷ parts_left self.old.separator (option_map (λ t. t.now) self.new.rest)) }
        ensures separator_is { self.new.separator ≡ self.old.separator }
    {
        let text = self.rest?;
        let separator = self.separator;
        match text.iter().position(|c| *c == separator) {
            Some(end) => {
                self.rest = Some(&text[end + 1..]);
                Some(&text[..end])
            }
            None => {
                self.rest = None;
                Some(text)
            }
        }
    }
}
