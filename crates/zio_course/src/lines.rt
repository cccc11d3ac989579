//! The lines of a batch one by one, from its front or from its back.

ghost use Rattle.std.specs.Prelude.{◌≡◌, ◌∷◌, ◌++◌, [], None, IfSome};

use zio_script::Item;

/// The first line, and those behind it.
pub(crate) fn first_line(items: &[Item]) -> Option<(&Item, &[Item])>
    ensures some { IfSome result (λ split. items.now ≡ split.0.now ∷ split.1.now) }
    ensures none { result ≡ None → items.now ≡ [] }
{
    match items {
        [item, more @ ..] => Some((item, more)),
        [] => None,
    }
}

/// The last line, and those before it.
pub(crate) fn last_line(items: &[Item]) -> Option<(&Item, &[Item])>
    ensures some { IfSome result (λ split. items.now ≡ split.1.now ++ split.0.now ∷ []) }
    ensures none { result ≡ None → items.now ≡ [] }
{
    match items {
        [front @ .., item] => Some((item, front)),
        [] => None,
    }
}
