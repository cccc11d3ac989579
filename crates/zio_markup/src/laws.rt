//! Laws of the escapes: functions without a body, whose contracts are proved.
ghost use Rattle.zio_markup.specs.Laws.{EscapedIsCharacterData, EscapedHasNoMarkup, WorkedEscapes};

/// What stands in a picture of a text from outside is character data: it has neither `<` nor `>` nor a quotation mark,
/// and an `&` only where a reference begins.
pub fn outside_is_character_data()
    ensures data { EscapedIsCharacterData }
    ensures markup { EscapedHasNoMarkup }
    ensures worked { WorkedEscapes }
{}
