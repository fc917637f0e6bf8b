//! A place in a text: the character there and the text behind it.

ghost use Rattle.std.specs.Str.{chars};
ghost use Rattle.rf_text.specs.Places.{IsFirst};

/// The first character of the text and the text behind it; none where the text is empty. This takes no memory.
pub fn first(text: &str) -> Option<(char, &str)>
    ensures { IsFirst (chars text.now) result }
{
    let mut all = text.chars();
    let c = all.next()?;
    Some((c, all.as_str()))
}
