//! A place in a text: the character there and the text behind it, and the text before it.

ghost use Rattle.std.specs.Prelude.{◌≡◌, ◌==◌, ◌++◌, ℕ, List};
ghost use Rattle.std.specs.Str.{chars};
ghost use Rattle.rf_base_grammar.specs.Characters.{byte_len, EndsWith};
ghost use Rattle.rf_base_grammar.specs.Reader.{is_nothing};
ghost use Rattle.rf_text.specs.Places.{IsFirst};

/// The first character of the text and the text behind it; none where the text is empty. It stands here, and not in
/// `rf_text` alone, so that it is inlined.
#[inline(always)]
pub fn first(text: &str) -> Option<(char, &str)>
    ensures { IsFirst (chars text.now) result }
{
    let mut all = text.chars();
    let c = all.next()?;
    Some((c, all.as_str()))
}

/// How many bytes stand before the rest, which the text ends with.
pub fn len_before(text: &str, rest: &str) -> usize
    requires { EndsWith (chars rest.now) (chars text.now) }
    ensures { (front : List ℕ) → chars text.now ≡ front ++ chars rest.now → result ≡ byte_len front }
{
    text.len() - rest.len()
}

/// Whether nothing stands before the rest, which the text ends with.
pub fn is_whole(text: &str, rest: &str) -> bool
    requires { EndsWith (chars rest.now) (chars text.now) }
    ensures { (front : List ℕ) → chars text.now ≡ front ++ chars rest.now → result ≡ is_nothing front }
{
    text.len() == rest.len()
}

/// The text before the rest, which the text ends with.
pub fn before<'s>(text: &'s str, rest: &str) -> &'s str
    requires { EndsWith (chars rest.now) (chars text.now) }
    ensures { (front : List ℕ) → chars text.now ≡ front ++ chars rest.now → chars result.now ≡ front }
{
    &text[..text.len() - rest.len()]
}
