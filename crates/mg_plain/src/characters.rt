//! Kinds of characters.
ghost use Rattle.std.specs.Prelude.{◌≡◌};
ghost use Rattle.mg_plain.specs.Characters as spec;

/// Whether a character belongs to a word that commands step over: an ASCII letter, an ASCII digit,
/// or any character from U+0080 on.
pub(crate) fn is_word_character(c: char) -> bool
    ensures { result ≡ spec.is_word_character c }
{
    c.is_ascii_alphanumeric() || c >= '\u{80}'
}

/// A space or a tab.
pub(crate) fn is_blank(c: char) -> bool
    ensures { result ≡ spec.is_blank c }
{
    c == ' ' || c == '\t'
}

pub(crate) fn lower(c: char) -> char
    ensures { result ≡ spec.lower c }
{
    c.to_ascii_lowercase()
}

pub(crate) fn upper(c: char) -> char
    ensures { result ≡ spec.upper c }
{
    c.to_ascii_uppercase()
}
