//! Parsers of the front of a text, for the grammars of numbers and pages.

ghost use Rattle.std.specs.Prelude.{◌≡◌, ◌<◌, Option, [], ◌∷◌, ◌++◌, None, MatchOption, IfSome, count_by, encode_utf8, length, chars, encode_utf8_all};
ghost use Rattle.lit_model.specs.Numeric.{is_affix, is_delimiter};
ghost use Rattle.lit_model.specs.NumericParse.{longest_prefix, after_longest_prefix, integer_at, delimiter_of, delimiter_at};
ghost use Rattle.lit_model.specs.NumericParse as reading;
ghost use Rattle.lit_model.specs.Scan.{passes, read_view};

use crate::numeric::NumericDelimiter;

/// The classes of characters in the grammars.
#[derive(Clone, Copy)]
pub enum Class {
    /// White space (Unicode White_Space).
    Blank,
    /// An ASCII digit.
    Digit,
    /// A character of the prefix or the suffix of a number.
    Affix,
    /// A character of the prefix or the suffix of a page.
    PageAffix,
}

impl Class {
    /// Whether the character is of this class.
    fn has(self, c: char) -> bool
        ensures { result ≡ passes self c }
    {
        match self {
            Class::Blank => c.is_whitespace(),
            Class::Digit => c.is_ascii_digit(),
            Class::Affix => may_surround(c),
            Class::PageAffix => may_surround(c) && c != '–',
        }
    }
}

/// Whether the character may be in the prefix or the suffix of a number.
fn may_surround(c: char) -> bool
    ensures { result ≡ is_affix c }
{
    !c.is_ascii_digit() && !c.is_whitespace() && delimiter_from(c).is_none()
}

/// The delimiter that a character is, if it is one.
fn delimiter_from(c: char) -> Option<NumericDelimiter>
    ensures { result ≡ delimiter_of c }
{
    match c {
        ',' => Some(NumericDelimiter::Comma),
        '&' => Some(NumericDelimiter::Ampersand),
        '-' => Some(NumericDelimiter::Hyphen),
        _ => None,
    }
}

/// The first character, and the text after it.
pub fn first(text: &str) -> Option<(char, &str)>
    ensures chars { MatchOption result (chars text.now ≡ [])
        (λ x. chars text.now ≡ x.0 ∷ chars x.1.now) }
    ensures bytes { IfSome result (λ x. text.now ≡ encode_utf8 x.0 ++ x.1.now) }
    ensures shorter { IfSome result (λ x. length x.1.now < length text.now) }
{
    let mut rest = text.chars();
    let c = rest.next()?;
    Some((c, rest.as_str()))
}

/// The longest front whose characters are of the class, and the rest.
pub fn split_front(text: &str, class: Class) -> (&str, &str)
    ensures front { result.0.now
        ≡ encode_utf8_all (longest_prefix (passes class) (chars text.now)) }
    ensures rest { chars result.1.now ≡ after_longest_prefix (passes class) (chars text.now) }
{
    let mut rest = text;
    while let Some((c, next)) = first(rest) {
        if !class.has(c) {
            break;
        }
        rest = next;
    }
    text.split_at(text.len() - rest.len())
}

/// The integer that the digits at the front write, and the text after them. `None` if there are no
/// digits or the integer does not fit an `i32`.
pub fn integer(text: &str) -> Option<(i32, &str)>
    ensures { read_view result ≡ integer_at (chars text.now) }
{
    let (digits, rest) = split_front(text, Class::Digit);
    match digits.parse::<i32>() {
        Ok(number) => Some((number, rest)),
        Err(_) => None,
    }
}

/// The delimiter at the front, and the text after it. White space around it is skipped.
#[tactic(auto, unfolding(crate::specs::NumericParse::delimiter_at))]
pub fn delimiter(text: &str) -> Option<(NumericDelimiter, &str)>
    ensures { read_view result ≡ delimiter_at (chars text.now) }
{
    let (_, rest) = split_front(text, Class::Blank);
    let Some((c, rest)) = first(rest) else {
        return None;
    };
    let Some(delimiter) = delimiter_from(c) else {
        return None;
    };
    let (_, rest) = split_front(rest, Class::Blank);
    Some((delimiter, rest))
}

/// Whether the text is empty or only white space.
pub fn is_blank(text: &str) -> bool
    ensures { result ≡ reading.is_blank (chars text.now) }
{
    let (_, rest) = split_front(text, Class::Blank);
    match first(rest) {
        Some(_) => false,
        None => true,
    }
}

/// The number of delimiter characters in the text.
pub fn delimiters(text: &str) -> usize
    ensures { result ≡ count_by is_delimiter (chars text.now) }
{
    text.chars()
        .filter(|c| matches!(c, ',' | '&' | '-'))
        .count()
}
