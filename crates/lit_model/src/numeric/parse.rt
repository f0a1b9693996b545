//! Parsing of numbers.

ghost use Rattle.std.specs.Prelude.{◌≡◌, ◌↔◌, ◌<◌, Option, Some, None, IfOk, IsTrue, MatchOption, MatchResult, Err, option_map, chars, string_bytes};
ghost use Rattle.lit_model.specs.Numeric.{numeric_view, NumericView, value_view, Spells, IsWritable};
ghost use Rattle.lit_model.specs.NumericWrite.{numeric_text};
ghost use Rattle.lit_model.specs.NumericParse.{read_of, rest_of, integers_at, value_at, numeric_from, text_from};
ghost use Rattle.lit_model.specs.Parsing.{Gives, IsShapeOf};
ghost use Rattle.lit_model.specs.Numeric.{IsSpelled};

use super::error::NumericError;
use super::{Numeric, NumericDelimiter, NumericValue};
use crate::scan;
use crate::scan::Class;
use std::alloc::{AllocError, Global};

/// The parts of a text in the grammar, as slices of the text.
#[derive(Clone, Copy)]
struct Shape<'a> {
    prefix: &'a str,
    /// The text from the first number on.
    numbers: &'a str,
    /// The number of delimiters in the text, one fewer than there are numbers.
    delimiters: usize,
    suffix: &'a str,
}

/// The text after `delimiters + 1` numbers with a delimiter between each two.
fn skip_integers(delimiters: usize, text: &str) -> Option<&str>
    ensures { option_map (λ rest. chars rest.now) result
        ≡ rest_of (integers_at delimiters (chars text.now)) }
{
    let mut rest = text;
    for _ in 0..delimiters {
        let Some((_, after)) = scan::integer(rest) else {
            return None;
        };
        let Some((_, after)) = scan::delimiter(after) else {
            return None;
        };
        rest = after;
    }
    match scan::integer(rest) {
        Some((_, rest)) => Some(rest),
        None => None,
    }
}

/// The first `delimiters + 1` numbers of a text, each with the delimiter after it.
fn integers(
    alloc: Global,
    delimiters: usize,
    text: &str,
) -> Result<Vec<(i32, Option<NumericDelimiter>)>, NumericError>
    ensures { Gives (λ v. v.items) result (read_of (integers_at delimiters (chars text.now))) }
{
    let mut numbers = Vec::with_capacity(alloc, delimiters.saturating_add(1))?;
    let mut rest = text;
    for _ in 0..delimiters {
        let Some((number, after)) = scan::integer(rest) else {
            return Err(NumericError::NotNumeric);
        };
        let Some((delimiter, after)) = scan::delimiter(after) else {
            return Err(NumericError::NotNumeric);
        };
        numbers.push((number, Some(delimiter)))?;
        rest = after;
    }
    let Some((number, _)) = scan::integer(rest) else {
        return Err(NumericError::NotNumeric);
    };
    numbers.push((number, None))?;
    Ok(numbers)
}

/// The parts of a text, or `None` if the text is not in the grammar.
#[tactic(auto, unfolding(crate::specs::NumericParse::numeric_from))]
fn shape_of(text: &str) -> Option<Shape<'_>>
    ensures { MatchOption result (numeric_from (chars text.now) ≡ None)
        (IsShapeOf (chars text.now)) }
{
    let delimiters = scan::delimiters(text);
    let (_, start) = scan::split_front(text, Class::Blank);
    let (prefix, numbers) = scan::split_front(start, Class::Affix);
    let Some(rest) = skip_integers(delimiters, numbers) else {
        return None;
    };
    let (suffix, rest) = scan::split_front(rest, Class::Affix);
    if !scan::is_blank(rest) {
        return None;
    }
    Some(Shape {
        prefix,
        numbers,
        delimiters,
        suffix,
    })
}

/// The value of a text: one number if it has no delimiter, else the list of its numbers.
#[tactic(auto, unfolding(crate::specs::NumericParse::value_at))]
fn value_of(alloc: Global, shape: &Shape<'_>) -> Result<NumericValue, NumericError>
    ensures { Gives value_view result
        (read_of (value_at shape.now.delimiters (chars shape.now.numbers.now))) }
{
    if shape.delimiters == 0 {
        return match scan::integer(shape.numbers) {
            Some((number, _)) => Ok(NumericValue::Number(number)),
            None => Err(NumericError::NotNumeric),
        };
    }
    let numbers = integers(alloc, shape.delimiters, shape.numbers)?;
    Ok(NumericValue::Set(numbers))
}

/// A copy of the text, or `None` if it is empty.
pub fn nonempty(alloc: Global, text: &str) -> Result<Option<String>, AllocError>
    ensures { IfOk result (λ o. option_map string_bytes o ≡ text_from text.now) }
{
    if text.is_empty() {
        return Ok(None);
    }
    let copy = String::from_str(alloc, text)?;
    Ok(Some(copy))
}

/// The number that a text spells.
pub fn number_in(alloc: Global, text: &str) -> Result<Numeric, NumericError>
    ensures exact { Gives numeric_view result (numeric_from (chars text.now)) }
    ensures none { numeric_from (chars text.now) ≡ None → result ≡ Err NumericError.NotNumeric }
{
    let Some(shape) = shape_of(text) else {
        return Err(NumericError::NotNumeric);
    };
    let value = value_of(alloc, &shape)?;
    let prefix = nonempty(alloc, shape.prefix)?;
    let suffix = nonempty(alloc, shape.suffix)?;
    Ok(Numeric {
        value,
        prefix,
        suffix,
    })
}

impl Numeric {
    /// The number that a text spells (CSL 1.0.2, Number).
    ///
    /// The text is optional white space, a prefix, one or more numbers, a suffix, and optional
    /// white space. A number is one or more ASCII digits with a value below 2^31. Two numbers have
    /// a `,`, a `&` or a `-` between them, with or without white space around it. A prefix or a
    /// suffix is any text without ASCII digits, white space and these three characters, and may be
    /// empty.
    ///
    /// # Errors
    /// [`NumericError::NotNumeric`]: the text spells no number; nothing was allocated.
    /// [`NumericError::Memory`]: out of memory.
    pub fn parse(alloc: Global, text: &str) -> Result<Numeric, NumericError>
        // The value that the characters spell, if there is one.
        ensures exact { Gives numeric_view result (numeric_from (chars text.now)) }
        // The text spells the value that is returned.
        ensures found { IfOk result (λ n. Spells (numeric_view n) (chars text.now)) }
        // A value that the text spells is returned, unless memory runs out.
        ensures only { (v : NumericView) → Spells v (chars text.now)
            → MatchResult result (λ n. numeric_view n ≡ v) (λ e. e ≡ NumericError.Memory) }
        // A text spells at most one value.
        ensures unique { (v w : NumericView) → Spells v (chars text.now)
            → Spells w (chars text.now) → v ≡ w }
        // `numeric_from` finds a value exactly if the text spells it, whatever the memory.
        ensures grammar { (v : NumericView) → (numeric_from (chars text.now) ≡ Some v)
            ↔ Spells v (chars text.now) }
        // A text that spells no value gives `NotNumeric`, whatever the memory.
        ensures refused { ((v : NumericView) → Spells v (chars text.now) → ⊥)
            → result ≡ Err NumericError.NotNumeric }
        // Each value that is returned is writable. The text that `Display` writes for a writable
        // value is read as that value, unless memory runs out.
        ensures writable { IfOk result (λ n. IsWritable (numeric_view n)) }
        ensures again { (v : NumericView) → IsWritable v → text.now ≡ numeric_text v
            → MatchResult result (λ n. numeric_view n ≡ v) (λ e. e ≡ NumericError.Memory) }
    {
        number_in(alloc, text)
    }

    /// Whether the text spells a number. If so, [`Numeric::parse`] fails only if memory runs out;
    /// if not, it returns `NotNumeric`.
    pub fn is_spelled_by(text: &str) -> bool
        ensures { IsTrue result ↔ IsSpelled (chars text.now) }
    {
        shape_of(text).is_some()
    }
}
