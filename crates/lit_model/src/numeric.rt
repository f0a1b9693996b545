//! Numbers as a bibliography writes them, and in the forms that a style requests.

ghost use Rattle.std.specs.Prelude.{◌≡◌, Option, None, IfOk};
ghost use Rattle.lit_model.specs.Numeric.{one, numeric_view, value_view, numbers, only_number, is_plural_number, is_bare};

mod error;
mod form;
pub(crate) mod parse;
mod roman;
mod write;

use crate::text::copy_text;
use csl_common::Memory;
pub use error::NumericError;
use std::alloc::Global;

/// One or more numbers, with an optional prefix and suffix, such as `n4-6a`.
#[derive(PartialEq, Eq, Hash, Drop)]
pub struct Numeric {
    /// The number or numbers.
    pub value: NumericValue,
    /// The text before the first number.
    pub prefix: Option<String>,
    /// The text after the last number.
    pub suffix: Option<String>,
}

impl Numeric {
    /// One number, without prefix and suffix.
    pub fn new(value: i32) -> Numeric
        ensures { numeric_view result ≡ record { value = one value; prefix = None; suffix = None } }
    {
        Numeric {
            value: NumericValue::Number(value),
            prefix: None,
            suffix: None,
        }
    }

    /// The number, if there is exactly one.
    pub fn value(&self) -> Option<i32>
        ensures { result ≡ only_number (numbers (value_view self.now.value)) }
    {
        match &self.value {
            NumericValue::Number(number) => Some(*number),
            NumericValue::Set(numbers) => match numbers.as_slice() {
                [(number, _)] => Some(*number),
                _ => None,
            },
        }
    }

    /// Whether a term beside the number is in the plural: beside several numbers, or beside one
    /// number above 1 that counts things (`is_number_of`: pages or volumes).
    pub fn is_plural(&self, is_number_of: bool) -> bool
        ensures { result ≡ is_plural_number is_number_of (numbers (value_view self.now.value)) }
    {
        match &self.value {
            NumericValue::Number(number) => is_number_of && *number > 1,
            NumericValue::Set(numbers) => match numbers.as_slice() {
                [] => false,
                [(number, _)] => is_number_of && *number > 1,
                _ => true,
            },
        }
    }

    /// Whether a form may rewrite the number: it has neither prefix nor suffix.
    pub fn will_transform(&self) -> bool
        ensures { result ≡ is_bare (numeric_view self.now) }
    {
        self.prefix.is_none() && self.suffix.is_none()
    }

    /// A copy.
    pub fn clone(&self, alloc: Global) -> Result<Numeric, Memory>
        ensures { IfOk result (λ copy. numeric_view copy ≡ numeric_view self.now) }
    {
        let value = self.value.clone(alloc)?;
        let prefix = copy_text(&self.prefix, alloc)?;
        let suffix = copy_text(&self.suffix, alloc)?;
        Ok(Numeric {
            value,
            prefix,
            suffix,
        })
    }
}

/// One number, or a list of them.
#[derive(PartialEq, Eq, Hash, Drop)]
pub enum NumericValue {
    /// One number.
    Number(i32),
    /// Several numbers, each with the delimiter after it.
    Set(Vec<(i32, Option<NumericDelimiter>)>),
}

impl NumericValue {
    /// A copy.
    pub fn clone(&self, alloc: Global) -> Result<NumericValue, Memory>
        ensures { IfOk result (λ copy. value_view copy ≡ value_view self.now) }
    {
        match self {
            NumericValue::Number(number) => Ok(NumericValue::Number(*number)),
            NumericValue::Set(numbers) => Ok(NumericValue::Set(numbers.as_slice().to_vec(alloc)?)),
        }
    }
}

/// The delimiter between two numbers of a list.
#[derive(Clone, Copy, Debug, PartialEq, Eq, Hash)]
pub enum NumericDelimiter {
    /// A `,`.
    Comma,
    /// A `&`.
    Ampersand,
    /// A `-`, as in a range.
    Hyphen,
}
