//! The answers of a cite to number variables, and the order of such answers.

ghost use Rattle.std.specs.Prelude.{◌≡◌, ◌↔◌, map, IfOk};
ghost use Rattle.std.specs.Cmp.Lexicographic.{slice_cmp};
ghost use Rattle.std.specs.Ordering.{int_cmp};
ghost use Rattle.lit_model.specs.MaybeTyped.{typed, maybe_view};
ghost use Rattle.lit_model.specs.Numeric.{NumericView, numeric_view, value_view, numbers};
ghost use Rattle.csl_entry.specs.Answers.{cow_view};
ghost use Rattle.csl_entry.specs.NumberResult.{regular, result_view, number_or_page_view, is_borrowed, numeric_order, regular_order, csl_order, IsOrder, SameButSeparators};

use lit_model::{MaybeTyped, Memory, Numeric, NumericDelimiter, NumericValue, PageRanges};
use std::alloc::Global;
use std::borrow::Cow;
use std::cmp::Ordering;

/// The answer of a cite to a number variable (CSL 1.0.2, Number Variables).
#[derive(PartialEq, Eq, Drop)]
pub enum NumberVariableResult<'a> {
    /// A number, or a text that is not a number.
    Regular(MaybeTyped<Cow<'a, Numeric>>),
    /// A place for the text that the caller writes for the cite with this index.
    Transparent(usize),
}

/// The answer of an entry to the page variable: pages, or a text that is not pages.
pub type PageVariableResult = MaybeTyped<PageRanges>;

/// The answer of a cite to a variable that holds a number or pages.
#[derive(PartialEq, Eq, Drop)]
pub enum NumberOrPageVariableResult<'a> {
    /// The answer to a number variable.
    Number(NumberVariableResult<'a>),
    /// The answer to the page variable.
    Page(PageVariableResult),
}

impl<'a> NumberVariableResult<'a> {
    /// Returns the answer with this number or text.
    pub fn from_regular(number: MaybeTyped<Cow<'a, Numeric>>) -> NumberVariableResult<'a>
        ensures { result_view result ≡ regular (maybe_view (cow_view numeric_view) number.entry) }
    {
        NumberVariableResult::Regular(number)
    }

    /// Compares two answers for sorting (CSL 1.0.2, Sorting). A number comes before a text, and
    /// both come before a text that the caller writes. Numbers are ordered by their list of
    /// numbers, so `10` comes after `9`, then by prefix and then by suffix, where an absent one
    /// comes first. Separators do not count. Texts are ordered by bytes, and the caller's texts by
    /// index.
    #[tactic(auto, using(crate::proofs::ResultOrder::csl_is_order, crate::proofs::ResultOrder::separators_aside))]
    pub fn csl_cmp(&self, other: &NumberVariableResult<'a>) -> Ordering
        ensures value { result ≡ csl_order (result_view self.now) (result_view other.now) }

        // Swapping two answers reverses their order, and the order is transitive.
        ensures order { IsOrder csl_order }

        // Two numbers are equal in this order exactly if they are the same apart from separators.
        ensures separators { (v w : NumericView) → SameButSeparators v w
            ↔ (csl_order (regular (typed v)) (regular (typed w)) ≡ Ordering.Equal) }
    {
        match (self, other) {
            (NumberVariableResult::Regular(a), NumberVariableResult::Regular(b)) => {
                compare_regular(a, b)
            }
            (NumberVariableResult::Regular(_), NumberVariableResult::Transparent(_)) => {
                Ordering::Less
            }
            (NumberVariableResult::Transparent(_), NumberVariableResult::Regular(_)) => {
                Ordering::Greater
            }
            (NumberVariableResult::Transparent(a), NumberVariableResult::Transparent(b)) => {
                a.cmp(b)
            }
        }
    }

    /// Returns an equal value, which borrows its number exactly if this one does.
    pub fn clone(&self, alloc: Global) -> Result<NumberVariableResult<'a>, Memory>
        ensures value { IfOk result (λ copy. result_view copy ≡ result_view self.now) }
        ensures borrows { IfOk result (λ copy. is_borrowed copy ≡ is_borrowed self.now) }
    {
        match self {
            NumberVariableResult::Regular(MaybeTyped::Typed(Cow::Borrowed(number))) => {
                Ok(NumberVariableResult::Regular(MaybeTyped::Typed(Cow::Borrowed(*number))))
            }
            NumberVariableResult::Regular(MaybeTyped::Typed(Cow::Owned(number))) => {
                let copy = number.clone(alloc)?;
                Ok(NumberVariableResult::Regular(MaybeTyped::Typed(Cow::Owned(copy))))
            }
            NumberVariableResult::Regular(MaybeTyped::String(text)) => {
                let copy = String::from_str(alloc, text.as_str())?;
                Ok(NumberVariableResult::Regular(MaybeTyped::String(copy)))
            }
            NumberVariableResult::Transparent(index) => Ok(NumberVariableResult::Transparent(
                *index,
            )),
        }
    }
}

impl<'a> NumberOrPageVariableResult<'a> {
    /// Returns an equal value.
    pub fn clone(&self, alloc: Global) -> Result<NumberOrPageVariableResult<'a>, Memory>
        ensures { IfOk result (λ copy. number_or_page_view copy ≡ number_or_page_view self.now) }
    {
        match self {
            NumberOrPageVariableResult::Number(number) => {
                let copy = number.clone(alloc)?;
                Ok(NumberOrPageVariableResult::Number(copy))
            }
            NumberOrPageVariableResult::Page(pages) => {
                let copy = pages.clone(alloc)?;
                Ok(NumberOrPageVariableResult::Page(copy))
            }
        }
    }
}

/// Compares two numbers or texts. A number comes before a text.
fn compare_regular(a: &MaybeTyped<Cow<'_, Numeric>>, b: &MaybeTyped<Cow<'_, Numeric>>) -> Ordering
    ensures { result ≡ regular_order (maybe_view (cow_view numeric_view) a.now)
        (maybe_view (cow_view numeric_view) b.now) }
{
    match (a, b) {
        (MaybeTyped::Typed(a), MaybeTyped::Typed(b)) => compare_numerics(a.as_ref(), b.as_ref()),
        (MaybeTyped::Typed(_), MaybeTyped::String(_)) => Ordering::Less,
        (MaybeTyped::String(_), MaybeTyped::Typed(_)) => Ordering::Greater,
        (MaybeTyped::String(a), MaybeTyped::String(b)) => a.cmp(b),
    }
}

/// Compares two numbers by their values, then by prefix and then by suffix.
fn compare_numerics(a: &Numeric, b: &Numeric) -> Ordering
    ensures { result ≡ numeric_order (numeric_view a.now) (numeric_view b.now) }
{
    compare_values(&a.value, &b.value)
        .then_with(|| a.prefix.cmp(&b.prefix))
        .then_with(|| a.suffix.cmp(&b.suffix))
}

/// Compares two values by the lists of their numbers.
fn compare_values(a: &NumericValue, b: &NumericValue) -> Ordering
    ensures { result ≡ slice_cmp int_cmp (numbers (value_view a.now)) (numbers (value_view b.now)) }
{
    match (a, b) {
        (NumericValue::Number(a), NumericValue::Number(b)) => a.cmp(b),
        (NumericValue::Number(a), NumericValue::Set(b)) => compare_lists(&[(*a, None)], b),
        (NumericValue::Set(a), NumericValue::Number(b)) => compare_lists(a, &[(*b, None)]),
        (NumericValue::Set(a), NumericValue::Set(b)) => compare_lists(a, b),
    }
}

/// Compares two lists by their numbers: the first two that differ decide. A list comes before a
/// longer one that it begins.
fn compare_lists(
    a: &[(i32, Option<NumericDelimiter>)],
    b: &[(i32, Option<NumericDelimiter>)],
) -> Ordering
    ensures { result ≡ slice_cmp int_cmp (map (λ x. x.0) a.now) (map (λ x. x.0) b.now) }
{
    let left = a.iter().map(|&(number, _)| number);
    let right = b.iter().map(|&(number, _)| number);
    left.cmp(right)
}
