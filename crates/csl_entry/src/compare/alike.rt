//! Whether two entries of any types give the same answers to named variables and kinds (CSL 1.0.2,
//! Appendix III: Types; Appendix IV: Variables).

ghost use Rattle.std.specs.Prelude.{◌≡◌, ◌&&◌, IfOk};
ghost use Rattle.std.specs.Bool.{Decides};
ghost use Rattle.csl_common.specs.declared.form.LongShortForm.{LongShortForm};
ghost use Rattle.csl_elements.specs.NamedSet.{a_kind, a_variable, named_set};
ghost use Rattle.csl_elements.specs.declared.taxonomy.Variable.TheVariants as variable;
ghost use Rattle.csl_entry.specs.Alike.{Each, SameAnswer, SameNamedAnswers};

use crate::compare::same::{same_date, same_number, same_pages, same_persons, same_text};
use crate::taxonomy::EntryLike;
use csl_elements::{
    DateVariable, Kind, NameVariable, Named, NumberVariable, PageVariable, StandardVariable,
};
use lit_model::{LongShortForm, Memory};
use std::alloc::Global;
use std::collections::BTreeSet;

/// A sort of variables, or the kinds.
trait Sort: Copy + Ord {
    ghost use Rattle.std.specs.Prelude.{IfOk};
    ghost use Rattle.std.specs.Bool.{Decides};
    ghost use Rattle.csl_elements.specs.NamedSet.{NamedItem};
    ghost use Rattle.csl_entry.specs.Alike.{SameAnswer};

    ghost item: { Self → NamedItem };

    /// Whether both entries give the same answer to it.
    fn is_alike<T: EntryLike, U: EntryLike>(
        self,
        alloc: Global,
        a: &T,
        b: &U,
    ) -> Result<bool, Memory>
        ensures { IfOk result (λ same. Decides same
            (SameAnswer (T.answers a.now) (U.answers b.now) (item self))) };
}

impl Sort for NumberVariable {
    ghost item = { λ v. a_variable (variable.Number v) };

    fn is_alike<T: EntryLike, U: EntryLike>(
        self,
        alloc: Global,
        a: &T,
        b: &U,
    ) -> Result<bool, Memory> {
        let left = a.resolve_number_variable(alloc, self)?;
        let right = b.resolve_number_variable(alloc, self)?;
        Ok(same_number(&left, &right))
    }
}

impl Sort for PageVariable {
    ghost item = { λ v. a_variable (variable.Page v) };

    fn is_alike<T: EntryLike, U: EntryLike>(
        self,
        alloc: Global,
        a: &T,
        b: &U,
    ) -> Result<bool, Memory> {
        let left = a.resolve_page_variable(alloc, self)?;
        let right = b.resolve_page_variable(alloc, self)?;
        Ok(same_pages(&left, &right))
    }
}

impl Sort for DateVariable {
    ghost item = { λ v. a_variable (variable.Date v) };

    fn is_alike<T: EntryLike, U: EntryLike>(
        self,
        alloc: Global,
        a: &T,
        b: &U,
    ) -> Result<bool, Memory> {
        let left = a.resolve_date_variable(alloc, self)?;
        let right = b.resolve_date_variable(alloc, self)?;
        Ok(same_date(&left, &right))
    }
}

impl Sort for NameVariable {
    ghost item = { λ v. a_variable (variable.Name v) };

    fn is_alike<T: EntryLike, U: EntryLike>(
        self,
        alloc: Global,
        a: &T,
        b: &U,
    ) -> Result<bool, Memory> {
        let left = a.resolve_name_variable(alloc, self)?;
        let right = b.resolve_name_variable(alloc, self)?;
        Ok(same_persons(&left, &right))
    }
}

/// Whether both entries give the same answer to a standard variable in one form.
fn is_text_alike<T: EntryLike, U: EntryLike>(
    alloc: Global,
    a: &T,
    b: &U,
    form: LongShortForm,
    v: StandardVariable,
) -> Result<bool, Memory>
    ensures { IfOk result (λ same. Decides same
        ((T.answers a.now).standards form v ≡ (U.answers b.now).standards form v)) }
{
    let left = a.resolve_standard_variable(alloc, form, v)?;
    let right = b.resolve_standard_variable(alloc, form, v)?;
    Ok(same_text(&left, &right))
}

impl Sort for StandardVariable {
    ghost item = { λ v. a_variable (variable.Standard v) };

    fn is_alike<T: EntryLike, U: EntryLike>(
        self,
        alloc: Global,
        a: &T,
        b: &U,
    ) -> Result<bool, Memory> {
        let long = is_text_alike(alloc, a, b, LongShortForm::Long, self)?;
        let short = is_text_alike(alloc, a, b, LongShortForm::Short, self)?;
        Ok(long && short)
    }
}

impl Sort for Kind {
    ghost item = { λ k. a_kind k };

    fn is_alike<T: EntryLike, U: EntryLike>(
        self,
        _alloc: Global,
        a: &T,
        b: &U,
    ) -> Result<bool, Memory> {
        Ok(a.matches_entry_type(self) == b.matches_entry_type(self))
    }
}

/// Whether both entries give the same answer to each item of a set.
fn are_alike<S: Sort, T: EntryLike, U: EntryLike>(
    alloc: Global,
    a: &T,
    b: &U,
    set: &BTreeSet<S>,
) -> Result<bool, Memory>
    ensures { IfOk result (λ same. Decides same
        (Each (λ v. SameAnswer (T.answers a.now) (U.answers b.now) (S.item v)) set.now.keys)) }
{
    for v in set {
        if !v.is_alike(alloc, a, b)? {
            return Ok(false);
        }
    }
    Ok(true)
}

/// Whether two entries answer alike in all six sets of variables and kinds.
fn all(numbers: bool, pages: bool, standards: bool, names: bool, dates: bool, kinds: bool) -> bool
    ensures { result
        ≡ (numbers && (pages && (standards && (names && (dates && kinds))))) }
{
    numbers && pages && standards && names && dates && kinds
}

/// Whether both entries answer alike for each named variable and kind: equal numbers, pages, texts
/// in the long and in the short form, persons and dates, and each kind of both or of neither. Other
/// variables and kinds are not compared, nor are the key and the language.
pub fn same_answers<T: EntryLike, U: EntryLike>(
    alloc: Global,
    a: &T,
    b: &U,
    named: &Named,
) -> Result<bool, Memory>
    ensures { IfOk result (λ same. Decides same
        (SameNamedAnswers (named_set named.now) (T.answers a.now) (U.answers b.now))) }
{
    let numbers = are_alike(alloc, a, b, &named.numbers)?;
    let pages = are_alike(alloc, a, b, &named.pages)?;
    let standards = are_alike(alloc, a, b, &named.standards)?;
    let names = are_alike(alloc, a, b, &named.names)?;
    let dates = are_alike(alloc, a, b, &named.dates)?;
    let kinds = are_alike(alloc, a, b, &named.kinds)?;
    Ok(all(numbers, pages, standards, names, dates, kinds))
}
