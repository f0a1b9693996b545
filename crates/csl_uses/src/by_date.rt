//! Works in the order of their dates of issue, by sort keys of that date alone.
//! Definitions: specs/ByDate.antt.

ghost use Rattle.std.specs.Prelude.{◌≡◌, IfOk, IfSome};
ghost use Rattle.std.specs.Option.{option_cmp};
ghost use Rattle.csl.specs.Style.declared.taxonomy.DateVariable.TheVariants.{Issued};
ghost use Rattle.csl.specs.Nodes.DateKey.{time_order};
ghost use Rattle.csl.specs.Render.SortedDates.{IsDateAlone, IsKeyDate};
ghost use Rattle.csl_uses.specs.ByDate as spec;

use csl::style::{Date, DateVariable, Layout, Scope, Style};
use csl::{CiteProperties, DisambiguateState, EntryLike, Error, Sorting};
use std::alloc::Global;
use std::cmp::Ordering;

/// The layout of a sort key by the date of issue, as `<key variable="issued"/>`.
///
/// # Errors
/// [`Error::Memory`]: out of memory.
pub fn issue_key(alloc: Global) -> Result<Layout, Error>
    ensures { IfOk result (λ made. IsDateAlone made spec.issue Issued) }
{
    let date = Date::new(DateVariable::Issued, Vec::new(alloc));
    Ok(Layout::new(vec![in alloc; date.into()]?))
}

/// The order of two works by their dates of issue: that of the dates in time, by year, month and
/// day, with a work without such a date first. It compares their sort keys.
///
/// # Errors
/// [`Error::Memory`]: out of memory, here or in a work.
pub fn order_by_issue<T: EntryLike, U: EntryLike>(
    alloc: Global,
    style: &Style,
    one: &T,
    other: &U,
) -> Result<Ordering, Error>
    ensures in_time { IfSome ((T.answers one.now).dates Issued) IsKeyDate
        → IfSome ((U.answers other.now).dates Issued) IsKeyDate
        → IfOk result (λ order. order ≡ option_cmp time_order
        ((T.answers one.now).dates Issued) ((U.answers other.now).dates Issued)) }
{
    let layout = issue_key(alloc)?;
    let first = CiteProperties::first(DisambiguateState::None);
    let (scope, sorting) = (Scope::Bibliography, Sorting::Variable);
    let key = csl::sort_key(alloc, style, one, &first, &layout, scope, sorting)?;
    let next = csl::sort_key(alloc, style, other, &first, &layout, scope, sorting)?;
    Ok(key.cmp(&next))
}
