//! The cites of a citation (CSL 1.0.2, Citation; Locators).
//! Definitions: specs/Items.antt.

ghost use Rattle.std.specs.Prelude.{◌≡◌, Some, IfOk, OnOk, codes, map, option_map};
ghost use Rattle.std.specs.List.{AllZip};
ghost use Rattle.serde_json.specs.View.{view};
ghost use Rattle.csl_entry.specs.Cite.{locator_view};
ghost use Rattle.csl_tree.specs.Tokens.{tokens};
ghost use Rattle.csl_wire.specs.Reading.{member};
ghost use Rattle.csl_wire_cite.specs.Cites.{IsLocator, IsLocatorIf};
ghost use Rattle.csl_wire_list.specs.Items.{name_in, read_affix, IsItem, IsOfWork};
ghost use Rattle.csl_wire_list.specs.Works.{names_of, with_name, with_names};

use crate::choices::PURPOSES;
use crate::limits::DocumentLimits;
use crate::works::{Mention, WorksSoFar};
use csl_entry::{LocatorPayload, SpecificLocator};
use csl_list::{CitationItem, plain_affix};
use csl_tree::ElemChildren;
use csl_wire::{Form, Reader, Step, WireError, check_text, within};
use serde_json::Value;
use std::alloc::Global;

/// The members of a locator.
static LOCATOR: [&str; 2] = ["label", "value"];

/// A locator. Without a text, the caller writes it.
fn locator<'v>(reader: Reader, value: &'v Value) -> Result<SpecificLocator<'v>, WireError>
    ensures { IfOk result (λ l. IsLocator (view value.now) (locator_view l)) }
{
    let form = Form::of(reader, value, &[&LOCATOR])?;
    let label = form.one_named("label")?;
    match form.word("value")? {
        Some(text) => {
            within(Step::Member("value"), check_text(reader, text))?;
            Ok(SpecificLocator(label, LocatorPayload::Str(text)))
        }
        None => Ok(SpecificLocator(label, LocatorPayload::Transparent)),
    }
}

/// The locator among the members.
fn locator_of<'v>(
    locators: Reader,
    form: Form<'v>,
) -> Result<Option<SpecificLocator<'v>>, WireError>
    ensures { IfOk result (λ l. IsLocatorIf (member (codes "locator") (view form.entry.value.now))
        (option_map locator_view l)) }
{
    match form.member("locator") {
        Some(value) => {
            let locator = within(Step::Member("locator"), locator(locators, value))?;
            Ok(Some(locator))
        }
        None => Ok(None),
    }
}

/// The text of a member, as a tree.
fn affix(form: Form<'_>, name: &'static str) -> Result<Option<ElemChildren>, WireError>
    ensures { IfOk result (λ a. read_affix name.now (view form.entry.value.now)
        ≡ Some (option_map tokens a)) }
{
    match form.text(name)? {
        Some(text) => Ok(Some(plain_affix(form.reader.alloc, text.as_str())?)),
        None => Ok(None),
    }
}

/// The index of the work of a cite.
#[tactic(auto, using(crate::proofs::Read::of_work_read, crate::proofs::Read::name_read))]
fn work_of<'v>(
    works: &mut WorksSoFar<'v>,
    form: Form<'v>,
    mention: Mention,
) -> Result<usize, WireError>
    ensures work { IfOk result (IsOfWork (names_of works.new.works.items)
        (view form.entry.value.now)) }
    ensures names { OnOk result (names_of works.new.works.items
        ≡ with_name (names_of works.old.works.items) (name_in (view form.entry.value.now))) }
{
    match form.word("work")? {
        Some(name) => Ok(works.index_of(name, mention)?),
        None => Err(form.missing("work")),
    }
}

/// The members of a cite.
static ITEM: [&str; 6] = ["work", "locator", "purpose", "hidden", "prefix", "suffix"];

/// A cite.
fn item<'v>(
    alloc: Global,
    limits: DocumentLimits,
    works: &mut WorksSoFar<'v>,
    value: &'v Value,
    mention: Mention,
) -> Result<CitationItem<'v>, WireError>
    ensures item { IfOk result (IsItem (names_of works.new.works.items) (view value.now)) }
    ensures names { OnOk result (names_of works.new.works.items
        ≡ with_name (names_of works.old.works.items) (name_in (view value.now))) }
{
    let form = Form::of(limits.texts(alloc), value, &[&ITEM])?;
    let work = work_of(works, form, mention)?;
    let locator = locator_of(limits.locators(alloc), form)?;
    let purpose = form.choice("purpose", &PURPOSES)?;
    let hidden = form.is_true("hidden")?;
    let prefix = affix(form, "prefix")?;
    let suffix = affix(form, "suffix")?;
    Ok(CitationItem {
        work,
        locator,
        purpose,
        hidden,
        prefix,
        suffix,
    })
}

/// The cites of the citation at this index.
#[tactic(auto, using(crate::proofs::Longer::one_item_more, crate::proofs::Longer::one_name_more))]
pub(crate) fn items<'v>(
    alloc: Global,
    limits: DocumentLimits,
    works: &mut WorksSoFar<'v>,
    values: &'v [Value],
    citation: usize,
) -> Result<Vec<CitationItem<'v>>, WireError>
    ensures items { IfOk result (λ items. AllZip (IsItem (names_of works.new.works.items))
        (map view values.now) items.items) }
    ensures names { OnOk result (names_of works.new.works.items
        ≡ with_names (names_of works.old.works.items) (map name_in (map view values.now))) }
{
    let mut items = Vec::with_capacity(alloc, values.len())?;
    for (place, value) in values.iter().enumerate() {
        let mention = Mention::Cite {
            citation,
            item: place,
        };
        let read = item(alloc, limits, works, value, mention);
        items.push(within(Step::Item(place), read)?)?;
    }
    Ok(items)
}
