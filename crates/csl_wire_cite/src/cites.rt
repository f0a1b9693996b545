//! Cites: what the citation says of a cite (CSL 1.0.2, Choose: position; Locators; Number
//! Variables; Disambiguation), and the part of it that is wanted.

ghost use Rattle.std.specs.Prelude.{◌≡◌, ◌+◌, Some, IfOk, IfSome, codes, option_map};
ghost use Rattle.serde_json.specs.View.{view};
ghost use Rattle.csl_entry.specs.Cite.{cite_state, locator_view};
ghost use Rattle.csl_entry.specs.Numbers as spec;
ghost use Rattle.csl_wire.specs.Reading.{member, read_member, read_number};
ghost use Rattle.csl_wire_cite.specs.Cites.{read_citation_number, IsCite, IsLocator, IsLocatorIf, IsPart};

use crate::disambiguation::disambiguation;
use crate::limits::WorkLimits;
use csl_elements::Variable;
use csl_entry::{
    CertainCiteProperties, CitationNumber, CiteProperties, IbidState, LocatorPayload, NoteNumber,
    SpecialForm, SpecificLocator, SpeculativeCiteProperties,
};
use csl_wire::{Code, Form, Reader, Step, WireError, check_text, within};
use serde_json::Value;
use std::alloc::Global;

/// A cite, without its entry. It borrows the text of its locator from the JSON value.
#[derive(Drop)]
pub struct WireCite<'v> {
    /// What the citation says of it.
    pub properties: CiteProperties<'v>,
    /// The part of it that is wanted, if not the whole.
    pub form: Option<SpecialForm>,
}

/// The positions of a cite: whether it is the first of its entry, and how it relates to the cite
/// before it.
static POSITIONS: [(&str, (bool, IbidState)); 4] = [
    ("first", (true, IbidState::Different)),
    ("subsequent", (false, IbidState::Different)),
    ("ibid", (false, IbidState::Ibid)),
    ("ibid-with-locator", (false, IbidState::IbidWithLocator)),
];

/// The forms of a cite that show a part of it.
static FORMS: [(&str, SpecialForm); 3] = [
    ("first-date", SpecialForm::OnlyFirstDate),
    ("year-suffix", SpecialForm::OnlyYearSuffix),
    ("no-author", SpecialForm::SuppressAuthor),
];

/// The members of a locator.
static LOCATOR: [&str; 2] = ["label", "value"];

/// A locator. Without a text, the caller writes it.
fn locator<'v>(reader: Reader, value: &'v Value) -> Result<SpecificLocator<'v>, WireError>
    ensures { IfOk result (λ l. IsLocator (view value.now) (locator_view l)) }
{
    let form = Form::of(reader, value, &[&LOCATOR])?;
    let label = form.one_named("label")?;
    match form.word("value")? {
        Some(text) => {
            within(Step::Member("value"), check_text(reader, text))?;
            Ok(SpecificLocator(label, LocatorPayload::Str(text)))
        }
        None => Ok(SpecificLocator(label, LocatorPayload::Transparent)),
    }
}

/// The locator among the members.
fn locator_of<'v>(numbers: Reader, form: Form<'v>) -> Result<Option<SpecificLocator<'v>>, WireError>
    ensures { IfOk result (λ l. IsLocatorIf (member (codes "locator") (view form.entry.value.now))
        (option_map locator_view l)) }
{
    match form.member("locator") {
        Some(value) => {
            let locator = within(Step::Member("locator"), locator(numbers, value))?;
            Ok(Some(locator))
        }
        None => Ok(None),
    }
}

/// The citation number that prints as this number.
fn printed_as(number: u32) -> Option<CitationNumber>
    ensures { IfSome result (λ n. spec.citation_number n + 1 ≡ number) }
{
    let number = number.checked_sub(1)?;
    CitationNumber::new(number)
}

/// The citation number, which counts from 1. One that is absent is 1.
fn citation_number(form: Form<'_>) -> Result<CitationNumber, WireError>
    ensures { IfOk result (λ n. read_citation_number (view form.entry.value.now)
        ≡ Some (spec.citation_number n + 1)) }
{
    let number = form.number("citation-number")?.unwrap_or(1);
    match printed_as(number) {
        Some(number) => Ok(number),
        None => Err(WireError::of(
            form.reader.alloc,
            Code::OutOfRange,
            "a citation number is from 1 to 2147483647",
        )
        .after(Step::Member("citation-number"))),
    }
}

/// The number of the first note that cites the entry.
fn first_note_number(form: Form<'_>) -> Result<Option<NoteNumber>, WireError>
    ensures { IfOk result (λ n. read_member read_number (codes "first-reference-note-number")
        (view form.entry.value.now) ≡ Some (option_map spec.note_number n)) }
{
    let Some(number) = form.number("first-reference-note-number")? else {
        return Ok(None);
    };
    match NoteNumber::new(number) {
        Some(number) => Ok(Some(number)),
        None => Err(WireError::of(
            form.reader.alloc,
            Code::OutOfRange,
            "a note number is from 0 to 2147483647",
        )
        .after(Step::Member("first-reference-note-number"))),
    }
}

/// The part of the cite that is wanted, if not the whole.
#[tactic(auto, using(crate::proofs::CitesRead::part_read))]
fn special_form(form: Form<'_>) -> Result<Option<SpecialForm>, WireError>
    ensures { IfOk result (IsPart (view form.entry.value.now)) }
{
    let part = form.choice("form", &FORMS)?;
    match form.named::<Variable>("only")? {
        Some(variable) => match part {
            Some(_) => Err(WireError::of(
                form.reader.alloc,
                Code::WrongType,
                "a cite has one of form and only",
            )),
            None => Ok(Some(SpecialForm::VarOnly(variable))),
        },
        None => Ok(part),
    }
}

/// The members of a cite.
static CITE: [&str; 11] = [
    "position",
    "near-note",
    "first-reference-note-number",
    "citation-number",
    "locator",
    "index",
    "disambiguate",
    "year-suffix",
    "names",
    "form",
    "only",
];

/// What the citation says of a cite.
fn properties(
    alloc: Global,
    limits: WorkLimits,
    form: Form<'_>,
) -> Result<CiteProperties<'_>, WireError>
    ensures { IfOk result (λ c. IsCite (view form.entry.value.now) (cite_state c)) }
{
    let (is_first, ibid) = form
        .choice("position", &POSITIONS)?
        .unwrap_or((true, IbidState::Different));
    let is_near_note = form.is_true("near-note")?;
    let first_note_number = first_note_number(form)?;
    let initial_idx = form.number("index")?.unwrap_or(0) as usize;
    let locator = locator_of(limits.numbers(alloc), form)?;
    let citation_number = citation_number(form)?;
    let disambiguation = disambiguation(limits, form)?;
    Ok(CiteProperties {
        certain: CertainCiteProperties {
            first_note_number,
            is_first,
            is_near_note,
            initial_idx,
        },
        speculative: SpeculativeCiteProperties {
            locator,
            citation_number,
            disambiguation,
            ibid,
        },
    })
}

/// A cite. One without members is the first of its entry, without a locator.
///
/// # Errors
/// [`WireError::Refused`]: the value is no cite within the limits.
pub fn cite_of<'v>(
    alloc: Global,
    value: &'v Value,
    limits: WorkLimits,
) -> Result<WireCite<'v>, WireError>
    ensures cite { IfOk result (λ c. IsCite (view value.now) (cite_state c.properties)) }
    ensures part { IfOk result (λ c. IsPart (view value.now) c.form) }
{
    let form = Form::of(limits.texts(alloc), value, &[&CITE])?;
    let part = special_form(form)?;
    let properties = properties(alloc, limits, form)?;
    Ok(WireCite {
        properties,
        form: part,
    })
}
