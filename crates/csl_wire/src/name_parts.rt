//! The children of names that hold no nodes (CSL 1.0.2, Name, Name-part, Et-al).
//! Definitions: specs/Names.antt, specs/Parts.antt.

ghost use Rattle.std.specs.Prelude.{◌≡◌, Some, IfOk, map};
ghost use Rattle.serde_json.specs.View.{view};
ghost use Rattle.csl_elements.specs.Names.{view_et_al, view_name, view_part};
ghost use Rattle.csl_wire.specs.Names.{read_et_al, IsName};
ghost use Rattle.csl_wire.specs.Parts.{read_name_part};

use crate::choices::NAME_PART_NAMES;
use crate::dress::{CASED_AFFIXES, FORMATTING, cased_affixes, formatting};
use crate::form::Form;
use crate::limits::Reader;
use crate::name_options::{NAME_OPTIONS, name_options};
use crate::refusal::{Step, WireError, within};
use csl_elements::{EtAl, Name, NamePart, OtherTerm};
use serde_json::Value;

/// The member for the name of a part.
static NAME_PART: [&str; 1] = ["name"];

/// A part of a name.
fn name_part(reader: Reader, value: &Value) -> Result<NamePart, WireError>
    ensures { IfOk result (λ p. read_name_part reader.marks (view value.now) ≡ Some (view_part p)) }
{
    let form = Form::of(reader, value, &[&NAME_PART, &FORMATTING, &CASED_AFFIXES])?;
    Ok(NamePart {
        name: form.one_choice("name", &NAME_PART_NAMES)?,
        formatting: formatting(form)?,
        affixes: cased_affixes(form, reader.marks)?,
    })
}

/// The parts of a name.
fn name_parts(reader: Reader, items: &[Value]) -> Result<Vec<NamePart>, WireError>
    ensures { IfOk result (λ parts. map (read_name_part reader.marks) (map view items.now)
        ≡ map Some (map view_part parts.items)) }
{
    let mut parts = Vec::with_capacity(reader.alloc, items.len())?;
    for (place, item) in items.iter().enumerate() {
        parts.push(within(Step::Item(place), name_part(reader, item))?)?;
    }
    Ok(parts)
}

/// The members of a name, but its options and formatting.
static NAME: [&str; 3] = ["form", "delimiter", "name-part"];

/// A name.
pub(crate) fn name(reader: Reader, value: &Value) -> Result<Name, WireError>
    ensures { IfOk result (λ n. IsName reader.marks (view value.now) (view_name n)) }
{
    let form = Form::of(reader, value, &[&NAME, &NAME_OPTIONS, &FORMATTING])?;
    let formatting = formatting(form)?;
    let items = form.items("name-part")?;
    let parts = within(Step::Member("name-part"), name_parts(reader, items))?;
    let options = name_options(form, "form", "delimiter")?;
    Ok(Name {
        options,
        formatting,
        parts,
    })
}

/// The member for the term of `et-al`.
static ET_AL: [&str; 1] = ["term"];

/// The terms that `et-al` may print (CSL 1.0.2, Et-al).
static ET_AL_TERMS: [(&str, OtherTerm); 2] = [
    ("et-al", OtherTerm::EtAl),
    ("and others", OtherTerm::AndOthers),
];

/// An `et-al`.
pub(crate) fn et_al(reader: Reader, value: &Value) -> Result<EtAl, WireError>
    ensures { IfOk result (λ e. read_et_al (view value.now) ≡ Some (view_et_al e)) }
{
    let form = Form::of(reader, value, &[&ET_AL, &FORMATTING])?;
    Ok(EtAl {
        term: form
            .choice("term", &ET_AL_TERMS)?
            .unwrap_or(OtherTerm::EtAl),
        formatting: formatting(form)?,
    })
}
