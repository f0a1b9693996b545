//! The kinds of nodes that rendered elements.
//! Definitions: specs/Members.antt, specs/Tree.antt.

ghost use Rattle.std.specs.Prelude.{◌≡◌, IfOk, OnOk, map, option_map, string_bytes};
ghost use Rattle.serde_json.specs.Data.{array};
ghost use Rattle.serde_json.specs.View.{items_of, view, members_view};
ghost use Rattle.lit_model.specs.Person.{person_view};
ghost use Rattle.csl_tree.specs.Tokens.{meta_of, names_of, optional_meta};
ghost use Rattle.csl_wire_reply.specs.Members.{person_data};
ghost use Rattle.csl_wire_reply.specs.Members as members_spec;
ghost use Rattle.csl_wire_reply.specs.Tree as spec;

use crate::members::{put, put_flag, put_number, put_text, put_text_if};
use csl_elements::NameVariable;
use csl_tree::ElemMeta;
use lit_model::{Memory, Person};
use serde_json::{Map, Value};
use std::alloc::Global;

/// The text of an option, borrowed.
fn borrowed(text: &Option<String>) -> Option<&str>
    ensures { option_map (λ t. t.now) result ≡ option_map string_bytes text.now }
{
    match text {
        Some(text) => Some(text.as_str()),
        None => None,
    }
}

/// Sets the parts of a person's name beside the family name.
#[tactic(auto, unfolding(crate::specs::Members::put_parts))]
fn put_parts(alloc: Global, members: &mut Map<String, Value>, person: &Person) -> Result<(), Memory>
    ensures { OnOk result (members_view members.new.entries
        ≡ members_spec.put_parts (person_view person.now) (members_view members.old.entries)) }
{
    put_text_if(alloc, members, "given", borrowed(&person.given_name))?;
    put_text_if(alloc, members, "prefix", borrowed(&person.prefix))?;
    put_text_if(alloc, members, "suffix", borrowed(&person.suffix))?;
    Ok(())
}

/// Sets what a person has beside a name.
#[tactic(auto, unfolding(crate::specs::Members::put_others))]
fn put_others(
    alloc: Global,
    members: &mut Map<String, Value>,
    person: &Person,
) -> Result<(), Memory>
    ensures { OnOk result (members_view members.new.entries
        ≡ members_spec.put_others (person_view person.now) (members_view members.old.entries)) }
{
    put_text_if(alloc, members, "alias", borrowed(&person.alias))?;
    put_flag(alloc, members, "comma-suffix", person.comma_suffix)?;
    Ok(())
}

/// A person, as an entry has it.
fn person_value(alloc: Global, person: &Person) -> Result<Value, Memory>
    ensures { IfOk result (λ v. view v ≡ person_data (person_view person.now)) }
{
    let mut members = Map::new(alloc);
    put_text(alloc, &mut members, "family", person.name.as_str())?;
    put_parts(alloc, &mut members, person)?;
    put_others(alloc, &mut members, person)?;
    Ok(Value::Object(members))
}

/// The persons of a variable, as a list.
fn persons_value(alloc: Global, persons: &[Person]) -> Result<Value, Memory>
    ensures { IfOk result (λ v. view v
        ≡ array (items_of (map person_data (map person_view persons.now)))) }
{
    let mut items = Vec::with_capacity(alloc, persons.len())?;
    for person in persons {
        items.push(person_value(alloc, person)?)?;
    }
    Ok(Value::Array(items))
}

/// A variable with its persons.
fn name_value(alloc: Global, name: &(Vec<Person>, NameVariable)) -> Result<Value, Memory>
    ensures { IfOk result (λ v. view v ≡ spec.names_data (names_of name.now)) }
{
    let mut members = Map::new(alloc);
    put_text(alloc, &mut members, "variable", name.1.name())?;
    let persons = persons_value(alloc, name.0.as_slice())?;
    put(alloc, &mut members, "persons", persons)?;
    Ok(Value::Object(members))
}

/// The variables of a `cs:names` with their persons, as a list.
fn names_value(alloc: Global, names: &[(Vec<Person>, NameVariable)]) -> Result<Value, Memory>
    ensures { IfOk result (λ v. view v
        ≡ array (items_of (map spec.names_data (map names_of names.now)))) }
{
    let mut items = Vec::with_capacity(alloc, names.len())?;
    for name in names {
        items.push(name_value(alloc, name)?)?;
    }
    Ok(Value::Array(items))
}

/// The name of a kind.
fn kind_name(meta: &ElemMeta) -> &'static str
    ensures { result.now ≡ spec.kind_name (meta_of meta.now) }
{
    match meta {
        ElemMeta::Names(_) => "names",
        ElemMeta::Date => "date",
        ElemMeta::Text => "text",
        ElemMeta::Number => "number",
        ElemMeta::Label => "label",
        ElemMeta::CitationNumber => "citation-number",
        ElemMeta::Name(_, _) => "name",
        ElemMeta::Entry(_) => "entry",
        ElemMeta::CitationLabel => "citation-label",
    }
}

/// Sets the members that a kind has more than its name.
#[tactic(auto, unfolding(crate::specs::Tree::put_detail))]
fn put_detail(
    alloc: Global,
    members: &mut Map<String, Value>,
    meta: &ElemMeta,
) -> Result<(), Memory>
    ensures { OnOk result (members_view members.new.entries
        ≡ spec.put_detail (meta_of meta.now) (members_view members.old.entries)) }
{
    match meta {
        ElemMeta::Names(names) => {
            let names = names_value(alloc, names.as_slice())?;
            put(alloc, members, "names", names)?;
            Ok(())
        }
        ElemMeta::Name(variable, index) => {
            put_text(alloc, members, "variable", variable.name())?;
            put_number(alloc, members, "index", *index as u64)?;
            Ok(())
        }
        ElemMeta::Entry(index) => {
            put_number(alloc, members, "index", *index as u64)?;
            Ok(())
        }
        ElemMeta::Date
        | ElemMeta::Text
        | ElemMeta::Number
        | ElemMeta::Label
        | ElemMeta::CitationNumber
        | ElemMeta::CitationLabel => Ok(()),
    }
}

/// A kind, as an object.
fn meta_value(alloc: Global, meta: &ElemMeta) -> Result<Value, Memory>
    ensures { IfOk result (λ v. view v ≡ spec.meta_data (meta_of meta.now)) }
{
    let mut members = Map::new(alloc);
    put_text(alloc, &mut members, "kind", kind_name(meta))?;
    put_detail(alloc, &mut members, meta)?;
    Ok(Value::Object(members))
}

/// Sets a member to a kind, if there is one.
#[tactic(auto, unfolding(crate::specs::Tree::put_meta))]
pub(crate) fn put_meta(
    alloc: Global,
    members: &mut Map<String, Value>,
    meta: &Option<ElemMeta>,
) -> Result<(), Memory>
    ensures { OnOk result (members_view members.new.entries
        ≡ spec.put_meta (optional_meta meta.now) (members_view members.old.entries)) }
{
    if let Some(meta) = meta {
        let meta = meta_value(alloc, meta)?;
        put(alloc, members, "meta", meta)?;
    }
    Ok(())
}
