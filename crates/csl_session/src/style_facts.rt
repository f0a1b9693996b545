//! What a style names, and which terms it lacks.

use csl::style::Scope;
use csl::{Style, named_by};
use csl_elements::{Layout, Locator, Named, Term, TermForm};
use csl_wire::WireError;
use csl_wire_reply::{put, put_text};
use lit_model::Memory;
use serde_json::{Map, Value};
use std::alloc::Global;

/// Appends a name to a list.
fn push_name(alloc: Global, names: &mut Vec<Value>, name: &str) -> Result<(), Memory> {
    let name = String::from_str(alloc, name)?;
    names.push(Value::String(name))?;
    Ok(())
}

/// The names of variables.
fn variables_value(alloc: Global, named: &Named) -> Result<Value, Memory> {
    let mut names = Vec::new(alloc);
    for variable in named.standards.iter() {
        push_name(alloc, &mut names, variable.name())?;
    }
    push_numbers(alloc, &mut names, named)?;
    push_persons_and_dates(alloc, &mut names, named)?;
    Ok(Value::Array(names))
}

/// Appends the names of number and page variables.
fn push_numbers(alloc: Global, names: &mut Vec<Value>, named: &Named) -> Result<(), Memory> {
    for variable in named.numbers.iter() {
        push_name(alloc, names, variable.name())?;
    }
    for variable in named.pages.iter() {
        push_name(alloc, names, variable.name())?;
    }
    Ok(())
}

/// Appends the names of name and date variables.
fn push_persons_and_dates(
    alloc: Global,
    names: &mut Vec<Value>,
    named: &Named,
) -> Result<(), Memory> {
    for variable in named.names.iter() {
        push_name(alloc, names, variable.name())?;
    }
    for variable in named.dates.iter() {
        push_name(alloc, names, variable.name())?;
    }
    Ok(())
}

/// The names of types.
fn types_value(alloc: Global, named: &Named) -> Result<Value, Memory> {
    let mut names = Vec::new(alloc);
    for kind in named.kinds.iter() {
        push_name(alloc, &mut names, kind.name())?;
    }
    Ok(Value::Array(names))
}

/// What a layout names: its variables and types.
fn named_value(alloc: Global, style: &Style, layout: &Layout) -> Result<Value, Memory> {
    let named = named_by(alloc, style, layout)?;
    let mut members = Map::new(alloc);
    let variables = variables_value(alloc, &named)?;
    put(alloc, &mut members, "variables", variables)?;
    let types = types_value(alloc, &named)?;
    put(alloc, &mut members, "types", types)?;
    Ok(Value::Object(members))
}

/// The name of a form of a term.
fn form_name(form: TermForm) -> &'static str {
    match form {
        TermForm::Long => "long",
        TermForm::Short => "short",
        TermForm::Verb => "verb",
        TermForm::VerbShort => "verb-short",
        TermForm::Symbol => "symbol",
    }
}

/// The name of the term of a locator. A name that a variable has too begins with `locator:`.
fn locator_name(alloc: Global, locator: Locator) -> Result<String, Memory> {
    let name = locator.name();
    match Term::from_name(name) {
        Some(Term::Locator(_)) => Ok(String::from_str(alloc, name)?),
        _ => Ok(format!(in alloc; "locator:{name}")?),
    }
}

/// The name of a term, as locales have it.
fn term_name(alloc: Global, term: Term) -> Result<String, Memory> {
    match term {
        Term::Locator(locator) => locator_name(alloc, locator),
        _ => Ok(String::from_str(alloc, term.name().unwrap_or(""))?),
    }
}

/// The terms that a layout asks for and that no locale has.
fn missing_value(alloc: Global, style: &Style, layout: &Layout) -> Result<Value, Memory> {
    let missing = style.missing_terms(alloc, layout)?;
    let mut terms = Vec::with_capacity(alloc, missing.len())?;
    for (term, form) in &missing {
        let name = term_name(alloc, *term)?;
        let mut members = Map::new(alloc);
        put(alloc, &mut members, "name", Value::String(name))?;
        put_text(alloc, &mut members, "form", form_name(*form))?;
        terms.push(Value::Object(members))?;
    }
    Ok(Value::Array(terms))
}

/// A fact of a style.
#[derive(Clone, Copy)]
pub(crate) enum Fact {
    /// What it names.
    Named,
    /// The terms that it lacks.
    MissingTerms,
}

/// A fact of the layout of a scope, or `null` without such a layout.
fn layout_fact(alloc: Global, style: &Style, scope: Scope, fact: Fact) -> Result<Value, Memory> {
    match (style.layout(scope), fact) {
        (Some(layout), Fact::Named) => named_value(alloc, style, layout),
        (Some(layout), Fact::MissingTerms) => missing_value(alloc, style, layout),
        (None, _) => Ok(Value::Null),
    }
}

/// A fact of both layouts of a style.
pub(crate) fn fact_value(alloc: Global, style: &Style, fact: Fact) -> Result<Value, WireError> {
    let mut members = Map::new(alloc);
    let citation = layout_fact(alloc, style, Scope::Citation, fact)?;
    put(alloc, &mut members, "citation", citation)?;
    let bibliography = layout_fact(alloc, style, Scope::Bibliography, fact)?;
    put(alloc, &mut members, "bibliography", bibliography)?;
    Ok(Value::Object(members))
}
