//! A style with its options for a document (CSL 1.0.2, Style Structure).
//! Definitions: specs/ListStyles.antt.

ghost use Rattle.std.specs.Prelude.{◌≡◌, Some, IfOk, map, option_map};
ghost use Rattle.serde_json.specs.View.{view};
ghost use Rattle.csl_wire_list.specs.ListStyles.{IsListStyle, IsStyleIn};
ghost use Rattle.csl_wire_list.specs.ListStyles as spec;

use crate::bibliography::bibliography_options;
use crate::citation::citation_options;
use crate::limits::OptionLimits;
use crate::unknown::unknown_name;
use csl_languages::Language;
use csl_list::{ListStyle, ListStyleError};
use csl_style::{Scope, Style};
use csl_wire::{Code, Form, Step, WireError, marked_style_of, within};
use serde_json::Value;
use std::alloc::Global;

/// The first of the locales that is a tag, if one is.
fn first_tag(locales: &[Value]) -> Option<&str>
    ensures { option_map (λ tag. tag.now) result ≡ spec.first_tag (map view locales.now) }
{
    for locale in locales {
        if let Some(tag) = locale.as_str() {
            return Some(tag);
        }
    }
    None
}

/// Whether a tag is one of English.
fn is_english_tag(tag: &str) -> bool
    ensures { result ≡ spec.is_english_tag tag.now }
{
    match Language::from_tag(tag) {
        Some(language) => language == Language::English || language == Language::BritishEnglish,
        None => false,
    }
}

/// Whether works are English that do not say so themselves: by the first tag among the locales of
/// the style. Without a tag they are.
fn is_english(form: Form<'_>) -> Result<bool, WireError>
    ensures { IfOk result (λ english. spec.read_english (view form.entry.value.now)
        ≡ Some english) }
{
    let Some(value) = form.member("style") else {
        return Ok(true);
    };
    let style = Form {
        reader: form.reader,
        value,
    };
    let locales = within(Step::Member("style"), style.items("locales"))?;
    match first_tag(locales) {
        Some(tag) => Ok(is_english_tag(tag)),
        None => Ok(true),
    }
}

/// The style among the members, with the marks of cases.
#[tactic(auto, using(crate::proofs::Read::style_read))]
fn style_in(form: Form<'_>, limits: OptionLimits) -> Result<Style, WireError>
    ensures { IfOk result (IsStyleIn (view form.entry.value.now)) }
{
    match form.member("style") {
        Some(value) => {
            let style = marked_style_of(form.reader.alloc, value, limits.style());
            Ok(within(Step::Member("style"), style)?)
        }
        None => Err(form.missing("style")),
    }
}

/// The name of the member that has the options of a scope.
fn scope_name(scope: Scope) -> &'static str {
    match scope {
        Scope::Citation => "citation",
        Scope::Bibliography => "bibliography",
    }
}

/// The name of the macro that a key sorts by.
fn macro_of_key<'v>(options: &'v Value, key: usize) -> Option<&'v str> {
    let keys = options.get("sort")?.as_array()?;
    keys.get(key)?.get("macro")?.as_str()
}

/// The names of the macros of a style.
fn macro_names<'v>(alloc: Global, style: &'v Value) -> Result<Vec<&'v str>, WireError> {
    let mut names = Vec::new(alloc);
    if let Some(macros) = style.get("macros").and_then(|macros| macros.as_array()) {
        for value in macros {
            if let Some(name) = value.get("name").and_then(|name| name.as_str()) {
                names.push(name)?;
            }
        }
    }
    Ok(names)
}

/// The refusal of the name of a macro that the style lacks.
fn unknown_macro(form: Form<'_>, options: &'static str, key: usize) -> WireError {
    let alloc = form.reader.alloc;
    let (Some(style), Some(options)) = (form.member("style"), form.member(options)) else {
        return WireError::of(alloc, Code::UnknownName, "the style has no such macro");
    };
    let name = macro_of_key(options, key).unwrap_or("");
    match macro_names(alloc, style) {
        Ok(names) => unknown_name(alloc, name, names.as_slice()),
        Err(error) => error,
    }
}

/// The refusal of a style with its options.
fn refused(form: Form<'_>, error: ListStyleError) -> WireError {
    match error {
        ListStyleError::Memory => WireError::Memory,
        ListStyleError::NoSuchMacro { scope, key } => {
            let options = scope_name(scope);
            unknown_macro(form, options, key)
                .after(Step::Member("macro"))
                .after(Step::Item(key))
                .after(Step::Member("sort"))
                .after(Step::Member(options))
        }
    }
}

/// A style with its options among the members of a request, which may have further members.
///
/// # Errors
/// [`WireError::Refused`]: the members are no style with its options within the limits, or a key is
/// by a macro that the style lacks.
#[tactic(auto, using(crate::proofs::Read::english_set))]
pub fn list_style_in(form: Form<'_>, limits: OptionLimits) -> Result<ListStyle, WireError>
    ensures { IfOk result (IsListStyle (view form.entry.value.now)) }
{
    let alloc = form.reader.alloc;
    let citation = citation_options(limits, form)?;
    let bibliography = bibliography_options(limits, form)?;
    let style = style_in(form, limits)?;
    let english = is_english(form)?;
    match ListStyle::new(alloc, style, citation, Some(bibliography)) {
        Ok(style) => Ok(style.with_english(english)),
        Err(error) => Err(refused(form, error)),
    }
}

/// The members of a style with its options.
static LIST_STYLE: [&str; 4] = ["style", "class", "citation", "bibliography"];

/// A style with its options. Options that are absent have CSL's defaults.
///
/// Before you render with a style from a stranger, ask [`ListStyle::all_within`] of its size.
///
/// # Errors
/// [`WireError::Refused`]: the value is no style with its options within the limits, or a key is by
/// a macro that the style lacks.
pub fn list_style_of(
    alloc: Global,
    value: &Value,
    limits: OptionLimits,
) -> Result<ListStyle, WireError>
    ensures { IfOk result (IsListStyle (view value.now)) }
{
    let form = Form::of(limits.texts(alloc), value, &[&LIST_STYLE])?;
    Ok(list_style_in(form, limits)?)
}
