//! Styles: settings, macros, layouts and locales (CSL 1.0.2, Style Structure).

ghost use Rattle.std.specs.Prelude.{IfOk, false, true, codes, map, option_map};
ghost use Rattle.std.specs.List.{AllZip};
ghost use Rattle.serde_json.specs.View.{view};
ghost use Rattle.csl_elements.specs.NamesOptions.{partial_options};
ghost use Rattle.csl_elements.specs.View.{definition, definitions, view_layout};
ghost use Rattle.csl_wire.specs.Styles.{AreLayoutOptions, AreSettings, IsCitation, IsLayout, IsLayoutIf, IsMacro, IsStyle};
ghost use Rattle.csl_wire.specs.Reading.{member};

use crate::choices::{DEMOTIONS, PAGE_FORMATS};
use crate::dress::{FORMATTING, formatting};
use crate::form::Form;
use crate::limits::{Limits, Reader};
use crate::locales::{LocaleOptions, NO_OPTIONS, locale};
use crate::name_options::{NAME_OPTIONS, name_options};
use crate::named::Named;
use crate::nodes::children_of;
use crate::refusal::{Code, Step, WireError, within};
use csl_elements::{CslMacro, InheritableNameOptions, Layout, Locale};
use csl_languages::Language;
use csl_style::{DemoteNonDroppingParticle, PageRangeFormat, Style, StyleError, StyleSettings};
use serde_json::Value;
use std::alloc::Global;

/// The members of a macro.
static MACRO: [&str; 2] = ["name", "children"];

/// A macro.
fn macro_of(reader: Reader, value: &Value) -> Result<CslMacro, WireError>
    ensures { IfOk result (λ m. IsMacro reader.marks (view value.now) (definition m)) }
{
    let form = Form::of(reader, value, &[&MACRO])?;
    let name = form.one_text("name")?;
    let children = children_of(form)?;
    Ok(CslMacro { name, children })
}

/// The macros of a list.
#[tactic(auto, using(crate::proofs::Lists::zip_more_made))]
fn macros(reader: Reader, items: &[Value]) -> Result<Vec<CslMacro>, WireError>
    ensures { IfOk result (λ ms. AllZip (IsMacro reader.marks) (map view items.now)
        (definitions ms.items)) }
{
    let mut macros = Vec::with_capacity(reader.alloc, items.len())?;
    for (place, item) in items.iter().enumerate() {
        macros.push(within(Step::Item(place), macro_of(reader, item))?)?;
    }
    Ok(macros)
}

/// A layout, with the options of names in it.
#[derive(Drop)]
struct WithOptions {
    options: InheritableNameOptions,
    layout: Layout,
}

/// The members of a layout, but its options of names and its formatting.
static LAYOUT: [&str; 4] = ["delimiter", "name-form", "name-delimiter", "children"];

/// A layout.
fn with_options(reader: Reader, value: &Value) -> Result<WithOptions, WireError>
    ensures layout { IfOk result (λ w. IsLayout reader.marks (view value.now)
        (view_layout w.layout)) }
    ensures options { IfOk result (λ w. AreLayoutOptions (view value.now)
        (partial_options w.options)) }
{
    let form = Form::of(reader, value, &[&LAYOUT, &NAME_OPTIONS, &FORMATTING])?;
    let formatting = formatting(form)?;
    let delimiter = form.text("delimiter")?;
    let options = name_options(form, "name-form", "name-delimiter")?;
    let elements = children_of(form)?;
    let layout = Layout {
        elements,
        delimiter,
        formatting,
    };
    Ok(WithOptions { options, layout })
}

/// The citation. One that is absent is empty.
fn citation_of(form: Form<'_>) -> Result<WithOptions, WireError>
    ensures { IfOk result (λ w. IsCitation form.entry.reader.marks
        (member (codes "citation") (view form.entry.value.now)) (view_layout w.layout)
        (partial_options w.options)) }
{
    match form.member("citation") {
        Some(value) => within(Step::Member("citation"), with_options(form.reader, value)),
        None => Ok(WithOptions {
            options: InheritableNameOptions::default(),
            layout: Layout::new(Vec::new(form.reader.alloc)),
        }),
    }
}

/// A layout that may be absent, with the options of names in it.
#[derive(Drop)]
struct LayoutIf {
    options: InheritableNameOptions,
    layout: Option<Layout>,
}

/// The bibliography.
fn bibliography_of(form: Form<'_>) -> Result<LayoutIf, WireError>
    ensures { IfOk result (λ b. IsLayoutIf form.entry.reader.marks (member (codes "bibliography")
        (view form.entry.value.now)) (option_map view_layout b.layout)
        (partial_options b.options)) }
{
    match form.member("bibliography") {
        Some(value) => {
            let read = with_options(form.reader, value);
            let WithOptions { options, layout } = within(Step::Member("bibliography"), read)?;
            Ok(LayoutIf {
                options,
                layout: Some(layout),
            })
        }
        None => Ok(LayoutIf {
            options: InheritableNameOptions::default(),
            layout: None,
        }),
    }
}

/// The locale of a language.
fn locale_of_tag(reader: Reader, tag: &str) -> Result<Locale, WireError> {
    match Language::from_tag(tag) {
        Some(language) => Ok(language.locale(reader.alloc)?),
        None => Err(Language::refusal(reader.alloc, tag)),
    }
}

/// A locale, or the tag of a language. An option that a locale does not set is one of these.
fn locale_or_tag(
    reader: Reader,
    value: &Value,
    options: LocaleOptions,
) -> Result<Locale, WireError> {
    match value.as_str() {
        Some(tag) => locale_of_tag(reader, tag),
        None => locale(reader, value, options),
    }
}

/// The locales of a list. An option that a locale does not set is that of the locale after it.
fn locales(reader: Reader, items: &[Value]) -> Result<Vec<Locale>, WireError> {
    let mut locales = Vec::with_capacity(reader.alloc, items.len())?;
    let mut options = NO_OPTIONS;
    for place in (0..items.len()).rev() {
        let read = locale_or_tag(reader, &items[place], options);
        let locale = within(Step::Item(place), read)?;
        options = LocaleOptions {
            punctuation_in_quote: locale.punctuation_in_quote,
            limit_day_ordinals_to_day_1: locale.limit_day_ordinals_to_day_1,
        };
        locales.push(locale)?;
    }
    locales.reverse();
    Ok(locales)
}

/// The settings of a style, but the options of its layouts.
#[derive(Drop)]
struct GlobalOptions {
    page_range_format: Option<PageRangeFormat>,
    demote_non_dropping_particle: DemoteNonDroppingParticle,
    initialize_with_hyphen: bool,
    names: InheritableNameOptions,
}

/// The settings of a style, but the options of its layouts (CSL 1.0.2, Global Options).
fn global_options(form: Form<'_>) -> Result<GlobalOptions, WireError>
    ensures { IfOk result (λ g. AreSettings (view form.entry.value.now) g.page_range_format
        g.demote_non_dropping_particle g.initialize_with_hyphen (partial_options g.names)) }
{
    let demotion = form.choice("demote-non-dropping-particle", &DEMOTIONS)?;
    Ok(GlobalOptions {
        page_range_format: form.choice("page-range-format", &PAGE_FORMATS)?,
        demote_non_dropping_particle: demotion.unwrap_or(DemoteNonDroppingParticle::DisplayAndSort),
        initialize_with_hyphen: form.boolean("initialize-with-hyphen")?.unwrap_or(true),
        names: name_options(form, "name-form", "name-delimiter")?,
    })
}

/// The members of a style, but its options of names.
static STYLE: [&str; 9] = [
    "page-range-format",
    "demote-non-dropping-particle",
    "initialize-with-hyphen",
    "name-form",
    "name-delimiter",
    "macros",
    "citation",
    "bibliography",
    "locales",
];

/// The parts of a style.
#[derive(Drop)]
struct StyleParts {
    settings: StyleSettings,
    macros: Vec<CslMacro>,
    citation: Layout,
    bibliography: Option<Layout>,
    locales: Vec<Locale>,
}

/// The parts of a style.
#[tactic(auto, using(crate::proofs::StylesRead::style_read))]
fn parts_of(reader: Reader, value: &Value) -> Result<StyleParts, WireError>
    ensures { IfOk result (λ p. IsStyle reader.marks (view value.now) p.settings p.macros.items
        p.citation p.bibliography) }
{
    let form = Form::of(reader, value, &[&STYLE, &NAME_OPTIONS])?;
    let items = form.items("macros")?;
    let macros = within(Step::Member("macros"), macros(reader, items))?;
    let tags = form.items("locales")?;
    let locales = within(Step::Member("locales"), locales(reader, tags))?;
    let WithOptions {
        options: citation_names,
        layout: citation,
    } = citation_of(form)?;
    let LayoutIf {
        options: bibliography_names,
        layout: bibliography,
    } = bibliography_of(form)?;
    let GlobalOptions {
        page_range_format,
        demote_non_dropping_particle,
        initialize_with_hyphen,
        names,
    } = global_options(form)?;
    let settings = StyleSettings {
        page_range_format,
        demote_non_dropping_particle,
        initialize_with_hyphen,
        names,
        citation_names,
        bibliography_names,
    };
    Ok(StyleParts {
        settings,
        macros,
        citation,
        bibliography,
        locales,
    })
}

/// The refusal of a style.
fn refused(alloc: Global, error: StyleError) -> WireError {
    match error {
        StyleError::Memory => WireError::Memory,
        StyleError::CyclicMacro(name) => WireError::of_word(
            alloc,
            Code::CyclicMacro,
            "a macro leads back to itself",
            name.as_str(),
            None,
        )
        .after(Step::Member("macros")),
        StyleError::ChicagoPageFormat => WireError::of(
            alloc,
            Code::Unsupported,
            "the page formats of Chicago are not supported",
        )
        .after(Step::Member("page-range-format")),
    }
}

/// The style that a value is.
fn read_style(reader: Reader, value: &Value) -> Result<Style, WireError>
    ensures { IfOk result (λ s. IsStyle reader.marks (view value.now) s.settings s.macros s.citation
        s.bibliography) }
{
    let StyleParts {
        settings,
        macros,
        citation,
        bibliography,
        locales,
    } = parts_of(reader, value)?;
    let alloc = reader.alloc;
    match Style::new(alloc, settings, macros, citation, bibliography, locales) {
        Ok(style) => Ok(style),
        Err(error) => Err(refused(alloc, error)),
    }
}

/// A style, without the marks of cases.
///
/// Before you render with a style from a stranger, ask [`Style::all_within`] of its size.
///
/// # Errors
/// [`WireError::Refused`]: the value is no style within the limits.
pub fn style_of(alloc: Global, value: &Value, limits: Limits) -> Result<Style, WireError>
    ensures { IfOk result (λ s. IsStyle false (view value.now) s.settings s.macros s.citation
        s.bibliography) }
{
    let reader = Reader {
        alloc,
        limits,
        marks: false,
    };
    read_style(reader, value)
}

/// A style whose affixes have the marks of cases, for [`csl_finish::apply_text_case`]: as
/// `csl_list` takes it.
///
/// # Errors
/// Those of [`style_of`].
pub fn marked_style_of(alloc: Global, value: &Value, limits: Limits) -> Result<Style, WireError>
    ensures { IfOk result (λ s. IsStyle true (view value.now) s.settings s.macros s.citation
        s.bibliography) }
{
    let reader = Reader {
        alloc,
        limits,
        marks: true,
    };
    read_style(reader, value)
}
