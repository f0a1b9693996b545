//! A style with its options for a document (CSL 1.0.2, Style Structure; Sorting).

ghost use Rattle.std.specs.List.{All};
ghost use Rattle.std.specs.Prelude.{◌≡◌, true, IfOk, IfErr, OnOk, IsFalse, IsTrue, length, option_copied};
ghost use Rattle.csl_elements.specs.View.{definitions};
ghost use Rattle.csl_list.specs.ListStyle as spec;

use crate::options::{BibliographyOptions, CitationOptions, KeySource, SortKey};
use crate::style_error::ListStyleError;
use csl_common::Memory;
use csl_elements::{
    Date, Layout, LayoutRenderingElement, Names, Number, NumberOrPageVariable, Text, Variable,
};
use csl_entry::Sorting;
use csl_style::{Scope, Style};
use std::alloc::Global;

/// A key as a layout that renders its text.
#[derive(Drop)]
pub(crate) struct KeyLayout {
    pub layout: Layout,
    pub sorting: Sorting,
    pub is_descending: bool,
}

/// A style, and its options for the citations and the bibliography of a document. Each key by a
/// macro calls one that the style has.
#[derive(Drop)]
pub struct ListStyle {
    style: Style,
    citation: CitationOptions,
    bibliography: Option<BibliographyOptions>,
    citation_keys: Vec<KeyLayout>,
    bibliography_keys: Vec<KeyLayout>,
    is_english: bool,
}

/// Whether a key is by a macro that the style lacks.
fn is_unknown(style: &Style, key: &SortKey) -> bool
    ensures { result ≡ spec.is_unknown (definitions style.now.macros) key.now }
{
    match &key.source {
        KeySource::Macro(name) => style.get_macro(name.as_str()).is_none(),
        KeySource::Variable(_) => false,
    }
}

/// The index of the first key by a macro that the style lacks.
fn unknown_key(style: &Style, keys: &[SortKey]) -> Option<usize>
    ensures { spec.IsUnknownPlace (definitions style.now.macros) keys.now result }
{
    for (i, key) in keys.iter().enumerate() {
        if is_unknown(style, key) {
            return Some(i);
        }
    }
    None
}

/// The node that renders a variable for sorting.
fn variable_node(alloc: Global, variable: Variable) -> Result<LayoutRenderingElement, Memory> {
    Ok(match variable {
        Variable::Standard(_) => Text::variable(variable).into(),
        Variable::Number(number) => Number::new(NumberOrPageVariable::Number(number)).into(),
        Variable::Page(page) => Number::new(NumberOrPageVariable::Page(page)).into(),
        Variable::Date(date) => Date::new(date, Vec::new(alloc)).into(),
        Variable::Name(name) => Names::new(alloc, vec![in alloc; name]?).into(),
    })
}

/// A key as a layout.
fn key_layout(alloc: Global, key: &SortKey) -> Result<KeyLayout, Memory> {
    let (node, sorting) = match &key.source {
        KeySource::Macro(name) => {
            let call = Text::macro_call(alloc, name.as_str())?;
            (call.into(), Sorting::Macro)
        }
        KeySource::Variable(variable) => (variable_node(alloc, *variable)?, Sorting::Variable),
    };
    Ok(KeyLayout {
        layout: Layout::new(vec![in alloc; node]?),
        sorting,
        is_descending: key.is_descending,
    })
}

/// The keys as layouts, in their order.
fn key_layouts(alloc: Global, keys: &[SortKey]) -> Result<Vec<KeyLayout>, Memory>
    ensures { IfOk result (λ layouts. length layouts.items ≡ length keys.now) }
{
    let mut layouts = Vec::with_capacity(alloc, keys.len())?;
    for key in keys {
        layouts.push(key_layout(alloc, key)?)?;
    }
    Ok(layouts)
}

/// The keys as layouts, if the style has the macros that they are by.
fn checked_keys(
    alloc: Global,
    style: &Style,
    scope: Scope,
    keys: &[SortKey],
) -> Result<Vec<KeyLayout>, ListStyleError>
    ensures known { OnOk result (All (spec.IsKnown (definitions style.now.macros)) keys.now) }
    ensures refused { IfErr result (spec.IsRefusalOf (definitions style.now.macros) scope
        keys.now) }
{
    if let Some(key) = unknown_key(style, keys) {
        return Err(ListStyleError::NoSuchMacro { scope, key });
    }
    let layouts = key_layouts(alloc, keys)?;
    Ok(layouts)
}

/// The keys of the citation and those of the bibliography as layouts, if the style has the macros
/// that they are by.
#[tactic(auto, using(crate::proofs::Refusals::by_citation, crate::proofs::Refusals::by_bibliography))]
fn all_checked_keys(
    alloc: Global,
    style: &Style,
    citation: &[SortKey],
    bibliography: &[SortKey],
) -> Result<(Vec<KeyLayout>, Vec<KeyLayout>), ListStyleError>
    ensures citation { OnOk result (All (spec.IsKnown (definitions style.now.macros))
        citation.now) }
    ensures bibliography { OnOk result (All (spec.IsKnown (definitions style.now.macros))
        bibliography.now) }
    ensures refused { IfErr result (spec.IsRefusal (definitions style.now.macros) citation.now
        bibliography.now) }
{
    let citation = checked_keys(alloc, style, Scope::Citation, citation)?;
    let bibliography = checked_keys(alloc, style, Scope::Bibliography, bibliography)?;
    Ok((citation, bibliography))
}

/// The keys of a bibliography, if there is one.
fn keys_of(bibliography: &Option<BibliographyOptions>) -> &[SortKey]
    ensures { result.now ≡ spec.keys_of bibliography.now }
{
    match bibliography {
        Some(options) => &options.keys,
        None => &[],
    }
}

/// Whether the layout of each key is within the limits.
#[tactic(auto, using(crate::proofs::KeysWithin::key_above))]
fn are_keys_within(
    style: &Style,
    keys: &[KeyLayout],
    rendered: u64,
    size: u64,
    depth: usize,
) -> bool
    ensures within { IsTrue result → spec.AreKeysWithin style.now rendered size depth keys.now }
    ensures above { IsFalse result → ¬ spec.AreKeysWithin style.now rendered size depth keys.now }
{
    for key in keys {
        if !style.rendered_within(&key.layout, rendered, size, depth) {
            return false;
        }
    }
    true
}

impl ListStyle {
    /// A style with its options. Without options for the bibliography no bibliography is made, even
    /// if the style has a layout for one. On an error, the parts are dropped.
    ///
    /// # Errors
    /// [`ListStyleError::Memory`]: out of memory.
    /// [`ListStyleError::NoSuchMacro`]: a key is by a macro that the style lacks.
    pub fn new(
        alloc: Global,
        style: Style,
        citation: CitationOptions,
        bibliography: Option<BibliographyOptions>,
    ) -> Result<ListStyle, ListStyleError>
        ensures style { IfOk result (λ list. spec.style_of list ≡ style) }
        ensures citation { IfOk result (λ list. spec.citation_of list ≡ citation) }
        ensures bibliography { IfOk result (λ list. spec.bibliography_of list ≡ bibliography) }
        ensures english { IfOk result (λ list. spec.english_of list ≡ true) }
        ensures citation_keys { OnOk result (All (spec.IsKnown (definitions style.macros))
            citation.keys.items) }
        ensures bibliography_keys { OnOk result (All (spec.IsKnown (definitions style.macros))
            (spec.keys_of bibliography)) }
        ensures refused { IfErr result (spec.IsRefusal (definitions style.macros)
            citation.keys.items (spec.keys_of bibliography)) }
    {
        let keys = keys_of(&bibliography);
        let (citation_keys, bibliography_keys) = all_checked_keys(
            alloc,
            &style,
            &citation.keys,
            keys,
        )?;
        Ok(ListStyle {
            style,
            citation,
            bibliography,
            citation_keys,
            bibliography_keys,
            is_english: true,
        })
    }

    /// The style for works that are English, or are not, if they do not say so themselves
    /// ([`EntryLike::is_english`](csl_entry::EntryLike::is_english)). Titles that are not English
    /// get no title case (CSL 1.0.2, Text-case: Non-English Items). A new style is for English.
    pub fn with_english(self, is_english: bool) -> ListStyle
        ensures english { spec.english_of result ≡ is_english }
        ensures style { spec.style_of result ≡ spec.style_of self }
        ensures citation { spec.citation_of result ≡ spec.citation_of self }
        ensures bibliography { spec.bibliography_of result ≡ spec.bibliography_of self }
        ensures citation_keys { spec.citation_keys result ≡ spec.citation_keys self }
        ensures bibliography_keys { spec.bibliography_keys result
            ≡ spec.bibliography_keys self }
    {
        let ListStyle {
            style,
            citation,
            bibliography,
            citation_keys,
            bibliography_keys,
            is_english: _,
        } = self;
        ListStyle {
            style,
            citation,
            bibliography,
            citation_keys,
            bibliography_keys,
            is_english,
        }
    }

    /// Whether works are English that do not say so themselves.
    pub fn is_english(&self) -> bool
        ensures { result ≡ spec.english_of self.now }
    {
        self.is_english
    }

    /// The style itself.
    pub fn style(&self) -> &Style
        ensures { result.now ≡ spec.style_of self.now }
    {
        &self.style
    }

    /// The options of citations.
    pub fn citation(&self) -> &CitationOptions
        ensures { result.now ≡ spec.citation_of self.now }
    {
        &self.citation
    }

    /// The options of the bibliography, if one is wanted.
    pub fn bibliography(&self) -> Option<&BibliographyOptions>
        ensures { option_copied result ≡ spec.bibliography_of self.now }
    {
        self.bibliography.as_ref()
    }

    /// The keys of the citation as layouts.
    pub(crate) fn citation_keys(&self) -> &[KeyLayout]
        ensures { result.now ≡ spec.citation_keys self.now }
    {
        &self.citation_keys
    }

    /// The keys of the bibliography as layouts.
    pub(crate) fn bibliography_keys(&self) -> &[KeyLayout]
        ensures { result.now ≡ spec.bibliography_keys self.now }
    {
        &self.bibliography_keys
    }

    /// Whether all layouts that a list renders are within the limits of [`Style::all_within`]:
    /// those of the style, and that of each key. Check this before you use a style from a stranger.
    ///
    /// # Errors
    /// [`Memory`]: out of memory.
    #[tactic(auto, using(crate::proofs::KeysWithin::style_above, crate::proofs::KeysWithin::citation_above, crate::proofs::KeysWithin::bibliography_above))]
    pub fn all_within(
        &self,
        alloc: Global,
        rendered: u64,
        size: u64,
        depth: usize,
    ) -> Result<bool, Memory>
        ensures within { IfOk result (λ within. IsTrue within
            → spec.IsWithin self.now rendered size depth) }
        ensures above { IfOk result (λ within. IsFalse within
            → ¬ spec.IsWithin self.now rendered size depth) }
    {
        if !self.style.all_within(alloc, rendered, size, depth)? {
            return Ok(false);
        }
        let (citation, bibliography) = (&self.citation_keys, &self.bibliography_keys);
        if !are_keys_within(&self.style, citation, rendered, size, depth) {
            return Ok(false);
        }
        Ok(are_keys_within(&self.style, bibliography, rendered, size, depth))
    }
}
