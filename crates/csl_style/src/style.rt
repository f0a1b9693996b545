//! A style: its settings, macros, layouts and locales (CSL 1.0.2, Style Structure; Macro). No macro
//! of a style leads back to itself, directly or through other macros.

ghost use Rattle.std.specs.Prelude.{◌≡◌, ◌<◌, ℕ, List, length, Some, IfSome, false, IfOk, OnOk, IfErr, map, find, option_map, option_copied};
ghost use Rattle.csl_elements.specs.Node.{expand_nodes};
ghost use Rattle.csl_elements.specs.View.{definitions, is_named, view_nodes};
ghost use Rattle.csl_style.specs.Expansion.{macro_body, macro_expansion, macro_index, IsAcyclic};
ghost use Rattle.csl_style.specs.CallGraph.{ArePlacesByName, children_at};
ghost use Rattle.csl_style.specs.Expanded.{macro_env, expanded_nodes};
ghost use Rattle.csl_style.specs.AllWithin.{NameMeans};
ghost use Rattle.csl_style.specs.Style.{HasNoCycle, style_of, layout_of, is_chicago, IsRefusal};
ghost use Rattle.csl_elements.specs.Locale.{terms_of, ordinals_of};
ghost use Rattle.csl_elements.specs.Term.{term_text, term_gender};
ghost use Rattle.csl_elements.specs.Ordinals.{ordinals, long_ordinals};
ghost use Rattle.csl_elements.specs.Lookup.{date_in_form};
ghost use Rattle.csl_style.specs.Missing.{missing_macro, missing_in_macros};
ghost use Rattle.csl_style.specs.YearSuffix.{is_year_suffix_implicit, reached_layout};

use crate::call_graph::{PlacedMacros, call_graph};
use crate::components::{Components, components_of};
use crate::cycles::first_cyclic;
use crate::missing::first_missing;
use crate::places::{Places, places_by_name};
use crate::reached::AcyclicMacros;
use crate::term_places::TermPlaces;
use crate::year_suffix::{ImplicitSuffix, implicit_suffix};
use csl_common::GrammarGender;
use csl_elements::{
    CslMacro, Date, DateForm, Layout, Locale, LocaleOrdinals, OrdinalTable, Term, TermForm, lookup,
};
use std::alloc::Global;
use std::marker::Model;

mod error;
mod settings;

pub use error::StyleError;
pub use settings::{DemoteNonDroppingParticle, PageRangeFormat, Scope, StyleSettings};

/// A style.
#[derive(Drop)]
pub struct Style {
    settings: StyleSettings,
    macros: Vec<CslMacro>,
    citation: Layout,
    bibliography: Option<Layout>,
    locales: Vec<Locale>,
    /// The index in `macros` of the first macro of each name.
    places: Places,
    /// The indices of the macros, each after the macros that it calls. No contract says so.
    callees_first: Vec<usize>,
    /// The places of the terms in `locales`.
    term_places: TermPlaces,
    /// The ordinals that lookups in `locales` find, by their slots.
    ordinal_table: OrdinalTable,
    /// Whether each layout reaches no text of the year suffix.
    implicit: ImplicitSuffix,
    /// The first macro name that the style calls but does not define.
    missing: Option<String>,
}

impl Model for Style {
    ghost use Rattle.std.specs.Prelude.{◌≡◌, false, Some, option_map, string_bytes};
    ghost use Rattle.std.specs.Coded.{codes};
    ghost use Rattle.csl_elements.specs.contracts.element.CslMacro as of_macro;
    ghost use Rattle.csl_elements.specs.contracts.element.Layout as of_layout;
    ghost use Rattle.csl_style.specs.Style.{StyleParts};

    ghost Value = { StyleParts };

    ghost coded = { Prim.hlevel (codes, of_macro.the_row.coded, of_layout.the_row.coded) };

    ghost use Rattle.csl_elements.specs.View.{definitions};
    ghost use Rattle.csl_style.specs.Expansion.{IsAcyclic};
    ghost use Rattle.csl_style.specs.Style.{is_chicago};
    ghost use Rattle.csl_style.specs.CallGraph.{ArePlacesByName};
    ghost use Rattle.csl_style.specs.TermPlaces.{ArePlacesOfTerms};
    ghost use Rattle.csl_elements.specs.OrdinalTable.{IsTableOf};
    ghost use Rattle.csl_style.specs.YearSuffix.{is_implicit_in};
    ghost use Rattle.csl_style.specs.Missing.{missing_among};

    ghost view = { λ s. record {
      settings = s.settings;
      macros = s.macros.items;
      citation = s.citation;
      bibliography = s.bibliography;
      locales = s.locales.items;
    } };

    ghost invariant = { λ s. IsAcyclic (definitions s.macros.items)
        × (is_chicago s.settings.page_range_format ≡ false)
        × ArePlacesByName s.places (definitions s.macros.items)
        × ArePlacesOfTerms s.term_places s.locales.items
        × IsTableOf s.ordinal_table s.locales.items
        × (s.implicit.in_citation ≡ is_implicit_in (definitions s.macros.items) (Some s.citation))
        × (s.implicit.in_bibliography ≡ is_implicit_in (definitions s.macros.items)
        s.bibliography)
        × (option_map string_bytes s.missing ≡ missing_among (definitions s.macros.items)
        s.citation s.bibliography) };
}

/// Whether the page format is one of the two Chicago formats, which are not supported.
fn is_chicago(format: Option<PageRangeFormat>) -> bool
    ensures { result ≡ is_chicago format }
{
    matches!(
        format,
        Some(PageRangeFormat::Chicago15 | PageRangeFormat::Chicago16)
    )
}

/// What the checks of a style find of its macros.
#[derive(Drop)]
struct CheckedMacros<'s> {
    /// The index of the first macro of each name.
    places: Places,
    /// The indices of the macros, each after the macros that it calls.
    callees_first: Vec<usize>,
    /// The first name that macros call and the style does not have.
    missing: Option<&'s str>,
}

/// Checks the macros and the page format of a style.
fn checked_macros<'s>(
    alloc: Global,
    format: Option<PageRangeFormat>,
    macros: &'s [CslMacro],
) -> Result<CheckedMacros<'s>, StyleError>
    ensures places { IfOk result (λ checked.
        ArePlacesByName checked.places (definitions macros.now)) }
    ensures missing { IfOk result (λ checked. option_map (λ name. name.now) checked.missing
        ≡ missing_in_macros (definitions macros.now) 0 (definitions macros.now)) }
    ensures ranks { OnOk result (IsAcyclic (definitions macros.now)) }
    ensures format { OnOk result (is_chicago format ≡ false) }
    ensures refused { IfErr result (IsRefusal format (definitions macros.now)) }
{
    let places = places_by_name(alloc, macros)?;
    let graph = call_graph(alloc, &PlacedMacros::new(macros, &places))?;
    let components = components_of(alloc, &graph.rows)?;
    if let Some(i) = first_cyclic(alloc, &graph.rows, &components.levels)? {
        return Err(StyleError::CyclicMacro(macros[i].name.clone()?));
    }
    if is_chicago(format) {
        return Err(StyleError::ChicagoPageFormat);
    }
    let Components {
        levels: _,
        callees_first,
    } = components;
    Ok(CheckedMacros {
        places,
        callees_first,
        missing: graph.missing,
    })
}

/// Returns the first macro of a name, found by its index.
fn first_macro<'s>(macros: &'s [CslMacro], places: &Places, name: &str) -> Option<&'s CslMacro>
    requires { ArePlacesByName places.now (definitions macros.now) }
    ensures found { option_copied result ≡ find (is_named name.now) macros.now }
    ensures holds { option_map (λ m. view_nodes m.now.children.items) result
        ≡ macro_body name.now (definitions macros.now) }
{
    let i = places.get(name)?;
    Some(&macros[i])
}

impl Style {
    /// Returns a style of these parts. If several macros have one name, calls use the first. On an
    /// error, the parts are dropped. The number of steps is in proportion to the nodes of the
    /// style, and their depth takes no stack.
    ///
    /// # Errors
    /// [`StyleError::Memory`]: out of memory. It may come instead of either of the others.
    /// [`StyleError::CyclicMacro`]: a macro leads back to itself. The error names the first such
    /// macro.
    /// [`StyleError::ChicagoPageFormat`]: the page format is a Chicago one, and no macro leads back
    /// to itself.
    pub fn new(
        alloc: Global,
        settings: StyleSettings,
        macros: Vec<CslMacro>,
        citation: Layout,
        bibliography: Option<Layout>,
        locales: Vec<Locale>,
    ) -> Result<Style, StyleError>
        ensures value { IfOk result (λ style. style
            ≡ style_of settings macros.items citation bibliography locales.items) }
        ensures ranks { OnOk result (IsAcyclic (definitions macros.items)) }
        ensures returns { OnOk result (HasNoCycle (definitions macros.items)) }
        ensures format { OnOk result (is_chicago settings.page_range_format ≡ false) }
        ensures refused { IfErr result (IsRefusal settings.page_range_format
            (definitions macros.items)) }
    {
        let checked = checked_macros(alloc, settings.page_range_format, &macros)?;
        let CheckedMacros {
            places,
            callees_first,
            missing,
        } = checked;
        let acyclic = AcyclicMacros::new(&macros, &places);
        let implicit = implicit_suffix(alloc, &acyclic, &citation, &bibliography)?;
        let placed = PlacedMacros::new(&macros, &places);
        let missing = first_missing(alloc, &placed, &citation, &bibliography, missing)?;
        let term_places = TermPlaces::new(alloc, &locales)?;
        let ordinal_table = OrdinalTable::new(alloc, &locales)?;
        Ok(Style {
            settings,
            macros,
            citation,
            bibliography,
            locales,
            places,
            callees_first,
            term_places,
            ordinal_table,
            implicit,
            missing,
        })
    }

    /// The settings for all nodes of the style. The page format is none of the Chicago ones.
    pub fn settings(&self) -> &StyleSettings
        ensures value { result.now ≡ self.now.settings }
        ensures format { is_chicago result.now.page_range_format ≡ false }
    {
        &self.settings
    }

    /// All macros, also those that an earlier one of the same name hides.
    pub fn macros(&self) -> &[CslMacro]
        ensures { result.now ≡ self.now.macros }
    {
        &self.macros
    }

    /// The layout of a cite.
    pub fn citation(&self) -> &Layout
        ensures { result.now ≡ self.now.citation }
    {
        &self.citation
    }

    /// The layout of an entry in the bibliography, if the style has one.
    pub fn bibliography(&self) -> Option<&Layout>
        ensures { option_copied result ≡ self.now.bibliography }
    {
        self.bibliography.as_ref()
    }

    /// The layout of a scope. A style may have none for the bibliography.
    pub fn layout(&self, scope: Scope) -> Option<&Layout>
        ensures { option_copied result ≡ layout_of self.now scope }
    {
        match scope {
            Scope::Citation => Some(&self.citation),
            Scope::Bibliography => self.bibliography.as_ref(),
        }
    }

    /// Whether the year suffix comes after the first year that is printed. It does if the scope has
    /// no layout, or if the layout reaches no text of that variable through macros, substitutes and
    /// all branches. [`Style::new`] finds it out once.
    pub fn renders_year_suffix_implicitly(&self, scope: Scope) -> bool
        ensures { result ≡ is_year_suffix_implicit (reached_layout scope self.now) }
    {
        match scope {
            Scope::Citation => self.implicit.in_citation,
            Scope::Bibliography => self.implicit.in_bibliography,
        }
    }

    /// The first macro name that the style calls but does not define: in the layout of citations,
    /// in that of the bibliography, and then in all macros in order, also those that no layout
    /// reaches, but without those that an earlier one of the same name hides (CSL 1.0.2, Macro). A
    /// call of a missing macro prints nothing, so check a style that you wrote. [`Style::new`]
    /// finds it out once.
    pub fn missing_macro(&self) -> Option<&str>
        ensures { option_map (λ name. name.now) result ≡ missing_macro self.now }
    {
        self.missing.as_deref()
    }

    /// The locales, in the order in which lookups search them.
    pub fn locales(&self) -> &[Locale]
        ensures { result.now ≡ self.now.locales }
    {
        &self.locales
    }

    /// The index in [`Style::macros`] of the first macro of a name (CSL 1.0.2, Macro).
    pub fn macro_index(&self, name: &str) -> Option<usize>
        ensures index { result ≡ macro_index name.now (definitions self.now.macros) }
        ensures within { IfSome result (λ i. i < length self.now.macros) }
        ensures meaning { IfSome result (λ i. macro_env self.now name.now
            ≡ Some (expanded_nodes self.now
            (children_at (definitions self.now.macros) i))) }
    {
        self.places.get(name)
    }

    /// The macros, for a walk through all that a layout reaches.
    pub(crate) fn acyclic_macros(&self) -> AcyclicMacros<'_>
        ensures { result ≡ self.now.macros }
    {
        AcyclicMacros::new(&self.macros, &self.places)
    }

    /// The places of the macros, in an order in which each comes after those that it calls, though
    /// no contract says so. A name stands for the nodes of its first macro.
    pub(crate) fn callees_first(&self) -> &[usize]
        ensures { (name : List ℕ) → NameMeans self.now name }
    {
        &self.callees_first
    }

    /// The first macro of a name (CSL 1.0.2, Macro).
    pub fn get_macro(&self, name: &str) -> Option<&CslMacro>
        ensures found { option_copied result ≡ find (is_named name.now) self.now.macros }
        ensures first { option_map (λ m. view_nodes m.now.children.items) result
            ≡ macro_body name.now (definitions self.now.macros) }
        ensures meaning { option_map (λ m. expand_nodes
            (macro_expansion (definitions self.now.macros))
            (view_nodes m.now.children.items)) result ≡ macro_expansion
            (definitions self.now.macros) name.now }
    {
        first_macro(&self.macros, &self.places, name)
    }

    /// The text of a term in this form, else in the first fallback form in which a locale has it
    /// (CSL 1.0.2, Terms).
    pub fn term(&self, term: Term, form: TermForm, plural: bool) -> Option<&str>
        ensures { option_map (λ text. text.now) result
            ≡ term_text (map terms_of self.now.locales) term form plural }
    {
        let entry = self.term_places.found_term(&self.locales, term, form)?;
        Some(entry.text(plural))
    }

    /// The grammatical gender of a term (CSL 1.0.2, Gender-specific Ordinals).
    pub fn gender(&self, term: Term) -> Option<GrammarGender>
        ensures { result ≡ term_gender (map terms_of self.now.locales) term }
    {
        self.term_places.gender(term)
    }

    /// The ordinal suffix of a number (CSL 1.0.2, Ordinals).
    pub fn ordinal(&self, number: i32, gender: Option<GrammarGender>) -> Option<&str>
        ensures { option_map (λ text. text.now) result
            ≡ ordinals (map ordinals_of self.now.locales) number gender }
    {
        self.ordinals().suffix(number, gender)
    }

    /// The ordinals of the style, for lookups that go through those of three slots at most.
    pub fn ordinals(&self) -> LocaleOrdinals<'_>
        ensures suffixes { ordinals (map ordinals_of result.locales.now)
            ≡ ordinals (map ordinals_of self.now.locales) }
        ensures words { long_ordinals (map ordinals_of result.locales.now)
            ≡ long_ordinals (map ordinals_of self.now.locales) }
    {
        LocaleOrdinals {
            locales: &self.locales,
            table: &self.ordinal_table,
        }
    }

    /// The first localized date of a form (CSL 1.0.2, Localized Date Formats).
    pub fn localized_date(&self, form: DateForm) -> Option<&Date>
        ensures { option_copied result ≡ date_in_form self.now.locales form }
    {
        lookup::localized_date(&self.locales, form)
    }
}
