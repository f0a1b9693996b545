//! CSL styles as data (CSL 1.0.2): their settings, macros, layouts and locales. What they are made
//! of is in `csl_elements`, and this crate hands it on.
//!
//! An error that the docs of a call do not explain means out of memory.
#![tactic(auto)]

mod all_nodes;
mod all_within;
mod call_graph;
mod components;
mod cycles;
mod depth;
mod missing;
mod missing_term;
mod named;
mod places;
mod reached;
mod scopes;
mod size;
pub mod style;
mod term_places;
mod tested;
mod told;
mod year_suffix;

pub use csl_elements::{
    Affixes, Choose, ChooseBranch, ChooseMatch, CslMacro, Date, DateAnyForm, DateForm, DatePart,
    DatePartName, DateParts, DateVariable, DelimiterBehavior, Display, EtAl, FontStyle,
    FontVariant, FontWeight, Formatting, GrammarGender, Group, InheritableNameOptions,
    InheritedNameOptions, Kind, Label, LabelPluralize, Layout, LayoutRenderingElement, Locale,
    LocaleOrdinals, Locator, LongShortForm, Name, NameAnd, NameAsSortOrder, NameForm, NameOptions,
    NamePart, NamePartName, NameVariable, Named, Names, NamesChild, NamesParts, Number, NumberForm,
    NumberOrPageVariable, NumberVariable, OrdinalMatch, OrdinalSlot, OrdinalTable, OrdinalTerm,
    OtherTerm, PageVariable, PlacedLabel, RenderingElement, Season, StandardVariable, Substitute,
    Term, TermEntry, TermForm, TestPosition, Text, TextDecoration, TextTarget, Variable,
    VariableSet, VariablelessLabel, VerticalAlign, affixes, date, element, formatting, locale,
    names, number, taxonomy, term, text,
};
pub use named::named_by;
pub use style::{
    DemoteNonDroppingParticle, PageRangeFormat, Scope, Style, StyleError, StyleSettings,
};
pub use tested::named_by_tests;
pub use told::named_beside;
