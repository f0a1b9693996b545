//! What CSL styles are made of (CSL 1.0.2): nodes, their options and formatting, terms, variables
//! and locales. `csl_style` makes styles of them.
//!
//! An error that the docs of a call do not explain means out of memory.
#![tactic(auto)]

/// The variants of an enum as a list.
macro_rules! each {
    ($type:ident: $($variant:ident $(($inside:expr))?),+ $(,)?) => {
        [$($type::$variant $(($inside))?),+]
    };
}

/// The name of a variant of an enum.
macro_rules! names {
    ($value:ident of $type:ident: $($variant:ident $name:literal),+ $(,)?) => {
        match $value {
            $($type::$variant => $name,)+
        }
    };
}

pub mod affixes;
pub mod date;
pub mod element;
pub mod formatting;
pub mod locale;
pub mod lookup;
mod named;
pub mod names;
mod names_parts;
pub mod number;
mod of_citation;
pub mod taxonomy;
pub mod term;
pub mod text;
mod variable_set;

pub use affixes::Affixes;
pub use csl_common::{GrammarGender, LongShortForm, NumberForm, Season};
pub use date::{Date, DateAnyForm, DateForm, DatePart, DatePartName, DateParts};
pub use element::{
    Choose, ChooseBranch, ChooseMatch, CslMacro, Group, Layout, LayoutRenderingElement, Names,
    NamesChild, RenderingElement, Substitute, TestPosition,
};
pub use formatting::{
    Display, FontStyle, FontVariant, FontWeight, Formatting, TextDecoration, VerticalAlign,
};
pub use locale::{
    Locale, LocaleOrdinals, OrdinalMatch, OrdinalSlot, OrdinalTable, OrdinalTerm, TermEntry,
};
pub use named::Named;
pub use names::{
    DelimiterBehavior, EtAl, InheritableNameOptions, InheritedNameOptions, Name, NameAnd,
    NameAsSortOrder, NameForm, NameOptions, NamePart, NamePartName,
};
pub use names_parts::{NamesParts, PlacedLabel};
pub use number::{Label, LabelPluralize, Number, VariablelessLabel};
pub use taxonomy::{
    DateVariable, Kind, Locator, NameVariable, NumberOrPageVariable, NumberVariable, PageVariable,
    StandardVariable, Variable,
};
pub use term::{OtherTerm, Term, TermForm};
pub use text::{Text, TextTarget};
pub use variable_set::VariableSet;
