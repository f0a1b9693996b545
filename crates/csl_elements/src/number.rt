//! Numbers and the labels beside them (CSL 1.0.2, Number and Label).
//! Definitions: specs/Constructors.antt.

ghost use Rattle.std.specs.Prelude.{◌≡◌};
ghost use Rattle.csl_elements.specs.Constructors.{label_of, number_of, short_label_of};

use crate::affixes::Affixes;
use crate::formatting::{Display, Formatting};
use crate::taxonomy::NumberOrPageVariable;
use crate::term::TermForm;
use csl_common::NumberForm;

/// A `cs:number`.
#[derive(Drop)]
pub struct Number {
    pub variable: NumberOrPageVariable,
    pub form: NumberForm,
    pub formatting: Formatting,
    pub affixes: Affixes,
    pub display: Option<Display>,
}

/// When a label is in the plural (CSL 1.0.2, Label: plural).
#[derive(Clone, Copy, Debug, Default, PartialEq, Eq, PartialOrd, Ord, Hash)]
pub enum LabelPluralize {
    /// If the number or the pages beside the label are in the plural.
    #[default]
    Contextual,
    Always,
    Never,
}

/// How a label is written, without its variable.
#[derive(Drop)]
pub struct VariablelessLabel {
    pub form: TermForm,
    pub plural: LabelPluralize,
    pub formatting: Formatting,
    pub affixes: Affixes,
    /// Whether the term loses its periods (CSL 1.0.2, Strip-periods).
    pub strip_periods: bool,
}

/// A `cs:label`.
#[derive(Drop)]
pub struct Label {
    pub variable: NumberOrPageVariable,
    pub label: VariablelessLabel,
}

impl Number {
    /// A number that sets only its variable.
    pub fn new(variable: NumberOrPageVariable) -> Number
        ensures { result ≡ number_of variable }
    {
        Number {
            variable,
            form: NumberForm::Numeric,
            formatting: Formatting::default(),
            affixes: Affixes::default(),
            display: None,
        }
    }
}

impl Label {
    /// A label that sets only its variable. It prints the long form of the variable's term.
    pub fn new(variable: NumberOrPageVariable) -> Label
        ensures { result ≡ label_of variable }
    {
        Label {
            variable,
            label: VariablelessLabel::default(),
        }
    }

    /// A label that prints the short form of the variable's term, such as `vol.` or `pp.`.
    pub fn short(variable: NumberOrPageVariable) -> Label
        ensures { result ≡ short_label_of variable }
    {
        Label {
            variable,
            label: VariablelessLabel {
                form: TermForm::Short,
                ..VariablelessLabel::default()
            },
        }
    }
}
