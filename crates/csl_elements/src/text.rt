//! Text nodes (CSL 1.0.2, Text).
//! Definitions: specs/Constructors.antt, specs/View.antt.

ghost use Rattle.std.specs.Prelude.{◌≡◌, IfOk};
ghost use Rattle.csl_elements.specs.Constructors.{text_of_target, text_of_term, text_of_variable};
ghost use Rattle.csl_elements.specs.Node.{of_value};
ghost use Rattle.csl_elements.specs.Node as node;
ghost use Rattle.csl_elements.specs.View.{text_dressing, view_text};

use crate::affixes::Affixes;
use crate::formatting::{Display, Formatting};
use crate::taxonomy::Variable;
use crate::term::{Term, TermForm};
use csl_common::{LongShortForm, Memory};
use std::alloc::Global;

/// The source of a text's content.
#[derive(Drop)]
pub enum TextTarget {
    /// A variable of the entry.
    Variable {
        var: Variable,
        form: LongShortForm,
    },
    /// The macro of this name.
    Macro {
        name: String,
    },
    /// A term of the locale.
    Term {
        term: Term,
        form: TermForm,
        plural: bool,
    },
    /// The text itself.
    Value {
        val: String,
    },
}

/// A `cs:text`.
#[derive(Drop)]
pub struct Text {
    pub target: TextTarget,
    pub formatting: Formatting,
    pub affixes: Affixes,
    pub display: Option<Display>,
    /// Whether the content is in quotes (CSL 1.0.2, Quotes).
    pub quotes: bool,
    /// Whether the content loses its periods (CSL 1.0.2, Strip-periods).
    pub strip_periods: bool,
}

impl Text {
    /// A text that sets only its target.
    pub fn new(target: TextTarget) -> Text
        ensures { result ≡ text_of_target target }
    {
        Text {
            target,
            formatting: Formatting::default(),
            affixes: Affixes::default(),
            display: None,
            quotes: false,
            strip_periods: false,
        }
    }

    /// The text of a variable, in its long form.
    pub fn variable(variable: Variable) -> Text
        ensures { result ≡ text_of_variable variable }
    {
        Text::new(TextTarget::Variable {
            var: variable,
            form: LongShortForm::Long,
        })
    }

    /// The text of a term, in its long form and the singular.
    pub fn term(term: Term) -> Text
        ensures { result ≡ text_of_term term }
    {
        Text::new(TextTarget::Term {
            term,
            form: TermForm::Long,
            plural: false,
        })
    }

    /// A text that prints these words.
    pub fn value(alloc: Global, value: &str) -> Result<Text, Memory>
        ensures view { IfOk result (λ text. view_text text
            ≡ node.text (of_value value.now) (text_dressing text)) }
        ensures rest { IfOk result (λ text. text ≡ text_of_target text.target) }
    {
        Ok(Text::new(TextTarget::Value {
            val: String::from_str(alloc, value)?,
        }))
    }

    /// A text that prints the macro of this name. If the style has none, it prints nothing
    /// (`Style::missing_macro` of `csl_style`).
    pub fn macro_call(alloc: Global, name: &str) -> Result<Text, Memory>
        ensures view { IfOk result (λ text. view_text text
            ≡ node.call name.now (text_dressing text)) }
        ensures rest { IfOk result (λ text. text ≡ text_of_target text.target) }
    {
        Ok(Text::new(TextTarget::Macro {
            name: String::from_str(alloc, name)?,
        }))
    }
}
