//! Texts, numbers and labels (CSL 1.0.2, Text, Number, Label).
//! Definitions: specs/Leaves.antt, specs/Parts.antt.

ghost use Rattle.std.specs.Prelude.{◌≡◌, ◌&&◌, not, Some, IfOk};
ghost use Rattle.serde_json.specs.View.{view};
ghost use Rattle.csl_elements.specs.Names.{view_label};
ghost use Rattle.csl_elements.specs.View.{view_number};
ghost use Rattle.csl_wire.specs.Parts.{read_label};
ghost use Rattle.csl_wire.specs.Leaves.{IsLabel, IsNumber, IsTarget, IsText};
ghost use Rattle.csl_wire.specs.Leaves as spec;

use crate::choices::{LONG_SHORT_FORMS, NUMBER_FORMS, PLURALS, TERM_FORMS};
use crate::dress::{CASED_AFFIXES, FORMATTING, cased_affixes, display, formatting};
use crate::form::Form;
use crate::limits::Reader;
use crate::refusal::{Code, WireError};
use csl_elements::{
    Label, LabelPluralize, LongShortForm, Number, NumberForm, StandardVariable, TermForm, Text,
    TextTarget, Variable, VariablelessLabel,
};
use serde_json::Value;

/// The source of a text.
#[derive(Clone, Copy)]
enum Source {
    Variable,
    Term,
    Macro,
    Value,
}

/// The members of a text of a variable, but those that all texts have.
static OF_VARIABLE: [&str; 2] = ["variable", "form"];

/// The members of a text of a term, but those that all texts have.
static OF_TERM: [&str; 3] = ["term", "form", "plural"];

/// The members of a text of a macro, but those that all texts have.
static OF_MACRO: [&str; 1] = ["macro"];

/// The members of a text of words, but those that all texts have.
static OF_VALUE: [&str; 1] = ["value"];

impl Source {
    /// The members that a text of this source has.
    fn members(self) -> &'static [&'static str] {
        match self {
            Source::Variable => &OF_VARIABLE,
            Source::Term => &OF_TERM,
            Source::Macro => &OF_MACRO,
            Source::Value => &OF_VALUE,
        }
    }
}

/// The source of a text: the first that is there.
fn source_of(form: Form<'_>) -> Result<Source, WireError> {
    if form.member("variable").is_some() {
        return Ok(Source::Variable);
    }
    if form.member("term").is_some() {
        return Ok(Source::Term);
    }
    if form.member("macro").is_some() {
        return Ok(Source::Macro);
    }
    if form.member("value").is_some() {
        return Ok(Source::Value);
    }
    Err(WireError::of(
        form.reader.alloc,
        Code::MissingMember,
        "a text has a variable, a term, a macro or a value",
    ))
}

/// What a text prints.
fn text_target(form: Form<'_>, source: Source) -> Result<TextTarget, WireError>
    ensures { IfOk result (IsTarget (view form.entry.value.now)) }
{
    match source {
        Source::Variable => Ok(TextTarget::Variable {
            var: form.one_named("variable")?,
            form: form
                .choice("form", &LONG_SHORT_FORMS)?
                .unwrap_or(LongShortForm::Long),
        }),
        Source::Term => Ok(TextTarget::Term {
            term: form.one_named("term")?,
            form: form.choice("form", &TERM_FORMS)?.unwrap_or(TermForm::Long),
            plural: form.is_true("plural")?,
        }),
        Source::Macro => Ok(TextTarget::Macro {
            name: form.one_text("macro")?,
        }),
        Source::Value => Ok(TextTarget::Value {
            val: form.one_text("value")?,
        }),
    }
}

/// Whether a text prints a link (CSL 1.0.2, Appendix VI: Links). Its prefix may begin the address.
fn is_link(target: &TextTarget) -> bool
    ensures { result ≡ spec.is_link target.now }
{
    match target {
        TextTarget::Variable {
            var: Variable::Standard(variable),
            ..
        } => {
            *variable == StandardVariable::DOI
                || *variable == StandardVariable::PMCID
                || *variable == StandardVariable::PMID
                || *variable == StandardVariable::URL
        }
        _ => false,
    }
}

/// Whether a case is read as marks around a text: not if it prints a link.
fn has_marks(reader: Reader, target: &TextTarget) -> bool
    ensures { result ≡ reader.marks && not (spec.is_link target.now) }
{
    reader.marks && !is_link(target)
}

/// The members that all texts have, but formatting and affixes.
static TEXT: [&str; 3] = ["quotes", "strip-periods", "display"];

/// A text.
#[tactic(auto, using(crate::proofs::NodesRead::text_read))]
pub(crate) fn text(reader: Reader, value: &Value) -> Result<Text, WireError>
    ensures { IfOk result (IsText reader.marks (view value.now)) }
{
    let source = source_of(Form::of_any(reader, value)?)?;
    let known: [&[&str]; 4] = [source.members(), &TEXT, &FORMATTING, &CASED_AFFIXES];
    let form = Form::of(reader, value, &known)?;
    let formatting = formatting(form)?;
    let display = display(form)?;
    let quotes = form.is_true("quotes")?;
    let strip_periods = form.is_true("strip-periods")?;
    let target = text_target(form, source)?;
    let affixes = cased_affixes(form, has_marks(reader, &target))?;
    Ok(Text {
        target,
        formatting,
        affixes,
        display,
        quotes,
        strip_periods,
    })
}

/// The members of a number, but its formatting and affixes.
static NUMBER: [&str; 3] = ["variable", "form", "display"];

/// A number.
pub(crate) fn number(reader: Reader, value: &Value) -> Result<Number, WireError>
    ensures { IfOk result (λ n. IsNumber reader.marks (view value.now) (view_number n)) }
{
    let form = Form::of(reader, value, &[&NUMBER, &FORMATTING, &CASED_AFFIXES])?;
    Ok(Number {
        variable: form.one_named("variable")?,
        form: form
            .choice("form", &NUMBER_FORMS)?
            .unwrap_or(NumberForm::Numeric),
        formatting: formatting(form)?,
        display: display(form)?,
        affixes: cased_affixes(form, reader.marks)?,
    })
}

/// The members of a label, but its variable, formatting and affixes.
static LABEL: [&str; 3] = ["form", "plural", "strip-periods"];

/// The label of these members, without its variable.
fn label_of(form: Form<'_>) -> Result<VariablelessLabel, WireError>
    ensures { IfOk result (λ l. read_label form.entry.reader.marks (view form.entry.value.now)
        ≡ Some (view_label l)) }
{
    Ok(VariablelessLabel {
        form: form.choice("form", &TERM_FORMS)?.unwrap_or(TermForm::Long),
        plural: form
            .choice("plural", &PLURALS)?
            .unwrap_or(LabelPluralize::Contextual),
        formatting: formatting(form)?,
        strip_periods: form.is_true("strip-periods")?,
        affixes: cased_affixes(form, form.reader.marks)?,
    })
}

/// A label of names.
pub(crate) fn variableless_label(
    reader: Reader,
    value: &Value,
) -> Result<VariablelessLabel, WireError>
    ensures { IfOk result (λ l. read_label reader.marks (view value.now) ≡ Some (view_label l)) }
{
    label_of(Form::of(reader, value, &[&LABEL, &FORMATTING, &CASED_AFFIXES])?)
}

/// The member for the variable of a label.
static VARIABLE: [&str; 1] = ["variable"];

/// A label.
pub(crate) fn label(reader: Reader, value: &Value) -> Result<Label, WireError>
    ensures { IfOk result (λ l. IsLabel reader.marks (view value.now) l.variable
        (view_label l.label)) }
{
    let form = Form::of(
        reader,
        value,
        &[&VARIABLE, &LABEL, &FORMATTING, &CASED_AFFIXES],
    )?;
    Ok(Label {
        variable: form.one_named("variable")?,
        label: label_of(form)?,
    })
}
