//! The cites, the lines of a bibliography and the sort keys of a request.
//! Definitions: specs/Rendered.antt.

ghost use Rattle.std.specs.Prelude.{◌≡◌, None, Some, IfOk, option_map};
ghost use Rattle.serde_json.specs.View.{view};
ghost use Rattle.csl.specs.Entry.Cite.{cite_state};
ghost use Rattle.csl.specs.Render.Cites.{new_cite, sort_key_text, whole_cite};
ghost use Rattle.csl.specs.Style.declared.style.settings.Scope.TheVariants as scopes;
ghost use Rattle.csl.specs.Tree.Tokens.{tokens};
ghost use Rattle.csl_session.specs.Rendered.{IsContentOf, IsKeyOf, IsLineOf};

use crate::cases::{cased, cased_text};
use crate::limits::SessionLimits;
use csl::style::Scope;
use csl::{CiteProperties, EntryLike, Error, Rendered, Renderer, Sorting, SpecialForm};
use csl_elements::{
    Date, Layout, LayoutRenderingElement, Names, Number, NumberOrPageVariable, Text, Variable,
};
use csl_wire::{Code, Form, Reader, Step, WireError, within};
use csl_wire_cite::{WireCite, cite_of};
use csl_wire_reply::{Formats, content_value};
use serde_json::{Map, Value};
use std::alloc::Global;

/// Why nothing was rendered.
fn of_rendering(alloc: Global, error: Error) -> WireError {
    match error {
        Error::Limit => WireError::of(
            alloc,
            Code::TooLarge,
            "the request renders more than is allowed",
        ),
        // No other error comes of rendering.
        _ => WireError::Memory,
    }
}

/// What is rendered of each item of a batch.
#[derive(Clone, Copy)]
pub(crate) enum Part {
    /// A cite, in these formats.
    Cite(Formats),
    /// A line of the bibliography, in these formats.
    Line(Formats),
    /// A key to sort by, in this scope.
    Key(Scope),
}

/// The members of an item that is rendered as a content.
static CONTENT: [&str; 2] = ["work", "cite"];

/// The members of an item that is rendered to be sorted.
static KEY: [&str; 4] = ["work", "cite", "macro", "variable"];

impl Part {
    /// The members of an item.
    pub(crate) fn members(self) -> &'static [&'static str] {
        match self {
            Part::Cite(_) | Part::Line(_) => &CONTENT,
            Part::Key(_) => &KEY,
        }
    }
}

/// The cite of an item. Without the member it is the first of its work.
fn cite_of_item<'v>(
    limits: SessionLimits,
    item: Form<'v>,
    empty: &'v Value,
) -> Result<WireCite<'v>, WireError> {
    match item.member("cite") {
        Some(cite) => {
            let read = cite_of(item.reader.alloc, cite, limits.work);
            within(Step::Member("cite"), read)
        }
        None => cite_of(item.reader.alloc, empty, limits.work),
    }
}

/// What was rendered, its texts in their cases, in these formats.
#[tactic(auto, using(crate::proofs::Rendered::content_made))]
fn rendered_value(
    alloc: Global,
    rendered: Rendered,
    is_english: bool,
    formats: Formats,
) -> Result<Value, WireError>
    ensures { IfOk result (λ v. IsContentOf formats (tokens rendered.content) (view v)) }
{
    let content = cased(alloc, rendered.content, is_english)?;
    let value = content_value(alloc, content, formats)?;
    Ok(value)
}

/// A whole cite.
#[tactic(auto, using(crate::proofs::Rendered::content_same))]
fn whole_value<T: EntryLike>(
    alloc: Global,
    renderer: &mut Renderer<'_>,
    work: &T,
    cite: &CiteProperties<'_>,
    is_english: bool,
    formats: Formats,
) -> Result<Value, WireError>
    ensures { IfOk result (λ v. IsContentOf formats (whole_cite renderer.old.style scopes.Citation
        (cite_state cite.now) (T.answers work.now) renderer.old.style.citation).content (view v)) }
{
    match renderer.cite(alloc, work, cite) {
        Ok(rendered) => {
            let value = rendered_value(alloc, rendered, is_english, formats)?;
            Ok(value)
        }
        Err(error) => Err(of_rendering(alloc, error)),
    }
}

/// A cite in a special form.
#[tactic(auto, using(crate::proofs::Rendered::content_same))]
fn part_value<T: EntryLike>(
    alloc: Global,
    renderer: &mut Renderer<'_>,
    work: &T,
    cite: &CiteProperties<'_>,
    form: SpecialForm,
    is_english: bool,
    formats: Formats,
) -> Result<Value, WireError>
    ensures { IfOk result (λ v. IsContentOf formats (new_cite renderer.old.style scopes.Citation
        (cite_state cite.now) None (Some form) (T.answers work.now)
        renderer.old.style.citation).content (view v)) }
{
    match renderer.cite_in(alloc, work, cite, form) {
        Ok(rendered) => {
            let value = rendered_value(alloc, rendered, is_english, formats)?;
            Ok(value)
        }
        Err(error) => Err(of_rendering(alloc, error)),
    }
}

/// A cite.
fn cite_value<T: EntryLike>(
    alloc: Global,
    renderer: &mut Renderer<'_>,
    work: &T,
    cite: &WireCite<'_>,
    is_english: bool,
    formats: Formats,
) -> Result<Value, WireError>
    ensures { IfOk result (λ v. IsContentOf formats (new_cite renderer.old.style scopes.Citation
        (cite_state cite.now.properties) None cite.now.form (T.answers work.now)
        renderer.old.style.citation).content (view v)) }
{
    let (cite, form) = (&cite.properties, cite.form);
    match form {
        Some(form) => {
            let value = part_value(alloc, renderer, work, cite, form, is_english, formats)?;
            Ok(value)
        }
        None => {
            let value = whole_value(alloc, renderer, work, cite, is_english, formats)?;
            Ok(value)
        }
    }
}

/// A line of the bibliography, or `null` if the style has none.
#[tactic(auto, using(crate::proofs::Rendered::line_same))]
fn line_value<T: EntryLike>(
    alloc: Global,
    renderer: &mut Renderer<'_>,
    work: &T,
    cite: &WireCite<'_>,
    is_english: bool,
    formats: Formats,
) -> Result<Value, WireError>
    ensures { IfOk result (λ v. IsLineOf formats (option_map (λ layout. (whole_cite
        renderer.old.style scopes.Bibliography (cite_state cite.now.properties)
        (T.answers work.now) layout).content) renderer.old.style.bibliography) (view v)) }
{
    match renderer.bibliography_entry(alloc, work, &cite.properties) {
        Ok(Some(rendered)) => {
            let value = rendered_value(alloc, rendered, is_english, formats)?;
            Ok(value)
        }
        Ok(None) => Ok(Value::Null),
        Err(error) => Err(of_rendering(alloc, error)),
    }
}

/// The node that renders a variable to be sorted.
fn variable_node(alloc: Global, variable: Variable) -> Result<LayoutRenderingElement, WireError> {
    Ok(match variable {
        Variable::Standard(_) => Text::variable(variable).into(),
        Variable::Number(number) => Number::new(NumberOrPageVariable::Number(number)).into(),
        Variable::Page(page) => Number::new(NumberOrPageVariable::Page(page)).into(),
        Variable::Date(date) => Date::new(date, Vec::new(alloc)).into(),
        Variable::Name(name) => Names::new(alloc, vec![in alloc; name]?).into(),
    })
}

/// A key to sort by.
#[derive(Drop)]
struct Key {
    layout: Layout,
    scope: Scope,
    sorting: Sorting,
}

/// The key of an item: by one of a macro and a variable.
fn key_of(form: Form<'_>, scope: Scope) -> Result<Key, WireError> {
    let alloc = form.reader.alloc;
    let variable = form.named::<Variable>("variable")?;
    let (node, sorting) = match (form.word("macro")?, variable) {
        (Some(name), None) => (Text::macro_call(alloc, name)?.into(), Sorting::Macro),
        (None, Some(variable)) => (variable_node(alloc, variable)?, Sorting::Variable),
        _ => {
            let reason = "a key has one of macro and variable";
            return Err(WireError::of(alloc, Code::WrongType, reason));
        }
    };
    Ok(Key {
        layout: Layout::new(vec![in alloc; node]?),
        scope,
        sorting,
    })
}

/// The text of a key, in its case.
#[tactic(auto, using(crate::proofs::Rendered::key_made))]
fn sorted_value<T: EntryLike>(
    alloc: Global,
    renderer: &mut Renderer<'_>,
    work: &T,
    cite: &CiteProperties<'_>,
    key: &Key,
    is_english: bool,
) -> Result<Value, WireError>
    ensures { IfOk result (λ v. IsKeyOf (sort_key_text renderer.old.style key.now.scope
        (cite_state cite.now) key.now.sorting (T.answers work.now) key.now.layout) (view v)) }
{
    let Key {
        layout,
        scope,
        sorting,
    } = key;
    match renderer.sort_key(alloc, work, cite, layout, *scope, *sorting) {
        Ok(text) => {
            let text = cased_text(alloc, text, is_english)?;
            Ok(Value::String(text))
        }
        Err(error) => Err(of_rendering(alloc, error)),
    }
}

/// The text of the key of an item.
fn key_value<T: EntryLike>(
    renderer: &mut Renderer<'_>,
    work: &T,
    cite: &WireCite<'_>,
    item: Form<'_>,
    scope: Scope,
    is_english: bool,
) -> Result<Value, WireError> {
    let alloc = item.reader.alloc;
    let key = key_of(item, scope)?;
    let value = sorted_value(alloc, renderer, work, &cite.properties, &key, is_english);
    drop(key);
    value
}

/// An item of a batch, for its work. `is_english` is whether the work is English if it does not say
/// so itself.
pub(crate) fn item_value<T: EntryLike>(
    limits: SessionLimits,
    renderer: &mut Renderer<'_>,
    work: &T,
    item: Form<'_>,
    part: Part,
    is_english: bool,
) -> Result<Value, WireError> {
    let alloc = item.reader.alloc;
    let empty = Value::Object(Map::new(alloc));
    let cite = cite_of_item(limits, item, &empty)?;
    let is_english = work.is_english().unwrap_or(is_english);
    match part {
        Part::Cite(formats) => cite_value(alloc, renderer, work, &cite, is_english, formats),
        Part::Line(formats) => line_value(alloc, renderer, work, &cite, is_english, formats),
        Part::Key(scope) => key_value(renderer, work, &cite, item, scope, is_english),
    }
}

/// The object that an item of a batch is.
pub(crate) fn item_of(
    limits: SessionLimits,
    alloc: Global,
    value: &Value,
    part: Part,
) -> Result<Form<'_>, WireError> {
    let reader = Reader {
        alloc,
        limits: limits.read,
        marks: false,
    };
    Form::of(reader, value, &[part.members()])
}
