//! Renders two entries by one layout, and compares their answers.

ghost use Rattle.std.specs.Prelude.{◌≡◌, true, Some, IfOk, IfErr, string_bytes};
ghost use Rattle.std.specs.Bool.{Decides};
ghost use Rattle.csl_style.specs.Named.{named_in_nodes, the_variable};
ghost use Rattle.csl_elements.specs.declared.taxonomy.Variable.{Variable};
ghost use Rattle.csl_elements.specs.NamedSet.{named_set, named_union};
ghost use Rattle.csl_elements.specs.Node.{expand_layout};
ghost use Rattle.csl_elements.specs.View.{view_layout};
ghost use Rattle.csl_style.specs.Expanded.{macro_env};
ghost use Rattle.csl_entry.specs.Alike.{SameNamedAnswers};
ghost use Rattle.csl_entry.specs.Cite.{cite_state};
ghost use Rattle.csl_entry.specs.declared.citation.cite.SpecialForm.TheVariants as special_forms;
ghost use Rattle.csl_context.specs.State.{left_state_view};
ghost use Rattle.csl_render.specs.Laws.{RenderingKeepsState, AlikeEntriesRenderAlike};
ghost use Rattle.csl_render.specs.Pair.{cite_input, layout_output_from, AgreeButForSuppressed, Prints, PrintsSame};
ghost use Rattle.csl_style.specs.Told.{told_beside};

use crate::cites::render_from;
use csl_context::{LeftState, RenderError, Rendered};
use csl_entry::{CiteProperties, EntryLike, InstanceContext, Sorting, SpecialForm, same_answers};
use csl_style::{Layout, Named, Scope, Style, named_by};
use csl_tree::BufWriteFormat;
use std::alloc::Global;

/// The renderings of two entries by one layout.
#[derive(Drop)]
pub struct Pair {
    /// The rendering of the first entry.
    pub left: Rendered,
    /// The rendering of the second entry.
    pub right: Rendered,
    /// The HTML of the first entry's rendering.
    pub left_html: String,
    /// The HTML of the second entry's rendering.
    pub right_html: String,
    /// Whether both entries answer alike on all that the layout and the macros it reaches name.
    pub alike: bool,
}

/// Renders a cite by the layout, from the state that another rendering left, and writes its HTML.
fn render_with_html<'s, T: EntryLike>(
    alloc: Global,
    style: &'s Style,
    layout: &'s Layout,
    instance: InstanceContext<'s, T>,
    scope: Scope,
    start: &LeftState,
) -> Result<(Rendered, String), RenderError>
    ensures ok { IfOk result (λ p. Prints (layout_output_from (left_state_view start.now)
        (cite_input style.now scope (cite_state instance.entry.cite_props.now)
        instance.entry.sorting
        instance.entry.kind (T.answers instance.entry.entry.now)) layout.now)
        p.0 (string_bytes p.1)) }
    ensures err { IfErr result (λ e. e ≡ RenderError.Memory) }
{
    let rendered = render_from(alloc, style, layout, instance, scope, start)?;
    let html = rendered.content.to_text(alloc, BufWriteFormat::Html)?;
    Ok((rendered, html))
}

/// Renders two cites by the layout, from one state, and writes their HTML. `alike` is handed on.
pub(crate) fn render_both<'s, T: EntryLike, U: EntryLike>(
    alloc: Global,
    style: &'s Style,
    layout: &'s Layout,
    scope: Scope,
    start: &LeftState,
    one: InstanceContext<'s, T>,
    other: InstanceContext<'s, U>,
    alike: bool,
) -> Result<Pair, RenderError>
    ensures left { IfOk result (λ p. Prints (layout_output_from (left_state_view start.now)
        (cite_input style.now scope (cite_state one.entry.cite_props.now) one.entry.sorting
        one.entry.kind (T.answers one.entry.entry.now)) layout.now)
        p.left (string_bytes p.left_html)) }
    ensures right { IfOk result (λ p. Prints (layout_output_from (left_state_view start.now)
        (cite_input style.now scope (cite_state other.entry.cite_props.now) other.entry.sorting
        other.entry.kind (U.answers other.entry.entry.now)) layout.now)
        p.right (string_bytes p.right_html)) }
    ensures alike { IfOk result (λ p. p.alike ≡ alike) }
    ensures err { IfErr result (λ e. e ≡ RenderError.Memory) }
{
    let (left, left_html) = render_with_html(alloc, style, layout, one, scope, start)?;
    let (right, right_html) = render_with_html(alloc, style, layout, other, scope, start)?;
    Ok(Pair {
        left,
        right,
        left_html,
        right_html,
        alike,
    })
}

/// Whether both entries answer alike on a set of variables and kinds.
pub(crate) fn are_alike_on<T: EntryLike, U: EntryLike>(
    alloc: Global,
    named: &Named,
    left: &T,
    right: &U,
) -> Result<bool, RenderError>
    ensures ok { IfOk result (λ alike. Decides alike
        (SameNamedAnswers (named_set named.now) (T.answers left.now) (U.answers right.now))) }
    ensures err { IfErr result (λ e. e ≡ RenderError.Memory) }
{
    match same_answers(alloc, left, right, named) {
        Ok(alike) => Ok(alike),
        Err(_) => Err(RenderError::Memory),
    }
}

/// Whether both entries answer alike on all that the layout and the macros it reaches name.
fn are_alike<T: EntryLike, U: EntryLike>(
    alloc: Global,
    style: &Style,
    layout: &Layout,
    left: &T,
    right: &U,
) -> Result<bool, RenderError>
    ensures ok { IfOk result (λ alike. Decides alike (SameNamedAnswers
        (named_in_nodes (expand_layout (macro_env style.now) (view_layout layout.now)).elements)
        (T.answers left.now) (U.answers right.now))) }
    ensures err { IfErr result (λ e. e ≡ RenderError.Memory) }
{
    let Ok(named) = named_by(alloc, style, layout) else {
        return Err(RenderError::Memory);
    };
    are_alike_on(alloc, &named, left, right)
}

/// Renders two entries, of any types, by the layout, in the same cite and from the same state. Also
/// returns whether the entries are *alike* for the layout: they answer alike on all variables and
/// kinds that the layout and the macros it reaches name. Renderings of alike entries are equal in
/// content, state and HTML. Every rendering keeps the suppressed variables, a first date and first
/// names of the state before it (CSL 1.0.2, Substitute; Disambiguation). Lookups after it suppress
/// their variable exactly if those before it did.
///
/// # Errors
/// [`RenderError::Memory`]: out of memory, here or in an entry.
#[tactic(auto, using(crate::proofs::Theorems::rendering_keeps_state, crate::proofs::Theorems::alike_entries_render_alike))]
pub fn render_pair<'s, T: EntryLike, U: EntryLike>(
    alloc: Global,
    style: &'s Style,
    layout: &'s Layout,
    scope: Scope,
    cite_props: &'s CiteProperties<'s>,
    sorting: Option<Sorting>,
    kind: Option<SpecialForm>,
    start: &LeftState,
    left: &'s T,
    right: &'s U,
) -> Result<Pair, RenderError>
    ensures left { IfOk result (λ p. Prints (layout_output_from (left_state_view start.now)
        (cite_input style.now scope (cite_state cite_props.now) sorting kind (T.answers left.now))
        layout.now) p.left (string_bytes p.left_html)) }
    ensures right { IfOk result (λ p. Prints (layout_output_from (left_state_view start.now)
        (cite_input style.now scope (cite_state cite_props.now) sorting kind (U.answers right.now))
        layout.now) p.right (string_bytes p.right_html)) }
    ensures alike { IfOk result (λ p. Decides p.alike (SameNamedAnswers
        (named_in_nodes (expand_layout (macro_env style.now) (view_layout layout.now)).elements)
        (T.answers left.now) (U.answers right.now))) }
    ensures same { IfOk result (λ p. p.alike ≡ true
        → PrintsSame p.left (string_bytes p.left_html) p.right (string_bytes p.right_html)) }
    // What the state before them suppresses, neither tells.
    ensures suppressed { IfOk result (λ p. AgreeButForSuppressed (left_state_view start.now)
        (named_in_nodes (expand_layout (macro_env style.now) (view_layout layout.now)).elements)
        (T.answers left.now) (U.answers right.now)
        → PrintsSame p.left (string_bytes p.left_html) p.right (string_bytes p.right_html)) }
    // A cite of one variable alone tells no other, but for what the layout tells beside it.
    ensures one_variable { IfOk result (λ p. (v : Variable) → kind ≡ Some (special_forms.VarOnly v)
        → SameNamedAnswers (named_union (the_variable v) (told_beside v style.now layout.now))
        (T.answers left.now) (U.answers right.now)
        → PrintsSame p.left (string_bytes p.left_html) p.right (string_bytes p.right_html)) }
    // Two laws over the definitions, for every input.
    ensures keeps { RenderingKeepsState }
    ensures alike_make_the_same { AlikeEntriesRenderAlike }
    ensures err { IfErr result (λ e. e ≡ RenderError.Memory) }
{
    let alike = are_alike(alloc, style, layout, left, right)?;
    let one = InstanceContext {
        entry: left,
        cite_props,
        sorting,
        kind,
    };
    let other = InstanceContext {
        entry: right,
        cite_props,
        sorting,
        kind,
    };
    let pair = render_both(alloc, style, layout, scope, start, one, other, alike)?;
    Ok(pair)
}
