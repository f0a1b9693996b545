//! Renders an entry, or two entries, by the layouts of a style.

ghost use Rattle.std.specs.Prelude.{◌≡◌, true, false, Some, IfOk, IfErr, IfSome, option_map, string_bytes};
ghost use Rattle.std.specs.Bool.{Decides};
ghost use Rattle.csl_style.specs.declared.style.settings.Scope.TheVariants as scopes;
ghost use Rattle.csl_style.specs.Named.{named_in_nodes, the_variable};
ghost use Rattle.csl_elements.specs.declared.taxonomy.Variable.{Variable};
ghost use Rattle.csl_elements.specs.NamedSet.{a_variable, named_set, named_union};
ghost use Rattle.csl_elements.specs.Node.{expand_layout};
ghost use Rattle.csl_elements.specs.View.{view_layout};
ghost use Rattle.csl_style.specs.Expanded.{macro_env};
ghost use Rattle.csl_entry.specs.Alike.{SameNamedAnswers};
ghost use Rattle.csl_entry.specs.Answers.{Answers};
ghost use Rattle.csl_entry.specs.Cite.{cite_state};
ghost use Rattle.csl_entry.specs.declared.citation.cite.SpecialForm.TheVariants as special_forms;
ghost use Rattle.csl_context.specs.State.{left_state_view};
ghost use Rattle.csl_render.specs.Cites.{new_cite, sort_key_text, special_cite, whole_cite, named_by, AgreeButForAuthors, Covers, HoldsForAlike};
ghost use Rattle.csl_render.specs.Names.{author};
ghost use Rattle.csl_render.specs.Pair.{cite_input, layout_output_from, output_of, Prints, PrintsSame};
ghost use Rattle.csl_render.specs.SortedDates.{SortsByDate};
ghost use Rattle.csl_style.specs.Tested.{variables_of_tests};
ghost use Rattle.csl_style.specs.Told.{told_beside};

use crate::pair::{Pair, are_alike_on, render_both, render_pair};
use crate::render::RenderCsl;
use csl_context::{Context, LeftState, RenderError, Rendered};
use csl_entry::{CiteProperties, EntryLike, InstanceContext, Sorting, SpecialForm};
use csl_style::{Layout, Named, Scope, Style};
use csl_tree::BufWriteFormat;
use std::alloc::Global;

/// Renders a cite by a layout, from the state that another rendering left.
#[tactic(auto, using(crate::proofs::Pairs::rendering_wants_memory, crate::proofs::Pairs::end_wants_memory))]
pub(crate) fn render_from<'s, T: EntryLike>(
    alloc: Global,
    style: &'s Style,
    layout: &'s Layout,
    instance: InstanceContext<'s, T>,
    scope: Scope,
    start: &LeftState,
) -> Result<Rendered, RenderError>
    ensures ok { IfOk result (λ r. output_of r ≡ layout_output_from (left_state_view start.now)
        (cite_input style.now scope (cite_state instance.entry.cite_props.now)
        instance.entry.sorting
        instance.entry.kind (T.answers instance.entry.entry.now)) layout.now) }
    ensures err { IfErr result (λ e. e ≡ RenderError.Memory) }
{
    let mut ctx = Context::resume(alloc, style, instance, scope, start)?;
    layout.render(&mut ctx)?;
    ctx.finish()
}

/// Renders a cite by a layout, in a new context.
fn render_new<T: EntryLike>(
    alloc: Global,
    style: &Style,
    layout: &Layout,
    scope: Scope,
    entry: &T,
    cite_props: &CiteProperties<'_>,
    sorting: Option<Sorting>,
    kind: Option<SpecialForm>,
) -> Result<Rendered, RenderError>
    ensures ok { IfOk result (λ r. output_of r ≡ new_cite style.now scope
        (cite_state cite_props.now) sorting kind (T.answers entry.now) layout.now) }
    ensures err { IfErr result (λ e. e ≡ RenderError.Memory) }
{
    let instance = InstanceContext {
        entry,
        cite_props,
        sorting,
        kind,
    };
    let start = LeftState::new(alloc);
    render_from(alloc, style, layout, instance, scope, &start)
}

/// Renders one cite of an entry by the style's citation layout, in a new context (CSL 1.0.2,
/// Citation; Layout). It renders the whole cite, and not for a sort key. Returns the content, and
/// the state that it leaves.
///
/// # Errors
/// [`RenderError::Memory`]: out of memory, here or in the entry.
#[tactic(auto, using(crate::proofs::Theorems::whole_cite_decided))]
pub fn cite<T: EntryLike>(
    alloc: Global,
    style: &Style,
    entry: &T,
    cite_props: &CiteProperties<'_>,
) -> Result<Rendered, RenderError>
    ensures ok { IfOk result (λ r. output_of r ≡ whole_cite style.now scopes.Citation
        (cite_state cite_props.now) (T.answers entry.now) style.now.citation) }
    // Entries of any type that answer alike on what the layout names have the same cite.
    ensures decided { HoldsForAlike (named_by style.now style.now.citation) (T.answers entry.now)
        (λ others. IfOk result (λ r. output_of r ≡ whole_cite style.now scopes.Citation
        (cite_state cite_props.now) others style.now.citation)) }
    ensures err { IfErr result (λ e. e ≡ RenderError.Memory) }
{
    let layout = style.citation();
    render_new(
        alloc,
        style,
        layout,
        Scope::Citation,
        entry,
        cite_props,
        None,
        None,
    )
}

/// Renders one cite of an entry in a special form, such as the year alone or all but the author, by
/// the style's citation layout, in a new context (CSL 1.0.2, Citation; Layout). It is not for a
/// sort key. Returns the content, and the state that it leaves.
///
/// # Errors
/// [`RenderError::Memory`]: out of memory, here or in the entry.
#[tactic(auto, using(crate::proofs::Theorems::special_cite_decided, crate::proofs::Theorems::untold_author))]
pub fn cite_in<T: EntryLike>(
    alloc: Global,
    style: &Style,
    entry: &T,
    cite_props: &CiteProperties<'_>,
    form: SpecialForm,
) -> Result<Rendered, RenderError>
    ensures ok { IfOk result (λ r. output_of r ≡ special_cite style.now (cite_state cite_props.now)
        form (T.answers entry.now)) }
    // Entries of any type that answer alike on what the layout names have the same cite.
    ensures decided { HoldsForAlike (named_by style.now style.now.citation) (T.answers entry.now)
        (λ others. IfOk result (λ r. output_of r ≡ special_cite style.now
        (cite_state cite_props.now) form others)) }
    // Without its authors it tells nothing of them, unless a test of a branch names them.
    ensures silent { form ≡ special_forms.SuppressAuthor
        → variables_of_tests style.now style.now.citation (a_variable author) ≡ false → (others : Answers)
        → AgreeButForAuthors (named_by style.now style.now.citation) (T.answers entry.now) others
        → IfOk result (λ r. output_of r ≡ special_cite style.now (cite_state cite_props.now) form
        others) }
    // With one variable alone it tells no other, but for what the layout tells beside it.
    ensures alone { (v : Variable) → form ≡ special_forms.VarOnly v → (others : Answers)
        → SameNamedAnswers (named_union (the_variable v)
        (told_beside v style.now style.now.citation)) (T.answers entry.now) others
        → IfOk result (λ r. output_of r ≡ special_cite style.now (cite_state cite_props.now) form
        others) }
    ensures err { IfErr result (λ e. e ≡ RenderError.Memory) }
{
    let (layout, scope) = (style.citation(), Scope::Citation);
    render_new(
        alloc,
        style,
        layout,
        scope,
        entry,
        cite_props,
        None,
        Some(form),
    )
}

/// Renders an entry by the style's bibliography layout, in a new context (CSL 1.0.2, Bibliography;
/// Layout). It renders the whole entry, and not for a sort key. Returns the content and the state
/// that it leaves, or `None` if the style has no bibliography.
///
/// # Errors
/// [`RenderError::Memory`]: out of memory, here or in the entry.
pub fn bibliography_entry<T: EntryLike>(
    alloc: Global,
    style: &Style,
    entry: &T,
    cite_props: &CiteProperties<'_>,
) -> Result<Option<Rendered>, RenderError>
    ensures ok { IfOk result (λ found. option_map output_of found
        ≡ option_map (whole_cite style.now scopes.Bibliography (cite_state cite_props.now)
        (T.answers entry.now)) style.now.bibliography) }
    // Entries of any type that answer alike on what the layout names have the same.
    ensures decided { IfSome style.now.bibliography (λ layout. HoldsForAlike
        (named_by style.now layout) (T.answers entry.now) (λ others. IfOk result (λ found.
        option_map output_of found ≡ Some (whole_cite style.now scopes.Bibliography
        (cite_state cite_props.now) others layout)))) }
    ensures err { IfErr result (λ e. e ≡ RenderError.Memory) }
{
    let Some(layout) = style.bibliography() else {
        return Ok(None);
    };
    let scope = Scope::Bibliography;
    let rendered = render_new(alloc, style, layout, scope, entry, cite_props, None, None)?;
    Ok(Some(rendered))
}

/// Renders an entry for sorting, by a layout and in the scope that is sorted, and returns the plain
/// text (CSL 1.0.2, Sorting). The layout is that of one key: a call of a macro, for
/// [`Sorting::Macro`], or one variable, for [`Sorting::Variable`]. Dates, numbers and names are
/// written so that the texts sort as they do. The caller compares the texts, by its collation.
///
/// # Errors
/// [`RenderError::Memory`]: out of memory, here or in the entry.
pub fn sort_key<T: EntryLike>(
    alloc: Global,
    style: &Style,
    entry: &T,
    cite_props: &CiteProperties<'_>,
    layout: &Layout,
    scope: Scope,
    sorting: Sorting,
) -> Result<String, RenderError>
    ensures ok { IfOk result (λ key. string_bytes key ≡ sort_key_text style.now scope
        (cite_state cite_props.now) sorting (T.answers entry.now) layout.now) }
    // Entries of any type that answer alike on what the layout names have the same key.
    ensures decided { HoldsForAlike (named_by style.now layout.now) (T.answers entry.now)
        (λ others. IfOk result (λ key. string_bytes key ≡ sort_key_text style.now scope
        (cite_state cite_props.now) sorting others layout.now)) }
    // By a layout of one date alone, it compares with other keys as the dates do in time.
    ensures by_date { IfOk result (λ key. SortsByDate (string_bytes key) style.now scope
        (cite_state cite_props.now) sorting (T.answers entry.now) layout.now) }
    ensures err { IfErr result (λ e. e ≡ RenderError.Memory) }
{
    let sorting = Some(sorting);
    let rendered = render_new(
        alloc, style, layout, scope, entry, cite_props, sorting, None,
    )?;
    let key = rendered.content.to_text(alloc, BufWriteFormat::Plain)?;
    Ok(key)
}

/// Renders a cite of each of two entries, of any types, as [`cite`] does. Also returns whether the
/// entries are *alike* for the citation layout: they answer alike on all variables and kinds that
/// the layout and the macros it reaches name. Cites of alike entries are equal in content, state
/// and HTML, so a caller that has one need not render the other. Entries that are not alike may
/// have the same cite too.
///
/// # Errors
/// [`RenderError::Memory`]: out of memory, here or in an entry.
pub fn cite_pair<T: EntryLike, U: EntryLike>(
    alloc: Global,
    style: &Style,
    cite_props: &CiteProperties<'_>,
    left: &T,
    right: &U,
) -> Result<Pair, RenderError>
    ensures left { IfOk result (λ p. Prints (whole_cite style.now scopes.Citation
        (cite_state cite_props.now) (T.answers left.now) style.now.citation)
        p.left (string_bytes p.left_html)) }
    ensures right { IfOk result (λ p. Prints (whole_cite style.now scopes.Citation
        (cite_state cite_props.now) (U.answers right.now) style.now.citation)
        p.right (string_bytes p.right_html)) }
    ensures alike { IfOk result (λ p. Decides p.alike (SameNamedAnswers
        (named_in_nodes (expand_layout (macro_env style.now)
        (view_layout style.now.citation)).elements)
        (T.answers left.now) (U.answers right.now))) }
    ensures same { IfOk result (λ p. p.alike ≡ true
        → PrintsSame p.left (string_bytes p.left_html) p.right (string_bytes p.right_html)) }
    ensures err { IfErr result (λ e. e ≡ RenderError.Memory) }
{
    let start = LeftState::new(alloc);
    let (layout, scope) = (style.citation(), Scope::Citation);
    let pair = render_pair(
        alloc, style, layout, scope, cite_props, None, None, &start, left, right,
    )?;
    Ok(pair)
}

/// Renders a cite of each of two entries, as [`cite_pair`] does, and compares their answers on a
/// set of variables and kinds: on what `csl_style::named_by` returns for the citation layout, so
/// that a caller with many pairs asks for it once. By a set that has everything that the layout
/// names, cites of alike entries are equal in content, state and HTML.
///
/// # Errors
/// [`RenderError::Memory`]: out of memory, here or in an entry.
pub fn cite_pair_with<T: EntryLike, U: EntryLike>(
    alloc: Global,
    style: &Style,
    cite_props: &CiteProperties<'_>,
    named: &Named,
    left: &T,
    right: &U,
) -> Result<Pair, RenderError>
    ensures left { IfOk result (λ p. Prints (whole_cite style.now scopes.Citation
        (cite_state cite_props.now) (T.answers left.now) style.now.citation)
        p.left (string_bytes p.left_html)) }
    ensures right { IfOk result (λ p. Prints (whole_cite style.now scopes.Citation
        (cite_state cite_props.now) (U.answers right.now) style.now.citation)
        p.right (string_bytes p.right_html)) }
    ensures alike { IfOk result (λ p. Decides p.alike
        (SameNamedAnswers (named_set named.now) (T.answers left.now) (U.answers right.now))) }
    ensures same { Covers (named_set named.now) (named_by style.now style.now.citation)
        → IfOk result (λ p. p.alike ≡ true
        → PrintsSame p.left (string_bytes p.left_html) p.right (string_bytes p.right_html)) }
    ensures err { IfErr result (λ e. e ≡ RenderError.Memory) }
{
    let alike = are_alike_on(alloc, named, left, right)?;
    let one = InstanceContext {
        entry: left,
        cite_props,
        sorting: None,
        kind: None,
    };
    let other = InstanceContext {
        entry: right,
        cite_props,
        sorting: None,
        kind: None,
    };
    let (layout, scope) = (style.citation(), Scope::Citation);
    let start = LeftState::new(alloc);
    let pair = render_both(alloc, style, layout, scope, &start, one, other, alike)?;
    Ok(pair)
}
