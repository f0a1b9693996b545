//! The context that rendering reads and writes, with its beginning and its end.

ghost use Rattle.std.specs.Prelude.{◌≡◌, ◌↔◌, [], false, true, IfOk, OnOk, IfErr, option_map};
ghost use Rattle.std.specs.Bool.{OnFalse};
ghost use Rattle.csl_elements.specs.NamesOptions.{inherited_options};
ghost use Rattle.csl_tree.specs.Content.{IsContent};
ghost use Rattle.csl_tree.specs.Tokens.{tokens};
ghost use Rattle.csl_entry.specs.Cite.{cite_state};
ghost use Rattle.csl_entry.specs.NameProperties.{name_properties};
ghost use Rattle.csl_context.specs.ContextState.{context_state_view};
ghost use Rattle.csl_context.specs.Context.{Gives, new_context, initial_state};
ghost use Rattle.csl_context.specs.State.{left_state_view};

use crate::error::RenderError;
use crate::state::ContextState;
use csl_entry::{InstanceContext, NameDisambiguationProperties, Sorting, SpecialForm};
use csl_style::{InheritedNameOptions, Scope, Style, Variable};
use csl_tree::{ElemChildren, FlatTree, Formatting};
use lit_model::Memory;
use std::alloc::Global;
use std::collections::BTreeSet;
use std::marker::Model;

/// The context in which a cite is rendered.
#[derive(Drop)]
pub struct Context<'s, T> {
    pub(crate) style: &'s Style,
    pub(crate) scope: Scope,
    pub(crate) instance: InstanceContext<'s, T>,
    pub(crate) writing: WritingContext<'s>,
}

/// All of a context but its style, scope and cite: the allocator, the open parts, the inherited
/// values, the state, and whether it has failed.
#[derive(Drop)]
pub struct WritingContext<'s> {
    pub(crate) alloc: Global,
    pub(crate) content: FlatTree,
    pub(crate) formatting: Formatting,
    pub(crate) formats: Vec<Formatting>,
    pub(crate) delimiter: Option<&'s str>,
    pub(crate) delimiters: Vec<Option<&'s str>>,
    pub(crate) options: InheritedNameOptions<'s>,
    pub(crate) outer_options: Vec<InheritedNameOptions<'s>>,
    pub(crate) in_quotes: bool,
    pub(crate) strip_periods: bool,
    pub(crate) state: ContextState,
    pub(crate) failed: bool,
}

impl<'s, T> Model for Context<'s, T> {
    ghost use Rattle.std.specs.Prelude.{map, reverse, option_map};
    ghost use Rattle.std.specs.Coded.{codes};
    ghost use Rattle.csl_elements.specs.contracts.element.CslMacro as of_macro;
    ghost use Rattle.csl_elements.specs.contracts.element.Layout as of_layout;
    ghost use Rattle.csl_elements.specs.NamesOptions.{inherited_options};
    ghost use Rattle.csl_elements.specs.SetCode.{set_code};
    ghost use Rattle.csl_entry.specs.Cite.{cite_state};
    ghost use Rattle.csl_context.specs.Context.{HasContents, ContextView};
    ghost use Rattle.csl_context.specs.ContextState.{context_state_view};

    ghost Value = { ContextView T };

    ghost coded = { Prim.hlevel
        (codes, set_code, of_macro.the_row.coded, of_layout.the_row.coded) };

    ghost view = { λ c. record {
      style = c.style.now;
      scope = c.scope;
      entry = c.instance.entry.now;
      cite = cite_state c.instance.cite_props.now;
      sorting = c.instance.sorting;
      special = c.instance.kind;
      inner = c.writing.content.inner;
      outer = c.writing.content.outer;
      inherited = record {
        formatting = c.writing.formatting;
        delimiter = option_map (λ t. t.now) c.writing.delimiter;
        options = inherited_options c.writing.options;
        in_quotes = c.writing.in_quotes;
        strip_periods = c.writing.strip_periods;
      };
      formats = reverse c.writing.formats.items;
      delimiters = reverse (map (option_map (λ t. t.now)) c.writing.delimiters.items);
      options = reverse (map inherited_options c.writing.outer_options.items);
      state = context_state_view c.writing.state;
      failed = c.writing.failed;
    } };

    ghost invariant = { λ c. HasContents c.writing.content };
}

/// The state that a rendering leaves for the next one.
#[derive(PartialEq, Eq, Drop)]
pub struct LeftState {
    /// The suppressed variables. A lookup finds nothing for them.
    pub suppressed: BTreeSet<Variable>,
    /// The suppressing switch: whether a lookup for printing suppresses its variable.
    pub suppressing: bool,
    /// Whether a date was rendered, even to nothing.
    pub first_date_seen: bool,
    /// The forms of the names that were printed first.
    pub first_names: Option<NameDisambiguationProperties>,
}

/// The content of a rendering, and the state that it leaves.
#[derive(PartialEq, Eq, Drop)]
pub struct Rendered {
    pub content: ElemChildren,
    pub state: LeftState,
}

/// A copy of the properties, if there are any.
pub(crate) fn copy_names(
    alloc: Global,
    names: &Option<NameDisambiguationProperties>,
) -> Result<Option<NameDisambiguationProperties>, Memory>
    ensures { IfOk result (λ copy. option_map name_properties copy
        ≡ option_map name_properties names.now) }
{
    match names {
        None => Ok(None),
        Some(names) => {
            let copy = names.clone(alloc)?;
            Ok(Some(copy))
        }
    }
}

impl LeftState {
    /// The initial state: no variable is suppressed, the suppressing switch is off, and no date or
    /// names were rendered.
    pub fn new(alloc: Global) -> LeftState
        ensures { left_state_view result ≡ initial_state }
    {
        LeftState {
            suppressed: BTreeSet::new(alloc),
            suppressing: false,
            first_date_seen: false,
            first_names: None,
        }
    }

    /// An equal value.
    pub fn clone(&self, alloc: Global) -> Result<LeftState, Memory>
        ensures { IfOk result (λ copy. left_state_view copy ≡ left_state_view self.now) }
    {
        let suppressed = self.suppressed.clone()?;
        let first_names = copy_names(alloc, &self.first_names)?;
        Ok(LeftState {
            suppressed,
            suppressing: self.suppressing,
            first_date_seen: self.first_date_seen,
            first_names,
        })
    }
}

impl Rendered {
    /// An equal value.
    pub fn clone(&self, alloc: Global) -> Result<Rendered, Memory>
        ensures content { IfOk result (λ copy. tokens copy.content ≡ tokens self.now.content) }
        ensures state { IfOk result (λ copy.
            left_state_view copy.state ≡ left_state_view self.now.state) }
    {
        let content = self.content.clone(alloc)?;
        let state = self.state.clone(alloc)?;
        Ok(Rendered { content, state })
    }
}

/// Creates a context with only the root open, no content and the given state.
fn begin<'s, T>(
    alloc: Global,
    style: &'s Style,
    instance: InstanceContext<'s, T>,
    scope: Scope,
    state: ContextState,
) -> Context<'s, T>
    ensures { result ≡ new_context style.now scope instance.entry.entry.now
        (cite_state instance.entry.cite_props.now) instance.entry.sorting instance.entry.kind
        (context_state_view state) }
{
    Context {
        style,
        scope,
        instance,
        writing: WritingContext {
            alloc,
            content: FlatTree::new(alloc),
            formatting: Formatting::default(),
            formats: Vec::new(alloc),
            delimiter: None,
            delimiters: Vec::new(alloc),
            options: style.base_name_options(scope),
            outer_options: Vec::new(alloc),
            in_quotes: false,
            strip_periods: false,
            state,
            failed: false,
        },
    }
}

impl<'s, T> Context<'s, T> {
    /// Creates a context with only the root open, no content and the initial state.
    pub fn new(
        alloc: Global,
        style: &'s Style,
        instance: InstanceContext<'s, T>,
        scope: Scope,
    ) -> Result<Context<'s, T>, Memory>
        ensures { Gives result (new_context style.now scope instance.entry.entry.now
            (cite_state instance.entry.cite_props.now) instance.entry.sorting instance.entry.kind
            initial_state) }
    {
        Ok(begin(alloc, style, instance, scope, ContextState::new()))
    }

    /// Creates a context with only the root open, no content and the state that another rendering
    /// left.
    pub fn resume(
        alloc: Global,
        style: &'s Style,
        instance: InstanceContext<'s, T>,
        scope: Scope,
        start: &LeftState,
    ) -> Result<Context<'s, T>, Memory>
        ensures { Gives result (new_context style.now scope instance.entry.entry.now
            (cite_state instance.entry.cite_props.now) instance.entry.sorting instance.entry.kind
            (left_state_view start.now)) }
    {
        let state = ContextState::of(alloc, start)?;
        Ok(begin(alloc, style, instance, scope, state))
    }

    /// Returns the content and the state. Only the root may be open, unless the context has failed.
    /// No text, markup or link in the content is empty, and no element is without children.
    ///
    /// # Errors
    /// [`RenderError::Memory`]: out of memory. The context had not failed.
    /// [`RenderError::Failed`]: the context had failed already.
    pub fn finish(self) -> Result<Rendered, RenderError>
        requires closed { OnFalse self.failed (self.outer ≡ []) }
        ensures sound { OnOk result (self.entry.failed ≡ false) }
        ensures content { IfOk result (λ r. tokens r.content ≡ self.entry.inner) }
        ensures whole { IfOk result (λ r. IsContent (tokens r.content)) }
        ensures state { IfOk result (λ r. left_state_view r.state ≡ self.entry.state) }
        ensures err { IfErr result (λ e. (e ≡ RenderError.Failed) ↔ (self.entry.failed ≡ true)) }
    {
        self.ensure_live()?;
        let writing = self.writing;
        let state = writing.state.into_left(writing.alloc)?;
        let content = writing.content.finish()?;
        Ok(Rendered { content, state })
    }

    /// Sets how many bytes this context may still write. Each text takes its bytes, each element
    /// and each text, markup or link of its own 64 more, and an element with names the texts of its
    /// persons. What is dropped again takes them too. A text that is made before it is written
    /// takes bytes when it is made as well: a text whose periods are stripped its own, each number
    /// 24, a shortened given name those of the text after an initial for each of its bytes. Dry
    /// runs take none. A call that needs more than are left fails as if memory had run out. A new
    /// context has no limit.
    pub fn limit(&mut self, bytes: u64)
        ensures { self.new ≡ self.old }
    {
        self.writing.content.limit(bytes);
    }

    /// How many bytes this context may still write. Without a limit they are more than memory
    /// holds.
    pub fn room(&self) -> u64 {
        self.writing.content.room()
    }

    /// Whether the context has a limit of what memory may hold.
    pub fn is_limited(&self) -> bool {
        self.writing.content.is_limited()
    }

    /// Marks the context as failed.
    pub fn fail(&mut self)
        ensures { self.new ≡ record self.old { failed = true } }
    {
        self.writing.failed = true;
    }

    /// Whether the context has failed.
    pub fn has_failed(&self) -> bool
        ensures { result ≡ self.now.failed }
    {
        self.writing.failed
    }

    /// The allocator that the context was made with.
    pub fn alloc(&self) -> Global {
        self.writing.alloc
    }

    /// The style.
    pub fn style(&self) -> &'s Style
        ensures { result.now ≡ self.now.style }
    {
        self.style
    }

    /// The scope: citation or bibliography.
    pub fn scope(&self) -> Scope
        ensures { result ≡ self.now.scope }
    {
        self.scope
    }

    /// The cite with its entry.
    pub fn instance(&self) -> InstanceContext<'s, T>
        ensures entry { result.entry.now ≡ self.now.entry }
        ensures cite { cite_state result.cite_props.now ≡ self.now.cite }
        ensures sorting { result.sorting ≡ self.now.sorting }
        ensures special { result.kind ≡ self.now.special }
    {
        self.instance
    }

    /// The source of the sort key, a variable or a macro, if the cite is rendered to be sorted.
    pub fn sorting(&self) -> Option<Sorting>
        ensures { result ≡ self.now.sorting }
    {
        self.instance.sorting
    }

    /// The special form, if only a part of the cite is rendered.
    pub fn special_form(&self) -> Option<SpecialForm>
        ensures { result ≡ self.now.special }
    {
        self.instance.kind
    }

    /// The delimiter that nodes inherit.
    pub fn delimiter(&self) -> Option<&'s str>
        ensures { option_map (λ t. t.now) result ≡ self.now.inherited.delimiter }
    {
        self.writing.delimiter
    }

    /// The options of names that nodes inherit. Each one may be unset.
    pub fn name_options(&self) -> InheritedNameOptions<'s>
        ensures { inherited_options result ≡ self.now.inherited.options }
    {
        self.writing.options
    }
}
