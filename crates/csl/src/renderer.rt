//! The renderings of one request, with one limit for all of them (CSL 1.0.2, Citation;
//! Bibliography; Sorting).

ghost use Rattle.std.specs.Prelude.{◌≡◌, ◌<◌, ◌+◌, ◌≤◌, false, length, Some, IfOk, OnOk, IfErr, IfSome, option_map, string_bytes};
ghost use Rattle.csl_style.specs.declared.style.settings.Scope.TheVariants as scopes;
ghost use Rattle.csl_style.specs.Named.{the_variable};
ghost use Rattle.csl_elements.specs.declared.taxonomy.Variable.{Variable};
ghost use Rattle.csl_elements.specs.NamedSet.{a_variable, named_union};
ghost use Rattle.csl_tree.specs.Tokens.{tokens};
ghost use Rattle.csl_entry.specs.Alike.{SameNamedAnswers};
ghost use Rattle.csl_entry.specs.Answers.{Answers};
ghost use Rattle.csl_entry.specs.Cite.{cite_state};
ghost use Rattle.csl_entry.specs.declared.citation.cite.SpecialForm.TheVariants as special_forms;
ghost use Rattle.csl_render.specs.Cites.{new_cite, sort_key_text, special_cite, whole_cite, named_by, AgreeButForAuthors, HoldsForAlike};
ghost use Rattle.csl_render.specs.Names.{author};
ghost use Rattle.csl_render.specs.Pair.{output_of};
ghost use Rattle.csl_render.specs.SortedDates.{SortsByDate};
ghost use Rattle.csl_style.specs.Tested.{variables_of_tests};
ghost use Rattle.csl_style.specs.Told.{told_beside};
ghost use Rattle.csl.specs.Renderer.{refusal, text_len};

use crate::error::Error;
use csl_context::Rendered;
use csl_entry::{CiteProperties, EntryLike, InstanceContext, Sorting, SpecialForm};
use csl_render::render_within;
use csl_style::{Layout, Scope, Style};
use csl_tree::BufWriteFormat;
use std::alloc::Global;
use std::marker::Model;

/// Renders the cites, the lines of the bibliography and the sort keys of one request. All of them
/// together write no more than [`Renderer::limited`] allows. [`csl_context::Context::limit`] says
/// what takes how many bytes.
#[derive(Drop)]
pub struct Renderer<'s> {
    style: &'s Style,
    room: u64,
}

impl<'s> Model for Renderer<'s> {
    ghost use Rattle.std.specs.Coded.{codes};
    ghost use Rattle.csl_elements.specs.contracts.element.CslMacro as of_macro;
    ghost use Rattle.csl_elements.specs.contracts.element.Layout as of_layout;
    ghost use Rattle.csl.specs.Renderer.{RendererView};

    ghost Value = { RendererView };

    ghost coded = { Prim.hlevel (codes, of_macro.the_row.coded, of_layout.the_row.coded) };

    ghost view = { λ r. record { style = r.style.now; room = r.room } };
}

impl<'s> Renderer<'s> {
    /// A renderer by a style, without a limit: it may write more than memory holds.
    pub fn new(style: &'s Style) -> Renderer<'s>
        ensures style { result.style ≡ style.now }
        ensures room { result.room ≡ u64.MAX }
    {
        Renderer {
            style,
            room: u64::MAX,
        }
    }

    /// The renderer with a limit: so many bytes may be written from now on.
    pub fn limited(self, bytes: u64) -> Renderer<'s>
        ensures style { result.style ≡ self.entry.style }
        ensures room { result.room ≡ bytes }
    {
        Renderer {
            style: self.style,
            room: bytes,
        }
    }

    /// How many bytes may still be written.
    pub fn room(&self) -> u64
        ensures { result ≡ self.now.room }
    {
        self.room
    }

    /// Why a call failed.
    fn refusal(&self) -> Error
        ensures { result ≡ refusal self.now.room }
    {
        if self.room == 0 {
            Error::Limit
        } else {
            Error::Memory
        }
    }

    /// Takes the bytes of what a call returns, before which there was room for `before`.
    fn spend(&mut self, before: u64, written: usize) -> Result<(), Error>
        ensures ok { OnOk result (written + self.new.room ≤ before) }
        ensures counted { OnOk result (written < usize.MAX) }
        ensures style { self.new.style ≡ self.old.style }
        ensures less { self.new.room ≤ self.old.room }
        ensures err { IfErr result (λ e. e ≡ refusal self.new.room) }
    {
        match before.checked_sub(written as u64) {
            // A length of `usize::MAX` stands for each that is longer.
            Some(rest) if written < usize::MAX => {
                self.room = self.room.min(rest);
                Ok(())
            }
            _ => {
                self.room = 0;
                Err(Error::Limit)
            }
        }
    }

    /// Renders a cite by a layout, and takes what its context took.
    fn written<T: EntryLike>(
        &mut self,
        alloc: Global,
        layout: &Layout,
        scope: Scope,
        entry: &T,
        cite_props: &CiteProperties<'_>,
        sorting: Option<Sorting>,
        kind: Option<SpecialForm>,
    ) -> Result<Rendered, Error>
        ensures ok { IfOk result (λ r. output_of r ≡ new_cite self.old.style scope
            (cite_state cite_props.now) sorting kind (T.answers entry.now) layout.now) }
        ensures style { self.new.style ≡ self.old.style }
        ensures less { self.new.room ≤ self.old.room }
        ensures err { IfErr result (λ e. e ≡ refusal self.new.room) }
    {
        let instance = InstanceContext {
            entry,
            cite_props,
            sorting,
            kind,
        };
        let mut left = self.room;
        let rendered = render_within(alloc, self.style, layout, instance, scope, &mut left);
        self.room = self.room.min(left);
        match rendered {
            Ok(rendered) => Ok(rendered),
            Err(_) => Err(self.refusal()),
        }
    }

    /// Renders a cite by a layout.
    fn render<T: EntryLike>(
        &mut self,
        alloc: Global,
        layout: &Layout,
        scope: Scope,
        entry: &T,
        cite_props: &CiteProperties<'_>,
        kind: Option<SpecialForm>,
    ) -> Result<Rendered, Error>
        ensures ok { IfOk result (λ r. output_of r ≡ new_cite self.old.style scope
            (cite_state cite_props.now) None kind (T.answers entry.now) layout.now) }
        ensures room { IfOk result (λ r. text_len (tokens r.content) + self.new.room
            ≤ self.old.room) }
        ensures style { self.new.style ≡ self.old.style }
        ensures less { self.new.room ≤ self.old.room }
        ensures err { IfErr result (λ e. e ≡ refusal self.new.room) }
    {
        let before = self.room;
        let rendered = self.written(alloc, layout, scope, entry, cite_props, None, kind)?;
        self.spend(before, rendered.content.str_len())?;
        Ok(rendered)
    }

    /// Renders one cite of an entry, as [`csl_render::cite`] does.
    ///
    /// # Errors
    /// [`Error::Limit`]: it would write more than is allowed. Nothing may be written any more.
    /// [`Error::Memory`]: out of memory, here or in the entry.
    #[tactic(auto, using(csl_render::proofs::Theorems::whole_cite_decided))]
    pub fn cite<T: EntryLike>(
        &mut self,
        alloc: Global,
        entry: &T,
        cite_props: &CiteProperties<'_>,
    ) -> Result<Rendered, Error>
        ensures ok { IfOk result (λ r. output_of r ≡ whole_cite self.old.style scopes.Citation
            (cite_state cite_props.now) (T.answers entry.now) self.old.style.citation) }
        // Entries of any type that answer alike on what the layout names have the same cite.
        ensures decided { HoldsForAlike (named_by self.old.style self.old.style.citation)
            (T.answers entry.now) (λ others. IfOk result (λ r. output_of r ≡ whole_cite
            self.old.style scopes.Citation (cite_state cite_props.now) others
            self.old.style.citation)) }
        // Its text, and all that is written after it, is within what was allowed before it.
        ensures room { IfOk result (λ r. text_len (tokens r.content) + self.new.room
            ≤ self.old.room) }
        ensures style { self.new.style ≡ self.old.style }
        ensures less { self.new.room ≤ self.old.room }
        ensures err { IfErr result (λ e. e ≡ refusal self.new.room) }
    {
        let layout = self.style.citation();
        self.render(alloc, layout, Scope::Citation, entry, cite_props, None)
    }

    /// Renders one cite of an entry in a special form, as [`csl_render::cite_in`] does.
    ///
    /// # Errors
    /// As [`Renderer::cite`].
    #[tactic(auto, using(csl_render::proofs::Theorems::special_cite_decided, csl_render::proofs::Theorems::untold_author))]
    pub fn cite_in<T: EntryLike>(
        &mut self,
        alloc: Global,
        entry: &T,
        cite_props: &CiteProperties<'_>,
        form: SpecialForm,
    ) -> Result<Rendered, Error>
        ensures ok { IfOk result (λ r. output_of r ≡ special_cite self.old.style
            (cite_state cite_props.now) form (T.answers entry.now)) }
        // Entries of any type that answer alike on what the layout names have the same cite.
        ensures decided { HoldsForAlike (named_by self.old.style self.old.style.citation)
            (T.answers entry.now) (λ others. IfOk result (λ r. output_of r ≡ special_cite
            self.old.style (cite_state cite_props.now) form others)) }
        // Without its authors it tells nothing of them, unless a test of a branch names them.
        ensures silent { form ≡ special_forms.SuppressAuthor
            → variables_of_tests self.old.style self.old.style.citation (a_variable author) ≡ false
            → (others : Answers) → AgreeButForAuthors
            (named_by self.old.style self.old.style.citation) (T.answers entry.now) others
            → IfOk result (λ r. output_of r ≡ special_cite self.old.style
            (cite_state cite_props.now) form others) }
        // With one variable alone it tells no other, but for what the layout tells beside it.
        ensures alone { (v : Variable) → form ≡ special_forms.VarOnly v → (others : Answers)
            → SameNamedAnswers (named_union (the_variable v)
            (told_beside v self.old.style self.old.style.citation)) (T.answers entry.now) others
            → IfOk result (λ r. output_of r ≡ special_cite self.old.style
            (cite_state cite_props.now) form others) }
        ensures room { IfOk result (λ r. text_len (tokens r.content) + self.new.room
            ≤ self.old.room) }
        ensures style { self.new.style ≡ self.old.style }
        ensures less { self.new.room ≤ self.old.room }
        ensures err { IfErr result (λ e. e ≡ refusal self.new.room) }
    {
        let layout = self.style.citation();
        let kind = Some(form);
        self.render(alloc, layout, Scope::Citation, entry, cite_props, kind)
    }

    /// Renders an entry by the bibliography layout, as [`csl_render::bibliography_entry`] does.
    /// Returns `None` if the style has none.
    ///
    /// # Errors
    /// As [`Renderer::cite`].
    pub fn bibliography_entry<T: EntryLike>(
        &mut self,
        alloc: Global,
        entry: &T,
        cite_props: &CiteProperties<'_>,
    ) -> Result<Option<Rendered>, Error>
        ensures ok { IfOk result (λ found. option_map output_of found
            ≡ option_map (whole_cite self.old.style scopes.Bibliography (cite_state cite_props.now)
            (T.answers entry.now)) self.old.style.bibliography) }
        // Entries of any type that answer alike on what the layout names have the same.
        ensures decided { IfSome self.old.style.bibliography (λ layout. HoldsForAlike
            (named_by self.old.style layout) (T.answers entry.now) (λ others. IfOk result (λ found.
            option_map output_of found ≡ Some (whole_cite self.old.style scopes.Bibliography
            (cite_state cite_props.now) others layout)))) }
        ensures room { IfOk result (λ found. IfSome found (λ r. text_len (tokens r.content)
            + self.new.room ≤ self.old.room)) }
        ensures style { self.new.style ≡ self.old.style }
        ensures less { self.new.room ≤ self.old.room }
        ensures err { IfErr result (λ e. e ≡ refusal self.new.room) }
    {
        let Some(layout) = self.style.bibliography() else {
            return Ok(None);
        };
        let rendered = self.render(alloc, layout, Scope::Bibliography, entry, cite_props, None)?;
        Ok(Some(rendered))
    }

    /// Renders an entry for sorting, by a layout and in the scope that is sorted, as
    /// [`csl_render::sort_key`] does. Returns the plain text.
    ///
    /// # Errors
    /// As [`Renderer::cite`].
    pub fn sort_key<T: EntryLike>(
        &mut self,
        alloc: Global,
        entry: &T,
        cite_props: &CiteProperties<'_>,
        layout: &Layout,
        scope: Scope,
        sorting: Sorting,
    ) -> Result<String, Error>
        ensures ok { IfOk result (λ key. string_bytes key ≡ sort_key_text self.old.style scope
            (cite_state cite_props.now) sorting (T.answers entry.now) layout.now) }
        // Entries of any type that answer alike on what the layout names have the same key.
        ensures decided { HoldsForAlike (named_by self.old.style layout.now) (T.answers entry.now)
            (λ others. IfOk result (λ key. string_bytes key ≡ sort_key_text self.old.style scope
            (cite_state cite_props.now) sorting others layout.now)) }
        // By a layout of one date alone, it compares with other keys as the dates do in time.
        ensures by_date { IfOk result (λ key. SortsByDate (string_bytes key) self.old.style scope
            (cite_state cite_props.now) sorting (T.answers entry.now) layout.now) }
        ensures room { IfOk result (λ key. length (string_bytes key) + self.new.room
            ≤ self.old.room) }
        ensures style { self.new.style ≡ self.old.style }
        ensures less { self.new.room ≤ self.old.room }
        ensures err { IfErr result (λ e. e ≡ refusal self.new.room) }
    {
        let before = self.room;
        let sorting = Some(sorting);
        let rendered = self.written(alloc, layout, scope, entry, cite_props, sorting, None)?;
        let Ok(key) = rendered.content.to_text(alloc, BufWriteFormat::Plain) else {
            return Err(self.refusal());
        };
        self.spend(before, key.len())?;
        Ok(key)
    }
}
