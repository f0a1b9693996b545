//! An entry with only a title, and the style that it is cited in.

ghost use Rattle.std.specs.Prelude.{◌≡◌, IfOk};
ghost use Rattle.csl_elements.specs.View.{view_node, view_layout};
ghost use Rattle.csl_samples.specs.Title as spec;

use csl_entry::EntryLike;
use csl_style::{
    Affixes, DateVariable, Formatting, Group, Kind, Layout, LayoutRenderingElement, NameVariable,
    NumberVariable, PageVariable, StandardVariable, Style, StyleError, StyleSettings, Text,
    Variable,
};
use lit_model::{
    ChunkedString, Date, LongShortForm, MaybeTyped, Memory, Numeric, PageRanges, Person,
};
use std::alloc::Global;
use std::borrow::{Cow, CowStr};

/// An entry with only a title. Without one it answers nothing.
#[derive(Drop)]
pub struct TitleOnly {
    pub title: Option<ChunkedString>,
}

impl EntryLike for TitleOnly {
    ghost use Rattle.std.specs.Prelude.{[], None, option_map};
    ghost use Rattle.lit_model.specs.Text.{chunks};
    ghost use Rattle.csl_samples.specs.Title.{title_answers};

    ghost answers = { λ entry. title_answers (option_map chunks entry.title) };

    ghost key_text = { λ _. [] };

    ghost english = { λ _. None };

    fn resolve_number_variable(
        &self,
        _alloc: Global,
        _variable: NumberVariable,
    ) -> Result<Option<MaybeTyped<Cow<'_, Numeric>>>, Memory> {
        Ok(None)
    }

    fn resolve_page_variable(
        &self,
        _alloc: Global,
        _variable: PageVariable,
    ) -> Result<Option<MaybeTyped<PageRanges>>, Memory> {
        Ok(None)
    }

    fn resolve_standard_variable(
        &self,
        _alloc: Global,
        _form: LongShortForm,
        variable: StandardVariable,
    ) -> Result<Option<Cow<'_, ChunkedString>>, Memory> {
        match variable {
            StandardVariable::Title => match &self.title {
                Some(title) => Ok(Some(Cow::Borrowed(title))),
                None => Ok(None),
            },
            _ => Ok(None),
        }
    }

    fn resolve_name_variable(
        &self,
        alloc: Global,
        _variable: NameVariable,
    ) -> Result<Vec<Cow<'_, Person>>, Memory> {
        Ok(Vec::new(alloc))
    }

    fn resolve_date_variable(
        &self,
        _alloc: Global,
        _variable: DateVariable,
    ) -> Result<Option<Cow<'_, Date>>, Memory> {
        Ok(None)
    }

    fn matches_entry_type(&self, _kind: Kind) -> bool {
        false
    }

    fn is_english(&self) -> Option<bool> {
        None
    }

    fn key(&self) -> CowStr<'_, Global> {
        CowStr::Borrowed("")
    }
}

/// The word `Title`.
fn label(alloc: Global) -> Result<LayoutRenderingElement, Memory>
    ensures { IfOk result (λ made. view_node made ≡ spec.label) }
{
    Ok(Text::value(alloc, "Title")?.into())
}

/// The title in italics.
fn title_text() -> LayoutRenderingElement
    ensures { view_node result ≡ spec.title_text }
{
    let title = Variable::Standard(StandardVariable::Title);
    Text {
        formatting: Formatting::italic(),
        ..Text::variable(title)
    }
    .into()
}

/// The word `Title` and the title, in parentheses.
#[tactic(auto, using(csl_elements::proofs::Rolled::group_made))]
fn title_group(alloc: Global) -> Result<LayoutRenderingElement, Memory>
    ensures { IfOk result (λ group. view_node group ≡ spec.title_group) }
{
    let label = label(alloc)?;
    let children = vec![in alloc; label, title_text()]?;
    let affixes = Affixes::around(alloc, "(", ")")?;
    Ok(Group {
        affixes,
        ..Group::delimited(alloc, ": ", children)?
    }
    .into())
}

/// The layout of titles: the group of the word and the title.
fn title_layout(alloc: Global) -> Result<Layout, Memory>
    ensures { IfOk result (λ layout. view_layout layout ≡ spec.title_layout) }
{
    let group = title_group(alloc)?;
    let elements = vec![in alloc; group]?;
    Ok(Layout::new(elements))
}

/// The style that titles are cited in. It has a citation layout, no macros and no locales.
pub fn title_style(alloc: Global) -> Result<Style, Memory>
    ensures { IfOk result spec.CitesTitles }
{
    let citation = title_layout(alloc)?;
    let settings = StyleSettings::default();
    let (macros, locales) = (Vec::new(alloc), Vec::new(alloc));
    match Style::new(alloc, settings, macros, citation, None, locales) {
        Ok(style) => Ok(style),
        Err(StyleError::Memory) => Err(Memory),
        // The style has no macros, so no cycle, and it sets no page format.
        Err(_) => unreachable!(),
    }
}
