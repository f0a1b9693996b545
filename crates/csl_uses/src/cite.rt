//! A style that is built as a value, and an entry of any type in it: a cite, a cite of a page, and
//! a line of the bibliography.

ghost use Rattle.std.specs.Prelude.{◌≡◌, IfOk, option_map};
ghost use Rattle.csl.specs.Style.declared.style.settings.Scope.TheVariants as scopes;
ghost use Rattle.csl.specs.Tree.Tokens.{tokens};
ghost use Rattle.csl.specs.Entry.Cite.{first_cite, no_disambiguation};
ghost use Rattle.csl.specs.Render.Cites.{cite_content, whole_cite};
ghost use Rattle.csl_uses.specs.Cite.{cite_of_page};

use csl::entry::{LocatorPayload, SpecificLocator, SpeculativeCiteProperties};
use csl::literature::{self, Entry, EntryType, Person};
use csl::style::{
    Affixes, Choose, ChooseBranch, CslMacro, Date, DatePart, DatePartName, DateVariable, EtAl,
    Formatting, Group, InheritableNameOptions, Kind, Label, Layout, LayoutRenderingElement,
    Locator, Name, NameAnd, NameAsSortOrder, NameForm, NameVariable, Names, NumberVariable,
    OtherTerm, StandardVariable, Style, StyleSettings, Substitute, TermForm, Text, TextTarget,
};
use csl::{CiteProperties, DisambiguateState, ElemChildren, EntryLike, Error, english};
use std::alloc::Global;

/// A book of three authors.
pub fn the_compilers_book(alloc: Global) -> Result<Entry, Error> {
    let aho = Person::new(alloc, "Aho", "Alfred V.")?;
    let sethi = Person::new(alloc, "Sethi", "Ravi")?;
    let ullman = Person::new(alloc, "Ullman", "Jeffrey D.")?;
    let authors = vec![in alloc; aho, sethi, ullman]?;
    let title = "Compilers: Principles, Techniques, and Tools";
    let book = Entry::titled(alloc, "compilers", EntryType::Book, title)?
        .with_authors(authors)
        .with_date(literature::Date::of_year(1986));
    Ok(book)
}

/// The options for names. Of three or more names the style writes the first, and `et al.` for the
/// others. Cites have the family names alone. In the bibliography the first person's family name
/// comes first.
fn settings() -> StyleSettings {
    let names = InheritableNameOptions {
        and: Some(NameAnd::Text),
        et_al_min: Some(3),
        et_al_use_first: Some(1),
        ..InheritableNameOptions::default()
    };
    let citation_names = InheritableNameOptions {
        form: Some(NameForm::Short),
        ..InheritableNameOptions::default()
    };
    let bibliography_names = InheritableNameOptions {
        name_as_sort_order: Some(NameAsSortOrder::First),
        ..InheritableNameOptions::default()
    };
    StyleSettings {
        names,
        citation_names,
        bibliography_names,
        ..StyleSettings::default()
    }
}

/// The macro `creators`: the authors, or the directors if there are none.
fn creators(alloc: Global) -> Result<CslMacro, Error> {
    let directors = vec![in alloc; NameVariable::Director]?;
    let directors = vec![in alloc; Names::new(alloc, directors).into()]?;
    let instead = Substitute {
        children: directors,
    };
    let et_al = EtAl {
        formatting: Formatting::italic(),
        ..EtAl::default()
    };
    let children = vec![in alloc; Name::new(alloc).into(), et_al.into(), instead.into()]?;
    let authors = vec![in alloc; NameVariable::Author]?;
    let authors = Names {
        children,
        ..Names::new(alloc, authors)
    };
    let children = vec![in alloc; authors.into()]?;
    Ok(CslMacro::new(alloc, "creators", children)?)
}

/// The year of issue, or `n.d.` if no date is known.
fn year(alloc: Global) -> Result<LayoutRenderingElement, Error> {
    let parts = vec![in alloc; DatePart::new(DatePartName::Year)]?;
    let date = vec![in alloc; Date::new(DateVariable::Issued, parts).into()]?;
    let is_known = ChooseBranch {
        variable: Some(vec![in alloc; DateVariable::Issued.into()]?),
        ..ChooseBranch::new(date)
    };
    let no_date = Text::new(TextTarget::Term {
        term: OtherTerm::NoDate.into(),
        form: TermForm::Short,
        plural: false,
    });
    let choice = Choose {
        otherwise: Some(vec![in alloc; no_date.into()]?),
        ..Choose::new(alloc, is_known)
    };
    Ok(choice.into())
}

/// The title of a book in italics, and any other title in quotes.
fn title(alloc: Global) -> Result<LayoutRenderingElement, Error> {
    let italic = Text {
        formatting: Formatting::italic(),
        ..Text::variable(StandardVariable::Title.into())
    };
    let quoted = Text {
        quotes: true,
        ..Text::variable(StandardVariable::Title.into())
    };
    let italic = vec![in alloc; italic.into()]?;
    let quoted = vec![in alloc; quoted.into()]?;
    let is_book = ChooseBranch {
        type_: Some(vec![in alloc; Kind::Book]?),
        ..ChooseBranch::new(italic)
    };
    let choice = Choose {
        otherwise: Some(quoted),
        ..Choose::new(alloc, is_book)
    };
    Ok(choice.into())
}

/// The locator of a cite with its label, as `p. 5`. It is left out if the cite has none.
fn locator(alloc: Global) -> Result<LayoutRenderingElement, Error> {
    let label = Label::short(NumberVariable::Locator.into());
    let text = Text::variable(NumberVariable::Locator.into());
    let parts = vec![in alloc; label.into(), text.into()]?;
    Ok(Group::delimited(alloc, " ", parts)?.into())
}

/// The layout of cites, as `(Kernighan and Ritchie, 1978, p. 5)`.
fn citation(alloc: Global) -> Result<Layout, Error> {
    let creators = Text::macro_call(alloc, "creators")?;
    let year = year(alloc)?;
    let locator = locator(alloc)?;
    let parts = vec![in alloc; creators.into(), year, locator]?;
    let cite = Group {
        affixes: Affixes::around(alloc, "(", ")")?,
        ..Group::delimited(alloc, ", ", parts)?
    };
    Ok(Layout::new(vec![in alloc; cite.into()]?))
}

/// The layout of the bibliography: the creators, the year, the title and the publisher.
fn bibliography(alloc: Global) -> Result<Layout, Error> {
    let creators = Text::macro_call(alloc, "creators")?;
    let publisher = Text::variable(StandardVariable::Publisher.into());
    let year = year(alloc)?;
    let title = title(alloc)?;
    let parts = vec![in alloc; creators.into(), year, title, publisher.into()]?;
    let line = Group {
        affixes: Affixes::after(alloc, ".")?,
        ..Group::delimited(alloc, ", ", parts)?
    };
    Ok(Layout::new(vec![in alloc; line.into()]?))
}

/// A style as a parsed style file would be: settings, a macro, two layouts and a locale.
///
/// # Errors
/// [`Error::Memory`]: out of memory.
/// [`Error::Style`]: the style is rejected.
pub fn house_style(alloc: Global) -> Result<Style, Error> {
    let macros = vec![in alloc; creators(alloc)?]?;
    let locales = vec![in alloc; english(alloc)?]?;
    let citation = citation(alloc)?;
    let bibliography = bibliography(alloc)?;
    Ok(Style::new(
        alloc,
        settings(),
        macros,
        citation,
        Some(bibliography),
        locales,
    )?)
}

/// The first cite of an entry.
///
/// # Errors
/// [`Error::Memory`]: out of memory, here or in the entry.
pub fn cite<T: EntryLike>(alloc: Global, style: &Style, entry: &T) -> Result<ElemChildren, Error>
    ensures { IfOk result (λ content. tokens content
        ≡ cite_content style.now (T.answers entry.now)) }
{
    let first = CiteProperties::first(DisambiguateState::None);
    let rendered = csl::cite(alloc, style, entry, &first)?;
    Ok(rendered.content)
}

/// The cite of a page of an entry.
///
/// # Errors
/// [`Error::Memory`]: out of memory, here or in the entry.
pub fn page_cite<T: EntryLike>(
    alloc: Global,
    style: &Style,
    entry: &T,
    page: &str,
) -> Result<ElemChildren, Error>
    ensures { IfOk result (λ content. tokens content ≡ (whole_cite style.now scopes.Citation
        (cite_of_page page.now) (T.answers entry.now) style.now.citation).content) }
{
    let first = CiteProperties::first(DisambiguateState::None);
    let locator = SpecificLocator(Locator::Page, LocatorPayload::Str(page));
    let cite = CiteProperties {
        certain: first.certain,
        speculative: SpeculativeCiteProperties {
            locator: Some(locator),
            ..first.speculative
        },
    };
    let rendered = csl::cite(alloc, style, entry, &cite)?;
    Ok(rendered.content)
}

/// The line of an entry in the bibliography, if the style has one.
///
/// # Errors
/// [`Error::Memory`]: out of memory, here or in the entry.
pub fn bibliography_line<T: EntryLike>(
    alloc: Global,
    style: &Style,
    entry: &T,
) -> Result<Option<ElemChildren>, Error>
    ensures { IfOk result (λ line. option_map tokens line
        ≡ option_map (λ layout. (whole_cite style.now scopes.Bibliography
        (first_cite no_disambiguation)
        (T.answers entry.now) layout).content) style.now.bibliography) }
{
    let props = CiteProperties::first(DisambiguateState::None);
    match csl::bibliography_entry(alloc, style, entry, &props)? {
        Some(rendered) => Ok(Some(rendered.content)),
        None => Ok(None),
    }
}
