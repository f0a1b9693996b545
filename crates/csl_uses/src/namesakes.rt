//! Two persons with one family name. The cites of their works are disambiguated by given names.
//! Definitions: crates/csl_render/specs/Cites.antt, crates/csl_entry/specs/Cite.antt.

ghost use Rattle.std.specs.Prelude.{◌≡◌, IfOk, string_bytes};
ghost use Rattle.csl.specs.Style.declared.style.settings.Scope.TheVariants as scopes;
ghost use Rattle.csl.specs.Tree.declared.elem.BufWriteFormat.TheVariants as formats;
ghost use Rattle.csl.specs.Tree.Write.{text_in_format};
ghost use Rattle.csl.specs.Entry.Cite.{first_cite, disambiguation_of};
ghost use Rattle.csl.specs.Render.Cites.{whole_cite};

use csl::literature::{self, Entry, EntryType, Person};
use csl::style::{
    Affixes, Date, DatePart, DatePartName, DateVariable, Group, InheritableNameOptions, Layout,
    LayoutRenderingElement, Name, NameForm, NameVariable, Names, Style, StyleSettings,
};
use csl::{
    BufWriteFormat, CiteProperties, DisambiguateState, EntryLike, Error,
    NameDisambiguationProperties, Rendered, english,
};
use std::alloc::Global;

/// A book of 2014 by a Miller with this given name. The given name is also the book's key.
pub fn book_by_miller(alloc: Global, given_name: &str) -> Result<Entry, Error> {
    let authors = vec![in alloc; Person::new(alloc, "Miller", given_name)?]?;
    let book = Entry::new(alloc, given_name, EntryType::Book)?
        .with_authors(authors)
        .with_date(literature::Date::of_year(2014));
    Ok(book)
}

/// The family names of the authors. Disambiguation adds the given name, first as an initial.
fn short_names(alloc: Global) -> Result<LayoutRenderingElement, Error> {
    let authors = vec![in alloc; NameVariable::Author]?;
    let initial = String::from_str(alloc, ". ")?;
    let options = InheritableNameOptions {
        form: Some(NameForm::Short),
        initialize_with: Some(initial),
        ..InheritableNameOptions::default()
    };
    let name = Name {
        options,
        ..Name::new(alloc)
    };
    let children = vec![in alloc; name.into()]?;
    let names = Names {
        children,
        ..Names::new(alloc, authors)
    };
    Ok(names.into())
}

/// The names and the year of issue, in parentheses.
fn names_and_year(alloc: Global) -> Result<LayoutRenderingElement, Error> {
    let year = vec![in alloc; DatePart::new(DatePartName::Year)]?;
    let names = short_names(alloc)?;
    let parts = vec![in alloc; names, Date::new(DateVariable::Issued, year).into()]?;
    let affixes = Affixes::around(alloc, "(", ")")?;
    let cite = Group {
        affixes,
        ..Group::delimited(alloc, ", ", parts)?
    };
    Ok(cite.into())
}

/// A style that cites as `(Miller, 2014)`. A disambiguated cite is `(A. Miller, 2014)` or
/// `(Anna Miller, 2014)`.
///
/// # Errors
/// [`Error::Memory`]: out of memory.
/// [`Error::Style`]: the style is rejected.
pub fn short_style(alloc: Global) -> Result<Style, Error> {
    let citation = vec![in alloc; names_and_year(alloc)?]?;
    let locales = vec![in alloc; english(alloc)?]?;
    let settings = StyleSettings::default();
    Ok(Style::new(
        alloc,
        settings,
        Vec::new(alloc),
        Layout::new(citation),
        None,
        locales,
    )?)
}

/// The text of a cite, and the forms of the names that it printed first.
#[derive(Drop)]
pub struct Cite {
    /// The text.
    pub text: String,
    /// The forms of the names, if it printed any.
    pub names: Option<NameDisambiguationProperties>,
}

/// The cite of an entry with this disambiguation.
fn cite_by<T: EntryLike>(
    alloc: Global,
    style: &Style,
    entry: &T,
    told_apart: DisambiguateState,
) -> Result<Cite, Error>
    ensures { IfOk result (λ cite. string_bytes cite.text ≡ text_in_format formats.Plain
        (whole_cite style.now scopes.Citation (first_cite (disambiguation_of told_apart))
        (T.answers entry.now) style.now.citation).content) }
{
    let first = CiteProperties::first(told_apart);
    let Rendered { content, state } = csl::cite(alloc, style, entry, &first)?;
    Ok(Cite {
        text: content.to_text(alloc, BufWriteFormat::Plain)?,
        names: state.first_names,
    })
}

/// The cite with more of the first author's name, if there is more: first the initials, then the
/// given name.
fn fuller_cite<T: EntryLike>(
    alloc: Global,
    style: &Style,
    entry: &T,
    cite: Cite,
) -> Result<Cite, Error> {
    let Cite { text, names } = cite;
    let Some(mut names) = names else {
        return Ok(Cite { text, names: None });
    };
    if names.can_disambiguate(NameVariable::Author, &[0]) {
        names.disambiguate_list(NameVariable::Author, &[0]);
    }
    let told_apart = DisambiguateState::NameDisambiguation(names);
    cite_by(alloc, style, entry, told_apart)
}

/// The cites of two entries. If they are equal, both show more of their first author's name, in at
/// most two steps.
///
/// # Errors
/// [`Error::Memory`]: out of memory, here or in an entry.
pub fn cites_apart<T: EntryLike, U: EntryLike>(
    alloc: Global,
    style: &Style,
    left: &T,
    right: &U,
) -> Result<(Cite, Cite), Error> {
    let mut one = cite_by(alloc, style, left, DisambiguateState::None)?;
    let mut other = cite_by(alloc, style, right, DisambiguateState::None)?;
    for _step in 0..2 {
        if one.text == other.text {
            one = fuller_cite(alloc, style, left, one)?;
            other = fuller_cite(alloc, style, right, other)?;
        }
    }
    Ok((one, other))
}
