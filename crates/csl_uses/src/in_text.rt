//! Cites in the running text, as `Kwan (2014)`.
//! Definitions: specs/Cite.antt.

ghost use Rattle.std.specs.Prelude.{◌≡◌, IfOk, string_bytes};
ghost use Rattle.csl_uses.specs.Cite as spec;

use csl::style::{
    CslMacro, Date, DatePart, DatePartName, DateVariable, Group, InheritableNameOptions, Layout,
    NameAnd, NameForm, NameVariable, Names, Style, StyleSettings, Text,
};
use csl::{
    BufWriteFormat, CiteProperties, DisambiguateState, EntryLike, Error, SpecialForm, english,
};
use std::alloc::Global;

/// The macro `author-year`: the authors and the year of issue, as `Kwan, 2014`.
fn author_year(alloc: Global) -> Result<CslMacro, Error> {
    let names = Names::new(alloc, vec![in alloc; NameVariable::Author]?);
    let year = vec![in alloc; DatePart::new(DatePartName::Year)]?;
    let year = Date::new(DateVariable::Issued, year);
    let parts = vec![in alloc; names.into(), year.into()]?;
    let group = Group::delimited(alloc, ", ", parts)?;
    let children = vec![in alloc; group.into()]?;
    Ok(CslMacro::new(alloc, "author-year", children)?)
}

/// A layout that calls the macro `author-year`.
fn calling_author_year(alloc: Global) -> Result<Layout, Error> {
    let call = Text::macro_call(alloc, "author-year")?;
    Ok(Layout::new(vec![in alloc; call.into()]?))
}

/// A style that cites as `Kwan, 2014`, by family names. The caller writes the parentheses.
///
/// # Errors
/// [`Error::Memory`]: out of memory.
/// [`Error::Style`]: the style is rejected.
pub fn bare_style(alloc: Global) -> Result<Style, Error> {
    let citation_names = InheritableNameOptions {
        form: Some(NameForm::Short),
        ..InheritableNameOptions::default()
    };
    let names = InheritableNameOptions {
        and: Some(NameAnd::Text),
        ..InheritableNameOptions::default()
    };
    let settings = StyleSettings {
        names,
        citation_names,
        ..StyleSettings::default()
    };
    let macros = vec![in alloc; author_year(alloc)?]?;
    let locales = vec![in alloc; english(alloc)?]?;
    let citation = calling_author_year(alloc)?;
    Ok(Style::new(alloc, settings, macros, citation, None, locales)?)
}

/// The plain text of the first cite of an entry in a special form.
fn part_of_cite<T: EntryLike>(
    alloc: Global,
    style: &Style,
    entry: &T,
    form: SpecialForm,
) -> Result<String, Error>
    ensures { IfOk result (λ text. string_bytes text ≡ spec.part_of_cite style.now form
        (T.answers entry.now)) }
{
    let first = CiteProperties::first(DisambiguateState::None);
    let part = csl::cite_in(alloc, style, entry, &first, form)?;
    Ok(part.content.to_text(alloc, BufWriteFormat::Plain)?)
}

/// The cite of an entry in the running text: its authors, and the rest of the cite in parentheses.
///
/// # Errors
/// [`Error::Memory`]: out of memory, here or in the entry.
pub fn cite_in_text<T: EntryLike>(alloc: Global, style: &Style, entry: &T) -> Result<String, Error>
    ensures { IfOk result (λ text. string_bytes text
        ≡ spec.in_text style.now (T.answers entry.now)) }
{
    let authors = SpecialForm::VarOnly(NameVariable::Author.into());
    let authors = part_of_cite(alloc, style, entry, authors)?;
    let rest = part_of_cite(alloc, style, entry, SpecialForm::SuppressAuthor)?;
    Ok(format!(in alloc; "{authors} ({rest})")?)
}
