//! The locale of the built-in styles.

ghost use Rattle.std.specs.Prelude.{◌≡◌, ◌++◌, IfOk, map};
ghost use Rattle.csl_elements.specs.Locale.{term_view, ordinal_view};
ghost use Rattle.csl_samples.specs.English as spec;

use csl_style::{
    Locale, NumberVariable, OrdinalSlot, OrdinalTerm, OtherTerm, PageVariable, Term, TermEntry,
    TermForm,
};
use lit_model::Memory;
use std::alloc::Global;

/// The terms with one text.
static WORDS: [(OtherTerm, &str); 19] = [
    (OtherTerm::And, "and"),
    (OtherTerm::EtAl, "et al."),
    (OtherTerm::PageRangeDelimiter, "–"),
    (OtherTerm::OpenQuote, "“"),
    (OtherTerm::CloseQuote, "”"),
    (OtherTerm::OpenInnerQuote, "‘"),
    (OtherTerm::CloseInnerQuote, "’"),
    (OtherTerm::Month(0), "January"),
    (OtherTerm::Month(1), "February"),
    (OtherTerm::Month(2), "March"),
    (OtherTerm::Month(3), "April"),
    (OtherTerm::Month(4), "May"),
    (OtherTerm::Month(5), "June"),
    (OtherTerm::Month(6), "July"),
    (OtherTerm::Month(7), "August"),
    (OtherTerm::Month(8), "September"),
    (OtherTerm::Month(9), "October"),
    (OtherTerm::Month(10), "November"),
    (OtherTerm::Month(11), "December"),
];

static ORDINALS: [(OrdinalSlot, &str); 7] = [
    (OrdinalSlot::Default, "th"),
    (OrdinalSlot::Two(1), "st"),
    (OrdinalSlot::Two(2), "nd"),
    (OrdinalSlot::Two(3), "rd"),
    (OrdinalSlot::Two(11), "th"),
    (OrdinalSlot::Two(12), "th"),
    (OrdinalSlot::Two(13), "th"),
];

fn word_rows() -> &'static [(OtherTerm, &'static str)]
    ensures { map spec.word_of_row result.now ≡ spec.english_words }
{
    &WORDS
}

fn ordinal_rows() -> &'static [(OrdinalSlot, &'static str)]
    ensures { map spec.ordinal_of_row result.now ≡ spec.english_ordinals }
{
    &ORDINALS
}

/// The term entries of [`WORDS`].
fn words(alloc: Global) -> Result<Vec<TermEntry>, Memory>
    ensures { IfOk result (λ made. map term_view made.items ≡ spec.english_words) }
{
    let mut terms = Vec::new(alloc);
    for row in word_rows() {
        let term = Term::Other(row.0);
        terms.push(TermEntry::new(alloc, term, TermForm::Long, row.1)?)?;
    }
    Ok(terms)
}

/// The terms for pages and volumes, for one and for several, in the long and the short form.
fn counted_terms(alloc: Global) -> Result<Vec<TermEntry>, Memory>
    ensures { IfOk result (λ made. map term_view made.items ≡ spec.english_counted) }
{
    let page = Term::Page(PageVariable::Page);
    let volume = Term::Number(NumberVariable::Volume);
    let pages = TermEntry::counted(alloc, page, TermForm::Long, "page", "pages")?;
    let short_pages = TermEntry::counted(alloc, page, TermForm::Short, "p.", "pp.")?;
    let volumes = TermEntry::counted(alloc, volume, TermForm::Long, "volume", "volumes")?;
    let short_volumes = TermEntry::counted(alloc, volume, TermForm::Short, "vol.", "vols.")?;
    let terms = vec![in alloc; pages, short_pages, volumes, short_volumes]?;
    Ok(terms)
}

fn terms(alloc: Global) -> Result<Vec<TermEntry>, Memory>
    ensures { IfOk result (λ made. map term_view made.items
        ≡ spec.english_words ++ spec.english_counted) }
{
    let mut terms = words(alloc)?;
    let mut counted = counted_terms(alloc)?;
    terms.append(&mut counted)?;
    Ok(terms)
}

/// An ordinal without a gender.
fn ordinal(alloc: Global, slot: OrdinalSlot, text: &str) -> Result<OrdinalTerm, Memory>
    ensures { IfOk result (λ made. ordinal_view made ≡ spec.ordinal slot text.now) }
{
    Ok(OrdinalTerm {
        slot,
        matching: None,
        gender: None,
        text: String::from_str(alloc, text)?,
    })
}

fn ordinals(alloc: Global) -> Result<Vec<OrdinalTerm>, Memory>
    ensures { IfOk result (λ made. map ordinal_view made.items ≡ spec.english_ordinals) }
{
    let mut ordinals = Vec::new(alloc);
    for row in ordinal_rows() {
        ordinals.push(ordinal(alloc, row.0, row.1)?)?;
    }
    Ok(ordinals)
}

/// The English locale of the built-in styles.
pub fn english(alloc: Global) -> Result<Locale, Memory>
    ensures { IfOk result spec.IsEnglish }
{
    Ok(Locale {
        terms: terms(alloc)?,
        ordinals: ordinals(alloc)?,
        punctuation_in_quote: true,
        ..Locale::new(alloc)
    })
}
