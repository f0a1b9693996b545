//! Locales made of tables (CSL 1.0.2, Locale).
//! Definitions: specs/Contents.antt.

ghost use Rattle.std.specs.Prelude.{◌≡◌, IfOk, map};
ghost use Rattle.csl_elements.specs.Locale.{term_view, ordinal_view};
ghost use Rattle.csl_elements.specs.View.{view_date, view_date_part};
ghost use Rattle.csl_elements.specs.declared.date.DateForm.TheVariants.{Numeric, Text};
ghost use Rattle.csl_languages.specs.Contents.{HasContents, contents_of_tables, date_of_rows};
ghost use Rattle.csl_languages.specs.Contents.{date_part_of_row, gendered_term_of_row, ordinal_of_row};
ghost use Rattle.csl_languages.specs.Contents.{term_of_row, term_of_word};

use crate::words::{DatePartRow, GenderedTermRow, OrdinalRow, Tables, TermRow, WordRow};
use csl_common::Memory;
use csl_elements::{
    Affixes, Date, DateForm, DatePart, Locale, OrdinalTerm, Term, TermEntry, TermForm,
};
use std::alloc::Global;

/// The term of a word.
fn word_term(alloc: Global, row: &WordRow) -> Result<TermEntry, Memory>
    ensures { IfOk result (λ made. term_view made ≡ term_of_word row.now) }
{
    let mut entry = TermEntry::new(alloc, Term::Other(row.0), row.1, row.2)?;
    entry.gender = row.3;
    Ok(entry)
}

/// The terms of words.
fn word_terms(alloc: Global, rows: &[WordRow]) -> Result<Vec<TermEntry>, Memory>
    ensures { IfOk result (λ made. map term_view made.items ≡ map term_of_word rows.now) }
{
    let mut terms = Vec::new(alloc);
    for row in rows {
        terms.push(word_term(alloc, row)?)?;
    }
    Ok(terms)
}

/// The term of a row.
fn term(alloc: Global, row: &TermRow) -> Result<TermEntry, Memory>
    ensures { IfOk result (λ made. term_view made ≡ term_of_row row.now) }
{
    match row.3 {
        Some(several) => TermEntry::counted(alloc, row.0, row.1, row.2, several),
        None => TermEntry::new(alloc, row.0, row.1, row.2),
    }
}

/// The terms of rows.
fn terms(alloc: Global, rows: &[TermRow]) -> Result<Vec<TermEntry>, Memory>
    ensures { IfOk result (λ made. map term_view made.items ≡ map term_of_row rows.now) }
{
    let mut terms = Vec::new(alloc);
    for row in rows {
        terms.push(term(alloc, row)?)?;
    }
    Ok(terms)
}

/// The term of a row with a gender.
fn gendered_term(alloc: Global, row: &GenderedTermRow) -> Result<TermEntry, Memory>
    ensures { IfOk result (λ made. term_view made ≡ gendered_term_of_row row.now) }
{
    let mut entry = term(alloc, &(row.0, TermForm::Long, row.2, row.3))?;
    entry.gender = Some(row.1);
    Ok(entry)
}

/// The terms of rows with a gender.
fn gendered_terms(alloc: Global, rows: &[GenderedTermRow]) -> Result<Vec<TermEntry>, Memory>
    ensures { IfOk result (λ made. map term_view made.items ≡ map gendered_term_of_row rows.now) }
{
    let mut terms = Vec::new(alloc);
    for row in rows {
        terms.push(gendered_term(alloc, row)?)?;
    }
    Ok(terms)
}

/// The ordinal of a row.
fn ordinal(alloc: Global, row: &OrdinalRow) -> Result<OrdinalTerm, Memory>
    ensures { IfOk result (λ made. ordinal_view made ≡ ordinal_of_row row.now) }
{
    Ok(OrdinalTerm {
        slot: row.0,
        matching: row.1,
        gender: row.2,
        text: String::from_str(alloc, row.3)?,
    })
}

/// The ordinals of rows.
fn ordinals(alloc: Global, rows: &[OrdinalRow]) -> Result<Vec<OrdinalTerm>, Memory>
    ensures { IfOk result (λ made. map ordinal_view made.items ≡ map ordinal_of_row rows.now) }
{
    let mut ordinals = Vec::new(alloc);
    for row in rows {
        ordinals.push(ordinal(alloc, row)?)?;
    }
    Ok(ordinals)
}

/// The part of a date of a row.
fn date_part(alloc: Global, row: &DatePartRow) -> Result<DatePart, Memory>
    ensures { IfOk result (λ part. view_date_part part ≡ date_part_of_row row.now) }
{
    let affixes = match (row.2, row.3) {
        (Some(prefix), Some(suffix)) => Affixes::around(alloc, prefix, suffix)?,
        (Some(prefix), None) => Affixes::before(alloc, prefix)?,
        (None, Some(suffix)) => Affixes::after(alloc, suffix)?,
        (None, None) => Affixes::default(),
    };
    Ok(DatePart {
        form: row.1,
        affixes,
        ..DatePart::new(row.0)
    })
}

/// The date of this form with the parts of rows.
fn date(alloc: Global, form: DateForm, rows: &[DatePartRow]) -> Result<Date, Memory>
    ensures { IfOk result (λ date. view_date date ≡ date_of_rows form rows.now) }
{
    let mut parts = Vec::new(alloc);
    for row in rows {
        parts.push(date_part(alloc, row)?)?;
    }
    Ok(Date::localized(form, parts))
}

/// The locale that tables hold.
pub(crate) fn locale(alloc: Global, tables: &Tables) -> Result<Locale, Memory>
    ensures { IfOk result (HasContents (contents_of_tables tables.now)) }
{
    let mut all = word_terms(alloc, tables.words)?;
    all.append(&mut terms(alloc, tables.terms)?)?;
    all.append(&mut gendered_terms(alloc, tables.gendered_terms)?)?;
    let ordinals = ordinals(alloc, tables.ordinals)?;
    let numeric = date(alloc, DateForm::Numeric, tables.numeric_date)?;
    let text = date(alloc, DateForm::Text, tables.text_date)?;
    Ok(Locale {
        terms: all,
        ordinals,
        dates: vec![in alloc; numeric, text]?,
        punctuation_in_quote: tables.punctuation_in_quote,
        limit_day_ordinals_to_day_1: tables.limit_day_ordinals_to_day_1,
    })
}
