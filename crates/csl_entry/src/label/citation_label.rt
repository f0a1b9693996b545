//! Alphanumerical labels of citations.

ghost use Rattle.std.specs.Prelude.{◌≡◌, ◌++◌, option_copied, option_map, string_bytes, IfOk, OnOk};
ghost use Rattle.lit_model.specs.Date.{date_view};
ghost use Rattle.lit_model.specs.Work.{own_of};
ghost use Rattle.csl_entry.specs.Creators.{creators_of};
ghost use Rattle.csl_entry.specs.CitationLabel as spec;

use crate::entry::visit_date;
use crate::label::creators::creators;
use lit_model::{Date, Entry, Memory};
use std::alloc::Global;
use std::fmt::Write;
use unicode::properties::is_alphabetic;
use unicode_segmentation::UnicodeSegmentation;

/// The rule for citation labels of letters and digits, such as `Kwa14` (CSL 1.0.2, Standard
/// Variables: citation-label).
#[derive(Clone, Copy, Debug, PartialEq, Eq, Hash)]
pub struct Alphanumerical {
    /// The most letters that a label takes from a sole creator, from the first of four or more, or
    /// from the text in place of creators. A letter is an extended grapheme cluster.
    pub letters: usize,
}

impl Default for Alphanumerical {
    ghost is_default = { λ a. a.letters ≡ 3 };

    fn default() -> Alphanumerical {
        Alphanumerical::new()
    }
}

impl Alphanumerical {
    /// The rule for labels of three letters.
    pub fn new() -> Alphanumerical
        ensures { result.letters ≡ 3 }
    {
        Alphanumerical { letters: 3 }
    }

    /// The label of an entry: letters of its creators, then its year in two digits or more.
    ///
    /// An untitled chapter or scene takes the label of the work that it is a part of. One creator
    /// gives the first letters of the name, and two or three give the first letter of each. Four or
    /// more give the first letters of the first one and `+`. Without creators the label has the
    /// first letters of the organization, else of the title, else of the alphabetic characters of
    /// the key. The year is that of the first date along the work and its parents, else that of the
    /// visit to the first address along them. The label has the year's last two digits, plus one if
    /// the year is 0 or less: year -99 gives `100`. Without a date there is no year.
    #[tactic(auto, using(crate::proofs::ShowSame::same_label))]
    pub fn citation(self, alloc: Global, entry: &Entry) -> Result<String, Memory>
        ensures value { IfOk result (λ s. string_bytes s ≡ spec.label self.letters entry.now) }

        // The label depends only on the fields of the entry and its parents (`works`).
        ensures shown { spec.LabelIsShown self.letters entry.now }
    {
        let work = entry.get_full();
        let mut label = String::new(alloc);
        self.push_creators(alloc, &mut label, work)?;
        push_year(&mut label, label_date(work))?;
        Ok(label)
    }

    fn push_creators(self, alloc: Global, label: &mut String, work: &Entry) -> Result<(), Memory>
        ensures { OnOk result (string_bytes label.new ≡ string_bytes label.old
            ++ spec.creators_part self.letters (spec.stand_in (own_of work.now))
            (creators_of work.now)) }
    {
        let creators = creators(alloc, work)?;
        match creators.as_slice() {
            [] => {
                let text = stand_in(alloc, work)?;
                push_letters(label, text.as_str(), self.letters)?;
            }
            [only] => push_letters(label, only.name.as_str(), self.letters)?,
            [one, other] => {
                push_letters(label, one.name.as_str(), 1)?;
                push_letters(label, other.name.as_str(), 1)?;
            }
            [first, second, third] => {
                push_letters(label, first.name.as_str(), 1)?;
                push_letters(label, second.name.as_str(), 1)?;
                push_letters(label, third.name.as_str(), 1)?;
            }
            [first, ..] => {
                push_letters(label, first.name.as_str(), self.letters)?;
                label.push('+')?;
            }
        }
        Ok(())
    }
}

/// Appends the first `count` letters of a text, or all if it has fewer.
fn push_letters(label: &mut String, text: &str, count: usize) -> Result<(), Memory>
    ensures { OnOk result (string_bytes label.new
        ≡ string_bytes label.old ++ spec.first_letters count text.now) }
{
    label.extend(text.graphemes(true).take(count))?;
    Ok(())
}

/// The text in place of creators: the organization, else the title, else the alphabetic characters
/// of the key.
fn stand_in(alloc: Global, work: &Entry) -> Result<String, Memory>
    ensures { IfOk result (λ s. string_bytes s ≡ spec.stand_in (own_of work.now)) }
{
    let text = match (&work.organization, &work.title) {
        (Some(organization), _) => organization.value.to_text(alloc)?,
        (None, Some(title)) => title.value.to_text(alloc)?,
        (None, None) => alphabetic_part(alloc, work.key.as_str())?,
    };
    Ok(text)
}

/// The alphabetic characters of a key.
fn alphabetic_part(alloc: Global, key: &str) -> Result<String, Memory>
    ensures { IfOk result (λ s. string_bytes s ≡ spec.alphabetic_part key.now) }
{
    let letters = key.chars().filter(|c| is_alphabetic(*c)).collect(alloc)?;
    Ok(letters)
}

/// The date from which a label takes its year.
fn label_date(work: &Entry) -> Option<&Date>
    ensures { option_copied result ≡ spec.label_date work.now }
{
    work.date_any().or(visit_date(work))
}

fn push_year(label: &mut String, date: Option<&Date>) -> Result<(), Memory>
    ensures { OnOk result (string_bytes label.new
        ≡ string_bytes label.old ++ spec.year_part (option_map date_view (option_copied
        date.entry))) }
{
    if let Some(date) = date {
        write!(label, "{:02}", year_number(date.year()))?;
    }
    Ok(())
}

/// The number of a year in a label: its last two digits, plus one if the year is 0 or less.
fn year_number(year: i32) -> u32
    ensures { result ≡ spec.year_number year }
{
    let number = (year % 100).unsigned_abs();
    if year <= 0 { number + 1 } else { number }
}
