//! A caller's own type as an entry. Its answers are defined once, in `specs/Film.antt`.

ghost use Rattle.std.specs.Prelude.{◌≡◌, IfOk, string_bytes};
ghost use Rattle.csl_uses.specs.Film as spec;
ghost use Rattle.csl_uses.specs.Film.{answers_of};

use csl::literature::{
    ChunkedString, Date, LongShortForm, MaybeTyped, Numeric, PageRanges, Person,
};
use csl::style::{
    DateVariable, Kind, NameVariable, NumberVariable, PageVariable, StandardVariable,
};
use csl::{EntryLike, Error, Memory};
use std::alloc::Global;
use std::borrow::{Cow, CowStr};

/// A film in a catalogue.
#[derive(Drop)]
pub struct Film {
    /// The key in the catalogue.
    pub key: String,
    /// The title.
    pub title: ChunkedString,
    /// The director.
    pub director: Person,
    /// The date of the first showing.
    pub shown: Date,
}

impl EntryLike for Film {
    ghost use Rattle.std.specs.Prelude.{None};

    ghost answers = { answers_of };

    ghost key_text = { λ film. string_bytes film.key };

    ghost english = { λ _. None };

    fn resolve_number_variable(
        &self,
        _alloc: Global,
        _variable: NumberVariable,
    ) -> Result<Option<MaybeTyped<Cow<'_, Numeric>>>, Memory> {
        Ok(None)
    }

    fn resolve_page_variable(
        &self,
        _alloc: Global,
        _variable: PageVariable,
    ) -> Result<Option<MaybeTyped<PageRanges>>, Memory> {
        Ok(None)
    }

    fn resolve_standard_variable(
        &self,
        _alloc: Global,
        _form: LongShortForm,
        variable: StandardVariable,
    ) -> Result<Option<Cow<'_, ChunkedString>>, Memory> {
        match variable {
            StandardVariable::Title => Ok(Some(Cow::Borrowed(&self.title))),
            _ => Ok(None),
        }
    }

    fn resolve_name_variable(
        &self,
        alloc: Global,
        variable: NameVariable,
    ) -> Result<Vec<Cow<'_, Person>>, Memory> {
        match variable {
            NameVariable::Director => {
                let persons = vec![in alloc; Cow::Borrowed(&self.director)]?;
                Ok(persons)
            }
            _ => Ok(Vec::new(alloc)),
        }
    }

    fn resolve_date_variable(
        &self,
        _alloc: Global,
        variable: DateVariable,
    ) -> Result<Option<Cow<'_, Date>>, Memory> {
        let date = match variable {
            DateVariable::Issued => Some(&self.shown),
            _ => None,
        };
        Ok(date.map(Cow::Borrowed))
    }

    fn matches_entry_type(&self, kind: Kind) -> bool {
        matches!(kind, Kind::MotionPicture)
    }

    fn is_english(&self) -> Option<bool> {
        None
    }

    fn key(&self) -> CowStr<'_, Global> {
        CowStr::Borrowed(self.key.as_str())
    }
}

/// The film `Metropolis`.
///
/// # Errors
/// [`Error::Memory`]: out of memory.
/// [`Error::DateOutOfRange`]: the month or the day is out of range.
pub fn metropolis(alloc: Global) -> Result<Film, Error>
    ensures { IfOk result spec.IsMetropolis }
{
    // Months and days count from 0: this is the tenth of January.
    let shown = Date::new(1927, Some(0), Some(9), None, false).ok_or(Error::DateOutOfRange)?;
    Ok(Film {
        key: String::from_str(alloc, "metropolis")?,
        title: ChunkedString::plain(alloc, "Metropolis")?,
        director: Person::new(alloc, "Lang", "Fritz")?,
        shown,
    })
}

/// The title of an entry of any type, with its pieces joined. It is empty if the entry has none.
pub fn title_of<T: EntryLike>(alloc: Global, entry: &T) -> Result<String, Memory>
    ensures { IfOk result (λ title. string_bytes title ≡ spec.title_of (T.answers entry.now)) }
{
    let long = LongShortForm::Long;
    match entry.resolve_standard_variable(alloc, long, StandardVariable::Title)? {
        Some(title) => title.as_ref().to_text(alloc),
        None => Ok(String::new(alloc)),
    }
}
