//! An entry that is built by calls that chain, and its label.

ghost use Rattle.std.specs.Prelude.{◌≡◌, IfOk, string_bytes};
ghost use Rattle.csl.specs.Entry.CitationLabel.{label};
ghost use Rattle.csl_uses.specs.Book.{IsTheCBook};

use csl::literature::{Date, Entry, EntryType, Numeric, Person, Publisher};
use csl::{Alphanumerical, Error, Memory};
use std::alloc::Global;

/// The book `The C Programming Language`. Some fields are set, the others stay absent.
///
/// # Errors
/// [`Error::Memory`]: out of memory.
/// [`Error::DateOutOfRange`]: the month or the day is out of range.
/// [`Error::NotNumeric`]: the number of pages is not a number.
pub fn the_c_book(alloc: Global) -> Result<Entry, Error>
    ensures { IfOk result IsTheCBook }
{
    let kernighan = Person::new(alloc, "Kernighan", "Brian W.")?;
    let ritchie = Person::new(alloc, "Ritchie", "Dennis M.")?;
    // Months count from 0: this is February.
    let date = Date::new(1978, Some(1), None, None, false).ok_or(Error::DateOutOfRange)?;
    let authors = vec![in alloc; kernighan, ritchie]?;
    let publisher = Publisher::named(alloc, "Prentice Hall")?;
    let pages = Numeric::parse(alloc, "228")?;

    let title = "The C Programming Language";
    let book = Entry::titled(alloc, "the-c-book", EntryType::Book, title)?
        .with_authors(authors)
        .with_date(date)
        .with_publisher(publisher)
        .with_page_total(pages);
    Ok(book)
}

/// The label of an entry, with up to three letters of one name.
pub fn book_label(alloc: Global, book: &Entry) -> Result<String, Memory>
    ensures { IfOk result (λ made. string_bytes made ≡ label 3 book.now) }
{
    Alphanumerical::new().citation(alloc, book)
}
