//! Equality and hash of the parts of a work, and of whole works.
//! Definitions: crates/lit_model/specs/Person.antt, crates/lit_model/specs/Text.antt,
//! crates/lit_model/specs/Numeric.antt, crates/lit_model/specs/Page.antt,
//! crates/lit_model/specs/Source.antt, crates/lit_model/specs/Work.antt.

ghost use Rattle.std.specs.Prelude.{◌≡◌, ◌↔◌, IsTrue, option_copied, option_map};
ghost use Rattle.lit_model.specs.Date.{date_view};
ghost use Rattle.lit_model.specs.MaybeTyped.{maybe_view};
ghost use Rattle.lit_model.specs.Numeric.{numeric_view, value_view};
ghost use Rattle.lit_model.specs.Page.{pages_view, part_view};
ghost use Rattle.lit_model.specs.Person.{person_view, role_group, role_of};
ghost use Rattle.lit_model.specs.Source.{address_of, language_of, press_of, serials};
ghost use Rattle.lit_model.specs.Text.{chunk_of, chunks, format_string_view};
ghost use Rattle.lit_model.specs.Work.{spelled_works, works};
ghost use Rattle.lit_model.specs.contracts.numeric.NumericHash.TheImpl.{hash_input-value as hash_number};
ghost use Rattle.lit_model.specs.contracts.numeric.NumericValueHash.TheImpl.{hash_input-value as hash_value};
ghost use Rattle.lit_model.specs.contracts.page.PageRangesHash.TheImpl.{hash_input-value as hash_pages};
ghost use Rattle.lit_model.specs.contracts.page.PageRangesPartHash.TheImpl.{hash_input-value as hash_part};
ghost use Rattle.lit_model.specs.contracts.person.PersonHash.TheImpl.{hash_input-value as hash_person};
ghost use Rattle.url.specs.Canonical.{IsCanonical};
ghost use Rattle.url.specs.Parts.{serialize};

use lit_model::{
    ChunkedString, Clause, Entry, FormatString, LanguageIdentifier, MaybeTyped, Numeric,
    NumericValue, PageRanges, PageRangesPart, Person, PersonRole, PersonsWithRoles, Publisher,
    QualifiedUrl, SerialNumber, StringChunk,
};

/// Whether the persons are equal: exactly if their views are. Equal persons have the same hash.
#[tactic(auto, using(lit_model::proofs::PersonEqual::person_decides))]
pub fn same_person(a: &Person, b: &Person) -> bool
    ensures equal { IsTrue result ↔ (person_view a.now ≡ person_view b.now) }
    ensures hashed { person_view a.now ≡ person_view b.now
        → hash_person.it a.now ≡ hash_person.it b.now }
{
    *a == *b
}

/// Whether the roles are equal: exactly if their views are.
pub fn same_role(a: &PersonRole, b: &PersonRole) -> bool
    ensures { IsTrue result ↔ (role_of a.now ≡ role_of b.now) }
{
    *a == *b
}

/// Whether the persons with a role are equal: exactly if their views are.
#[tactic(auto, using(lit_model::proofs::PersonEqual::group_decides))]
pub fn same_group(a: &PersonsWithRoles, b: &PersonsWithRoles) -> bool
    ensures { IsTrue result ↔ (role_group a.now ≡ role_group b.now) }
{
    *a == *b
}

/// Whether the chunks are equal: exactly if their texts and kinds are.
pub fn same_chunk(a: &StringChunk, b: &StringChunk) -> bool
    ensures { IsTrue result ↔ (chunk_of a.now ≡ chunk_of b.now) }
{
    *a == *b
}

/// Whether the texts are equal: exactly if their chunks are.
#[tactic(auto, using(lit_model::proofs::TextEqual::chunks_decide))]
pub fn same_chunks(a: &ChunkedString, b: &ChunkedString) -> bool
    ensures { IsTrue result ↔ (chunks a.now ≡ chunks b.now) }
{
    *a == *b
}

/// Whether the texts with their short forms are equal: exactly if both forms are.
#[tactic(auto, using(lit_model::proofs::TextEqual::forms_decide))]
pub fn same_forms(a: &FormatString, b: &FormatString) -> bool
    ensures { IsTrue result ↔ (format_string_view a.now ≡ format_string_view b.now) }
{
    *a == *b
}

/// Whether the numbers are equal: exactly if their views are. Equal numbers have the same hash.
#[tactic(auto, using(lit_model::proofs::PageEqual::numeric_decides))]
pub fn same_number(a: &Numeric, b: &Numeric) -> bool
    ensures equal { IsTrue result ↔ (numeric_view a.now ≡ numeric_view b.now) }
    ensures hashed { numeric_view a.now ≡ numeric_view b.now
        → hash_number.it a.now ≡ hash_number.it b.now }
{
    *a == *b
}

/// Whether the numbers without their prefixes and suffixes are equal: exactly if their views are.
/// Equal ones have the same hash.
#[tactic(auto, using(lit_model::proofs::Equal::value_decides))]
pub fn same_value(a: &NumericValue, b: &NumericValue) -> bool
    ensures equal { IsTrue result ↔ (value_view a.now ≡ value_view b.now) }
    ensures hashed { value_view a.now ≡ value_view b.now
        → hash_value.it a.now ≡ hash_value.it b.now }
{
    *a == *b
}

/// Whether the pages are equal: exactly if their views are. Equal pages have the same hash.
#[tactic(auto, using(lit_model::proofs::MaybeEqual::pages_decide))]
pub fn same_pages(a: &PageRanges, b: &PageRanges) -> bool
    ensures equal { IsTrue result ↔ (pages_view a.now ≡ pages_view b.now) }
    ensures hashed { pages_view a.now ≡ pages_view b.now
        → hash_pages.it a.now ≡ hash_pages.it b.now }
{
    *a == *b
}

/// Whether the parts of pages are equal: exactly if their views are. Equal parts have the same
/// hash.
#[tactic(auto, using(lit_model::proofs::PageEqual::part_decides))]
pub fn same_part(a: &PageRangesPart, b: &PageRangesPart) -> bool
    ensures equal { IsTrue result ↔ (part_view a.now ≡ part_view b.now) }
    ensures hashed { part_view a.now ≡ part_view b.now → hash_part.it a.now ≡ hash_part.it b.now }
{
    *a == *b
}

/// Whether the values are equal: exactly if both are the same number or both are the same text.
pub fn same_number_or_text(a: &MaybeTyped<Numeric>, b: &MaybeTyped<Numeric>) -> bool
    ensures { IsTrue result ↔ (maybe_view numeric_view a.now ≡ maybe_view numeric_view b.now) }
{
    *a == *b
}

/// Whether the pages or texts are equal: exactly if their views are.
pub fn same_pages_or_text(a: &MaybeTyped<PageRanges>, b: &MaybeTyped<PageRanges>) -> bool
    ensures { IsTrue result ↔ (maybe_view pages_view a.now ≡ maybe_view pages_view b.now) }
{
    *a == *b
}

/// Whether the publishers are equal: exactly if their texts are.
#[tactic(auto, using(lit_model::proofs::SourceEqual::press_decides))]
pub fn same_publisher(a: &Publisher, b: &Publisher) -> bool
    ensures { IsTrue result ↔ (press_of a.now ≡ press_of b.now) }
{
    *a == *b
}

/// Whether the addresses are equal: exactly if their texts and dates are. If both are as the parser
/// returns them, they are equal exactly if their parts and dates are. After a setter, two addresses
/// can have the same text and hosts of different kinds.
#[tactic(auto, using(lit_model::proofs::SourceEqual::url_decides, lit_model::proofs::SourceEqual::address_decides))]
pub fn same_url(a: &QualifiedUrl, b: &QualifiedUrl) -> bool
    ensures texts { IsTrue result
        ↔ (serialize a.now.value ≡ serialize b.now.value)
        × (option_map date_view a.now.visit_date ≡ option_map date_view b.now.visit_date) }
    ensures parts { IsCanonical a.now.value
        → IsCanonical b.now.value
        → (IsTrue result ↔ (address_of a.now ≡ address_of b.now)) }
{
    // Reading the text of an address gives the prover that the address is valid.
    let _text = a.value.as_str();
    let _other = b.value.as_str();
    *a == *b
}

/// Whether the serial numbers are equal: exactly if they are the same numbers under the same
/// schemes.
#[tactic(auto, using(lit_model::proofs::SourceEqual::serials_decide))]
pub fn same_serials(a: &SerialNumber, b: &SerialNumber) -> bool
    ensures { IsTrue result ↔ (serials a.now ≡ serials b.now) }
{
    *a == *b
}

/// Whether the languages are equal: exactly if their texts are.
pub fn same_language(a: &LanguageIdentifier, b: &LanguageIdentifier) -> bool
    ensures { IsTrue result ↔ (language_of a.now ≡ language_of b.now) }
{
    *a == *b
}

/// Whether the clauses are equal: exactly if they have the same types, fields and parent types, in
/// the same order, and the same selection.
pub fn same_clause(a: &Clause<'_>, b: &Clause<'_>) -> bool
    ensures { IsTrue result ↔ ((a.now.own.now ≡ b.now.own.now)
        × (a.now.fields.now ≡ b.now.fields.now)
        × (option_copied a.now.parent ≡ option_copied b.now.parent)
        × (a.now.bind ≡ b.now.bind)) }
{
    *a == *b
}

/// Whether the entries are equal: exactly if all fields of each entry and of its parents are equal,
/// with addresses compared by text. Entries with equal views (`works`) are equal.
#[tactic(auto, using(lit_model::proofs::EntryEqual::entries_decide, lit_model::proofs::EntryEqual::shown_spelled))]
pub fn same_entry(a: &Entry, b: &Entry) -> bool
    ensures spelled { IsTrue result ↔ (spelled_works a.now ≡ spelled_works b.now) }
    ensures shown { works a.now ≡ works b.now → IsTrue result }
{
    *a == *b
}
