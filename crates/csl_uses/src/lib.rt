//! Examples of the crates `csl`, `csl_list` and `csl_finish`, to read and copy.
//! `tools/works/src/uses.rs` calls each, and `tools/works/uses.stdout` has what they make.
//!
//! - `book`: an entry that is built field by field, and its label;
//! - `film`: a caller's own type as an entry;
//! - `cite`: a style that is built as a value, its cites and its bibliography;
//! - `missing`: the first word that a style lacks for its cites;
//! - `in_text`: cites in the running text;
//! - `halves`: the halves of such a cite, each with what it tells;
//! - `namesakes`: cites that are disambiguated by more of their names;
//! - `list`: a reference list that renders again only the lines that change;
//! - `by_snapshot`: cites and sort keys from snapshots in place of works;
//! - `by_date`: works in the order of their dates;
//! - `document`: the citations and the bibliography of a document;
//! - `pair`: two entries of two types, and whether they are alike for a style;
//! - `page`: a reference list as a whole web page, or lines with links to given hosts alone.
//!
//! An error that the docs of a call do not explain means out of memory.
#![tactic(auto)]

pub mod book;
pub mod by_date;
pub mod by_snapshot;
pub mod cite;
pub mod document;
pub mod film;
pub mod halves;
pub mod in_text;
pub mod list;
pub mod missing;
pub mod namesakes;
pub mod page;
pub mod pair;
