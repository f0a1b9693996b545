//! Sulleqti as one crate to import from: cites and reference lists by CSL 1.0.2.
//!
//! A style and its locale are values. Nodes, options and terms are in [`style`], a work and its
//! parts in [`literature`], the output tree in [`tree`]. [`cite`] and [`bibliography_entry`] render
//! an entry of any type that implements [`EntryLike`], and a [`Renderer`] does so within one limit
//! for a request. For a single node, [`context`] has the context and [`render`] the calls.
//! [`Language`] finds a locale by its tag, in the words of CSL's own; [`english`], [`german`],
//! [`spanish`] and eight more return one. The errors of all calls convert into [`Error`].
//! `docs/CALLING.md` has a whole program.
//!
//! An error that the docs of a call do not explain means out of memory.
#![tactic(auto)]

mod error;
mod renderer;

pub use csl_common::{Sink, TrackingFormatter, TrackingWriter};
pub use csl_context as context;
pub use csl_context::{Context, LeftState, RenderError, Rendered};
pub use csl_entry as entry;
pub use csl_entry::{
    Alphanumerical, CitationNumber, CiteProperties, DisambiguateState, DisambiguatedNameForm,
    EntryLike, InstanceContext, NameDisambiguationProperties, NoteNumber, Snapshot, Sorting,
    SpecialForm, same_answers,
};
pub use csl_languages::{
    Language, brazilian_portuguese, british_english, dutch, english, french, german, italian,
    japanese, polish, simplified_chinese, spanish,
};
pub use csl_names::{write_name, write_name_list};
pub use csl_render as render;
pub use csl_render::{
    Pair, RenderCsl, bibliography_entry, choose_children, cite, cite_in, cite_pair, cite_pair_with,
    render_pair, sort_key,
};
pub use csl_style as style;
pub use csl_style::{Locale, Scope, Style, StyleError, named_beside, named_by, named_by_tests};
pub use csl_tree as tree;
pub use csl_tree::{BufWriteFormat, ElemChildren, HtmlError, leaf_text_of_html};
pub use error::Error;
pub use lit_model as literature;
pub use lit_model::{Entry, Memory, NumericError, is_web_address};
pub use renderer::Renderer;
