//! Labels of entries: the citation label, and the creators that it is made from.

pub(crate) mod citation_label;
pub(crate) mod creators;

pub use citation_label::Alphanumerical;
