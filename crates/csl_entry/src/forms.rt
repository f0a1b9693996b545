//! Forms of names that disambiguate cites.

pub(crate) mod form_list;
pub(crate) mod name_form;
pub(crate) mod name_properties;

pub use name_form::DisambiguatedNameForm;
pub use name_properties::NameDisambiguationProperties;
