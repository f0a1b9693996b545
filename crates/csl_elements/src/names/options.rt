//! The options of names. A node inherits each option that it does not set (CSL 1.0.2, Inheritable
//! Name Options).

ghost use Rattle.std.specs.Prelude.{◌≡◌};
ghost use Rattle.csl_elements.specs.NamesOptions as spec;

use crate::names::{DelimiterBehavior, NameAnd, NameAsSortOrder, NameForm};

/// The options that a node or a style sets. The others are inherited.
#[derive(Default, Drop)]
pub struct InheritableNameOptions {
    pub and: Option<NameAnd>,
    pub delimiter: Option<String>,
    pub delimiter_precedes_et_al: Option<DelimiterBehavior>,
    pub delimiter_precedes_last: Option<DelimiterBehavior>,
    pub et_al_min: Option<u32>,
    pub et_al_use_first: Option<u32>,
    pub et_al_subsequent_min: Option<u32>,
    pub et_al_subsequent_use_first: Option<u32>,
    pub et_al_use_last: Option<bool>,
    pub form: Option<NameForm>,
    pub initialize: Option<bool>,
    pub initialize_with: Option<String>,
    pub name_as_sort_order: Option<NameAsSortOrder>,
    pub sort_separator: Option<String>,
    /// The text between the lists of two variables.
    pub names_delimiter: Option<String>,
}

impl InheritableNameOptions {
    /// Returns the options that are set here, borrowed.
    pub fn as_inherited(&self) -> InheritedNameOptions<'_>
        ensures { spec.inherited_options result ≡ spec.partial_options self.now }
    {
        InheritedNameOptions {
            and: self.and,
            delimiter: self.delimiter.as_deref(),
            delimiter_precedes_et_al: self.delimiter_precedes_et_al,
            delimiter_precedes_last: self.delimiter_precedes_last,
            et_al_min: self.et_al_min,
            et_al_use_first: self.et_al_use_first,
            et_al_subsequent_min: self.et_al_subsequent_min,
            et_al_subsequent_use_first: self.et_al_subsequent_use_first,
            et_al_use_last: self.et_al_use_last,
            form: self.form,
            initialize: self.initialize,
            initialize_with: self.initialize_with.as_deref(),
            name_as_sort_order: self.name_as_sort_order,
            sort_separator: self.sort_separator.as_deref(),
            names_delimiter: self.names_delimiter.as_deref(),
        }
    }

    /// Returns the options over others: each one that is set here, else that of `base`.
    pub fn apply<'s>(&'s self, base: InheritedNameOptions<'s>) -> InheritedNameOptions<'s>
        ensures { spec.inherited_options result
            ≡ spec.apply_options (spec.partial_options self.now) (spec.inherited_options base.entry) }
    {
        self.as_inherited().or(base)
    }
}

/// The options that a node inherits, each set or not. The texts are borrowed from the style.
#[derive(Clone, Copy, Default)]
pub struct InheritedNameOptions<'s> {
    pub and: Option<NameAnd>,
    pub delimiter: Option<&'s str>,
    pub delimiter_precedes_et_al: Option<DelimiterBehavior>,
    pub delimiter_precedes_last: Option<DelimiterBehavior>,
    pub et_al_min: Option<u32>,
    pub et_al_use_first: Option<u32>,
    pub et_al_subsequent_min: Option<u32>,
    pub et_al_subsequent_use_first: Option<u32>,
    pub et_al_use_last: Option<bool>,
    pub form: Option<NameForm>,
    pub initialize: Option<bool>,
    pub initialize_with: Option<&'s str>,
    pub name_as_sort_order: Option<NameAsSortOrder>,
    pub sort_separator: Option<&'s str>,
    pub names_delimiter: Option<&'s str>,
}

impl<'s> InheritedNameOptions<'s> {
    /// Returns the options over others: each one that is set here, else that of `base`.
    pub fn or(self, base: InheritedNameOptions<'s>) -> InheritedNameOptions<'s>
        ensures { spec.inherited_options result
            ≡ spec.apply_options (spec.inherited_options self.entry) (spec.inherited_options
            base.entry) }
    {
        InheritedNameOptions {
            and: self.and.or(base.and),
            delimiter: self.delimiter.or(base.delimiter),
            delimiter_precedes_et_al: self
                .delimiter_precedes_et_al
                .or(base.delimiter_precedes_et_al),
            delimiter_precedes_last: self
                .delimiter_precedes_last
                .or(base.delimiter_precedes_last),
            et_al_min: self.et_al_min.or(base.et_al_min),
            et_al_use_first: self.et_al_use_first.or(base.et_al_use_first),
            et_al_subsequent_min: self.et_al_subsequent_min.or(base.et_al_subsequent_min),
            et_al_subsequent_use_first: self
                .et_al_subsequent_use_first
                .or(base.et_al_subsequent_use_first),
            et_al_use_last: self.et_al_use_last.or(base.et_al_use_last),
            form: self.form.or(base.form),
            initialize: self.initialize.or(base.initialize),
            initialize_with: self.initialize_with.or(base.initialize_with),
            name_as_sort_order: self.name_as_sort_order.or(base.name_as_sort_order),
            sort_separator: self.sort_separator.or(base.sort_separator),
            names_delimiter: self.names_delimiter.or(base.names_delimiter),
        }
    }

    /// Returns the options by which names are written: each one that is set, else its default.
    pub fn name_options(self) -> NameOptions<'s>
        ensures { spec.complete_options result
            ≡ spec.with_defaults (spec.inherited_options self.entry) }
    {
        NameOptions {
            and: self.and,
            delimiter: self.delimiter.unwrap_or(", "),
            delimiter_precedes_et_al: self
                .delimiter_precedes_et_al
                .unwrap_or(DelimiterBehavior::Contextual),
            delimiter_precedes_last: self
                .delimiter_precedes_last
                .unwrap_or(DelimiterBehavior::Contextual),
            et_al_min: self.et_al_min,
            et_al_use_first: self.et_al_use_first,
            et_al_subsequent_min: self.et_al_subsequent_min,
            et_al_subsequent_use_first: self.et_al_subsequent_use_first,
            et_al_use_last: self.et_al_use_last.unwrap_or(false),
            form: self.form.unwrap_or(NameForm::Long),
            initialize: self.initialize.unwrap_or(true),
            initialize_with: self.initialize_with,
            name_as_sort_order: self.name_as_sort_order,
            sort_separator: self.sort_separator.unwrap_or(", "),
        }
    }

    /// The text between the lists of two variables. It is empty by default.
    pub fn names_delimiter(self) -> &'s str
        ensures { result.now ≡ spec.names_delimiter_of (spec.inherited_options self.entry) }
    {
        self.names_delimiter.unwrap_or("")
    }
}

/// The options by which names are written. An option that is set nowhere has its default.
#[derive(Clone, Copy)]
pub struct NameOptions<'s> {
    pub and: Option<NameAnd>,
    /// The text between two names: by default `, `.
    pub delimiter: &'s str,
    pub delimiter_precedes_et_al: DelimiterBehavior,
    pub delimiter_precedes_last: DelimiterBehavior,
    pub et_al_min: Option<u32>,
    pub et_al_use_first: Option<u32>,
    pub et_al_subsequent_min: Option<u32>,
    pub et_al_subsequent_use_first: Option<u32>,
    pub et_al_use_last: bool,
    pub form: NameForm,
    pub initialize: bool,
    pub initialize_with: Option<&'s str>,
    pub name_as_sort_order: Option<NameAsSortOrder>,
    /// The text after a family name that comes first: by default `, `.
    pub sort_separator: &'s str,
}

impl NameOptions<'_> {
    /// Whether the name at index `idx` in a list of `len` names is left out (CSL 1.0.2, Name:
    /// et-al-min, et-al-use-first and et-al-use-last). If `subsequent` is true,
    /// et-al-subsequent-min and et-al-subsequent-use-first replace the first two, each if it is
    /// set.
    pub fn is_suppressed(self, idx: usize, len: usize, subsequent: bool) -> bool
        ensures { result
            ≡ spec.is_suppressed (spec.complete_options self.entry) idx len subsequent }
    {
        let min = limit(self.et_al_min, self.et_al_subsequent_min, subsequent);
        let first = limit(
            self.et_al_use_first,
            self.et_al_subsequent_use_first,
            subsequent,
        );
        let (Some(min), Some(first)) = (min, first) else {
            return false;
        };
        let first = first as usize;
        if len < min as usize || idx < first {
            return false;
        }
        let is_kept_last = len >= first + 2 && idx == len - 1;
        !(self.et_al_use_last && is_kept_last)
    }
}

/// The limit for a cite: `later` for a subsequent one if it is set, else `own`.
fn limit(own: Option<u32>, later: Option<u32>, subsequent: bool) -> Option<u32>
    ensures { result ≡ spec.limit_of own later subsequent }
{
    if subsequent { later.or(own) } else { own }
}
