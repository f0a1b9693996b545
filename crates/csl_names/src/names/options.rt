//! The options by which the names of a names node are written (CSL 1.0.2, Inheritable Name
//! Options): those of its name, over those of the node, over the inherited ones.
//! Definitions: crates/csl_elements/specs/NamesOptions.antt.

ghost use Rattle.std.specs.Prelude.{◌≡◌, option_map, string_bytes};
ghost use Rattle.std.specs.Option.{option_or};
ghost use Rattle.csl_elements.specs.NamesOptions.{partial_options, inherited_options, apply_options, complete_options, with_defaults, names_delimiter_of};

use csl_style::{
    DelimiterBehavior, InheritableNameOptions, InheritedNameOptions, NameForm, NameOptions,
};

/// The first of three options that is set.
fn first_set<O: Copy>(name: Option<O>, node: Option<O>, inherited: Option<O>) -> Option<O>
    ensures { result ≡ option_or name (option_or node inherited) }
{
    name.or(node.or(inherited))
}

/// The first of three texts that is set.
fn first_text<'n>(
    name: &'n Option<String>,
    node: Option<&'n str>,
    inherited: Option<&'n str>,
) -> Option<&'n str>
    ensures { option_map (λ t. t.now) result ≡ option_or (option_map string_bytes name.now)
        (option_or (option_map (λ t. t.now) node.entry) (option_map (λ t. t.now) inherited.entry)) }
{
    name.as_deref().or(node.or(inherited))
}

/// The text between two lists, by the options of a node over the inherited ones. It is empty by
/// default.
pub(crate) fn merged_delimiter<'n>(
    node: &InheritedNameOptions<'n>,
    base: &InheritedNameOptions<'n>,
) -> &'n str
    ensures { result.now ≡ names_delimiter_of (apply_options (inherited_options node.now)
        (inherited_options base.now)) }
{
    node.names_delimiter.or(base.names_delimiter).unwrap_or("")
}

/// The options of a name over those of its node over the inherited ones, each with its default.
pub(crate) fn merged_options<'n>(
    name: &'n InheritableNameOptions,
    node: &InheritedNameOptions<'n>,
    base: &InheritedNameOptions<'n>,
) -> NameOptions<'n>
    ensures { complete_options result ≡ with_defaults (apply_options (partial_options name.now)
        (apply_options (inherited_options node.now) (inherited_options base.now))) }
{
    NameOptions {
        and: first_set(name.and, node.and, base.and),
        delimiter: first_text(&name.delimiter, node.delimiter, base.delimiter).unwrap_or(", "),
        delimiter_precedes_et_al: first_set(
            name.delimiter_precedes_et_al,
            node.delimiter_precedes_et_al,
            base.delimiter_precedes_et_al,
        )
        .unwrap_or(DelimiterBehavior::Contextual),
        delimiter_precedes_last: first_set(
            name.delimiter_precedes_last,
            node.delimiter_precedes_last,
            base.delimiter_precedes_last,
        )
        .unwrap_or(DelimiterBehavior::Contextual),
        et_al_min: first_set(name.et_al_min, node.et_al_min, base.et_al_min),
        et_al_use_first: first_set(
            name.et_al_use_first,
            node.et_al_use_first,
            base.et_al_use_first,
        ),
        et_al_subsequent_min: first_set(
            name.et_al_subsequent_min,
            node.et_al_subsequent_min,
            base.et_al_subsequent_min,
        ),
        et_al_subsequent_use_first: first_set(
            name.et_al_subsequent_use_first,
            node.et_al_subsequent_use_first,
            base.et_al_subsequent_use_first,
        ),
        et_al_use_last: first_set(
            name.et_al_use_last,
            node.et_al_use_last,
            base.et_al_use_last,
        )
        .unwrap_or(false),
        form: first_set(name.form, node.form, base.form).unwrap_or(NameForm::Long),
        initialize: first_set(name.initialize, node.initialize, base.initialize).unwrap_or(true),
        initialize_with: first_text(
            &name.initialize_with,
            node.initialize_with,
            base.initialize_with,
        ),
        name_as_sort_order: first_set(
            name.name_as_sort_order,
            node.name_as_sort_order,
            base.name_as_sort_order,
        ),
        sort_separator: first_text(
            &name.sort_separator,
            node.sort_separator,
            base.sort_separator,
        )
        .unwrap_or(", "),
    }
}
