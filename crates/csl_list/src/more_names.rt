//! More of the names of a cite (CSL 1.0.2, Disambiguation: disambiguate-add-names,
//! disambiguate-add-givenname).

use csl_common::Memory;
use csl_entry::NameDisambiguationProperties;
use std::alloc::Global;

/// More of the names of a cite.
#[derive(Clone, Copy)]
pub(crate) enum More {
    /// So many of the names.
    Names(usize),
    /// A name that is shown, by so many steps: its initials, and the whole given name.
    Given(usize, usize),
    /// The same of a name that is hidden, or was so before fewer steps.
    Hidden(usize, usize),
}

/// The number of names in the first list.
pub(crate) fn count_of(forms: &NameDisambiguationProperties) -> usize {
    match forms.name_forms().first() {
        Some(forms) => forms.len(),
        None => 0,
    }
}

/// Whether a name of the first list is shown.
fn is_shown(forms: &NameDisambiguationProperties, name: usize) -> bool {
    match forms.name_forms().first() {
        Some(forms) => match forms.get(name) {
            Some(form) => form.is_some(),
            None => false,
        },
        None => false,
    }
}

/// How many names of the first list are shown before the first that is not.
pub(crate) fn count_shown(forms: &NameDisambiguationProperties) -> usize {
    match forms.name_forms().first() {
        Some(forms) => forms
            .iter()
            .position(|form| form.is_none())
            .unwrap_or(forms.len()),
        None => 0,
    }
}

/// Shows a name of the first list by so many steps more, if it is shown at all. Returns whether its
/// form changed.
pub(crate) fn expand_name(
    forms: &mut NameDisambiguationProperties,
    name: usize,
    steps: usize,
) -> bool {
    let Some(variable) = forms.variables().first().copied() else {
        return false;
    };
    let mut has_changed = false;
    for _step in 0..steps {
        if is_shown(forms, name) && forms.can_disambiguate(variable, &[name]) {
            has_changed = forms.disambiguate_list(variable, &[name]) || has_changed;
        }
    }
    has_changed
}

/// Shows so many names of the first list. Those that were hidden are expanded by the steps that
/// they need. Returns whether there are so many.
fn show_names(forms: &mut NameDisambiguationProperties, count: usize, needs: &[usize]) -> bool {
    let first = count_shown(forms);
    if !forms.add_name(count) {
        return false;
    }
    for name in first..count {
        let _has_changed = expand_name(forms, name, needs.get(name).copied().unwrap_or(0));
    }
    true
}

/// Whether forms may show more of the names.
fn may_show(forms: &NameDisambiguationProperties, more: More) -> bool {
    match more {
        More::Names(count) => {
            count <= count_of(forms) && !is_shown(forms, count.saturating_sub(1))
        }
        More::Given(name, _) => is_shown(forms, name),
        More::Hidden(name, steps) => {
            name < count_of(forms) && (steps > 1 || !is_shown(forms, name))
        }
    }
}

/// The forms with more of the names, if there are more. `needs` are the steps that names need that
/// were hidden.
pub(crate) fn fuller_forms(
    alloc: Global,
    forms: &NameDisambiguationProperties,
    more: More,
    needs: &[usize],
) -> Result<Option<NameDisambiguationProperties>, Memory> {
    if !may_show(forms, more) {
        return Ok(None);
    }
    let mut fuller = forms.clone(alloc)?;
    let has_changed = match more {
        More::Names(count) => show_names(&mut fuller, count, needs),
        More::Given(name, steps) => expand_name(&mut fuller, name, steps),
        More::Hidden(name, steps) => {
            let is_added = show_names(&mut fuller, name.saturating_add(1), needs);
            expand_name(&mut fuller, name, steps) || is_added
        }
    };
    Ok(if has_changed { Some(fuller) } else { None })
}
