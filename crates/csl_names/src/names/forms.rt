//! The form of each name of a names node, the names that are left out, and whether the node is void
//! (CSL 1.0.2, Name: form, initialize, et-al-min and those after it).

ghost use Rattle.std.specs.Prelude.{◌≡◌, [], false, map, IfOk};
ghost use Rattle.std.specs.Bool.{OnFalse};
ghost use Rattle.csl_elements.specs.NamesOptions.{complete_options};
ghost use Rattle.csl_elements.specs.Names.{view_name};
ghost use Rattle.csl_elements.specs.NamesParts.{parts_node, names_node};
ghost use Rattle.csl_elements.specs.View.{view_child, name_children};
ghost use Rattle.csl_names.specs.NamesForms as spec;
ghost use Rattle.csl_names.specs.NamesLists.{PersonLists, list_of};

use crate::names::lists::{PersonList, all_empty};
use csl_entry::DisambiguatedNameForm;
use csl_style::{Name, NameForm, NameOptions, Names, NamesChild, NamesParts};
use lit_model::Memory;
use std::alloc::Global;

/// The form of each name that is shown.
pub(crate) fn default_form(options: &NameOptions<'_>) -> DisambiguatedNameForm
    ensures { result ≡ spec.default_form (complete_options options.now) }
{
    let initialized = options.initialize && options.initialize_with.is_some();
    match options.form {
        NameForm::Count => DisambiguatedNameForm::Count,
        NameForm::Short => {
            if initialized {
                DisambiguatedNameForm::ShortInitialized
            } else {
                DisambiguatedNameForm::ShortFull
            }
        }
        NameForm::Long => {
            if initialized {
                DisambiguatedNameForm::LongInitialized
            } else {
                DisambiguatedNameForm::LongFull
            }
        }
    }
}

/// The form of the name at `place` in a list of `len` names. A name that is left out has none.
fn form_in(
    options: &NameOptions<'_>,
    later: bool,
    len: usize,
    place: usize,
) -> Option<DisambiguatedNameForm>
    ensures { result ≡ spec.form_in (complete_options options.now) later len place }
{
    if options.is_suppressed(place, len, later) {
        None
    } else {
        Some(default_form(options))
    }
}

/// The form of each name in a list of `len` names.
fn list_forms(
    alloc: Global,
    options: &NameOptions<'_>,
    later: bool,
    len: usize,
) -> Result<Vec<Option<DisambiguatedNameForm>>, Memory>
    ensures { IfOk result (λ forms. forms.items
        ≡ spec.list_forms (complete_options options.now) later len) }
{
    let forms = (0..len)
        .map(|place| form_in(options, later, len, place))
        .collect(alloc)?;
    Ok(forms)
}

/// The form of each name of each list.
pub(crate) fn default_forms(
    alloc: Global,
    options: &NameOptions<'_>,
    later: bool,
    lists: &[PersonList<'_>],
) -> Result<Vec<Vec<Option<DisambiguatedNameForm>>>, Memory>
    ensures { IfOk result (λ forms. map (λ f. f.items) forms.items
        ≡ spec.default_forms (complete_options options.now) later (map list_of lists.now)) }
{
    let mut forms = Vec::with_capacity(alloc, lists.len())?;
    for list in lists {
        let own = list_forms(alloc, options, later, list.0.len())?;
        forms.push(own)?;
    }
    Ok(forms)
}

/// The number of names in a list of `len` that are not left out.
fn shown_count(options: &NameOptions<'_>, later: bool, len: usize) -> usize
    ensures { result ≡ spec.shown_count (complete_options options.now) later len }
{
    (0..len)
        .filter(|place| !options.is_suppressed(*place, len, later))
        .count()
}

/// The number of names in all lists that are not left out, at most `usize::MAX`.
pub(crate) fn count_of(options: &NameOptions<'_>, later: bool, lists: &[PersonList<'_>]) -> usize
    ensures { result ≡ spec.saturated_count (spec.count_of (complete_options options.now) later
        (map list_of lists.now)) }
{
    let mut count: usize = 0;
    for list in lists {
        count = count.saturating_add(shown_count(options, later, list.0.len()));
    }
    count
}

/// Whether each list leaves out its names from the first on, by these two limits.
fn hides_all(min: Option<u32>, first: Option<u32>, lists: &[PersonList<'_>]) -> bool
    ensures { result ≡ spec.hides_all min first (map list_of lists.now) }
{
    let (Some(min), Some(0)) = (min, first) else {
        return false;
    };
    for list in lists {
        if list.0.len() < min as usize {
            return false;
        }
    }
    true
}

/// Whether a name child hides all names, by its limits over those of its node.
fn name_hides(min: Option<u32>, first: Option<u32>, name: &Name, lists: &[PersonList<'_>]) -> bool
    ensures { result ≡ spec.name_hides min first (map list_of lists.now) (view_name name.now) }
{
    let min = name.options.et_al_min.or(min);
    let first = name.options.et_al_use_first.or(first);
    hides_all(min, first, lists)
}

/// Whether each name child hides all names, by its limits over these of the node. If there is no
/// name child, these decide.
fn each_hides(
    min: Option<u32>,
    first: Option<u32>,
    children: &[NamesChild],
    lists: &[PersonList<'_>],
) -> bool
    ensures { result ≡ spec.each_hides min first (map list_of lists.now)
        (name_children (map view_child children.now)) }
{
    let mut is_alone = true;
    for child in children {
        match child {
            NamesChild::Name(name) => {
                is_alone = false;
                if !name_hides(min, first, name, lists) {
                    return false;
                }
            }
            NamesChild::EtAl(_) | NamesChild::Label(_) | NamesChild::Substitute(_) => {}
        }
    }
    !is_alone || hides_all(min, first, lists)
}

/// Whether a names node is void: no list has a person, or its own options hide all names.
pub fn writes_no_name(parts: NamesParts<'_>, lists: &[PersonList<'_>]) -> bool
    ensures { result ≡ spec.writes_no_name (parts_node parts.entry) (map list_of lists.now) }
{
    if all_empty(lists) {
        return true;
    }
    let (min, first) = (parts.options.et_al_min, parts.options.et_al_use_first);
    each_hides(min, first, parts.children, lists)
}

/// Whether the options of a names node hide all names of lists that are long enough. If not, it is
/// void only without persons.
#[tactic(auto, using(crate::proofs::Limits::never_hides))]
pub fn may_hide(names: &Names) -> bool
    ensures value { result ≡ spec.hides_names (names_node names.now) [] }
    ensures never { OnFalse result ((lists : PersonLists)
        → spec.hides_names (names_node names.now) lists ≡ false) }
{
    let (min, first) = (names.options.et_al_min, names.options.et_al_use_first);
    each_hides(min, first, &names.children, &[])
}
