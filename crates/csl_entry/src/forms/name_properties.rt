//! The forms in which the names of a cite are shown.

ghost use Rattle.std.specs.Prelude.{◌≡◌, ◌<◌, ◌↔◌, ◌⊎◌, Bool, map, is_some, vec_len, slice_index_or, IsTrue, IfOk, IsSomeAnd, if◌then◌else◌};
ghost use Rattle.std.specs.Borrow.{sem};
ghost use Rattle.std.specs.Ordering.{is_gt, is_le};
ghost use Rattle.std.specs.declared.cmp.Ordering.TheVariants.{Equal};
ghost use Rattle.csl_entry.specs.LentForm.{lends_list, lends_form};
ghost use Rattle.csl_entry.specs.NameProperties as spec;

use crate::forms::form_list::{count_shown, disambiguate_forms, holds_each, show_first, shown_mut};
use crate::forms::name_form::DisambiguatedNameForm;
use csl_elements::NameVariable;
use lit_model::Memory;
use std::alloc::Global;
use std::cmp::Ordering;

/// The forms in which the names of a cite are shown (CSL 1.0.2, Disambiguation:
/// disambiguate-add-names and disambiguate-add-givenname).
#[derive(PartialEq, Eq, Hash, Drop)]
pub struct NameDisambiguationProperties {
    default_name_form: DisambiguatedNameForm,
    variables: Vec<NameVariable>,
    name_forms: Vec<Vec<Option<DisambiguatedNameForm>>>,
}

impl NameDisambiguationProperties {
    /// Returns the properties with these forms. `default_name_form` is the form of a name that
    /// becomes shown, and `variables` are the variables of the lists. For each list of names,
    /// `name_forms` has the form of each name, or `None` if the name is not shown.
    pub fn new(
        default_name_form: DisambiguatedNameForm,
        variables: Vec<NameVariable>,
        name_forms: Vec<Vec<Option<DisambiguatedNameForm>>>,
    ) -> Self
        ensures { spec.name_properties result ≡ record {
          default_form = default_name_form;
          variables = variables.items;
          lists = map (λ forms. forms.items) name_forms.items;
        } }
    {
        NameDisambiguationProperties {
            default_name_form,
            variables,
            name_forms,
        }
    }

    /// The form of a name that becomes shown.
    pub fn default_name_form(&self) -> DisambiguatedNameForm
        ensures { result ≡ (spec.name_properties self.now).default_form }
    {
        self.default_name_form
    }

    /// The variables of the lists of names.
    pub fn variables(&self) -> &[NameVariable]
        ensures { result.now ≡ (spec.name_properties self.now).variables }
    {
        &self.variables
    }

    /// The form of each name, for each list of names, or `None` if the name is not shown.
    pub fn name_forms(&self) -> &[Vec<Option<DisambiguatedNameForm>>]
        ensures { map (λ forms. forms.items) result.now ≡ (spec.name_properties self.now).lists }
    {
        &self.name_forms
    }

    /// Returns an equal value.
    pub fn clone(&self, alloc: Global) -> Result<Self, Memory>
        ensures { IfOk result (λ copy. spec.name_properties copy ≡ spec.name_properties self.now) }
    {
        let variables = self.variables.as_slice().to_vec(alloc)?;
        let mut name_forms = Vec::with_capacity(alloc, self.name_forms.len())?;
        for forms in &self.name_forms {
            name_forms.push(forms.as_slice().to_vec(alloc)?)?;
        }
        Ok(NameDisambiguationProperties {
            default_name_form: self.default_name_form,
            variables,
            name_forms,
        })
    }

    /// The place of the first list with at least `num` forms.
    fn first_as_long(&self, num: usize) -> Option<usize>
        ensures { result ≡ spec.first_as_long num (spec.name_properties self.now).lists }
    {
        self.name_forms.iter().position(|forms| forms.len() >= num)
    }

    /// Shows the first `num` names of the first list with at least `num` names. Each of them that
    /// was not shown gets the default form. Returns whether there is such a list.
    pub fn add_name(&mut self, num: usize) -> bool
        ensures answer { result
            ≡ is_some (spec.first_as_long num (spec.name_properties self.old).lists) }
        ensures shown { spec.name_properties self.new
            ≡ spec.with_names_shown num (spec.name_properties self.old) }
    {
        let Some(place) = self.first_as_long(num) else {
            return false;
        };
        show_first(&mut self.name_forms[place], num, self.default_name_form);
        true
    }

    /// The first position of the variable, if it is listed.
    fn first_listed(&self, variable: NameVariable) -> Option<usize>
        ensures { result ≡ spec.first_listed variable (spec.name_properties self.now) }
    {
        self.variables.iter().position(|listed| *listed == variable)
    }

    /// Whether [`disambiguate_list`](Self::disambiguate_list) may be called. If the variable is
    /// listed, there has to be a list of forms at its first position that has each of these places.
    pub fn can_disambiguate(&self, variable: NameVariable, items: &[usize]) -> bool
        ensures { IsTrue result
            ↔ spec.CanDisambiguate variable items.now (spec.name_properties self.now) }
    {
        let Some(position) = self.first_listed(variable) else {
            return true;
        };
        match self.name_forms.get(position) {
            Some(forms) => holds_each(forms, items),
            None => false,
        }
    }

    /// Disambiguates the names at these places of the variable's list, place by place. A name that
    /// is not shown gets the default form. Any other gets its fuller form
    /// ([`DisambiguatedNameForm::disambiguate`] with `full`), if there is one. Returns whether any
    /// form changed. Nothing changes if the variable is not listed.
    /// [`can_disambiguate`](Self::can_disambiguate) returns whether the call is allowed.
    pub fn disambiguate_list(&mut self, variable: NameVariable, items: &[usize]) -> bool
        requires { spec.CanDisambiguate variable items.now (spec.name_properties self.old) }
        ensures after { spec.name_properties self.new
            ≡ spec.with_disambiguated_list variable items.now (spec.name_properties self.old) }
        ensures answer { (result ≡ Bool.false)
            ↔ (spec.name_properties self.new ≡ spec.name_properties self.old) }
    {
        let Some(place) = self.first_listed(variable) else {
            return false;
        };
        disambiguate_forms(&mut self.name_forms[place], self.default_name_form, items)
    }

    /// The number of names that are shown. It fits 128 bits, whatever the number of lists and
    /// names.
    fn shown_count(&self) -> u128
        ensures { result ≡ spec.shown_count (spec.name_properties self.now) }
    {
        let mut count = 0;
        for forms in &self.name_forms {
            count += count_shown(forms) as u128;
        }
        count
    }

    /// Compares all forms, list after list. An absent form comes first.
    fn compare_forms(&self, other: &Self) -> Ordering
        ensures { result ≡ spec.forms_cmp (spec.all_forms (spec.name_properties self.now).lists)
            (spec.all_forms (spec.name_properties other.now).lists) }
    {
        let forms = self.name_forms.iter().flatten();
        forms.cmp(other.name_forms.iter().flatten())
    }

    /// Compares the number of names that are shown, then all forms.
    fn compare(&self, other: &Self) -> Ordering
        ensures { result
            ≡ spec.properties_cmp (spec.name_properties self.now) (spec.name_properties other.now) }
    {
        let by_count = self.shown_count().cmp(&other.shown_count());
        by_count.then(self.compare_forms(other))
    }

    /// Returns the one of the two that shows more names. If both show the same number, it is the
    /// later one in the order of all forms, where an absent form comes first. On a tie it is
    /// `other`.
    pub fn max(self, other: Self) -> Self
        ensures value { result ≡ (if is_gt
            (spec.properties_cmp (spec.name_properties self) (spec.name_properties other)) then self
            else other) }
        ensures one { (result ≡ self) ⊎ (result ≡ other) }

        // The result is not less than either of the two.
        ensures at_least_self { IsTrue (is_le
            (spec.properties_cmp (spec.name_properties self) (spec.name_properties result))) }
        ensures at_least_other { IsTrue (is_le
            (spec.properties_cmp (spec.name_properties other) (spec.name_properties result))) }
        ensures tie { spec.properties_cmp (spec.name_properties self) (spec.name_properties other)
            ≡ Equal
            → result ≡ other }
    {
        if self.compare(&other).is_gt() {
            self
        } else {
            other
        }
    }

    /// The list with the `idx`-th of all forms, and the place of the form in it. `None` if the form
    /// is absent or does not exist.
    fn shown_at(&self, idx: usize) -> Option<(usize, usize)>
        ensures { result ≡ spec.shown_from 0 idx (spec.name_properties self.now).lists }
    {
        let mut place = idx;
        for (list, forms) in self.name_forms.iter().enumerate() {
            if place < forms.len() {
                return forms[place].map(|_| (list, place));
            }
            place -= forms.len();
        }
        None
    }

    /// Returns a mutable reference to the list at this place. Nothing else changes.
    fn list_mut(&mut self, list: usize) -> &mut Vec<Option<DisambiguatedNameForm>>
        requires { list < vec_len self.old.name_forms }
        ensures* writes_back { sem 𝓛 (lends_list self.entry list result) }
        ensures value { result.now ≡ slice_index_or self.old.name_forms.items list result.now }
    {
        &mut self.name_forms[list]
    }

    /// Returns a mutable reference to the `idx`-th of all forms, from 0, list after list. Absent
    /// forms count. If that form is absent or does not exist, the reference is to the default form.
    /// Nothing else changes. The result is never `None`.
    pub fn get_form_mut(&mut self, idx: usize) -> Option<&mut DisambiguatedNameForm>
        ensures* writes_back { sem 𝓛 (lends_form self.entry idx result) }
        ensures value { IsSomeAnd result (λ form.
            form.now ≡ spec.form_or_default idx (spec.name_properties self.old)) }
    {
        match self.shown_at(idx) {
            Some((list, place)) => Some(shown_mut(self.list_mut(list), place)),
            None => Some(&mut self.default_name_form),
        }
    }
}
