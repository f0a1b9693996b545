//! The ordinals of a style's locales (CSL 1.0.2, Ordinals and Gender-specific Ordinals).

ghost use Rattle.std.specs.Prelude.{◌≡◌, ◌<◌, true, map, option_map};
ghost use Rattle.csl_elements.specs.Locale.{OrdinalView, ordinal_view, ordinals_of};
ghost use Rattle.csl_elements.specs.Ordinals as spec;
ghost use Rattle.csl_elements.specs.Ordinals.{ordinals, long_ordinals};
ghost use Rattle.csl_elements.specs.OrdinalTable.{is_at, IsTableOf};

use crate::locale::ordinal_table::{DEFAULT, OrdinalTable};
use crate::locale::{Locale, OrdinalMatch, OrdinalSlot, OrdinalTerm};
use csl_common::{GrammarGender, Ordinals};

/// The digits of a number that are compared with a slot.
fn digits_for(matching: Option<OrdinalMatch>, slot: u8, number: u32) -> u32
    ensures { result ≡ spec.digits_for matching slot number }
{
    match matching {
        None => { if slot < 10 { number % 10 } else { number % 100 } }
        Some(OrdinalMatch::LastDigit) => number % 10,
        Some(OrdinalMatch::LastTwoDigits) => number % 100,
        Some(OrdinalMatch::WholeNumber) => number,
    }
}

/// A group of ordinals.
#[derive(Clone, Copy)]
pub(crate) enum OrdinalGroup {
    /// The ordinals for a number, by a slot from `low` to `high`.
    Between { low: u8, high: u8, number: u32 },
    /// The ordinals of one slot.
    Slot(OrdinalSlot),
}

impl OrdinalTerm {
    /// Whether the ordinal is one of the group.
    fn is_in(&self, group: OrdinalGroup) -> bool
        ensures { result ≡ spec.is_in_group group (ordinal_view self.now) }
    {
        match group {
            OrdinalGroup::Between { low, high, number } => match self.slot {
                OrdinalSlot::Two(slot) => {
                    low <= slot
                        && slot <= high
                        && u32::from(slot) == digits_for(self.matching, slot, number)
                }
                OrdinalSlot::Default | OrdinalSlot::Long(_) => false,
            },
            OrdinalGroup::Slot(slot) => self.slot == slot,
        }
    }
}

/// The first ordinal of a group for a gender. Without a gender, the first neutral one.
fn first_for_gender(
    ordinals: &[OrdinalTerm],
    group: OrdinalGroup,
    gender: Option<GrammarGender>,
) -> Option<&OrdinalTerm>
    ensures { option_map (λ o. ordinal_view o.now) result
        ≡ spec.for_gender (spec.is_in_group group) (map ordinal_view ordinals.now) gender }
{
    for ordinal in ordinals {
        if ordinal.is_in(group) && ordinal.gender == gender {
            return Some(ordinal);
        }
    }
    None
}

/// The first ordinal of a group for the gender, else the first neutral one.
fn first_of(
    ordinals: &[OrdinalTerm],
    group: OrdinalGroup,
    gender: Option<GrammarGender>,
) -> Option<&OrdinalTerm>
    ensures { option_map (λ o. ordinal_view o.now) result
        ≡ spec.first_of (spec.is_in_group group) (map ordinal_view ordinals.now) gender }
{
    if let Some(ordinal) = first_for_gender(ordinals, group, gender) {
        return Some(ordinal);
    }
    first_for_gender(ordinals, group, None)
}

/// The ordinals of the first locale that has any.
pub(crate) fn first_ordinals(locales: &[Locale]) -> &[OrdinalTerm]
    ensures { map ordinal_view result.now ≡ spec.first_ordinals (map ordinals_of locales.now) }
{
    for locale in locales {
        if !locale.ordinals.is_empty() {
            return locale.ordinals.as_slice();
        }
    }
    &[]
}

/// The ordinals of a style's locales, for lookups through [`Ordinals`], with their table.
#[derive(Clone, Copy)]
pub struct LocaleOrdinals<'s> {
    pub locales: &'s [Locale],
    pub table: &'s OrdinalTable,
    ghost is: { IsTableOf table.now locales.now },
}

impl<'s> LocaleOrdinals<'s> {
    /// The first ordinal of a group for the gender, else the first neutral one. All ordinals of the
    /// group are at one place.
    fn first_at(
        self,
        place: usize,
        group: OrdinalGroup,
        gender: Option<GrammarGender>,
    ) -> Option<&'s OrdinalTerm>
        requires place { place < 111 }
        requires group { (o : OrdinalView) → spec.is_in_group group o ≡ true
            → is_at place o ≡ true }
        ensures { option_map (λ o. ordinal_view o.now) result ≡ spec.first_of
            (spec.is_in_group group) (spec.first_ordinals (map ordinals_of self.entry.locales.now))
            gender }
    {
        first_of(self.table.row(place), group, gender)
    }

    /// The ordinal for a number: by a slot from 10 to 99, else by one from 0 to 9, else the
    /// default.
    fn ordinal_for(self, number: u32, gender: Option<GrammarGender>) -> Option<&'s OrdinalTerm>
        ensures { option_map (λ o. ordinal_view o.now) result ≡ spec.ordinal_for
            (spec.first_ordinals (map ordinals_of self.entry.locales.now)) number gender }
    {
        let two_digits = OrdinalGroup::Between {
            low: 10,
            high: 99,
            number,
        };
        if let Some(ordinal) = self.first_at((number % 100) as usize, two_digits, gender) {
            return Some(ordinal);
        }
        let one_digit = OrdinalGroup::Between {
            low: 0,
            high: 9,
            number,
        };
        if let Some(ordinal) = self.first_at((number % 10) as usize, one_digit, gender) {
            return Some(ordinal);
        }
        self.first_at(DEFAULT, OrdinalGroup::Slot(OrdinalSlot::Default), gender)
    }

    /// The ordinal suffix of a number, whatever its sign: by a slot from 10 to 99, else by one from
    /// 0 to 9, else the default. In each group, one for the gender comes before a neutral one. It
    /// lives as long as the locales.
    pub fn suffix(self, number: i32, gender: Option<GrammarGender>) -> Option<&'s str>
        ensures { option_map (λ text. text.now) result
            ≡ ordinals (map ordinals_of self.entry.locales.now) number gender }
    {
        let found = self.ordinal_for(number.unsigned_abs(), gender);
        found.map(|ordinal| ordinal.text.as_str())
    }

    /// The word for the ordinal of a number from 1 to 10. One for the gender comes before a neutral
    /// one. It lives as long as the locales.
    pub fn word(self, number: i32, gender: Option<GrammarGender>) -> Option<&'s str>
        ensures { option_map (λ text. text.now) result
            ≡ long_ordinals (map ordinals_of self.entry.locales.now) number gender }
    {
        if number < 1 || number > 10 {
            return None;
        }
        let word = number.unsigned_abs() as u8;
        let group = OrdinalGroup::Slot(OrdinalSlot::Long(word));
        let found = self.first_at(DEFAULT + word as usize, group, gender);
        found.map(|ordinal| ordinal.text.as_str())
    }
}

impl Ordinals for LocaleOrdinals<'_> {
    ghost ordinals = { λ o. ordinals (map ordinals_of o.locales.now) };

    ghost long_ordinals = { λ o. long_ordinals (map ordinals_of o.locales.now) };

    fn lookup(&self, number: i32, gender: Option<GrammarGender>) -> Option<&str> {
        self.suffix(number, gender)
    }

    fn long(&self, number: i32, gender: Option<GrammarGender>) -> Option<&str> {
        self.word(number, gender)
    }
}
