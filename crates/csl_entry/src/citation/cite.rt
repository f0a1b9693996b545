//! The properties of a cite in its citation, without its entry.

ghost use Rattle.std.specs.Prelude.{◌≡◌, IfOk};

use crate::citation::numbers::{CitationNumber, NoteNumber};
use crate::forms::name_properties::NameDisambiguationProperties;
use csl_elements::{Locator, Variable};
use lit_model::Memory;
use std::alloc::Global;

/// How a cite relates to the cite before it (CSL 1.0.2, Choose: position).
#[derive(Clone, Copy, Debug, PartialEq, Eq, Hash)]
pub enum IbidState {
    /// The cite before it is of another entry, or there is none.
    Different,
    /// The cite before it is of the same entry with the same locator.
    Ibid,
    /// The cite before it is of the same entry, and this cite has a locator that the other lacks.
    IbidWithLocator,
}

/// The source of a sort key, if a cite is rendered to be sorted (CSL 1.0.2, Sorting).
#[derive(Clone, Copy, Debug, PartialEq, Eq, Hash)]
pub enum Sorting {
    Variable,
    Macro,
}

/// A form of a cite that renders only a part of it.
#[derive(Clone, Copy, Debug, PartialEq, Eq)]
pub enum SpecialForm {
    /// One variable only.
    VarOnly(Variable),
    /// The first date. The year suffix and the locator stay too.
    OnlyFirstDate,
    /// The year suffix. The locator stays too.
    OnlyYearSuffix,
    /// All but the author.
    SuppressAuthor,
}

/// The place in its work that a cite points to: the kind of part, and the locator (CSL 1.0.2,
/// Locators).
#[derive(Clone, Copy, Debug, PartialEq, Eq)]
pub struct SpecificLocator<'a>(pub Locator, pub LocatorPayload<'a>);

/// The source of a locator's text.
#[derive(Clone, Copy, Debug, PartialEq, Eq)]
pub enum LocatorPayload<'a> {
    /// The locator is this text.
    Str(&'a str),
    /// The caller writes the locator. The output keeps a place for it.
    Transparent,
}

/// How a cite is disambiguated (CSL 1.0.2, Disambiguation).
#[derive(Drop)]
pub enum DisambiguateState {
    /// The cite is not disambiguated.
    None,
    /// The forms of its names (disambiguate-add-names, disambiguate-add-givenname).
    NameDisambiguation(NameDisambiguationProperties),
    /// The branches of a style that test `disambiguate` (Choose: disambiguate).
    Choose,
    /// The year suffix of this number, from 0 to 65,535: 0 is `a` (disambiguate-add-year-suffix).
    YearSuffix(u16),
}

/// The properties of a cite in its citation.
#[derive(Drop)]
pub struct CiteProperties<'s> {
    /// The properties that no rendering changes.
    pub certain: CertainCiteProperties,
    /// The properties that may change when the other cites are rendered.
    pub speculative: SpeculativeCiteProperties<'s>,
}

/// The properties of a cite that no rendering changes.
#[derive(Clone, Copy, Debug)]
pub struct CertainCiteProperties {
    /// The number of the first note that cites the entry, if a note does (CSL 1.0.2, Number
    /// Variables: first-reference-note-number).
    pub first_note_number: Option<NoteNumber>,
    /// Whether no earlier cite is of the same entry (CSL 1.0.2, Choose: position).
    pub is_first: bool,
    /// Whether a near note before it cites the same entry (CSL 1.0.2, Choose: position, near-note).
    pub is_near_note: bool,
    /// The index, from 0, that the caller gave the cite when handing it in. The answer of a locator
    /// that the caller writes holds this index.
    pub initial_idx: usize,
}

/// The properties of a cite that may change when the other cites are rendered.
#[derive(Drop)]
pub struct SpeculativeCiteProperties<'s> {
    /// The place in its work that the cite points to (CSL 1.0.2, Locators).
    pub locator: Option<SpecificLocator<'s>>,
    /// The citation number, from 0 (CSL 1.0.2, Number Variables: citation-number).
    pub citation_number: CitationNumber,
    /// How the cite is disambiguated.
    pub disambiguation: DisambiguateState,
    /// How the cite relates to the cite before it.
    pub ibid: IbidState,
}

impl DisambiguateState {
    ghost use Rattle.csl_entry.specs.Cite.{disambiguation_of};

    /// Returns an equal value.
    pub fn clone(&self, alloc: Global) -> Result<Self, Memory>
        ensures { IfOk result (λ copy. disambiguation_of copy ≡ disambiguation_of self.now) }
    {
        match self {
            DisambiguateState::None => Ok(DisambiguateState::None),
            DisambiguateState::NameDisambiguation(properties) => {
                let copy = properties.clone(alloc)?;
                Ok(DisambiguateState::NameDisambiguation(copy))
            }
            DisambiguateState::Choose => Ok(DisambiguateState::Choose),
            DisambiguateState::YearSuffix(number) => Ok(DisambiguateState::YearSuffix(*number)),
        }
    }
}

impl<'s> CiteProperties<'s> {
    ghost use Rattle.csl_entry.specs.Cite.{cite_state, disambiguation_of, first_cite};

    /// The properties of a first cite with this disambiguation. No cite comes before it, no note
    /// cites its entry, it has no locator, and its citation number is 0, which prints as 1.
    pub fn first(disambiguation: DisambiguateState) -> CiteProperties<'s>
        ensures { cite_state result ≡ first_cite (disambiguation_of disambiguation) }
    {
        let Some(citation_number) = CitationNumber::new(0) else {
            unreachable!()
        };
        CiteProperties {
            certain: CertainCiteProperties {
                first_note_number: None,
                is_first: true,
                is_near_note: false,
                initial_idx: 0,
            },
            speculative: SpeculativeCiteProperties {
                locator: None,
                citation_number,
                disambiguation,
                ibid: IbidState::Different,
            },
        }
    }

    /// Returns an equal value.
    pub fn clone(&self, alloc: Global) -> Result<CiteProperties<'s>, Memory>
        ensures { IfOk result (λ copy. cite_state copy ≡ cite_state self.now) }
    {
        let speculative = self.speculative.clone(alloc)?;
        Ok(CiteProperties {
            certain: self.certain,
            speculative,
        })
    }
}

impl<'s> SpeculativeCiteProperties<'s> {
    ghost use Rattle.csl_entry.specs.Cite.{speculation};

    /// Returns an equal value.
    pub fn clone(&self, alloc: Global) -> Result<SpeculativeCiteProperties<'s>, Memory>
        ensures { IfOk result (λ copy. speculation copy ≡ speculation self.now) }
    {
        let disambiguation = self.disambiguation.clone(alloc)?;
        Ok(SpeculativeCiteProperties {
            locator: self.locator,
            citation_number: self.citation_number,
            disambiguation,
            ibid: self.ibid,
        })
    }
}
