//! What the cites of a work print of the list: its number, and its year suffix (CSL 1.0.2, Number
//! Variables: citation-number; Disambiguation).

ghost use Rattle.std.specs.Prelude.{◌≡◌, None, false, IfOk, IfErr, length, option_copied};
ghost use Rattle.csl_entry.specs.Cite.{cite_state, disambiguation_of};
ghost use Rattle.csl_entry.specs.Numbers.{citation_number};
ghost use Rattle.csl_list.specs.declared.error.ListError.TheVariants as errors;
ghost use Rattle.csl_list.specs.Errors.{IsListingError};
ghost use Rattle.csl_list.specs.Identity as spec;

use crate::error::ListError;
use csl_common::Memory;
use csl_entry::{
    CitationNumber, CiteProperties, DisambiguateState, NameDisambiguationProperties,
    SpeculativeCiteProperties,
};
use std::alloc::Global;

/// The works of a list that the first cite of a work is like.
#[derive(Clone, Copy)]
pub(crate) struct Likeness {
    /// The first place of the list whose work has the same names, if the work has names.
    pub names: Option<usize>,
    /// The first place of the list whose work has the same cite.
    pub cite: usize,
}

/// The number of a work, its year suffix, if it has one, and the works that it is like.
#[derive(Clone, Copy)]
pub(crate) struct Identity {
    pub number: CitationNumber,
    pub year_suffix: Option<u16>,
    /// Whether branches that test `disambiguate` hold.
    pub chooses: bool,
    pub likeness: Likeness,
}

/// A work that is like none.
const UNLIKE: Likeness = Likeness {
    names: None,
    cite: 0,
};

/// How cites of a work are told apart from those of others.
fn disambiguation_of(identity: Identity) -> DisambiguateState
    ensures { disambiguation_of result
        ≡ spec.disambiguation_of identity.year_suffix identity.chooses }
{
    match identity.year_suffix {
        Some(suffix) => DisambiguateState::YearSuffix(suffix),
        None if identity.chooses => DisambiguateState::Choose,
        None => DisambiguateState::None,
    }
}

impl Identity {
    /// A work with this number that nothing needs to tell apart.
    pub fn numbered(number: CitationNumber) -> Identity
        ensures number { result.number ≡ number }
        ensures suffix { result.year_suffix ≡ None }
        ensures chooses { result.chooses ≡ false }
    {
        Identity {
            number,
            year_suffix: None,
            chooses: false,
            likeness: UNLIKE,
        }
    }

    /// The identity without what tells the work apart from those with the same cite.
    pub fn unmarked(self) -> Identity
        ensures { result ≡ spec.unmarked self }
    {
        Identity {
            year_suffix: None,
            chooses: false,
            ..self
        }
    }

    /// Whether a year suffix or branches that test `disambiguate` tell the work apart.
    pub fn is_marked(self) -> bool
        ensures { result ≡ spec.is_marked self }
    {
        self.year_suffix.is_some() || self.chooses
    }

    /// How cites of the work are told apart from those of others: by a year suffix, by branches
    /// that test `disambiguate`, or else by forms of its names, if there are some.
    pub fn told_by(
        self,
        alloc: Global,
        forms: Option<&NameDisambiguationProperties>,
    ) -> Result<DisambiguateState, Memory>
        ensures { IfOk result (λ state. disambiguation_of state
            ≡ spec.told_by self (option_copied forms.entry)) }
    {
        if self.is_marked() {
            return Ok(disambiguation_of(self));
        }
        match forms {
            Some(forms) => Ok(DisambiguateState::NameDisambiguation(forms.clone(alloc)?)),
            None => Ok(DisambiguateState::None),
        }
    }

    /// The properties of a first cite of the work.
    pub fn first_cite<'d>(self) -> CiteProperties<'d>
        ensures { cite_state result ≡ spec.first_cite_of self }
    {
        let first = CiteProperties::first(disambiguation_of(self));
        CiteProperties {
            certain: first.certain,
            speculative: SpeculativeCiteProperties {
                citation_number: self.number,
                ..first.speculative
            },
        }
    }

    /// The same for a cite that forms of its names may tell apart.
    pub fn first_cite_by<'d>(
        self,
        alloc: Global,
        forms: Option<&NameDisambiguationProperties>,
    ) -> Result<CiteProperties<'d>, Memory>
        ensures { IfOk result (λ props. cite_state props
            ≡ spec.first_cite_by self (option_copied forms.entry)) }
    {
        let disambiguation = self.told_by(alloc, forms)?;
        let first = self.first_cite();
        Ok(CiteProperties {
            certain: first.certain,
            speculative: SpeculativeCiteProperties {
                disambiguation,
                ..first.speculative
            },
        })
    }
}

/// The number of the work at a place of the list.
pub(crate) fn number_at(place: usize) -> Result<CitationNumber, ListError>
    ensures ok { IfOk result (λ number. citation_number number ≡ place) }
    ensures err { IfErr result (λ e. e ≡ errors.TooManyWorks) }
{
    let number = u32::try_from(place).ok().and_then(CitationNumber::new);
    number.ok_or(ListError::TooManyWorks)
}

/// The identity of each work by its place in the list. A work that is not listed has that of the
/// first place.
pub(crate) fn identities_by(
    alloc: Global,
    order: &[usize],
    suffixes: &[Option<u16>],
    choices: &[bool],
    likenesses: &[Likeness],
    works: usize,
) -> Result<Vec<Identity>, ListError>
    ensures ok { IfOk result (λ identities. length identities.items ≡ works) }
    ensures err { IfErr result IsListingError }
{
    let mut identities = vec![in alloc; Identity::numbered(number_at(0)?); works]?;
    for (place, work) in order.iter().enumerate() {
        let number = number_at(place)?;
        let year_suffix = suffixes.get(place).copied().flatten();
        let chooses = choices.get(place).copied().unwrap_or(false);
        let likeness = likenesses.get(place).copied().unwrap_or(UNLIKE);
        if let Some(own) = identities.get_mut(*work) {
            *own = Identity {
                number,
                year_suffix,
                chooses,
                likeness,
            };
        }
    }
    Ok(identities)
}
