//! Cites that are told apart by their names (CSL 1.0.2, Disambiguation:
//! disambiguate-add-names, disambiguate-add-givenname, givenname-disambiguation-rule).

ghost use Rattle.std.specs.Prelude.{◌≡◌, ◌<◌, IfOk, IfErr, length};
ghost use Rattle.std.specs.List.{All};
ghost use Rattle.csl_list.specs.Errors.{IsListingError};
ghost use Rattle.csl_list.specs.Told as spec;

use crate::cases::set_cases_of_work;
use crate::equal::first_equals;
use crate::error::ListError;
use crate::given_names::{cited_names, steps_in_forms, steps_of_names};
use crate::identity::number_at;
use crate::more_names::{More, count_of, expand_name, fuller_forms};
use crate::options::{CitationOptions, GivenNameRule};
use crate::substitute::whole_names;
use crate::telling::TellingCite;
use crate::told_names::{AddedNames, added_names};
use csl::{Rendered, Renderer};
use csl_common::Memory;
use csl_entry::{DisambiguateState, EntryLike, NameDisambiguationProperties};
use csl_tree::BufWriteFormat;
use std::alloc::Global;

/// The cite of a work, as far as it is told apart from others.
#[derive(Drop)]
pub(crate) struct ToldCite {
    /// Which cite it is.
    pub telling: TellingCite,
    /// The cite as a plain text.
    pub text: String,
    /// The names that it begins with, as a plain text. The text is empty if it has none.
    pub names: String,
    /// The forms of its names, if it has names.
    pub forms: Option<NameDisambiguationProperties>,
    /// Whether they are not the forms that the style itself gives.
    pub is_named: bool,
    /// The names in these forms, if they are not the style's.
    pub added: Option<AddedNames>,
    /// The steps by which the rule of given names expands each of its names wherever the document
    /// has them.
    pub needs: Vec<usize>,
}

/// The cites of the works of a list, told apart.
#[derive(Drop)]
pub(crate) struct ToldWorks {
    /// The cites that tell the works apart.
    pub telling: Vec<ToldCite>,
    /// The first cites, if these are others.
    pub firsts: Option<Vec<ToldCite>>,
}

/// The works of a list, and its order.
#[derive(Drop)]
pub(crate) struct OrderedWorks<'w, T> {
    pub works: &'w [T],
    /// The indices of the works in the order of the list.
    pub order: &'w [usize],
    /// Of each work the cite that tells it apart: the first one, if there is none.
    pub telling: &'w [TellingCite],
    /// Whether works are English that do not say so themselves.
    pub is_english: bool,
}

/// The cite of the work at a place, in this state.
fn cite_in_state<T: EntryLike>(
    alloc: Global,
    renderer: &mut Renderer<'_>,
    list: &OrderedWorks<'_, T>,
    work: &T,
    place: usize,
    telling: TellingCite,
    disambiguation: DisambiguateState,
) -> Result<ToldCite, ListError>
    ensures err { IfErr result IsListingError }
{
    let props = telling.properties(number_at(place)?, disambiguation);
    let is_named = matches!(
        props.speculative.disambiguation,
        DisambiguateState::NameDisambiguation(_)
    );
    let Rendered { mut content, state } = renderer.cite(alloc, work, &props)?;
    set_cases_of_work(alloc, &mut content, work, list.is_english)?;
    Ok(ToldCite {
        telling,
        text: content.to_text(alloc, BufWriteFormat::Plain)?,
        names: whole_names(alloc, &content)?,
        forms: state.first_names,
        is_named: false,
        added: added_names(alloc, &content, is_named)?,
        needs: Vec::new(alloc),
    })
}

/// The same cite of the work at a place, with these forms of its names.
fn named_cite<T: EntryLike>(
    alloc: Global,
    renderer: &mut Renderer<'_>,
    list: &OrderedWorks<'_, T>,
    work: &T,
    place: usize,
    own: (TellingCite, Vec<usize>),
    forms: NameDisambiguationProperties,
) -> Result<ToldCite, ListError>
    ensures err { IfErr result IsListingError }
{
    let (telling, needs) = own;
    let state = DisambiguateState::NameDisambiguation(forms.clone(alloc)?);
    let cite = cite_in_state(alloc, renderer, list, work, place, telling, state)?;
    let ToldCite {
        text,
        names,
        added,
        ..
    } = cite;
    Ok(ToldCite {
        telling,
        text,
        names,
        forms: Some(forms),
        is_named: true,
        added,
        needs,
    })
}

/// The cites of the works of a list, in its order, as the style has them.
fn plain_cites<T: EntryLike>(
    alloc: Global,
    renderer: &mut Renderer<'_>,
    list: &OrderedWorks<'_, T>,
) -> Result<Vec<ToldCite>, ListError>
    requires { All (λ work. work < length list.now.works.now) list.now.order.now }
    ensures len { IfOk result (λ told. length told.items ≡ length list.now.order.now) }
    ensures err { IfErr result IsListingError }
{
    let mut told = Vec::with_capacity(alloc, list.order.len())?;
    for (place, index) in list.order.iter().enumerate() {
        let own = list
            .telling
            .get(*index)
            .copied()
            .unwrap_or(TellingCite::First);
        let (work, state) = (&list.works[*index], DisambiguateState::None);
        told.push(cite_in_state(alloc, renderer, list, work, place, own, state)?)?;
    }
    Ok(told)
}

/// For each of these places the index of the first of them with an equal cite.
fn first_equal_cites(
    alloc: Global,
    told: &[ToldCite],
    places: &[usize],
) -> Result<Vec<usize>, Memory>
    ensures { IfOk result (λ firsts. length firsts.items ≡ length places.now) }
{
    let mut texts = Vec::with_capacity(alloc, places.len())?;
    for place in places {
        texts.push(match told.get(*place) {
            Some(cite) => cite.text.as_str(),
            None => "",
        })?;
    }
    let firsts = first_equals(alloc, &texts)?;
    Ok(firsts)
}

/// Whether each index is that of a first which others share.
fn shared_firsts(alloc: Global, firsts: &[usize]) -> Result<Vec<bool>, Memory> {
    let mut are_shared = vec![in alloc; false; firsts.len()]?;
    for (index, first) in firsts.iter().enumerate() {
        if index != *first {
            if let Some(own) = are_shared.get_mut(*first) {
                *own = true;
            }
        }
    }
    Ok(are_shared)
}

/// Those of these places whose cite is that of another one, too.
fn ambiguous(alloc: Global, told: &[ToldCite], places: &[usize]) -> Result<Vec<usize>, Memory> {
    let firsts = first_equal_cites(alloc, told, places)?;
    let are_shared = shared_firsts(alloc, &firsts)?;
    let mut ambiguous = Vec::new(alloc);
    for (place, first) in places.iter().zip(&firsts) {
        if let Some(true) = are_shared.get(*first) {
            ambiguous.push(*place)?;
        }
    }
    Ok(ambiguous)
}

/// The most names that one of these cites has.
fn most_names(told: &[ToldCite], places: &[usize]) -> usize {
    let mut most = 0;
    for place in places {
        if let Some(cite) = told.get(*place) {
            if let Some(forms) = &cite.forms {
                most = count_of(forms).max(most);
            }
        }
    }
    most
}

/// The cite at a place with more of its names, if there are more.
fn fuller_cite<T: EntryLike>(
    alloc: Global,
    renderer: &mut Renderer<'_>,
    list: &OrderedWorks<'_, T>,
    work: &T,
    place: usize,
    told: &ToldCite,
    more: More,
) -> Result<Option<ToldCite>, ListError>
    ensures err { IfErr result IsListingError }
{
    let Some(forms) = &told.forms else {
        return Ok(None);
    };
    match fuller_forms(alloc, forms, more, &told.needs)? {
        None => Ok(None),
        Some(fuller) => {
            let own = (told.telling, told.needs.as_slice().to_vec(alloc)?);
            Ok(Some(named_cite(alloc, renderer, list, work, place, own, fuller)?))
        }
    }
}

/// The work at a place of a list.
fn work_at<'w, T>(list: &OrderedWorks<'w, T>, place: usize) -> Option<&'w T> {
    let work = list.order.get(place)?;
    list.works.get(*work)
}

/// The cites at these places with more of their names.
fn fuller_cites<T: EntryLike>(
    alloc: Global,
    renderer: &mut Renderer<'_>,
    list: &OrderedWorks<'_, T>,
    told: &[ToldCite],
    places: &[usize],
    more: More,
) -> Result<Vec<Option<ToldCite>>, ListError>
    ensures err { IfErr result IsListingError }
{
    let mut fuller = Vec::with_capacity(alloc, places.len())?;
    for place in places {
        fuller.push(match (work_at(list, *place), told.get(*place)) {
            (Some(work), Some(own)) => fuller_cite(alloc, renderer, list, work, *place, own, more)?,
            _ => None,
        })?;
    }
    Ok(fuller)
}

/// The text of a cite with more of its names, or of the cite itself if there are no more.
fn text_of<'a>(
    told: &'a [ToldCite],
    places: &[usize],
    fuller: &'a [Option<ToldCite>],
    index: usize,
) -> &'a str {
    if let Some(Some(cite)) = fuller.get(index) {
        return cite.text.as_str();
    }
    match places.get(index) {
        Some(place) => match told.get(*place) {
            Some(cite) => cite.text.as_str(),
            None => "",
        },
        None => "",
    }
}

/// Whether more names tell some of the cites apart that are equal to the cite at each index.
fn splits(
    alloc: Global,
    told: &[ToldCite],
    places: &[usize],
    firsts: &[usize],
    fuller: &[Option<ToldCite>],
) -> Result<Vec<bool>, Memory> {
    let mut splits = vec![in alloc; false; firsts.len()]?;
    for (index, first) in firsts.iter().enumerate() {
        let one = text_of(told, places, fuller, *first);
        if text_of(told, places, fuller, index) != one {
            if let Some(own) = splits.get_mut(*first) {
                *own = true;
            }
        }
    }
    Ok(splits)
}

/// Whether the group of equal cites is split that the cite at an index is of.
fn is_split(splits: &[bool], firsts: &[usize], index: usize) -> bool {
    match firsts.get(index) {
        Some(first) => splits.get(*first).copied().unwrap_or(false),
        None => false,
    }
}

/// Puts a fuller cite in its place.
fn put(told: &mut [ToldCite], place: Option<&usize>, fuller: Option<ToldCite>) {
    if let (Some(place), Some(fuller)) = (place, fuller) {
        if let Some(own) = told.get_mut(*place) {
            *own = fuller;
        }
    }
}

/// Shows more of the names of equal cites where that tells some of them apart.
fn show_more<T: EntryLike>(
    alloc: Global,
    renderer: &mut Renderer<'_>,
    list: &OrderedWorks<'_, T>,
    told: &mut Vec<ToldCite>,
    places: &[usize],
    more: More,
) -> Result<(), ListError>
    ensures err { IfErr result IsListingError }
{
    let firsts = first_equal_cites(alloc, told, places)?;
    let fuller = fuller_cites(alloc, renderer, list, told, places, more)?;
    let splits = splits(alloc, told, places, &firsts, &fuller)?;
    let mut index: usize = 0;
    for cite in fuller {
        if is_split(&splits, &firsts, index) {
            put(told, places.get(index), cite);
        }
        index = index.saturating_add(1);
    }
    Ok(())
}

/// All places of a list.
fn all_places(alloc: Global, count: usize) -> Result<Vec<usize>, Memory> {
    let mut places = Vec::with_capacity(alloc, count)?;
    for place in 0..count {
        places.push(place)?;
    }
    Ok(places)
}

/// Adds names to equal cites, one by one.
fn add_names<T: EntryLike>(
    alloc: Global,
    renderer: &mut Renderer<'_>,
    list: &OrderedWorks<'_, T>,
    told: &mut Vec<ToldCite>,
) -> Result<(), ListError>
    ensures err { IfErr result IsListingError }
{
    let all = all_places(alloc, told.len())?;
    let mut places = ambiguous(alloc, told, &all)?;
    let most = most_names(told, &places);
    for name in 1..most {
        let more = More::Names(name.saturating_add(1));
        show_more(alloc, renderer, list, told, &places, more)?;
        places = ambiguous(alloc, told, &places)?;
    }
    Ok(())
}

/// Expands the names of equal cites, one by one, up to the first that tells them apart.
fn add_given_names<T: EntryLike>(
    alloc: Global,
    renderer: &mut Renderer<'_>,
    list: &OrderedWorks<'_, T>,
    told: &mut Vec<ToldCite>,
) -> Result<(), ListError>
    ensures err { IfErr result IsListingError }
{
    let all = all_places(alloc, told.len())?;
    let mut places = ambiguous(alloc, told, &all)?;
    for name in 0..most_names(told, &places) {
        for steps in 1..3 {
            let more = More::Given(name, steps);
            show_more(alloc, renderer, list, told, &places, more)?;
            places = ambiguous(alloc, told, &places)?;
        }
    }
    Ok(())
}

/// Adds names that are hidden to equal cites, one by one, each expanded so far that it tells them
/// apart.
fn add_expanded_names<T: EntryLike>(
    alloc: Global,
    renderer: &mut Renderer<'_>,
    list: &OrderedWorks<'_, T>,
    told: &mut Vec<ToldCite>,
) -> Result<(), ListError>
    ensures err { IfErr result IsListingError }
{
    let all = all_places(alloc, told.len())?;
    let mut places = ambiguous(alloc, told, &all)?;
    for name in 1..most_names(told, &places) {
        for steps in 1..3 {
            let more = More::Hidden(name, steps);
            show_more(alloc, renderer, list, told, &places, more)?;
            places = ambiguous(alloc, told, &places)?;
        }
    }
    Ok(())
}

/// Whether a rule expands the first name of each cite alone, and the steps that it expands one by.
/// `None` by cite.
fn expansion_of(rule: GivenNameRule) -> Option<(bool, usize)>
    ensures { result ≡ spec.expansion_of rule }
{
    match rule {
        GivenNameRule::ByCite => None,
        GivenNameRule::AllNames => Some((false, 2)),
        GivenNameRule::AllNamesWithInitials => Some((false, 1)),
        GivenNameRule::PrimaryName => Some((true, 2)),
        GivenNameRule::PrimaryNameWithInitials => Some((true, 1)),
    }
}

/// Expands the next name of the cite at a place by these steps, of at most so many.
fn expand_next(
    told: &mut [ToldCite],
    place: usize,
    steps: usize,
    most: usize,
) -> Result<(), Memory> {
    let Some(cite) = told.get_mut(place) else {
        return Ok(());
    };
    let name = cite.needs.len();
    let Some(forms) = &mut cite.forms else {
        return Ok(());
    };
    let steps = steps_in_forms(forms, steps, most);
    let has_changed = expand_name(forms, name, steps);
    cite.is_named = cite.is_named || has_changed;
    cite.needs.push(steps)?;
    Ok(())
}

/// Expands the names that are those of several persons of the document, by at most so many steps.
fn expand_names<T: EntryLike>(
    alloc: Global,
    list: &OrderedWorks<'_, T>,
    told: &mut Vec<ToldCite>,
    is_primary: bool,
    most: usize,
) -> Result<(), ListError>
    requires order { All (λ work. work < length list.now.works.now) list.now.order.now }
    ensures err { IfErr result IsListingError }
{
    let names = cited_names(alloc, list.works, list.order, told, is_primary)?;
    let steps = steps_of_names(alloc, &names, most)?;
    for (name, steps) in names.iter().zip(&steps) {
        expand_next(told, name.place, *steps, most)?;
    }
    Ok(())
}

/// A cite anew, if its names were expanded.
fn rendered_anew<T: EntryLike>(
    alloc: Global,
    renderer: &mut Renderer<'_>,
    list: &OrderedWorks<'_, T>,
    work: &T,
    place: usize,
    cite: ToldCite,
) -> Result<ToldCite, ListError>
    ensures err { IfErr result IsListingError }
{
    if !cite.is_named {
        return Ok(cite);
    }
    let ToldCite {
        telling,
        text,
        names,
        forms,
        is_named,
        added,
        needs,
    } = cite;
    match forms {
        Some(forms) => {
            let own = (telling, needs);
            named_cite(alloc, renderer, list, work, place, own, forms)
        }
        None => Ok(ToldCite {
            telling,
            text,
            names,
            forms: None,
            is_named,
            added,
            needs,
        }),
    }
}

/// The cites, those rendered anew whose names were expanded.
fn with_expanded<T: EntryLike>(
    alloc: Global,
    renderer: &mut Renderer<'_>,
    list: &OrderedWorks<'_, T>,
    told: Vec<ToldCite>,
) -> Result<Vec<ToldCite>, ListError>
    ensures err { IfErr result IsListingError }
{
    let mut anew = Vec::with_capacity(alloc, told.len())?;
    for cite in told {
        let place = anew.len();
        anew.push(match work_at(list, place) {
            Some(work) => rendered_anew(alloc, renderer, list, work, place, cite)?,
            None => cite,
        })?;
    }
    Ok(anew)
}

/// The cites of the works of a list, in its order, told apart by their names as the options have
/// it: by names that the whole document needs, by more names, by given names, and by both.
fn told_cites<T: EntryLike>(
    alloc: Global,
    renderer: &mut Renderer<'_>,
    options: &CitationOptions,
    list: &OrderedWorks<'_, T>,
) -> Result<Vec<ToldCite>, ListError>
    requires order { All (λ work. work < length list.now.works.now) list.now.order.now }
    ensures err { IfErr result IsListingError }
{
    let mut told = plain_cites(alloc, renderer, list)?;
    let expansion = expansion_of(options.given_name_rule);
    if let (true, Some((is_primary, most))) = (options.adds_given_names, expansion) {
        expand_names(alloc, list, &mut told, is_primary, most)?;
        told = with_expanded(alloc, renderer, list, told)?;
    }
    if options.adds_names {
        add_names(alloc, renderer, list, &mut told)?;
    }
    if options.adds_given_names && expansion.is_none() {
        add_given_names(alloc, renderer, list, &mut told)?;
        if options.adds_names {
            add_expanded_names(alloc, renderer, list, &mut told)?;
        }
    }
    Ok(told)
}

/// Whether a work is told apart by a later cite.
fn has_later(telling: &[TellingCite]) -> bool {
    telling
        .iter()
        .any(|own| matches!(own, TellingCite::Later(_)))
}

/// The works of a list told apart by their cites, as the options have it. In notes later cites do
/// so, and first ones are told apart by themselves.
pub(crate) fn told_works<T: EntryLike>(
    alloc: Global,
    renderer: &mut Renderer<'_>,
    options: &CitationOptions,
    list: &OrderedWorks<'_, T>,
) -> Result<ToldWorks, ListError>
    requires order { All (λ work. work < length list.now.works.now) list.now.order.now }
    ensures err { IfErr result IsListingError }
{
    let telling = told_cites(alloc, renderer, options, list)?;
    if !has_later(list.telling) {
        return Ok(ToldWorks {
            telling,
            firsts: None,
        });
    }
    let of_firsts = OrderedWorks {
        works: list.works,
        order: list.order,
        telling: &[],
        is_english: list.is_english,
    };
    let firsts = told_cites(alloc, renderer, options, &of_firsts)?;
    Ok(ToldWorks {
        telling,
        firsts: Some(firsts),
    })
}

/// The cites at these places where branches that test `disambiguate` hold.
fn chosen_cites<T: EntryLike>(
    alloc: Global,
    renderer: &mut Renderer<'_>,
    list: &OrderedWorks<'_, T>,
    told: &[ToldCite],
    places: &[usize],
) -> Result<Vec<Option<ToldCite>>, ListError>
    ensures err { IfErr result IsListingError }
{
    let mut chosen = Vec::with_capacity(alloc, places.len())?;
    for place in places {
        chosen.push(match (work_at(list, *place), told.get(*place)) {
            (Some(work), Some(own)) => {
                let (own, state) = (own.telling, DisambiguateState::Choose);
                Some(cite_in_state(alloc, renderer, list, work, *place, own, state)?)
            }
            _ => None,
        })?;
    }
    Ok(chosen)
}

/// Whether branches that test `disambiguate` hold for the work at each place: for those whose cites
/// are still equal, if that tells some of them apart.
pub(crate) fn choices<T: EntryLike>(
    alloc: Global,
    renderer: &mut Renderer<'_>,
    list: &OrderedWorks<'_, T>,
    told: &[ToldCite],
) -> Result<Vec<bool>, ListError>
    ensures err { IfErr result IsListingError }
{
    let all = all_places(alloc, told.len())?;
    let places = ambiguous(alloc, told, &all)?;
    let firsts = first_equal_cites(alloc, told, &places)?;
    let chosen = chosen_cites(alloc, renderer, list, told, &places)?;
    let splits = splits(alloc, told, &places, &firsts, &chosen)?;
    let mut choices = vec![in alloc; false; told.len()]?;
    for (index, place) in places.iter().enumerate() {
        if let Some(own) = choices.get_mut(*place) {
            *own = is_split(&splits, &firsts, index);
        }
    }
    Ok(choices)
}

/// The forms of the names of the work at a place, if they are not those that the style itself
/// gives.
pub(crate) fn forms_at(told: &[ToldCite], place: usize) -> Option<&NameDisambiguationProperties> {
    match told.get(place) {
        Some(cite) if cite.is_named => cite.forms.as_ref(),
        Some(_) | None => None,
    }
}

impl ToldWorks {
    /// The cites of the works that are first ones, or later ones.
    pub fn cites(&self, are_first: bool) -> &[ToldCite]
        ensures { result.now ≡ spec.cites_of self.now are_first }
    {
        match &self.firsts {
            Some(firsts) if are_first => firsts,
            Some(_) | None => &self.telling,
        }
    }
}
