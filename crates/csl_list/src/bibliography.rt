//! The works of a bibliography (CSL 1.0.2, Bibliography; Layout; second-field-align).

ghost use Rattle.std.specs.Prelude.{◌≡◌, ◌<◌, ◌++◌, false, None, IfOk, IfErr, length, map, option_copied, string_bytes};
ghost use Rattle.std.specs.List.{All, range_with_len};
ghost use Rattle.csl_entry.specs.Numbers.{citation_number};
ghost use Rattle.csl_tree.specs.Tokens.{tokens};
ghost use Rattle.csl_list.specs.Errors.{IsListingError};
ghost use Rattle.csl_list.specs.Pieces.{text_of};
ghost use Rattle.csl_list.specs.Bibliography as spec;

use crate::cases::set_cases_of_work;
use crate::error::ListError;
use crate::identity::{Identity, number_at};
use crate::line_names::{line_content, line_forms};
use crate::list_style::ListStyle;
use crate::options::BibliographyOptions;
use crate::pieces::{push_text, push_tree};
use crate::rendered::BibliographyItem;
use crate::substitute::NamesBefore;
use crate::told::{ToldCite, forms_at};
use csl::Renderer;
use csl_common::Memory;
use csl_entry::{CitationNumber, EntryLike, NameDisambiguationProperties};
use csl_finish::finish;
use csl_style::Style;
use csl_tree::{ElemChildren, Formatting};
use std::alloc::Global;

/// A work with its first field apart.
#[derive(Drop)]
struct Fields {
    first: Option<ElemChildren>,
    others: ElemChildren,
}

/// The formatting of the style's texts around a work.
fn affix_formatting(style: &Style) -> Formatting
    ensures { result ≡ spec.affix_formatting style.now }
{
    match style.bibliography() {
        Some(layout) => Formatting::default().apply(layout.formatting),
        None => Formatting::default(),
    }
}

/// The first child of a content, and the others.
#[tactic(auto, using(crate::proofs::Contents::tokens_joined))]
fn first_apart(alloc: Global, content: ElemChildren) -> Result<Fields, Memory>
    requires { 0 < length content.0.items }
    ensures { IfOk result (λ fields. spec.tokens_of_fields fields.first fields.others
        ≡ tokens content) }
{
    let mut others = content;
    let field = others.0.remove(0);
    let mut first = ElemChildren::new(alloc);
    first.0.push(field)?;
    Ok(Fields {
        first: Some(first),
        others,
    })
}

/// The content of a work, its first field apart if the style has it so and there are others.
fn split_fields(
    alloc: Global,
    options: &BibliographyOptions,
    content: ElemChildren,
) -> Result<Fields, Memory>
    ensures { IfOk result (λ fields. spec.tokens_of_fields fields.first fields.others
        ≡ tokens content) }
{
    if options.second_field_align.is_some() && content.0.len() > 1 {
        return first_apart(alloc, content);
    }
    Ok(Fields {
        first: None,
        others: content,
    })
}

/// A content after the style's text before a work.
fn after_prefix(
    alloc: Global,
    options: &BibliographyOptions,
    formatting: Formatting,
    content: ElemChildren,
) -> Result<ElemChildren, Memory>
    ensures { IfOk result (λ whole. tokens whole
        ≡ text_of (string_bytes options.now.prefix) formatting ++ tokens content) }
{
    let mut whole = ElemChildren::new(alloc);
    push_text(alloc, &mut whole, options.prefix.as_str(), formatting)?;
    push_tree(&mut whole, content)?;
    Ok(whole)
}

/// The fields of a work between the style's texts.
#[tactic(auto, using(crate::proofs::Contents::three_after))]
fn between_affixes(
    alloc: Global,
    options: &BibliographyOptions,
    formatting: Formatting,
    fields: Fields,
) -> Result<Fields, Memory>
    ensures { IfOk result (λ between. spec.tokens_of_fields between.first between.others
        ≡ spec.between_affixes options.now formatting
        (spec.tokens_of_fields fields.first fields.others)) }
{
    let Fields { first, mut others } = fields;
    push_text(alloc, &mut others, options.suffix.as_str(), formatting)?;
    match first {
        Some(first) => Ok(Fields {
            first: Some(after_prefix(alloc, options, formatting, first)?),
            others,
        }),
        None => Ok(Fields {
            first: None,
            others: after_prefix(alloc, options, formatting, others)?,
        }),
    }
}

/// A work between the style's texts, as the bibliography has it before it is finished, with these
/// forms of its names, if there are some. A substitute stands for names that the work before has
/// too.
fn unfinished_fields<T: EntryLike>(
    alloc: Global,
    renderer: &mut Renderer<'_>,
    options: &BibliographyOptions,
    formatting: Formatting,
    work: &T,
    identity: Identity,
    forms: Option<&NameDisambiguationProperties>,
    before: &mut NamesBefore<'_>,
) -> Result<Fields, ListError>
    ensures content { options.now.author_substitute ≡ None
        → spec.has_names_beside identity (option_copied forms.entry) ≡ false
        → IfOk result (λ fields. spec.tokens_of_fields fields.first fields.others
        ≡ spec.between_affixes options.now formatting (spec.content_of renderer.old.style identity
        (option_copied forms.entry) (T.answers work.now))) }
    ensures err { IfErr result IsListingError }
{
    let mut content = line_content(alloc, renderer, work, identity, forms)?;
    if let Some(substitute) = &options.author_substitute {
        before.substitute(alloc, &mut content, substitute)?;
    }
    let fields = split_fields(alloc, options, content)?;
    Ok(between_affixes(alloc, options, formatting, fields)?)
}

/// The fields of a work as an item, each put into its cases and finished by itself.
fn finished_item<T: EntryLike>(
    alloc: Global,
    style: &ListStyle,
    work: &T,
    index: usize,
    number: CitationNumber,
    fields: Fields,
) -> Result<BibliographyItem, Memory>
    ensures work { IfOk result (λ item. item.work ≡ index) }
    ensures number { IfOk result (λ item. item.number ≡ number) }
    ensures key { IfOk result (λ item. string_bytes item.key ≡ T.key_text work.now) }
{
    let Fields {
        mut first,
        mut others,
    } = fields;
    if let Some(first) = &mut first {
        set_cases_of_work(alloc, first, work, style.is_english())?;
        finish(alloc, style.style(), first)?;
    }
    set_cases_of_work(alloc, &mut others, work, style.is_english())?;
    finish(alloc, style.style(), &mut others)?;
    let key = String::from_str(alloc, work.key().as_ref())?;
    Ok(BibliographyItem {
        work: index,
        number,
        key,
        first_field: first,
        content: others,
    })
}

/// The works of a bibliography, in this order. Their numbers are their places. Each shows as many
/// names as its cite, if names were added to this.
pub(crate) fn items<T: EntryLike>(
    alloc: Global,
    renderer: &mut Renderer<'_>,
    style: &ListStyle,
    options: &BibliographyOptions,
    works: &[T],
    order: &[usize],
    identities: &[Identity],
    told: &[ToldCite],
) -> Result<Vec<BibliographyItem>, ListError>
    requires works { All (λ work. work < length works.now) order.now }
    requires identities { length identities.now ≡ length works.now }
    ensures works { IfOk result (λ items. map (λ item. item.work) items.items ≡ order.now) }
    ensures numbers { IfOk result (λ items. map (λ item. citation_number item.number) items.items
        ≡ range_with_len 0 (length order.now)) }
    ensures err { IfErr result IsListingError }
{
    let formatting = affix_formatting(style.style());
    let mut before = NamesBefore::new(alloc, style.style());
    let mut items = Vec::with_capacity(alloc, order.len())?;
    for (place, index) in order.iter().enumerate() {
        let (work, number) = (&works[*index], number_at(place)?);
        let identity = Identity {
            number,
            ..identities[*index]
        };
        let forms = line_forms(alloc, renderer, work, identity, forms_at(told, place))?;
        let fields = unfinished_fields(
            alloc,
            renderer,
            options,
            formatting,
            work,
            identity,
            forms.as_ref(),
            &mut before,
        )?;
        items.push(finished_item(alloc, style, work, *index, number, fields)?)?;
    }
    Ok(items)
}
