//! The parts of a date (CSL 1.0.2, Date-part; Localized Date Formats; Affixes, Delimiter).
//! Definitions: specs/Date.antt, specs/Boxes.antt.

ghost use Rattle.std.specs.Prelude.{◌≡◌, ◌&&◌, not, map, unwrap_or, option_map, IfOk, string_bytes};
ghost use Rattle.lit_model.specs.Date.{date_view};
ghost use Rattle.csl_elements.specs.declared.date.DateParts.TheVariants.{YearMonthDay};
ghost use Rattle.csl_elements.specs.Dressing.{dressing_of};
ghost use Rattle.csl_elements.specs.View.{view_date_part};
ghost use Rattle.csl_tree.specs.Tokens.{has_children};
ghost use Rattle.csl_context.specs.Context.{Runs, Gives, render_input, with_content};
ghost use Rattle.csl_context.specs.Texts.{text_in};
ghost use Rattle.csl_nodes.specs.Boxes.{in_plain, plain_between};
ghost use Rattle.csl_nodes.specs.Date as spec;

use crate::boxes::NodeDressing;
use crate::date_suffix::is_suffix_alone;
use crate::date_text::{is_written, part_text};
use csl_context::{BodyDressing, Context, RenderError};
use csl_entry::EntryLike;
use csl_style::{Affixes, Date, DateAnyForm, DatePart, DatePartName, DateParts, Formatting};
use lit_model::{Date as Given, Memory};

/// A date as it is written: the node and, if it has a form, the localized date that it overrides.
#[derive(Clone, Copy)]
pub(crate) struct LocalizedDate<'d> {
    pub(crate) node: &'d Date,
    pub(crate) localized: Option<&'d Date>,
}

/// The node's own parts that override those of the localized date: the first of each name.
#[derive(Clone, Copy)]
struct OwnParts<'d> {
    day: Option<&'d DatePart>,
    month: Option<&'d DatePart>,
    year: Option<&'d DatePart>,
}

impl<'d> OwnParts<'d> {
    /// The part with this name.
    fn named(self, name: DatePartName) -> Option<&'d DatePart>
        ensures { option_map (λ part. view_date_part part.now) result
            ≡ spec.own_named self.entry name }
    {
        match name {
            DatePartName::Day => self.day,
            DatePartName::Month => self.month,
            DatePartName::Year => self.year,
        }
    }
}

/// The value of a date: the answer of the cite, and the suffix after its year.
#[derive(Clone, Copy)]
pub(crate) struct DateValue<'d> {
    pub(crate) date: &'d Given,
    pub(crate) suffix: &'d str,
}

/// The first part with this name.
fn part_named(parts: &[DatePart], name: DatePartName) -> Option<&DatePart>
    ensures { option_map (λ part. view_date_part part.now) result
        ≡ spec.own_part (map view_date_part parts.now) name }
{
    for part in parts {
        if part.name == name {
            return Some(part);
        }
    }
    None
}

impl<'d> LocalizedDate<'d> {
    /// The date-parts of the node, else of the localized date, else year, month and day.
    fn date_parts(self) -> DateParts
        ensures { result ≡ unwrap_or (spec.localized_node self.entry).parts YearMonthDay }
    {
        match self.localized {
            None => self.node.parts.unwrap_or(DateParts::YearMonthDay),
            Some(localized) => self
                .node
                .parts
                .or(localized.parts)
                .unwrap_or(DateParts::YearMonthDay),
        }
    }

    /// The delimiter between two parts that print something.
    fn delimiter(self) -> Option<&'d str>
        ensures { option_map (λ t. t.now) result ≡ (spec.localized_node self.entry).delimiter }
    {
        match self.localized {
            None => self.node.delimiter.as_deref(),
            Some(localized) => localized.delimiter.as_deref(),
        }
    }

    /// The formatting of the whole date.
    pub(crate) fn formatting(self) -> Formatting
        ensures { result ≡ (spec.localized_node self.entry).dressing.formatting }
    {
        match self.localized {
            None => self.node.formatting,
            Some(localized) => self.node.formatting.apply(localized.formatting),
        }
    }

    /// The parts in order, without the overrides by the node's own parts.
    fn parts(self) -> &'d [DatePart]
        ensures { map (spec.part_over (spec.own_parts self.entry)) (map view_date_part result.now)
            ≡ (spec.localized_node self.entry).date_part }
    {
        match self.localized {
            None => &self.node.date_part,
            Some(localized) => &localized.date_part,
        }
    }

    /// The node's own part of that name, if there is a localized date to override.
    fn own_part(self, name: DatePartName) -> Option<&'d DatePart>
        ensures { option_map (λ part. view_date_part part.now) result
            ≡ spec.own_part (spec.own_parts self.entry) name }
    {
        match self.localized {
            None => None,
            Some(_) => part_named(&self.node.date_part, name),
        }
    }

    /// The node's own part of each name.
    fn own_parts(self) -> OwnParts<'d>
        ensures { (name : DatePartName)
            → spec.own_named result name ≡ spec.own_part (spec.own_parts self.entry) name }
    {
        OwnParts {
            day: self.own_part(DatePartName::Day),
            month: self.own_part(DatePartName::Month),
            year: self.own_part(DatePartName::Year),
        }
    }
}

/// The form of a part. The form of the node's own part replaces it, set or not.
fn form_over(own: Option<&DatePart>, form: Option<DateAnyForm>) -> Option<DateAnyForm>
    ensures { result
        ≡ spec.form_over (option_map (λ part. view_date_part part.now) own.entry) form }
{
    match own {
        Some(own) => own.form,
        None => form,
    }
}

/// The formatting of a part, with that of the node's own part over it.
fn formatting_over(own: Option<&DatePart>, formatting: Formatting) -> Formatting
    ensures { result
        ≡ spec.formatting_over (option_map (λ part. view_date_part part.now) own.entry) formatting }
{
    match own {
        Some(own) => own.formatting.apply(formatting),
        None => formatting,
    }
}

/// Whether a part strips its periods. Only a month can.
fn is_stripped(name: DatePartName, strip: bool) -> bool
    ensures { result ≡ spec.is_stripped name strip }
{
    match name {
        DatePartName::Day => false,
        DatePartName::Month => strip,
        DatePartName::Year => false,
    }
}

/// The suffix if the part is the year, else an empty text.
fn suffix_with(name: DatePartName, suffix: &str) -> &str
    ensures { result.now ≡ spec.suffix_with name suffix.now }
{
    match name {
        DatePartName::Day => "",
        DatePartName::Month => "",
        DatePartName::Year => suffix,
    }
}

/// The text of a part: its value if it is written, then the suffix if it is the year. The form for
/// the year suffix leaves out all values.
fn part_value<T>(
    ctx: &Context<'_, T>,
    found: DateValue<'_>,
    parts: DateParts,
    name: DatePartName,
    form: Option<DateAnyForm>,
) -> Result<String, Memory>
    ensures { IfOk result (λ text. string_bytes text ≡ spec.part_value ctx.now.style
        (spec.is_suffix_alone ctx.now.special) parts found.entry.suffix.now
        (date_view found.entry.date.now) name form) }
{
    let alone = is_suffix_alone(ctx.special_form());
    let mut text = if !alone && is_written(parts, found.date, name) {
        part_text(ctx, name, form, found.date)?
    } else {
        String::new(ctx.alloc())
    };
    text.push_str(suffix_with(name, found.suffix))?;
    Ok(text)
}

/// Appends the text of a part in its formatting and affixes, without a box.
fn write_part<'s, T: EntryLike>(
    ctx: &mut Context<'s, T>,
    around: NodeDressing<'_>,
    text: &str,
) -> Result<(), RenderError>
    ensures { Runs (with_content (λ inh. plain_between (dressing_of around.entry.formatting
        around.entry.affixes.now around.entry.display) inh
        (text_in (in_plain (dressing_of around.entry.formatting around.entry.affixes.now
        around.entry.display) around.entry.strip_periods inh) text.now))) result ctx.old ctx.new }
{
    let inside = BodyDressing {
        formatting: around.formatting,
        affixes: around.affixes,
        quotes: false,
        strip_periods: around.strip_periods,
    };
    let before = ctx.open_body(inside)?;
    ctx.push_str(text)?;
    ctx.close_body(inside, before)?;
    Ok(())
}

/// Renders a part, with the node's own part of its name over it. The form for the year suffix
/// leaves out its affixes.
fn render_part<'s, T: EntryLike>(
    ctx: &mut Context<'s, T>,
    date: LocalizedDate<'_>,
    found: DateValue<'_>,
    own: Option<&DatePart>,
    part: &DatePart,
) -> Result<(), RenderError>
    ensures { Runs (λ now. with_content (λ inh. spec.printed_part (render_input T.answers now)
        date.entry found.entry inh own.entry part.now) now) result ctx.old ctx.new }
{
    let bare = Affixes::default();
    let alone = is_suffix_alone(ctx.special_form());
    let around = NodeDressing {
        formatting: formatting_over(own, part.formatting),
        affixes: if alone { &bare } else { &part.affixes },
        display: None,
        strip_periods: is_stripped(part.name, part.strip_periods),
    };
    let form = form_over(own, part.form);
    let text = ctx.attempt(part_value(ctx, found, date.date_parts(), part.name, form))?;
    write_part(ctx, around, text.as_str())
}

/// Renders a part, after the delimiter unless no part of the date has printed yet (`first`).
/// Returns whether still none has.
fn render_next_part<'s, T: EntryLike>(
    ctx: &mut Context<'s, T>,
    date: LocalizedDate<'_>,
    found: DateValue<'_>,
    own: Option<&DatePart>,
    part: &DatePart,
    first: bool,
) -> Result<bool, RenderError>
    ensures value { Gives result (first && not (has_children (spec.printed_part
        (render_input T.answers ctx.old) date.entry found.entry ctx.old.inherited own.entry
        part.now))) }
    ensures after { Runs (λ now. with_content (λ inh. spec.next_part (render_input T.answers now)
        date.entry found.entry inh own.entry first part.now) now) result ctx.old ctx.new }
{
    let mark = ctx.push_elem()?;
    render_part(ctx, date, found, own, part)?;
    let is_empty = ctx.open_part_is_empty();
    if first {
        ctx.splice(mark)?;
        return Ok(is_empty);
    }
    ctx.splice_affixed(mark, date.delimiter(), None)?;
    Ok(false)
}

/// Renders the parts, with the delimiter between those that print something.
pub(crate) fn render_parts<'s, T: EntryLike>(
    ctx: &mut Context<'s, T>,
    date: LocalizedDate<'_>,
    found: DateValue<'_>,
) -> Result<(), RenderError>
    ensures { Runs (λ now. with_content (spec.date_body (render_input T.answers now)
        (spec.localized_node date.entry) found.entry.suffix.now (date_view found.entry.date.now))
        now)
        result ctx.old ctx.new }
{
    ctx.ensure_live()?;
    let mut first = true;
    let own = date.own_parts();
    let parts = date.parts();
    for part in parts {
        first = render_next_part(ctx, date, found, own.named(part.name), part, first)?;
    }
    Ok(())
}
