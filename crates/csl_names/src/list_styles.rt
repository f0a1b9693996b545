//! The settings of a list of names, and the call that writes one (CSL 1.0.2, Name, Et-al).

ghost use Rattle.std.specs.Prelude.{◌≡◌, map};
ghost use Rattle.std.specs.Cow.{cow_value};
ghost use Rattle.lit_model.specs.Person.{person_view};
ghost use Rattle.csl_elements.specs.Names.{view_name, view_et_al};
ghost use Rattle.csl_elements.specs.NamesOptions.{complete_options};
ghost use Rattle.csl_context.specs.Context.{Runs};
ghost use Rattle.csl_names.specs.ListStyles.{list_style_view, list_style_in, with_name_list};

use crate::list::ListStyle;
use crate::name_styles::name_style;
use csl_context::{Context, RenderError};
use csl_entry::DisambiguatedNameForm;
use csl_style::{EtAl, Name, NameOptions, NameVariable};
use lit_model::Person;
use std::borrow::Cow;

/// The settings of a list of names in this context.
fn list_style<'n, 's: 'n, T>(
    ctx: &Context<'s, T>,
    name: &'n Name,
    options: &NameOptions<'n>,
    et_al: &EtAl,
    variable: NameVariable,
) -> ListStyle<'n>
    ensures { list_style_view result ≡ list_style_in ctx.now (view_name name.now)
        (complete_options options.now)
        (view_et_al et_al.now) variable }
{
    ListStyle {
        style: ctx.style(),
        variable,
        name: name_style(ctx, name, options),
        delimiter: options.delimiter,
        and: options.and,
        before_last: options.delimiter_precedes_last,
        before_et_al: options.delimiter_precedes_et_al,
        use_last: options.et_al_use_last,
        order: options.name_as_sort_order,
        et_al: et_al.term,
        et_al_formatting: et_al.formatting,
    }
}

/// Writes a list of names as [`write_name_list`] does, with options that are lent.
pub(crate) fn push_list_by<T>(
    ctx: &mut Context<'_, T>,
    name: &Name,
    options: &NameOptions<'_>,
    et_al: &EtAl,
    variable: NameVariable,
    persons: &[Cow<'_, Person>],
    forms: &[Option<DisambiguatedNameForm>],
) -> Result<(), RenderError>
    ensures { Runs (with_name_list (view_name name.now) (complete_options options.now)
        (view_et_al et_al.now) variable (map (λ p. person_view (cow_value p)) persons.now)
        forms.now)
        result ctx.old ctx.new }
{
    let settings = list_style(ctx, name, options, et_al, variable);
    settings.push_list(ctx, persons, forms)
}

/// Writes a list of names: those up to the first without a form, each in an element of its own,
/// with separators. If the forms leave a name out, `et al.` or the last name may follow (CSL 1.0.2,
/// Name, Et-al).
pub fn write_name_list<T>(
    ctx: &mut Context<'_, T>,
    name: &Name,
    options: NameOptions<'_>,
    et_al: &EtAl,
    variable: NameVariable,
    persons: &[Cow<'_, Person>],
    forms: &[Option<DisambiguatedNameForm>],
) -> Result<(), RenderError>
    ensures { Runs (with_name_list (view_name name.now) (complete_options options.entry)
        (view_et_al et_al.now) variable (map (λ p. person_view (cow_value p)) persons.now)
        forms.now)
        result ctx.old ctx.new }
{
    push_list_by(ctx, name, &options, et_al, variable, persons, forms)
}
