//! The settings of a name, and the call that writes one (CSL 1.0.2, Name; Name-part;
//! demote-non-dropping-particle; initialize-with-hyphen).

ghost use Rattle.std.specs.Prelude.{◌≡◌};
ghost use Rattle.lit_model.specs.Person.{person_view};
ghost use Rattle.csl_elements.specs.Names.{view_name};
ghost use Rattle.csl_elements.specs.NamesOptions.{complete_options};
ghost use Rattle.csl_context.specs.Context.{Runs};
ghost use Rattle.csl_names.specs.Name.{part_style_view, name_style_view};
ghost use Rattle.csl_names.specs.NameStyles as spec;

use crate::name::NameStyle;
use crate::part::PartStyle;
use crate::piece::no_formatting;
use csl_context::{Context, RenderError};
use csl_entry::DisambiguatedNameForm;
use csl_style::{DemoteNonDroppingParticle, Name, NameOptions, NamePartName};
use lit_model::Person;

/// The formatting and the affixes of a part of a name.
fn part_in(name: &Name, which: NamePartName) -> PartStyle<'_>
    ensures { part_style_view result ≡ spec.part_in which (view_name name.now) }
{
    match name.part(which) {
        Some(part) => PartStyle {
            formatting: part.formatting,
            prefix: part.affixes.prefix.as_deref(),
            suffix: part.affixes.suffix.as_deref(),
        },
        None => PartStyle {
            formatting: no_formatting(),
            prefix: None,
            suffix: None,
        },
    }
}

/// Whether a particle is demoted, by the style's setting.
fn demotes(setting: DemoteNonDroppingParticle, sorting: bool) -> bool
    ensures { result ≡ spec.demotes setting sorting }
{
    match setting {
        DemoteNonDroppingParticle::DisplayAndSort => true,
        DemoteNonDroppingParticle::SortOnly => sorting,
        DemoteNonDroppingParticle::Never => false,
    }
}

/// The settings of a name in this context.
pub(crate) fn name_style<'n, T>(
    ctx: &Context<'_, T>,
    name: &'n Name,
    options: &NameOptions<'n>,
) -> NameStyle<'n>
    ensures { name_style_view result
        ≡ spec.name_style_in ctx.now (view_name name.now) (complete_options options.now) }
{
    let settings = ctx.style().settings();
    let sorting = ctx.sorting().is_some();
    NameStyle {
        given: part_in(name, NamePartName::Given),
        family: part_in(name, NamePartName::Family),
        separator: options.sort_separator,
        initialize_with: options.initialize_with,
        hyphen: settings.initialize_with_hyphen,
        demotes: demotes(settings.demote_non_dropping_particle, sorting),
        sorting,
    }
}

/// Writes one name: an institution, a name in a Chinese, Japanese or Korean script, or one whose
/// family name or given name comes first. Its gaps depend on this name alone.
pub fn write_name<T>(
    ctx: &mut Context<'_, T>,
    name: &Name,
    options: NameOptions<'_>,
    person: &Person,
    form: DisambiguatedNameForm,
    reversed: bool,
) -> Result<(), RenderError>
    ensures { Runs (spec.with_one_name (view_name name.now)
        (complete_options options.entry) form reversed (person_view person.now)) result ctx.old
        ctx.new }
{
    let settings = name_style(ctx, name, &options);
    let part = ctx.push_elem()?;
    settings.push_name(ctx, person, form, reversed)?;
    ctx.splice(part)?;
    Ok(())
}
