//! The first macro that a style calls but does not have (CSL 1.0.2, Macro).

ghost use Rattle.std.specs.Prelude.{◌≡◌, IfOk, option_map, string_bytes};
ghost use Rattle.csl_style.specs.Missing as spec;
ghost use Rattle.csl_elements.specs.View.{definitions};

use crate::call_graph::{PlacedMacros, calls_of};
use csl_elements::Layout;
use std::alloc::{AllocError, Global};

/// The first missing name in the layouts, and then in the macros, where it is `in_macros`.
#[tactic(auto, unfolding(crate::specs::Missing::missing_among))]
fn missing_among<'s>(
    alloc: Global,
    macros: &PlacedMacros<'_, '_>,
    citation: &'s Layout,
    bibliography: &'s Option<Layout>,
    in_macros: Option<&'s str>,
) -> Result<Option<&'s str>, AllocError>
    requires { option_map (λ name. name.now) in_macros
        ≡ spec.missing_in_macros (definitions macros.now) 0 (definitions macros.now) }
    ensures { IfOk result (λ missing. option_map (λ name. name.now) missing
        ≡ spec.missing_among (definitions macros.now) citation.now bibliography.now) }
{
    if let Some(name) = calls_of(alloc, macros, &citation.elements)?.missing {
        return Ok(Some(name));
    }
    if let Some(bibliography) = bibliography {
        if let Some(name) = calls_of(alloc, macros, &bibliography.elements)?.missing {
            return Ok(Some(name));
        }
    }
    Ok(in_macros)
}

/// A copy of the first missing name in the layouts, and then in the macros, where it is
/// `in_macros`.
pub(crate) fn first_missing(
    alloc: Global,
    macros: &PlacedMacros<'_, '_>,
    citation: &Layout,
    bibliography: &Option<Layout>,
    in_macros: Option<&str>,
) -> Result<Option<String>, AllocError>
    requires { option_map (λ name. name.now) in_macros
        ≡ spec.missing_in_macros (definitions macros.now) 0 (definitions macros.now) }
    ensures { IfOk result (λ missing. option_map string_bytes missing
        ≡ spec.missing_among (definitions macros.now) citation.now bibliography.now) }
{
    match missing_among(alloc, macros, citation, bibliography, in_macros)? {
        Some(name) => {
            let copy = String::from_str(alloc, name)?;
            Ok(Some(copy))
        }
        None => Ok(None),
    }
}
