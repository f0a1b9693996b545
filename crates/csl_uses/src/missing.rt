//! The words that a style asks of its locales and does not get.
//! Definitions: crates/csl_style/specs/MissingTerm.antt, crates/csl_elements/specs/TermNames.antt.

ghost use Rattle.std.specs.Prelude.{◌≡◌, option_map, option_and_then};
ghost use Rattle.csl.specs.Style.MissingTerm.{missing_term};
ghost use Rattle.csl.specs.Style.TermNames.{term_name};

use csl::style::Style;

/// CSL's name of the first term that cites in a style ask for and that no locale of the style has.
pub fn missing_word(style: &Style) -> Option<&'static str>
    ensures { option_map (λ name. name.now) result ≡ option_and_then (λ asked. term_name asked.0)
        (missing_term style.now style.now.citation) }
{
    let asked = style.missing_term(style.citation())?;
    asked.0.name()
}
