//! Formatted text (CSL 1.0.2, Formatting).

ghost use Rattle.std.specs.Prelude.{◌≡◌};
ghost use Rattle.csl_tree.specs.Formatting.{apply_formatting};

use csl_elements::{FontStyle, FontVariant, FontWeight, TextDecoration, VerticalAlign, formatting};

/// The formatting of a text. Every attribute has a value.
#[derive(Clone, Copy, Debug, Default, PartialEq, Eq, Hash)]
pub struct Formatting {
    pub font_style: FontStyle,
    pub font_variant: FontVariant,
    pub font_weight: FontWeight,
    pub text_decoration: TextDecoration,
    pub vertical_align: VerticalAlign,
}

impl Formatting {
    /// Applies a node's formatting: returns each attribute that the node sets, else that of `self`.
    pub fn apply(self, other: formatting::Formatting) -> Formatting
        ensures { result ≡ apply_formatting other self }
    {
        Formatting {
            font_style: other.font_style.unwrap_or(self.font_style),
            font_variant: other.font_variant.unwrap_or(self.font_variant),
            font_weight: other.font_weight.unwrap_or(self.font_weight),
            text_decoration: other.text_decoration.unwrap_or(self.text_decoration),
            vertical_align: other.vertical_align.unwrap_or(self.vertical_align),
        }
    }

    /// Returns the text with this formatting.
    pub fn add_text(self, text: String) -> Formatted
        ensures { result ≡ record { text = text; formatting = self } }
    {
        Formatted {
            text,
            formatting: self,
        }
    }
}

/// A text with its formatting.
#[derive(PartialEq, Eq, Hash, Drop)]
pub struct Formatted {
    pub text: String,
    pub formatting: Formatting,
}
