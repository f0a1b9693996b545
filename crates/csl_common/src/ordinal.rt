//! Ordinals, which may differ with the gender of what they count.

/// The grammatical gender of a term (CSL 1.0.2, Gender-specific Ordinals).
#[derive(Clone, Copy, Debug, PartialEq, Eq, Hash)]
pub enum GrammarGender {
    Feminine,
    Masculine,
}

/// The ordinals of a locale (CSL 1.0.2, Ordinals).
pub trait Ordinals {
    ghost use Rattle.std.specs.Prelude.{◌≡◌, option_map};
    ghost use Rattle.csl_common.specs.Ordinal.{OrdinalTexts};

    /// The suffix of a number's ordinal, if there is one.
    ghost ordinals: { Self → OrdinalTexts };

    /// A number's long ordinal, if there is one.
    ghost long_ordinals: { Self → OrdinalTexts };

    /// Returns the suffix of the number's ordinal in this gender, as `nd` for 2.
    fn lookup(&self, number: i32, gender: Option<GrammarGender>) -> Option<&str>
        ensures { option_map (λ text. text.now) result ≡ ordinals self.now number gender };

    /// Returns the word for the number's ordinal in this gender, as `second` for 2.
    fn long(&self, number: i32, gender: Option<GrammarGender>) -> Option<&str>
        ensures { option_map (λ text. text.now) result ≡ long_ordinals self.now number gender };
}
