//! The forms of a name.

ghost use Rattle.std.specs.Prelude.{◌≡◌, ◌<◌, Bool, IfSome};
ghost use Rattle.csl_entry.specs.NameForm.{form_place, shows_given_name, fuller_form};

/// The form of a name: how much of it is shown, from the least to the most (CSL 1.0.2,
/// Disambiguation: disambiguate-add-givenname).
#[derive(Clone, Copy, Debug, PartialEq, Eq, PartialOrd, Ord, Hash)]
pub enum DisambiguatedNameForm {
    /// The name is only counted. Nothing of it is shown.
    Count,
    /// The short form, if given names are initials in the long form.
    ShortInitialized,
    /// The short form, if given names are written out in the long form.
    ShortFull,
    /// The long form, with initials.
    LongInitialized,
    /// The long form, with the given names written out.
    LongFull,
}

impl DisambiguatedNameForm {
    /// Whether the given name is shown.
    pub fn is_long(self) -> bool
        ensures { result ≡ shows_given_name self }
    {
        matches!(
            self,
            DisambiguatedNameForm::LongInitialized | DisambiguatedNameForm::LongFull
        )
    }

    /// Returns the fuller form, or `None` if there is none. It is `LongInitialized` for
    /// `ShortInitialized`. If `full` allows given names to be written out, it is `LongFull` for
    /// `ShortFull` and `LongInitialized`. At most two such steps are possible in a row.
    pub fn disambiguate(self, full: bool) -> Option<DisambiguatedNameForm>
        ensures form { result ≡ fuller_form full self }
        ensures fuller { IfSome result (λ form. form_place self < form_place form) }
        ensures two_steps { IfSome result (λ form. (again after : Bool) →
            IfSome (fuller_form again form) (λ last. fuller_form after last ≡ None)) }
    {
        match self {
            DisambiguatedNameForm::ShortInitialized => Some(DisambiguatedNameForm::LongInitialized),
            DisambiguatedNameForm::ShortFull | DisambiguatedNameForm::LongInitialized if full => {
                Some(DisambiguatedNameForm::LongFull)
            }
            _ => None,
        }
    }
}
