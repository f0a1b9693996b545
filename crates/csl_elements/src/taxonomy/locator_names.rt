//! The names of locators (CSL 1.0.2, Locators).

ghost use Rattle.std.specs.Prelude.{◌≡◌, ◌↔◌, Some};
ghost use Rattle.csl_elements.specs.LocatorNames.{locator_name};

use crate::taxonomy::Locator;

/// The kinds of locators.
static LOCATORS: [Locator; 28] = each! {
    Locator:
    Act, Appendix, Book, Canon, Chapter, Column, Equation, Figure, Folio, Issue, Line, Note, Number,
    Opus, Page, Paragraph, Part, Rule, Scene, Section, SubVerbo, Supplement, Table, Timestamp,
    Verse, Version, Volume, Custom,
};

impl Locator {
    /// The kind of locator of this name, such as `sub-verbo`, if there is one.
    pub fn from_name(name: &str) -> Option<Locator>
        ensures { (locator : Locator) → (result ≡ Some locator)
            ↔ (name.now ≡ locator_name locator) }
    {
        LOCATORS
            .iter()
            .find(|locator| locator.name() == name)
            .copied()
    }

    /// Its name in CSL, such as `sub-verbo`; `custom` for a custom one, which CSL does not name.
    pub fn name(&self) -> &'static str
        ensures { result.now ≡ locator_name self.now }
    {
        names! {
            self of Locator:
            Act "act", Appendix "appendix", Book "book", Canon "canon", Chapter "chapter",
            Column "column", Equation "equation", Figure "figure", Folio "folio", Issue "issue",
            Line "line", Note "note", Number "number", Opus "opus", Page "page",
            Paragraph "paragraph", Part "part", Rule "rule", Scene "scene", Section "section",
            SubVerbo "sub-verbo", Supplement "supplement", Table "table", Timestamp "timestamp",
            Verse "verse", Version "version", Volume "volume", Custom "custom",
        }
    }
}
