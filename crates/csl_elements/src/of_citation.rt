//! The variables that the citation answers, and not the entry (CSL 1.0.2, Appendix IV: Variables).
//! Definitions: specs/Taxonomy.antt.

ghost use Rattle.std.specs.Prelude.{◌≡◌};
ghost use Rattle.csl_elements.specs.Taxonomy as spec;

use crate::taxonomy::{NumberVariable, StandardVariable, Variable};

impl Variable {
    /// Whether the citation answers the variable, and not the entry. It answers four: the citation
    /// number, the number of the note that first cites the entry, the locator and the year suffix.
    pub fn is_of_citation(self) -> bool
        ensures { result ≡ spec.is_of_citation self }
    {
        matches!(
            self,
            Variable::Number(NumberVariable::CitationNumber)
                | Variable::Number(NumberVariable::FirstReferenceNoteNumber)
                | Variable::Number(NumberVariable::Locator)
                | Variable::Standard(StandardVariable::YearSuffix)
        )
    }
}
