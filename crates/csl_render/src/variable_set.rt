//! Lists of variables, added to a set.
//! Definitions: crates/csl_elements/specs/VariableSet.antt.

ghost use Rattle.csl_elements.specs.declared.taxonomy.Variable.TheVariants as variable;
ghost use Rattle.csl_elements.specs.VariableSet.{Has, IsWithin};
ghost use Rattle.csl_entry.specs.Alike.{Each};

use csl_style::{DateVariable, NameVariable, Variable, VariableSet};

/// The set with these variables too.
pub(crate) fn with_each(start: VariableSet, variables: &[Variable]) -> VariableSet
    ensures has { Each (Has result) variables.now }
    ensures kept { IsWithin start result }
{
    let mut set = start;
    for variable in variables {
        set = set.with(*variable);
    }
    set
}

/// The set with these name variables too.
pub(crate) fn with_names(start: VariableSet, variables: &[NameVariable]) -> VariableSet
    ensures has { Each (λ v. Has result (variable.Name v)) variables.now }
    ensures kept { IsWithin start result }
{
    let mut set = start;
    for variable in variables {
        set = set.with(Variable::Name(*variable));
    }
    set
}

/// The set with these date variables too.
pub(crate) fn with_dates(start: VariableSet, variables: &[DateVariable]) -> VariableSet
    ensures has { Each (λ v. Has result (variable.Date v)) variables.now }
    ensures kept { IsWithin start result }
{
    let mut set = start;
    for variable in variables {
        set = set.with(Variable::Date(*variable));
    }
    set
}
