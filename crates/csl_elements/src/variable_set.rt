//! Sets of variables.

ghost use Rattle.std.specs.Prelude.{◌≡◌, ◌<◌, ◌↔◌, ◌||◌, true, false, IsTrue, IfOk, OnOk, if◌then◌else◌};
ghost use Rattle.std.specs.BTreeSet.{contains};
ghost use Rattle.csl_elements.specs.declared.taxonomy.Variable.{Variable};
ghost use Rattle.csl_elements.specs.contracts.taxonomy.VariableOrd.TheImpl.{cmp-value as cmp_variable};
ghost use Rattle.csl_elements.specs.VariableSet as spec;

use crate::taxonomy::Variable;
use crate::taxonomy::all_variables::VARIABLES;
use csl_common::Memory;
use std::alloc::Global;
use std::collections::BTreeSet;

/// The places of variables.
const PLACES: u128 = u128::MAX >> 30;

/// A set of variables, in the bits of a number. Each variable has a place of its own.
#[derive(Clone, Copy)]
pub struct VariableSet {
    places: u128,
}

/// The place of a variable.
fn place(variable: Variable) -> u32
    ensures value { result ≡ spec.place variable }
    ensures bound { result < 98 }
{
    match variable {
        Variable::Standard(standard) => standard as u32,
        Variable::Number(number) => 47 + number as u32,
        Variable::Page(_) => 64,
        Variable::Date(date) => 65 + date as u32,
        Variable::Name(name) => 71 + name as u32,
    }
}

impl VariableSet {
    /// The set without variables.
    pub fn new() -> VariableSet
        ensures { (v : Variable) → spec.has result v ≡ false }
    {
        VariableSet { places: 0 }
    }

    /// The set of all variables.
    pub fn full() -> VariableSet
        ensures { (v : Variable) → spec.has result v ≡ true }
    {
        VariableSet { places: u128::MAX }
    }

    /// The variables of an ordered set.
    pub fn of(variables: &BTreeSet<Variable>) -> VariableSet
        ensures { (v : Variable) → spec.has result v ≡ contains cmp_variable.it variables.now v }
    {
        let mut set = VariableSet::new();
        for variable in variables {
            set = set.with(*variable);
        }
        set
    }

    /// The set with one more variable.
    pub fn with(self, variable: Variable) -> VariableSet
        ensures { spec.has result ≡ spec.with_variable variable (spec.has self) }
    {
        VariableSet {
            places: self.places | 1 << place(variable),
        }
    }

    /// The variables of both sets.
    pub fn union(self, other: VariableSet) -> VariableSet
        ensures { (v : Variable) → spec.has result v ≡ (spec.has self v || spec.has other v) }
    {
        VariableSet {
            places: self.places | other.places,
        }
    }

    /// Whether the set has the variable.
    pub fn contains(self, variable: Variable) -> bool
        ensures { result ≡ spec.has self variable }
    {
        self.places >> place(variable) & 1 == 1
    }

    /// Whether the set and the other have the same of the variables that were read.
    pub fn is_alike_on(self, read: VariableSet, other: VariableSet) -> bool
        ensures { IsTrue result ↔ spec.AreAlikeOn read self other }
    {
        (self.places ^ other.places) & read.places & PLACES == 0
    }

    /// Whether the set has no variable.
    pub fn is_empty(self) -> bool
        ensures { IsTrue result ↔ (spec.has self ≡ spec.no_variables) }
    {
        self.is_alike_on(VariableSet::full(), VariableSet::new())
    }

    /// Adds the variable to an ordered set, if this set has it.
    #[tactic(auto, using(crate::proofs::OrderedSets::added))]
    fn insert_into(self, variable: Variable, ordered: &mut BTreeSet<Variable>) -> Result<(), Memory>
        ensures { OnOk result (spec.members_of ordered.new ≡ (if spec.has self variable
            then spec.with_variable variable (spec.members_of ordered.old) else spec.members_of
            ordered.old)) }
    {
        if !self.contains(variable) {
            return Ok(());
        }
        ordered.insert(variable)?;
        Ok(())
    }

    /// Adds those of the variables to an ordered set that this set has.
    #[tactic(auto, unfolding(crate::specs::VariableSet::with_held))]
    fn insert_all_into(
        self,
        variables: &[Variable],
        ordered: &mut BTreeSet<Variable>,
    ) -> Result<(), Memory>
        ensures { OnOk result (spec.members_of ordered.new
            ≡ spec.with_held (spec.has self) variables.now (spec.members_of ordered.old)) }
    {
        for variable in variables {
            self.insert_into(*variable, ordered)?;
        }
        Ok(())
    }

    /// The variables of the set, in order.
    ///
    /// # Errors
    /// [`Memory`]: out of memory.
    pub fn to_ordered(self, alloc: Global) -> Result<BTreeSet<Variable>, Memory>
        ensures { IfOk result (λ ordered. spec.members_of ordered ≡ spec.has self) }
    {
        let mut ordered = BTreeSet::new(alloc);
        if self.is_empty() {
            return Ok(ordered);
        }
        self.insert_all_into(&VARIABLES, &mut ordered)?;
        Ok(ordered)
    }
}
