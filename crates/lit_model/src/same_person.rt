//! Whether persons are the same.

ghost use Rattle.std.specs.Prelude.{◌≡◌, ◌↔◌, map, IsTrue};
ghost use Rattle.lit_model.specs.Person.{person_view};
ghost use Rattle.lit_model.specs.SamePerson.{same_person, same_persons};

use crate::person::Person;

impl Person {
    /// Whether both persons have the same name, given name, prefix, suffix and alias, and both or
    /// neither have a comma before the suffix.
    pub fn is_same_person(&self, other: &Person) -> bool
        ensures texts { IsTrue result ↔ (person_view self.now ≡ person_view other.now) }
        ensures test { result ≡ same_person (person_view self.now) (person_view other.now) }
    {
        *self == *other
    }
}

/// Whether both lists have the same length and the same person ([`Person::is_same_person`]) at each
/// place.
pub fn are_same_persons(persons: &[Person], others: &[Person]) -> bool
    ensures texts { IsTrue result ↔ (map person_view persons.now ≡ map person_view others.now) }
    ensures test { result
        ≡ same_persons (map person_view persons.now) (map person_view others.now) }
{
    *persons == *others
}
