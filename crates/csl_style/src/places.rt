//! The places of macros by their names. The place of a macro is its index in the style's list.
//! Definitions: specs/CallGraph.antt, specs/Expansion.antt.

ghost use Rattle.std.specs.Prelude.{◌≡◌, ℕ, List, IfOk};
ghost use Rattle.std.specs.HashMap as hash;
ghost use Rattle.std.specs.BTreeMap as tree;
ghost use Rattle.csl_elements.specs.View.{definitions};
ghost use Rattle.csl_style.specs.Expansion.{macro_index};
ghost use Rattle.csl_style.specs.CallGraph.{place_in, ArePlacesByName};

use csl_elements::CslMacro;
use std::alloc::{AllocError, Global};
use std::collections::{BTreeMap, HashMap};

/// The most macros that a hash map holds, as many as the largest published style has. If their
/// names are chosen to collide, a look-up is a scan of them.
const MOST_HASHED: usize = 67;

/// The place of the first macro of each name. A hash map finds the macros of a usual style soonest.
/// No choice of names makes an ordered map slow, so it holds those of a style with many.
#[derive(Drop)]
pub(crate) enum Places {
    Few(HashMap<String, usize>),
    Many(BTreeMap<String, usize>),
}

impl Places {
    /// The place of the first macro of a name.
    pub(crate) fn get(&self, name: &str) -> Option<usize>
        ensures { result ≡ place_in self.now name.now }
    {
        match self {
            Places::Few(places) => places.get(name).copied(),
            Places::Many(places) => places.get(name).copied(),
        }
    }
}

fn hashed_places(alloc: Global, macros: &[CslMacro]) -> Result<HashMap<String, usize>, AllocError>
    ensures { IfOk result (λ places. (name : List ℕ)
        → hash.get_by_text places name ≡ macro_index name (definitions macros.now)) }
{
    let mut places = HashMap::new(alloc);
    for (i, m) in macros.iter().enumerate() {
        if !places.contains_key(m.name.as_str()) {
            places.insert(m.name.clone()?, i)?;
        }
    }
    Ok(places)
}

fn ordered_places(alloc: Global, macros: &[CslMacro]) -> Result<BTreeMap<String, usize>, AllocError>
    ensures { IfOk result (λ places. (name : List ℕ)
        → tree.get_by_text places name ≡ macro_index name (definitions macros.now)) }
{
    let mut places = BTreeMap::new(alloc);
    for (i, next) in macros.iter().enumerate() {
        if !places.contains_key(next.name.as_str()) {
            places.insert(next.name.clone()?, i)?;
        }
    }
    Ok(places)
}

/// The place of the first macro of each name.
pub(crate) fn places_by_name(alloc: Global, macros: &[CslMacro]) -> Result<Places, AllocError>
    ensures { IfOk result (λ places. ArePlacesByName places (definitions macros.now)) }
{
    if macros.len() <= MOST_HASHED {
        Ok(Places::Few(hashed_places(alloc, macros)?))
    } else {
        Ok(Places::Many(ordered_places(alloc, macros)?))
    }
}
