//! Constructors of choices and branches. Every attribute that is not given has its default.
//! Definitions: specs/View.antt, specs/Constructors.antt.

ghost use Rattle.std.specs.Prelude.{◌≡◌, None, [], ◌∷◌};
ghost use Rattle.csl_elements.specs.Constructors.{no_tests};
ghost use Rattle.csl_elements.specs.Node.{choose};
ghost use Rattle.csl_elements.specs.View.{branches_of, view_branch, view_choose, view_nodes};
ghost use Rattle.csl_elements.specs.declared.element.Choose.{out-Choose};
ghost use Rattle.csl_elements.specs.declared.element.ChooseMatch.TheVariants.{All};

use crate::element::{Choose, ChooseBranch, ChooseMatch, LayoutRenderingElement};
use std::alloc::Global;

impl ChooseBranch {
    /// A branch without tests. Set its tests by struct update.
    #[tactic(auto, using(crate::proofs::Rolled::branch_made))]
    pub fn new(children: Vec<LayoutRenderingElement>) -> ChooseBranch
        ensures view { view_branch result
            ≡ record { tests = no_tests; nodes = view_nodes children.items } }
        ensures disambiguate { result.disambiguate ≡ None }
        ensures is_numeric { result.is_numeric ≡ None }
        ensures is_uncertain_date { result.is_uncertain_date ≡ None }
        ensures locator { result.locator ≡ None }
        ensures position { result.position ≡ None }
        ensures type_ { result.type_ ≡ None }
        ensures variable { result.variable ≡ None }
        ensures match_ { result.match_ ≡ All }
        ensures children { result.children ≡ children }
    {
        ChooseBranch {
            disambiguate: None,
            is_numeric: None,
            is_uncertain_date: None,
            locator: None,
            position: None,
            type_: None,
            variable: None,
            match_: ChooseMatch::All,
            children,
        }
    }
}

impl Choose {
    /// A choice of one branch. If the branch is not chosen, nothing is printed.
    #[tactic(auto, using(crate::proofs::Rolled::choose_view))]
    pub fn new(alloc: Global, branch: ChooseBranch) -> Choose
        ensures view { view_choose result ≡ choose (branches_of (view_branch branch ∷ []) None) }
        ensures if_ { (out-Choose result).if_ ≡ branch }
        ensures else_if { (out-Choose result).else_if.items ≡ [] }
        ensures otherwise { (out-Choose result).otherwise ≡ None }
    {
        Choose {
            if_: branch,
            else_if: Vec::new(alloc),
            otherwise: None,
        }
    }
}
