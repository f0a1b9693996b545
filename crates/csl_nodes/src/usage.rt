//! The usage flags of a dry run (CSL 1.0.2, Group).

ghost use Rattle.std.specs.Prelude.{◌≡◌, true, false};
ghost use Rattle.csl_nodes.specs.Usage as spec;

/// Usage flags: the use of variables, macros and groups in a node.
#[derive(Clone, Copy, Default)]
pub struct UsageInfo {
    /// A variable is called.
    pub has_vars: bool,
    /// A called variable is not empty.
    pub has_non_empty_vars: bool,
    /// A text of a macro prints.
    pub has_used_macros: bool,
    /// A group among the children prints.
    pub has_non_empty_group: bool,
}

impl UsageInfo {
    /// The usage flags of a variable: whether it is called, and whether it is not empty.
    pub(crate) fn of_variable(called: bool, non_empty: bool) -> UsageInfo
        ensures { spec.usage_flags_of result ≡ spec.usage_flags called non_empty false false }
    {
        UsageInfo {
            has_vars: called,
            has_non_empty_vars: non_empty,
            has_used_macros: false,
            has_non_empty_group: false,
        }
    }

    /// Joins the usage flags of a child with those of its parent. The group flag stays the
    /// parent's.
    pub fn merge_child(self, child: UsageInfo) -> UsageInfo
        ensures { spec.usage_flags_of result
            ≡ spec.merge_child (spec.usage_flags_of self) (spec.usage_flags_of child) }
    {
        UsageInfo {
            has_vars: self.has_vars || child.has_vars,
            has_non_empty_vars: self.has_non_empty_vars || child.has_non_empty_vars,
            has_used_macros: self.has_used_macros || child.has_used_macros,
            has_non_empty_group: self.has_non_empty_group,
        }
    }

    /// The group rule (CSL 1.0.2, Group): a group is left out if it calls variables and all are
    /// empty, unless a macro or a group in it prints.
    pub fn should_render_group(self) -> bool
        ensures { result ≡ spec.should_render_group (spec.usage_flags_of self) }
    {
        !self.has_vars
            || self.has_non_empty_vars
            || self.has_used_macros
            || self.has_non_empty_group
    }
}

/// The dry run of a node that prints nothing and calls no variable.
pub fn no_info() -> (bool, UsageInfo)
    ensures { spec.info_view result ≡ spec.no_info }
{
    (false, UsageInfo::default())
}

/// A dry run without its group flag: a layout, a macro, a choice and a substitute count no group
/// among their nodes.
pub fn without_group_flag(info: (bool, UsageInfo)) -> (bool, UsageInfo)
    ensures { spec.info_view result ≡ spec.without_group_flag (spec.info_view info) }
{
    let (prints, mut usage) = info;
    usage.has_non_empty_group = false;
    (prints, usage)
}
