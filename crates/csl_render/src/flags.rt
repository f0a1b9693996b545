//! The result of a dry run in the bits of a number: whether a node prints, and its usage flags
//! (CSL 1.0.2, Group).
//! Definitions: specs/Flags.antt.

ghost use Rattle.std.specs.Prelude.{◌≡◌, ℕ, ◌<◌, ◌==◌, false, ◌&&◌, ◌||◌};
ghost use Rattle.csl_nodes.specs.Usage.{usage_flags_of, info_view, no_info, info_union, as_child_info, group_info, macro_info, should_render_group, without_group_flag};
ghost use Rattle.csl_render.specs.Flags as spec;

use csl_nodes::UsageInfo;

/// The place of the bit that tells whether a node prints.
const PRINTS: u32 = 0;

/// The place of the flag that a variable is called.
const VARS: u32 = 1;

/// The place of the flag that a called variable is not empty.
const NON_EMPTY_VARS: u32 = 2;

/// The place of the flag that a text of a macro prints.
const USED_MACROS: u32 = 3;

/// The place of the flag that a group among the children prints.
const NON_EMPTY_GROUP: u32 = 4;

/// The bits of the usage flags.
const USAGE: u32 = 0b11110;

/// All bits but that of the group flag.
const NO_GROUP: u32 = 0b01111;

/// The bits of the two flags of variables.
const OF_VARIABLES: u32 = 0b00110;

/// Whether a node would print, and its usage flags.
#[derive(Clone, Copy)]
pub(crate) struct InfoFlags {
    bits: u32,
}

impl InfoFlags {
    /// The dry run of nothing: it does not print and has no flags.
    pub(crate) fn none() -> InfoFlags
        ensures info { spec.info_of_flags result ≡ no_info }
        ensures none { (i : ℕ) → spec.has_flag result.bits i ≡ false }
    {
        InfoFlags { bits: 0 }
    }

    /// The bits of an answer.
    pub(crate) fn of(answer: (bool, UsageInfo)) -> InfoFlags
        ensures { spec.info_of_flags result ≡ info_view answer }
    {
        let (prints, usage) = answer;
        InfoFlags::none()
            .with(PRINTS, prints)
            .with(VARS, usage.has_vars)
            .with(NON_EMPTY_VARS, usage.has_non_empty_vars)
            .with(USED_MACROS, usage.has_used_macros)
            .with(NON_EMPTY_GROUP, usage.has_non_empty_group)
    }

    /// The answer.
    pub(crate) fn answer(self) -> (bool, UsageInfo)
        ensures { info_view result ≡ spec.info_of_flags self }
    {
        (self.prints(), self.usage())
    }

    /// Whether the bit at a place is set.
    fn has(self, place: u32) -> bool
        requires { place < 32 }
        ensures { result ≡ spec.has_flag self.bits place }
    {
        self.bits >> place & 1 == 1
    }

    /// These bits, and the one at a place if it is to be set.
    fn with(self, place: u32, set: bool) -> InfoFlags
        requires { place < 32 }
        ensures { (i : ℕ) → spec.has_flag result.bits i
            ≡ ((i == place && set) || spec.has_flag self.bits i) }
    {
        if set {
            InfoFlags {
                bits: self.bits | 1 << place,
            }
        } else {
            self
        }
    }

    /// Those of the bits that are among the given ones.
    fn only(self, bits: u32) -> InfoFlags
        ensures { (i : ℕ) → spec.has_flag result.bits i
            ≡ (spec.has_flag bits i && spec.has_flag self.bits i) }
    {
        InfoFlags {
            bits: self.bits & bits,
        }
    }

    /// Whether the node would print.
    pub(crate) fn prints(self) -> bool
        ensures { result ≡ (spec.info_of_flags self).prints }
    {
        self.has(PRINTS)
    }

    /// Whether the node would print, and calls a variable that is not empty.
    pub(crate) fn prints_variable(self) -> bool
        ensures { result ≡ ((spec.info_of_flags self).prints
            && (spec.info_of_flags self).flags.has_vars
            && (spec.info_of_flags self).flags.has_non_empty_vars) }
    {
        self.has(PRINTS) && self.has(VARS) && self.has(NON_EMPTY_VARS)
    }

    /// The usage flags.
    pub(crate) fn usage(self) -> UsageInfo
        ensures { usage_flags_of result ≡ (spec.info_of_flags self).flags }
    {
        UsageInfo {
            has_vars: self.has(VARS),
            has_non_empty_vars: self.has(NON_EMPTY_VARS),
            has_used_macros: self.has(USED_MACROS),
            has_non_empty_group: self.has(NON_EMPTY_GROUP),
        }
    }

    /// Without the group flag: a macro, a choice and a substitute count no group among their nodes.
    pub(crate) fn without_group_flag(self) -> InfoFlags
        ensures { spec.info_of_flags result ≡ without_group_flag (spec.info_of_flags self) }
    {
        self.only(NO_GROUP)
    }

    /// Whether the node is a group that prints. `is_group` is whether it is a group.
    fn is_printing_group(self, is_group: bool) -> bool
        ensures { result ≡ (is_group && (spec.info_of_flags self).prints) }
    {
        is_group && self.prints()
    }

    /// Whether the group rule holds for the flags, and a node prints.
    fn shows(self) -> bool
        ensures { result ≡ (should_render_group (spec.info_of_flags self).flags
            && (spec.info_of_flags self).prints) }
    {
        self.usage().should_render_group() && self.prints()
    }

    /// The dry run of a child as its parent counts it: the group flag is whether the child is
    /// itself a group that prints.
    fn as_child(self, is_group: bool) -> InfoFlags
        ensures { spec.info_of_flags result ≡ as_child_info is_group (spec.info_of_flags self) }
    {
        self.only(NO_GROUP)
            .with(NON_EMPTY_GROUP, self.is_printing_group(is_group))
    }

    /// The dry run so far, joined with that of a child.
    pub(crate) fn with_child(self, child: InfoFlags, is_group: bool) -> InfoFlags
        ensures { spec.info_of_flags result ≡ info_union (spec.info_of_flags self)
            (as_child_info is_group (spec.info_of_flags child)) }
    {
        InfoFlags {
            bits: self.bits | child.as_child(is_group).bits,
        }
    }

    /// The dry run of a group, by that of its children.
    pub(crate) fn of_group(self) -> InfoFlags
        ensures { spec.info_of_flags result ≡ group_info (spec.info_of_flags self) }
    {
        if self.usage().should_render_group() {
            self
        } else {
            self.only(USAGE)
        }
    }

    /// The dry run of a text that calls a macro, by that of the macro's nodes.
    pub(crate) fn of_macro(self) -> InfoFlags
        ensures { spec.info_of_flags result
            ≡ macro_info (without_group_flag (spec.info_of_flags self)) }
    {
        let shows = self.without_group_flag().shows();
        self.only(OF_VARIABLES)
            .with(PRINTS, shows)
            .with(USED_MACROS, shows)
    }
}
