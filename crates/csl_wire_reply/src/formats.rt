//! The formats of a reply.
//! Definitions: specs/Contents.antt.

ghost use Rattle.std.specs.Prelude.{◌≡◌, true, false, IfOk, OnOk, codes};
ghost use Rattle.serde_json.specs.Data.{no_members};
ghost use Rattle.serde_json.specs.View.{members_view, view};
ghost use Rattle.csl_tree.specs.declared.elem.BufWriteFormat.TheVariants as written;
ghost use Rattle.csl_wire_reply.specs.Contents.{HasTree, IsContent, IsMarked};
ghost use Rattle.csl_wire_reply.specs.Contents as spec;

use crate::members::put;
use crate::tree::tree_value;
use csl_finish::with_web_links;
use csl_tree::{BufWriteFormat, ElemChildren, simplify_fully};
use csl_wire::WireError;
use lit_model::Memory;
use serde_json::{Map, Value};
use std::alloc::Global;

/// The formats that a reply has of each content.
#[derive(Clone, Copy, Debug, PartialEq, Eq)]
pub struct Formats {
    /// As plain text.
    pub plain: bool,
    /// As HTML.
    pub html: bool,
    /// As a tree, in its normal form: each element has a display or a meta.
    pub tree: bool,
    /// Whether links to other addresses than those of web pages stay in the HTML and in the tree.
    pub has_all_links: bool,
}

/// How many elements may stand in one another in a tree. A reply has then at most 127 levels.
const MOST_LEVELS: u8 = 56;

/// Sets a member to the text of a content in a format, if it is wanted.
#[tactic(auto, unfolding(crate::specs::Contents::put_format))]
fn put_format(
    alloc: Global,
    members: &mut Map<String, Value>,
    name: &str,
    content: &ElemChildren,
    format: BufWriteFormat,
    is_wanted: bool,
) -> Result<(), Memory>
    ensures { OnOk result (members_view members.new.entries
        ≡ spec.put_format name.now format content.now is_wanted
        (members_view members.old.entries)) }
{
    if is_wanted {
        let text = content.to_text(alloc, format)?;
        put(alloc, members, name, Value::String(text))?;
    }
    Ok(())
}

/// Sets a member to the normal form of a content.
fn put_tree(
    alloc: Global,
    members: &mut Map<String, Value>,
    content: &ElemChildren,
) -> Result<(), WireError>
    ensures { OnOk result (HasTree content.now (members_view members.old.entries)
        (members_view members.new.entries)) }
{
    let simple = simplify_fully(alloc, content)?;
    let value = tree_value(alloc, &simple, MOST_LEVELS)?;
    put(alloc, members, "tree", value)?;
    Ok(())
}

/// Sets a member to the normal form of a content, if it is wanted.
fn put_tree_if(
    alloc: Global,
    members: &mut Map<String, Value>,
    content: &ElemChildren,
    is_wanted: bool,
) -> Result<(), WireError>
    ensures wanted { is_wanted ≡ true → OnOk result (HasTree content.now
        (members_view members.old.entries) (members_view members.new.entries)) }
    ensures left { is_wanted ≡ false → OnOk result (members_view members.new.entries
        ≡ members_view members.old.entries) }
{
    if is_wanted {
        put_tree(alloc, members, content)?;
        return Ok(());
    }
    Ok(())
}

/// The members, with the HTML and the tree of a content.
#[tactic(auto, using(crate::proofs::Contents::marked))]
fn marked_value(
    alloc: Global,
    before: Map<String, Value>,
    content: &ElemChildren,
    formats: Formats,
) -> Result<Value, WireError>
    ensures { IfOk result (λ v. IsMarked formats content.now (members_view before.entries)
        (view v)) }
{
    let mut members = before;
    put_format(
        alloc,
        &mut members,
        "html",
        content,
        BufWriteFormat::Html,
        formats.html,
    )?;
    put_tree_if(alloc, &mut members, content, formats.tree)?;
    Ok(Value::Object(members))
}

/// The members of a reply, with the plain text of a content, if it is wanted.
fn plain_members(
    alloc: Global,
    content: &ElemChildren,
    is_wanted: bool,
) -> Result<Map<String, Value>, Memory>
    ensures { IfOk result (λ m. members_view m.entries ≡ spec.put_format (codes "plain")
        written.Plain content.now is_wanted no_members) }
{
    let mut members = Map::new(alloc);
    put_format(
        alloc,
        &mut members,
        "plain",
        content,
        BufWriteFormat::Plain,
        is_wanted,
    )?;
    Ok(members)
}

/// A content in these formats, as an object.
///
/// # Errors
/// [`WireError::Refused`], with the code `too-deep`: in the tree too many elements stand in one
/// another. [`WireError::Memory`]: out of memory, or an address is larger than 4 GB.
pub fn content_value(
    alloc: Global,
    content: ElemChildren,
    formats: Formats,
) -> Result<Value, WireError>
    ensures { IfOk result (λ v. IsContent formats content (view v)) }
{
    let members = plain_members(alloc, &content, formats.plain)?;
    if formats.has_all_links {
        let value = marked_value(alloc, members, &content, formats)?;
        return Ok(value);
    }
    let linked = with_web_links(alloc, content)?;
    let value = marked_value(alloc, members, &linked, formats)?;
    Ok(value)
}
