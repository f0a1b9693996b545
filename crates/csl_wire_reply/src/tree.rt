//! A content as the tree of its texts and elements.
//! Definitions: specs/Tree.antt.

ghost use Rattle.std.specs.Prelude.{◌≡◌, ◌+◌, IfOk, OnOk, string_bytes};
ghost use Rattle.serde_json.specs.View.{view, members_view};
ghost use Rattle.csl_tree.specs.declared.elem.Elem.{out-Elem};
ghost use Rattle.csl_tree.specs.Tokens.{optional_meta};
ghost use Rattle.csl_wire_reply.specs.Members as members_spec;
ghost use Rattle.csl_wire_reply.specs.Tree as spec;

use crate::members::{put, put_number, put_text, put_text_if};
use crate::meta::put_meta;
use crate::names;
use csl_elements::Display;
use csl_tree::{Elem, ElemChild, ElemChildren, Formatted, Formatting};
use csl_wire::{Code, WireError};
use lit_model::Memory;
use serde_json::{Map, Value};
use std::alloc::Global;

/// Sets the members of a formatting. A default has none.
fn put_formatting(
    alloc: Global,
    members: &mut Map<String, Value>,
    formatting: Formatting,
) -> Result<(), Memory>
    ensures { OnOk result (members_view members.new.entries
        ≡ members_spec.put_formatting formatting (members_view members.old.entries)) }
{
    let style = names::font_style(formatting.font_style);
    put_text_if(alloc, members, "font-style", style)?;
    let variant = names::font_variant(formatting.font_variant);
    put_text_if(alloc, members, "font-variant", variant)?;
    let weight = names::font_weight(formatting.font_weight);
    put_text_if(alloc, members, "font-weight", weight)?;
    let decoration = names::text_decoration(formatting.text_decoration);
    put_text_if(alloc, members, "text-decoration", decoration)?;
    let align = names::vertical_align(formatting.vertical_align);
    put_text_if(alloc, members, "vertical-align", align)?;
    Ok(())
}

/// The members of a text.
fn text_members(alloc: Global, text: &Formatted) -> Result<Map<String, Value>, Memory>
    ensures { IfOk result (λ m. members_view m.entries
        ≡ spec.text_members (string_bytes text.now.text) text.now.formatting) }
{
    let mut members = Map::new(alloc);
    put_text(alloc, &mut members, "text", text.text.as_str())?;
    put_formatting(alloc, &mut members, text.formatting)?;
    Ok(members)
}

/// A link: a text with an address.
fn link_value(alloc: Global, text: &Formatted, url: &str) -> Result<Value, Memory>
    ensures { IfOk result (λ v. view v
        ≡ spec.link_data (string_bytes text.now.text) text.now.formatting url.now) }
{
    let mut members = text_members(alloc, text)?;
    put_text(alloc, &mut members, "url", url)?;
    Ok(Value::Object(members))
}

/// A text that a typesetter reads.
fn markup_value(alloc: Global, markup: &str) -> Result<Value, Memory>
    ensures { IfOk result (λ v. view v ≡ spec.markup_data markup.now) }
{
    let mut members = Map::new(alloc);
    put_text(alloc, &mut members, "markup", markup)?;
    Ok(Value::Object(members))
}

/// A place for the text of a cite.
fn place_value(alloc: Global, cite: usize, formatting: Formatting) -> Result<Value, Memory>
    ensures { IfOk result (λ v. view v ≡ spec.place_data cite formatting) }
{
    let mut members = Map::new(alloc);
    put_number(alloc, &mut members, "cite", cite as u64)?;
    put_formatting(alloc, &mut members, formatting)?;
    Ok(Value::Object(members))
}

/// Sets the member of a display, if there is one.
#[tactic(auto, unfolding(crate::specs::Tree::put_display))]
fn put_display(
    alloc: Global,
    members: &mut Map<String, Value>,
    display: Option<Display>,
) -> Result<(), Memory>
    ensures { OnOk result (members_view members.new.entries
        ≡ spec.put_display display (members_view members.old.entries)) }
{
    if let Some(display) = display {
        put_text(alloc, members, "display", names::display(display))?;
    }
    Ok(())
}

/// An element around children that were made.
fn elem_value(alloc: Global, elem: &Elem, children: Value) -> Result<Value, Memory>
    ensures { IfOk result (λ v. view v ≡ spec.elem_data (out-Elem elem.now).display
        (optional_meta (out-Elem elem.now).meta) (view children)) }
{
    let mut members = Map::new(alloc);
    put(alloc, &mut members, "children", children)?;
    put_display(alloc, &mut members, elem.display)?;
    put_meta(alloc, &mut members, &elem.meta)?;
    Ok(Value::Object(members))
}

/// One level less, or the refusal of what stands too deep.
fn below(alloc: Global, levels: u8) -> Result<u8, WireError>
    ensures { IfOk result (λ lower. lower + 1 ≡ levels) }
{
    match levels.checked_sub(1) {
        Some(lower) => Ok(lower),
        None => {
            let reason = "too many elements stand in one another";
            Err(WireError::of(alloc, Code::TooDeep, reason))
        }
    }
}

/// A child, in which elements stand at most so deep.
#[cycle(values)]
fn child_value(alloc: Global, child: &ElemChild, levels: u8) -> Result<Value, WireError>
    ensures { IfOk result (λ v. view v ≡ spec.child_data child.now) }
{
    match child {
        ElemChild::Text(text) => {
            let members = text_members(alloc, text)?;
            Ok(Value::Object(members))
        }
        ElemChild::Elem(elem) => {
            let lower = below(alloc, levels)?;
            let children = tree_value(alloc, &elem.children, lower)?;
            Ok(elem_value(alloc, elem, children)?)
        }
        ElemChild::Markup(markup) => Ok(markup_value(alloc, markup.as_str())?),
        ElemChild::Link { text, url } => Ok(link_value(alloc, text, url.as_str())?),
        ElemChild::Transparent { cite_idx, format } => {
            Ok(place_value(alloc, *cite_idx, *format)?)
        }
    }
}

/// A content as the list of its children.
///
/// # Errors
/// [`WireError::Refused`], with [`Code::TooDeep`]: more elements than `levels` stand in one
/// another.
#[cycle(values)]
pub fn tree_value(alloc: Global, content: &ElemChildren, levels: u8) -> Result<Value, WireError>
    ensures { IfOk result (λ v. view v ≡ spec.tree_data content.now) }
{
    let mut items = Vec::with_capacity(alloc, content.0.len())?;
    for child in &content.0 {
        items.push(child_value(alloc, child, levels)?)?;
    }
    Ok(Value::Array(items))
}
