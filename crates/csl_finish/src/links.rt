//! Which links of a rendered content stay: those to web addresses, or to web addresses at given
//! hosts. Any other link becomes its text.

ghost use Rattle.std.specs.Prelude.{◌≡◌, ◌↔◌, IfOk, IsTrue};
ghost use Rattle.std.specs.List.{All};
ghost use Rattle.lit_model.specs.WebAddress.{IsWebAddress};
ghost use Rattle.csl_tree.specs.Links.{addresses};
ghost use Rattle.csl_tree.specs.Tokens.{tokens, leaf_text};
ghost use Rattle.csl_finish.specs.Links.{HasHostAmong, IsOneOf, IsWebAddressAt};

use csl_tree::ElemChildren;
use lit_model::{Memory, is_web_address};
use std::alloc::Global;
use url::{ParseError, Url};

/// The content, with each link that leads to neither `http` nor `https` replaced by its text.
///
/// # Errors
/// [`Memory`]: out of memory, or an address is larger than 4 GB.
pub fn with_web_links(alloc: Global, rendered: ElemChildren) -> Result<ElemChildren, Memory>
    ensures text { IfOk result (λ content.
        leaf_text (tokens content) ≡ leaf_text (tokens rendered)) }
    ensures web { IfOk result (λ content. All IsWebAddress (addresses (tokens content))) }
{
    let mut content = rendered;
    let mut checked = Ok(());
    content.keep_links(|address: &str| match is_web_address(alloc, address) {
        Ok(is_web) => is_web,
        Err(memory) => {
            checked = Err(memory);
            false
        }
    });
    checked?;
    Ok(content)
}

/// Whether the text is one of these.
pub(crate) fn is_one_of(text: &str, texts: &[&str]) -> bool
    ensures { IsTrue result ↔ IsOneOf texts.now text.now }
{
    for it in texts {
        if *it == text {
            return true;
        }
    }
    false
}

/// Whether an address, as the URL Standard's parser reads it, has one of these hosts.
fn has_host_of(alloc: Global, address: &str, hosts: &[&str]) -> Result<bool, Memory>
    ensures { IfOk result (λ has. IsTrue has ↔ HasHostAmong hosts.now address.now) }
{
    match Url::parse(alloc, address) {
        Ok(url) => match url.host_str() {
            Some(host) => Ok(is_one_of(host, hosts)),
            None => Ok(false),
        },
        Err(ParseError::OutOfMemory | ParseError::Overflow) => Err(Memory),
        Err(_) => Ok(false),
    }
}

/// Whether an address is that of a web page at one of these hosts.
fn is_web_address_of(alloc: Global, address: &str, hosts: &[&str]) -> Result<bool, Memory>
    ensures { IfOk result (λ is. IsTrue is ↔ IsWebAddressAt hosts.now address.now) }
{
    if is_web_address(alloc, address)? {
        has_host_of(alloc, address, hosts)
    } else {
        Ok(false)
    }
}

/// The content, with each link replaced by its text, unless it leads to a web page at one of these
/// hosts. A host is in lower case and ASCII, as a parsed address has it.
///
/// # Errors
/// [`Memory`]: out of memory, or an address is larger than 4 GB.
pub fn with_links_to(
    alloc: Global,
    rendered: ElemChildren,
    hosts: &[&str],
) -> Result<ElemChildren, Memory>
    ensures text { IfOk result (λ content.
        leaf_text (tokens content) ≡ leaf_text (tokens rendered)) }
    ensures sites { IfOk result (λ content.
        All (IsWebAddressAt hosts.now) (addresses (tokens content))) }
{
    let mut content = rendered;
    let mut checked = Ok(());
    content.keep_links(|address: &str| match is_web_address_of(alloc, address, hosts) {
        Ok(is_kept) => is_kept,
        Err(memory) => {
            checked = Err(memory);
            false
        }
    });
    checked?;
    Ok(content)
}
