//! Identifiers that link to an address (CSL 1.0.2, Appendix VI: Links).
//! Definitions: specs/Text.antt.

ghost use Rattle.std.specs.Prelude.{◌≡◌, ◌++◌, IfOk, option_map, string_bytes};
ghost use Rattle.lit_model.specs.Text.{chunks};
ghost use Rattle.lit_model.specs.Chunks.{chunks_text};
ghost use Rattle.csl_elements.specs.View.{text_dressing};
ghost use Rattle.csl_nodes.specs.Text as spec;

use csl_style::{StandardVariable, Text};
use lit_model::{ChunkedString, Memory};
use std::alloc::Global;

/// The text before the answer to a DOI, PMID or PMCID in the address that it links to.
pub(crate) fn url_prefix(variable: StandardVariable) -> Option<&'static str>
    ensures { option_map (λ prefix. prefix.now) result ≡ spec.url_prefix variable }
{
    if variable == StandardVariable::DOI {
        Some("https://doi.org/")
    } else if variable == StandardVariable::PMID {
        Some("https://www.ncbi.nlm.nih.gov/pubmed/")
    } else if variable == StandardVariable::PMCID {
        Some("https://www.ncbi.nlm.nih.gov/pmc/articles/")
    } else {
        None
    }
}

/// The text before the answer in the address that it links to; for a URL it is empty, because the
/// answer is the address.
pub(crate) fn address_prefix(variable: StandardVariable) -> Option<&'static str>
    ensures { option_map (λ prefix. prefix.now) result ≡ spec.address_prefix variable }
{
    if variable == StandardVariable::URL {
        Some("")
    } else {
        url_prefix(variable)
    }
}

/// Whether the node's prefix is that of the address. It then begins the text of the link.
pub(crate) fn begins_link(text: &Text, variable: StandardVariable) -> bool
    ensures { result ≡ spec.begins_link (text_dressing text.now) variable }
{
    match (url_prefix(variable), text.affixes.prefix.as_deref()) {
        (Some(address), Some(prefix)) => prefix == address,
        _ => false,
    }
}

/// An address: the prefix, then the answer.
pub(crate) fn address(alloc: Global, prefix: &str, answer: &ChunkedString) -> Result<String, Memory>
    ensures { IfOk result (λ url.
        string_bytes url ≡ prefix.now ++ chunks_text (chunks answer.now)) }
{
    let text = answer.to_text(alloc)?;
    let mut url = String::with_capacity(alloc, prefix.len().saturating_add(text.len()))?;
    url.push_str(prefix)?;
    url.push_str(text.as_str())?;
    Ok(url)
}
