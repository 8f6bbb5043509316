#![tactic(auto, using(crate::proofs::ListTexts::lists))]
//! Files of links.
ghost use Rattle.std.specs.Prelude.{map, IfOk, IfErr};
ghost use Rattle.cedar_template_links.specs.Links.{link_view};
ghost use Rattle.cedar_linked_text.specs.LinkedTexts.{IsListOf, IsNoList};

use cedar_policy_json_reader::{PolicyJsonError, parse_json};
use cedar_template_links::{Link, links_from_file_json};
use json::Scratch;
use std::alloc::Global;

/// The links of the text, which is a file of links.
pub(crate) fn read_list(alloc: Global, text: &str) -> Result<Vec<Link>, PolicyJsonError>
    ensures listed { IfOk result (λ ls. IsListOf text.now (map link_view ls.items)) }
    ensures refused { IfErr result (IsNoList text.now) }
{
    let mut scratch = Scratch::new(alloc);
    match parse_json(alloc, text, &mut scratch) {
        Ok(value) => links_from_file_json(alloc, &value),
        Err(error) => Err(error),
    }
}
