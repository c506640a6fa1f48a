//! The name and the text of an entry.
ghost use Rattle.source_reader.specs.Plan.{Follows};
ghost use Rattle.source_reader.specs.Entries.{titled};

use crate::faults::SourceFault;
use crate::names::is_name;
use crate::singles::{any_token, string};
use crate::tokens::Token;
use crate::tree::At;
use adv_text::Scan;
use scott_types::Text;
use std::alloc::Global;

/// A name or none, and a text.
#[derive(Drop)]
pub struct Title {
    pub name: Option<At<Text>>,
    pub text: Text,
}

/// Reads a name or none, and a string.
#[tactic(auto, using(crate::proofs::Plans::sections), unfolding(crate::specs::Entries::titled))]
pub fn titled(alloc: Global, scan: &mut Scan) -> Result<Title, SourceFault>
    ensures { Follows titled scan.old result scan.new }
{
    let At { at, what } = any_token(alloc, scan)?;
    match what {
        Token::Quoted(text) => Ok(Title { name: None, text }),
        Token::Word(word) => {
            if !is_name(word.as_slice()) {
                return Err(SourceFault::Unexpected(at));
            }
            let name = word.into_bytes(alloc)?;
            let text = string(alloc, scan)?;
            Ok(Title {
                name: Some(At { at, what: name }),
                text,
            })
        }
        _ => Err(SourceFault::Unexpected(at)),
    }
}
