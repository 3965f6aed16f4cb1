//! Reads a view text.
//!
//! Its contract: `parse` answers the tree that the grammar relates to the bytes, or the earliest refusal in the text. It
//! knows nothing of declared variables, and of no relation.
#![tactic(auto)]

mod condition;
mod declaration;
mod fault;
mod keyword;
mod operator;
mod reader;
mod term;
mod unquote;
mod view;

ghost use Rattle.std.specs.Prelude.{ℕ, List};
ghost use Rattle.ss_parser.specs.Refused.{HasReading};

pub use fault::ParseFault;
pub use view::parse;

/// Every text is a view text, or is refused at some place.
pub fn every_text_has_a_reading()
    ensures { (bytes : List ℕ) → HasReading bytes }
{}
