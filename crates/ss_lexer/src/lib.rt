//! The tokens of a view text.
//!
//! Its contract: `Tokens` is the list of the tokens that are left, up to the end of the text or to its first fault,
//! and `next` answers the first of them. It knows nothing of the grammar.
#![tactic(auto)]

mod length;
mod token;
mod tokens;

pub use token::{Kind, Token, TokenFault};
pub use tokens::Tokens;
