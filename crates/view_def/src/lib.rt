//! View definitions as data: as they are written, and as they are typed.
//!
//! Its contract: `view_text` is the canonical print of a written definition. It knows nothing of tokens, of the
//! rules of typing or of relations.
#![tactic(auto)]

mod print;
mod typed;
mod written;

pub use print::view_text;
pub use typed::{Cond, Place, Range, Term, View};
pub use written::{Name, Op, RawCond, RawDecl, RawRange, RawTerm, ViewText};
