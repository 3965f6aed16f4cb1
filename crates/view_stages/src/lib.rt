//! What a command does with a view before and besides its answers: its definition and the sources, its opening, its syncs.
//!
//! Its contract: a name has the definition that its bytes are read as, and the sources the catalogue that they hold, or
//! each the fields of its refusal; and laws of which places an opening or a sync may change, and what they leave where
//! they break off. It knows nothing of lines or of words.
#![tactic(auto)]

mod accepted;
mod definition;
mod sources;

pub use accepted::Definition;
pub use definition::{Understood, read_definition};
pub use sources::{Loading, load_sources};
