//! What takes changes of a catalogue, and has tables for it.
//!
//! Its contract: `propose` answers the first change that is refused, or why there are no tables over the catalogue after
//! the changes, or the script to those tables; `accept` makes the proposal the state, and `dismiss` drops it, and neither
//! takes memory or can fail. It knows nothing of views, of how tables come about or of what stands above.
#![tactic(auto)]

mod applies;
mod refused;

pub use applies::Applies;
pub use refused::GroupRefused;
