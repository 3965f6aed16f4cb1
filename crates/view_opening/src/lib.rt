//! The opening of a view, and the command `maintain`.
//!
//! Its contract: `open` reads what a view stands on, writes its folder and prints that it did, or tells why the view is
//! refused; `maintain` opens the view of a name and does what each line asks, in turn, within the steps that the line may
//! take, and syncs at the end of the input. It knows nothing of the words of the command line.
#![tactic(auto)]

mod maintaining;
mod opening;

pub use maintaining::maintain;
pub use opening::{Opened, Viewing, open, view_over};
