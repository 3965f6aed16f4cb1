//! The command `stack`: an opened stack of views, and its answers to the lines of its input.
//!
//! Its contract: `stack` opens the views of its names over one another and does what each line asks, in turn, at all levels
//! or at none, and syncs the folder of each level at the end of the input. It knows nothing of how a level takes changes, or
//! of the words of the command line.
#![tactic(auto)]

mod definitions;
mod folders;
mod open_stack;
mod opening;
mod stacking;

pub use stacking::stack;
