//! The commands that keep no view open: `check`, `show`, `verify`, `apply` and `load`.
//!
//! Its contract: each does the course that its definitions give, and what a user relies on follows from its status. For
//! `apply`, the tables of a view folder are read, or the folder is refused; each line of an input is applied to them, or
//! its refusal is printed, which ends the run with nothing written; at the end the files of the labels that lines named
//! are synced. It knows nothing of the words of the command line, nor of an opened view's answers.
#![tactic(auto)]

mod applying;
mod checking;
mod lines;
mod loading;
mod meant;
mod opening;
mod refused;
mod showing;
mod tables;
mod verifying;

pub use applying::apply;
pub use checking::check;
pub use loading::load;
pub use showing::show;
pub use verifying::verify;
