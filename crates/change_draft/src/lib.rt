//! Changes that wait to be made together.
//!
//! Its contract: a draft judges each change over the catalogue after those that it holds. While they insert and delete
//! rows alone it copies nothing: it counts the rows that come and go. It knows nothing of views, of lines or of what a
//! group of changes is for.
#![tactic(auto)]

mod counted;
mod draft;
mod named;

pub use draft::Draft;
