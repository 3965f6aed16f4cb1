//! Lines of fields: rows as they are spelled between TABs, and the lines of an input.
//!
//! Its contract: lines and rows are one to one, and the lines of an input are answered in order, however
//! its reads are cut. It knows nothing of what the fields mean.
#![tactic(auto)]

mod lines;
mod parts;
mod spelling;
mod window;

pub use lines::{Lines, Next, ReadStop};
pub use parts::split_once;
pub use spelling::{LineFault, push_line, read_line, write_line};
