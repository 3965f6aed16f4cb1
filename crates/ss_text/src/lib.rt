//! Texts, rows of texts, the tests on them that several crates share, lists of them that ascend, their fronts, and the
//! seed by which a run hashes them.
//!
//! Its contract: a `Text` is a list of bytes and a `Row` a list of texts, with the equality, order and hash of
//! these lists; a front is a number by which they compare where two differ; a seed is where a hash begins. It knows nothing
//! of files, relations or views.
#![tactic(auto)]

mod ascending;
mod front;
mod label;
mod memory;
mod number;
mod row;
mod seed;
mod sets;
mod short;
mod steps;
mod text;

pub use ascending::make_ascending;
pub use front::{first_front, front_of, is_whole};
pub use label::{column_label_legal, table_label_legal};
pub use memory::NoMemory;
pub use number::whole;
pub use row::Row;
pub use seed::Seed;
pub use sets::{put, put_all};
pub use steps::Steps;
pub use text::Text;
