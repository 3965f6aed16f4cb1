//! How an opened view answers the lines of its input.
//!
//! Its contract: each line is answered as its definition says, within the steps that it may take, and at the end of the
//! input the view is synced. It knows nothing of how a view is opened, or of the words of the command line.
#![tactic(auto)]

mod answers;
mod group;
mod handler;

pub use answers::answer_row;
pub use group::end_group;
pub use handler::Answering;
