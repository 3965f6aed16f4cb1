//! The join of two bags of rows by key cells, kept and moved.
//!
//! Its contract: `filled` keeps rows that are all given at once, and `filled_and_joined` gives their join beside; a change
//! of both sides moves the join by the three parts of a product, whose steps are at most the pairs with equal key cells of
//! a move and a kept row of the other side; after `reserve` a change is made without memory. It knows nothing of
//! relations, of views or of tables.
#![tactic(auto)]

mod filled;
mod groups;
mod join;
mod kept;
mod key_places;
mod operator;
mod pairs;
mod partners;
mod products;
mod side;

pub use join::Join;
pub use kept::JoinReady;
pub use key_places::KeyPlaces;
pub use side::rows_of_moves;
