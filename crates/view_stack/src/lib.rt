//! A database that stands for tables, and stacks: levels of which each is over the tables of the one below.
//!
//! Its contract: the catalogue of tables is made of them, or its first limit is told; where it stands for tables, it stands for
//! others after the lifted lines of the script to them, unless a limit is passed on the way; and changes of a stack are made at
//! all levels, or the first that refuses is told and none has changed. It is generic in what its levels are: it knows nothing
//! of views, of sessions or of files.
#![tactic(auto)]

mod cell_row;
mod database;
mod fault;
mod key_texts;
mod lifting;
mod names;
mod position;
mod stack;

ghost use Rattle.view_stack.specs.Laws.{LiftedStand, LiftedLimit};

pub use database::catalogue_of;
pub use fault::{LiftFault, StackRefused};
pub use lifting::{Below, lifted};
pub use stack::{Stack, apply_levels};

/// Where a catalogue stands for tables, the lifted lines of the script to others make one that stands for these. The first
/// of them that is refused is refused by the first limit that a database of tables passes on the way.
pub fn lifted_stand()
    ensures stand { LiftedStand }
    ensures limit { LiftedLimit }
{}
