//! Catalogues as folders of CSV files: their loading, and the canonical text of records and relations.
//!
//! Its contract: `load` is the catalogue of the bytes that a store holds, or its first refusal in one order;
//! what is written in canonical text is read back; `save_changed` brings the folders and files that are named to
//! what the catalogue has of them. It knows nothing of views or of changes.
#![tactic(auto)]

mod database;
mod fault;
mod file;
mod files;
mod found;
mod front;
mod judge;
mod listing;
mod loading;
mod place;
mod put;
mod read;
mod records_text;
mod relation;
mod save;
mod write;

pub use fault::LoadFault;
pub use judge::first_repeated;
pub use loading::load;
pub use read::records;
pub use records_text::RecordsText;
pub use save::save_changed;
pub use schema_model::Pair;
pub use write::{record_text, relation_text, written_records_read_back};
