//! The files of a view folder.
//!
//! Its contract: after the opening sync the folder's `.csv` files are exactly those of the tables, after a later sync
//! those of the labels that are named are so and all others stay, and the comparison finds the least difference. What
//! is read is the tables whose records the files hold, or the first refusal. It knows nothing of views, of tables'
//! meaning or of source relations.
#![tactic(auto)]

mod comparison;
mod fact_file;
mod fields;
mod file;
mod held;
mod kept_file;
mod later;
mod law;
mod opening;
mod records;
mod table_file;
mod table_texts;

pub use comparison::{Comparison, compare};
pub use file::{File, folder_of_view};
pub use held::{TablesFault, read_tables};
pub use kept_file::kept_text;
pub use later::{sync, sync_at_once};
pub use law::table_records_read_back;
pub use opening::{sync_all, sync_files};
pub use table_file::{table_files, table_text};
pub use table_texts::TableTexts;
