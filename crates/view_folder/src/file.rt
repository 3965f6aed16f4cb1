//! A file of a view folder.
ghost use Rattle.std.specs.Prelude.{◌≡◌, IfOk};
ghost use Rattle.view_folder.specs.Files.{is_csv_name, view_folder, file_name};

use ss_text::{NoMemory, Text};
use std::alloc::Global;

/// A file: its name, and its bytes.
#[derive(Debug, Drop)]
pub struct File {
    pub name: Text,
    pub bytes: Text,
}

// Whether a name ends in `.csv`.
pub(crate) fn is_csv_name(name: &Text) -> bool
    ensures { result ≡ is_csv_name name.now }
{
    let bytes = name.as_slice();
    &bytes[bytes.len().saturating_sub(4)..] == b".csv".as_slice()
}

// The name of the file of a label.
pub(crate) fn file_name(alloc: Global, label: &Text) -> Result<Text, NoMemory>
    ensures { IfOk result (λ name. name ≡ file_name label.now) }
{
    let mut name = Vec::from_slice(alloc, label.as_slice())?;
    name.extend_from_slice(b".csv")?;
    Text::of_vec(name)
}

/// The folder of a view's database.
pub fn folder_of_view(alloc: Global, view_db: &Text) -> Result<Text, NoMemory>
    ensures { IfOk result (λ folder. folder ≡ view_folder view_db.now) }
{
    let mut bytes = Vec::from_slice(alloc, b"views/")?;
    bytes.extend_from_slice(view_db.as_slice())?;
    Text::of(alloc, &bytes)
}
