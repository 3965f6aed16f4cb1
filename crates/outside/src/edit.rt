//! Edits of files and folders.
use ss_text::Text;

/// One edit of files and folders.
#[derive(Debug, Drop)]
pub enum Edit {
    /// The folder is made, with those above it, where it is missing.
    MakeFolder {
        folder: Text,
    },
    /// The file gets these bytes. Its folder and those above it are made where they are missing.
    Write {
        folder: Text,
        file: Text,
        bytes: Text,
    },
    /// The file is removed, where it is there.
    Remove {
        folder: Text,
        file: Text,
    },
    /// The folder is removed, where it is there without files and subfolders.
    RemoveFolder {
        folder: Text,
    },
}
