//! What the records of tables' files are read as.
ghost use Rattle.std.specs.Prelude.{◌≡◌, None, List};
ghost use Rattle.ss_text.specs.Texts.{Text, Row};
ghost use Rattle.flow_law.specs.declared.shape.Shape.{Shape};
ghost use Rattle.flow_law.specs.Tables.{TableValue};
ghost use Rattle.change_script.specs.Fits.{IsForm};
ghost use Rattle.view_folder.specs.Forms.{HasForm};
ghost use Rattle.view_folder.specs.Records.{records_fault, table_in};
ghost use Rattle.view_folder.specs.TableFiles.{table_records};

/// The records of a table's file have no fault and are read as the table, and what is read without a fault are the
/// records of the table that it is read as.
pub fn table_records_read_back()
    ensures sound { (shape : Shape) (file : Text) (t : TableValue) → IsForm shape → HasForm shape t → records_fault shape file (table_records shape t) ≡ None }
    ensures back { (shape : Shape) (t : TableValue) → IsForm shape → HasForm shape t → table_in shape (table_records shape t) ≡ t }
    ensures are { (shape : Shape) (file : Text) (records : List Row) → IsForm shape → records_fault shape file records ≡ None → table_records shape (table_in shape records) ≡ records }
{}
