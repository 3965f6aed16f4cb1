//! A relation as a sheet.
use crate::Sheet;
use schema_model::Relation;
use ss_text::Row;

impl Sheet for Relation {
    ghost attributes = { λ r. r.attributes };

    ghost placed = { λ r. r.placed };

    fn attributes(&self) -> &Row {
        let _count = self.count();
        self.attributes()
    }

    fn first(&self) -> Option<usize> {
        self.first()
    }

    fn after(&self, place: usize) -> Option<usize> {
        self.after(place)
    }

    fn row(&self, place: usize) -> &Row {
        self.row(place)
    }
}
