//! The engine of a view.
use crate::ViewTables;
use plan_translate::Plan;

/// A view's plan, and its tables by what their facts are counted as. Both stand for one catalogue.
pub struct Engine {
    pub(crate) plan: Plan,
    pub(crate) tables: ViewTables,
}

impl Drop for Engine {
    fn drop(self) {
        let Engine { plan, tables } = self;
        drop(plan);
        drop(tables);
    }
}
