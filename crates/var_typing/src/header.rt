//! The header of a view: its database, its table label and its columns.
ghost use Rattle.std.specs.Prelude.{◌≡◌, ◌≤◌, ◌++◌, ◌∷◌, [], length, is_some, Some, None, OnOk};
ghost use Rattle.ss_text.specs.Texts.{is_in};
ghost use Rattle.view_def.specs.Tree.{tree_of};
ghost use Rattle.var_typing.specs.Header.{name_label_fault, database_fault, label_fault, columns_fault, column_places, column_after, count_fault, header_fault, header_of, header_parts, column_parts, parts_of, with_column};
ghost use Rattle.view_def.specs.declared.typed.Place.TheVariants as place;
ghost use Rattle.var_typing.specs.declared.fault.TypeFault.TheVariants.{TwoVariableColumns, ColumnTwice};
ghost use Rattle.var_typing.specs.Refusals.{where_true, ◌or_else◌, Answers, IsJudged};
ghost use Rattle.var_typing.specs.Scope.{variable_named, place_named};

use crate::TypeFault;
use crate::scope::Scope;
use indexmap::IndexSet;
use ss_text::{Text, table_label_legal};
use std::alloc::Global;
use view_def::{Name, Place, ViewText};

/// What the columns stand for: the constants in order, and the place among the columns of the one variable.
#[derive(Drop)]
pub(crate) struct Columns {
    pub constants: IndexSet<Text>,
    pub spot: Option<usize>,
    pub column: Option<Place>,
}

/// The view database, the table label and the columns.
#[derive(Drop)]
pub(crate) struct Header {
    pub view_db: Text,
    pub label: Place,
    pub columns: Columns,
}

/// The header of a view, which has as many terms as columns.
pub(crate) fn type_header(
    alloc: Global,
    scope: &Scope<'_>,
    view: &ViewText,
) -> Result<Header, TypeFault>
    requires whole { scope.now.decls.now ≡ view.now.decls.items }
    requires few { length view.now.decls.items ≤ 8 }
    ensures { let t = tree_of view.now in
        Answers header_parts (header_fault t or_else count_fault t) (header_of t) result }
{
    let view_db = type_database(scope, &view.view_db)?;
    let label = type_label(scope, &view.label)?;
    let columns = type_columns(alloc, scope, &view.columns)?;
    check_count(view)?;
    Ok(Header {
        view_db,
        label,
        columns,
    })
}

// A name that is no variable.
fn legal_label(name: &Text) -> Result<Text, TypeFault>
    ensures { Answers (λ t. t) (name_label_fault name.now) name.now result }
{
    let name = name.copy()?;
    if table_label_legal(&name) {
        Ok(name)
    } else {
        Err(TypeFault::BadLabel { name })
    }
}

fn type_database(scope: &Scope<'_>, name: &Name) -> Result<Text, TypeFault>
    ensures { let variable = variable_named scope.now.decls.now name.now in
        Answers (λ t. t) (database_fault name.now.text variable) name.now.text result }
{
    match scope.variable(name) {
        None => legal_label(&name.text),
        Some(_) => Err(TypeFault::WrongKind {
            name: name.text.copy()?,
        }),
    }
}

fn type_label(scope: &Scope<'_>, name: &Name) -> Result<Place, TypeFault>
    requires { length scope.now.decls.now ≤ 8 }
    ensures { let ds = scope.now.decls.now in
        Answers (λ p. p) (label_fault ds name.now.text (variable_named ds name.now)) (place_named ds name.now) result }
{
    match scope.variable(name) {
        None => Ok(Place::Fixed(legal_label(&name.text)?)),
        Some(place) => Ok(Place::Var(scope.text_variable(place, &name.text)?)),
    }
}

fn type_columns(alloc: Global, scope: &Scope<'_>, columns: &[Name]) -> Result<Columns, TypeFault>
    requires { length scope.now.decls.now ≤ 8 }
    ensures { let ds = scope.now.decls.now in
        Answers column_parts (columns_fault ds columns.now) (parts_of (column_places ds columns.now)) result }
{
    let mut typed = Columns {
        constants: IndexSet::new(alloc),
        spot: None,
        column: None,
    };
    for (place, name) in columns.iter().enumerate() {
        typed.add(scope, place, name)?;
    }
    if typed.constants.is_empty() {
        return Err(TypeFault::NoConstantColumn);
    }
    Ok(typed)
}

impl Columns {
    // One more column.
    fn add(&mut self, scope: &Scope<'_>, spot: usize, name: &Name) -> Result<(), TypeFault>
        requires { length scope.now.decls.now ≤ 8 }
        ensures passes { let ds = scope.now.decls.now in let varies = is_some self.old.spot in
            IsJudged (column_after ds self.old.constants.keys varies name.now.text (variable_named ds name.now)) result }
        ensures added { let column = place_named scope.now.decls.now name.now in
            OnOk result (column_parts self.new ≡ with_column spot column (column_parts self.old)) }
    {
        match scope.variable(name) {
            None => add_constant(&mut self.constants, &name.text),
            Some(place) => {
                let variable = scope.text_variable(place, &name.text)?;
                self.add_variable(spot, variable, &name.text)
            }
        }
    }

    fn add_variable(&mut self, spot: usize, variable: u32, name: &Text) -> Result<(), TypeFault>
        ensures passes { IsJudged (where_true (is_some self.old.spot) (TwoVariableColumns name.now)) result }
        ensures added { OnOk result
            (column_parts self.new ≡ with_column spot (place.Var variable) (column_parts self.old)) }
    {
        if self.spot.is_some() {
            return Err(TypeFault::TwoVariableColumns { var: name.copy()? });
        }
        self.spot = Some(spot);
        self.column = Some(Place::Var(variable));
        Ok(())
    }
}

fn add_constant(constants: &mut IndexSet<Text>, name: &Text) -> Result<(), TypeFault>
    ensures passes { IsJudged (where_true (is_in name.now constants.old.keys) (ColumnTwice name.now)) result }
    ensures added { OnOk result (constants.new.keys ≡ constants.old.keys ++ name.now ∷ []) }
{
    let name = name.copy()?;
    if constants.contains(&name) {
        return Err(TypeFault::ColumnTwice { name });
    }
    constants.insert(name)?;
    Ok(())
}

fn check_count(view: &ViewText) -> Result<(), TypeFault>
    ensures { IsJudged (count_fault (tree_of view.now)) result }
{
    let columns = view.columns.len();
    let terms = view.select.len();
    if columns != terms {
        return Err(TypeFault::CountDiffers { columns, terms });
    }
    Ok(())
}
