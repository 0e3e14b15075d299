//! The laws of the paths of stack rows. These functions do nothing: their contracts are the laws.
ghost use Rattle.std.specs.Prelude.{◌≡◌, ◌<◌, ◌++◌, ◌∷◌, [], ℕ, List, Option, Some, slice_get, length, IfSome};
ghost use Rattle.prof_tables.specs.declared.rows.StackRow.{StackRow};
ghost use Rattle.prof_tables.specs.Paths.{path, step_of, PrefixesBelow};

/// The path of a row is its prefix's path, followed by its own step.
pub fn path_of_row()
    ensures { (rows : List StackRow) (i : ℕ) (row : StackRow) →
        PrefixesBelow rows → slice_get rows i ≡ Some row →
        path rows (Some i) ≡ path rows row.prefix ++ step_of row ∷ [] }
{}

/// Rows that are appended leave the paths of the earlier rows as they are.
pub fn path_of_earlier_row()
    ensures { (rows more : List StackRow) (stack : Option ℕ) →
        PrefixesBelow rows → IfSome stack (λ i. i < length rows) →
        path (rows ++ more) stack ≡ path rows stack }
{}
