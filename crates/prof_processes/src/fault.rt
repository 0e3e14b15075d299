//! What tables that stand row by row break.
ghost use Rattle.std.specs.Prelude.{◌≡◌, ℕ, Option, None, Some, is_some, if◌then◌else◌};
ghost use Rattle.std.specs.Option.{option_map};
ghost use Rattle.prof_grammar.specs.Value.{Value, Members};
ghost use Rattle.prof_gather.specs.Taking.{IsFoundIn};
ghost use Rattle.prof_layout.specs.Tables.{member_of};
ghost use Rattle.prof_raw.specs.Rules.{whole_fault};
ghost use Rattle.prof_layout.specs.Lists.{is_object, first_unfit, items_of, wrong_kind};
ghost use Rattle.prof_schema.specs.Gathered.{IsSchema, IsPlaced, AreRows};
ghost use Rattle.prof_schema.specs.Placed.{is_array};
ghost use Rattle.prof_schema.specs.Places.{are_places};
ghost use Rattle.prof_gecko_layout.specs.GeckoTables as layout;
ghost use Rattle.prof_processes.specs.Tables.{IsHeld, named_columns};

use crate::held::HeldTable;
use prof_column::whole;
use prof_gather::Found;
use prof_gecko::TableFault;
use prof_raw::{Column, ListFault, Rule, State};
use prof_schema::{PlacedTable, Rows, Schema};

/// A fault at a column.
fn at_column(column: Column, fault: ListFault) -> TableFault
    ensures { result ≡ layout.at_column column fault }
{
    TableFault { column, fault }
}

/// What a schema breaks that is no object.
fn schema_fault(schema: &Found<Schema>) -> Option<TableFault>
    ensures { (member : Option Value) → IsFoundIn IsSchema member schema.now
        → result ≡ option_map (layout.at_column Column.Schema) (layout.kind_fault is_object member) }
{
    match schema {
        Found::Object(_) => None,
        Found::Absent => Some(at_column(Column::Schema, whole(Rule::Missing))),
        Found::Null | Found::Other => Some(at_column(Column::Schema, whole(Rule::WrongKind))),
    }
}

/// What rows break that are no array.
fn data_fault(rows: &Rows) -> Option<TableFault>
    ensures { (most : ℕ) (member : Option Value) → AreRows most member rows.now
        → result ≡ option_map (layout.at_column Column.Data) (layout.kind_fault is_array member) }
{
    match rows.state {
        State::Array => None,
        State::Absent => Some(at_column(Column::Data, whole(Rule::Missing))),
        State::NotArray => Some(at_column(Column::Data, whole(Rule::WrongKind))),
    }
}

/// What a schema breaks where one of its columns has no place.
fn places_fault(schema: &Found<Schema>) -> Option<TableFault>
    ensures { (member : Option Value) → IsFoundIn IsSchema member schema.now
        → result ≡ (if are_places member then None
        else Some (layout.at_column Column.Schema (whole_fault Rule.WrongKind))) }
{
    match schema {
        Found::Object(schema) if !schema.are_places() => {
            Some(at_column(Column::Schema, whole(Rule::WrongKind)))
        }
        _ => None,
    }
}

/// Whether a schema names a column.
fn has_column(schema: &Found<Schema>, name: &str) -> bool
    ensures { (member : Option Value) → IsFoundIn IsSchema member schema.now
        → result ≡ is_some (member_of member name.now) }
{
    match schema {
        Found::Object(schema) => schema.has(name),
        Found::Absent | Found::Null | Found::Other => false,
    }
}

/// The first needed column that a schema lacks.
fn lacking(schema: &Found<Schema>, needed: &[(Column, &str)]) -> Option<TableFault>
    ensures { (member : Option Value) → IsFoundIn IsSchema member schema.now
        → result ≡ layout.lacking member (named_columns needed.now) }
{
    for (column, name) in needed {
        if !has_column(schema, name) {
            return Some(at_column(*column, whole(Rule::Missing)));
        }
    }
    None
}

/// What the first item breaks that is no row.
fn rows_fault(rows: &Rows) -> Option<TableFault>
    ensures { (most : ℕ) (member : Option Value) → AreRows most member rows.now
        → result ≡ option_map (λ row. layout.at_column Column.Data (wrong_kind row))
        (first_unfit is_array (items_of member)) }
{
    let row = rows.bad?;
    let fault = ListFault {
        rule: Rule::WrongKind,
        row: Some(row),
    };
    Some(at_column(Column::Data, fault))
}

/// The first check that a table fails.
fn object_fault(table: &PlacedTable, needed: &[(Column, &str)]) -> Option<TableFault>
    ensures { (most : ℕ) (ms : Members) → IsPlaced most ms table.now
        → result ≡ layout.object_fault (named_columns needed.now) (Value.object ms) }
{
    let schema = &table.schema;
    let kinds = schema_fault(schema).or(data_fault(&table.rows));
    let columns = places_fault(schema).or(lacking(schema, needed));
    kinds.or(columns).or(rows_fault(&table.rows))
}

impl HeldTable {
    /// The first check that a member fails which should be a table with the needed columns. `first` is the table's first
    /// column.
    pub(crate) fn first_fault(&self, first: Column, needed: &[(Column, &str)]) -> Option<TableFault>
        ensures { (most : ℕ) (member : Option Value) → IsHeld most member self.now
            → result ≡ layout.table_fault first (named_columns needed.now) member }
    {
        match self.fault {
            Some(fault) => Some(at_column(first, fault)),
            None => object_fault(&self.table, needed),
        }
    }

    /// Whether the schema is no object, or names a phase.
    pub(crate) fn has_phase(&self) -> bool
        ensures { (most : ℕ) (member : Option Value) → IsHeld most member self.now
            → result ≡ layout.has_markers member }
    {
        if self.fault.is_some() {
            return false;
        }
        match &self.table.schema {
            Found::Object(schema) => schema.has("phase"),
            Found::Absent | Found::Null | Found::Other => true,
        }
    }
}
