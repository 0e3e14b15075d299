//! Tables that were found in both ways, each way by itself.
ghost use Rattle.std.specs.Prelude.{◌≡◌, ℕ, Option, Some};
ghost use Rattle.prof_gather.specs.Taking.{IsFoundIn};
ghost use Rattle.prof_grammar.specs.Value.{Value, no_members};
ghost use Rattle.prof_members.specs.Gathered.{AreMarkerColumns};
ghost use Rattle.prof_processes.specs.Tables.{IsHeld};
ghost use Rattle.prof_raw.specs.declared.limits.TheConstants.{MOST_ROWS};
ghost use Rattle.prof_schema.specs.Gathered.{IsPlaced};
ghost use Rattle.prof_either.specs.Tables.{AreBoth, AreBothMarkers};

use crate::markers::BothMarkers;
use crate::table::{BothWays, NamedTable};
use prof_column::whole;
use prof_gather::Found;
use prof_members::MarkerTable;
use prof_processes::HeldTable;
use prof_raw::{MOST_ROWS, Rule};
use prof_schema::PlacedTable;
use std::alloc::Global;

/// What is held of a value that is no object.
fn no_table(alloc: Global, most: u32) -> HeldTable
    ensures fault { result.fault ≡ Some (record { rule = Rule.WrongKind; row = None }) }
    ensures placed { IsPlaced most no_members result.table }
{
    HeldTable {
        fault: Some(whole(Rule::WrongKind)),
        table: PlacedTable::none(alloc, most),
    }
}

/// What was found in both ways, each by itself.
pub fn apart<T: NamedTable>(alloc: Global, found: Found<BothWays<T>>) -> (Found<T>, HeldTable)
    ensures named { (member : Option Value) → IsFoundIn (AreBoth T.is T.most) member found
        → IsFoundIn T.is member result.0 }
    ensures rows { (member : Option Value) → IsFoundIn (AreBoth T.is T.most) member found
        → IsHeld T.most member result.1 }
{
    match found {
        Found::Object(both) => {
            let rows = HeldTable {
                fault: None,
                table: both.rows,
            };
            (Found::Object(both.named), rows)
        }
        Found::Absent => (Found::Absent, HeldTable::absent(alloc, T::most_rows())),
        Found::Null => (Found::Null, no_table(alloc, T::most_rows())),
        Found::Other => (Found::Other, no_table(alloc, T::most_rows())),
    }
}

/// The same of markers.
pub fn markers_apart(alloc: Global, found: Found<BothMarkers>) -> (Found<MarkerTable>, HeldTable)
    ensures named { (member : Option Value) → IsFoundIn AreBothMarkers member found
        → IsFoundIn AreMarkerColumns member result.0 }
    ensures rows { (member : Option Value) → IsFoundIn AreBothMarkers member found
        → IsHeld MOST_ROWS member result.1 }
{
    match found {
        Found::Object(both) => {
            let rows = HeldTable {
                fault: None,
                table: both.rows,
            };
            (Found::Object(both.named), rows)
        }
        Found::Absent => (Found::Absent, HeldTable::absent(alloc, MOST_ROWS)),
        Found::Null => (Found::Null, no_table(alloc, MOST_ROWS)),
        Found::Other => (Found::Other, no_table(alloc, MOST_ROWS)),
    }
}
