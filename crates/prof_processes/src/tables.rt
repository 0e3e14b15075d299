//! The tables of a Gecko thread, as columns.
ghost use Rattle.std.specs.Prelude.{◌≡◌, ℕ, Option, IfOk};
ghost use Rattle.prof_grammar.specs.Value.{Value};
ghost use Rattle.prof_layout.specs.Columns.{capped};
ghost use Rattle.prof_raw.specs.declared.limits.TheConstants.{MOST_ROWS};
ghost use Rattle.prof_schema.specs.Placed.{named_cells, read_placed};
ghost use Rattle.prof_gecko_layout.specs.GeckoTables as layout;
ghost use Rattle.prof_processes.specs.Tables.{IsHeld, kept_table, AreMarkers};

use crate::held::HeldTable;
use prof_gecko::GeckoTable;
use prof_io::{NoMemory, Text};
use prof_raw::{Column, RawColumn};
use prof_schema::{PlacedReading, PlacedTexts};
use std::alloc::Global;

impl HeldTable {
    /// The column of a name, which is absent where the table isn't there.
    fn column(
        &self,
        alloc: Global,
        name: &str,
        reading: PlacedReading,
    ) -> Result<RawColumn, NoMemory>
        ensures { IfOk result (λ c. (most : ℕ) (member : Option Value)
            → IsHeld most member self.now
            → c ≡ capped most (named_cells (read_placed reading) member name.now)) }
    {
        self.table.column(alloc, name, reading)
    }
}

/// The columns of `frameTable`.
pub fn frame_table(alloc: Global, held: &HeldTable) -> Result<GeckoTable, NoMemory>
    ensures { IfOk result (λ t. (most : ℕ) (member : Option Value) → IsHeld most member held.now
        → t ≡ kept_table most (layout.frame_table member)) }
{
    let fault = held.first_fault(Column::Location, &[(Column::Location, "location")]);
    let mut columns = Vec::new(alloc);
    columns.push(held.column(alloc, "location", PlacedReading::Index)?)?;
    columns.push(held.column(alloc, "relevantForJS", PlacedReading::True)?)?;
    columns.push(held.column(alloc, "category", PlacedReading::MaybeIndex)?)?;
    Ok(GeckoTable { fault, columns })
}

/// The columns of `stackTable`.
pub fn stack_table(alloc: Global, held: &HeldTable) -> Result<GeckoTable, NoMemory>
    ensures { IfOk result (λ t. (most : ℕ) (member : Option Value) → IsHeld most member held.now
        → t ≡ kept_table most (layout.stack_table member)) }
{
    let needed = [(Column::Frame, "frame"), (Column::Prefix, "prefix")];
    let fault = held.first_fault(Column::Frame, &needed);
    let mut columns = Vec::new(alloc);
    columns.push(held.column(alloc, "frame", PlacedReading::Index)?)?;
    columns.push(held.column(alloc, "prefix", PlacedReading::MaybeIndex)?)?;
    Ok(GeckoTable { fault, columns })
}

/// The columns of `samples`.
pub fn sample_table(alloc: Global, held: &HeldTable) -> Result<GeckoTable, NoMemory>
    ensures { IfOk result (λ t. (most : ℕ) (member : Option Value) → IsHeld most member held.now
        → t ≡ kept_table most (layout.sample_table member)) }
{
    let needed = [(Column::Stack, "stack"), (Column::Time, "time")];
    let fault = held.first_fault(Column::Stack, &needed);
    let mut columns = Vec::new(alloc);
    columns.push(held.column(alloc, "stack", PlacedReading::MaybeIndex)?)?;
    columns.push(held.column(alloc, "time", PlacedReading::Time)?)?;
    Ok(GeckoTable { fault, columns })
}

/// The columns of `markers`.
fn marker_table(alloc: Global, held: &HeldTable) -> Result<GeckoTable, NoMemory>
    ensures { IfOk result (λ t. (most : ℕ) (member : Option Value) → IsHeld most member held.now
        → t ≡ kept_table most (layout.marker_table member)) }
{
    let needed = [
        (Column::Phase, "phase"),
        (Column::Name, "name"),
        (Column::StartTime, "startTime"),
        (Column::EndTime, "endTime"),
    ];
    let fault = held.first_fault(Column::Phase, &needed);
    let mut columns = Vec::new(alloc);
    columns.push(held.column(alloc, "phase", PlacedReading::Phase)?)?;
    columns.push(held.column(alloc, "name", PlacedReading::Index)?)?;
    columns.push(held.column(alloc, "startTime", PlacedReading::MaybeTime)?)?;
    columns.push(held.column(alloc, "endTime", PlacedReading::MaybeTime)?)?;
    columns.push(held.column(alloc, "data", PlacedReading::Any)?)?;
    Ok(GeckoTable { fault, columns })
}

/// The markers of a thread: their columns, whether they count, and the texts of their details with each row's range.
#[derive(Drop)]
pub struct MarkerParts {
    pub table: GeckoTable,
    pub there: bool,
    pub texts: Vec<Text>,
    pub ranges: Vec<(u32, u32)>,
}

/// The markers of a thread, of their table.
pub fn marker_parts(alloc: Global, held: &HeldTable) -> Result<MarkerParts, NoMemory>
    ensures { IfOk result (λ m. (member : Option Value) → IsHeld MOST_ROWS member held.now
        → AreMarkers member m) }
{
    let table = marker_table(alloc, held)?;
    let PlacedTexts { texts, ranges } = held.table.texts(alloc, "data")?;
    Ok(MarkerParts {
        table,
        there: held.has_phase(),
        texts,
        ranges,
    })
}
