//! The cells of a column, in the width that they need.
ghost use Rattle.std.specs.Prelude.{◌≡◌, ◌≤◌, ◌+◌, ◌-◌, ◌++◌, ◌∷◌, [], length, IfSome, OnOk};
ghost use Rattle.prof_raw.specs.Cells.{cell_at};

use std::alloc::{AllocError, Global};
use std::marker::Model;

/// A number below 2^32 - 1, or null, in four bytes. The greatest number stands for null.
#[derive(Drop)]
struct NarrowCell {
    number: u32,
}

impl Model for NarrowCell {
    ghost use Rattle.std.specs.Prelude.{ℤ, pos, Option, Some, None, nat_eq, if◌then◌else◌};

    ghost Value = { Option ℤ };

    ghost view = { λ c. if nat_eq c.number 4294967295 then None else Some (pos c.number) };
}

impl NarrowCell {
    /// A cell in four bytes, where it has room there.
    fn of(cell: Option<i64>) -> Option<Self>
        ensures { IfSome result (λ narrow. narrow ≡ cell) }
    {
        match cell {
            None => Some(NarrowCell { number: u32::MAX }),
            Some(n) if 0 <= n && n < i64::from(u32::MAX) => Some(NarrowCell { number: n as u32 }),
            Some(_) => None,
        }
    }

    fn get(&self) -> Option<i64>
        ensures { result ≡ self.now }
    {
        if self.number == u32::MAX {
            None
        } else {
            Some(i64::from(self.number))
        }
    }
}

/// Any number but the least of 64 bits, or null, in eight bytes. The least number stands for null.
#[derive(Drop)]
struct WideCell {
    number: i64,
}

impl Model for WideCell {
    ghost use Rattle.std.specs.Prelude.{ℤ, negsuc, Option, Some, None, if◌then◌else◌};
    ghost use Rattle.std.specs.Ordering.{int_eq};

    ghost Value = { Option ℤ };

    ghost view = { λ c. if int_eq c.number (negsuc 9223372036854775807) then None else Some c.number };
}

impl WideCell {
    /// A cell in eight bytes, where it has room there.
    fn of(cell: Option<i64>) -> Option<Self>
        ensures { IfSome result (λ wide. wide ≡ cell) }
    {
        match cell {
            None => Some(WideCell { number: i64::MIN }),
            Some(i64::MIN) => None,
            Some(number) => Some(WideCell { number }),
        }
    }

    fn get(&self) -> Option<i64>
        ensures { result ≡ self.now }
    {
        if self.number == i64::MIN {
            None
        } else {
            Some(self.number)
        }
    }
}

/// The cell of a row of wide cells with others behind them, and null past the end.
fn wide_cell(wide: &[WideCell], whole: &[Option<i64>], row: usize) -> Option<i64>
    ensures { result ≡ cell_at (wide.now ++ whole.now) row }
{
    match wide.get(row) {
        Some(cell) => cell.get(),
        None => match whole.get(row - wide.len()) {
            Some(cell) => *cell,
            None => None,
        },
    }
}

/// The cells of a column in the width that they need. From the first row on they take four bytes each, from the first on that
/// has no room there eight, and from the first on that has none there either sixteen.
#[derive(Drop)]
pub struct CellList {
    narrow: Vec<NarrowCell>,
    wide: Vec<WideCell>,
    whole: Vec<Option<i64>>,
}

impl Model for CellList {
    ghost use Rattle.std.specs.Prelude.{ℤ, List, Option, ◌++◌, ◌<◌, ◌+◌, ◌^◌, length};

    ghost Value = { List (Option ℤ) };

    ghost view = { λ c. c.narrow.items ++ (c.wide.items ++ c.whole.items) };

    ghost invariant = { λ c. length c.narrow.items + (length c.wide.items + length c.whole.items) < 2 ^ 64 };
}

impl CellList {
    /// No cells.
    pub fn new(alloc: Global) -> Self
        ensures { result ≡ [] }
    {
        CellList {
            narrow: Vec::new(alloc),
            wide: Vec::new(alloc),
            whole: Vec::new(alloc),
        }
    }

    /// These cells, as they stand.
    pub fn of(alloc: Global, cells: Vec<Option<i64>>) -> Self
        ensures { result ≡ cells.items }
    {
        CellList {
            narrow: Vec::new(alloc),
            wide: Vec::new(alloc),
            whole: cells,
        }
    }

    /// How many cells there are.
    pub fn len(&self) -> usize
        ensures { result ≡ length self.now }
    {
        self.narrow.len() + (self.wide.len() + self.whole.len())
    }

    /// The cell of a row, and null past the end.
    pub fn get(&self, row: usize) -> Option<i64>
        ensures { result ≡ cell_at self.now row }
    {
        match self.narrow.get(row) {
            Some(cell) => cell.get(),
            None => wide_cell(&self.wide, &self.whole, row - self.narrow.len()),
        }
    }

    /// Adds a cell.
    pub fn push(&mut self, cell: Option<i64>) -> Result<(), AllocError>
        ensures { OnOk result (self.new ≡ self.old ++ cell ∷ []) }
    {
        if self.wide.is_empty() && self.whole.is_empty() {
            if let Some(narrow) = NarrowCell::of(cell) {
                self.narrow.push(narrow)?;
                return Ok(());
            }
        }
        self.push_wide(cell)
    }

    /// Adds a cell behind the narrow ones.
    fn push_wide(&mut self, cell: Option<i64>) -> Result<(), AllocError>
        ensures { OnOk result (self.new ≡ self.old ++ cell ∷ []) }
    {
        if self.len() == usize::MAX {
            return Err(AllocError);
        }
        if self.whole.is_empty() {
            if let Some(wide) = WideCell::of(cell) {
                self.wide.push(wide)?;
                return Ok(());
            }
        }
        self.whole.push(cell)?;
        Ok(())
    }
}
