//! Times that are moved.
ghost use Rattle.std.specs.Prelude.{◌≡◌, ◌+ℤ◌, ◌-ℤ◌, map, IfOk};
ghost use Rattle.std.specs.Option.{option_map};
ghost use Rattle.prof_gecko.specs.Columns.{nearest_64, moved, moved_column, shift_of};

use prof_raw::{CellList, GREATEST, RawColumn};
use std::alloc::{AllocError, Global};

/// The start of a process and that of the root. Times are moved by the one less the other.
#[derive(Clone, Copy)]
pub(crate) struct Shift {
    pub(crate) start: i64,
    pub(crate) root: i64,
}

/// The nearest number of 64 bits.
fn nearest_64(n: i128) -> i64
    ensures { result ≡ nearest_64 n }
{
    if n < i128::from(i64::MIN) {
        i64::MIN
    } else if n > i128::from(i64::MAX) {
        i64::MAX
    } else {
        n as i64
    }
}

/// A time with a start added and another taken away.
fn shifted(n: i64, start: i64, root: i64) -> i128
    ensures { result ≡ n +ℤ (start -ℤ root) }
{
    i128::from(n) + (i128::from(start) - i128::from(root))
}

/// A time moved by one start less another. One that is out of the range stays.
fn moved(n: i64, start: i64, root: i64) -> i64
    ensures { result ≡ moved (start -ℤ root) n }
{
    if n.unsigned_abs() <= GREATEST {
        nearest_64(shifted(n, start, root))
    } else {
        n
    }
}

impl Shift {
    fn moved_cell(self, cell: Option<i64>) -> Option<i64>
        ensures { result ≡ option_map (moved (shift_of self)) cell }
    {
        match cell {
            Some(n) => Some(moved(n, self.start, self.root)),
            None => None,
        }
    }

    /// The cells of times moved.
    fn moved_cells(self, alloc: Global, cells: &CellList) -> Result<CellList, AllocError>
        ensures { IfOk result (λ list.
            list ≡ map (option_map (moved (shift_of self))) cells.now) }
    {
        let mut list = CellList::new(alloc);
        for row in 0..cells.len() {
            list.push(self.moved_cell(cells.get(row)))?;
        }
        Ok(list)
    }

    /// A column of times moved.
    pub(crate) fn moved_column(
        self,
        alloc: Global,
        column: RawColumn,
    ) -> Result<RawColumn, AllocError>
        ensures { IfOk result (λ moved. moved ≡ moved_column (shift_of self) column) }
    {
        let values = self.moved_cells(alloc, &column.values)?;
        Ok(RawColumn {
            state: column.state,
            values,
            bad: column.bad,
        })
    }
}
