//! The stack rows of a thread. Each look at a row is counted.
ghost use Rattle.std.specs.Prelude.{◌≡◌, ◌+◌, ◌<◌, ◌^◌, [], ◌∷◌, ◌++◌, length, Some, slice_get, IfSome, IfOk, All};
ghost use Rattle.prof_tables.specs.Paths.{PrefixesBelow};
ghost use Rattle.prof_tables.specs.Ties.{IsStackRow};

use crate::held::HeldStack;
use crate::rows::StackRow;
use prof_io::{NoMemory, Steps};
use std::alloc::Global;
use std::marker::Model;
use std::sync::ledger::Ledger;

/// Stack rows, each with a prefix that is a smaller row.
#[derive(Drop)]
pub struct Stacks {
    rows: Vec<HeldStack>,
}

impl Model for Stacks {
    ghost use Rattle.std.specs.Prelude.{List, length, ◌<◌, ◌^◌};
    ghost use Rattle.prof_tables.specs.declared.rows.StackRow.{StackRow};
    ghost use Rattle.prof_tables.specs.Paths.{PrefixesBelow};

    ghost Value = { List StackRow };

    ghost view = { λ s. s.rows.items };

    ghost invariant = { λ s. (length s.rows.items < 2 ^ 32) × PrefixesBelow s.rows.items };
}

impl Stacks {
    pub(crate) fn of(rows: Vec<HeldStack>) -> Self
        requires few { length rows.items < 2 ^ 32 }
        requires below { PrefixesBelow rows.items }
        ensures { result ≡ rows.items }
    {
        Stacks { rows }
    }

    /// How many rows there are.
    pub fn count(&self) -> u32
        ensures count { result ≡ length self.now }
        ensures below { PrefixesBelow self.now }
    {
        self.rows.len() as u32
    }

    /// Reads a row, which counts one reading.
    pub fn row<L: Ledger>(&self, i: u32, reads: &mut Steps<L>) -> StackRow
        requires { i < length self.now }
        ensures row { slice_get self.now i ≡ Some result }
        ensures below { IfSome result.prefix (λ p. p < i) }
        ensures one { reads.new ≡ reads.old + 1 }
    {
        reads.tick();
        self.rows[i as usize].row()
    }
}

/// Stack rows that are added one by one, in room that is taken at first.
#[derive(Drop)]
pub struct StacksBuilder {
    rows: Vec<HeldStack>,
    room: u32,
    funcs: u32,
    categories: u32,
}

impl Model for StacksBuilder {
    ghost use Rattle.std.specs.Prelude.{length, ◌≤◌, ◌<◌, All, vec_capacity};
    ghost use Rattle.prof_tables.specs.Paths.{PrefixesBelow};
    ghost use Rattle.prof_tables.specs.Building.{Building};
    ghost use Rattle.prof_tables.specs.Ties.{IsStackRow};

    ghost Value = { Building };

    ghost view = { λ b. record {
      rows = b.rows.items;
      room = b.room;
      funcs = b.funcs;
      categories = b.categories;
    } };

    ghost invariant = { λ b. (b.room ≤ vec_capacity b.rows)
        × (length b.rows.items ≤ b.room)
        × PrefixesBelow b.rows.items
        × All (IsStackRow b.funcs b.categories) b.rows.items };
}

impl StacksBuilder {
    /// No rows yet, with room for so many, of so many functions and categories.
    pub fn new(alloc: Global, room: u32, funcs: u32, categories: u32) -> Result<Self, NoMemory>
        ensures { IfOk result (λ builder. builder
            ≡ record { rows = []; room = room; funcs = funcs; categories = categories }) }
    {
        let rows = Vec::with_capacity(alloc, room as usize)?;
        Ok(StacksBuilder {
            rows,
            room,
            funcs,
            categories,
        })
    }

    /// Appends a row, and answers its number.
    pub fn add(&mut self, prefix: Option<u32>, func: u32, category: u32) -> u32
        requires room { length self.old.rows < self.old.room }
        requires prefix { IfSome prefix (λ p. p < length self.old.rows) }
        requires func { func < self.old.funcs }
        requires category { category < self.old.categories }
        ensures added { self.new ≡ record self.old {
          rows =
              self.old.rows ++ record { prefix = prefix; func = func; category = category } ∷ [];
        } }
        ensures number { result ≡ length self.old.rows }
    {
        let number = self.rows.len() as u32;
        let row = StackRow {
            prefix,
            func,
            category,
        };
        self.rows.push_reserved(HeldStack::of(row));
        number
    }

    /// The rows that were added.
    pub fn done(self) -> Stacks
        ensures rows { result ≡ self.rows }
        ensures below { PrefixesBelow self.rows }
        ensures steps { All (IsStackRow self.funcs self.categories) self.rows }
    {
        Stacks::of(self.rows)
    }
}
