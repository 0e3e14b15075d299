//! Stack tables over a base, rewritten by one transform after another.
ghost use Rattle.std.specs.Prelude.{◌≡◌, ◌<◌, ◌≤◌, ◌+◌, ◌-◌, ℕ, true, false, [], ◌∷◌, ◌++◌, length, take, Some, None, slice_get, IfOk, OnOk, OnErr};
ghost use Rattle.prof_tables.specs.declared.rows.SampleRow.{SampleRow};
ghost use Rattle.prof_path.specs.Refusals.{refusal_of};
ghost use Rattle.prof_layer.specs.Rewritten.{IsRowOf, entry_at};
ghost use Rattle.prof_layer.specs.Following.{follow};
ghost use Rattle.prof_layer.specs.Simulates.{Simulates, Stands, is_of_samples, of_rows, sample_path, own_entries};
ghost use Rattle.prof_layer.specs.Kept.{found_of, is_kept, AreFlags};

use crate::layer::Table;
use crate::passing::Rewritten;
use crate::periods::Periods;
use crate::rewriting::{followed, rewritten};
use prof_io::{NoMemory, Steps};
use prof_path::{Span, SpanList, Transform};
use prof_tables::{Stacks, Thread};
use std::alloc::{AllocError, Global};
use std::marker::Model;
use std::rc::Rc;
use std::sync::ledger::Ledger;

/// Whether a transform asks for a sample's time, and rewrites no row.
fn is_of_samples(t: &Transform) -> bool
    ensures { result ≡ is_of_samples t.now }
{
    matches!(t, Transform::FilterSamples { .. })
}

/// A thread's stack rows under transforms. For each transform that rewrites rows it keeps the rows that this makes, and
/// for each row of the base the one that its path went to; for each one of samples it keeps a flag a sample.
#[derive(Drop)]
pub struct Layers {
    base: Rc<Thread>,
    settled: Vec<Transform>,
    spans: Vec<SpanList>,
    tables: Vec<Table>,
    flags: Vec<Vec<bool>>,
}

impl Model for Layers {
    ghost use Rattle.std.specs.Prelude.{length};
    ghost use Rattle.prof_layer.specs.Simulates.{LayerLists};
    ghost use Rattle.prof_layer.specs.Stacked.{AreLayers, rows_over, entries_over};

    ghost Value = { LayerLists };

    ghost view = { λ l. record { base = l.base.value; settled = l.settled.items; spans = l.spans.items; top = rows_over l.base.value.shared.stacks l.tables.items (length l.tables.items); entries = entries_over l.base.value.shared.stacks l.tables.items (length l.tables.items) } };

    ghost invariant = { λ l. AreLayers l.base.value l.settled.items l.spans.items l.tables.items l.flags.items };
}

impl Layers {
    /// Layers without transforms: the top is the base's own rows. It takes no memory.
    pub fn new(alloc: Global, base: Rc<Thread>) -> Layers
        ensures { result ≡ record { base = base.value; settled = []; spans = []; top = base.value.shared.stacks; entries = own_entries base.value.shared.stacks } }
    {
        // `stacks` says that the rows fit the thread's tables, and `count` that prefixes are smaller rows.
        let _count = base.stacks().count();
        Layers {
            base,
            settled: Vec::new(alloc),
            spans: Vec::new(alloc),
            tables: Vec::new(alloc),
            flags: Vec::new(alloc),
        }
    }

    /// The transforms that are settled, the first that acts first.
    pub fn settled(&self) -> &[Transform]
        ensures { result.now ≡ self.now.settled }
    {
        self.settled.as_slice()
    }

    /// The intervals of each settled transform.
    pub fn spans(&self) -> &[SpanList]
        ensures spans { result.now ≡ self.now.spans }
        ensures count { length self.now.spans ≡ length self.now.settled }
    {
        self.spans.as_slice()
    }

    /// The thread that the transforms are settled over.
    pub fn base(&self) -> &Thread
        ensures { result.now ≡ self.now.base }
    {
        &self.base
    }

    /// The rows that the settled transforms make of the base's.
    pub fn top(&self) -> &Stacks
        ensures rows { result.now ≡ self.now.top }
        ensures simulates { Simulates self.now }
    {
        match self.tables.last() {
            Some(table) => &table.rows,
            None => self.base.stacks(),
        }
    }

    /// Where the path of a row of the base went.
    fn entry(&self, r: u32) -> Option<u32>
        requires { r < length self.now.base.shared.stacks }
        ensures entry { result ≡ entry_at self.now.entries r }
        ensures simulates { Simulates self.now }
    {
        match self.tables.last() {
            Some(table) => table.entries[r as usize],
            None => Some(r),
        }
    }

    /// Whether the settled transforms of samples keep a sample.
    fn is_kept(&self, k: u32) -> bool
        requires { k < length self.now.base.samples }
        ensures { (s : SampleRow) → slice_get self.now.base.samples k ≡ Some s → result ≡ is_kept (found_of self.now.settled self.now.spans) s.time }
    {
        match self.flags.last() {
            Some(flags) => flags[k as usize],
            None => true,
        }
    }

    /// The row of a sample's path, rewritten by the settled transforms; none where that is empty.
    pub fn row_of_sample(&self, k: u32) -> Option<u32>
        requires { k < length self.now.base.samples }
        ensures { (s : SampleRow) → slice_get self.now.base.samples k ≡ Some s → IsRowOf self.now.top result (sample_path self.now s) }
    {
        if !self.is_kept(k) {
            return None;
        }
        let stack = self.base.sample(k).stack?;
        self.entry(stack)
    }

    /// Where the paths of the base's rows went, once the rows of the top went to those.
    fn entries_after(
        &self,
        alloc: Global,
        outs: Vec<Option<u32>>,
    ) -> Result<Vec<Option<u32>>, AllocError>
        requires { length outs.items ≡ length self.now.top }
        ensures count { IfOk result (λ entries. length entries.items ≡ length self.now.base.shared.stacks) }
        ensures entries { IfOk result (λ entries. (r : ℕ) → r < length self.now.base.shared.stacks → entry_at entries.items r ≡ follow outs.items (entry_at self.now.entries r)) }
    {
        match self.tables.last() {
            Some(table) => followed(alloc, &table.entries, &outs),
            None => Ok(outs),
        }
    }

    /// The table that a transform of rows adds.
    fn table_with<L: Ledger>(
        &self,
        alloc: Global,
        t: &Transform,
        reads: &mut Steps<L>,
    ) -> Result<Table, NoMemory>
        requires checked { refusal_of self.now.base.shared t.now ≡ None }
        requires of_rows { is_of_samples t.now ≡ false }
        ensures stands { IfOk result (λ table. Stands self.now.base (of_rows self.now.settled ++ t.now ∷ []) table.rows table.entries.items) }
        ensures reads { reads.new ≤ reads.old + length self.now.top }
    {
        let Rewritten { rows, outs } = rewritten(alloc, t, self.base(), self.top(), reads)?;
        let entries = self.entries_after(alloc, outs)?;
        Ok(Table { rows, entries })
    }

    /// Whether a sample is still there once a transform of samples has these intervals.
    fn stays(&self, k: u32, periods: &Periods) -> bool
        requires { k < length self.now.base.samples }
        ensures { (s : SampleRow) → slice_get self.now.base.samples k ≡ Some s → result ≡ is_kept (found_of self.now.settled self.now.spans ++ periods.now ∷ []) s.time }
    {
        self.is_kept(k) && periods.has(self.base().sample(k).time)
    }

    /// The flags of the samples that are still there once a transform of samples has these intervals.
    fn flags_with(&self, alloc: Global, spans: &[Span]) -> Result<Vec<bool>, AllocError>
        ensures { IfOk result (λ flags. AreFlags self.now.base.samples (found_of self.now.settled self.now.spans ++ spans.now ∷ []) flags.items) }
    {
        let periods = Periods::of(alloc, spans)?;
        let count = self.base().sample_count();
        let mut flags = Vec::with_capacity(alloc, count as usize)?;
        for k in 0..count {
            flags.push(self.stays(k, &periods))?;
        }
        Ok(flags)
    }

    /// Adds a layer of rows.
    fn add_table(&mut self, t: Transform, spans: SpanList, table: Table) -> Result<(), NoMemory>
        requires of_rows { is_of_samples t ≡ false }
        requires stands { Stands self.old.base (of_rows self.old.settled ++ t ∷ []) table.rows table.entries.items }
        ensures settled { OnOk result (self.new.settled ≡ self.old.settled ++ t ∷ []) }
        ensures spans { OnOk result (self.new.spans ≡ self.old.spans ++ spans ∷ []) }
        ensures base { self.new.base ≡ self.old.base }
        ensures err { OnErr result (self.new ≡ self.old) }
    {
        self.settled.reserve(1)?;
        self.spans.reserve(1)?;
        self.tables.push(table)?;
        self.settled.push_reserved(t);
        self.spans.push_reserved(spans);
        Ok(())
    }

    /// Adds a layer of flags.
    fn add_flags(&mut self, t: Transform, spans: SpanList, flags: Vec<bool>) -> Result<(), NoMemory>
        requires of_samples { is_of_samples t ≡ true }
        requires flags { AreFlags self.old.base.samples (found_of self.old.settled self.old.spans ++ spans ∷ []) flags.items }
        ensures settled { OnOk result (self.new.settled ≡ self.old.settled ++ t ∷ []) }
        ensures spans { OnOk result (self.new.spans ≡ self.old.spans ++ spans ∷ []) }
        ensures base { self.new.base ≡ self.old.base }
        ensures err { OnErr result (self.new ≡ self.old) }
    {
        self.settled.reserve(1)?;
        self.spans.reserve(1)?;
        self.flags.push(flags)?;
        self.settled.push_reserved(t);
        self.spans.push_reserved(spans);
        Ok(())
    }

    /// Settles one transform more, which reads each row of the top once at most. `spans` are the intervals of the markers
    /// that the search of a `FilterSamples` finds; the other kinds don't look at them.
    pub fn push<L: Ledger>(
        &mut self,
        alloc: Global,
        t: &Transform,
        spans: SpanList,
        reads: &mut Steps<L>,
    ) -> Result<(), NoMemory>
        requires { refusal_of self.old.base.shared t.now ≡ None }
        ensures settled { OnOk result (self.new.settled ≡ self.old.settled ++ t.now ∷ []) }
        ensures spans { OnOk result (self.new.spans ≡ self.old.spans ++ spans ∷ []) }
        ensures base { self.new.base ≡ self.old.base }
        ensures err { OnErr result (self.new ≡ self.old) }
        ensures reads { reads.new ≤ reads.old + length self.old.top }
    {
        let copy = t.copy(alloc)?;
        match t {
            Transform::FilterSamples { .. } => {
                let flags = self.flags_with(alloc, spans.as_slice())?;
                self.add_flags(copy, spans, flags)
            }
            _ => {
                let table = self.table_with(alloc, t, reads)?;
                self.add_table(copy, spans, table)
            }
        }
    }

    /// Takes the last settled transform away. It reads no row, and takes no memory.
    pub fn pop(&mut self)
        requires { 0 < length self.old.settled }
        ensures settled { self.new.settled ≡ take (length self.old.settled - 1) self.old.settled }
        ensures spans { self.new.spans ≡ take (length self.old.settled - 1) self.old.spans }
        ensures base { self.new.base ≡ self.old.base }
    {
        let last = self.settled.len() - 1;
        let of_samples = is_of_samples(&self.settled[last]);
        self.settled.truncate(last);
        self.spans.truncate(last);
        if of_samples {
            self.flags.pop();
        } else {
            self.tables.pop();
        }
    }
}
