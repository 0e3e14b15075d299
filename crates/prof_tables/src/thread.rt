//! A thread: its samples and markers, over tables that it may share.
ghost use Rattle.std.specs.Prelude.{true, IfOk, ◌≡◌, ◌+◌, ◌<◌, ◌≤◌, ◌^◌, length, Some, slice_get, option_map, option_copied, IfSome, All};
ghost use Rattle.prof_tables.specs.Threads.{Func, resource_of, resource_name, func_name, file_name};
ghost use Rattle.prof_tables.specs.Frames.{IsFrameOf};
ghost use Rattle.prof_tables.specs.Ties.{IsStackRow, IsSample, IsMarker, IsPart, InRange, IsShared, AreOwn};
ghost use Rattle.prof_tables.specs.Builds.{Builds};
ghost use Rattle.prof_raw.specs.Checks.{own_broken, thread_broken};
ghost use Rattle.prof_raw.specs.Fits.{FitSamples, FitMarkers};
ghost use Rattle.prof_tables.specs.Rows.{shared_of, thread_of};

use crate::markers::RawMarkers;
use crate::own::{marker_rows_of, marker_texts_of, samples_of};
use crate::refusal::BuildRefusal;
use crate::rows::{FrameRow, FuncStrings, SampleRow};
use crate::samples::SampleList;
use crate::shared::Shared;
use crate::stacks::Stacks;
use prof_io::{NoMemory, Steps, Text};
use prof_raw::{RawOwn, RawShared, RawThread, Strings, Unit, check_own};
use std::alloc::{AllocError, Global};
use std::marker::Model;
use std::rc::Rc;
use std::sync::ledger::Ledger;

/// A thread: its name, its unit, its samples and its markers, over tables that it may share with others.
#[derive(Drop)]
pub struct Thread {
    shared: Rc<Shared>,
    name: Text,
    unit: Unit,
    samples: SampleList,
    markers: Rc<RawMarkers>,
}

impl Model for Thread {
    ghost use Rattle.prof_tables.specs.Threads.{ThreadTables};
    ghost use Rattle.prof_tables.specs.Ties.{AreOwn};

    ghost Value = { ThreadTables };

    ghost view = { λ t. record {
      shared = t.shared.value;
      name = t.name;
      unit = t.unit;
      samples = t.samples;
      markers = t.markers.value;
    } };

    ghost invariant = { λ t. AreOwn (record {
      shared = t.shared.value;
      name = t.name;
      unit = t.unit;
      samples = t.samples;
      markers = t.markers.value;
    }) };
}

impl Thread {
    /// The thread that checked columns stand for, over so many strings and stack rows.
    fn of_checked(
        alloc: Global,
        shared: Rc<Shared>,
        strings: u32,
        stacks: u32,
        raw: RawOwn,
    ) -> Result<Thread, AllocError>
        requires strings { strings ≡ length shared.value.strings }
        requires stacks { stacks ≡ length shared.value.stacks }
        requires samples { FitSamples stacks raw }
        requires markers { raw.has_markers ≡ true → FitMarkers strings raw }
        requires ranges { All (IsPart (length raw.marker_texts)) raw.marker_ranges }
        ensures { IfOk result (λ thread. thread ≡ thread_of shared.value raw) }
    {
        let samples = samples_of(alloc, stacks, &raw)?;
        let rows = marker_rows_of(alloc, strings, &raw)?;
        let texts = marker_texts_of(alloc, raw.has_markers, raw.marker_texts);
        let markers = Rc::new(alloc, RawMarkers { rows, texts })?;
        Ok(Thread {
            shared,
            name: raw.name,
            unit: raw.unit.unwrap_or(Unit::Samples),
            samples,
            markers,
        })
    }

    /// The thread of its own columns over tables that it shares, or the first rule that its own columns break.
    pub fn build_own(
        alloc: Global,
        shared: Rc<Shared>,
        own: RawOwn,
        number: u32,
    ) -> Result<Thread, BuildRefusal>
        requires { All (IsPart (length own.marker_texts)) own.marker_ranges }
        ensures { Builds (λ t. t) result
            (own_broken (Some number)
            (length shared.value.strings) (length shared.value.stacks) own)
            (thread_of shared.value own) }
    {
        let strings = shared.strings().count();
        let stacks = shared.stacks().count();
        check_own(Some(number), strings, stacks, &own)?;
        Ok(Thread::of_checked(alloc, shared, strings, stacks, own)?)
    }

    /// The thread of the columns of all its tables, or the first rule that they break.
    pub fn build_parts(
        alloc: Global,
        shared: RawShared,
        own: RawOwn,
        number: u32,
        categories: u32,
        default: u32,
    ) -> Result<Thread, BuildRefusal>
        requires default { default < categories }
        requires ranges { All (IsPart (length own.marker_texts)) own.marker_ranges }
        ensures { Builds (λ t. t) result
            (thread_broken number categories (record { shared = shared; own = own }))
            (thread_of (shared_of categories default shared) own) }
    {
        let shared = Shared::make(alloc, shared, Some(number), categories, default)?;
        Thread::build_own(alloc, shared, own, number)
    }

    /// The thread of its own columns over tables that it shares, or the first rule that its own columns break. The columns
    /// of the shared tables in `raw` aren't looked at.
    pub fn build_on(
        alloc: Global,
        shared: Rc<Shared>,
        raw: RawThread,
        number: u32,
    ) -> Result<Thread, BuildRefusal>
        requires { All (IsPart (length raw.own.marker_texts)) raw.own.marker_ranges }
        ensures { Builds (λ t. t) result
            (own_broken (Some number)
            (length shared.value.strings) (length shared.value.stacks) raw.own)
            (thread_of shared.value raw.own) }
    {
        let (_, own) = raw.parts();
        Thread::build_own(alloc, shared, own, number)
    }

    /// The thread of its columns, or the first rule that they break.
    pub fn build(
        alloc: Global,
        raw: RawThread,
        number: u32,
        categories: u32,
        default: u32,
    ) -> Result<Thread, BuildRefusal>
        requires default { default < categories }
        requires ranges { All (IsPart (length raw.own.marker_texts)) raw.own.marker_ranges }
        ensures { Builds (λ t. t) result
            (thread_broken number categories raw)
            (thread_of (shared_of categories default raw.shared) raw.own) }
    {
        let (shared, own) = raw.parts();
        Thread::build_parts(alloc, shared, own, number, categories, default)
    }

    /// The same thread with other samples and another unit.
    pub fn with_samples(
        &self,
        alloc: Global,
        rows: Vec<SampleRow>,
        unit: Unit,
    ) -> Result<Thread, NoMemory>
        requires few { length rows.items ≤ 8388608 }
        requires fit { All (IsSample (length self.now.shared.stacks)) rows.items }
        ensures { IfOk result (λ thread.
            thread ≡ record self.now { unit = unit; samples = rows.items }) }
    {
        let shared = self.shared.clone()?;
        let name = self.name.copy(alloc)?;
        let markers = self.markers.clone()?;
        self.keeps();
        let samples = SampleList::of(alloc, &rows)?;
        Ok(Thread {
            shared,
            name,
            unit,
            samples,
            markers,
        })
    }
}

impl Thread {
    /// What each thread keeps: its tables and the tables that it stands on are within their limits, and each number is in
    /// its range. The call does nothing.
    pub fn keeps(&self)
        ensures shared { IsShared self.now.shared }
        ensures own { AreOwn self.now }
    {
        self.shared.keeps();
        let _ = &self.unit;
    }

    /// The thread's name.
    pub fn name(&self) -> &str
        ensures { result.now ≡ self.now.name }
    {
        self.name.as_str()
    }

    /// What the weights of the samples count.
    pub fn unit(&self) -> Unit
        ensures { result ≡ self.now.unit }
    {
        self.unit
    }

    /// The number F of functions. The numbers from F to F + R - 1 are the R resources collapsed.
    pub fn func_count(&self) -> u32
        ensures count { result ≡ length self.now.shared.funcs }
        ensures few { length self.now.shared.funcs + length self.now.shared.resources < 2 ^ 32 }
    {
        self.shared.func_count()
    }

    /// The number R of resources.
    pub fn resource_count(&self) -> u32
        ensures count { result ≡ length self.now.shared.resources }
        ensures few { length self.now.shared.funcs + length self.now.shared.resources < 2 ^ 32 }
    {
        self.shared.resource_count()
    }

    /// The number of categories.
    pub fn category_count(&self) -> u32
        ensures { result ≡ self.now.shared.categories }
    {
        self.shared.categories()
    }

    /// The number of the default category.
    pub fn default_category(&self) -> u32
        ensures value { result ≡ self.now.shared.default }
        ensures below { result < self.now.shared.categories }
    {
        self.shared.default_category()
    }

    /// The number of samples.
    pub fn sample_count(&self) -> u32
        ensures count { result ≡ length self.now.samples }
        ensures few { result ≤ 8388608 }
    {
        self.samples.count() as u32
    }

    /// The name of a function, and of the resource of a collapsed one.
    pub fn func_name(&self, f: u32) -> &str
        requires { f < length self.now.shared.funcs + length self.now.shared.resources }
        ensures { result.now ≡ func_name self.now.shared f }
    {
        self.shared.func_name(f)
    }

    /// The name of a function's file. A collapsed resource has none.
    pub fn file_name(&self, f: u32) -> Option<&str>
        requires { f < length self.now.shared.funcs + length self.now.shared.resources }
        ensures { option_copied result ≡ file_name self.now.shared f }
    {
        self.shared.file_name(f)
    }

    /// The resource of a function. That of a collapsed resource is itself.
    pub fn func_resource(&self, f: u32) -> Option<u32>
        requires { f < length self.now.shared.funcs + length self.now.shared.resources }
        ensures value { result ≡ resource_of self.now.shared f }
        ensures below { IfSome result (λ r. r < length self.now.shared.resources) }
    {
        self.shared.func_resource(f)
    }

    /// The name of a resource.
    pub fn resource_name(&self, r: u32) -> &str
        requires { r < length self.now.shared.resources }
        ensures { result.now ≡ resource_name self.now.shared r }
    {
        self.shared.resource_name(r)
    }

    /// Whether a function is JavaScript.
    pub fn is_js(&self, f: u32) -> bool
        requires { f < length self.now.shared.funcs }
        ensures { option_map (λ (func : Func). func.is_js) (slice_get self.now.shared.funcs f)
            ≡ Some result }
    {
        self.shared.is_js(f)
    }

    /// Whether a function that isn't JavaScript is shown among JavaScript.
    pub fn relevant_for_js(&self, f: u32) -> bool
        requires { f < length self.now.shared.funcs }
        ensures { option_map (λ (func : Func). func.relevant_for_js) (slice_get self.now.shared.funcs f)
            ≡ Some result }
    {
        self.shared.relevant_for_js(f)
    }

    /// A sample.
    pub fn sample(&self, k: u32) -> SampleRow
        requires { k < length self.now.samples }
        ensures row { slice_get self.now.samples k ≡ Some result }
        ensures stack { IfSome result.stack (λ i. i < length self.now.shared.stacks) }
        ensures time { InRange result.time }
        ensures weight { InRange result.weight }
    {
        self.samples.row(k as usize)
    }

    /// The strings.
    pub fn strings(&self) -> &Strings
        ensures { result.now ≡ self.now.shared.strings }
    {
        self.shared.strings()
    }

    /// The stack rows.
    pub fn stacks(&self) -> &Stacks
        ensures rows { result.now ≡ self.now.shared.stacks }
        ensures steps { All (IsStackRow (length self.now.shared.funcs) self.now.shared.categories)
            self.now.shared.stacks }
    {
        self.shared.stacks()
    }

    /// The markers, as they stand in the table.
    pub fn markers(&self) -> &RawMarkers
        ensures rows { result.now ≡ self.now.markers }
        ensures few { length self.now.markers.rows ≤ 4194304 }
        ensures tied { All (IsMarker (length self.now.shared.strings) (length self.now.markers.texts))
            self.now.markers.rows }
    {
        &self.markers
    }

    /// The places of a function's texts in the strings.
    pub fn func_strings(&self, f: u32) -> FuncStrings
        requires { f < length self.now.shared.funcs }
        ensures name { option_map (λ (func : Func). func.name) (slice_get self.now.shared.funcs f)
            ≡ Some result.name }
        ensures file { option_map (λ (func : Func). func.file) (slice_get self.now.shared.funcs f)
            ≡ Some result.file }
        ensures name_below { result.name < length self.now.shared.strings }
        ensures file_below { IfSome result.file (λ n. n < length self.now.shared.strings) }
    {
        self.shared.func_strings(f)
    }

    /// The place of a resource's name in the strings.
    pub fn resource_string(&self, r: u32) -> u32
        requires { r < length self.now.shared.resources }
        ensures value { slice_get self.now.shared.resources r ≡ Some result }
        ensures below { result < length self.now.shared.strings }
    {
        self.shared.resource_string(r)
    }

    /// The number of frames.
    pub fn frame_count(&self) -> u32
        ensures { result ≡ length self.now.shared.frames }
    {
        self.shared.frame_count()
    }

    /// A frame.
    pub fn frame(&self, j: u32) -> FrameRow
        requires { j < length self.now.shared.frames }
        ensures row { slice_get self.now.shared.frames j ≡ Some result }
        ensures func { result.func < length self.now.shared.funcs }
        ensures category { IfSome result.category (λ c. c < self.now.shared.categories) }
    {
        self.shared.frame(j)
    }

    /// The frame of a stack row, which counts one reading. It gives the row its function and its category.
    pub fn stack_frame<L: Ledger>(&self, i: u32, reads: &mut Steps<L>) -> u32
        requires { i < length self.now.shared.stacks }
        ensures row { slice_get self.now.shared.stack_frames i ≡ Some result }
        ensures step { IsFrameOf self.now.shared i result }
        ensures one { reads.new ≡ reads.old + 1 }
    {
        self.shared.stack_frame(i, reads)
    }
}
