//! The tables that threads may share.
ghost use Rattle.std.specs.Prelude.{◌≡◌, IfOk, ◌+◌, ◌<◌, ◌^◌, length, Some, slice_get, slice_index_or, option_map, option_copied, IfSome, All, None};
ghost use Rattle.prof_tables.specs.Threads.{Func, text_at, resource_of, resource_name, func_name, file_name};
ghost use Rattle.prof_tables.specs.Frames.{IsFrameOf};
ghost use Rattle.prof_tables.specs.Ties.{IsStackRow, IsShared};
ghost use Rattle.prof_tables.specs.Builds.{Builds};
ghost use Rattle.prof_raw.specs.Checks.{shared_broken};
ghost use Rattle.prof_raw.specs.Fits.{FitShared};
ghost use Rattle.prof_tables.specs.Rows.{shared_of};

use crate::held::{HeldFrame, HeldFunc};
use crate::make::{frames_of, funcs_of, resources_of, stack_frames_of, stacks_of};
use crate::refusal::BuildRefusal;
use crate::rows::{FrameRow, FuncStrings};
use crate::stacks::Stacks;
use prof_io::Steps;
use prof_raw::{RawShared, Strings, check_shared};
use std::alloc::{AllocError, Global};
use std::marker::Model;
use std::rc::Rc;
use std::sync::ledger::Ledger;

/// The tables that threads may share: strings, resources, functions, frames and stack rows.
#[derive(Drop)]
pub struct Shared {
    strings: Rc<Strings>,
    resources: Vec<u32>,
    funcs: Vec<HeldFunc>,
    frames: Vec<HeldFrame>,
    stacks: Stacks,
    stack_frames: Vec<u32>,
    categories: u32,
    default: u32,
}

impl Model for Shared {
    ghost use Rattle.prof_tables.specs.Threads.{SharedTables};
    ghost use Rattle.prof_tables.specs.Ties.{IsShared};

    ghost Value = { SharedTables };

    ghost view = { λ s. record {
      strings = s.strings.value;
      resources = s.resources.items;
      funcs = s.funcs.items;
      frames = s.frames.items;
      stacks = s.stacks;
      stack_frames = s.stack_frames.items;
      categories = s.categories;
      default = s.default;
    } };

    ghost invariant = { λ s. IsShared (record {
      strings = s.strings.value;
      resources = s.resources.items;
      funcs = s.funcs.items;
      frames = s.frames.items;
      stacks = s.stacks;
      stack_frames = s.stack_frames.items;
      categories = s.categories;
      default = s.default;
    }) };
}

impl Shared {
    /// The tables that checked columns stand for.
    fn of_checked(
        alloc: Global,
        raw: &RawShared,
        categories: u32,
        default: u32,
    ) -> Result<Shared, AllocError>
        requires default { default < categories }
        requires fit { FitShared categories raw.now }
        ensures { IfOk result (λ shared. shared ≡ shared_of categories default raw.now) }
    {
        let resources = resources_of(alloc, raw)?;
        let funcs = funcs_of(alloc, raw)?;
        let frames = frames_of(alloc, categories, raw)?;
        let rows = stacks_of(alloc, default, &frames, raw)?;
        let stack_frames = stack_frames_of(alloc, raw)?;
        let strings = raw.strings.clone()?;
        Ok(Shared {
            strings,
            resources,
            funcs,
            frames,
            stacks: Stacks::of(rows),
            stack_frames,
            categories,
            default,
        })
    }

    /// The tables that the columns stand for, or the first rule that they break in a thread, or in none.
    pub(crate) fn make(
        alloc: Global,
        raw: RawShared,
        thread: Option<u32>,
        categories: u32,
        default: u32,
    ) -> Result<Rc<Shared>, BuildRefusal>
        requires { default < categories }
        ensures { Builds (λ s. s.value) result
            (shared_broken thread categories raw) (shared_of categories default raw) }
    {
        check_shared(thread, categories, &raw)?;
        let shared = Shared::of_checked(alloc, &raw, categories, default)?;
        Ok(Rc::new(alloc, shared)?)
    }

    /// The tables that threads share, or the first rule that their columns break.
    pub fn build(
        alloc: Global,
        raw: RawShared,
        categories: u32,
        default: u32,
    ) -> Result<Rc<Shared>, BuildRefusal>
        requires { default < categories }
        ensures { Builds (λ s. s.value) result
            (shared_broken None categories raw) (shared_of categories default raw) }
    {
        Shared::make(alloc, raw, None, categories, default)
    }

    /// What each value of the tables keeps: they are within their limits, and each number is in its range. The call does
    /// nothing.
    pub fn keeps(&self)
        ensures { IsShared self.now }
    {
        let _ = &self.default;
    }

    pub(crate) fn strings(&self) -> &Strings
        ensures { result.now ≡ self.now.strings }
    {
        &self.strings
    }

    pub(crate) fn stacks(&self) -> &Stacks
        ensures rows { result.now ≡ self.now.stacks }
        ensures steps { All (IsStackRow (length self.now.funcs) self.now.categories) self.now.stacks }
    {
        &self.stacks
    }

    pub(crate) fn func_count(&self) -> u32
        ensures count { result ≡ length self.now.funcs }
        ensures few { length self.now.funcs + length self.now.resources < 2 ^ 32 }
    {
        self.funcs.len() as u32
    }

    pub(crate) fn resource_count(&self) -> u32
        ensures count { result ≡ length self.now.resources }
        ensures few { length self.now.funcs + length self.now.resources < 2 ^ 32 }
    {
        self.resources.len() as u32
    }

    pub(crate) fn categories(&self) -> u32
        ensures { result ≡ self.now.categories }
    {
        self.categories
    }

    pub(crate) fn default_category(&self) -> u32
        ensures value { result ≡ self.now.default }
        ensures below { result < self.now.categories }
    {
        self.default
    }

    fn text(&self, i: u32) -> &str
        requires { i < length self.now.strings }
        ensures { result.now ≡ text_at self.now i }
    {
        match self.strings.get(i) {
            Some(text) => text,
            None => unreachable!(),
        }
    }

    pub(crate) fn resource_string(&self, r: u32) -> u32
        requires { r < length self.now.resources }
        ensures value { slice_get self.now.resources r ≡ Some result }
        ensures below { result < length self.now.strings }
    {
        self.resources[r as usize]
    }

    pub(crate) fn resource_name(&self, r: u32) -> &str
        requires { r < length self.now.resources }
        ensures { result.now ≡ resource_name self.now r }
    {
        self.text(self.resource_string(r))
    }

    pub(crate) fn func_strings(&self, f: u32) -> FuncStrings
        requires { f < length self.now.funcs }
        ensures name { option_map (λ (func : Func). func.name) (slice_get self.now.funcs f)
            ≡ Some result.name }
        ensures file { option_map (λ (func : Func). func.file) (slice_get self.now.funcs f)
            ≡ Some result.file }
        ensures name_below { result.name < length self.now.strings }
        ensures file_below { IfSome result.file (λ n. n < length self.now.strings) }
    {
        let func = &self.funcs[f as usize];
        FuncStrings {
            name: func.name,
            file: func.file.get(),
        }
    }

    pub(crate) fn is_js(&self, f: u32) -> bool
        requires { f < length self.now.funcs }
        ensures { option_map (λ (func : Func). func.is_js) (slice_get self.now.funcs f) ≡ Some result }
    {
        self.funcs[f as usize].is_js
    }

    pub(crate) fn relevant_for_js(&self, f: u32) -> bool
        requires { f < length self.now.funcs }
        ensures { option_map (λ (func : Func). func.relevant_for_js) (slice_get self.now.funcs f)
            ≡ Some result }
    {
        self.funcs[f as usize].relevant_for_js
    }

    pub(crate) fn func_resource(&self, f: u32) -> Option<u32>
        requires { f < length self.now.funcs + length self.now.resources }
        ensures value { result ≡ resource_of self.now f }
        ensures below { IfSome result (λ r. r < length self.now.resources) }
    {
        match self.funcs.get(f as usize) {
            Some(func) => func.resource.get(),
            None => Some(f - self.func_count()),
        }
    }

    pub(crate) fn func_name(&self, f: u32) -> &str
        requires { f < length self.now.funcs + length self.now.resources }
        ensures { result.now ≡ func_name self.now f }
    {
        if f < self.func_count() {
            self.text(self.func_strings(f).name)
        } else {
            self.resource_name(f - self.func_count())
        }
    }

    pub(crate) fn file_name(&self, f: u32) -> Option<&str>
        requires { f < length self.now.funcs + length self.now.resources }
        ensures { option_copied result ≡ file_name self.now f }
    {
        if f < self.func_count() {
            match self.func_strings(f).file {
                Some(file) => Some(self.text(file)),
                None => None,
            }
        } else {
            None
        }
    }

    pub(crate) fn frame_count(&self) -> u32
        ensures { result ≡ length self.now.frames }
    {
        self.frames.len() as u32
    }

    pub(crate) fn frame(&self, j: u32) -> FrameRow
        requires { j < length self.now.frames }
        ensures row { slice_get self.now.frames j ≡ Some result }
        ensures func { result.func < length self.now.funcs }
        ensures category { IfSome result.category (λ c. c < self.now.categories) }
    {
        self.frames[j as usize].row()
    }

    pub(crate) fn stack_frame<L: Ledger>(&self, i: u32, reads: &mut Steps<L>) -> u32
        requires { i < length self.now.stacks }
        ensures row { slice_get self.now.stack_frames i ≡ Some result }
        ensures step { IsFrameOf self.now i result }
        ensures one { reads.new ≡ reads.old + 1 }
    {
        reads.tick();
        self.stack_frames[i as usize]
    }
}
