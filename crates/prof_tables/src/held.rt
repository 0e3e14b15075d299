//! Rows as the tables hold them: an index takes four bytes, with or without none.
ghost use Rattle.std.specs.Prelude.{◌≡◌, ◌<◌, IfSome};

use crate::index::MaybeIndex;
use crate::rows::{FrameRow, StackRow};
use std::marker::Model;

/// A function.
#[derive(Drop)]
pub(crate) struct HeldFunc {
    pub(crate) name: u32,
    pub(crate) is_js: bool,
    pub(crate) relevant_for_js: bool,
    pub(crate) resource: MaybeIndex,
    pub(crate) file: MaybeIndex,
}

impl Model for HeldFunc {
    ghost use Rattle.prof_tables.specs.Threads.{Func};

    ghost Value = { Func };

    ghost view = { λ f. record {
      name = f.name;
      is_js = f.is_js;
      relevant_for_js = f.relevant_for_js;
      resource = f.resource;
      file = f.file;
    } };
}

impl HeldFunc {
    pub(crate) fn of(
        name: u32,
        is_js: bool,
        relevant_for_js: bool,
        resource: Option<u32>,
        file: Option<u32>,
    ) -> Self
        requires resource { IfSome resource (λ n. n < 4294967295) }
        requires file { IfSome file (λ n. n < 4294967295) }
        ensures { result ≡ record {
          name = name;
          is_js = is_js;
          relevant_for_js = relevant_for_js;
          resource = resource;
          file = file;
        } }
    {
        HeldFunc {
            name,
            is_js,
            relevant_for_js,
            resource: MaybeIndex::of(resource),
            file: MaybeIndex::of(file),
        }
    }
}

/// A frame.
#[derive(Drop)]
pub(crate) struct HeldFrame {
    func: u32,
    category: MaybeIndex,
}

impl Model for HeldFrame {
    ghost use Rattle.prof_tables.specs.declared.rows.FrameRow.{FrameRow};

    ghost Value = { FrameRow };

    ghost view = { λ f. record { func = f.func; category = f.category } };
}

impl HeldFrame {
    pub(crate) fn of(row: FrameRow) -> Self
        requires { IfSome row.category (λ n. n < 4294967295) }
        ensures { result ≡ row }
    {
        HeldFrame {
            func: row.func,
            category: MaybeIndex::of(row.category),
        }
    }

    pub(crate) fn row(&self) -> FrameRow
        ensures { result ≡ self.now }
    {
        FrameRow {
            func: self.func,
            category: self.category.get(),
        }
    }
}

/// A stack row.
#[derive(Drop)]
pub(crate) struct HeldStack {
    prefix: MaybeIndex,
    func: u32,
    category: u32,
}

impl Model for HeldStack {
    ghost use Rattle.prof_tables.specs.declared.rows.StackRow.{StackRow};

    ghost Value = { StackRow };

    ghost view = { λ s. record { prefix = s.prefix; func = s.func; category = s.category } };
}

impl HeldStack {
    pub(crate) fn of(row: StackRow) -> Self
        requires { IfSome row.prefix (λ n. n < 4294967295) }
        ensures { result ≡ row }
    {
        HeldStack {
            prefix: MaybeIndex::of(row.prefix),
            func: row.func,
            category: row.category,
        }
    }

    pub(crate) fn row(&self) -> StackRow
        ensures { result ≡ self.now }
    {
        StackRow {
            prefix: self.prefix.get(),
            func: self.func,
            category: self.category,
        }
    }
}
