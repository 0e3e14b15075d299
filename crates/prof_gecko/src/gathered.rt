//! A Gecko profile as it is gathered, before any check.

use prof_gecko_names::Lib;
use prof_io::Text;
use prof_raw::{Column, ListFault, RawColumn, Rule, Strings};
use std::marker::Model;
use std::rc::Rc;

/// The first check of a table, its schema and its data that fails.
#[derive(Clone, Copy, PartialEq, Eq, Debug)]
pub struct TableFault {
    pub column: Column,
    pub fault: ListFault,
}

/// A table: its columns in their written order. One that isn't there counts as absent.
#[derive(Drop)]
pub struct GeckoTable {
    pub fault: Option<TableFault>,
    pub columns: Vec<RawColumn>,
}

impl Model for GeckoTable {
    ghost use Rattle.prof_gecko.specs.Gathered.{TableCells};

    ghost Value = { TableCells };

    ghost view = { λ t. record { fault = t.fault; columns = t.columns.items } };
}

/// A thread. `has_markers` says that the table of the markers counts. A marker's texts are its range of `marker_texts`;
/// a row without a range has none.
#[derive(Drop)]
pub struct GeckoThread {
    pub name: Text,
    pub strings: Rc<Strings>,
    pub string_fault: Option<ListFault>,
    pub frame: GeckoTable,
    pub stack: GeckoTable,
    pub samples: GeckoTable,
    pub markers: GeckoTable,
    pub has_markers: bool,
    pub marker_texts: Vec<Text>,
    pub marker_ranges: Vec<(u32, u32)>,
}

impl Model for GeckoThread {
    ghost use Rattle.prof_gecko.specs.Gathered.{GeckoCells};

    ghost Value = { GeckoCells };

    ghost view = { λ t. record {
      name = t.name;
      strings = t.strings.value;
      string_fault = t.string_fault;
      frame = t.frame;
      stack = t.stack;
      samples = t.samples;
      markers = t.markers;
      has_markers = t.has_markers;
      marker_texts = t.marker_texts.items;
      marker_ranges = t.marker_ranges.items;
    } };
}

/// A process with those below it: the entries of its list that aren't null and stand before the list's fault. Contracts see
/// it as its entries, in the order of their checks.
#[derive(Drop)]
pub struct GeckoProcess {
    pub start: i64,
    pub start_fault: Option<Rule>,
    pub libs: Vec<Lib>,
    pub libs_fault: Option<ListFault>,
    pub threads: Vec<GeckoThread>,
    pub threads_fault: Option<ListFault>,
    pub children: Vec<GeckoProcess>,
    pub children_fault: Option<ListFault>,
}

impl Model for GeckoProcess {
    ghost use Rattle.std.specs.Prelude.{List, length};
    ghost use Rattle.std.proofs.Common.{arith};
    ghost use Rattle.prof_gecko.specs.Gathered.{Entry, entries_of};
    ghost use Rattle.prof_gecko.specs.Inside.{most_below};

    ghost Value = { List Entry };

    ghost view = { λ p. entries_of (record {
      start = p.start;
      start_fault = p.start_fault;
      libs = p.libs.items;
      libs_fault = p.libs_fault;
      threads = p.threads.items;
      threads_fault = p.threads_fault;
    }) p.children.items p.children_fault };

    ghost size = { length };

    ghost size_decreases = { λ p h. omega (arith, most_below p.children.items p.children_fault) };
}

/// A profile. The categories serve all threads.
#[derive(Drop)]
pub struct GeckoProfile {
    pub categories: Vec<Text>,
    pub default: u32,
    pub category_fault: Option<ListFault>,
    pub root: GeckoProcess,
}

impl Model for GeckoProfile {
    ghost use Rattle.prof_gecko.specs.Gathered.{ProfileCells};

    ghost Value = { ProfileCells };

    ghost view = { λ g. record {
      categories = g.categories.items;
      default = g.default;
      category_fault = g.category_fault;
      entries = g.root;
    } };
}
