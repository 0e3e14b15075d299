//! The profile of what was gathered, or the first check that fails.
ghost use Rattle.std.specs.Prelude.{◌≡◌, ◌≤◌, ◌<◌, ℕ, List, true, Option, None, IfOk, IfErr, IfSome, map, vec_len, length, codes, All};
ghost use Rattle.prof_raw.specs.declared.limits.TheConstants.{MOST_STRINGS};
ghost use Rattle.std.specs.Option.{option_map};
ghost use Rattle.prof_tables.specs.Profiles.{CountsIn};
ghost use Rattle.prof_raw.specs.Checks.{Passes, named};
ghost use Rattle.prof_grammar.specs.Value.{Value, Members, field};
ghost use Rattle.prof_layout.specs.Lists.{is_object, first_unfit};
ghost use Rattle.prof_layout.specs.Kept.{kept_shared};
ghost use Rattle.prof_layout.specs.Tables as table_layout;
ghost use Rattle.prof_layout.specs.Profile as layout;
ghost use Rattle.prof_gather.specs.Taking.{IsFound, IsFoundIn};
ghost use Rattle.prof_column.specs.Kept.{IsTextList};
ghost use Rattle.prof_members.specs.Gathered.{AreParts, AreShared, AreThread, AreThreads, IsCategoryList};
ghost use Rattle.prof_read.specs.Built.{Reads, ReadsAs};
ghost use Rattle.prof_read.specs.Raw.{HoldsStrings, counting_texts, counting_fault};
ghost use Rattle.prof_read.specs.Bases.{IsBase, IsBaseOf, AreCounts, StandsOn, IsBuilding};

use crate::ReadRefusal;
use crate::raw::{HeldStrings, held_strings, raw_own, raw_shared, tables_over};
use prof_column::TextList;
use prof_gather::Found;
use prof_io::{NoMemory, Text};
use prof_members::{CategoryList, Meta, ProfileParts, SharedTables, ThreadList, ThreadParts};
use prof_raw::{Broken, Column, ListFault, RawShared, Rule, State, Strings, Table};
use prof_tables::{Profile, Shared, Thread};
use std::alloc::Global;
use std::rc::Rc;

/// The check of a list.
fn check(table: Table, column: Column, fault: Option<ListFault>) -> Result<(), Broken>
    ensures { Passes result (named None table column fault) }
{
    match fault {
        None => Ok(()),
        Some(ListFault { rule, row }) => Err(Broken {
            rule,
            thread: None,
            table,
            column,
            row,
        }),
    }
}

/// The text is no profile.
pub(crate) fn unknown_format() -> ReadRefusal
    ensures { result ≡ ReadRefusal.Broken layout.unknown_format }
{
    ReadRefusal::Broken(Broken {
        rule: Rule::UnknownFormat,
        thread: None,
        table: Table::Meta,
        column: Column::Version,
        row: None,
    })
}

/// What threads stand on: tables of their own, with a list of strings for those that have none, or shared tables.
#[derive(Drop)]
enum Base {
    Own(Option<Rc<Strings>>),
    Shared(Rc<Shared>),
}

/// The list of strings for the threads that have none.
fn common_strings(alloc: Global, list: TextList) -> Result<Option<Rc<Strings>>, ReadRefusal>
    ensures err { IfErr result IsBuilding }
    ensures strings { (member : Option Value) → IsTextList member list → Reads (λ strings. option_map (λ s. s.value) strings) result (layout.common_broken member) (layout.common_of member) }
{
    if list.state == State::Absent {
        return Ok(None);
    }
    check(Table::StringArray, Column::List, list.fault())?;
    let HeldStrings { strings, .. } = held_strings(alloc, list)?;
    Ok(Some(strings))
}

/// What threads stand on, by what was gathered of `shared`.
fn base_of(
    alloc: Global,
    shared: Found<SharedTables>,
    categories: u32,
    default: u32,
) -> Result<Base, ReadRefusal>
    requires { default < categories }
    ensures ok { IfOk result (IsBase categories default) }
    ensures err { IfErr result IsBuilding }
    ensures base { (v : Value) → AreCounts v categories default → IsFoundIn AreShared (field (codes "shared") v) shared → ReadsAs (IsBaseOf v) result (layout.base_broken v) }
{
    let Found::Object(tables) = shared else {
        return Ok(Base::Own(None));
    };
    if tables.has_stacks() {
        let raw = raw_shared(alloc, tables)?;
        let built = Shared::build(alloc, raw, categories, default)?;
        return Ok(Base::Shared(built));
    }
    let strings = common_strings(alloc, tables.strings)?;
    Ok(Base::Own(strings))
}

/// The strings of a thread: its own list where that is there, else the common one.
fn thread_strings(
    alloc: Global,
    own: TextList,
    common: &Option<Rc<Strings>>,
) -> Result<HeldStrings, NoMemory>
    ensures { IfOk result (λ held. (texts : Option (List (List ℕ))) (member : Option Value) → option_map (λ s. s.value) common.now ≡ texts → IfSome texts (λ strings. length strings ≤ MOST_STRINGS)
        → IsTextList member own → HoldsStrings (counting_texts texts member) (counting_fault texts member) held) }
{
    match common {
        Some(strings) if own.state == State::Absent => {
            let strings = strings.clone()?;
            Ok(HeldStrings {
                strings,
                fault: None,
            })
        }
        _ => held_strings(alloc, own),
    }
}

/// The raw tables of a thread that has them, over its own strings where they are there, else over the common ones.
fn raw_tables(
    alloc: Global,
    mut tables: SharedTables,
    common: &Option<Rc<Strings>>,
) -> Result<RawShared, NoMemory>
    ensures { IfOk result (λ raw. (texts : Option (List (List ℕ))) (ms : Members) → option_map (λ s. s.value) common.now ≡ texts
        → IfSome texts (λ strings. length strings ≤ MOST_STRINGS) → AreShared ms tables
        → raw ≡ kept_shared (table_layout.raw_tables texts (Value.object ms))) }
{
    let own = std::mem::replace(&mut tables.strings, TextList::absent(alloc));
    let strings = thread_strings(alloc, own, common)?;
    Ok(tables_over(alloc, tables, strings))
}

/// The thread of this number, of what was gathered of it.
fn build_thread(
    alloc: Global,
    base: &Base,
    parts: ThreadParts,
    number: u32,
    categories: u32,
    default: u32,
) -> Result<Thread, ReadRefusal>
    requires base { IsBase categories default base.now }
    requires default { default < categories }
    ensures ok { IfOk result (CountsIn categories default) }
    ensures err { IfErr result IsBuilding }
    ensures thread { (v : Value) (ms : Members) → StandsOn v categories default base.now → AreThread ms parts → Reads (λ t. t) result (layout.thread_fails v number (Value.object ms)) (layout.thread_tables v (Value.object ms)) }
{
    let ThreadParts {
        name,
        shared: gathered,
        samples,
        markers,
    } = parts;
    let own = raw_own(alloc, name, samples, markers)?;
    match base {
        Base::Own(common) => {
            let tables = raw_tables(alloc, gathered, common)?;
            let thread = Thread::build_parts(alloc, tables, own, number, categories, default)?;
            Ok(thread)
        }
        Base::Shared(shared) => {
            let shared = shared.clone()?;
            let thread = Thread::build_own(alloc, shared, own, number)?;
            Ok(thread)
        }
    }
}

/// The threads of the list, each on the base.
fn threads_of(
    alloc: Global,
    base: &Base,
    threads: Vec<ThreadParts>,
    categories: u32,
    default: u32,
) -> Result<Vec<Rc<Thread>>, ReadRefusal>
    requires few { vec_len threads ≤ 1024 }
    requires base { IsBase categories default base.now }
    requires default { default < categories }
    ensures few { IfOk result (λ built. vec_len built ≤ 1024) }
    ensures counts { IfOk result (λ built. All (CountsIn categories default) (map (λ t. t.value) built.items)) }
    ensures err { IfErr result IsBuilding }
    ensures threads { (v : Value) (vs : List Value) → StandsOn v categories default base.now → first_unfit is_object vs ≡ None → AreThreads vs threads.items
        → Reads (λ built. map (λ t. t.value) built.items) result (layout.first_thread (layout.thread_fails v) 0 vs) (map (layout.thread_tables v) vs) }
{
    let mut built = Vec::new(alloc);
    for parts in threads {
        let number = built.len() as u32;
        let thread = build_thread(alloc, base, parts, number, categories, default)?;
        let thread = Rc::new(alloc, thread)?;
        built.push(thread)?;
    }
    Ok(built)
}

/// The names of the categories and the default.
pub(crate) fn categories_of(
    alloc: Global,
    list: CategoryList,
) -> Result<(Vec<Text>, u32), ReadRefusal>
    ensures ok { IfOk result (λ r. (r.1 < vec_len r.0) × (vec_len r.0 ≤ 65538)) }
    ensures err { IfErr result IsBuilding }
    ensures categories { (v : Value) → IsCategoryList (layout.categories_member v) list → Reads {Y = List (List ℕ) × ℕ} (λ r. (r.0.items, r.1)) result (layout.categories_broken v) (layout.category_names v, layout.default_category v) }
{
    check(Table::Meta, Column::Categories, list.fault())?;
    let categories = list.finish(alloc)?;
    Ok(categories)
}

/// The profile of what was gathered of the members of a text's value, or the first check that fails.
pub fn profile_of(alloc: Global, parts: Found<ProfileParts>) -> Result<Profile, ReadRefusal>
    ensures building { IfErr result IsBuilding }
    ensures profile { (v : Value) → IsFound AreParts v parts → Reads (λ p. p) result (layout.broken v) (layout.profile_of v) }
{
    let Found::Object(parts) = parts else {
        return Err(unknown_format());
    };
    let ProfileParts {
        meta,
        shared,
        threads,
    } = parts;
    let Found::Object(meta) = meta else {
        return Err(unknown_format());
    };
    let Meta {
        processed,
        categories,
    } = meta;
    if !processed {
        return Err(unknown_format());
    }
    let (names, default) = categories_of(alloc, categories)?;
    let categories = names.len() as u32;
    let base = base_of(alloc, shared, categories, default)?;
    check(Table::Threads, Column::List, threads.fault())?;
    let ThreadList { threads, .. } = threads;
    let threads = threads_of(alloc, &base, threads, categories, default)?;
    Ok(Profile {
        threads,
        categories: names,
        default,
    })
}
