//! The tables that a processed thread would have.
ghost use Rattle.std.specs.Prelude.{◌≡◌, IfOk, map};
ghost use Rattle.prof_gecko.specs.Converted.{filled, number_cell, numbers_column, maybe_cell, minus_cell, truth_cell, shared_cells};

use crate::columns::StackColumns;
use crate::derived::Derived;
use prof_gecko_names::Func;
use prof_io::NoMemory;
use prof_raw::{CellList, RawColumn, RawShared, State, TableLength};
use std::alloc::{AllocError, Global};
use std::rc::Rc;

/// A column of these cells.
fn filled(alloc: Global, cells: Vec<Option<i64>>) -> RawColumn
    ensures { result ≡ filled cells.items }
{
    RawColumn {
        state: State::Array,
        values: CellList::of(alloc, cells),
        bad: None,
    }
}

fn number_cell(number: u32) -> Option<i64>
    ensures { result ≡ number_cell number }
{
    Some(i64::from(number))
}

fn maybe_cell(number: Option<u32>) -> Option<i64>
    ensures { result ≡ maybe_cell number }
{
    match number {
        Some(number) => Some(i64::from(number)),
        None => None,
    }
}

/// -1 stands for none.
fn minus_cell(number: Option<u32>) -> Option<i64>
    ensures { result ≡ minus_cell number }
{
    match number {
        Some(number) => Some(i64::from(number)),
        None => Some(-1),
    }
}

fn truth_cell(truth: bool) -> Option<i64>
    ensures { result ≡ truth_cell truth }
{
    if truth { Some(1) } else { Some(0) }
}

fn number_cells(alloc: Global, numbers: &[u32]) -> Result<Vec<Option<i64>>, AllocError>
    ensures { IfOk result (λ v. v.items ≡ map number_cell numbers.now) }
{
    numbers.iter().map(|n| number_cell(*n)).collect(alloc)
}

fn name_cells(alloc: Global, funcs: &[Func]) -> Result<Vec<Option<i64>>, AllocError>
    ensures { IfOk result (λ v. v.items ≡ map (λ f. number_cell f.name) funcs.now) }
{
    funcs.iter().map(|f| number_cell(f.name)).collect(alloc)
}

fn is_js_cells(alloc: Global, funcs: &[Func]) -> Result<Vec<Option<i64>>, AllocError>
    ensures { IfOk result (λ v. v.items ≡ map (λ f. truth_cell f.is_js) funcs.now) }
{
    funcs.iter().map(|f| truth_cell(f.is_js)).collect(alloc)
}

fn relevant_cells(alloc: Global, funcs: &[Func]) -> Result<Vec<Option<i64>>, AllocError>
    ensures { IfOk result (λ v. v.items ≡ map (λ f. truth_cell f.relevant_for_js) funcs.now) }
{
    funcs
        .iter()
        .map(|f| truth_cell(f.relevant_for_js))
        .collect(alloc)
}

fn resource_cells(alloc: Global, funcs: &[Func]) -> Result<Vec<Option<i64>>, AllocError>
    ensures { IfOk result (λ v. v.items ≡ map (λ f. minus_cell f.resource) funcs.now) }
{
    funcs.iter().map(|f| minus_cell(f.resource)).collect(alloc)
}

fn file_cells(alloc: Global, funcs: &[Func]) -> Result<Vec<Option<i64>>, AllocError>
    ensures { IfOk result (λ v. v.items ≡ map (λ f. maybe_cell f.file) funcs.now) }
{
    funcs.iter().map(|f| maybe_cell(f.file)).collect(alloc)
}

/// A column of numbers.
fn numbers_column(alloc: Global, numbers: &[u32]) -> Result<RawColumn, NoMemory>
    ensures { IfOk result (λ c. c ≡ numbers_column numbers.now) }
{
    Ok(filled(alloc, number_cells(alloc, numbers)?))
}

/// The columns of functions.
#[derive(Drop)]
struct FuncColumns {
    name: RawColumn,
    is_js: RawColumn,
    relevant_for_js: RawColumn,
    resource: RawColumn,
    file_name: RawColumn,
}

impl FuncColumns {
    fn of(alloc: Global, funcs: &[Func]) -> Result<Self, NoMemory>
        ensures name { IfOk result (λ c.
            c.name ≡ filled (map (λ f. number_cell f.name) funcs.now)) }
        ensures is_js { IfOk result (λ c.
            c.is_js ≡ filled (map (λ f. truth_cell f.is_js) funcs.now)) }
        ensures relevant_for_js { IfOk result (λ c.
            c.relevant_for_js ≡ filled (map (λ f. truth_cell f.relevant_for_js) funcs.now)) }
        ensures resource { IfOk result (λ c.
            c.resource ≡ filled (map (λ f. minus_cell f.resource) funcs.now)) }
        ensures file_name { IfOk result (λ c.
            c.file_name ≡ filled (map (λ f. maybe_cell f.file) funcs.now)) }
    {
        Ok(FuncColumns {
            name: filled(alloc, name_cells(alloc, funcs)?),
            is_js: filled(alloc, is_js_cells(alloc, funcs)?),
            relevant_for_js: filled(alloc, relevant_cells(alloc, funcs)?),
            resource: filled(alloc, resource_cells(alloc, funcs)?),
            file_name: filled(alloc, file_cells(alloc, funcs)?),
        })
    }
}

/// The tables that a processed thread would have.
pub(crate) fn shared_columns(
    alloc: Global,
    derived: Derived,
    category: RawColumn,
    stacks: StackColumns,
) -> Result<RawShared, NoMemory>
    ensures { IfOk result (λ raw.
        raw ≡ shared_cells derived.lists derived.numbers.items category stacks) }
{
    let Derived { lists, numbers } = derived;
    let resource_name = numbers_column(alloc, &lists.resources)?;
    let funcs = FuncColumns::of(alloc, &lists.funcs)?;
    let frame_func = numbers_column(alloc, &numbers)?;
    let strings = Rc::new(alloc, lists.strings)?;
    Ok(RawShared {
        strings,
        string_fault: None,
        has_resources: true,
        resource_name,
        resource_length: TableLength::Unsaid,
        func_name: funcs.name,
        func_is_js: funcs.is_js,
        func_relevant_for_js: funcs.relevant_for_js,
        func_resource: funcs.resource,
        func_file_name: funcs.file_name,
        func_length: TableLength::Unsaid,
        frame_func,
        frame_category: category,
        frame_length: TableLength::Unsaid,
        stack_frame: stacks.frame,
        stack_prefix: stacks.prefix,
        stack_length: TableLength::Unsaid,
    })
}
