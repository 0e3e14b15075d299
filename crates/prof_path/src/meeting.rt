//! In which functions of a thread a term is met.
ghost use Rattle.std.specs.Prelude.{◌≡◌, ℕ, ◌<◌, ◌+◌, ◌||◌, ◌∷◌, [], List, length, Some, OnOk, IfOk, slice_get};
ghost use Rattle.std.specs.Str.{str_to_ascii_lowercase};
ghost use Rattle.prof_path.specs.Lowered.{sought, IsReady, has_in_own, has_in_resource};
ghost use Rattle.prof_path.specs.Finals.{occurs_in};

use crate::lists::TermList;
use crate::seeking::Seeker;
use prof_io::{NoMemory, Text};
use prof_tables::Thread;
use std::alloc::{AllocError, Global};

/// Whether some term occurs in the name of a function or in that of its file.
fn occurs_in_own(seeker: &mut Seeker, thread: &Thread, func: u32) -> Result<bool, AllocError>
    requires func { func < length thread.now.shared.funcs }
    requires ready { IsReady thread.now.shared.strings seeker.old }
    ensures terms { sought seeker.new ≡ sought seeker.old }
    ensures ready { OnOk result (IsReady thread.now.shared.strings seeker.new) }
    ensures value { IfOk result (λ b. b ≡ has_in_own thread.now.shared (sought seeker.old) func) }
{
    let strings = thread.strings();
    let texts = thread.func_strings(func);
    if seeker.occurs_in_string(strings, texts.name)? {
        return Ok(true);
    }
    match texts.file {
        None => Ok(false),
        Some(file) => seeker.occurs_in_string(strings, file),
    }
}

/// Whether some term occurs in the name of a function's resource.
fn occurs_in_resource(seeker: &mut Seeker, thread: &Thread, func: u32) -> Result<bool, AllocError>
    requires func { func < length thread.now.shared.funcs + length thread.now.shared.resources }
    requires ready { IsReady thread.now.shared.strings seeker.old }
    ensures terms { sought seeker.new ≡ sought seeker.old }
    ensures ready { OnOk result (IsReady thread.now.shared.strings seeker.new) }
    ensures value { IfOk result (λ b. b ≡ has_in_resource thread.now.shared (sought seeker.old) func) }
{
    match thread.func_resource(func) {
        None => Ok(false),
        Some(resource) => {
            seeker.occurs_in_string(thread.strings(), thread.resource_string(resource))
        }
    }
}

/// Whether some term occurs in a text of a function. A collapsed resource has the name of its resource, and no file.
fn occurs_in_func(seeker: &mut Seeker, thread: &Thread, func: u32) -> Result<bool, AllocError>
    requires func { func < length thread.now.shared.funcs + length thread.now.shared.resources }
    requires ready { IsReady thread.now.shared.strings seeker.old }
    ensures terms { sought seeker.new ≡ sought seeker.old }
    ensures ready { OnOk result (IsReady thread.now.shared.strings seeker.new) }
    ensures value { IfOk result (λ b. b ≡ (has_in_own thread.now.shared (sought seeker.old) func
        || has_in_resource thread.now.shared (sought seeker.old) func)) }
{
    if func < thread.func_count() && occurs_in_own(seeker, thread, func)? {
        return Ok(true);
    }
    occurs_in_resource(seeker, thread, func)
}

/// The search of one term.
fn alone(alloc: Global, term: &Text) -> Result<TermList, NoMemory>
    ensures { IfOk result (λ list. list ≡ term.now ∷ []) }
{
    let mut list = TermList::new(alloc);
    list.push(term.copy(alloc)?)?;
    Ok(list)
}

/// Of each function, collapsed resources last, whether a term occurs in its name, in its file's or in its resource's,
/// whatever the case of ASCII letters. Each string is looked at once.
pub fn funcs_with(alloc: Global, thread: &Thread, term: &Text) -> Result<Vec<bool>, NoMemory>
    ensures count { IfOk result (λ v. length v.items ≡ length thread.now.shared.funcs + length thread.now.shared.resources) }
    ensures each { IfOk result (λ v. (f : ℕ) → f < length thread.now.shared.funcs + length thread.now.shared.resources
        → slice_get v.items f ≡ Some (occurs_in thread.now.shared term.now f)) }
{
    let mut seeker = Seeker::new(alloc, thread.strings(), &alone(alloc, term)?)?;
    let count = thread.func_count() + thread.resource_count();
    let mut met = Vec::with_capacity(alloc, count as usize)?;
    for func in 0..count {
        met.push(occurs_in_func(&mut seeker, thread, func)?)?;
    }
    Ok(met)
}
