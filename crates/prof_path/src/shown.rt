//! Which functions a filter shows.
ghost use Rattle.std.specs.Prelude.{◌≡◌, ◌<◌, ◌+◌, ◌∷◌, [], ◌&&◌, is_none, nat_eq, length};
ghost use Rattle.std.specs.List.{starts_with};
ghost use Rattle.prof_tables.specs.Threads.{resource_of, func_name};
ghost use Rattle.prof_path.specs.Shown.{shown};

use crate::transform::Implementation;
use prof_tables::Thread;

/// Whether a filter shows a function: `Combined` shows each, `Js` what is JavaScript or relevant for it, and `Cpp` what
/// is no JavaScript, but for names of addresses without a resource. Collapsed resources are shown by each.
pub fn visible(i: Implementation, thread: &Thread, func: u32) -> bool
    requires { func < length thread.now.shared.funcs + length thread.now.shared.resources }
    ensures { result ≡ shown thread.now.shared i func }
{
    if func >= thread.func_count() {
        return true;
    }
    match i {
        Implementation::Combined => true,
        Implementation::Js => thread.is_js(func) || thread.relevant_for_js(func),
        Implementation::Cpp => !thread.is_js(func) && !is_bare_address(thread, func),
    }
}

/// Whether a function has no resource and a name that begins as an address does.
fn is_bare_address(thread: &Thread, func: u32) -> bool
    requires { func < length thread.now.shared.funcs }
    ensures { result ≡ (is_none (resource_of thread.now.shared func) && starts_with nat_eq (func_name thread.now.shared func) (48 ∷ 120 ∷ [])) }
{
    thread.func_resource(func).is_none() && thread.func_name(func).as_bytes().starts_with(b"0x")
}
