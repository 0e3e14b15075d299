//! Libraries, and which one an address is in.
ghost use Rattle.std.specs.Prelude.{◌≡◌, true, ◌<◌, ◌≤◌, length, IfSome};
ghost use Rattle.prof_gecko_names.specs.Libraries.{library_of, has_address, lib_at};

use prof_io::Text;
use std::marker::Model;

/// A library: the addresses from its start on, and below its end.
#[derive(Drop)]
pub struct Lib {
    pub name: Text,
    pub start: u64,
    pub end: u64,
}

impl Model for Lib {
    ghost use Rattle.prof_gecko_names.specs.Libraries.{Lib as LibCells};

    ghost Value = { LibCells };

    ghost view = { λ l. record { name = l.name; start = l.start; end = l.end } };
}

/// Whether a library has an address.
fn has_address(lib: &Lib, address: u64) -> bool
    ensures value { result ≡ has_address address lib.now }
    ensures start { result ≡ true → lib.now.start ≤ address }
{
    lib.start <= address && address < lib.end
}

/// The first library that has an address.
#[tactic(auto, using(crate::proofs::FirstLibrary::missing))]
pub(crate) fn library_of(libs: &[Lib], address: u64) -> Option<usize>
    ensures value { result ≡ library_of libs.now address }
    ensures within { IfSome result (λ l. l < length libs.now) }
    ensures start { IfSome result (λ l. (lib_at libs.now l).start ≤ address) }
{
    for l in 0..libs.len() {
        let lib = &libs[l];
        if has_address(lib, address) {
            return Some(l);
        }
    }
    None
}
