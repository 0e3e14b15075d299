//! The connections of a hall, served one after another.
ghost use Rattle.std.specs.Prelude.{◌≡◌, ◌⊎◌, ◌≤◌, ℕ, Bool, List, [], IfSome, true, false};
ghost use Rattle.prof_io.specs.Causes.{Rose};
ghost use Rattle.prof_machine.specs.Play.{Held};
ghost use Rattle.prof_script.specs.Playing.{IsHeld, stage};
ghost use Rattle.prof_script.specs.Readings.{AreLaid, Laid};
ghost use Rattle.prof_serving.specs.Halls.{AreGiven, ServesAll};

use prof_io::{Failed, Hall, Keeper, Steps};
use prof_serve::serve_connection;
use prof_session_desk::Desk;
use prof_wire::{Routes, Wire};
use std::alloc::Global;
use std::sync::ledger::Ledger;

/// How serving ended.
#[derive(Clone, Copy, Debug)]
pub struct Served {
    /// How many connections were served.
    pub count: u32,
    /// The hall failed where it was asked for the next one.
    pub failed: bool,
}

/// Serves the connections that come to a hall, at most so many. A connection that the hall fails doesn't end it.
pub fn serve_hall<H: Hall, K: Keeper, L: Ledger>(
    alloc: Global,
    desk: &mut Desk,
    wire: &mut Wire,
    routes: &Routes,
    hall: &mut H,
    keeper: &mut K,
    reads: &mut Steps<L>,
    most: u32,
) -> Served
    ensures serves { (told : Bool) (held : Held) (laid : List (List ℕ × Laid)) →
        IsHeld desk.old.profiles told desk.old (K.texts keeper.old) held → AreLaid desk.old laid →
        ServesAll desk.old.profiles told held laid (stage K.Counted K.Keeper.own H.Counted desk.old keeper.old hall.old reads.old)
        (stage K.Counted K.Keeper.own H.Counted desk.new keeper.new hall.new reads.new) result.count }
    ensures most { result.count ≤ most }
    ensures over { (result.failed ≡ false) → (result.count ≡ most) ⊎ IfSome (H.place hall.new).coming (λ coming. coming ≡ []) }
    ensures failed { (result.failed ≡ true) → Rose (H.place hall.new).called_at (H.place hall.new).returned_at }
    ensures called { (result.failed ≡ true) → H.faults hall.old ≤ (H.place hall.new).called_at }
    ensures given { AreGiven (H.place hall.old).coming (H.place hall.new).coming result.count }
    ensures higher { H.faults hall.old ≤ H.faults hall.new }
    ensures steady { H.sure hall.old → (result.failed ≡ false) × H.sure hall.new }
    ensures profiles { desk.new.profiles ≡ desk.old.profiles }
    ensures began { K.called_at keeper.new ≡ K.called_at keeper.old }
    ensures begun { K.returned_at keeper.new ≡ K.returned_at keeper.old }
    ensures later { K.faults keeper.old ≤ K.faults keeper.new }
    ensures sure { K.sure keeper.old → K.sure keeper.new }
{
    let mut count = 0;
    'connections: for _turn in 0..most {
        match hall.next() {
            Ok(true) => {}
            Ok(false) => {
                return Served {
                    count,
                    failed: false,
                };
            }
            Err(_) => {
                return Served {
                    count,
                    failed: true,
                };
            }
        }
        let _end = serve_connection(alloc, desk, wire, routes, hall, keeper, reads);
        count += 1;
    }
    Served {
        count,
        failed: false,
    }
}
