// The connections of a hall in memory.
ghost use Rattle.std.specs.Prelude.{◌≡◌, unwrap_or};
ghost use Rattle.std.specs.Option.{option_map};
ghost use Rattle.prof_memory.specs.declared.seats.Seat.{Seat};

/// The connection that is served now: what comes on it, and the hall's count of faults when it was
/// given and, once there was a further `next`, at the beginning of that.
#[derive(Drop)]
pub struct Seat {
    pub came: Vec<u8>,
    pub first: u64,
    pub second: Option<u64>,
}

/// A connection that was served before, and the range of the hall's bytes that was written to it.
#[derive(Drop)]
pub struct Ended {
    pub came: Vec<u8>,
    pub start: usize,
    pub end: usize,
    pub first: u64,
    pub second: u64,
}

/// Notes a count of faults at the beginning of the first `next` after that which gave the seat.
pub fn close(present: &mut Option<Seat>, before: u64)
    ensures { present.new ≡ option_map (λ (seat : Seat). record seat { second = Some (unwrap_or seat.second before) }) present.old }
{
    if let Some(seat) = present {
        seat.second = Some(seat.second.unwrap_or(before));
    }
}
