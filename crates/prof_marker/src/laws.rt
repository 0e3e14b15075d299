//! What the pairs are, row by row. The function does nothing: its contract is the law.
ghost use Rattle.prof_marker.specs.ByRow.{PairByRow};

/// Each row makes its marker by itself: a start is closed by the first end behind it of its name that closes no later start,
/// and an end makes a marker only where no start of its name is open.
pub fn pair_by_row()
    ensures { PairByRow }
{}
