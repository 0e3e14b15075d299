//! Laws of what is kept, the contract of a function that does nothing.
ghost use Rattle.std.specs.Prelude.{◌≡◌, ℕ, List, None};
ghost use Rattle.prof_gecko.specs.Gathered.{Entry, ProfileCells};
ghost use Rattle.prof_gecko.specs.Processes.{profile_broken, profile_of};
ghost use Rattle.prof_gecko_layout.specs.GeckoProfile.{profile_cells};
ghost use Rattle.prof_grammar.specs.Value.{Value};
ghost use Rattle.prof_processes.specs.Processes.{KeepEntries};

/// One row more than a limit shows that a list or a column is over it, and where a process breaks a rule, what the rule is
/// about plays no part. So of a Gecko profile the first check that fails is the same where no more is kept, and where none
/// does, what is kept stands for the same profile.
pub fn keeps_enough()
    ensures check { (v : Value) (kept : List Entry) → KeepEntries (profile_cells v).entries kept
        → profile_broken (record (profile_cells v) { entries = kept }) ≡ profile_broken (profile_cells v) }
    ensures whole { (v : Value) (kept : List Entry) → KeepEntries (profile_cells v).entries kept
        → profile_broken (profile_cells v) ≡ None
        → profile_of (record (profile_cells v) { entries = kept }) ≡ profile_of (profile_cells v) }
{}
