//! Written profiles are read back. Each law is the contract of a function that does nothing else.
#![tactic(auto)]

mod kept;

ghost use Rattle.std.specs.Prelude.{◌≡◌, ◌≤◌, ◌<◌, ◌^◌, ℕ, ℤ, pos, negsuc, List, length, map, Bool, if◌then◌else◌, Option, None, Some, IfSome};
ghost use Rattle.std.specs.Option.{option_map, option_map_or};
ghost use Rattle.prof_back.specs.Equal.{AreEqual, rows_with_texts};
ghost use Rattle.prof_back.specs.Gathered.{passed, column_with};
ghost use Rattle.prof_back.specs.Made.{made};
ghost use Rattle.prof_back.specs.Texts.{IsKept, IsThread};
ghost use Rattle.prof_back.specs.Writable.{IsWritable};
ghost use Rattle.prof_demo.specs.Generated.{generated};
ghost use Rattle.prof_grammar.specs.Accepted.{IsAccepted};
ghost use Rattle.prof_grammar.specs.Reading.{max_depth};
ghost use Rattle.prof_grammar.specs.Value.{Value, boolean, string, array};
ghost use Rattle.prof_grammar.specs.declared.TheConstants.{LONGEST};
ghost use Rattle.prof_layout.specs.Columns.{Cell, read_cell, column_of};
ghost use Rattle.prof_layout.specs.Lists.{texts_of};
ghost use Rattle.prof_layout.specs.Profile.{Stands, broken, categories_broken, category_names, default_category, profile_of};
ghost use Rattle.prof_layout.specs.Tables.{raw_own, raw_tables, strings_fault, weight_unit, weight_reading};
ghost use Rattle.prof_layout.specs.declared.reading.Reading.TheVariants as reading;
ghost use Rattle.prof_raw.specs.declared.limits.TheConstants.{MOST_CATEGORIES, MOST_STRINGS};
ghost use Rattle.prof_raw.specs.declared.raw.Unit.{Unit as WeightUnit};
ghost use Rattle.prof_tables.specs.Profiles.{ProfileTables};
ghost use Rattle.prof_tables.specs.Rows.{frames_of, markers_of, resources_of, shared_of, samples_of, stack_frames_of, unit_of};
ghost use Rattle.prof_tables.specs.Threads.{ThreadTables};
ghost use Rattle.prof_tables.specs.Ties.{InRange, IsShared, AreTied, AreOwn};
ghost use Rattle.prof_write.specs.Cells.{column, index, maybe_index, resource_index, time, maybe_time, weight, weight_type};
ghost use Rattle.prof_write.specs.Compact.{compact, values_of};
ghost use Rattle.prof_write.specs.Written.{profile_value, thread_value};

pub use kept::is_kept;
use prof_tables::Profile;

/// The text of a value is accepted as this value, where it is no longer than texts may be.
pub fn tells_value()
    ensures { (v : Value) → IsWritable v max_depth → length (compact v) ≤ LONGEST → IsAccepted (compact v) v }
{}

/// The text that is written of a profile is accepted as the value that is written of it, where it is no longer than texts
/// may be, and the profile has no more categories than a text may list.
pub fn accepts_written_profiles()
    ensures { (p : ProfileTables) → IsKept p → length p.categories ≤ MOST_CATEGORIES →
        length (compact (profile_value p)) ≤ LONGEST → IsAccepted (compact (profile_value p)) (profile_value p) }
{}

/// A written cell is read as the number that it is written of, or as null. -1 stands for no resource, 1 for true and 0 for
/// false, and weights are read in the unit that their type names.
pub fn reads_cells_back()
    ensures index { (n : ℕ) → n < 2 ^ 63 → read_cell reading.Index (index n) ≡ passed (Some (pos n)) }
    ensures phase { (n : ℕ) → n < 2 ^ 63 → read_cell reading.Phase (index n) ≡ passed (Some (pos n)) }
    ensures maybe_index { (o : Option ℕ) → IfSome o (λ n. n < 2 ^ 63) → read_cell reading.MaybeIndex (maybe_index o) ≡ passed (option_map pos o) }
    ensures resource { (o : Option ℕ) → IfSome o (λ n. n < 2 ^ 63) →
        read_cell reading.Index (resource_index o) ≡ passed (Some (option_map_or pos o (negsuc 0))) }
    ensures truth { (b : Bool) → read_cell reading.Truth (boolean b) ≡ passed (Some (if b then pos 1 else pos 0)) }
    ensures time { (z : ℤ) → InRange z → read_cell reading.Time (time z) ≡ passed (Some z) }
    ensures maybe_time { (o : Option ℤ) → IfSome o InRange → read_cell reading.MaybeTime (maybe_time o) ≡ passed o }
    ensures unit { (u : WeightUnit) → weight_unit (Some (string (weight_type u))) ≡ Some u }
    ensures weight { (u : WeightUnit) (z : ℤ) → InRange z → read_cell (weight_reading (Some u)) (weight u z) ≡ passed (Some z) }
{}

/// An array of cells that are read as numbers or null is a column of these, with no bad cell. A list of strings, no longer
/// than it may be, is read as these strings.
pub fn reads_columns_back()
    ensures cells { (read : Value → Cell) (needed : Bool) (vs : List Value) (cells : List (Option ℤ)) → map read vs ≡ map passed cells →
        column_of read needed (Some (array (values_of vs))) ≡ column_with cells }
    ensures texts { (texts : List (List ℕ)) → texts_of (Some (column string texts)) ≡ texts }
    ensures pass { (texts : List (List ℕ)) → length texts ≤ MOST_STRINGS → strings_fault (Some (column string texts)) ≡ None }
{}

/// The categories of a profile are read back with the default one, where a text may list so many.
pub fn reads_categories_back()
    ensures names { (p : ProfileTables) → p.default < length p.categories → category_names (profile_value p) ≡ p.categories }
    ensures default { (p : ProfileTables) → p.default < length p.categories → default_category (profile_value p) ≡ p.default }
    ensures pass { (p : ProfileTables) → length p.categories ≤ MOST_CATEGORIES → categories_broken (profile_value p) ≡ None }
{}

/// The samples of a thread are read back, with the unit of their weights and the thread's name.
pub fn reads_samples_back()
    ensures samples { (t : ThreadTables) → AreTied t.shared → AreOwn t → samples_of (raw_own (thread_value t)) ≡ t.samples }
    ensures unit { (t : ThreadTables) → unit_of (raw_own (thread_value t)).unit ≡ t.unit }
    ensures name { (t : ThreadTables) → (raw_own (thread_value t)).name ≡ t.name }
{}

/// The strings, the resources, the frames, and the frames of the stack rows of a thread are read back.
pub fn reads_frames_back()
    ensures strings { (t : ThreadTables) → (raw_tables None (thread_value t)).strings ≡ t.shared.strings }
    ensures resources { (t : ThreadTables) → AreTied t.shared → resources_of (raw_tables None (thread_value t)) ≡ t.shared.resources }
    ensures frames { (t : ThreadTables) → AreTied t.shared → t.shared.categories ≤ MOST_CATEGORIES →
        frames_of (raw_tables None (thread_value t)) ≡ t.shared.frames }
    ensures stack_frames { (t : ThreadTables) → IsShared t.shared → stack_frames_of (raw_tables None (thread_value t)) ≡ t.shared.stack_frames }
{}

/// The tables that threads may share are read back of a thread, where its categories are no more than a text may list.
pub fn reads_tables_back()
    ensures { (t : ThreadTables) → IsShared t.shared → t.shared.categories ≤ MOST_CATEGORIES →
        shared_of t.shared.categories t.shared.default (raw_tables None (thread_value t)) ≡ t.shared }
{}

/// The markers of a thread are read back, each row with its own texts.
pub fn reads_markers_back()
    ensures { (t : ThreadTables) → IsThread t →
        rows_with_texts (markers_of (raw_own (thread_value t))) ≡ rows_with_texts t.markers }
{}

/// The value that is written of a profile breaks no rule, where the profile has no more categories than a text may list.
pub fn breaks_nothing_written()
    ensures { (p : ProfileTables) → IsKept p → length p.categories ≤ MOST_CATEGORIES →
        broken (profile_value p) ≡ None }
{}

/// What is written of a profile stands for an equal profile, where its text is no longer than texts may be, and the profile has no
/// more categories than a text may list.
pub fn reads_written_profiles()
    ensures { (p : ProfileTables) → IsKept p → length p.categories ≤ MOST_CATEGORIES →
        length (compact (profile_value p)) ≤ LONGEST →
        (q : ProfileTables) × (Stands (compact (profile_value p)) q × AreEqual q p) }
{}

/// The same of a profile in memory.
pub fn reads_profile_back(profile: &Profile)
    ensures { length profile.now.categories ≤ MOST_CATEGORIES →
        length (compact (profile_value profile.now)) ≤ LONGEST →
        (q : ProfileTables) × (Stands (compact (profile_value profile.now)) q × AreEqual q profile.now) }
{
    is_kept(profile);
}

/// The text of the profile that a number makes is that of a value. It is accepted as this value, which breaks no rule, and so it
/// stands for a profile.
pub fn reads_made_profiles()
    ensures text { (n : ℕ) → compact (made n) ≡ generated n }
    ensures whole { (n : ℕ) → broken (made n) ≡ None }
    ensures stands { (n : ℕ) → Stands (generated n) (profile_of (made n)) }
{}
