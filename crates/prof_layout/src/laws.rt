//! Laws of these definitions, each the contract of a function that does nothing.
ghost use Rattle.std.specs.Prelude.{◌≡◌, ℕ, suc, take, None, IfSome, ℤ, ◌<◌, ◌≤◌, ◌^◌, List, length, Bool, true, Option, Some, unsigned_abs, ◌⊎◌, ◌↔◌};
ghost use Rattle.prof_time.specs.Numeral.{Numeral, IsNumber};
ghost use Rattle.prof_time.specs.Scaled.{IsScaled, IsExact};
ghost use Rattle.prof_raw.specs.Cells.{Cells};
ghost use Rattle.prof_raw.specs.Rules.{index_rule, minus_or_index_rule, prefix_rule, phase_rule};
ghost use Rattle.prof_grammar.specs.Value.{Value};
ghost use Rattle.prof_grammar.specs.Reading.{IsReading, finished};
ghost use Rattle.prof_grammar.specs.declared.TheConstants.{LONGEST};
ghost use Rattle.prof_grammar.specs.Event.{Event};
ghost use Rattle.prof_tables.specs.Profiles.{ProfileTables, IsProfile};
ghost use Rattle.prof_raw.specs.declared.rule.Broken.{Broken};
ghost use Rattle.prof_raw.specs.declared.rule.Table.{Table};
ghost use Rattle.prof_raw.specs.declared.rule.Column.{Column};
ghost use Rattle.prof_layout.specs.Profile.{Stands, Breaks};
ghost use Rattle.prof_tables.specs.Threads.{SharedTables};
ghost use Rattle.prof_raw.specs.Checks.{first_column, needed_column, optional_column, shared_broken, own_broken, thread_broken};
ghost use Rattle.prof_tables.specs.Rows.{shared_of, thread_of};
ghost use Rattle.prof_layout.specs.Lists.{list_fault};
ghost use Rattle.prof_layout.specs.Tables.{raw_shared, raw_tables, raw_own, raw_thread};
ghost use Rattle.prof_layout.specs.Kept.{kept_shared, kept_own, kept_thread};
ghost use Rattle.prof_layout.specs.Numbers.{scaled_of, whole_of};
ghost use Rattle.prof_layout.specs.Columns.{Cell, clamped, capped, column_of, IsGathered};
ghost use Rattle.prof_raw.specs.declared.limits.TheConstants.{MOST_STRINGS};

/// The scaled value of a number's text is the nearest whole number, and no other is.
pub fn one_scaled()
    ensures is { (text : List ℕ) (m : Numeral) (d : ℕ) → IsNumber text m → IsScaled text d (scaled_of text d) }
    ensures one { (text : List ℕ) (d : ℕ) (z : ℤ) → IsScaled text d z → z ≡ scaled_of text d }
{}

/// A number's text has a whole value exactly where the whole number is the text's value.
pub fn one_whole()
    ensures { (text : List ℕ) (m : Numeral) (z : ℤ) → IsNumber text m → (whole_of text ≡ Some z) ↔ IsExact text z }
{}

/// A number that is clamped to 64 bits breaks what the number itself breaks.
pub fn clamps_soundly()
    ensures index { (limit : ℕ) (n : ℤ) → limit < 2 ^ 63 → index_rule limit (clamped n) ≡ index_rule limit n }
    ensures minus { (limit : ℕ) (n : ℤ) → limit < 2 ^ 63 → minus_or_index_rule limit (clamped n) ≡ minus_or_index_rule limit n }
    ensures prefix { (row : ℕ) (n : ℤ) → row < 2 ^ 63 → prefix_rule row (clamped n) ≡ prefix_rule row n }
    ensures phase { (n : ℤ) → phase_rule (clamped n) ≡ phase_rule n }
    ensures same { (n : ℤ) → unsigned_abs n < 2 ^ 63 → clamped n ≡ n }
{}

/// A column of which one cell more than the most rows is kept breaks what the whole column breaks: as a first column,
/// and as another beside a first one of at most that many rows. One of at most that many rows is kept whole.
pub fn caps_soundly()
    ensures gathered { (read : Value → Cell) (needed : Bool) (member : Option Value) → IsGathered (column_of read needed member) }
    ensures first { (thread : Option ℕ) (t : Table) (col : Column) (most : ℕ) (kind : _) (c : Cells) → IsGathered c → first_column thread t col most kind (capped most c) ≡ first_column thread t col most kind c }
    ensures needed { (thread : Option ℕ) (t : Table) (col : Column) (most rows : ℕ) (kind : _) (c : Cells) → rows ≤ most → IsGathered c → needed_column thread t col rows kind (capped most c) ≡ needed_column thread t col rows kind c }
    ensures optional { (thread : Option ℕ) (t : Table) (col : Column) (most rows : ℕ) (kind : _) (c : Cells) → rows ≤ most → IsGathered c → optional_column thread t col rows kind (capped most c) ≡ optional_column thread t col rows kind c }
    ensures same { (most : ℕ) (c : Cells) → IsGathered c → length c.cells ≤ most → capped most c ≡ c }
{}

/// A text that is accepted either is one profile, which keeps what profiles keep, or fails one check first.
pub fn one_profile()
    ensures profile { (text : List ℕ) (p q : ProfileTables) → Stands text p → Stands text q → p ≡ q }
    ensures check { (text : List ℕ) (b c : Broken) → Breaks text b → Breaks text c → b ≡ c }
    ensures apart { (text : List ℕ) (p : ProfileTables) (b : Broken) → Stands text p → Breaks text b → ⊥ }
    ensures profiles { (text : List ℕ) (p : ProfileTables) → Stands text p → IsProfile p }
    ensures either { (text : List ℕ) (es : List Event) → IsReading LONGEST text es finished → ((p : ProfileTables) × Stands text p) ⊎ ((b : Broken) × Breaks text b) }
{}

/// One row more than a limit shows that a list or a column is over it. So where no more is kept, the first check that
/// fails is the same, and where none does, what is kept stands for the same.
pub fn keeps_enough()
    ensures list { (fits : Value → Bool) (most : ℕ) (vs : List Value) → list_fault fits most (take (suc most) vs) ≡ list_fault fits most vs }
    ensures shared { (thread : Option ℕ) (categories : ℕ) (v : Value) → shared_broken thread categories (kept_shared (raw_shared v)) ≡ shared_broken thread categories (raw_shared v) }
    ensures shared_whole { (thread : Option ℕ) (categories : ℕ) (v : Value) → shared_broken thread categories (raw_shared v) ≡ None → kept_shared (raw_shared v) ≡ raw_shared v }
    ensures own { (thread : Option ℕ) (strings stacks : ℕ) (v : Value) → own_broken thread strings stacks (kept_own v) ≡ own_broken thread strings stacks (raw_own v) }
    ensures own_whole { (thread : Option ℕ) (strings stacks : ℕ) (shared : SharedTables) (v : Value) → own_broken thread strings stacks (raw_own v) ≡ None → thread_of shared (kept_own v) ≡ thread_of shared (raw_own v) }
    ensures thread { (number categories : ℕ) (common : Option (List (List ℕ))) (v : Value) → IfSome common (λ strings. length strings ≤ MOST_STRINGS) → thread_broken number categories (kept_thread common v) ≡ thread_broken number categories (raw_thread common v) }
    ensures thread_whole { (number categories default : ℕ) (common : Option (List (List ℕ))) (v : Value) → IfSome common (λ strings. length strings ≤ MOST_STRINGS) → thread_broken number categories (raw_thread common v) ≡ None → thread_of (shared_of categories default (kept_shared (raw_tables common v))) (kept_own v) ≡ thread_of (shared_of categories default (raw_tables common v)) (raw_own v) }
{}
