//! Laws of what texts stand for, the contract of a function that does nothing.
ghost use Rattle.std.specs.Prelude.{◌≡◌, ◌⊎◌, ℕ, List};
ghost use Rattle.prof_grammar.specs.Event.{Event};
ghost use Rattle.prof_grammar.specs.Reading.{IsReading, finished};
ghost use Rattle.prof_grammar.specs.declared.TheConstants.{LONGEST};
ghost use Rattle.prof_raw.specs.declared.rule.Broken.{Broken};
ghost use Rattle.prof_tables.specs.Profiles.{ProfileTables, IsProfile};
ghost use Rattle.prof_layout.specs.Profile as processed;
ghost use Rattle.prof_read.specs.declared.read.Form.{Form};
ghost use Rattle.prof_read.specs.Texts.{Stands, Breaks, IsOfForm};

/// A text that is accepted either is one profile of one form, which keeps what profiles keep, or fails one check first. What
/// stands for a processed profile by itself stands for it here.
pub fn one_profile()
    ensures profile { (text : List ℕ) (p q : ProfileTables) → Stands text p → Stands text q → p ≡ q }
    ensures check { (text : List ℕ) (b c : Broken) → Breaks text b → Breaks text c → b ≡ c }
    ensures form { (text : List ℕ) (f g : Form) → IsOfForm text f → IsOfForm text g → f ≡ g }
    ensures apart { (text : List ℕ) (p : ProfileTables) (b : Broken) → Stands text p → Breaks text b → ⊥ }
    ensures profiles { (text : List ℕ) (p : ProfileTables) → Stands text p → IsProfile p }
    ensures either { (text : List ℕ) (es : List Event) → IsReading LONGEST text es finished
        → ((p : ProfileTables) × Stands text p) ⊎ ((b : Broken) × Breaks text b) }
    ensures processed { (text : List ℕ) (p : ProfileTables) → processed.Stands text p → Stands text p }
    ensures processed_form { (text : List ℕ) (p : ProfileTables) → processed.Stands text p
        → IsOfForm text Form.Processed }
{}
