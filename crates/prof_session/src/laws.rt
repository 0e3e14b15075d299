//! Laws of sessions.
ghost use Rattle.std.specs.Prelude.{◌≡◌, ◌+◌, ◌<◌, ℕ, List, Option, Some, None, true, All};
ghost use Rattle.prof_io.specs.Named.{value_at};
ghost use Rattle.prof_address.specs.declared.kind.Form.TheVariants.{Second};
ghost use Rattle.prof_keep.specs.Saved.{IsSaved, saved_text};
ghost use Rattle.prof_request.specs.declared.request.Command.{Command};
ghost use Rattle.prof_request.specs.declared.request.Command.TheVariants.{LoadOn};
ghost use Rattle.prof_machine.specs.declared.refusal.Refusal.TheVariants.{Stale};
ghost use Rattle.prof_machine.specs.declared.refusal.Reply.TheVariants.{Done, Refused};
ghost use Rattle.prof_machine.specs.Known.{Known};
ghost use Rattle.prof_machine.specs.Session.{Session, is_change, at_of, changed};
ghost use Rattle.prof_machine.specs.Machine.{change, change_refusal, stays, step, view_refusal, restored, saved};
ghost use Rattle.prof_session.specs.Seated.{profile_named};

/// An accepted change that comes again at its old version is answered as before and changes nothing; with another accepted
/// change between it is stale. This function does nothing: its contract is the law.
pub fn repeats_act_once()
    ensures once { (p : Known) (s : Session) (kept : Option (List ℕ)) (c : Command) → is_change c ≡ true → at_of c ≡ s.version → change_refusal p s c ≡ None
        → (change p s kept c ≡ stays (Some (changed s c)) kept (Done (s.version + 1))) × (change p (changed s c) kept c ≡ stays (Some (changed s c)) kept (Done (s.version + 1))) }
    ensures stale { (p : Known) (s : Session) (kept : Option (List ℕ)) (c : Command) → at_of c + 1 < s.version → change p s kept c ≡ stays (Some s) kept (Refused (Stale s.version)) }
{}

/// A step depends on no more of the profiles than on the one that its own session or the request names. This function does
/// nothing: its contract is the law.
pub fn own_parts_suffice()
    ensures { (ps qs : List (List ℕ × Known)) (count : ℕ) (own : Option Session) (kept : Option (List ℕ)) (c : Command)
        → ((name : List ℕ) → profile_named own c ≡ Some name → value_at ps name ≡ value_at qs name) → step ps count own kept c ≡ step qs count own kept c }
{}

/// A load of what was saved gives the saved session back, with no last change. This function does nothing: its contract is
/// the law.
pub fn saved_is_loaded()
    ensures { (profiles : List (List ℕ × Known)) (count : ℕ) (p : Known) (s : Session)
        → value_at profiles s.profile ≡ Some p → count < 1000 → All (λ v. view_refusal p v ≡ None) s.views → IsSaved Second (saved p s)
        → step profiles count None (Some (saved_text Second (saved p s))) (LoadOn s.profile)
        ≡ stays (Some (restored s.profile (saved p s))) (Some (saved_text Second (saved p s))) (Done s.version) }
{}
