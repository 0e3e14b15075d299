//! Laws of requests that were answered.
ghost use Rattle.std.specs.Prelude.{◌≡◌, ◌+◌, ◌<◌, ℕ, List, Option, Some, None, true, false, length, All};
ghost use Rattle.std.specs.Str.{bytes_eq};
ghost use Rattle.prof_io.specs.Named.{value_at};
ghost use Rattle.prof_io.specs.Shelf.{Shelf, file_at};
ghost use Rattle.prof_address.specs.declared.kind.Form.TheVariants.{Second};
ghost use Rattle.prof_keep.specs.Saved.{IsSaved};
ghost use Rattle.prof_request.specs.declared.request.Command.TheVariants.{LoadOn, Save};
ghost use Rattle.prof_request.specs.declared.request.Request.{Request};
ghost use Rattle.prof_machine.specs.declared.refusal.Refusal.TheVariants.{Stale};
ghost use Rattle.prof_machine.specs.declared.refusal.Reply.{Reply};
ghost use Rattle.prof_machine.specs.declared.refusal.Reply.TheVariants.{Done, Refused};
ghost use Rattle.prof_machine.specs.Known.{Known};
ghost use Rattle.prof_machine.specs.Session.{Session, is_change, at_of};
ghost use Rattle.prof_machine.specs.Machine.{restored, saved, view_refusal};
ghost use Rattle.prof_session_desk.specs.Desk.{AreAlike, DeskLists, IsStep, own_of};

/// Desks that a request can't tell apart answer it alike, where the same text is kept under its name. This function does
/// nothing: its contract is the law.
pub fn alike_desks_answer_alike()
    ensures { (old new other next : DeskLists) (before now first then : Option Shelf) (got gave : Option (List ℕ)) (request : Request) (reply answer : Reply)
        → (a : IsStep old new before now got request reply) → (b : IsStep other next first then gave request answer)
        → AreAlike old other request.session request.command → a.kept ≡ b.kept → (reply ≡ answer) × (own_of new request.session ≡ own_of next request.session) }
{}

/// A change that was answered Done and comes again, where its session is as it was then, is answered Done with the same
/// version and changes nothing, and where a later change was accepted it is stale. This function does nothing: its contract
/// is the law.
pub fn repeat_is_answered_again()
    ensures once { (old new later last : DeskLists) (before now first then : Option Shelf) (got gave : Option (List ℕ)) (request : Request) (version : ℕ) (reply : Reply)
        → is_change request.command ≡ true → IsStep old new before now got request (Done version)
        → own_of later request.session ≡ own_of new request.session → IsStep later last first then gave request reply
        → (reply ≡ Done version) × (own_of last request.session ≡ own_of later request.session) }
    ensures stale { (old new : DeskLists) (before now : Option Shelf) (got : Option (List ℕ)) (request : Request) (reply : Reply) (s : Session)
        → is_change request.command ≡ true → own_of old request.session ≡ Some s → at_of request.command + 1 < s.version → IsStep old new before now got request reply
        → (reply ≡ Refused (Stale s.version)) × (own_of new request.session ≡ Some s) }
{}

/// A session that was saved is loaded again under its name, on a profile that is the same, whatever came between that kept
/// its text. It has no last change then. This function does nothing: its contract is the law.
pub fn saved_is_loaded_again()
    ensures loaded { (old new later last : DeskLists) (before kept texts : Shelf) (then : Option Shelf) (got gave : Option (List ℕ)) (save load : Request) (reply : Reply) (profile : List ℕ) (s : Session) (p : Known) (version : ℕ)
        → save.command ≡ Save → own_of old save.session ≡ Some s → value_at old.profiles s.profile ≡ Some p → All (λ v. view_refusal p v ≡ None) s.views → IsSaved Second (saved p s)
        → IsStep old new (Some before) (Some kept) got save (Done version)
        → file_at texts save.session ≡ file_at kept save.session
        → load.session ≡ save.session → load.command ≡ LoadOn profile → own_of later load.session ≡ None → length later.seats < 1000 → value_at later.profiles profile ≡ Some p
        → IsStep later last (Some texts) then gave load reply
        → (reply ≡ Done version) × (own_of last load.session ≡ Some (restored profile (saved p s))) }
    ensures kept { (old new : DeskLists) (before now : Shelf) (got : Option (List ℕ)) (request : Request) (reply : Reply) (other : List ℕ)
        → IsStep old new (Some before) (Some now) got request reply → bytes_eq request.session other ≡ false → file_at now other ≡ file_at before other }
{}
