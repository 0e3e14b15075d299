//! Requests that make a session, and those that ask the keeper.
ghost use Rattle.std.specs.Prelude.{◌≡◌, ◌≢◌, ◌∷◌, ◌++◌, ◌<◌, ◌≤◌, [], ℕ, List, Option, length, get_or, Some, None, true, false, IfOk, IfErr, OnOk, OnErr};
ghost use Rattle.prof_io.specs.Causes.{Rose};
ghost use Rattle.prof_io.specs.Named.{value_at, place_of};
ghost use Rattle.prof_machine.specs.Known.{Known, thread_of};
ghost use Rattle.prof_machine.specs.Session.{present, opened};
ghost use Rattle.prof_machine.specs.Machine.{profile_of, open_refusal, load_refusal, text_refusal, asks_keeper};
ghost use Rattle.prof_machine.specs.Memory.{is_lean};
ghost use Rattle.prof_session.specs.Seated.{Seated, bare};
ghost use Rattle.prof_session_desk.specs.Desk.{Follows, IsSeated, IsText, Sets, desk_step, own_of};

use crate::desk::{Desk, copied};
use prof_io::{KeepRefusal, Keeper, NoMemory, Text, find};
use prof_machine::{Refusal, Reply};
use prof_request::Command;
use prof_session::{Seat, Unread};
use std::alloc::Global;

/// The most sessions of a desk.
const MOST_SESSIONS: usize = 1000;

impl Desk {
    /// The place of the profile on which a session can be opened, or why it can't.
    fn opening(&self, profile: &str, thread: u32) -> Result<usize, Refusal>
        ensures refused { IfErr result (λ refusal. open_refusal (value_at self.now.profiles profile.now) thread (length self.now.seats) ≡ Some refusal) }
        ensures none { OnOk result (open_refusal (value_at self.now.profiles profile.now) thread (length self.now.seats) ≡ None) }
        ensures place { IfOk result (λ k. (k ≡ place_of self.now.profiles profile.now) × (k < length self.now.profiles)) }
        ensures thread { IfOk result (λ k. (e : List ℕ × Known) → e ≡ get_or self.now.profiles k e → thread < length e.1.threads) }
        ensures quiet { IfErr result (λ refusal. refusal ≢ Refusal.KeeperFault) }
    {
        let at = find(&self.profiles, profile);
        if at >= self.profiles.len() {
            return Err(Refusal::NoProfile);
        }
        let threads = self.profiles[at].1.count();
        if thread >= threads {
            return Err(Refusal::NoThread { threads });
        }
        if self.seats.len() >= MOST_SESSIONS {
            return Err(Refusal::TooManySessions);
        }
        Ok(at)
    }

    /// Adds a session under a name that none has.
    fn add_seat(&mut self, alloc: Global, name: &str, seat: Seat) -> Result<(), NoMemory>
        requires lacks { length self.old.seats ≤ place_of self.old.seats name.now }
        requires seated { IsSeated self.old.profiles seat }
        ensures ok { OnOk result (self.new ≡ record self.old { seats = self.old.seats ++ (name.now, seat) ∷ [] }) }
        ensures err { OnErr result (self.new ≡ self.old) }
    {
        let key = copied(alloc, name)?;
        self.seats.reserve(1)?;
        self.names.push(alloc, name)?;
        self.seats.push_reserved((key, seat));
        Ok(())
    }

    /// Opens a session of that name.
    pub(crate) fn open(&mut self, alloc: Global, name: &str, profile: &str, thread: u32) -> Reply
        requires lacks { length self.old.seats ≤ place_of self.old.seats name.now }
        ensures step { result ≢ Reply.NoMemory → (kept : Option (List ℕ)) → Follows self.old self.new name.now (desk_step self.old name.now kept (Command.OpenOn profile.now thread)) result }
        ensures starved { result ≡ Reply.NoMemory → self.new ≡ self.old }
        ensures layers { (new : Seated) → value_at self.new.seats name.now ≡ Some new → new.layers ≡ bare (thread_of (profile_of self.old.profiles new.session) (present new.session)) }
        ensures lean { result ≡ Reply.NoMemory → open_refusal (value_at self.old.profiles profile.now) thread (length self.old.seats) ≡ None }
        ensures quiet { result ≢ Reply.Refused Refusal.KeeperFault }
    {
        let at = match self.opening(profile, thread) {
            Ok(at) => at,
            Err(refusal) => return Reply::Refused(refusal),
        };
        let Ok(seat) = Seat::open(alloc, profile, &self.profiles[at].1, thread) else {
            return Reply::NoMemory;
        };
        match self.add_seat(alloc, name, seat) {
            Ok(()) => Reply::Done { version: 0 },
            Err(_) => Reply::NoMemory,
        }
    }
}

impl Desk {
    /// The place of the profile on which a session can be loaded, or why it can't.
    fn loading(&self, profile: &str) -> Result<usize, Refusal>
        ensures refused { IfErr result (λ refusal. (kept : Option (List ℕ)) → load_refusal (value_at self.now.profiles profile.now) (length self.now.seats) kept ≡ Some refusal) }
        ensures asks { OnOk result (asks_keeper self.now.profiles (length self.now.seats) None (Command.LoadOn profile.now) ≡ true) }
        ensures unasked { OnErr result (asks_keeper self.now.profiles (length self.now.seats) None (Command.LoadOn profile.now) ≡ false) }
        ensures text { IfOk result (λ k. (e : List ℕ × Known) (kept : Option (List ℕ)) → e ≡ get_or self.now.profiles k e
            → load_refusal (value_at self.now.profiles profile.now) (length self.now.seats) kept ≡ text_refusal e.1 kept) }
        ensures place { IfOk result (λ k. (k ≡ place_of self.now.profiles profile.now) × (k < length self.now.profiles)) }
        ensures quiet { IfErr result (λ refusal. refusal ≢ Refusal.KeeperFault) }
    {
        let at = find(&self.profiles, profile);
        if at >= self.profiles.len() {
            return Err(Refusal::NoProfile);
        }
        if self.seats.len() >= MOST_SESSIONS {
            return Err(Refusal::TooManySessions);
        }
        Ok(at)
    }

    /// Makes a session of a kept text, on the profile at a place.
    fn load_text(
        &mut self,
        alloc: Global,
        name: &str,
        profile: &str,
        at: usize,
        kept: Option<Text>,
    ) -> Reply
        requires lacks { length self.old.seats ≤ place_of self.old.seats name.now }
        requires profile { at ≡ place_of self.old.profiles profile.now }
        requires within { at < length self.old.profiles }
        requires text { (e : List ℕ × Known) (kept : Option (List ℕ)) → e ≡ get_or self.old.profiles at e
            → load_refusal (value_at self.old.profiles profile.now) (length self.old.seats) kept ≡ text_refusal e.1 kept }
        ensures step { result ≢ Reply.NoMemory → Follows self.old self.new name.now (desk_step self.old name.now kept (Command.LoadOn profile.now)) result }
        ensures starved { result ≡ Reply.NoMemory → self.new ≡ self.old }
        ensures layers { (new : Seated) → value_at self.new.seats name.now ≡ Some new → new.layers ≡ bare (thread_of (profile_of self.old.profiles new.session) (present new.session)) }
        ensures quiet { result ≢ Reply.Refused Refusal.KeeperFault }
    {
        let known = &self.profiles[at].1;
        let Some(text) = kept else {
            return Reply::Refused(Refusal::NotSaved);
        };
        let seat = match Seat::read(alloc, profile, known, text.as_str()) {
            Ok(seat) => seat,
            Err(Unread::Refused(refusal)) => return Reply::Refused(refusal),
            Err(Unread::NoMemory) => return Reply::NoMemory,
        };
        let version = seat.version();
        match self.add_seat(alloc, name, seat) {
            Ok(()) => Reply::Done { version },
            Err(_) => Reply::NoMemory,
        }
    }

    /// Makes a session of the text that is kept under its name.
    pub(crate) fn load<K: Keeper>(
        &mut self,
        alloc: Global,
        name: &str,
        profile: &str,
        keeper: &mut K,
    ) -> Reply
        requires lacks { length self.old.seats ≤ place_of self.old.seats name.now }
        ensures step { result ≢ Reply.NoMemory → result ≢ Reply.Refused Refusal.KeeperFault → (kept : Option (List ℕ)) × IsText (K.texts keeper.old) name.now kept
            × (asks_keeper self.old.profiles (length self.old.seats) None (Command.LoadOn profile.now) ≡ true → kept ≡ K.got keeper.new)
            × Follows self.old self.new name.now (desk_step self.old name.now kept (Command.LoadOn profile.now)) result }
        ensures still { result ≡ Reply.NoMemory → self.new ≡ self.old }
        ensures failed { result ≡ Reply.Refused Refusal.KeeperFault → (self.new ≡ self.old)
            × (asks_keeper self.old.profiles (length self.old.seats) None (Command.LoadOn profile.now) ≡ true) × Rose (K.faults keeper.old) (K.faults keeper.new) }
        ensures layers { (new : Seated) → value_at self.new.seats name.now ≡ Some new → new.layers ≡ bare (thread_of (profile_of self.old.profiles new.session) (present new.session)) }
        ensures lean { (kept : Option (List ℕ)) → is_lean (Command.LoadOn profile.now) None (desk_step self.old name.now kept (Command.LoadOn profile.now)) ≡ true → result ≢ Reply.NoMemory }
        ensures texts { K.texts keeper.new ≡ K.texts keeper.old }
        ensures called { K.called_at keeper.new ≡ K.called_at keeper.old }
        ensures returned { K.returned_at keeper.new ≡ K.returned_at keeper.old }
        ensures later { K.faults keeper.old ≤ K.faults keeper.new }
        ensures quiet { result ≢ Reply.Refused Refusal.KeeperFault → K.faults keeper.new ≡ K.faults keeper.old }
        ensures sure { K.sure keeper.old → (result ≢ Reply.Refused Refusal.KeeperFault) × K.sure keeper.new }
    {
        let at = match self.loading(profile) {
            Ok(at) => at,
            Err(refusal) => return Reply::Refused(refusal),
        };
        match keeper.get(alloc, name) {
            Ok(text) => self.load_text(alloc, name, profile, at, text),
            Err(KeepRefusal::Failed) => Reply::Refused(Refusal::KeeperFault),
            Err(KeepRefusal::NoMemory) => Reply::NoMemory,
        }
    }

    /// Saves the session at a place.
    pub(crate) fn save_at<K: Keeper>(
        &self,
        alloc: Global,
        place: usize,
        name: &str,
        keeper: &mut K,
    ) -> Reply
        requires place { place_of self.now.seats name.now ≡ place }
        requires within { place < length self.now.seats }
        ensures step { result ≢ Reply.NoMemory → result ≢ Reply.Refused Refusal.KeeperFault → (kept : Option (List ℕ)) →
            Follows self.now self.now name.now (desk_step self.now name.now kept Command.Save) result
            × Sets (K.texts keeper.old) (K.texts keeper.new) name.now (desk_step self.now name.now kept Command.Save).kept }
        ensures starved { result ≡ Reply.NoMemory → K.texts keeper.new ≡ K.texts keeper.old }
        ensures failed { result ≡ Reply.Refused Refusal.KeeperFault → (K.texts keeper.new ≡ K.texts keeper.old) × Rose (K.faults keeper.old) (K.faults keeper.new) }
        ensures got { K.got keeper.new ≡ K.got keeper.old }
        ensures called { K.called_at keeper.new ≡ K.called_at keeper.old }
        ensures returned { K.returned_at keeper.new ≡ K.returned_at keeper.old }
        ensures later { K.faults keeper.old ≤ K.faults keeper.new }
        ensures quiet { result ≢ Reply.Refused Refusal.KeeperFault → K.faults keeper.new ≡ K.faults keeper.old }
        ensures sure { K.sure keeper.old → (result ≢ Reply.Refused Refusal.KeeperFault) × K.sure keeper.new }
    {
        let at_profile = self.profile_at(place);
        let known = &self.profiles[at_profile].1;
        let seat = &self.seats[place].1;
        let Ok(text) = seat.saved(alloc, known) else {
            return Reply::NoMemory;
        };
        match keeper.put(alloc, name, text.as_str()) {
            Ok(()) => Reply::Done {
                version: seat.version(),
            },
            Err(KeepRefusal::Failed) => Reply::Refused(Refusal::KeeperFault),
            Err(KeepRefusal::NoMemory) => Reply::NoMemory,
        }
    }
}
