//! Requests of sessions that are there, but for what is kept.
ghost use Rattle.std.specs.Prelude.{◌≡◌, ◌≢◌, ◌<◌, ℕ, List, Option, length, get_or, true};
ghost use Rattle.prof_io.specs.Named.{place_of};
ghost use Rattle.prof_io.specs.Shelf.{Shelf};
ghost use Rattle.prof_machine.specs.Memory.{is_lean};
ghost use Rattle.prof_machine.specs.declared.refusal.Reply.{Reply};
ghost use Rattle.prof_session.specs.Seated.{Seated};
ghost use Rattle.prof_session_desk.specs.Desk.{Follows, Stays, desk_step, own_of, LaysAt, ReadsAt};

use crate::desk::Desk;
use prof_io::{Steps, find};
use prof_machine::{Refusal, Reply};
use prof_request::Command;
use std::alloc::Global;
use std::sync::ledger::Ledger;

impl Desk {
    /// The place of the profile of the session at a place.
    pub(crate) fn profile_at(&self, place: usize) -> usize
        requires { place < length self.now.seats }
        ensures within { result < length self.now.profiles }
        ensures known { (e : List ℕ × Seated) → e ≡ get_or self.now.seats place e → result ≡ place_of self.now.profiles e.1.session.profile }
    {
        find(&self.profiles, self.seats[place].1.profile())
    }

    /// Takes the session at a place away.
    pub(crate) fn close_at(&mut self, place: usize, name: &str) -> Reply
        requires place { place_of self.old.seats name.now ≡ place }
        requires within { place < length self.old.seats }
        ensures step { (kept : Option (List ℕ)) → Follows self.old self.new name.now (desk_step self.old name.now kept Command.Close) result
            × ((desk_step self.old name.now kept Command.Close).kept ≡ kept) }
        ensures layers { (reply : Reply) → LaysAt self.old self.new name.now Command.Close reply }
        ensures closed { result ≡ Reply.Closed }
    {
        self.seats.remove(place);
        self.names.remove(place);
        Reply::Closed
    }

    /// Answers a request of the session at a place, other than a Close and a Save.
    pub(crate) fn answer_at<L: Ledger>(
        &mut self,
        alloc: Global,
        place: usize,
        name: &str,
        command: &Command,
        reads: &mut Steps<L>,
    ) -> Reply
        requires place { place_of self.old.seats name.now ≡ place }
        requires within { place < length self.old.seats }
        requires open { command.now ≡ Command.Close → ⊥ }
        requires unsaved { command.now ≡ Command.Save → ⊥ }
        ensures step { result ≢ Reply.NoMemory → (kept : Option (List ℕ)) → Follows self.old self.new name.now (desk_step self.old name.now kept command.now) result
            × ((desk_step self.old name.now kept command.now).kept ≡ kept) }
        ensures starved { result ≡ Reply.NoMemory → (before : Option Shelf) → Stays self.old self.new name.now before before }
        ensures layers { LaysAt self.old self.new name.now command.now result }
        ensures reads { ReadsAt self.old name.now command.now reads.old reads.new }
        ensures lean { (kept : Option (List ℕ)) → is_lean command.now (own_of self.old name.now) (desk_step self.old name.now kept command.now) ≡ true → result ≢ Reply.NoMemory }
        ensures quiet { result ≢ Reply.Refused Refusal.KeeperFault }
    {
        let at_profile = self.profile_at(place);
        let known = &self.profiles[at_profile].1;
        let seat = &mut self.seats[place].1;
        seat.answer(alloc, known, command, reads)
    }
}
