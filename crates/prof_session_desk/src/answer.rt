//! Requests, answered as the machine answers them.
ghost use Rattle.std.specs.Prelude.{◌≡◌, ◌≢◌, ◌<◌, ◌≤◌, ℕ, List, Option, length, true};
ghost use Rattle.prof_io.specs.Causes.{Rose};
ghost use Rattle.prof_io.specs.Named.{place_of};
ghost use Rattle.prof_machine.specs.Machine.{asks_keeper};
ghost use Rattle.prof_machine.specs.Memory.{is_lean};
ghost use Rattle.prof_session_desk.specs.Desk.{IsNamed, IsStep, Stays, LaysAt, ReadsAt, desk_step, own_of, shown_thread};

use crate::desk::Desk;
use prof_io::{Keeper, Steps};
use prof_machine::{Refusal, Reply};
use prof_request::{Command, Request};
use std::alloc::Global;
use std::sync::ledger::Ledger;

impl Desk {
    /// Answers a request of a session that isn't there.
    fn answer_lacking<K: Keeper>(
        &mut self,
        alloc: Global,
        request: &Request,
        keeper: &mut K,
    ) -> Reply
        requires lacks { length self.old.seats ≤ place_of self.old.seats request.now.session }
        ensures step { result ≢ Reply.NoMemory → result ≢ Reply.Refused Refusal.KeeperFault →
            IsStep self.old self.new (K.texts keeper.old) (K.texts keeper.new) (K.got keeper.new) request.now result }
        ensures starved { result ≡ Reply.NoMemory → Stays self.old self.new request.now.session (K.texts keeper.old) (K.texts keeper.new) }
        ensures failed { result ≡ Reply.Refused Refusal.KeeperFault → Stays self.old self.new request.now.session (K.texts keeper.old) (K.texts keeper.new)
            × (asks_keeper self.old.profiles (length self.old.seats) (own_of self.old request.now.session) request.now.command ≡ true) × Rose (K.faults keeper.old) (K.faults keeper.new) }
        ensures lean { (kept : Option (List ℕ)) → is_lean request.now.command (own_of self.old request.now.session) (desk_step self.old request.now.session kept request.now.command) ≡ true → result ≢ Reply.NoMemory }
        ensures layers { LaysAt self.old self.new request.now.session request.now.command result }
        ensures called { K.called_at keeper.new ≡ K.called_at keeper.old }
        ensures returned { K.returned_at keeper.new ≡ K.returned_at keeper.old }
        ensures later { K.faults keeper.old ≤ K.faults keeper.new }
        ensures quiet { result ≢ Reply.Refused Refusal.KeeperFault → K.faults keeper.new ≡ K.faults keeper.old }
        ensures sure { K.sure keeper.old → (result ≢ Reply.Refused Refusal.KeeperFault) × K.sure keeper.new }
    {
        let name = request.session.as_str();
        match &request.command {
            Command::OpenOn { profile, thread } => {
                self.open(alloc, name, profile.as_str(), *thread)
            }
            Command::LoadOn { profile } => self.load(alloc, name, profile.as_str(), keeper),
            _ => Reply::Refused(Refusal::NoSession),
        }
    }

    /// Answers a request of the session at a place.
    fn answer_there<K: Keeper, L: Ledger>(
        &mut self,
        alloc: Global,
        place: usize,
        request: &Request,
        keeper: &mut K,
        reads: &mut Steps<L>,
    ) -> Reply
        requires place { place_of self.old.seats request.now.session ≡ place }
        requires within { place < length self.old.seats }
        ensures step { result ≢ Reply.NoMemory → result ≢ Reply.Refused Refusal.KeeperFault →
            IsStep self.old self.new (K.texts keeper.old) (K.texts keeper.new) (K.got keeper.new) request.now result }
        ensures starved { result ≡ Reply.NoMemory → Stays self.old self.new request.now.session (K.texts keeper.old) (K.texts keeper.new) }
        ensures failed { result ≡ Reply.Refused Refusal.KeeperFault → Stays self.old self.new request.now.session (K.texts keeper.old) (K.texts keeper.new)
            × (asks_keeper self.old.profiles (length self.old.seats) (own_of self.old request.now.session) request.now.command ≡ true) × Rose (K.faults keeper.old) (K.faults keeper.new) }
        ensures lean { (kept : Option (List ℕ)) → is_lean request.now.command (own_of self.old request.now.session) (desk_step self.old request.now.session kept request.now.command) ≡ true → result ≢ Reply.NoMemory }
        ensures layers { LaysAt self.old self.new request.now.session request.now.command result }
        ensures reads { ReadsAt self.old request.now.session request.now.command reads.old reads.new }
        ensures called { K.called_at keeper.new ≡ K.called_at keeper.old }
        ensures returned { K.returned_at keeper.new ≡ K.returned_at keeper.old }
        ensures later { K.faults keeper.old ≤ K.faults keeper.new }
        ensures quiet { result ≢ Reply.Refused Refusal.KeeperFault → K.faults keeper.new ≡ K.faults keeper.old }
        ensures sure { K.sure keeper.old → (result ≢ Reply.Refused Refusal.KeeperFault) × K.sure keeper.new }
    {
        let name = request.session.as_str();
        match &request.command {
            Command::Close => self.close_at(place, name),
            Command::Save => self.save_at(alloc, place, name, keeper),
            command => self.answer_at(alloc, place, name, command, reads),
        }
    }

    /// Answers a request: the reply, the session of its name and the text that is kept under it are those of one step of
    /// the machine, and the other sessions and kept texts stay. Where memory runs out or the keeper fails nothing
    /// changes but layers.
    pub fn answer<K: Keeper, L: Ledger>(
        &mut self,
        alloc: Global,
        request: &Request,
        keeper: &mut K,
        reads: &mut Steps<L>,
    ) -> Reply
        ensures step { result ≢ Reply.NoMemory → result ≢ Reply.Refused Refusal.KeeperFault →
            IsStep self.old self.new (K.texts keeper.old) (K.texts keeper.new) (K.got keeper.new) request.now result }
        ensures starved { result ≡ Reply.NoMemory → Stays self.old self.new request.now.session (K.texts keeper.old) (K.texts keeper.new) }

        // The keeper's fault comes only where it was asked, and counted.
        ensures failed { result ≡ Reply.Refused Refusal.KeeperFault → Stays self.old self.new request.now.session (K.texts keeper.old) (K.texts keeper.new)
            × (asks_keeper self.old.profiles (length self.old.seats) (own_of self.old request.now.session) request.now.command ≡ true) × Rose (K.faults keeper.old) (K.faults keeper.new) }
        ensures lean { (kept : Option (List ℕ)) → is_lean request.now.command (own_of self.old request.now.session) (desk_step self.old request.now.session kept request.now.command) ≡ true → result ≢ Reply.NoMemory }

        // A tree or a list of markers names what the session's thread has.
        ensures named { IsNamed result (shown_thread self.new request.now.session) }

        ensures layers { LaysAt self.old self.new request.now.session request.now.command result }
        ensures reads { ReadsAt self.old request.now.session request.now.command reads.old reads.new }

        // What else the keeper tells.
        ensures called { K.called_at keeper.new ≡ K.called_at keeper.old }
        ensures returned { K.returned_at keeper.new ≡ K.returned_at keeper.old }
        ensures later { K.faults keeper.old ≤ K.faults keeper.new }
        ensures quiet { result ≢ Reply.Refused Refusal.KeeperFault → K.faults keeper.new ≡ K.faults keeper.old }
        ensures sure { K.sure keeper.old → (result ≢ Reply.Refused Refusal.KeeperFault) × K.sure keeper.new }
    {
        self.keeps(request.session.as_str());
        let place = self.find(request.session.as_str());
        if place < self.seats.len() {
            self.answer_there(alloc, place, request, keeper, reads)
        } else {
            self.answer_lacking(alloc, request, keeper)
        }
    }
}
