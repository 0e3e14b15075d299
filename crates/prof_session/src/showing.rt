//! What a session shows: trees, markers and its address.
ghost use Rattle.std.specs.Prelude.{◌≡◌, ◌≢◌, ◌+◌, ◌-◌, ◌*◌, ◌<◌, ◌≤◌, ℕ, List, Option, length, map, Some, None, true, false, IfOk, OnOk};
ghost use Rattle.prof_path.specs.Terms.{is_long_search};
ghost use Rattle.prof_machine.specs.Known.{Known, thread_of, tree_of, inverted_of};
ghost use Rattle.prof_machine.specs.Session.{present};
ghost use Rattle.prof_machine.specs.Machine.{asked, stays, inverted_reply};
ghost use Rattle.prof_machine.specs.Memory.{is_lean};
ghost use Rattle.prof_session.specs.Seated.{IsSound, SettlesAfter, LaysAfter, ReadsAtMost, ReadsWithin};

use crate::seat::Seat;
use prof_address::write_view;
use prof_io::{NoMemory, Steps};
use prof_machine::{KnownProfile, Refusal, Reply, intervals_of, markers_of};
use prof_path::is_long_search;
use prof_request::Command;
use prof_tree::InvertRefusal;
use prof_view_tree::{inverted, plain};
use std::alloc::Global;
use std::sync::ledger::Ledger;

impl Seat {
    /// Answers the tree of the present view.
    fn tree<L: Ledger>(
        &mut self,
        alloc: Global,
        known: &KnownProfile,
        reads: &mut Steps<L>,
    ) -> Reply
        requires { IsSound known.now self.old }
        ensures reply { result ≢ Reply.NoMemory → result ≡ Reply.Tree (tree_of (thread_of known.now (present self.old.session)) (present self.old.session)) }
        ensures session { self.new.session ≡ self.old.session }
        ensures sound { IsSound known.now self.new }
        ensures layers { SettlesAfter (present self.old.session) result self.old.layers self.new.layers }
        ensures reads { ReadsWithin (present self.old.session) self.old.layers reads.old reads.new }
    {
        let Ok(()) = self.settle(alloc, known, reads) else {
            return Reply::NoMemory;
        };
        match plain(alloc, self.layers(), self.present(), reads) {
            Ok(tree) => Reply::Tree(tree),
            Err(_) => Reply::NoMemory,
        }
    }

    /// Answers the inverted tree of the present view.
    fn inverted<L: Ledger>(
        &mut self,
        alloc: Global,
        known: &KnownProfile,
        reads: &mut Steps<L>,
    ) -> Reply
        requires { IsSound known.now self.old }
        ensures reply { result ≢ Reply.NoMemory → result ≡ inverted_reply (inverted_of (thread_of known.now (present self.old.session)) (present self.old.session)) }
        ensures session { self.new.session ≡ self.old.session }
        ensures sound { IsSound known.now self.new }
        ensures layers { SettlesAfter (present self.old.session) result self.old.layers self.new.layers }
        ensures reads { ReadsWithin (present self.old.session) self.old.layers reads.old reads.new }
    {
        let Ok(()) = self.settle(alloc, known, reads) else {
            return Reply::NoMemory;
        };
        match inverted(alloc, self.layers(), self.present(), reads) {
            Ok(tree) => Reply::Inverted(tree),
            Err(InvertRefusal::TooManyNodes { limit }) => {
                Reply::Refused(Refusal::TooManyNodes { limit })
            }
            Err(InvertRefusal::NoMemory) => Reply::NoMemory,
        }
    }

    /// Answers the markers of the present view that a search finds.
    fn markers(&self, alloc: Global, search: &str) -> Reply
        ensures step { (p : Known) → IsSound p self.now → result ≢ Reply.NoMemory → (kept : Option (List ℕ)) → asked p self.now.session kept (Command.Markers search.now) ≡ stays (Some self.now.session) kept result }
        ensures lean { result ≡ Reply.NoMemory → is_long_search search.now ≡ false }
        ensures quiet { result ≢ Reply.Refused Refusal.KeeperFault }
    {
        if is_long_search(search) {
            return Reply::Refused(Refusal::LongSearch);
        }
        match markers_of(alloc, self.layers().base(), self.present(), search) {
            Ok(markers) => Reply::Markers(markers),
            Err(_) => Reply::NoMemory,
        }
    }

    /// Answers the address of the present view.
    fn address(&self, alloc: Global, known: &KnownProfile) -> Reply
        requires { IsSound known.now self.now }
        ensures step { result ≢ Reply.NoMemory → (kept : Option (List ℕ)) → asked known.now self.now.session kept Command.Address ≡ stays (Some self.now.session) kept result }
        ensures quiet { result ≢ Reply.Refused Refusal.KeeperFault }
    {
        match write_view(alloc, self.present()) {
            Ok(text) => Reply::Address(text),
            Err(_) => Reply::NoMemory,
        }
    }

    /// Answers a request other than a Close and a Save.
    pub fn answer<L: Ledger>(
        &mut self,
        alloc: Global,
        known: &KnownProfile,
        command: &Command,
        reads: &mut Steps<L>,
    ) -> Reply
        requires open { command.now ≡ Command.Close → ⊥ }
        requires unsaved { command.now ≡ Command.Save → ⊥ }
        requires sound { IsSound known.now self.old }
        ensures step { result ≢ Reply.NoMemory → (kept : Option (List ℕ)) → asked known.now self.old.session kept command.now ≡ stays (Some self.new.session) kept result }
        ensures starved { result ≡ Reply.NoMemory → self.new.session ≡ self.old.session }
        ensures sound { IsSound known.now self.new }
        ensures profile { self.new.session.profile ≡ self.old.session.profile }
        ensures layers { LaysAfter known.now command.now result self.old self.new }
        ensures reads { ReadsAtMost command.now self.old reads.old reads.new }
        ensures quiet { result ≢ Reply.Refused Refusal.KeeperFault }
        ensures lean { (kept : Option (List ℕ)) → is_lean command.now (Some self.old.session) (asked known.now self.old.session kept command.now) ≡ true → result ≢ Reply.NoMemory }
    {
        match command {
            Command::OpenOn { .. } | Command::LoadOn { .. } => Reply::Refused(Refusal::NameTaken),
            Command::Tree => self.tree(alloc, known, reads),
            Command::Inverted => self.inverted(alloc, known, reads),
            Command::Markers { search } => self.markers(alloc, search.as_str()),
            Command::Address => self.address(alloc, known),
            Command::Close | Command::Save => unreachable!(),
            _ => self.change(alloc, known, command),
        }
    }
}
