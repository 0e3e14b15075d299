//! Changes of a session.
ghost use Rattle.std.specs.Prelude.{◌≡◌, ◌≢◌, ◌+◌, ◌-◌, ◌<◌, ◌≤◌, ◌^◌, ℕ, List, Option, length, get_or, Some, None, true, OnOk, OnErr, IsOk};
ghost use Rattle.prof_address.specs.Parts.{fresh};
ghost use Rattle.prof_machine.specs.Session.{present, with_view, changed, moved, is_change};
ghost use Rattle.prof_machine.specs.Machine.{content_refusal, change_refusal, acted, change, stays};
ghost use Rattle.prof_machine.specs.Memory.{is_move, is_lean};
ghost use Rattle.prof_session.specs.Seated.{IsSound, KeepsLayers};

use crate::seat::Seat;
use prof_address::{TextRefusal, read_view};
use prof_io::NoMemory;
use prof_machine::{
    KnownProfile, Refusal, Reply, at_of, changed_view, content_refusal, is_last, view_refusal,
};
use prof_path::View;
use prof_request::Command;
use std::alloc::Global;

impl Seat {
    /// Goes to another place of the history.
    fn go(
        &mut self,
        alloc: Global,
        known: &KnownProfile,
        place: usize,
        last: Command,
    ) -> Result<(), NoMemory>
        requires within { place < length self.old.session.views }
        requires sound { IsSound known.now self.old }
        requires version { self.old.session.version < 2 ^ 32 - 1 }
        ensures session { OnOk result (self.new.session ≡ record self.old.session { place = place; version = self.old.session.version + 1; last = Some last }) }
        ensures layers { OnOk result (KeepsLayers known.now self.old self.new) }
        ensures ok { (get_or self.old.session.views place (fresh 0)).thread ≡ (present self.old.session).thread → IsOk result }
        ensures err { OnErr result (self.new ≡ self.old) }
    {
        let thread = self.thread_at(known, place);
        let layers = self.layers_on(alloc, known, thread)?;
        self.stand_on(layers);
        self.set_place(place);
        self.note(last);
        Ok(())
    }

    /// Puts a view, and notes the change that led to it.
    fn put(
        &mut self,
        alloc: Global,
        known: &KnownProfile,
        view: View,
        last: Command,
    ) -> Result<(), NoMemory>
        requires thread { view.thread < length known.now.threads }
        requires version { self.old.session.version < 2 ^ 32 - 1 }
        ensures session { OnOk result (self.new.session ≡ record (with_view self.old.session view) { version = self.old.session.version + 1; last = Some last }) }
        ensures layers { OnOk result (KeepsLayers known.now self.old self.new) }
        ensures err { OnErr result (self.new ≡ self.old) }
    {
        let layers = self.layers_on(alloc, known, view.thread)?;
        self.stand_on(layers);
        self.put_view(view);
        self.note(last);
        Ok(())
    }

    /// Puts the view that a change makes of the present one.
    fn go_on(
        &mut self,
        alloc: Global,
        known: &KnownProfile,
        command: &Command,
    ) -> Result<(), NoMemory>
        requires change { is_change command.now ≡ true }
        requires view { (at : ℕ) (address : List ℕ) → command.now ≡ Command.Goto at address → ⊥ }
        requires back { (at : ℕ) → command.now ≡ Command.Undo at → ⊥ }
        requires forth { (at : ℕ) → command.now ≡ Command.Redo at → ⊥ }
        requires sound { IsSound known.now self.old }
        requires version { self.old.session.version < 2 ^ 32 - 1 }
        ensures session { OnOk result (self.new.session ≡ changed self.old.session command.now) }
        ensures layers { OnOk result (KeepsLayers known.now self.old self.new) }
        ensures err { OnErr result (self.new ≡ self.old) }
    {
        let view = changed_view(alloc, self.present(), command)?;
        let last = command.copy(alloc)?;
        self.put(alloc, known, view, last)
    }

    /// Does a change other than a Goto that nothing is wrong with.
    fn act(
        &mut self,
        alloc: Global,
        known: &KnownProfile,
        command: &Command,
    ) -> Result<(), NoMemory>
        requires change { is_change command.now ≡ true }
        requires view { (at : ℕ) (address : List ℕ) → command.now ≡ Command.Goto at address → ⊥ }
        requires sound { IsSound known.now self.old }
        requires version { self.old.session.version < 2 ^ 32 - 1 }
        requires allowed { content_refusal known.now (present self.old.session) self.old.session.place (length self.old.session.views) command.now ≡ None }
        ensures session { OnOk result (self.new.session ≡ changed self.old.session command.now) }
        ensures layers { OnOk result (KeepsLayers known.now self.old self.new) }
        ensures ok { is_move command.now ≡ true → (present (moved self.old.session command.now)).thread ≡ (present self.old.session).thread → IsOk result }
        ensures err { OnErr result (self.new ≡ self.old) }
    {
        match command {
            Command::Undo { at } => {
                self.go(alloc, known, self.place() - 1, Command::Undo { at: *at })
            }
            Command::Redo { at } => {
                self.go(alloc, known, self.place() + 1, Command::Redo { at: *at })
            }
            _ => self.go_on(alloc, known, command),
        }
    }

    /// Answers a Goto that is meant for the session's version.
    fn answer_goto(
        &mut self,
        alloc: Global,
        known: &KnownProfile,
        address: &str,
        command: &Command,
    ) -> Reply
        requires goto { (at : ℕ) × (command.now ≡ Command.Goto at address.now) }
        requires sound { IsSound known.now self.old }
        ensures step { result ≢ Reply.NoMemory → (kept : Option (List ℕ)) → acted self.old.session kept command.now (change_refusal known.now self.old.session command.now) ≡ stays (Some self.new.session) kept result }
        ensures same { result ≡ Reply.NoMemory → self.new ≡ self.old }
        ensures layers { KeepsLayers known.now self.old self.new }
        ensures sound { IsSound known.now self.new }
        ensures profile { self.new.session.profile ≡ self.old.session.profile }
        ensures quiet { result ≢ Reply.Refused Refusal.KeeperFault }
    {
        let view = match read_view(alloc, address) {
            Ok(view) => view,
            Err(TextRefusal::BadAddress { at }) => {
                return Reply::Refused(Refusal::BadAddress { at });
            }
            Err(TextRefusal::NoMemory) => return Reply::NoMemory,
        };
        if let Some(refusal) = view_refusal(known, &view) {
            return Reply::Refused(refusal);
        }
        let version = self.version();
        if version == u32::MAX {
            return Reply::Refused(Refusal::VersionEnd);
        }
        let Ok(last) = command.copy(alloc) else {
            return Reply::NoMemory;
        };
        match self.put(alloc, known, view, last) {
            Ok(()) => Reply::Done {
                version: version + 1,
            },
            Err(_) => Reply::NoMemory,
        }
    }

    /// Answers a change other than a Goto that is meant for the session's version.
    fn answer_act(&mut self, alloc: Global, known: &KnownProfile, command: &Command) -> Reply
        requires change { is_change command.now ≡ true }
        requires view { (at : ℕ) (address : List ℕ) → command.now ≡ Command.Goto at address → ⊥ }
        requires sound { IsSound known.now self.old }
        ensures step { result ≢ Reply.NoMemory → (kept : Option (List ℕ)) → acted self.old.session kept command.now (change_refusal known.now self.old.session command.now) ≡ stays (Some self.new.session) kept result }
        ensures same { result ≡ Reply.NoMemory → self.new ≡ self.old }
        ensures layers { KeepsLayers known.now self.old self.new }
        ensures sound { IsSound known.now self.new }
        ensures profile { self.new.session.profile ≡ self.old.session.profile }
        ensures quiet { result ≢ Reply.Refused Refusal.KeeperFault }
        ensures lean { result ≡ Reply.NoMemory → (change_refusal known.now self.old.session command.now ≡ None)
            × (is_move command.now ≡ true → (present (moved self.old.session command.now)).thread ≢ (present self.old.session).thread) }
    {
        if let Some(refusal) = content_refusal(
            known,
            self.present(),
            self.place(),
            self.count(),
            command,
        ) {
            return Reply::Refused(refusal);
        }
        let version = self.version();
        if version == u32::MAX {
            return Reply::Refused(Refusal::VersionEnd);
        }
        match self.act(alloc, known, command) {
            Ok(()) => Reply::Done {
                version: version + 1,
            },
            Err(_) => Reply::NoMemory,
        }
    }

    /// Answers a change.
    pub fn change(&mut self, alloc: Global, known: &KnownProfile, command: &Command) -> Reply
        requires change { is_change command.now ≡ true }
        requires sound { IsSound known.now self.old }
        ensures step { result ≢ Reply.NoMemory → (kept : Option (List ℕ)) → change known.now self.old.session kept command.now ≡ stays (Some self.new.session) kept result }
        ensures starved { result ≡ Reply.NoMemory → self.new ≡ self.old }
        ensures layers { KeepsLayers known.now self.old self.new }
        ensures sound { IsSound known.now self.new }
        ensures profile { self.new.session.profile ≡ self.old.session.profile }
        ensures quiet { result ≢ Reply.Refused Refusal.KeeperFault }
        ensures lean { (kept : Option (List ℕ)) → is_lean command.now (Some self.old.session) (change known.now self.old.session kept command.now) ≡ true → result ≢ Reply.NoMemory }
    {
        let version = self.version();
        let at = at_of(command);
        if at != version {
            if at < version && at + 1 == version && is_last(self.last(), command) {
                return Reply::Done { version };
            }
            return Reply::Refused(Refusal::Stale { version });
        }
        match command {
            Command::Goto { address, .. } => {
                self.answer_goto(alloc, known, address.as_str(), command)
            }
            _ => self.answer_act(alloc, known, command),
        }
    }
}
