//! The desk: profiles and sessions by their names.
ghost use Rattle.std.specs.Prelude.{◌≡◌, ◌∷◌, ◌++◌, [], Some, None, IfOk, OnOk, OnErr, option_copied};
ghost use Rattle.std.specs.Option.{option_map};
ghost use Rattle.prof_io.specs.Named.{value_at, place_of};
ghost use Rattle.prof_machine.specs.Known.{thread_of};
ghost use Rattle.prof_machine.specs.Session.{Session, present};
ghost use Rattle.prof_machine.specs.Machine.{profile_of};
ghost use Rattle.prof_session.specs.Seated.{Seated};
ghost use Rattle.prof_session_desk.specs.Desk.{IsAllowed, IsSeated, own_of};

use prof_io::{Digest, NoMemory, Text};
use prof_layer::Layers;
use prof_machine::KnownProfile;
use prof_named::Names;
use prof_path::Transform;
use prof_session::Seat;
use prof_tables::{Profile, Thread};
use std::alloc::Global;
use std::marker::Model;

/// Profiles and sessions on them, each by its name.
#[derive(Drop)]
pub struct Desk {
    pub(crate) profiles: Vec<(Text, KnownProfile)>,
    pub(crate) seats: Vec<(Text, Seat)>,
    /// The names of the sessions, by which their places are found.
    pub(crate) names: Names,
}

impl Model for Desk {
    ghost use Rattle.std.specs.Prelude.{◌≡◌};
    ghost use Rattle.prof_named.specs.Names.{names_of};
    ghost use Rattle.prof_session_desk.specs.Desk.{DeskLists, IsDesk};

    ghost Value = { DeskLists };

    ghost view = { λ d. record { profiles = d.profiles.items; seats = d.seats.items } };

    ghost invariant = { λ d. IsDesk d.profiles.items d.seats.items × (d.names ≡ names_of d.seats.items) };
}

/// A copy of a text.
pub(crate) fn copied(alloc: Global, text: &str) -> Result<Text, NoMemory>
    ensures { IfOk result (λ copy. copy ≡ text.now) }
{
    let mut copy = Text::new(alloc);
    copy.push_str(text)?;
    Ok(copy)
}

impl Desk {
    /// A desk without profiles and sessions.
    pub fn new(alloc: Global) -> Desk
        ensures { result ≡ record { profiles = []; seats = [] } }
    {
        Desk {
            profiles: Vec::new(alloc),
            seats: Vec::new(alloc),
            names: Names::new(alloc),
        }
    }

    /// Adds a profile under a name that none has. Where memory runs out the profile is dropped.
    pub fn add_profile(
        &mut self,
        alloc: Global,
        name: &str,
        profile: Profile,
        digest: Digest,
    ) -> Result<(), NoMemory>
        requires { value_at self.old.profiles name.now ≡ None }
        ensures ok { OnOk result (self.new ≡ record self.old {
          profiles = self.old.profiles ++ (name.now, record { threads = profile.threads; digest = digest }) ∷ [];
        }) }
        ensures err { OnErr result (self.new ≡ self.old) }
    {
        let key = copied(alloc, name)?;
        self.profiles.reserve(1)?;
        self.profiles
            .push_reserved((key, KnownProfile::new(profile, digest)));
        Ok(())
    }

    /// The place of the session of a name, or the number of all where there is none.
    pub(crate) fn find(&self, session: &str) -> usize
        ensures { result ≡ place_of self.now.seats session.now }
    {
        self.names.find(session)
    }

    /// The session of a name.
    fn seat(&self, session: &str) -> Option<&Seat>
        ensures value { option_copied result ≡ value_at self.now.seats session.now }
        ensures seated { (seat : Seated) → value_at self.now.seats session.now ≡ Some seat → IsSeated self.now.profiles seat }
    {
        let place = self.find(session);
        if place < self.seats.len() {
            Some(&self.seats[place].1)
        } else {
            None
        }
    }

    /// What the thread and the present view of a session keep. The call only looks the session up.
    pub(crate) fn keeps(&self, session: &str)
        ensures { (s : Session) → own_of self.now session.now ≡ Some s → IsAllowed (thread_of (profile_of self.now.profiles s) (present s)) (present s) }
    {
        if let Some(seat) = self.seat(session) {
            seat.layers().base().keeps();
        }
    }

    /// The thread of a session's present view.
    pub fn thread_of(&self, session: &str) -> Option<&Thread>
        ensures { option_copied result ≡ option_map (λ (s : Session). thread_of (profile_of self.now.profiles s) (present s)) (own_of self.now session.now) }
    {
        match self.seat(session) {
            Some(seat) => Some(seat.layers().base()),
            None => None,
        }
    }

    /// A session's layers, whose base is the thread of its present view.
    pub fn layers(&self, session: &str) -> Option<&Layers>
        ensures { option_copied result ≡ option_map (λ (s : Seated). s.layers) (value_at self.now.seats session.now) }
    {
        match self.seat(session) {
            Some(seat) => Some(seat.layers()),
            None => None,
        }
    }

    /// The transforms that are settled in a session's layers.
    pub fn settled(&self, session: &str) -> Option<&[Transform]>
        ensures { option_copied result ≡ option_map (λ (s : Seated). s.layers.settled) (value_at self.now.seats session.now) }
    {
        match self.seat(session) {
            Some(seat) => Some(seat.layers().settled()),
            None => None,
        }
    }
}
