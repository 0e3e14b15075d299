//! A session in its seat, with its layers.
ghost use Rattle.std.specs.Prelude.{◌≡◌, ◌≢◌, ◌+◌, ◌-◌, ◌*◌, ◌<◌, ◌≤◌, ◌∷◌, ◌^◌, [], ℕ, List, Option, length, get_or, map, take, Some, None, Ok, true, IfOk, OnOk, OnErr, IsOk, unwrap_or};
ghost use Rattle.std.specs.List.{All};
ghost use Rattle.prof_layer.specs.Common.{IsCommon};
ghost use Rattle.prof_address.specs.Parts.{fresh};
ghost use Rattle.prof_machine.specs.Known.{thread_at, thread_of};
ghost use Rattle.prof_machine.specs.Session.{Session, opened, present, with_view};
ghost use Rattle.prof_machine.specs.Machine.{view_refusal, restored};
ghost use Rattle.prof_session.specs.Seated.{Seated, IsSound, Settles, bare};

use crate::cutting::settle_on;
use crate::restoring::ring_of;
use circular_buffer::HeapCircularBuffer;
use prof_io::{NoMemory, Steps, Text};
use prof_keep::Saved;
use prof_layer::Layers;
use prof_machine::{KnownProfile, fresh};
use prof_path::View;
use prof_request::Command;
use std::alloc::Global;
use std::marker::Model;
use std::sync::ledger::Ledger;

/// The most views of a history.
const MOST_VIEWS: usize = 100;

/// A session: its profile's name, its version, a history of views with the place of the present one, and the last accepted
/// change; and the layers of the present view's thread.
#[derive(Drop)]
pub struct Seat {
    profile: Text,
    version: u32,
    views: HeapCircularBuffer<View>,
    place: usize,
    last: Option<Command>,
    layers: Layers,
}

impl Model for Seat {
    ghost use Rattle.std.specs.Prelude.{◌≡◌, ◌<◌, ◌≤◌, length};
    ghost use Rattle.prof_session.specs.Seated.{Seated};

    ghost Value = { Seated };

    ghost view = { λ s. record {
      session = record {
        profile = s.profile;
        version = s.version;
        views = s.views.items;
        place = s.place;
        last = s.last;
      };
      layers = s.layers;
    } };

    ghost invariant = { λ s. (s.views.capacity ≡ 100) × (s.place < length s.views.items) × (length s.views.items ≤ 100) };
}

/// A copy of a text.
pub(crate) fn copied(alloc: Global, text: &str) -> Result<Text, NoMemory>
    ensures { IfOk result (λ copy. copy ≡ text.now) }
{
    let mut copy = Text::new(alloc);
    copy.push_str(text)?;
    Ok(copy)
}

impl Seat {
    /// A session on a thread of a profile.
    pub fn open(
        alloc: Global,
        name: &str,
        known: &KnownProfile,
        thread: u32,
    ) -> Result<Seat, NoMemory>
        requires { thread < length known.now.threads }
        ensures { IfOk result (λ seat. seat ≡ record { session = opened name.now thread; layers = bare (thread_at known.now thread) }) }
    {
        let profile = copied(alloc, name)?;
        let mut views = HeapCircularBuffer::with_capacity(alloc, MOST_VIEWS)?;
        views.push_back(fresh(alloc, thread));
        let layers = Layers::new(alloc, known.share(thread)?);
        Ok(Seat {
            profile,
            version: 0,
            views,
            place: 0,
            last: None,
            layers,
        })
    }

    /// A session of a ring of views, at a place of it, with no last change.
    pub(crate) fn restored(
        alloc: Global,
        name: &str,
        known: &KnownProfile,
        saved: Saved,
    ) -> Result<Seat, NoMemory>
        requires few { length saved.views ≤ 100 }
        requires place { saved.place < length saved.views }
        requires sound { All (λ v. view_refusal known.now v ≡ None) saved.views }
        ensures session { IfOk result (λ seat. seat.session ≡ restored name.now saved) }
        ensures layers { IfOk result (λ seat. seat.layers ≡ bare (thread_of known.now (present seat.session))) }
    {
        let profile = copied(alloc, name)?;
        let thread = saved.views[saved.place as usize].thread;
        let layers = Layers::new(alloc, known.share(thread)?);
        Ok(Seat {
            profile,
            version: saved.version,
            views: ring_of(alloc, saved.views)?,
            place: saved.place as usize,
            last: None,
            layers,
        })
    }

    /// The name of its profile.
    pub fn profile(&self) -> &str
        ensures { result.now ≡ self.now.session.profile }
    {
        self.profile.as_str()
    }

    pub fn version(&self) -> u32
        ensures { result ≡ self.now.session.version }
    {
        self.version
    }

    /// The place of the present view.
    pub(crate) fn place(&self) -> usize
        ensures place { result ≡ self.now.session.place }
        ensures within { result < length self.now.session.views }
        ensures few { length self.now.session.views ≤ 100 }
    {
        let _few = self.views.len();
        self.place
    }

    /// The last accepted change.
    pub(crate) fn last(&self) -> &Option<Command>
        ensures { result.now ≡ self.now.session.last }
    {
        &self.last
    }

    /// How many views its history has.
    pub fn count(&self) -> usize
        ensures { result ≡ length self.now.session.views }
    {
        self.views.len()
    }

    /// The present view.
    pub fn present(&self) -> &View
        ensures view { result.now ≡ present self.now.session }
        ensures within { self.now.session.place < length self.now.session.views }
    {
        match self.views.get(self.place) {
            Some(view) => view,
            None => unreachable!(),
        }
    }

    /// The thread of a view of the history.
    pub(crate) fn thread_at(&self, known: &KnownProfile, place: usize) -> u32
        requires within { place < length self.now.session.views }
        requires sound { IsSound known.now self.now }
        ensures thread { result ≡ (get_or self.now.session.views place (fresh 0)).thread }
        ensures below { result < length known.now.threads }
    {
        match self.views.get(place) {
            Some(view) => view.thread,
            None => unreachable!(),
        }
    }

    /// A view of the history.
    pub(crate) fn view_at(&self, k: usize) -> &View
        requires { k < length self.now.session.views }
        ensures { result.now ≡ get_or self.now.session.views k (fresh 0) }
    {
        match self.views.get(k) {
            Some(view) => view,
            None => unreachable!(),
        }
    }

    pub(crate) fn set_place(&mut self, place: usize)
        requires { place < length self.old.session.views }
        ensures { self.new ≡ record self.old { session = record self.old.session { place = place } } }
    {
        self.place = place;
    }

    /// The layers of the present view's thread.
    pub fn layers(&self) -> &Layers
        ensures { result.now ≡ self.now.layers }
    {
        &self.layers
    }

    /// Puts a view behind the present one, in place of those that stand there.
    pub(crate) fn put_view(&mut self, view: View)
        ensures { self.new ≡ record self.old { session = with_view self.old.session view } }
    {
        self.views.truncate_back(self.place + 1);
        self.views.push_back(view);
        self.place = self.views.len() - 1;
    }

    /// Notes an accepted change.
    pub(crate) fn note(&mut self, last: Command)
        requires { self.old.session.version < 2 ^ 32 - 1 }
        ensures { self.new ≡ record self.old { session = record self.old.session { version = self.old.session.version + 1; last = Some last } } }
    {
        self.version += 1;
        self.last = Some(last);
    }

    /// The layers that a view of a thread needs in place of the present ones, if any.
    pub(crate) fn layers_on(
        &self,
        alloc: Global,
        known: &KnownProfile,
        thread: u32,
    ) -> Result<Option<Layers>, NoMemory>
        requires { thread < length known.now.threads }
        ensures same { thread ≡ (present self.now.session).thread → result ≡ Ok None }
        ensures other { thread ≢ (present self.now.session).thread → IfOk result (λ layers. layers ≡ Some (bare (thread_at known.now thread))) }
    {
        if thread == self.present().thread {
            return Ok(None);
        }
        Ok(Some(Layers::new(alloc, known.share(thread)?)))
    }

    /// Takes other layers, if there are some.
    pub(crate) fn stand_on(&mut self, layers: Option<Layers>)
        ensures { self.new ≡ record self.old { layers = unwrap_or layers self.old.layers } }
    {
        if let Some(layers) = layers {
            self.layers = layers;
        }
    }

    /// Settles the present view's transforms.
    pub(crate) fn settle<L: Ledger>(
        &mut self,
        alloc: Global,
        known: &KnownProfile,
        reads: &mut Steps<L>,
    ) -> Result<(), NoMemory>
        requires { IsSound known.now self.old }
        ensures settled { OnOk result (self.new.layers.settled ≡ (present self.old.session).transforms) }
        ensures towards { Settles (present self.old.session) self.old.layers self.new.layers }
        ensures session { self.new.session ≡ self.old.session }
        ensures sound { IsSound known.now self.new }
        ensures few { OnOk result (length self.new.layers.top ≤ length self.old.layers.base.shared.stacks) }
        ensures reads { (k : ℕ) → IsCommon k self.old.layers.settled (present self.old.session).transforms → reads.new ≤ reads.old + (length (present self.old.session).transforms - k) * length self.old.layers.base.shared.stacks }
    {
        let Some(view) = self.views.get(self.place) else {
            unreachable!()
        };
        settle_on(alloc, &mut self.layers, &view.transforms, reads)
    }
}
