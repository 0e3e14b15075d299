//! Sessions saved as texts, and made of such texts.
ghost use Rattle.std.specs.Prelude.{◌≡◌, ◌≤◌, length, map, is_some, Ok, Err, Some, None, IfOk};
ghost use Rattle.circular_buffer.specs.Buffer.{buffer};
ghost use Rattle.prof_address.specs.declared.kind.Form.{Form};
ghost use Rattle.prof_keep.specs.Saved.{saved_text};
ghost use Rattle.prof_keep.proofs.SavedLemmas.{saved_of};
ghost use Rattle.prof_machine.specs.Known.{thread_of};
ghost use Rattle.prof_machine.specs.declared.refusal.Refusal.{Refusal};
ghost use Rattle.prof_machine.specs.Session.{present};
ghost use Rattle.prof_machine.specs.Machine.{first_of, view_refusal, read_refusal, saved, saved_in, restored};
ghost use Rattle.prof_session.specs.Seated.{IsSound, bare};

use crate::seat::Seat;
use circular_buffer::HeapCircularBuffer;
use prof_address::TextRefusal;
use prof_io::{NoMemory, Text};
use prof_keep::{Saved, read_saved, write_saved};
use prof_machine::{KnownProfile, Refusal, view_refusal};
use prof_path::View;
use std::alloc::Global;

/// Why a kept text makes no session.
#[derive(Drop)]
pub enum Unread {
    Refused(Refusal),
    NoMemory,
}

/// Whether some view breaks a rule.
fn has_refused(known: &KnownProfile, views: &[View]) -> bool
    ensures { result ≡ is_some (first_of (map (view_refusal known.now) views.now)) }
{
    for view in views {
        if view_refusal(known, view).is_some() {
            return true;
        }
    }
    false
}

/// Why a saved session isn't one of a profile, where its text has so many bytes.
fn saved_refusal(known: &KnownProfile, saved: &Saved, size: usize) -> Option<Refusal>
    ensures { result ≡ read_refusal known.now size (Ok saved.now) }
{
    let here = known.digest();
    if saved.digest != here {
        return Some(Refusal::OtherProfile {
            kept: saved.digest,
            here,
        });
    }
    if has_refused(known, &saved.views) {
        return Some(Refusal::BadSaved { at: size as u64 });
    }
    None
}

/// A ring of these views.
pub(crate) fn ring_of(alloc: Global, views: Vec<View>) -> Result<HeapCircularBuffer<View>, NoMemory>
    requires { length views.items ≤ 100 }
    ensures { IfOk result (λ ring. ring ≡ buffer views.items 100) }
{
    let mut ring = HeapCircularBuffer::with_capacity(alloc, 100)?;
    let mut rest = views;
    while let Some(view) = rest.pop() {
        ring.push_front(view);
    }
    Ok(ring)
}

impl Seat {
    /// The views of the history, copied.
    fn views_copied(&self, alloc: Global) -> Result<Vec<View>, NoMemory>
        ensures { IfOk result (λ views. views.items ≡ self.now.session.views) }
    {
        let mut views = Vec::new(alloc);
        for k in 0..self.count() {
            views.push(self.view_at(k).copy(alloc)?)?;
        }
        Ok(views)
    }

    /// The text of the session as it is saved.
    pub fn saved(&self, alloc: Global, known: &KnownProfile) -> Result<Text, NoMemory>
        requires { IsSound known.now self.now }
        ensures { IfOk result (λ text. text ≡ saved_text Form.Second (saved known.now self.now.session)) }
    {
        let views = self.views_copied(alloc)?;
        let at = self.place();
        let saved = Saved {
            digest: known.digest(),
            version: self.version(),
            place: at as u32,
            views,
        };
        write_saved(alloc, &saved)
    }

    /// The session that was saved as a text, on its profile.
    pub fn read(alloc: Global, name: &str, known: &KnownProfile, text: &str) -> Result<Seat, Unread>
        ensures ok { IfOk result (λ seat. (read_refusal known.now (length text.now) (saved_of text.now) ≡ None)
            × (seat.session ≡ restored name.now (saved_in (Some text.now))) × IsSound known.now seat
            × (seat.layers ≡ bare (thread_of known.now (present seat.session)))) }
        ensures refused { (refusal : Refusal) → result ≡ Err (Unread.Refused refusal) → read_refusal known.now (length text.now) (saved_of text.now) ≡ Some refusal }
    {
        let saved = match read_saved(alloc, text) {
            Ok(saved) => saved,
            Err(TextRefusal::BadAddress { at }) => {
                return Err(Unread::Refused(Refusal::BadSaved { at }));
            }
            Err(TextRefusal::NoMemory) => return Err(Unread::NoMemory),
        };
        if let Some(refusal) = saved_refusal(known, &saved, text.len()) {
            return Err(Unread::Refused(refusal));
        }
        match Seat::restored(alloc, name, known, saved) {
            Ok(seat) => Ok(seat),
            Err(_) => Err(Unread::NoMemory),
        }
    }
}
