//! A whole text, gathered as an object.
ghost use Rattle.std.specs.Prelude.{◌≡◌, ◌≤◌, ◌≢◌, [], None, Some, Ok, Err, IfOk, IfErr, IfSome, OnOk};
ghost use Rattle.std.specs.Io.KnownBytes.{IsAtEnd};
ghost use Rattle.prof_grammar.specs.Accepted.{IsAccepted};
ghost use Rattle.prof_grammar.specs.Value.{Value, no_members};
ghost use Rattle.prof_json.specs.Position.{fresh};
ghost use Rattle.prof_gather.specs.Causes.{IsCaused};
ghost use Rattle.prof_gather.specs.Feeding.{Refuses, IsFresh};
ghost use Rattle.prof_gather.specs.Taking.{Reads, IsFound};
ghost use Rattle.prof_gather.specs.Whole.{IsAll};
ghost use Rattle.sha2.specs.Sha256.{sha256};

use crate::GatherRefusal;
use crate::feed::Feed;
use crate::hashed::{Hashed, Start};
use crate::lent::Lent;
use crate::objects::{Found, FromMembers, object_behind};
use prof_grammar::LONGEST;
use prof_io::{Digest, Source};
use prof_json::Reader;
use sha2::{Digest as _, Sha256};
use std::alloc::Global;
use std::marker::{Brand, PhantomData};

/// Reads the value of the whole text.
fn top_value<T: FromMembers, R: Source, W: Start>(
    alloc: Global,
    feed: &mut Feed<R, W>,
    begun: T,
) -> Result<Found<T>, GatherRefusal>
    requires fresh { IsFresh feed.old }
    requires none { T.is no_members begun }
    ensures ok { OnOk result (feed.new.frames ≡ []) }
    ensures value { IfOk result (λ found. (v : Value) × Reads feed.old feed.new v × IsFound T.is v found) }
    ensures err { IfErr result (λ r. Refuses r feed.new) }
{
    let first = feed.next(alloc)?;
    object_behind(alloc, feed, first, begun)
}

/// Reads the value of the whole text, and the text's end.
fn whole_value<T: FromMembers, R: Source, W: Start>(
    alloc: Global,
    feed: &mut Feed<R, W>,
    begun: T,
) -> Result<Found<T>, GatherRefusal>
    requires fresh { IsFresh feed.old }
    requires none { T.is no_members begun }
    ensures ok { OnOk result (IsAtEnd feed.new.left) }
    ensures sound { OnOk result (feed.new.fault ≡ None) }
    ensures value { IfOk result (λ found. (v : Value) × IsAll feed.old.rest v × IsFound T.is v found) }
    ensures err { IfErr result (λ r. Refuses r feed.new) }
{
    let found = top_value(alloc, feed, begun)?;
    let _end = feed.next(alloc)?;
    Ok(found)
}

/// The loan of a reference is over.
fn give_back<S>(src: &mut S)
    ensures { src.new ≡ src.old }
{
    let _src = src;
}

/// Reads the text to its end, gathers it, and hashes all its bytes.
fn gather<T: FromMembers, R: Source, W: Start>(
    alloc: Global,
    reader: Reader,
    src: R,
    begun: T,
) -> (Result<(Found<T>, Digest), GatherRefusal>, R)
    requires none { T.is no_members begun }
    requires fresh { reader ≡ fresh LONGEST }
    requires text { W.text ≡ R.left src }
    requires written { W.written ≡ R.written src }
    requires place { W.place ≡ R.place src }
    requires faults { W.faults ≡ R.faults src }
    requires sure { W.sure → R.sure src }
    ensures written { R.written result.1 ≡ W.written }
    ensures place { R.place result.1 ≡ W.place }
    ensures later { W.faults ≤ R.faults result.1 }
    ensures sure { W.sure → R.sure result.1 }
    ensures steady { W.sure → result.0 ≢ Err GatherRefusal.ReadFault }
    ensures cause { IfErr result.0 (λ r. IsCaused r W.text W.faults (R.faults result.1)) }
    ensures calm { OnOk result.0 (R.faults result.1 ≡ W.faults) }
    ensures end { OnOk result.0 (IsAtEnd (R.left result.1)) }
    ensures digest { IfOk result.0 (λ r. IfSome W.text (λ text. r.1 ≡ sha256 text)) }
    ensures value { IfOk result.0 (λ r. IfSome W.text (λ text. (v : Value) × IsAccepted text v × IsFound T.is v r.0)) }
{
    let hashed: Hashed<R, W> = Hashed {
        src,
        hasher: Sha256::new(),
        of: PhantomData,
    };
    let mut feed = Feed {
        reader,
        src: hashed,
    };
    let found = whole_value(alloc, &mut feed, begun);
    let Feed {
        reader: _reader,
        src: hashed,
    } = feed;
    let Hashed {
        src,
        hasher,
        of: _of,
    } = hashed;
    let digest = hasher.finalize();
    match found {
        Ok(found) => (Ok((found, digest)), src),
        Err(refusal) => (Err(refusal), src),
    }
}

/// Reads a text to its end, which is accepted where it has at most 268,435,456 bytes, and gathers the members of its value,
/// which should be an object, from `begun` on. Hashes all bytes of the text.
pub fn read_object<T: FromMembers, S: Source>(
    alloc: Global,
    src: &mut S,
    begun: T,
) -> Result<(Found<T>, Digest), GatherRefusal>
    requires { T.is no_members begun }
    ensures written { S.written src.new ≡ S.written src.old }
    ensures place { S.place src.new ≡ S.place src.old }
    ensures later { S.faults src.old ≤ S.faults src.new }
    ensures sure { S.sure src.old → S.sure src.new }
    ensures steady { S.sure src.old → result ≢ Err GatherRefusal.ReadFault }
    ensures cause { IfErr result (λ r. IsCaused r (S.left src.old) (S.faults src.old) (S.faults src.new)) }
    ensures calm { OnOk result (S.faults src.new ≡ S.faults src.old) }
    ensures end { OnOk result (IsAtEnd (S.left src.new)) }
    ensures digest { IfSome (S.left src.old) (λ text. IfOk result (λ r. r.1 ≡ sha256 text)) }
    ensures value { IfSome (S.left src.old) (λ text. IfOk result (λ r. (v : Value) × IsAccepted text v × IsFound T.is v r.0)) }
{
    let reader = Reader::new(alloc, LONGEST)?;
    let lent = Lent { src };
    let (gathered, lent) = gather::<T, Lent<'_, S>, Brand>(alloc, reader, lent, begun);
    let Lent { src } = lent;
    give_back(src);
    gathered
}
