//! A profile out of a source.
ghost use Rattle.std.specs.Prelude.{◌≡◌, ◌≤◌, ◌≢◌, Ok, Err, IfOk, IfErr, IfSome, OnOk};
ghost use Rattle.std.specs.Io.KnownBytes.{IsAtEnd};
ghost use Rattle.prof_read.specs.Causes.{IsCaused};
ghost use Rattle.prof_read.specs.Texts.{Stands, IsOfForm};
ghost use Rattle.sha2.specs.Sha256.{sha256};

use crate::ReadRefusal;
use crate::forms::either_profile;
use prof_either::EitherParts;
use prof_gather::read_object;
pub use prof_io::Digest;
use prof_io::Source;
use prof_tables::Profile;
use std::alloc::Global;

/// The form of a profile.
#[derive(Clone, Copy, Debug, PartialEq, Eq)]
pub enum Form {
    Processed,
    Gecko,
}

/// Reads the profile of a text of either form of at most 268,435,456 bytes, with the SHA-256 of all its bytes and its form. A fault of
/// JSON anywhere in the text goes before every rule.
pub fn read_profile<S: Source>(
    alloc: Global,
    src: &mut S,
) -> Result<(Profile, Digest, Form), ReadRefusal>
    ensures written { S.written src.new ≡ S.written src.old }
    ensures place { S.place src.new ≡ S.place src.old }
    ensures later { S.faults src.old ≤ S.faults src.new }
    ensures sure { S.sure src.old → S.sure src.new }
    ensures steady { S.sure src.old → result ≢ Err ReadRefusal.ReadFault }
    ensures cause { IfErr result (λ r. IsCaused r (S.left src.old) (S.faults src.old) (S.faults src.new)) }
    ensures calm { OnOk result (S.faults src.new ≡ S.faults src.old) }
    ensures end { OnOk result (IsAtEnd (S.left src.new)) }

    // Where the source tells its bytes, the profile, the digest and the form are those of its text.
    ensures stands { IfSome (S.left src.old) (λ text. IfOk result (λ r. Stands text r.0)) }
    ensures digest { IfSome (S.left src.old) (λ text. IfOk result (λ r. r.1 ≡ sha256 text)) }
    ensures form { IfSome (S.left src.old) (λ text. IfOk result (λ r. IsOfForm text r.2)) }
{
    let (parts, digest) = read_object(alloc, src, EitherParts::none(alloc))?;
    let (profile, form) = either_profile(alloc, parts)?;
    Ok((profile, digest, form))
}
