//! The profile that a number makes.
ghost use Rattle.std.specs.Prelude.{◌≡◌, IfOk};
ghost use Rattle.prof_back.specs.Made.{made};
ghost use Rattle.prof_demo.specs.Generated.{generated};
ghost use Rattle.prof_layout.specs.Profile.{profile_of};
ghost use Rattle.prof_read.specs.declared.refusal.ReadRefusal.{ReadRefusal};
ghost use Rattle.sha2.specs.Sha256.{sha256};

use prof_demo::GeneratedSource;
use prof_io::NoMemory;
use prof_read::{Digest, ReadRefusal, read_profile};
use prof_tables::Profile;
use std::alloc::Global;

/// Nothing but want of memory can refuse a text that is a profile's.
fn ran_out(refusal: ReadRefusal) -> NoMemory
    requires { refusal ≡ ReadRefusal.NoMemory }
{
    drop(refusal);
    NoMemory
}

/// The profile that a number makes, read out of its text, with the SHA-256 of that. The text is a profile's, whatever the
/// number is.
pub fn made_profile(alloc: Global, number: u32) -> Result<(Profile, Digest), NoMemory>
    ensures profile { IfOk result (λ r. r.0 ≡ profile_of (made number)) }
    ensures digest { IfOk result (λ r. r.1 ≡ sha256 (generated number)) }
{
    let mut source = GeneratedSource::new(number);
    let (profile, digest, _) = match read_profile(alloc, &mut source) {
        Ok(read) => read,
        Err(refusal) => return Err(ran_out(refusal)),
    };
    Ok((profile, digest))
}
