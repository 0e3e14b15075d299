//! A profile that sessions stand on.
ghost use Rattle.std.specs.Prelude.{◌≡◌, ◌<◌, ◌≤◌, length, IfOk};
ghost use Rattle.prof_machine.specs.Known.{thread_at};

use prof_io::{Digest, NoMemory};
use prof_tables::{Profile, Thread};
use std::marker::Model;
use std::rc::Rc;

/// A profile, with the digest of the text that it was read from.
#[derive(Drop)]
pub struct KnownProfile {
    profile: Profile,
    digest: Digest,
}

impl Model for KnownProfile {
    ghost use Rattle.prof_machine.specs.Known.{Known};

    ghost Value = { Known };

    ghost view = { λ k. record { threads = k.profile.threads; digest = k.digest } };
}

impl KnownProfile {
    pub fn new(profile: Profile, digest: Digest) -> Self
        ensures { result ≡ record { threads = profile.threads; digest = digest } }
    {
        KnownProfile { profile, digest }
    }

    /// How many threads it has.
    pub fn count(&self) -> u32
        ensures count { result ≡ length self.now.threads }
        ensures few { result ≤ 1024 }
    {
        self.profile.keeps();
        self.profile.threads.len() as u32
    }

    pub fn thread(&self, n: u32) -> &Thread
        requires { n < length self.now.threads }
        ensures { result.now ≡ thread_at self.now n }
    {
        &self.profile.threads[n as usize]
    }

    /// A thread, held together with the profile.
    pub fn share(&self, n: u32) -> Result<Rc<Thread>, NoMemory>
        requires { n < length self.now.threads }
        ensures { IfOk result (λ thread. thread.value ≡ thread_at self.now n) }
    {
        Ok(self.profile.threads[n as usize].clone()?)
    }

    pub fn digest(&self) -> Digest
        ensures { result ≡ self.now.digest }
    {
        self.digest
    }
}
