//! Saved sessions.
use prof_io::Digest;
use prof_path::View;
use std::marker::Model;

/// What is kept of a session: the digest of its profile, its version, and its views with the place of the present one.
#[derive(Drop)]
pub struct Saved {
    pub digest: Digest,
    pub version: u32,
    pub place: u32,
    pub views: Vec<View>,
}

impl Model for Saved {
    ghost use Rattle.prof_keep.specs.Saved.{SavedLists};

    ghost Value = { SavedLists };

    ghost view = { λ s. record { digest = s.digest; version = s.version; place = s.place; views = s.views.items } };
}
