//! What is gathered of a whole text.
ghost use Rattle.std.specs.Prelude.{◌≡◌, IfSome, IfNone, false};
ghost use Rattle.prof_grammar.specs.Value.{same_text};
ghost use Rattle.prof_members.specs.Named.{meta_name, profile_name};

use crate::categories::category_list;
use crate::lists::{CategoryList, ThreadList};
use crate::shared::SharedTables;
use crate::threads::thread_list;
use prof_gather::{Feed, Found, FromMembers, GatherRefusal, Start, object};
use prof_io::Source;
use std::alloc::Global;

/// What is gathered of `meta`: whether it says that the profile is processed, and the categories.
#[derive(Drop)]
pub struct Meta {
    pub processed: bool,
    pub categories: CategoryList,
}

enum MetaMember {
    ProcessedVersion,
    Categories,
}

fn meta_member(name: &str) -> Option<MetaMember>
    ensures some { IfSome result (λ m. name.now ≡ meta_name m) }
    ensures none { IfNone result ((m : MetaMember) → same_text name.now (meta_name m) ≡ false) }
{
    match name {
        "preprocessedProfileVersion" => Some(MetaMember::ProcessedVersion),
        "categories" => Some(MetaMember::Categories),
        _ => None,
    }
}

impl Meta {
    ghost use Rattle.prof_grammar.specs.Value.{no_members};
    ghost use Rattle.prof_members.specs.Gathered.{AreMeta};

    /// What is gathered of no member.
    pub fn none(alloc: Global) -> Self
        ensures { AreMeta no_members result }
    {
        Meta {
            processed: false,
            categories: CategoryList::absent(alloc),
        }
    }
}

impl FromMembers for Meta {
    ghost use Rattle.prof_members.specs.Gathered.{AreMeta};

    ghost is = { λ ms m. AreMeta ms m };

    fn take_member<R: Source, W: Start>(
        &mut self,
        alloc: Global,
        feed: &mut Feed<R, W>,
    ) -> Result<(), GatherRefusal> {
        match meta_member(feed.name()) {
            Some(MetaMember::ProcessedVersion) => {
                feed.skip_member(alloc)?;
                self.processed = true;
            }
            Some(MetaMember::Categories) => self.categories = category_list(alloc, feed)?,
            None => feed.skip_member(alloc)?,
        }
        Ok(())
    }
}

/// What is gathered of the members of the text's object.
#[derive(Drop)]
pub struct ProfileParts {
    pub meta: Found<Meta>,
    pub shared: Found<SharedTables>,
    pub threads: ThreadList,
}

enum ProfileMember {
    Meta,
    Shared,
    Threads,
}

fn profile_member(name: &str) -> Option<ProfileMember>
    ensures some { IfSome result (λ m. name.now ≡ profile_name m) }
    ensures none { IfNone result ((m : ProfileMember) → same_text name.now (profile_name m) ≡ false) }
{
    match name {
        "meta" => Some(ProfileMember::Meta),
        "shared" => Some(ProfileMember::Shared),
        "threads" => Some(ProfileMember::Threads),
        _ => None,
    }
}

impl ProfileParts {
    ghost use Rattle.prof_grammar.specs.Value.{no_members};
    ghost use Rattle.prof_members.specs.Gathered.{AreParts};

    /// What is gathered of no member.
    pub fn none(alloc: Global) -> Self
        ensures { AreParts no_members result }
    {
        ProfileParts {
            meta: Found::Absent,
            shared: Found::Absent,
            threads: ThreadList::absent(alloc),
        }
    }
}

impl FromMembers for ProfileParts {
    ghost use Rattle.prof_members.specs.Gathered.{AreParts};

    ghost is = { λ ms p. AreParts ms p };

    fn take_member<R: Source, W: Start>(
        &mut self,
        alloc: Global,
        feed: &mut Feed<R, W>,
    ) -> Result<(), GatherRefusal> {
        match profile_member(feed.name()) {
            Some(ProfileMember::Meta) => self.meta = object(alloc, feed, Meta::none(alloc))?,
            Some(ProfileMember::Shared) => self.shared = object(
                alloc,
                feed,
                SharedTables::none(alloc),
            )?,
            Some(ProfileMember::Threads) => self.threads = thread_list(alloc, feed)?,
            None => feed.skip_member(alloc)?,
        }
        Ok(())
    }
}
