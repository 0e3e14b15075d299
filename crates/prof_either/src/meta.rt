//! What is gathered of `meta`.
ghost use Rattle.std.specs.Prelude.{◌≡◌, IfSome, IfNone, false};
ghost use Rattle.prof_grammar.specs.Value.{no_members, same_text};
ghost use Rattle.prof_either.specs.Named.{meta_name};
ghost use Rattle.prof_either.specs.Parts.{AreMeta};

use prof_gather::{Feed, FromMembers, GatherRefusal, Start};
use prof_io::Source;
use prof_members::{CategoryList, category_list};
use prof_processes::{ProcessStart, process_start};
use std::alloc::Global;

/// What is gathered of `meta`: whether it says that the profile is processed, whether it has a version, the categories, and
/// the start of the root.
#[derive(Drop)]
pub struct EitherMeta {
    pub processed: bool,
    pub version: bool,
    pub categories: CategoryList,
    pub start: ProcessStart,
}

enum MetaMember {
    ProcessedVersion,
    Version,
    Categories,
    StartTime,
}

fn meta_member(name: &str) -> Option<MetaMember>
    ensures some { IfSome result (λ m. name.now ≡ meta_name m) }
    ensures none { IfNone result ((m : MetaMember) → same_text name.now (meta_name m) ≡ false) }
{
    match name {
        "preprocessedProfileVersion" => Some(MetaMember::ProcessedVersion),
        "version" => Some(MetaMember::Version),
        "categories" => Some(MetaMember::Categories),
        "startTime" => Some(MetaMember::StartTime),
        _ => None,
    }
}

impl EitherMeta {
    /// What is gathered of no member.
    pub fn none(alloc: Global) -> Self
        ensures { AreMeta no_members result }
    {
        EitherMeta {
            processed: false,
            version: false,
            categories: CategoryList::absent(alloc),
            start: ProcessStart::unsaid(),
        }
    }
}

impl FromMembers for EitherMeta {
    ghost use Rattle.prof_either.specs.Parts.{AreMeta};

    ghost is = { λ ms m. AreMeta ms m };

    fn take_member<R: Source, W: Start>(
        &mut self,
        alloc: Global,
        feed: &mut Feed<R, W>,
    ) -> Result<(), GatherRefusal> {
        match meta_member(feed.name()) {
            Some(MetaMember::ProcessedVersion) => {
                feed.skip_member(alloc)?;
                self.processed = true;
            }
            Some(MetaMember::Version) => {
                feed.skip_member(alloc)?;
                self.version = true;
            }
            Some(MetaMember::Categories) => self.categories = category_list(alloc, feed)?,
            Some(MetaMember::StartTime) => self.start = process_start(alloc, feed)?,
            None => feed.skip_member(alloc)?,
        }
        Ok(())
    }
}
