//! What is gathered of a whole text.
ghost use Rattle.std.specs.Prelude.{◌≡◌, All, Option, IfSome, IfNone, codes, false};
ghost use Rattle.std.specs.Option.{option_and_then};
ghost use Rattle.prof_gather.specs.Taking.{IsFoundIn};
ghost use Rattle.prof_gecko.specs.Processes.{HasRanges};
ghost use Rattle.prof_grammar.specs.Value.{Value, Members, field, no_members, same_text};
ghost use Rattle.prof_gecko_layout.specs.GeckoProfile.{entries, is_gecko};
ghost use Rattle.prof_layout.specs.Profile as layout;
ghost use Rattle.prof_members.specs.Gathered as named;
ghost use Rattle.prof_processes.specs.Processes.{KeepEntries, child_entries};
ghost use Rattle.prof_either.specs.Named.{part_name};
ghost use Rattle.prof_processes.specs.Libs.{IsMeta};
ghost use Rattle.prof_either.specs.Parts.{AreMeta, AreParts};

use crate::gathered::{EitherParts, ThreadLists};
use crate::meta::EitherMeta;
use crate::threads::thread_lists;
use prof_gather::{Feed, Found, FromMembers, GatherRefusal, Start, object};
use prof_gecko::GeckoProcess;
use prof_io::Source;
use prof_members::{CategoryList, Meta, ProfileParts, SharedTables};
use prof_processes::{Children, LibList, ProcessMembers, ProcessStart, child_list, lib_list};
use std::alloc::Global;

/// What is gathered of a Gecko profile: its categories, and its processes from the root on.
#[derive(Drop)]
pub struct GeckoParts {
    pub categories: CategoryList,
    pub root: GeckoProcess,
}

enum PartMember {
    Meta,
    Shared,
    Libs,
    Threads,
    Processes,
}

fn part_member(name: &str) -> Option<PartMember>
    ensures some { IfSome result (λ m. name.now ≡ part_name m) }
    ensures none { IfNone result ((m : PartMember) → same_text name.now (part_name m) ≡ false) }
{
    match name {
        "meta" => Some(PartMember::Meta),
        "shared" => Some(PartMember::Shared),
        "libs" => Some(PartMember::Libs),
        "threads" => Some(PartMember::Threads),
        "processes" => Some(PartMember::Processes),
        _ => None,
    }
}

impl EitherParts {
    /// What is gathered of no member.
    pub fn none(alloc: Global) -> Self
        ensures { AreParts no_members result }
    {
        EitherParts {
            meta: Found::Absent,
            shared: Found::Absent,
            libs: LibList::absent(alloc),
            threads: ThreadLists::absent(alloc),
            children: Children::none(alloc),
        }
    }

    /// Whether `meta` says that the profile is processed.
    pub fn is_processed(&self) -> bool
        ensures { (ms : Members) → AreParts ms self.now → result ≡ layout.is_processed (Value.object ms) }
    {
        match &self.meta {
            Found::Object(meta) => meta.processed,
            Found::Absent | Found::Null | Found::Other => false,
        }
    }

    /// Whether `meta` has a version.
    pub fn has_version(&self) -> bool
        ensures { (ms : Members) → AreParts ms self.now → result ≡ is_gecko (Value.object ms) }
    {
        match &self.meta {
            Found::Object(meta) => meta.version,
            Found::Absent | Found::Null | Found::Other => false,
        }
    }

    /// What was gathered of a processed profile.
    pub fn processed(self) -> ProfileParts
        ensures { (ms : Members) → AreParts ms self → named.AreParts ms result }
    {
        let EitherParts {
            meta,
            shared,
            threads,
            ..
        } = self;
        let ThreadLists { named, .. } = threads;
        ProfileParts {
            meta: processed_meta(meta),
            shared,
            threads: named,
        }
    }

    /// What was gathered of a Gecko profile.
    pub fn gecko(self, alloc: Global) -> GeckoParts
        ensures ranges { All HasRanges result.root }
        ensures categories { (ms : Members) → AreParts ms self
            → named.IsCategoryList (layout.categories_member (Value.object ms)) result.categories }
        ensures root { (ms : Members) → AreParts ms self
            → KeepEntries (entries (Value.object ms)) result.root }
    {
        let EitherParts {
            meta,
            libs,
            threads,
            children,
            ..
        } = self;
        let ThreadLists { rows, .. } = threads;
        let (categories, meta) = gecko_meta(alloc, meta);
        let process = ProcessMembers {
            meta,
            libs,
            threads: rows,
            children,
        };
        GeckoParts {
            categories,
            root: process.process(),
        }
    }
}

/// What a processed profile's `meta` has.
fn processed_meta(meta: Found<EitherMeta>) -> Found<Meta>
    ensures { (member : Option Value) → IsFoundIn AreMeta member meta
        → IsFoundIn named.AreMeta member result }
{
    match meta {
        Found::Object(meta) => Found::Object(Meta {
            processed: meta.processed,
            categories: meta.categories,
        }),
        Found::Absent => Found::Absent,
        Found::Null => Found::Null,
        Found::Other => Found::Other,
    }
}

/// What a Gecko profile's `meta` has: the categories, and the start of the root.
fn gecko_meta(alloc: Global, meta: Found<EitherMeta>) -> (CategoryList, Found<ProcessStart>)
    ensures categories { (member : Option Value) → IsFoundIn AreMeta member meta
        → named.IsCategoryList (option_and_then (field (codes "categories")) member) result.0 }
    ensures start { (member : Option Value) → IsFoundIn AreMeta member meta
        → IsFoundIn IsMeta member result.1 }
{
    match meta {
        Found::Object(meta) => (meta.categories, Found::Object(meta.start)),
        Found::Absent => (CategoryList::absent(alloc), Found::Absent),
        Found::Null => (CategoryList::absent(alloc), Found::Null),
        Found::Other => (CategoryList::absent(alloc), Found::Other),
    }
}

impl FromMembers for EitherParts {
    ghost use Rattle.prof_either.specs.Parts.{AreParts};

    ghost is = { λ ms p. AreParts ms p };

    fn take_member<R: Source, W: Start>(
        &mut self,
        alloc: Global,
        feed: &mut Feed<R, W>,
    ) -> Result<(), GatherRefusal> {
        match part_member(feed.name()) {
            Some(PartMember::Meta) => self.meta = object(alloc, feed, EitherMeta::none(alloc))?,
            Some(PartMember::Shared) => self.shared = object(
                alloc,
                feed,
                SharedTables::none(alloc),
            )?,
            Some(PartMember::Libs) => self.libs = lib_list(alloc, feed)?,
            Some(PartMember::Threads) => self.threads = thread_lists(alloc, feed)?,
            Some(PartMember::Processes) => self.children = child_list(alloc, feed)?,
            None => feed.skip_member(alloc)?,
        }
        Ok(())
    }
}
