//! The tables that threads may share: strings, resources, functions, frames and stacks.
ghost use Rattle.std.specs.Prelude.{◌≡◌, IfSome, IfNone, false};
ghost use Rattle.prof_grammar.specs.Value.{same_text};
ghost use Rattle.prof_members.specs.Named.{resource_member_name, func_member_name, frame_member_name, stack_member_name};
ghost use Rattle.prof_members.specs.Names.{member_name};

use prof_column::{TextList, column, empty_column, table_length, text_list};
use prof_gather::{Feed, Found, FromMembers, GatherRefusal, Start, object};
use prof_io::Source;
use prof_layout::Reading;
use prof_raw::{MOST_FUNCS, MOST_ROWS, RawColumn, State, TableLength};
use std::alloc::Global;

/// The columns of `resourceTable`.
#[derive(Drop)]
pub struct ResourceTable {
    pub name: RawColumn,
    pub length: TableLength,
}

enum ResourceMember {
    Name,
    Length,
}

fn resource_member(name: &str) -> Option<ResourceMember>
    ensures some { IfSome result (λ m. name.now ≡ resource_member_name m) }
    ensures none { IfNone result ((m : ResourceMember) → same_text name.now (resource_member_name m) ≡ false) }
{
    match name {
        "name" => Some(ResourceMember::Name),
        "length" => Some(ResourceMember::Length),
        _ => None,
    }
}

impl ResourceTable {
    ghost use Rattle.prof_grammar.specs.Value.{no_members};
    ghost use Rattle.prof_members.specs.Gathered.{AreResourceColumns};

    /// What is gathered of no member.
    pub fn none(alloc: Global) -> Self
        ensures { AreResourceColumns no_members result }
    {
        ResourceTable {
            name: empty_column(alloc, State::Absent),
            length: TableLength::Unsaid,
        }
    }
}

impl FromMembers for ResourceTable {
    ghost use Rattle.prof_members.specs.Gathered.{AreResourceColumns};

    ghost is = { λ ms t. AreResourceColumns ms t };

    fn take_member<R: Source, W: Start>(
        &mut self,
        alloc: Global,
        feed: &mut Feed<R, W>,
    ) -> Result<(), GatherRefusal> {
        match resource_member(feed.name()) {
            Some(ResourceMember::Name) => {
                self.name = column(alloc, feed, Reading::Index, true, MOST_FUNCS)?
            }
            Some(ResourceMember::Length) => self.length = table_length(alloc, feed)?,
            None => feed.skip_member(alloc)?,
        }
        Ok(())
    }
}

/// The columns of `funcTable`.
#[derive(Drop)]
pub struct FuncTable {
    pub name: RawColumn,
    pub is_js: RawColumn,
    pub relevant_for_js: RawColumn,
    pub resource: RawColumn,
    pub file_name: RawColumn,
    pub length: TableLength,
}

enum FuncMember {
    Name,
    IsJs,
    RelevantForJs,
    Resource,
    FileName,
    Length,
}

fn func_member(name: &str) -> Option<FuncMember>
    ensures some { IfSome result (λ m. name.now ≡ func_member_name m) }
    ensures none { IfNone result ((m : FuncMember) → same_text name.now (func_member_name m) ≡ false) }
{
    match name {
        "name" => Some(FuncMember::Name),
        "isJS" => Some(FuncMember::IsJs),
        "relevantForJS" => Some(FuncMember::RelevantForJs),
        "resource" => Some(FuncMember::Resource),
        "fileName" => Some(FuncMember::FileName),
        "length" => Some(FuncMember::Length),
        _ => None,
    }
}

impl FuncTable {
    ghost use Rattle.prof_grammar.specs.Value.{no_members};
    ghost use Rattle.prof_members.specs.Gathered.{AreFuncColumns};

    /// What is gathered of no member.
    pub fn none(alloc: Global) -> Self
        ensures { AreFuncColumns no_members result }
    {
        FuncTable {
            name: empty_column(alloc, State::Absent),
            is_js: empty_column(alloc, State::Absent),
            relevant_for_js: empty_column(alloc, State::Absent),
            resource: empty_column(alloc, State::Absent),
            file_name: empty_column(alloc, State::Absent),
            length: TableLength::Unsaid,
        }
    }
}

impl FromMembers for FuncTable {
    ghost use Rattle.prof_members.specs.Gathered.{AreFuncColumns};

    ghost is = { λ ms t. AreFuncColumns ms t };

    fn take_member<R: Source, W: Start>(
        &mut self,
        alloc: Global,
        feed: &mut Feed<R, W>,
    ) -> Result<(), GatherRefusal> {
        match func_member(feed.name()) {
            Some(FuncMember::Name) => {
                self.name = column(alloc, feed, Reading::Index, true, MOST_FUNCS)?
            }
            Some(FuncMember::IsJs) => {
                self.is_js = column(alloc, feed, Reading::Truth, false, MOST_FUNCS)?
            }
            Some(FuncMember::RelevantForJs) => {
                self.relevant_for_js = column(alloc, feed, Reading::Truth, false, MOST_FUNCS)?
            }
            Some(FuncMember::Resource) => {
                self.resource = column(alloc, feed, Reading::Index, false, MOST_FUNCS)?
            }
            Some(FuncMember::FileName) => {
                self.file_name = column(alloc, feed, Reading::MaybeIndex, false, MOST_FUNCS)?
            }
            Some(FuncMember::Length) => self.length = table_length(alloc, feed)?,
            None => feed.skip_member(alloc)?,
        }
        Ok(())
    }
}

/// The columns of `frameTable`.
#[derive(Drop)]
pub struct FrameTable {
    pub func: RawColumn,
    pub category: RawColumn,
    pub length: TableLength,
}

enum FrameMember {
    Func,
    Category,
    Length,
}

fn frame_member(name: &str) -> Option<FrameMember>
    ensures some { IfSome result (λ m. name.now ≡ frame_member_name m) }
    ensures none { IfNone result ((m : FrameMember) → same_text name.now (frame_member_name m) ≡ false) }
{
    match name {
        "func" => Some(FrameMember::Func),
        "category" => Some(FrameMember::Category),
        "length" => Some(FrameMember::Length),
        _ => None,
    }
}

impl FrameTable {
    ghost use Rattle.prof_grammar.specs.Value.{no_members};
    ghost use Rattle.prof_members.specs.Gathered.{AreFrameColumns};

    /// What is gathered of no member.
    pub fn none(alloc: Global) -> Self
        ensures { AreFrameColumns no_members result }
    {
        FrameTable {
            func: empty_column(alloc, State::Absent),
            category: empty_column(alloc, State::Absent),
            length: TableLength::Unsaid,
        }
    }
}

impl FromMembers for FrameTable {
    ghost use Rattle.prof_members.specs.Gathered.{AreFrameColumns};

    ghost is = { λ ms t. AreFrameColumns ms t };

    fn take_member<R: Source, W: Start>(
        &mut self,
        alloc: Global,
        feed: &mut Feed<R, W>,
    ) -> Result<(), GatherRefusal> {
        match frame_member(feed.name()) {
            Some(FrameMember::Func) => {
                self.func = column(alloc, feed, Reading::Index, true, MOST_ROWS)?
            }
            Some(FrameMember::Category) => {
                self.category = column(alloc, feed, Reading::MaybeIndex, false, MOST_ROWS)?
            }
            Some(FrameMember::Length) => self.length = table_length(alloc, feed)?,
            None => feed.skip_member(alloc)?,
        }
        Ok(())
    }
}

/// The columns of `stackTable`.
#[derive(Drop)]
pub struct StackTable {
    pub frame: RawColumn,
    pub prefix: RawColumn,
    pub length: TableLength,
}

enum StackMember {
    Frame,
    Prefix,
    Length,
}

fn stack_member(name: &str) -> Option<StackMember>
    ensures some { IfSome result (λ m. name.now ≡ stack_member_name m) }
    ensures none { IfNone result ((m : StackMember) → same_text name.now (stack_member_name m) ≡ false) }
{
    match name {
        "frame" => Some(StackMember::Frame),
        "prefix" => Some(StackMember::Prefix),
        "length" => Some(StackMember::Length),
        _ => None,
    }
}

impl StackTable {
    ghost use Rattle.prof_grammar.specs.Value.{no_members};
    ghost use Rattle.prof_members.specs.Gathered.{AreStackColumns};

    /// What is gathered of no member.
    pub fn none(alloc: Global) -> Self
        ensures { AreStackColumns no_members result }
    {
        StackTable {
            frame: empty_column(alloc, State::Absent),
            prefix: empty_column(alloc, State::Absent),
            length: TableLength::Unsaid,
        }
    }
}

impl FromMembers for StackTable {
    ghost use Rattle.prof_members.specs.Gathered.{AreStackColumns};

    ghost is = { λ ms t. AreStackColumns ms t };

    fn take_member<R: Source, W: Start>(
        &mut self,
        alloc: Global,
        feed: &mut Feed<R, W>,
    ) -> Result<(), GatherRefusal> {
        match stack_member(feed.name()) {
            Some(StackMember::Frame) => {
                self.frame = column(alloc, feed, Reading::Index, true, MOST_ROWS)?
            }
            Some(StackMember::Prefix) => {
                self.prefix = column(alloc, feed, Reading::MaybeIndex, true, MOST_ROWS)?
            }
            Some(StackMember::Length) => self.length = table_length(alloc, feed)?,
            None => feed.skip_member(alloc)?,
        }
        Ok(())
    }
}

/// The tables that threads may share, as they stand in a thread or in `shared`.
#[derive(Drop)]
pub struct SharedTables {
    pub strings: TextList,
    pub resources: Found<ResourceTable>,
    pub funcs: Found<FuncTable>,
    pub frames: Found<FrameTable>,
    pub stacks: Found<StackTable>,
}

/// A member that is one of these tables.
pub enum SharedMember {
    Strings,
    Resources,
    Funcs,
    Frames,
    Stacks,
}

pub fn shared_member(name: &str) -> Option<SharedMember>
    ensures some { IfSome result (λ m. name.now ≡ member_name m) }
    ensures none { IfNone result ((m : SharedMember) → same_text name.now (member_name m) ≡ false) }
{
    match name {
        "stringArray" => Some(SharedMember::Strings),
        "resourceTable" => Some(SharedMember::Resources),
        "funcTable" => Some(SharedMember::Funcs),
        "frameTable" => Some(SharedMember::Frames),
        "stackTable" => Some(SharedMember::Stacks),
        _ => None,
    }
}

impl SharedTables {
    ghost use Rattle.std.specs.Prelude.{◌≡◌, OnOk, IfErr, Some, codes, is_some};
    ghost use Rattle.prof_grammar.specs.Value.{Value, Members, snoc, last_named};
    ghost use Rattle.prof_gather.specs.Taking.{Reads};
    ghost use Rattle.prof_layout.specs.Lists.{unless_null};
    ghost use Rattle.prof_members.specs.Gathered.{AreShared};
    ghost use Rattle.prof_members.specs.Names.{member_name};
    ghost use Rattle.prof_gather.specs.Feeding.{IsWithin, Passes, Refuses, in_member};

    /// Reads the value of this member.
    pub(crate) fn take<R: Source, W: Start>(
        &mut self,
        alloc: Global,
        feed: &mut Feed<R, W>,
        member: SharedMember,
    ) -> Result<(), GatherRefusal>
        requires { IsWithin in_member feed.old }
        ensures ok { OnOk result (Passes feed.old feed.new) }
        ensures member { OnOk result ((v : Value) × Reads feed.old feed.new v × ((ms : Members) → AreShared ms self.old → AreShared (snoc ms (member_name member) v) self.new)) }
        ensures err { IfErr result (λ r. Refuses r feed.new) }
    {
        match member {
            SharedMember::Strings => self.strings = text_list(alloc, feed)?,
            SharedMember::Resources => self.resources = object(
                alloc,
                feed,
                ResourceTable::none(alloc),
            )?,
            SharedMember::Funcs => self.funcs = object(alloc, feed, FuncTable::none(alloc))?,
            SharedMember::Frames => self.frames = object(alloc, feed, FrameTable::none(alloc))?,
            SharedMember::Stacks => self.stacks = object(alloc, feed, StackTable::none(alloc))?,
        }
        Ok(())
    }

    /// Whether the stack table is there, whatever it is.
    pub fn has_stacks(&self) -> bool
        ensures { (ms : Members) → AreShared ms self.now → result ≡ is_some (unless_null (last_named (codes "stackTable") ms)) }
    {
        match self.stacks {
            Found::Absent | Found::Null => false,
            Found::Other | Found::Object(_) => true,
        }
    }
}

impl SharedTables {
    ghost use Rattle.prof_grammar.specs.Value.{no_members};
    ghost use Rattle.prof_members.specs.Gathered.{AreShared};

    /// What is gathered of no member.
    pub fn none(alloc: Global) -> Self
        ensures { AreShared no_members result }
    {
        SharedTables {
            strings: TextList::absent(alloc),
            resources: Found::Absent,
            funcs: Found::Absent,
            frames: Found::Absent,
            stacks: Found::Absent,
        }
    }
}

impl FromMembers for SharedTables {
    ghost use Rattle.prof_members.specs.Gathered.{AreShared};

    ghost is = { λ ms t. AreShared ms t };

    fn take_member<R: Source, W: Start>(
        &mut self,
        alloc: Global,
        feed: &mut Feed<R, W>,
    ) -> Result<(), GatherRefusal> {
        match shared_member(feed.name()) {
            Some(member) => self.take(alloc, feed, member)?,
            None => feed.skip_member(alloc)?,
        }
        Ok(())
    }
}
