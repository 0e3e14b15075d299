//! The threads of Gecko profiles.
ghost use Rattle.std.specs.Prelude.{◌≡◌, [], Option, IfOk, IfSome, IfNone, false, unwrap_or, string_bytes};
ghost use Rattle.std.specs.Option.{option_map};
ghost use Rattle.prof_grammar.specs.Value.{Value, Members, same_text};
ghost use Rattle.prof_processes.specs.Named.{thread_name};
ghost use Rattle.prof_processes.specs.Threads.{kept_cells, AreThread};

use crate::held::{HeldTable, row_table, sample_rows};
use crate::tables::{MarkerParts, frame_table, marker_parts, sample_table, stack_table};
use prof_column::{TextList, text, text_list};
use prof_gather::{Feed, FromMembers, GatherRefusal, Start};
use prof_gecko::{GeckoTable, GeckoThread};
use prof_io::{NoMemory, Source, Text};
use prof_raw::{MOST_ROWS, MOST_SAMPLES, Strings};
use std::alloc::Global;
use std::rc::Rc;

/// What is gathered of a thread's members.
#[derive(Drop)]
pub struct ThreadMembers {
    pub name: Option<String>,
    pub strings: TextList,
    pub frame: GeckoTable,
    pub stack: GeckoTable,
    pub samples: GeckoTable,
    pub markers: MarkerParts,
}

enum ThreadMember {
    Name,
    Strings,
    Frames,
    Stacks,
    Samples,
    Markers,
}

fn thread_member(name: &str) -> Option<ThreadMember>
    ensures some { IfSome result (λ m. name.now ≡ thread_name m) }
    ensures none { IfNone result ((m : ThreadMember) → same_text name.now (thread_name m) ≡ false) }
{
    match name {
        "name" => Some(ThreadMember::Name),
        "stringTable" => Some(ThreadMember::Strings),
        "frameTable" => Some(ThreadMember::Frames),
        "stackTable" => Some(ThreadMember::Stacks),
        "samples" => Some(ThreadMember::Samples),
        "markers" => Some(ThreadMember::Markers),
        _ => None,
    }
}

impl ThreadMembers {
    ghost use Rattle.prof_grammar.specs.Value.{no_members};

    /// What is gathered of no member.
    pub fn none(alloc: Global) -> Result<Self, NoMemory>
        ensures { IfOk result (λ t. AreThread no_members t) }
    {
        let rows = HeldTable::absent(alloc, MOST_ROWS);
        let samples = HeldTable::absent(alloc, MOST_SAMPLES);
        Ok(ThreadMembers {
            name: None,
            strings: TextList::absent(alloc),
            frame: frame_table(alloc, &rows)?,
            stack: stack_table(alloc, &rows)?,
            samples: sample_table(alloc, &samples)?,
            markers: marker_parts(alloc, &rows)?,
        })
    }

    /// The thread that has these members.
    pub fn thread(self, alloc: Global) -> Result<GeckoThread, NoMemory>
        ensures { IfOk result (λ t. (ms : Members) → AreThread ms self
            → t ≡ kept_cells (Value.object ms)) }
    {
        let name = name_text(alloc, self.name)?;
        let string_fault = self.strings.fault();
        let strings = Strings::of(alloc, self.strings.texts)?;
        let MarkerParts {
            table: markers,
            there: has_markers,
            texts: marker_texts,
            ranges: marker_ranges,
        } = self.markers;
        Ok(GeckoThread {
            name,
            strings: Rc::new(alloc, strings)?,
            string_fault,
            frame: self.frame,
            stack: self.stack,
            samples: self.samples,
            markers,
            has_markers,
            marker_texts,
            marker_ranges,
        })
    }
}

/// A name, which is empty where it is no string.
fn name_text(alloc: Global, name: Option<String>) -> Result<Text, NoMemory>
    ensures { IfOk result (λ text. text ≡ unwrap_or (option_map string_bytes name) []) }
{
    let mut text = Text::new(alloc);
    if let Some(name) = name {
        text.push_str(name.as_str())?;
    }
    Ok(text)
}

impl FromMembers for ThreadMembers {
    ghost use Rattle.prof_processes.specs.Threads.{AreThread};

    ghost is = { λ ms t. AreThread ms t };

    fn take_member<R: Source, W: Start>(
        &mut self,
        alloc: Global,
        feed: &mut Feed<R, W>,
    ) -> Result<(), GatherRefusal> {
        match thread_member(feed.name()) {
            Some(ThreadMember::Name) => self.name = text(alloc, feed)?,
            Some(ThreadMember::Strings) => self.strings = text_list(alloc, feed)?,
            Some(ThreadMember::Frames) => {
                let held = row_table(alloc, feed)?;
                self.frame = frame_table(alloc, &held)?;
            }
            Some(ThreadMember::Stacks) => {
                let held = row_table(alloc, feed)?;
                self.stack = stack_table(alloc, &held)?;
            }
            Some(ThreadMember::Samples) => {
                let held = sample_rows(alloc, feed)?;
                self.samples = sample_table(alloc, &held)?;
            }
            Some(ThreadMember::Markers) => {
                let held = row_table(alloc, feed)?;
                self.markers = marker_parts(alloc, &held)?;
            }
            None => feed.skip_member(alloc)?,
        }
        Ok(())
    }
}
