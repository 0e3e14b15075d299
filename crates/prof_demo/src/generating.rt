//! The text of the profile that is made.
ghost use Rattle.std.specs.Prelude.{◌++◌, codes};
ghost use Rattle.std.specs.List.{join_with_byte};
ghost use Rattle.prof_demo.specs.Generated.{frames, generated, prefixes, samples_text, stacks, stacks_text, times};
ghost use Rattle.prof_io.specs.Outside.{seen};
ghost use Rattle.prof_io.specs.Sinks.{Wrote};
ghost use Rattle.prof_page.specs.Gathering.{Gathers};

use crate::columns::{Frames, Prefixes, SampleStacks, Times};
use prof_io::{OutFault, Sink};
use prof_page::{Page, add_column, add_text, write_page};

/// What stands before the first column.
pub const HEAD: &str =
    "{\"meta\":{\"preprocessedProfileVersion\":0},\"libs\":[],\"threads\":[{\"name\":\"gen\",\"stringArray\":[\"f0\",\"f1\",\"f2\",\"f3\",\"f4\",\"f5\",\"f6\",\"f7\"],\"funcTable\":{\"name\":[0,1,2,3,4,5,6,7]},\"frameTable\":{\"func\":[0,1,2,3,4,5,6,7]},\"stackTable\":{\"frame\":[";

/// Adds the stack rows, and what stands before them.
fn add_stacks<S: Sink>(out: &mut S, page: &mut Page) -> Result<(), OutFault>
    ensures { Gathers (seen S.Counted out.old) (seen S.Counted out.new) result
        page.old.bytes stacks_text page.new.bytes }
{
    add_text(out, page, HEAD)?;
    add_column(out, page, &Frames)?;
    add_text(out, page, "],\"prefix\":[")?;
    add_column(out, page, &Prefixes)
}

/// Adds the samples, and what stands around them.
fn add_samples<S: Sink>(out: &mut S, page: &mut Page, number: u32) -> Result<(), OutFault>
    ensures { Gathers (seen S.Counted out.old) (seen S.Counted out.new) result
        page.old.bytes (samples_text number) page.new.bytes }
{
    add_text(out, page, "]},\"samples\":{\"stack\":[")?;
    add_column(out, page, &SampleStacks { number })?;
    add_text(out, page, "],\"time\":[")?;
    add_column(out, page, &Times)?;
    add_text(out, page, "]}}]}")
}

/// Writes the text of the profile that the number makes, in pages. It takes no memory.
pub fn generate<S: Sink>(number: u32, out: &mut S) -> Result<(), OutFault>
    ensures { Wrote (seen S.Counted out.old) (seen S.Counted out.new) result (generated number) }
{
    let mut page = Page::new();
    add_stacks(out, &mut page)?;
    add_samples(out, &mut page, number)?;
    write_page(out, &mut page)
}
