// The lines of a summary, put together before they are written.
ghost use Rattle.std.specs.Prelude.{◌≡◌};
ghost use Rattle.prof_desk.specs.Lines.{thread_head};

use arrayvec::ArrayString;
use prof_page::{Line, push_number};

#[tactic(auto, unfolding(crate::specs::Lines::thread_head))]
/// What stands before a thread's name.
pub fn thread_head(number: usize, funcs: u32, stacks: u32, samples: u32, markers: usize) -> Line
    ensures { result.bytes ≡ thread_head number funcs stacks samples markers }
{
    let mut line = ArrayString::new();
    line.push_str("thread ");
    push_number(&mut line, number, " functions ");
    push_number(&mut line, funcs, " stacks ");
    push_number(&mut line, stacks, " samples ");
    push_number(&mut line, samples, " markers ");
    push_number(&mut line, markers, " ");
    line
}
