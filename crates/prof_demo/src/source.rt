//! The text of the profile that is made, to be read and never held.
ghost use Rattle.std.specs.Prelude.{◌≡◌, ◌≤◌, ◌<◌, ◌+◌, ◌++◌, [], drop, take, length, Some, ⊤};
ghost use Rattle.std.specs.Option.{ForSome};
ghost use Rattle.arrayvec.specs.ArrayString.{array_string_len};
ghost use Rattle.prof_demo.specs.Generated.{generated};
ghost use Rattle.prof_demo.specs.Rest.{rest, rows};

use crate::generating::HEAD;
use crate::part::Part;
use prof_io::{Counted, Failed, Source};
use prof_page::Page;

/// The room that a cell takes, and what stands behind it.
const LONGEST: usize = 64;

/// What is left to be made: a column from a row on, and all behind it, or nothing.
#[derive(Drop)]
struct Rest {
    number: u32,
    part: Option<Part>,
    row: u32,
    ghost there: { ForSome part (λ p. row < rows p) },
}

impl Rest {
    /// Adds the next cell to the page, and what stands behind it.
    fn add_cell(&mut self, part: Part, page: &mut Page)
        requires part { self.old.part ≡ Some part }
        requires room { array_string_len page.old + LONGEST ≤ 65536 }
        ensures text { page.new.bytes ++ rest self.new.number self.new.part self.new.row
            ≡ page.old.bytes ++ rest self.old.number self.old.part self.old.row }
        ensures more { array_string_len page.old < array_string_len page.new }
    {
        let cell = part.cell(self.number, self.row);
        page.push_str(cell.as_str());
        if self.row + 1 < part.rows() {
            page.push_str(",");
            self.row += 1;
        } else {
            page.push_str(part.closing());
            self.part = part.next();
            self.row = 0;
        }
    }

    /// Adds cells to the page, until it has no room for another or nothing is left.
    fn fill(&mut self, page: &mut Page)
        ensures text { page.new.bytes ++ rest self.new.number self.new.part self.new.row
            ≡ page.old.bytes ++ rest self.old.number self.old.part self.old.row }
        ensures end { page.new.bytes ≡ [] → rest self.new.number self.new.part self.new.row ≡ [] }
    {
        while let Some(part) = self.part {
            if page.remaining_capacity() < LONGEST {
                return;
            }
            self.add_cell(part, page);
        }
    }
}

/// A source of the text that a number makes. It holds a page of the text at a time, takes no memory, and never fails.
#[derive(Drop)]
pub struct GeneratedSource {
    rest: Rest,
    page: Page,
    at: usize,
    ghost within: { at ≤ array_string_len page },
}

impl GeneratedSource {
    /// A source of the text that the number makes.
    pub fn new(number: u32) -> GeneratedSource
        ensures left { ⟦<GeneratedSource as Counted>⟧.left result ≡ Some (generated number) }
        ensures sure { ⟦<GeneratedSource as Counted>⟧.sure result }
        ensures faults { ⟦<GeneratedSource as Counted>⟧.faults result ≡ 0 }
    {
        let mut page = Page::new();
        page.push_str(HEAD);
        GeneratedSource {
            rest: Rest {
                number,
                part: Some(Part::Frames),
                row: 0,
            },
            page,
            at: 0,
        }
    }
}

impl Counted for GeneratedSource {
    ghost faults = { λ _. 0 };

    ghost sure = { λ _. ⊤ };

    ghost left = { λ s. Some (drop s.at s.page.bytes ++ rest s.rest.number s.rest.part s.rest.row) };
}

impl Source for GeneratedSource {
    fn read(&mut self, buf: &mut [u8]) -> Result<usize, Failed> {
        if self.at >= self.page.len() {
            self.page.clear();
            self.at = 0;
            self.rest.fill(&mut self.page);
        }
        let count = give(self.page.as_str().as_bytes(), self.at, buf);
        self.at += count;
        Ok(count)
    }
}

/// Gives the bytes from a place on, as many as there is room for, and says how many.
fn give(bytes: &[u8], at: usize, buf: &mut [u8]) -> usize
    requires within { at ≤ length bytes.now }
    ensures bound { result ≤ length buf.new }
    ensures given { drop at bytes.now ≡ take result buf.new ++ drop (at + result) bytes.now }
    ensures within { at + result ≤ length bytes.now }
    ensures end { result ≡ 0 → 0 < length buf.old → length bytes.now ≤ at }
{
    let waiting = &bytes[at..];
    let count = waiting.len().min(buf.len());
    buf[..count].copy_from_slice(&waiting[..count]);
    count
}
