// The lines of a file of cases, each with the bytes that stand below it.
use crate::marks::{Mark, mark_of, take_mark};
use anyhow::{Context, Result, bail};
use std::alloc::Global;

/// A line that begins with a word, and the bytes of the lines with marks below it.
#[derive(Drop)]
pub struct Block {
    /// The line's number in its file, from 1.
    pub number: usize,
    pub word: String,
    /// The rest of the line.
    pub text: String,
    pub bytes: Vec<u8>,
}

impl Block {
    fn new(alloc: Global, number: usize, line: &str) -> Result<Block> {
        let (word, text) = line.split_once(' ').unwrap_or((line, ""));
        Ok(Block {
            number,
            word: String::from_str(alloc, word)?,
            text: String::from_str(alloc, text)?,
            bytes: Vec::new(alloc),
        })
    }
}

/// Takes a line with a mark into the last block.
fn take_line(rt: &HostRuntime, blocks: &mut Vec<Block>, mark: Mark, text: &str) -> Result<()> {
    let Some(block) = blocks.last_mut() else {
        bail!("bytes before the first line with a word");
    };
    take_mark(rt, mark, text, &mut block.bytes)
}

/// Reads the blocks of a text. A line that is empty, or that begins with `#`, is passed over.
pub fn read_blocks(rt: &HostRuntime, text: &str) -> Result<Vec<Block>> {
    let mut blocks = Vec::new(rt.alloc());
    for (at, line) in text.lines().enumerate() {
        if line.is_empty() || line.starts_with('#') {
            continue;
        }
        let number = at.saturating_add(1);
        let (word, text) = line.split_once(' ').unwrap_or((line, ""));
        match mark_of(word) {
            Some(mark) => take_line(rt, &mut blocks, mark, text).context(format_args!(
                "line {number}"
            ))?,
            None => blocks.push(Block::new(rt.alloc(), number, line)?)?,
        }
    }
    Ok(blocks)
}
