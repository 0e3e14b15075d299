// The lines that give bytes.
use anyhow::{Result, bail};
use std::alloc::Global;
use std::fs;

/// How a line gives bytes.
#[derive(Clone, Copy)]
pub enum Mark {
    /// Its text, and LF.
    Line,
    /// Its text, and CR LF.
    HeadLine,
    /// Its text alone.
    Text,
    /// A text, so many times, each perhaps with LF.
    Repeated { ended: bool },
    /// A text, once for each number of a range, each perhaps with LF.
    Numbered { ended: bool },
    /// The bytes with these hexadecimal digits.
    Hex,
    /// Those of a file that lies beside, or so many of them from the front.
    Beside,
    /// A text that stands once in the bytes above becomes another.
    Instead,
}

/// What a line that begins with this word gives, if it gives bytes.
pub fn mark_of(word: &str) -> Option<Mark> {
    Some(match word {
        "|" => Mark::Line,
        "~" => Mark::HeadLine,
        ">" => Mark::Text,
        "*" => Mark::Repeated { ended: false },
        "*|" => Mark::Repeated { ended: true },
        "%" => Mark::Numbered { ended: false },
        "%|" => Mark::Numbered { ended: true },
        "x" => Mark::Hex,
        "@" => Mark::Beside,
        "=" => Mark::Instead,
        _ => return None,
    })
}

/// Puts the bytes of hexadecimal digits behind, blanks between them left out.
fn push_hex(bytes: &mut Vec<u8>, text: &str) -> Result<()> {
    for word in text.split(' ') {
        if !word.is_empty() {
            bytes.push(u8::from_str_radix(word, 16)?)?;
        }
    }
    Ok(())
}

/// What stands behind each piece.
fn end_of(ended: bool) -> &'static [u8] {
    if ended { b"\n" } else { b"" }
}

/// Puts a text behind, so many times, as `COUNT TEXT` says.
fn push_repeated(bytes: &mut Vec<u8>, text: &str, end: &[u8]) -> Result<()> {
    let Some((count, piece)) = text.split_once(' ') else {
        bail!("what is repeated is COUNT TEXT");
    };
    for _ in 0..count.parse::<u32>()? {
        bytes.extend_from_slice(piece.as_bytes())?;
        bytes.extend_from_slice(end)?;
    }
    Ok(())
}

/// Puts a text behind, with a number in place of each `%`.
fn push_number(alloc: Global, bytes: &mut Vec<u8>, piece: &str, number: u64) -> Result<()> {
    let number = format!(in alloc; "{number}")?;
    for (place, part) in piece.split('%').enumerate() {
        if place > 0 {
            bytes.extend_from_slice(number.as_str().as_bytes())?;
        }
        bytes.extend_from_slice(part.as_bytes())?;
    }
    Ok(())
}

/// Puts a text behind for each number of a range, as `FIRST LAST TEXT` says.
fn push_numbered(alloc: Global, bytes: &mut Vec<u8>, text: &str, end: &[u8]) -> Result<()> {
    let Some((first, rest)) = text.split_once(' ') else {
        bail!("what is numbered is FIRST LAST TEXT");
    };
    let Some((last, piece)) = rest.split_once(' ') else {
        bail!("what is numbered is FIRST LAST TEXT");
    };
    let first = first.parse::<u32>()? as u64;
    let last = last.parse::<u32>()? as u64;
    for number in first..=last {
        push_number(alloc, bytes, piece, number)?;
        bytes.extend_from_slice(end)?;
    }
    Ok(())
}

/// Puts the bytes of a file behind, or so many of them from the front.
fn push_beside(rt: &HostRuntime, bytes: &mut Vec<u8>, text: &str) -> Result<()> {
    let Some((name, count)) = text.split_once(' ') else {
        bytes.extend_from_slice(fs::read(rt, text)?.as_slice())?;
        return Ok(());
    };
    let mut front = fs::read(rt, name)?;
    let count = count.parse::<usize>()?;
    if front.len() < count {
        bail!("{name} is shorter than {count} bytes");
    }
    front.truncate(count);
    bytes.extend_from_slice(front.as_slice())?;
    Ok(())
}

/// The bytes with one text in place of another, as `OLD => NEW` says.
fn with_instead(rt: &HostRuntime, bytes: &[u8], text: &str) -> Result<Vec<u8>> {
    let Some((old, new)) = text.split_once(" => ") else {
        bail!("what stands instead is OLD => NEW");
    };
    let whole = str::from_utf8(bytes)?;
    let Some((before, behind)) = whole.split_once(old) else {
        bail!("{old} doesn't stand above");
    };
    if behind.contains(old) {
        bail!("{old} stands above more than once");
    }
    let mut changed = before.as_bytes().to_vec(rt.alloc())?;
    changed.extend_from_slice(new.as_bytes())?;
    changed.extend_from_slice(behind.as_bytes())?;
    Ok(changed)
}

/// Does to the bytes of a block what a line with a mark says.
pub fn take_mark(rt: &HostRuntime, mark: Mark, text: &str, bytes: &mut Vec<u8>) -> Result<()> {
    match mark {
        Mark::Line => {
            bytes.extend_from_slice(text.as_bytes())?;
            bytes.push(b'\n')?;
        }
        Mark::HeadLine => {
            bytes.extend_from_slice(text.as_bytes())?;
            bytes.extend_from_slice(b"\r\n")?;
        }
        Mark::Text => bytes.extend_from_slice(text.as_bytes())?,
        Mark::Repeated { ended } => push_repeated(bytes, text, end_of(ended))?,
        Mark::Numbered { ended } => push_numbered(rt.alloc(), bytes, text, end_of(ended))?,
        Mark::Hex => push_hex(bytes, text)?,
        Mark::Beside => push_beside(rt, bytes, text)?,
        Mark::Instead => *bytes = with_instead(rt, bytes.as_slice(), text)?,
    }
    Ok(())
}
