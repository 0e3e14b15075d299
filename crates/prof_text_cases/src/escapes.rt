// The texts of cases, in which some bytes are escaped.
use anyhow::{Result, bail};

/// Puts the byte of an escape behind, and gives what stands behind it.
fn push_escape<'t>(bytes: &mut Vec<u8>, text: &'t str) -> Result<&'t str> {
    if let Some(rest) = text.strip_prefix('n') {
        bytes.push(b'\n')?;
        return Ok(rest);
    }
    if let Some(rest) = text.strip_prefix('r') {
        bytes.push(b'\r')?;
        return Ok(rest);
    }
    let Some(digits) = text.strip_prefix('x') else {
        bail!("no such escape");
    };
    let (Some(byte), Some(rest)) = (digits.get(..2), digits.get(2..)) else {
        bail!("a byte has two digits");
    };
    bytes.push(u8::from_str_radix(byte, 16)?)?;
    Ok(rest)
}

/// Puts the bytes of a text without repeated parts behind: `\n` and `\r` stand for LF and CR, `\xHH` for a byte.
fn push_plain(bytes: &mut Vec<u8>, text: &str) -> Result<()> {
    for (place, part) in text.split('\\').enumerate() {
        let plain = if place > 0 {
            push_escape(bytes, part)?
        } else {
            part
        };
        bytes.extend_from_slice(plain.as_bytes())?;
    }
    Ok(())
}

/// Puts a part behind so many times, as `COUNT PART}` says, and gives what stands behind that.
fn push_repeated<'t>(bytes: &mut Vec<u8>, text: &'t str) -> Result<&'t str> {
    let Some((repeated, rest)) = text.split_once('}') else {
        bail!("a part that is repeated ends with a brace");
    };
    let Some((count, part)) = repeated.split_once(' ') else {
        bail!("what is repeated is COUNT PART");
    };
    for _ in 0..count.parse::<u32>()? {
        push_plain(bytes, part)?;
    }
    Ok(rest)
}

/// Puts a text behind, in which `{COUNT PART}` stands for PART, so many times.
pub fn push_text(bytes: &mut Vec<u8>, text: &str) -> Result<()> {
    for (place, part) in text.split('{').enumerate() {
        let plain = if place > 0 {
            push_repeated(bytes, part)?
        } else {
            part
        };
        push_plain(bytes, plain)?;
    }
    Ok(())
}
