// How what came differs from what was to come.
use crate::case::{Extent, Wanted};
use anyhow::Result;
use std::alloc::Global;

/// The place of the first byte that differs, or none where all is as wanted.
fn place_of_difference(wanted: &Wanted, came: &[u8]) -> Option<usize> {
    let bytes = wanted.bytes.as_slice();
    for (at, (a, b)) in bytes.iter().zip(came).enumerate() {
        if a != b {
            return Some(at);
        }
    }
    let is_all = came.len() == bytes.len();
    let is_cut = came.len() < bytes.len();
    let is_wanted = match wanted.extent {
        Extent::Whole => is_all,
        Extent::Front => is_all || is_cut,
        Extent::Cut => is_cut,
    };
    if is_wanted {
        None
    } else {
        Some(came.len().min(bytes.len()))
    }
}

/// Some of the bytes from a place on, as text.
fn shown(alloc: Global, bytes: &[u8], at: usize) -> Result<String> {
    let mut some = Vec::new(alloc);
    for byte in bytes.iter().skip(at).take(120) {
        some.push(*byte)?;
    }
    Ok(String::from_utf8_lossy(alloc, some.as_slice())?)
}

/// Tells of the first difference between what was written and what was to be.
pub fn compare(alloc: Global, place: &str, wanted: &Wanted, came: &[u8]) -> Result<Option<String>> {
    let Some(at) = place_of_difference(wanted, came) else {
        return Ok(None);
    };
    let wanted = shown(alloc, wanted.bytes.as_slice(), at)?;
    let wanted = wanted.as_str();
    let came = shown(alloc, came, at)?;
    let came = came.as_str();
    Ok(Some(format!(in alloc; "{place} from byte {at} on is {came:?}, and not {wanted:?}")?))
}
