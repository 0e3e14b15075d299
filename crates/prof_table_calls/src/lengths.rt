//! Texts with many blanks, which no memory holds.
use prof_io::{Counted, Failed, Source};
use prof_json::{Event, JsonFault, Reader};
use prof_read::{ReadRefusal, read_profile};
use std::test::Fail;

/// The longest text of a profile.
const LONGEST: u64 = 268_435_456;

/// A front, and so many blanks behind it.
#[derive(Drop)]
struct Padded {
    front: &'static [u8],
    blanks: u64,
}

impl Counted for Padded {
    ghost faults = { λ _. 0 };
}

impl Source for Padded {
    fn read(&mut self, buf: &mut [u8]) -> Result<usize, Failed> {
        if !self.front.is_empty() {
            let count = buf.len().min(self.front.len());
            buf[..count].copy_from_slice(&self.front[..count]);
            self.front = &self.front[count..];
            return Ok(count);
        }
        let count = self.blanks.min(buf.len() as u64);
        buf[..count as usize].fill(b' ');
        self.blanks -= count;
        Ok(count as usize)
    }
}

#[test]
fn no_longer_text_is_accepted(rt: HostRuntime) -> Result<(), Fail> {
    let front = b"{\"meta\":{\"preprocessedProfileVersion\":47},\"threads\":[]}";
    let blanks = LONGEST - front.len() as u64;
    let mut longest = Padded { front, blanks };
    assert!(rt; read_profile(rt.alloc(), &mut longest).is_ok());
    let mut longer = Padded {
        front,
        blanks: blanks + 1,
    };
    match read_profile(rt.alloc(), &mut longer) {
        Err(ReadRefusal::Json(fault)) => assert_eq!(rt; fault, JsonFault::TooLong),
        _ => return Err("a longer text is accepted".into()),
    }
    Ok(())
}

#[test]
fn blanks_behind_a_bracket_stay_unread(rt: HostRuntime) -> Result<(), Fail> {
    let mut src = Padded {
        front: b"[",
        blanks: 1_000_000,
    };
    let mut reader = Reader::new(rt.alloc(), 2_000_000)?;
    assert_eq!(rt; reader.next(rt.alloc(), &mut src), Ok(Event::ArrayStart));
    assert!(rt; src.blanks >= 1_000_000 - 65_536);
    Ok(())
}
