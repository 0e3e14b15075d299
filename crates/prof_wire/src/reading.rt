// Heads and bodies read into pages.
ghost use Rattle.std.specs.Prelude.{◌≡◌, ◌≢◌, ◌≤◌, ◌<◌, length, take, Ok, Err, OnErr, OnOk};
ghost use Rattle.prof_io.specs.Causes.{HasCause, Rose};
ghost use Rattle.prof_wire.specs.Reading.{Found, ReadsOn, ReadsHead, ReadsBody};

use crate::messages::{Why, WireEnd};
use httparse::Status;
use httparse::spans::{HeaderSpan, RequestSpans, parse_request};
use prof_io::{Failed, Hall};

/// What some bytes begin with.
#[derive(Clone, Copy)]
pub(crate) enum HeadFound {
    /// A head, and where its parts are.
    Whole(RequestSpans),
    /// A part of a head, as far as the parser can tell.
    Partial,
    /// No head, whatever follows.
    Broken,
}

/// What the bytes begin with, with room for 100 fields.
pub(crate) fn find_head(bytes: &[u8], fields: &mut [HeaderSpan]) -> HeadFound
    requires { length fields.old ≡ 100 }
    ensures { Found bytes.now fields.new result }
{
    if bytes.is_empty() {
        return HeadFound::Partial;
    }
    match parse_request(bytes, fields) {
        Ok(Status::Complete(head)) => HeadFound::Whole(head),
        Ok(Status::Partial) => HeadFound::Partial,
        Err(_) => HeadFound::Broken,
    }
}

/// How far a page is filled now, and whether the connection's bytes end there.
#[derive(Clone, Copy)]
pub(crate) struct Filled {
    pub end: usize,
    pub ended: bool,
}

// Whether a byte is no part of an empty line.
fn is_text(byte: u8) -> bool {
    byte != b'\r' && byte != b'\n'
}

// Whether the bytes end a line that isn't empty, where something of it may stand in front of them.
//
// A head ends with a line, and empty lines before it make none.
fn may_end_head(piece: &[u8], begun: bool) -> bool {
    begun && piece.contains(&b'\n')
}

/// Reads on until a head may have ended in what was read, the page is full or the connection's bytes
/// end.
pub(crate) fn read_on<H: Hall>(
    page: &mut [u8],
    filled: usize,
    hall: &mut H,
) -> Result<Filled, Failed>
    requires size { length page.old ≡ 65536 }
    requires filled { filled < 65536 }
    ensures reads { ReadsOn (take filled page.old) (H.left hall.old) result
        page.new (H.left hall.new) }
    ensures written { H.written hall.new ≡ H.written hall.old }
    ensures place { H.place hall.new ≡ H.place hall.old }
    ensures room { H.room hall.new ≡ H.room hall.old }
    ensures cause { HasCause (H.faults hall.old) (H.faults hall.new) result }
    ensures sure { H.sure hall.old → OnErr result ⊥ × H.sure hall.new }
{
    let mut end = filled;
    let mut begun = page[..end].iter().any(|byte| is_text(*byte));
    'fill: while end < page.len() {
        let count = hall.read(&mut page[end..])?;
        if count == 0 {
            return Ok(Filled { end, ended: true });
        }
        let piece = &page[end..end + count];
        begun = begun || piece.iter().any(|byte| is_text(*byte));
        end += count;
        if may_end_head(piece, begun) {
            return Ok(Filled { end, ended: false });
        }
    }
    Ok(Filled { end, ended: false })
}

/// Reads on until the page begins with a head, and says where its parts are and how far the page is
/// filled.
pub(crate) fn read_head<H: Hall>(
    page: &mut [u8],
    filled: usize,
    fields: &mut [HeaderSpan],
    hall: &mut H,
) -> Result<(RequestSpans, usize), WireEnd>
    requires size { length page.old ≡ 65536 }
    requires filled { filled ≤ 65536 }
    requires fields { length fields.old ≡ 100 }
    ensures reads { ReadsHead (take filled page.old) (H.left hall.old) result
        page.new fields.new (H.left hall.new) }
    ensures written { H.written hall.new ≡ H.written hall.old }
    ensures place { H.place hall.new ≡ H.place hall.old }
    ensures room { H.room hall.new ≡ H.room hall.old }
    ensures failed { result ≡ Err WireEnd.HallFault → Rose (H.faults hall.old) (H.faults hall.new) }
    ensures kept { result ≢ Err WireEnd.HallFault → H.faults hall.new ≡ H.faults hall.old }
    ensures later { H.faults hall.old ≤ H.faults hall.new }
    ensures sure { H.sure hall.old → (result ≢ Err WireEnd.HallFault) × H.sure hall.new }
{
    let mut at = Filled {
        end: filled,
        ended: false,
    };
    'more: loop {
        match find_head(&page[..at.end], fields) {
            HeadFound::Whole(head) => return Ok((head, at.end)),
            HeadFound::Broken => return Err(WireEnd::Bad(Why::Head)),
            HeadFound::Partial => {}
        }
        if at.ended {
            return Err(if at.end == 0 {
                WireEnd::End
            } else {
                WireEnd::Bad(Why::Cut)
            });
        }
        if at.end == page.len() {
            return Err(WireEnd::HeadTooLong);
        }
        match read_on(page, at.end, hall) {
            Ok(filled) => at = filled,
            Err(_) => return Err(WireEnd::HallFault),
        }
    }
}

/// Fills the body, of which the front is there, and says whether the bytes sufficed.
pub(crate) fn read_body<H: Hall>(body: &mut [u8], had: usize, hall: &mut H) -> Result<bool, Failed>
    requires { had ≤ length body.old }
    ensures reads { ReadsBody (take had body.old) (H.left hall.old) result body.new (H.left hall.new) }
    ensures written { H.written hall.new ≡ H.written hall.old }
    ensures place { H.place hall.new ≡ H.place hall.old }
    ensures room { H.room hall.new ≡ H.room hall.old }
    ensures cause { HasCause (H.faults hall.old) (H.faults hall.new) result }
    ensures sure { H.sure hall.old → OnErr result ⊥ × H.sure hall.new }
{
    let mut at = had;
    'fill: while at < body.len() {
        let count = hall.read(&mut body[at..])?;
        if count == 0 {
            return Ok(false);
        }
        at += count;
    }
    Ok(true)
}
