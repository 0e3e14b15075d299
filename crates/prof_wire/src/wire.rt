// The next message of a connection.
ghost use Rattle.std.specs.Prelude.{◌≡◌, ◌≢◌, ◌≤◌, [], length, take, drop, Err, IfOk};
ghost use Rattle.std.specs.Borrow.{sem};
ghost use Rattle.prof_io.specs.Causes.{Rose};
ghost use Rattle.prof_wire.specs.Lent.{LeavesNext, asked_of};
ghost use Rattle.prof_wire.specs.Taking.{Steps, Takes};

use crate::heads::{body_size, ends_after, verb};
use crate::messages::{Message, Verb, Why, WireEnd};
use crate::reading::{read_body, read_head};
use httparse::spans::{EMPTY_HEADER_SPAN, Span};
use prof_io::{Hall, NoMemory};
use std::alloc::Global;
use std::marker::Model;

const SIZE: usize = 65_536;

/// The buffers of a connection.
#[derive(Drop)]
pub struct Wire {
    page: Vec<u8>,
    body: Vec<u8>,
    // the part of the page that isn't used yet
    used: usize,
    end: usize,
    // where the target of the last message is, and the size of its body
    target: usize,
    target_end: usize,
    size: usize,
    given: u16,
}

impl Model for Wire {
    ghost use Rattle.std.specs.Prelude.{◌≤◌, ◌≡◌, take, drop, vec_len, slice_range};
    ghost use Rattle.prof_wire.specs.Waiting.{Waiting};

    ghost Value = { Waiting };

    ghost view = { λ w. record {
      ahead = drop w.used (take w.end w.page.items);
      given = w.given;
      target = slice_range (take w.end w.page.items) w.target w.target_end;
      body = take w.size w.body.items;
    } };

    ghost use Rattle.prof_wire.specs.Sound.{IsSound};

    ghost invariant = { IsSound };
}

// What was taken of the page and the body.
#[derive(Clone, Copy)]
struct Taken {
    used: usize,
    end: usize,
    target: Span,
    size: usize,
    method: Verb,
    last: bool,
}

// Takes the next message of the bytes that lie ahead in the page and are left in the hall. Its body
// is the front of `body`.
fn take_message<H: Hall>(
    page: &mut [u8],
    body: &mut [u8],
    used: usize,
    filled: usize,
    given: u16,
    hall: &mut H,
) -> Result<Taken, WireEnd>
    requires page { length page.old ≡ 65536 }
    requires body { length body.old ≡ 65536 }
    requires used { used ≤ filled }
    requires filled { filled ≤ 65536 }
    ensures takes { Takes given (drop used (take filled page.old)) (H.left hall.old) result
        page.new body.new (H.left hall.new) }
    ensures written { H.written hall.new ≡ H.written hall.old }
    ensures place { H.place hall.new ≡ H.place hall.old }
    ensures room { H.room hall.new ≡ H.room hall.old }
    ensures failed { result ≡ Err WireEnd.HallFault → Rose (H.faults hall.old) (H.faults hall.new) }
    ensures kept { result ≢ Err WireEnd.HallFault → H.faults hall.new ≡ H.faults hall.old }
    ensures later { H.faults hall.old ≤ H.faults hall.new }
    ensures sure { H.sure hall.old → (result ≢ Err WireEnd.HallFault) × H.sure hall.new }
{
    page.copy_within(used..filled, 0);
    let mut fields = [EMPTY_HEADER_SPAN; 100];
    let (head, end) = match read_head(page, filled - used, &mut fields, hall) {
        Ok(found) => found,
        Err(end) => return Err(end),
    };
    let headers = &fields[..head.headers];
    let size = match body_size(&page[..end], head.version, headers) {
        Ok(size) => size,
        Err(end) => return Err(end),
    };
    let have = size.min(end - head.len);
    body[..have].copy_from_slice(&page[head.len..head.len + have]);
    match read_body(&mut body[..size], have, hall) {
        Ok(true) => Ok(Taken {
            used: head.len + have,
            end,
            target: head.path,
            size,
            method: verb(head.method.of(&page[..end])),
            last: ends_after(&page[..end], head.version, headers, given),
        }),
        Ok(false) => Err(WireEnd::Bad(Why::Cut)),
        Err(_) => Err(WireEnd::HallFault),
    }
}

impl Wire {
    /// A wire, with its two buffers. Nothing besides takes memory.
    pub fn new(alloc: Global) -> Result<Wire, NoMemory>
        ensures { IfOk result (λ wire. (wire.ahead ≡ []) × (wire.given ≡ 0)) }
    {
        Ok(Wire {
            page: vec![in alloc; 0; SIZE]?,
            body: vec![in alloc; 0; SIZE]?,
            used: 0,
            end: 0,
            target: 0,
            target_end: 0,
            size: 0,
            given: 0,
        })
    }

    /// Empties the buffers and begins to count the messages anew, before a new connection.
    pub fn reset(&mut self)
        ensures ahead { self.new.ahead ≡ [] }
        ensures given { self.new.given ≡ 0 }
    {
        self.used = 0;
        self.end = 0;
        self.target = 0;
        self.target_end = 0;
        self.size = 0;
        self.given = 0;
    }

    // Takes the next message into the buffers.
    fn step<H: Hall>(&mut self, hall: &mut H) -> Result<(Verb, bool), WireEnd>
        ensures steps { Steps self.old (H.left hall.old) result self.new (H.left hall.new) }
        ensures written { H.written hall.new ≡ H.written hall.old }
        ensures place { H.place hall.new ≡ H.place hall.old }
        ensures room { H.room hall.new ≡ H.room hall.old }
        ensures failed { result ≡ Err WireEnd.HallFault → Rose (H.faults hall.old) (H.faults hall.new) }
        ensures kept { result ≢ Err WireEnd.HallFault → H.faults hall.new ≡ H.faults hall.old }
        ensures later { H.faults hall.old ≤ H.faults hall.new }
        ensures sure { H.sure hall.old → (result ≢ Err WireEnd.HallFault) × H.sure hall.new }
    {
        let taken = take_message(
            &mut self.page,
            &mut self.body,
            self.used,
            self.end,
            self.given,
            hall,
        )?;
        self.used = taken.used;
        self.end = taken.end;
        self.target = taken.target.start;
        self.target_end = taken.target.end;
        self.size = taken.size;
        if self.given < 1000 {
            self.given += 1;
        }
        Ok((taken.method, taken.last))
    }

    // The message that was taken last.
    fn shown(&self, method: Verb, last: bool) -> Message<'_>
        ensures { asked_of result ≡ record {
          method = method;
          target = self.now.target;
          body = self.now.body;
          last = last;
        } }
    {
        let filled = &self.page[..self.end];
        Message {
            method,
            target: &filled[self.target..self.target_end],
            body: &self.body[..self.size],
            last,
        }
    }

    /// The next message of the connection that the hall serves, or why there is none.
    ///
    /// After a refusal only `reset` is of use.
    pub fn next_message<H: Hall>(&mut self, hall: &mut H) -> Result<Message<'_>, WireEnd>
        ensures* after { sem 𝓛 (LeavesNext self.entry (H.left hall.old) result (H.left hall.new)) }
        ensures written { H.written hall.new ≡ H.written hall.old }
        ensures place { H.place hall.new ≡ H.place hall.old }
        ensures room { H.room hall.new ≡ H.room hall.old }
        ensures failed { result ≡ Err WireEnd.HallFault → Rose (H.faults hall.old) (H.faults hall.new) }
        ensures kept { result ≢ Err WireEnd.HallFault → H.faults hall.new ≡ H.faults hall.old }
        ensures later { H.faults hall.old ≤ H.faults hall.new }
        ensures sure { H.sure hall.old → (result ≢ Err WireEnd.HallFault) × H.sure hall.new }
    {
        let (method, last) = self.step(hall)?;
        let wire: &Wire = self;
        Ok(wire.shown(method, last))
    }
}
