//! Texts read as JSON, event by event.
ghost use Rattle.std.specs.Prelude.{IfOk};
ghost use Rattle.prof_json.specs.Position.{IsLast};

use prof_io::Source;
use prof_json::{Event, JsonFault, Reader};
use prof_memory::MemSource;
use std::alloc::Global;
use std::process::Abort;
use std::test::Fail;

/// Appends an event, as a word.
fn write_event(out: &mut String, reader: &Reader, event: Event) -> Result<(), Fail>
    requires { IsLast event reader.now.last }
{
    match event {
        Event::ObjectStart => write!(out, "{{ ")?,
        Event::ObjectEnd => write!(out, "}} ")?,
        Event::ArrayStart => write!(out, "[ ")?,
        Event::ArrayEnd => write!(out, "] ")?,
        Event::Name => write!(out, "{}: ", reader.text())?,
        Event::Str => write!(out, "\"{}\" ", reader.text())?,
        Event::Number => {
            for digit in reader.number_text() {
                out.push(*digit as char)?;
            }
            out.push(' ')?;
        }
        Event::True => write!(out, "yes ")?,
        Event::False => write!(out, "no ")?,
        Event::Null => write!(out, "null ")?,
        Event::End => write!(out, "end")?,
    }
    Ok(())
}

/// Appends a fault, as a word.
fn write_fault(out: &mut String, fault: JsonFault) -> Result<(), Fail> {
    match fault {
        JsonFault::NotJson { at } => write!(out, "wrong {at}")?,
        JsonFault::TooDeep { at } => write!(out, "deep {at}")?,
        JsonFault::TooLong => write!(out, "long")?,
        JsonFault::ReadFault => write!(out, "unread")?,
        JsonFault::NoMemory => write!(out, "full")?,
    }
    Ok(())
}

/// Appends what a call of `next` answered.
fn write_answer(
    out: &mut String,
    reader: &Reader,
    answer: Result<Event, JsonFault>,
) -> Result<(), Fail>
    requires { IfOk answer (λ event. IsLast event reader.now.last) }
{
    match answer {
        Ok(event) => write_event(out, reader, event),
        Err(fault) => write_fault(out, fault),
    }
}

/// Reads over what the last event began.
fn skip_behind(
    alloc: Global,
    reader: &mut Reader,
    src: &mut MemSource,
    last: Event,
) -> Result<(), JsonFault>
    requires { IsLast last reader.old.last }
{
    match last {
        Event::Name => reader.skip_value(alloc, src),
        Event::ArrayStart => reader.skip_value(alloc, src),
        Event::ObjectStart => reader.skip_value(alloc, src),
        _ => Ok(()),
    }
}

/// Asks again behind the end or the fault, and tells of each answer that isn't the same.
fn ask_again(
    alloc: Global,
    reader: &mut Reader,
    src: &mut MemSource,
    answer: Result<Event, JsonFault>,
    out: &mut String,
) -> Result<(), Fail> {
    for _ in 0..3 {
        let again = reader.next(alloc, src);
        if again != answer {
            write!(out, " and then ")?;
            write_answer(out, reader, again)?;
        }
    }
    Ok(())
}

/// What the reader tells of a text that comes in pieces, up to its end or its fault, where what these events begin is
/// read over.
fn told(
    alloc: Global,
    bytes: &[u8],
    piece: usize,
    failing: Vec<u64>,
    limit: u64,
    skipped: Event,
) -> Result<String, Fail> {
    let mut src = MemSource::new(bytes.to_vec(alloc)?, piece.max(1), failing);
    let mut reader = Reader::new(alloc, limit)?;
    let mut out = String::new(alloc);
    for _ in 0..2000 {
        let answer = reader.next(alloc, &mut src);
        write_answer(&mut out, &reader, answer)?;
        if let Ok(event) = answer {
            if event == skipped && event != Event::End {
                let _skipped = skip_behind(alloc, &mut reader, &mut src, event);
            }
        }
        if matches!(&answer, Err(_) | Ok(Event::End)) {
            ask_again(alloc, &mut reader, &mut src, answer, &mut out)?;
            break;
        }
    }
    Ok(out)
}

/// A text in pieces of one byte, of seven, and whole.
fn expect(rt: &impl Abort, alloc: Global, bytes: &[u8], wanted: &str) -> Result<(), Fail> {
    for piece in [1, 7, 100_000] {
        let out = told(alloc, bytes, piece, vec![in alloc]?, 1_000_000, Event::End)?;
        assert_eq!(rt; out.as_str(), wanted);
    }
    Ok(())
}

/// Texts that are read to their end. Those that are refused are worked cases of the program.
const READ: [(&[u8], &str); 18] = [
    (
        b" [1, -2.5e+3 ,true,false,null,{\"a\" : [ ] , \"b\":{}},\"x\"]\n",
        "[ 1 -2.5e+3 yes no null { a: [ ] b: { } } \"x\" ] end",
    ),
    (b"\xEF\xBB\xBF0", "0 end"),
    (b"-0.50E-07", "-0.50E-07 end"),
    (b"[5,0,7.25,10 ,0.5]", "[ 5 0 7.25 10 0.5 ] end"),
    (b"[5,2e3,-4]", "[ 5 2e3 -4 ] end"),
    (
        b"{\"type\":\"Text\",\"count\":12,\"rate\":0.5,\"\":\"\"}",
        "{ type: \"Text\" count: 12 rate: 0.5 : \"\" } end",
    ),
    (
        b"[\"a\",\"b\\\"\",\"\",{\"c\":-1,\"d\\n\":2e1}]",
        "[ \"a\" \"b\"\" \"\" { c: -1 d\n: 2e1 } ] end",
    ),
    (
        b"\"\\\"\\\\\\/\\b\\f\\n\\r\\t\\u00e9\\u00E9\"",
        "\"\"\\/\x08\x0C\n\r\t\u{E9}\u{E9}\" end",
    ),
    (b"\"\x7F\"", "\"\x7F\" end"),
    (
        b"\"a\xC3\xA9\xE2\x82\xAC\xF0\x9D\x84\x9Eb\"",
        "\"a\u{E9}\u{20AC}\u{1D11E}b\" end",
    ),
    (b"\"\\ud834\\udd1e\"", "\"\u{1D11E}\" end"),
    (b"\"\\ud834\"", "\"\u{FFFD}\" end"),
    (b"\"\\ud834x\"", "\"\u{FFFD}x\" end"),
    (b"\"\\ud834\\n\"", "\"\u{FFFD}\n\" end"),
    (b"\"\\ud834\\u0041\"", "\"\u{FFFD}A\" end"),
    (b"\"\\ud834\xC3\xA9\"", "\"\u{FFFD}\u{E9}\" end"),
    (
        b"\"\\udd1e\\ud834\\ud834\\udd1e\\n\"",
        "\"\u{FFFD}\u{FFFD}\u{1D11E}\n\" end",
    ),
    (b"trux", "wrong 3"),
];

#[test]
fn texts_are_read(rt: HostRuntime) -> Result<(), Fail> {
    for (bytes, wanted) in READ {
        expect(&rt, rt.alloc(), bytes, wanted)?;
    }
    Ok(())
}

/// The text, the most bytes that it may have, what is read over, and what is told.
const BOUNDED: [(&[u8], u64, Event, &str); 7] = [
    (b"[1,2]", 5, Event::End, "[ 1 2 ] end"),
    (b"[1,2] ", 5, Event::End, "[ 1 2 ] long"),
    (b"[1x", 2, Event::End, "[ long"),
    (SKIPPED, 1000, Event::Name, "{ a: c: e: g: } end"),
    (
        SKIPPED,
        1000,
        Event::ArrayStart,
        "{ a: [ c: \"d\" e: { f: { } } g: 1 } end",
    ),
    (SKIPPED, 1000, Event::ObjectStart, "{ end"),
    (b"{\"a\": [1x", 1000, Event::Name, "{ a: wrong 8"),
];

const SKIPPED: &[u8] =
    b"{\"a\": [1, {\"b\": [2, \"]\"]}, []], \"c\": \"d\", \"e\": {\"f\": {}}, \"g\": 1 }";

#[test]
fn limits_are_kept_and_values_are_skipped(rt: HostRuntime) -> Result<(), Fail> {
    let alloc = rt.alloc();
    for (bytes, limit, skipped, wanted) in BOUNDED {
        for piece in [1, 7, 1000] {
            let out = told(alloc, bytes, piece, vec![in alloc]?, limit, skipped)?;
            assert_eq!(rt; out.as_str(), wanted);
        }
    }
    Ok(())
}

#[test]
fn failing_reads(rt: HostRuntime) -> Result<(), Fail> {
    let text = b"[1, \"\\u0041\xE2\x82\xAC\", true]";
    for n in 1..24 {
        let out = told(
            rt.alloc(),
            text,
            1,
            vec![in rt.alloc(); n]?,
            1_000,
            Event::End,
        )?;
        assert!(rt; out.as_str().ends_with("unread"));
    }
    Ok(())
}

/// Each token lies once across the edge of the window.
#[test]
fn tokens_pass_the_edge_of_the_window(rt: HostRuntime) -> Result<(), Fail> {
    let alloc = rt.alloc();
    for blanks in 65_505..65_538 {
        let mut text = vec![in alloc; b' '; blanks]?;
        text.extend_from_slice(b"[{\"a\":\"bc\",\"d\":12},\"ef\",34]")?;
        let out = told(alloc, &text, 100_000, vec![in alloc]?, 100_000, Event::End)?;
        assert_eq!(rt; out.as_str(), "[ { a: \"bc\" d: 12 } \"ef\" 34 ] end");
    }
    Ok(())
}

#[test]
fn keeps_to_the_window(rt: HostRuntime) -> Result<(), Fail> {
    let mut text = vec![in rt.alloc(); b' '; 1_000_002]?;
    text[0] = b'[';
    text[1] = b'x';
    let mut src = MemSource::new(text, 1_000_002, vec![in rt.alloc()]?);
    let mut reader = Reader::new(rt.alloc(), 2_000_000)?;
    assert_eq!(rt; reader.next(rt.alloc(), &mut src), Ok(Event::ArrayStart));
    assert_eq!(rt;
        reader.next(rt.alloc(), &mut src),
        Err(JsonFault::NotJson { at: 1 })
    );
    let mut rest = vec![in rt.alloc(); 0; 1_000_002]?;
    let left = src.read(&mut rest).map_err(|_| "failed")?;
    assert!(rt; left >= 934_465);
    Ok(())
}
