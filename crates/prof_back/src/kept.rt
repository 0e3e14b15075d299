//! Each profile in memory keeps what the laws ask of one. The calls look at its texts and its ranges, and do nothing else.
ghost use Rattle.std.specs.Prelude.{◌<◌, ◌^◌, IfSome, All, IsUtf8, option_copied};
ghost use Rattle.prof_back.specs.Texts.{IsKept, IsThread};
ghost use Rattle.prof_tables.specs.declared.markers.RawMarker.{RawMarker};

use prof_io::Text;
use prof_raw::Strings;
use prof_tables::{Profile, RawMarker, Thread};

/// A text is UTF-8.
fn is_utf8(text: &str)
    ensures { IsUtf8 text.now }
{}

/// A text is UTF-8, where there is one.
fn is_utf8_or_none(text: Option<&str>)
    ensures { IfSome (option_copied text.entry) IsUtf8 }
{
    if let Some(text) = text {
        is_utf8(text);
    }
}

fn are_utf8(texts: &[Text])
    ensures { All IsUtf8 texts.now }
{
    for text in texts {
        is_utf8(text.as_str());
    }
}

fn strings_are_utf8(strings: &Strings)
    ensures { All IsUtf8 strings.now }
{
    for place in 0..strings.count() {
        is_utf8_or_none(strings.get(place));
    }
}

/// A number of 32 bits.
fn is_short(number: u32)
    ensures { number < 2 ^ 32 }
{}

fn are_ranges(rows: &[RawMarker])
    ensures { All (λ (m : RawMarker). m.texts.1 < 2 ^ 32) rows.now }
{
    for row in rows {
        is_short(row.texts.1);
    }
}

fn thread_is_kept(thread: &Thread)
    ensures { IsThread thread.now }
{
    thread.keeps();
    is_utf8(thread.name());
    strings_are_utf8(thread.strings());
    let markers = thread.markers();
    are_utf8(&markers.texts);
    are_ranges(&markers.rows);
}

/// What each profile in memory keeps.
pub fn is_kept(profile: &Profile)
    ensures { IsKept profile.now }
{
    profile.keeps();
    are_utf8(&profile.categories);
    for thread in &profile.threads {
        thread_is_kept(thread);
    }
}
