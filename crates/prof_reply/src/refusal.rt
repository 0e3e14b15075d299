//! The texts of refusals.
ghost use Rattle.std.specs.Prelude.{◌≡◌, ◌≤◌, ◌++◌, codes, length};
ghost use Rattle.hex.specs.Hex.{encode_lower};
ghost use Rattle.prof_reply.specs.Lines.{line};
ghost use Rattle.prof_reply.specs.Refusals.{digests_text, number_of, number_text, refusal_name, refusal_text};
ghost use Rattle.prof_io.specs.Outside.{seen};
ghost use Rattle.prof_io.specs.Sinks.{Wrote};

use arrayvec::ArrayString;
use hex::encode_to_slice;
use prof_io::{Digest, OutFault, Sink, copy_out};
use prof_machine::Refusal;
use prof_page::{Line, push_number};

/// A refusal's number and name.
fn refusal_name(refusal: &Refusal) -> &'static str
    ensures name { result.now ≡ refusal_name refusal.now }
    ensures short { length result.now ≤ 21 }
{
    match refusal {
        Refusal::NoSession => "S1 NoSession",
        Refusal::NameTaken => "S2 NameTaken",
        Refusal::NoProfile => "S3 NoProfile",
        Refusal::NoThread { .. } => "S4 NoThread",
        Refusal::Stale { .. } => "S5 Stale",
        Refusal::FuncOut { .. } => "S6 FuncOut",
        Refusal::ResourceOut { .. } => "S7 ResourceOut",
        Refusal::CategoryOut { .. } => "S8 CategoryOut",
        Refusal::EmptyPath => "S9 EmptyPath",
        Refusal::LongPath { .. } => "S10 LongPath",
        Refusal::TooManyTransforms => "S11 TooManyTransforms",
        Refusal::BadRange => "S12 BadRange",
        Refusal::TooManyRanges => "S13 TooManyRanges",
        Refusal::DepthOut { .. } => "S14 DepthOut",
        Refusal::NothingToUndo => "S15 NothingToUndo",
        Refusal::NothingToRedo => "S16 NothingToRedo",
        Refusal::BadAddress { .. } => "S17 BadAddress",
        Refusal::TooManySessions => "S18 TooManySessions",
        Refusal::NotSaved => "S19 NotSaved",
        Refusal::BadSaved { .. } => "S20 BadSaved",
        Refusal::OtherProfile { .. } => "S21 OtherProfile",
        Refusal::TooManyNodes { .. } => "S22 TooManyNodes",
        Refusal::LongSearch => "S23 LongSearch",
        Refusal::VersionEnd => "S24 VersionEnd",
        Refusal::KeeperFault => "S25 KeeperFault",
        Refusal::BadText { .. } => "S26 BadText",
    }
}

/// The number that a refusal's text gives.
fn number_of(refusal: &Refusal) -> Option<u64>
    ensures { result ≡ number_of refusal.now }
{
    match refusal {
        Refusal::NoThread { threads } => Some(u64::from(*threads)),
        Refusal::Stale { version } => Some(u64::from(*version)),
        Refusal::FuncOut { func } => Some(u64::from(*func)),
        Refusal::ResourceOut { resource } => Some(u64::from(*resource)),
        Refusal::CategoryOut { category } => Some(u64::from(*category)),
        Refusal::LongPath { length } => Some(*length),
        Refusal::DepthOut { depth } => Some(u64::from(*depth)),
        Refusal::BadAddress { at } => Some(*at),
        Refusal::BadSaved { at } => Some(*at),
        Refusal::TooManyNodes { limit } => Some(*limit),
        Refusal::BadText { at } => Some(*at),
        _ => None,
    }
}

/// A refusal's name, and its number where it has one.
fn refusal_head(refusal: &Refusal) -> Line
    ensures { result.bytes
        ≡ codes "refused " ++ refusal_name refusal.now ++ number_text (number_of refusal.now) }
{
    let mut line = ArrayString::new();
    line.push_str("refused ");
    line.push_str(refusal_name(refusal));
    if let Some(number) = number_of(refusal) {
        line.push_str(" ");
        push_number(&mut line, number, "");
    }
    line
}

fn digits_of(digest: &Digest) -> [u8; 64]
    ensures { result ≡ encode_lower digest.now }
{
    let mut digits = [0; 64];
    let _written = encode_to_slice(digest.as_slice(), &mut digits);
    digits
}

/// Writes a digest behind a space.
fn write_digest<S: Sink>(out: &mut S, digest: &Digest) -> Result<(), OutFault>
    ensures { Wrote (seen S.Counted out.old) (seen S.Counted out.new) result (codes " " ++ encode_lower digest.now) }
{
    copy_out(out, b" ")?;
    copy_out(out, &digits_of(digest))
}

/// Writes two digests, each behind a space.
fn write_both<S: Sink>(out: &mut S, kept: &Digest, here: &Digest) -> Result<(), OutFault>
    ensures { Wrote (seen S.Counted out.old) (seen S.Counted out.new) result
        (codes " " ++ encode_lower kept.now ++ (codes " " ++ encode_lower here.now)) }
{
    write_digest(out, kept)?;
    write_digest(out, here)
}

/// Writes the digests of a refusal, where it has some.
fn write_digests<S: Sink>(out: &mut S, refusal: &Refusal) -> Result<(), OutFault>
    ensures { Wrote (seen S.Counted out.old) (seen S.Counted out.new) result (digests_text refusal.now) }
{
    match refusal {
        Refusal::OtherProfile { kept, here } => write_both(out, kept, here),
        _ => Ok(()),
    }
}

/// Writes a refusal.
pub fn write_refusal<S: Sink>(out: &mut S, refusal: &Refusal) -> Result<(), OutFault>
    ensures { Wrote (seen S.Counted out.old) (seen S.Counted out.new) result (line (refusal_text refusal.now)) }
{
    copy_out(out, refusal_head(refusal).as_str().as_bytes())?;
    write_digests(out, refusal)?;
    copy_out(out, b"\n")
}
