//! The texts of saved sessions, written.
ghost use Rattle.std.specs.Prelude.{◌≡◌, ◌++◌, IfOk, OnOk};
ghost use Rattle.hex.specs.Hex.{encode_lower};
ghost use Rattle.prof_address.specs.declared.kind.Form.{Form};
ghost use Rattle.prof_spell.specs.Pieces.{EachFits};
ghost use Rattle.prof_address.specs.Views.{HasPaths};
ghost use Rattle.prof_keep.specs.Saved.{saved_text, lines_text, line_text, MayBeSaved};

use crate::head::Head;
use crate::saved::Saved;
use hex::encode;
use prof_address::{Form, push_view};
use prof_io::{NoMemory, Text};
use prof_path::View;
use prof_spell::{Word, push_number};
use std::alloc::Global;

fn push_line(text: &mut Text, view: &View) -> Result<(), NoMemory>
    requires { HasPaths view.now }
    ensures { OnOk result (text.new ≡ text.old ++ line_text view.now) }
{
    text.push_str("view ")?;
    push_view(text, view)?;
    text.push_str("\n")?;
    Ok(())
}

fn push_lines(text: &mut Text, views: &[View]) -> Result<(), NoMemory>
    requires { EachFits HasPaths views.now }
    ensures { OnOk result (text.new ≡ text.old ++ lines_text views.now) }
{
    'lines: for view in views {
        push_line(text, view)?;
    }
    Ok(())
}

fn push_digest(alloc: Global, text: &mut Text, digest: &[u8]) -> Result<(), NoMemory>
    ensures { OnOk result (text.new ≡ text.old ++ encode_lower digest.now) }
{
    let digits = encode(alloc, digest)?;
    text.push_str(digits.as_str())?;
    Ok(())
}

fn push_saved(alloc: Global, text: &mut Text, saved: &Saved) -> Result<(), NoMemory>
    requires { MayBeSaved saved.now }
    ensures { OnOk result (text.new ≡ text.old ++ saved_text Form.Second saved.now) }
{
    text.push_str(Head(Form::Second).word())?;
    push_digest(alloc, text, saved.digest.as_slice())?;
    text.push_str("\nversion ")?;
    push_number(text, saved.version as u64)?;
    text.push_str("\nplace ")?;
    push_number(text, saved.place as u64)?;
    text.push_str("\n")?;
    push_lines(text, saved.views.as_slice())?;
    Ok(())
}

/// The text of a saved session, of the second form.
pub fn write_saved(alloc: Global, saved: &Saved) -> Result<Text, NoMemory>
    requires { MayBeSaved saved.now }
    ensures { IfOk result (λ text. text ≡ saved_text Form.Second saved.now) }
{
    let mut text = Text::new(alloc);
    push_saved(alloc, &mut text, saved)?;
    Ok(text)
}
