//! The texts of views, written.
ghost use Rattle.std.specs.Prelude.{◌≡◌, ◌++◌, IfOk, OnOk};
ghost use Rattle.prof_spell.specs.Pieces.{joined_text};
ghost use Rattle.prof_address.specs.Views.{range_text, ranges_part, implementation_part, transforms_part, search_part, view_text, HasPaths};

use crate::text::ViewText;
use crate::writing::push_transforms;
use prof_io::{NoMemory, Text};
use prof_path::{Implementation, Range, Transform, View};
use prof_spell::{push_number, push_search, push_signed};
use std::alloc::Global;

fn push_range(text: &mut Text, range: &Range) -> Result<(), NoMemory>
    ensures { OnOk result (text.new ≡ text.old ++ range_text range.now) }
{
    push_signed(text, range.start)?;
    text.push_str("_")?;
    push_signed(text, range.end)
}

fn push_ranges(text: &mut Text, list: &[Range]) -> Result<(), NoMemory>
    ensures { OnOk result (text.new ≡ text.old ++ joined_text range_text 126 list.now) }
{
    'items: for (i, range) in list.iter().enumerate() {
        if i > 0 {
            text.push_str("~")?;
        }
        push_range(text, range)?;
    }
    Ok(())
}

fn push_ranges_part(text: &mut Text, list: &[Range]) -> Result<(), NoMemory>
    ensures { OnOk result (text.new ≡ text.old ++ ranges_part list.now) }
{
    if list.is_empty() {
        return Ok(());
    }
    text.push_str("&range=")?;
    push_ranges(text, list)?;
    Ok(())
}

fn push_implementation_part(text: &mut Text, shown: Implementation) -> Result<(), NoMemory>
    ensures { OnOk result (text.new ≡ text.old ++ implementation_part shown) }
{
    text.push_str(match shown {
        Implementation::Combined => "",
        Implementation::Js => "&implementation=js",
        Implementation::Cpp => "&implementation=cpp",
    })
}

fn push_transforms_part(text: &mut Text, list: &[Transform]) -> Result<(), NoMemory>
    ensures { OnOk result (text.new ≡ text.old ++ transforms_part list.now) }
{
    if list.is_empty() {
        return Ok(());
    }
    text.push_str("&transforms=")?;
    push_transforms(text, list)?;
    Ok(())
}

fn push_search_part(text: &mut Text, search: &str) -> Result<(), NoMemory>
    ensures { OnOk result (text.new ≡ text.old ++ search_part search.now) }
{
    if search.is_empty() {
        return Ok(());
    }
    text.push_str("&search=")?;
    push_search(text, search)?;
    Ok(())
}

/// Puts the text of a view behind the text. Where memory runs out, some of it may be there.
pub fn push_view(text: &mut Text, view: &View) -> Result<(), NoMemory>
    requires { HasPaths view.now }
    ensures { OnOk result (text.new ≡ text.old ++ view_text view.now) }
{
    text.push_str("thread=")?;
    push_number(text, view.thread as u64)?;
    push_ranges_part(text, view.ranges.as_slice())?;
    push_implementation_part(text, view.implementation)?;
    push_transforms_part(text, view.transforms.as_slice())?;
    push_search_part(text, view.search.as_str())?;
    Ok(())
}

/// The text of a view.
pub fn write_view(alloc: Global, view: &View) -> Result<ViewText, NoMemory>
    requires { HasPaths view.now }
    ensures { IfOk result (λ text. text ≡ view_text view.now) }
{
    let mut text = Text::new(alloc);
    push_view(&mut text, view)?;
    Ok(ViewText::of(text))
}
