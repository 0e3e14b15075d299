//! Whether a search finds a marker.
ghost use Rattle.std.specs.Prelude.{◌≡◌, ℕ, List, length, map, OnOk, IfOk, slice_range};
ghost use Rattle.std.specs.Str.{str_to_ascii_lowercase};
ghost use Rattle.std.specs.List.{list_any, list_all};
ghost use Rattle.prof_path.specs.Lowered.{has_lowered, sought, IsReady};
ghost use Rattle.prof_marker.specs.Markers.{name_text};
ghost use Rattle.prof_marker.specs.Found.{overlaps, is_found, words_of};
ghost use Rattle.prof_marker.specs.Ties.{IsPlaced};

use crate::list::Marker;
use prof_io::Text;
use prof_path::{Range, Seeker};
use prof_tables::Strings;
use std::alloc::AllocError;

/// Whether a marker overlaps a range.
fn overlaps(marker: Marker, range: Range) -> bool
    ensures { result ≡ overlaps marker range }
{
    range.start < range.end && marker.start < range.end && marker.end >= range.start
}

/// Whether a marker overlaps every range.
fn overlaps_all(marker: Marker, ranges: &[Range]) -> bool
    ensures { result ≡ list_all (overlaps marker) ranges.now }
{
    ranges.iter().all(|range| overlaps(marker, *range))
}

/// Whether some term occurs in one of these texts.
fn occurs_among(seeker: &mut Seeker, texts: &[Text]) -> Result<bool, AllocError>
    ensures terms { sought seeker.new ≡ sought seeker.old }
    ensures known { seeker.new.known.items ≡ seeker.old.known.items }
    ensures value { IfOk result (λ b. b ≡ list_any (has_lowered (sought seeker.old)) texts.now) }
{
    for text in texts {
        if seeker.occurs_in(text.as_str())? {
            return Ok(true);
        }
    }
    Ok(false)
}

/// Whether some term occurs in the name of a marker or in one of its texts.
fn occurs_in_words(
    seeker: &mut Seeker,
    strings: &Strings,
    texts: &[Text],
    marker: Marker,
) -> Result<bool, AllocError>
    requires placed { IsPlaced (length strings.now) (length texts.now) marker }
    requires ready { IsReady strings.now seeker.old }
    ensures terms { sought seeker.new ≡ sought seeker.old }
    ensures ready { OnOk result (IsReady strings.now seeker.new) }
    ensures value { IfOk result (λ b. b ≡ list_any (has_lowered (sought seeker.old)) (words_of strings.now texts.now marker)) }
{
    if seeker.occurs_in_string(strings, marker.name)? {
        return Ok(true);
    }
    let (start, end) = marker.texts;
    if occurs_among(seeker, &texts[start as usize..end as usize])? {
        return Ok(true);
    }
    let (start, end) = marker.more;
    occurs_among(seeker, &texts[start as usize..end as usize])
}

/// Whether a marker is found: it overlaps every range, and there are no terms or some term occurs in one of its words.
pub(crate) fn finds(
    seeker: &mut Seeker,
    strings: &Strings,
    texts: &[Text],
    marker: Marker,
    ranges: &[Range],
) -> Result<bool, AllocError>
    requires placed { IsPlaced (length strings.now) (length texts.now) marker }
    requires ready { IsReady strings.now seeker.old }
    ensures terms { sought seeker.new ≡ sought seeker.old }
    ensures ready { OnOk result (IsReady strings.now seeker.new) }
    ensures value { (terms : List (List ℕ)) → sought seeker.old ≡ map str_to_ascii_lowercase terms
        → IfOk result (λ b. b ≡ is_found strings.now texts.now terms ranges.now marker) }
{
    if !overlaps_all(marker, ranges) {
        return Ok(false);
    }
    if seeker.is_empty() {
        return Ok(true);
    }
    occurs_in_words(seeker, strings, texts, marker)
}
