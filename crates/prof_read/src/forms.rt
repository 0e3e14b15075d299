//! The profile of what was gathered of a text, by the form that the text turned out to have.
ghost use Rattle.std.specs.Prelude.{◌≡◌, All, IfOk, IfErr};
ghost use Rattle.prof_gather.specs.Taking.{IsFound};
ghost use Rattle.prof_gecko.specs.Processes.{HasRanges};
ghost use Rattle.prof_gecko_layout.specs.GeckoProfile as layout;
ghost use Rattle.prof_grammar.specs.Value.{Value};
ghost use Rattle.prof_layout.specs.Profile.{categories_member};
ghost use Rattle.prof_members.specs.Gathered.{IsCategoryList};
ghost use Rattle.prof_processes.specs.Processes.{KeepEntries};
ghost use Rattle.prof_either.specs.Parts.{AreParts};
ghost use Rattle.prof_read.specs.Bases.{IsBuilding};
ghost use Rattle.prof_read.specs.Built.{Reads};
ghost use Rattle.prof_read.specs.Texts.{form_of};

use crate::ReadRefusal;
use crate::building::{categories_of, profile_of, unknown_format};
use crate::read::Form;
use prof_either::{EitherParts, GeckoParts};
use prof_gather::Found;
use prof_gecko::{GeckoProfile, convert};
use prof_tables::Profile;
use std::alloc::Global;

/// The profile of what was gathered of a Gecko profile, or the first check that fails.
fn gecko_profile(alloc: Global, parts: GeckoParts) -> Result<Profile, ReadRefusal>
    requires { All HasRanges parts.root }
    ensures building { IfErr result IsBuilding }
    ensures profile { (v : Value) → IsCategoryList (categories_member v) parts.categories
        → KeepEntries (layout.entries v) parts.root
        → Reads (λ p. p) result (layout.gecko_broken v) (layout.gecko_profile v) }
{
    let GeckoParts { categories, root } = parts;
    let (categories, default) = categories_of(alloc, categories)?;
    let gathered = GeckoProfile {
        categories,
        default,
        category_fault: None,
        root,
    };
    let profile = convert(alloc, gathered)?;
    Ok(profile)
}

/// The profile of what was gathered of the members of a text's value, and its form, or the first check that fails.
pub fn either_profile(
    alloc: Global,
    parts: Found<EitherParts>,
) -> Result<(Profile, Form), ReadRefusal>
    ensures building { IfErr result IsBuilding }
    ensures profile { (v : Value) → IsFound AreParts v parts
        → Reads (λ r. r.0) result (layout.broken_of v) (layout.profile_in v) }
    ensures form { (v : Value) → IsFound AreParts v parts → IfOk result (λ r. r.1 ≡ form_of v) }
{
    let Found::Object(parts) = parts else {
        return Err(unknown_format());
    };
    if parts.is_processed() {
        let profile = profile_of(alloc, Found::Object(parts.processed()))?;
        return Ok((profile, Form::Processed));
    }
    if !parts.has_version() {
        return Err(unknown_format());
    }
    let profile = gecko_profile(alloc, parts.gecko(alloc))?;
    Ok((profile, Form::Gecko))
}
