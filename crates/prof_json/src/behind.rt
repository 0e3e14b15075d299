// What may stand behind a number.
ghost use Rattle.std.specs.Prelude.{◌≡◌, ◌||◌, ◌==◌};
ghost use Rattle.prof_token.specs.Bytes.{follows_item, is_space};
ghost use Rattle.prof_token.specs.Stages.{may_come};
ghost use Rattle.prof_json.specs.Parts.{behind};

use crate::Bracket;
use prof_token::is_blank;

/// Whether the byte may stand behind an item.
fn may_follow_item(byte: u8) -> bool
    ensures { result ≡ follows_item byte }
{
    is_blank(byte) || byte == b',' || byte == b']'
}

/// Whether the byte may stand behind a member.
fn may_follow_member(byte: u8) -> bool
    ensures { result ≡ (is_space byte || (byte == 44) || (byte == 125)) }
{
    is_blank(byte) || byte == b',' || byte == b'}'
}

/// Whether the byte, or the end of the text, may stand behind a value within these brackets.
pub fn may_follow(brackets: &[Bracket], shown: Option<u8>) -> bool
    ensures { result ≡ may_come (behind brackets.now) shown }
{
    match brackets.last() {
        None => match shown {
            None => true,
            Some(byte) => is_blank(byte),
        },
        Some(Bracket::Array) => match shown {
            None => false,
            Some(byte) => may_follow_item(byte),
        },
        Some(Bracket::Object) => match shown {
            None => false,
            Some(byte) => may_follow_member(byte),
        },
    }
}
