//! UTF-8, a byte at a time.
ghost use Rattle.std.specs.Prelude.{◌≡◌};
ghost use Rattle.prof_spell.specs.Utf8.{allows, behind_byte, behind_first, is_between, opens};

/// What may come next of a text in UTF-8: a character's first byte, or one of the bytes behind it.
#[derive(Clone, Copy, Debug, PartialEq, Eq)]
pub enum Due {
    Character,
    OneMore,
    TwoMore,
    ThreeMore,
    BehindE0,
    BehindEd,
    BehindF0,
    BehindF4,
}

impl Due {
    /// Whether a character is whole, so that the text may end.
    pub fn is_between(self) -> bool
        ensures { result ≡ is_between self }
    {
        matches!(self, Due::Character)
    }

    /// Whether the byte may come.
    pub fn allows(self, byte: u8) -> bool
        ensures { result ≡ allows self byte }
    {
        match self {
            Due::Character => byte < 0x80 || (0xC2 <= byte && byte <= 0xF4),
            Due::OneMore => 0x80 <= byte && byte <= 0xBF,
            Due::TwoMore => 0x80 <= byte && byte <= 0xBF,
            Due::ThreeMore => 0x80 <= byte && byte <= 0xBF,
            Due::BehindE0 => 0xA0 <= byte && byte <= 0xBF,
            Due::BehindEd => 0x80 <= byte && byte <= 0x9F,
            Due::BehindF0 => 0x90 <= byte && byte <= 0xBF,
            Due::BehindF4 => 0x80 <= byte && byte <= 0x8F,
        }
    }

    /// Whether a byte with this upper half may come.
    pub fn opens(self, high: u8) -> bool
        ensures { result ≡ opens self high }
    {
        match self {
            Due::Character => high < 8 || 12 <= high,
            Due::OneMore => 8 <= high && high <= 11,
            Due::TwoMore => 8 <= high && high <= 11,
            Due::ThreeMore => 8 <= high && high <= 11,
            Due::BehindE0 => 10 <= high && high <= 11,
            Due::BehindEd => 8 <= high && high <= 9,
            Due::BehindF0 => 9 <= high && high <= 11,
            Due::BehindF4 => high == 8,
        }
    }

    /// What may come behind the byte, where it may come.
    pub fn behind(self, byte: u8) -> Due
        ensures { result ≡ behind_byte self byte }
    {
        match self {
            Due::Character => Due::behind_first(byte),
            Due::OneMore => Due::Character,
            Due::TwoMore => Due::OneMore,
            Due::ThreeMore => Due::TwoMore,
            Due::BehindE0 => Due::OneMore,
            Due::BehindEd => Due::OneMore,
            Due::BehindF0 => Due::TwoMore,
            Due::BehindF4 => Due::TwoMore,
        }
    }

    fn behind_first(byte: u8) -> Due
        ensures { result ≡ behind_first byte }
    {
        if byte < 0x80 {
            Due::Character
        } else if byte < 0xE0 {
            Due::OneMore
        } else if byte == 0xE0 {
            Due::BehindE0
        } else if byte == 0xED {
            Due::BehindEd
        } else if byte < 0xF0 {
            Due::TwoMore
        } else if byte == 0xF0 {
            Due::BehindF0
        } else if byte == 0xF4 {
            Due::BehindF4
        } else {
            Due::ThreeMore
        }
    }
}
