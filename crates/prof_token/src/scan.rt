// Runs of bytes of one kind, at the front of a window.
ghost use Rattle.std.specs.Prelude.{◌≡◌, ◌<◌, ◌≤◌, false, length, slice_index, take};
ghost use Rattle.prof_token.specs.Bytes.{Each};
ghost use Rattle.prof_token.specs.Bytes as bytes_spec;

/// Whether the byte is white space.
pub fn is_blank(byte: u8) -> bool
    ensures { result ≡ bytes_spec.is_space byte }
{
    byte == b' ' || byte == b'\t' || byte == b'\n' || byte == b'\r'
}

/// Whether the byte is an ASCII character that stands for itself within a string.
pub fn is_plain(byte: u8) -> bool
    ensures { result ≡ bytes_spec.is_plain byte }
{
    byte >= 32 && byte < 128 && byte != b'"' && byte != b'\\'
}

/// Whether the byte is a decimal digit.
pub fn is_digit(byte: u8) -> bool
    ensures { result ≡ bytes_spec.is_digit byte }
{
    byte >= b'0' && byte <= b'9'
}

/// Whether the byte begins the exponent of a number.
pub fn is_e(byte: u8) -> bool
    ensures { result ≡ bytes_spec.is_e byte }
{
    byte == b'e' || byte == b'E'
}

/// How many bytes at the front are white space.
pub fn blank_len(bytes: &[u8]) -> usize
    ensures within { result ≤ length bytes.now }
    ensures run { Each bytes_spec.is_space (take result bytes.now) }
    ensures stop { result < length bytes.now → bytes_spec.is_space (slice_index bytes.now result) ≡ false }
{
    for (i, byte) in bytes.iter().enumerate() {
        if !is_blank(*byte) {
            return i;
        }
    }
    bytes.len()
}

/// How many bytes at the front are plain.
pub fn plain_len(bytes: &[u8]) -> usize
    ensures within { result ≤ length bytes.now }
    ensures run { Each bytes_spec.is_plain (take result bytes.now) }
    ensures stop { result < length bytes.now → bytes_spec.is_plain (slice_index bytes.now result) ≡ false }
{
    for (i, byte) in bytes.iter().enumerate() {
        if !is_plain(*byte) {
            return i;
        }
    }
    bytes.len()
}

/// How many bytes at the front are digits.
pub fn digit_len(bytes: &[u8]) -> usize
    ensures within { result ≤ length bytes.now }
    ensures run { Each bytes_spec.is_digit (take result bytes.now) }
    ensures stop { result < length bytes.now → bytes_spec.is_digit (slice_index bytes.now result) ≡ false }
{
    for (i, byte) in bytes.iter().enumerate() {
        if !is_digit(*byte) {
            return i;
        }
    }
    bytes.len()
}
