// Bytes in memory, given in pieces.
ghost use Rattle.std.specs.Prelude.{◌≡◌, ℕ, ◌≤◌, ◌<◌, ◌+◌, ◌^◌, [], ◌++◌, length, min, drop, take};
ghost use Rattle.prof_memory.specs.Memory.{shelf_of, bytes_at};

use prof_io::Text;

/// Gives the bytes from a place on, at most so many, and says how many.
pub fn give(bytes: &[u8], at: usize, piece: usize, buf: &mut [u8]) -> usize
    requires piece { 0 < piece }
    requires room { 0 < length buf.old }
    ensures bound { result ≤ length buf.new }
    ensures len { result ≡ length (take result buf.new) }
    ensures given { drop at bytes.now ≡ take result buf.new ++ drop (at + result) bytes.now }
    ensures end { result ≡ 0 → drop (at + result) bytes.now ≡ [] }
    ensures within { at ≤ length bytes.now → at + result ≤ length bytes.now }
    ensures fits { at + result < 2 ^ 64 }
    ensures amount { result ≡ min piece (min (length (drop at bytes.now)) (length buf.old)) }
{
    if at >= bytes.len() {
        return 0;
    }
    let rest = &bytes[at..];
    let count = piece.min(rest.len().min(buf.len()));
    buf[..count].copy_from_slice(&rest[..count]);
    count
}

/// Gives the bytes of a file from a place on, at most so many, and says how many.
pub fn give_of(
    files: &[(Text, Vec<u8>)],
    file: usize,
    at: usize,
    piece: usize,
    buf: &mut [u8],
) -> usize
    requires piece { 0 < piece }
    requires room { 0 < length buf.old }
    ensures bound { result ≤ length buf.new }
    ensures len { result ≡ length (take result buf.new) }
    ensures given { drop at (bytes_at (shelf_of files.now) file) ≡ take result buf.new ++ drop (at + result) (bytes_at (shelf_of files.now) file) }
    ensures end { result ≡ 0 → drop (at + result) (bytes_at (shelf_of files.now) file) ≡ [] }
    ensures fits { at + result < 2 ^ 64 }
    ensures amount { result ≡ min piece (min (length (drop at (bytes_at (shelf_of files.now) file))) (length buf.old)) }
{
    if file >= files.len() {
        return 0;
    }
    give(&files[file].1, at, piece, buf)
}
