// What stands before the bytes of a piece.
ghost use Rattle.std.specs.Prelude.{◌≡◌, ◌++◌, ◌≤◌};
ghost use Rattle.journal_codes.specs.Codes.{number, place_in, size_in};

use crate::numbers::number_at;

/// How many bytes stand before those of a piece.
pub const HEAD_BYTES: usize = 16;

/// How many bytes a piece has at most.
pub const PIECE_ROOM: usize = 65536;

/// Where a piece lies in FILE, in bytes from its begin, and how many bytes it has.
#[derive(Clone, Copy, Debug, PartialEq, Eq)]
pub struct Head {
    pub place: u64,
    pub size: u64,
}

/// What stands before the bytes of a piece.
pub fn head_of(head: Head) -> [u8; HEAD_BYTES]
    ensures { result ≡ number head.place ++ number head.size }
{
    let a = head.place.to_le_bytes();
    let b = head.size.to_le_bytes();
    [
        a[0], a[1], a[2], a[3], a[4], a[5], a[6], a[7], b[0], b[1], b[2], b[3], b[4], b[5], b[6],
        b[7],
    ]
}

/// What `head_of` wrote.
pub fn head_in(bytes: &[u8; HEAD_BYTES]) -> Head
    ensures place { result.place ≡ place_in bytes.now }
    ensures size { result.size ≡ size_in bytes.now }
{
    Head {
        place: number_at(bytes, 0),
        size: number_at(bytes, 8),
    }
}
