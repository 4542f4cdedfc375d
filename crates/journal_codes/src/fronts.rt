// What a journal begins with.
ghost use Rattle.std.specs.Prelude.{◌≡◌, ◌↔◌, IfNone, IfSome, OnSome};
ghost use Rattle.journal_codes.specs.Codes.{front, may_be_birth, HasFront, LacksFront};

use crate::file_facts::FileFacts;
use crate::journal_fault::JournalFault;
use crate::numbers::number_at;

/// How many bytes stand before the pieces.
pub const FRONT_BYTES: usize = 40;

const MARK: [u8; 8] = *b"SEGYWBJL";

const VERSION: u64 = 2;

/// What a journal of this FILE begins with.
pub fn front_of(facts: FileFacts) -> [u8; FRONT_BYTES]
    ensures { result ≡ front facts }
{
    let m = MARK;
    let v = VERSION.to_le_bytes();
    let l = facts.length.to_le_bytes();
    let i = facts.inode.to_le_bytes();
    let b = facts.birth.to_le_bytes();
    [
        m[0], m[1], m[2], m[3], m[4], m[5], m[6], m[7], v[0], v[1], v[2], v[3], v[4], v[5], v[6],
        v[7], l[0], l[1], l[2], l[3], l[4], l[5], l[6], l[7], i[0], i[1], i[2], i[3], i[4], i[5],
        i[6], i[7], b[0], b[1], b[2], b[3], b[4], b[5], b[6], b[7],
    ]
}

/// Why these are not what a journal of this FILE begins with.
pub fn front_fault(bytes: &[u8; FRONT_BYTES], facts: FileFacts) -> Option<JournalFault>
    ensures none { IfNone result (HasFront facts bytes.now) }
    ensures some { IfSome result (LacksFront facts bytes.now) }
{
    if number_at(bytes, 0) != number_at(&MARK, 0) {
        return Some(JournalFault::NoJournal);
    }
    if number_at(bytes, 8) != VERSION {
        return Some(JournalFault::OtherVersion);
    }
    if number_at(bytes, 16) != facts.length {
        return Some(JournalFault::OtherLength);
    }
    if number_at(bytes, 24) != facts.inode {
        return Some(JournalFault::OtherFile);
    }
    if !may_be_birth(number_at(bytes, 32), facts.birth) {
        return Some(JournalFault::OtherBirth);
    }
    None
}

// Whether a file that was made at the one time may be one that was made at the other; 0 is not
// known.
fn may_be_birth(noted: u64, found: u64) -> bool
    ensures { result ≡ may_be_birth noted found }
{
    noted == 0 || found == 0 || noted == found
}
