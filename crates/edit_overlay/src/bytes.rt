// Parts of one vector of bytes.
ghost use Rattle.std.specs.Prelude.{◌≡◌, ◌+◌, ◌≤◌, length, take, drop};
ghost use Rattle.frame_cut.specs.Splice.{splice};

// Writes the new bytes over those from a place on.
pub fn overwrite(all: &mut [u8], at: usize, new: &[u8])
    requires { at + length new.now ≤ length all.old }
    ensures { all.new ≡ splice all.old at (length new.now) new.now }
{
    all[at..at + new.len()].copy_from_slice(new);
}

/// So many bytes from a place on.
pub fn array_at<const N: usize>(bytes: &[u8], at: usize) -> &[u8; N]
    requires { at + N ≤ length bytes.now }
    ensures { result.now ≡ take N (drop at bytes.now) }
{
    match bytes[at..].first_chunk::<N>() {
        Some(array) => array,
        None => unreachable!(),
    }
}
