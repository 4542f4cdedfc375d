// Parts of one size.
ghost use Rattle.std.specs.Prelude.{◌≡◌, ◌<◌, ◌/◌, length};
ghost use Rattle.trace_store.specs.Each.{part_of};

/// Part k of bytes that are cut into parts of one size, counted from 0. Takes no memory.
pub fn part(bytes: &[u8], size: u32, k: usize) -> &[u8]
    requires some { 0 < size }
    requires within { k < length bytes.now / size }
    ensures part { result.now ≡ part_of bytes.now size k }
    ensures length { length result.now ≡ size }
{
    let start = k * size as usize;
    &bytes[start..start + size as usize]
}
