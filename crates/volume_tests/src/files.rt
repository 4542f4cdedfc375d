// Small files that are made by hand. Bytes count from 1, and those that are not named are zero.
use std::alloc::{AllocError, Global};

// Revision 1.0, two 16-bit samples a trace, two traces of zeros but for their samples 7 and 9.
pub(crate) fn two_traces(alloc: Global) -> Result<Vec<u8>, AllocError> {
    let mut bytes = vec![in alloc; 0u8; 4088]?;
    let file = bytes.as_mut_slice();
    file[3221] = 2;
    file[3225] = 3;
    file[3500] = 1;
    file[3841] = 7;
    file[4087] = 9;
    Ok(bytes)
}
