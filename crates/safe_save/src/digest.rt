// The digest of a file's bytes.
ghost use Rattle.std.specs.Prelude.{◌≡◌, IfOk, IfSome};
ghost use Rattle.md5.specs.Md5.{md5};

use md5::{Digest, Md5};
use std::fs;
use std::io::{Error, ErrorKind, Read, Result};
use std::rt::Files;

// How many bytes are read at once. They stand on the stack, and no memory is asked for.
const PIECE: usize = 16384;

/// The digest of the file that a path leads to, which is read from front to end. It is to find a
/// change that nobody made to hide it: MD5 serves, and is the fastest at hand.
pub(crate) fn digest_at<R: Files>(rt: &R, path: &str) -> Result<[u8; 16]> {
    let mut file = fs::open(rt, path)?;
    digest_of(&mut file)
}

// The digest of all that a reader gives. A read that a signal interrupts is made again.
fn digest_of<F: Read>(file: &mut F) -> Result<[u8; 16]>
    ensures { IfOk result (λ digest. IfSome (F.remaining file.old) (λ bytes. digest ≡ md5 bytes)) }
{
    let mut hasher = Md5::new();
    let mut piece = [0u8; PIECE];
    'pieces: for _ in 0..u64::MAX {
        match file.read(&mut piece) {
            Ok(0) => return Ok(hasher.finalize()),
            Ok(count) => hasher.update(&piece[..count]),
            Err(error) if error.kind() == ErrorKind::Interrupted => {}
            Err(error) => return Err(error),
        }
    }
    Err(Error::from(ErrorKind::UnexpectedEof))
}
