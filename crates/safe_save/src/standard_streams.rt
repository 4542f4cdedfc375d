// Standard streams that were closed before the program began.
use std::fs;
use std::fs::OpenOptions;
use std::io::Result;
use std::os::fd::{AsFd, AsRawFd};
use std::rt::Files;

// The last of the standard streams' numbers.
const STANDARD_ERROR: i32 = 2;

/// What stands in for the standard streams that were closed. It is to be kept until the program
/// ends.
#[derive(Drop)]
pub struct StandIns<F> {
    _first: Option<F>,
    _second: Option<F>,
    _third: Option<F>,
}

/// Sees to it that no file that is opened later gets the number of a standard stream, as the system
/// gives a new file the lowest number that is free: the file would be read as lines, or written
/// over by answers. What takes the place of a stream can neither be read nor written, so that it
/// fails as a closed one does.
pub fn hold_standard_streams<R: Files>(rt: &R) -> Result<StandIns<R::File>>
where
    R::File: AsFd,
{
    Ok(StandIns {
        _first: stand_in(rt)?,
        _second: stand_in(rt)?,
        _third: stand_in(rt)?,
    })
}

// What takes the place of one closed stream. `None` where none is closed: a file that got a higher
// number is closed again.
fn stand_in<R: Files>(rt: &R) -> Result<Option<R::File>>
where
    R::File: AsFd,
{
    let file = open_unusable(rt)?;
    if file.as_fd().as_raw_fd() > STANDARD_ERROR {
        return Ok(None);
    }
    Ok(Some(file))
}

// The root folder is there always, and can be neither read nor written as a file, by names such as
// `/dev/stdin` and `/dev/stderr` too, under which `/dev/null` would be opened anew, and then be an
// empty script or take a save. `/dev/null` serves where the folder may not be opened.
fn open_unusable<R: Files>(rt: &R) -> Result<R::File> {
    match fs::open(rt, "/") {
        Ok(folder) => Ok(folder),
        Err(_) => {
            let mut how = OpenOptions::new();
            how.write(true);
            how.open(rt, "/dev/null")
        }
    }
}
