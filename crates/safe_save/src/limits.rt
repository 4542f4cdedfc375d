// The system's limit on the size of files, behind which a write ends a process without a word.
use std::fs;
use std::rt::Files;

// The system's flag of a file each write to which goes to its end.
const APPENDS: u64 = 0o2000;

/// The system's limit on the size of a file that this process writes, where the system tells it:
/// `/proc` does, and no call of the library.
pub fn size_limit<R: Files + AllocGlobal>(rt: &R) -> u64 {
    match fs::read_to_string(rt, "/proc/self/limits") {
        Ok(text) => limit_in(text.as_str()),
        Err(_) => u64::MAX,
    }
}

/// How many bytes standard output may still take under that limit. `u64::MAX` where there is none,
/// or standard output is no regular file, or the system does not tell.
pub fn answers_limit<R: Files + AllocGlobal>(rt: &R) -> u64 {
    room_of(rt, "/proc/self/fd/1", "/proc/self/fdinfo/1")
}

/// The same of standard error.
pub fn messages_limit<R: Files + AllocGlobal>(rt: &R) -> u64 {
    room_of(rt, "/proc/self/fd/2", "/proc/self/fdinfo/2")
}

// The room of an open file, and nothing is asked of it where there is no limit.
fn room_of<R: Files + AllocGlobal>(rt: &R, file: &str, place: &str) -> u64 {
    let limit = size_limit(rt);
    if limit == u64::MAX {
        return u64::MAX;
    }
    let size = match fs::metadata(rt, file) {
        Ok(there) if there.is_file() => there.len(),
        _ => return u64::MAX,
    };
    let place = match fs::read_to_string(rt, place) {
        Ok(text) => place_in(text.as_str(), size),
        Err(_) => size,
    };
    limit.saturating_sub(place)
}

/// The limit on the size of files in the system's text of a process's limits. `u64::MAX` where it
/// names none.
pub fn limit_in(limits: &str) -> u64 {
    for line in limits.lines() {
        if let Some(rest) = line.strip_prefix("Max file size") {
            return match rest.split_whitespace().next() {
                Some(word) => word.parse().unwrap_or(u64::MAX),
                None => u64::MAX,
            };
        }
    }
    u64::MAX
}

/// Where the next write goes, by the system's text of an open file, which has so many bytes: to its
/// end where each does, or where the text does not tell.
pub fn place_in(about: &str, size: u64) -> u64 {
    let flags = match word_behind(about, "flags:") {
        Some(word) => u64::from_str_radix(word, 8).unwrap_or(APPENDS),
        None => APPENDS,
    };
    match word_behind(about, "pos:") {
        Some(word) if flags & APPENDS == 0 => word.parse().unwrap_or(size),
        _ => size,
    }
}

// The first word of the line that begins so.
fn word_behind<'a>(text: &'a str, name: &str) -> Option<&'a str> {
    for line in text.lines() {
        if let Some(rest) = line.strip_prefix(name) {
            return rest.split_whitespace().next();
        }
    }
    None
}
