// Readings under which a file that is refused would be cut. None is taken by itself.
use crate::torn_file::{Front, first_samples, front_of_file, is_even};
use frame_cut::{Head, Limits, LoadFault, Reading, head_of_front};
use script_hints::Fit;
use std::fs::File;
use std::rt::Files;
use text_block::TEXT_BLOCK_BYTES;

// The codes of sample formats that are tried, in this order: floats of IBM and of IEEE, whole
// numbers of 4, 2 and 1 bytes.
const FORMATS: [u16; 5] = [1, 5, 2, 3, 8];

// At most so many extended textual headers are tried.
const TEXTS: i16 = 1000;

// No reading that fits.
const NONE: [Option<Fit>; 5] = [None, None, None, None, None];

// What is known of the file.
#[derive(Clone, Copy)]
struct Known<'a> {
    front: &'a [u8],
    size: u64,
    reading: Reading,
    limits: Limits,
}

/// Looks at FILE again, which was refused so, for readings that cut it evenly: other numbers of
/// samples that its headers name, other formats, other numbers of extended textual headers; and for
/// a file that ends inside a trace the reading that keeps the bytes of that one.
pub(crate) fn fits<R: Files<File = File> + AllocGlobal>(
    rt: &R,
    path: &str,
    reading: Reading,
    limits: Limits,
    fault: LoadFault,
) -> [Option<Fit>; 5] {
    match found(rt, path, reading, limits, fault) {
        Some(fits) => fits,
        None => NONE,
    }
}

fn found<R: Files<File = File> + AllocGlobal>(
    rt: &R,
    path: &str,
    reading: Reading,
    limits: Limits,
    fault: LoadFault,
) -> Option<[Option<Fit>; 5]> {
    let Front { file, size, bytes } = front_of_file(rt, path)?;
    let known = Known {
        front: bytes.as_slice(),
        size,
        reading,
        limits,
    };
    match fault {
        LoadFault::UnknownFormat(_) => Some(by_format(known)),
        LoadFault::TextCount(_) => Some([by_texts(known), None, None, None, None]),
        LoadFault::Truncated(trace) => {
            let [first, second, _, _, _] = by_samples(known, &file);
            Some([first, second, tail_fit(trace), None, None])
        }
        LoadFault::ExtensionCount(_) | LoadFault::TooManyTraces => Some(by_samples(known, &file)),
        _ => None,
    }
}

// What stands in front of the trace that is not whole, where there is a trace.
fn tail_fit(trace: u64) -> Option<Fit> {
    let traces = trace.checked_sub(1)?;
    if traces == 0 {
        return None;
    }
    Some(Fit {
        samples: None,
        format: None,
        texts: None,
        tail: true,
        traces,
    })
}

// The head of the file under a reading.
fn head_under(known: Known, reading: Reading) -> Option<Head> {
    if known.front.len() as u64 > known.size {
        return None;
    }
    head_of_front(known.front, known.size, reading, known.limits).ok()?
}

// How many traces the file has where each has the head's number of samples, and they end evenly.
fn even_traces(known: Known, head: &Head, samples: u32) -> Option<u64> {
    let records = u64::from(head.trailer) * TEXT_BLOCK_BYTES as u64;
    let all = known
        .size
        .checked_sub(records)?
        .checked_sub(head.traces_at)?;
    if head.extensions > 0 || !is_even(head, known.limits, all, samples) {
        return None;
    }
    let length = 240 + u64::from(samples) * u64::from(head.format.width());
    Some(all / length)
}

// The binary header's number of samples, also where the reading says another, then the first
// trace's own.
fn by_samples(known: Known, file: &File) -> [Option<Fit>; 5] {
    let fields = Reading {
        samples: None,
        ..known.reading
    };
    let Some(head) = head_under(known, fields) else {
        return NONE;
    };
    let first = samples_fit(known, &head, head.samples);
    let second = match first_samples(file, &head, known.size) {
        Some(own) if own != head.samples => samples_fit(known, &head, own),
        _ => None,
    };
    [first, second, None, None, None]
}

fn samples_fit(known: Known, head: &Head, samples: u32) -> Option<Fit> {
    Some(Fit {
        samples: Some(samples),
        format: None,
        texts: None,
        tail: false,
        traces: even_traces(known, head, samples)?,
    })
}

// The formats under which traces of the binary header's number of samples end evenly.
fn by_format(known: Known) -> [Option<Fit>; 5] {
    let mut fits = NONE;
    for place in 0..5 {
        fits[place] = format_fit(known, FORMATS[place]);
    }
    fits
}

fn format_fit(known: Known, code: u16) -> Option<Fit> {
    let reading = Reading {
        format: Some(code),
        floats: true,
        ..known.reading
    };
    let head = head_under(known, reading)?;
    Some(Fit {
        samples: unless_fixed(&head),
        format: Some(code),
        texts: None,
        tail: false,
        traces: even_traces(known, &head, head.samples)?,
    })
}

// The head's number of samples, which has to be asked for where not each trace has it by the flag.
fn unless_fixed(head: &Head) -> Option<u32> {
    if head.fixed { None } else { Some(head.samples) }
}

// The least number of extended textual headers behind which traces of the binary header's number of
// samples end evenly.
fn by_texts(known: Known) -> Option<Fit> {
    for texts in 0..TEXTS {
        let fit = texts_fit(known, texts);
        if fit.is_some() {
            return fit;
        }
    }
    None
}

fn texts_fit(known: Known, texts: i16) -> Option<Fit> {
    let reading = Reading {
        texts: Some(texts),
        ..known.reading
    };
    let head = head_under(known, reading)?;
    Some(Fit {
        samples: unless_fixed(&head),
        format: None,
        texts: Some(texts),
        tail: false,
        traces: even_traces(known, &head, head.samples)?,
    })
}
