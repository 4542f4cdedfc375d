// What may be meant by a line that is refused.
use crate::commands::{COMMANDS, form};
use crate::compute_hint::{computed_number_hint, joined_hint, operations_hint};
use crate::condition_hint::{condition_hint, in_front_of_conditions, place_of_where, sign_hint};
use crate::fault::Fault;
use crate::hint::Hint;
use crate::names::{BINARY_NAMES, QUANTITIES, SAMPLE_FACTS, TRACE_NAMES};
use crate::near::{Near, nearest_of};
use crate::note::Note;
use crate::number_hint::number_hint;
use crate::words::Words;
use bench_rules::{AskFault, Refusal};
use field_map::{MapFault, is_geometry, named};
use script_words::LineFault;
use std::str;

// Of a line that met a file which has changed since it was loaded.
const CHANGED: &str = "with --on-disk FILE must be left alone until the program ends";

// Of a line that needs the values of samples that have none.
const NO_VALUES: &str = "floats and samples with a gain are bytes here, without a value";

/// What may be meant by a refused line.
pub(crate) fn hint_of(note: &Note) -> Hint {
    let bytes = note.bytes();
    if bytes.starts_with(b"\xef\xbb\xbf") {
        return Hint::Text("a byte order mark stands in front: save the script as UTF-8 without it");
    }
    if is_wide(bytes) {
        return Hint::Text("this looks like UTF-16: save the script as UTF-8");
    }
    let words = Words::new(bytes);
    match note.fault() {
        Fault::Line(fault) => line_hint(&words, fault),
        // The refusals of a session are told to who sent the lines.
        Fault::Session(_) => Hint::None,
        Fault::Edit(refusal) => edit_hint(&words, refusal),
        Fault::Query(fault) => query_hint(&words, fault),
    }
}

// Whether the bytes are those of UTF-16: its mark stands in front, or each other byte is zero.
fn is_wide(bytes: &[u8]) -> bool {
    if bytes.starts_with(b"\xff\xfe") || bytes.starts_with(b"\xfe\xff") {
        return true;
    }
    let zeros = bytes.iter().filter(|byte| **byte == 0).count();
    bytes.len() >= 3 && zeros >= bytes.len() / 2
}

// Of a line that is no command.
fn line_hint(words: &Words, fault: LineFault) -> Hint {
    match fault {
        LineFault::Unknown if words.at(0) == b"save".as_slice() => {
            Hint::Text("a script is saved at its end, to --out; save is a word of sessions")
        }
        LineFault::Unknown => nearest(words.at(0), &COMMANDS),
        LineFault::Words if words.has_note() => note_behind(),
        LineFault::Words => match condition_hint(words) {
            Some(text) => Hint::Text(text),
            None => wrong_words(words),
        },
        LineFault::Number => match sign_hint(words) {
            Some(text) => Hint::Text(text),
            None => wrong_word(words),
        },
        LineFault::NotText => Hint::Text("the line is not UTF-8: save the script as UTF-8"),
        LineFault::TooLarge | LineFault::OutOfMemory => Hint::None,
    }
}

// Of a line with a word that is none of those that may stand there.
fn wrong_word(words: &Words) -> Hint {
    match words.at(0) {
        b"compute" => wrong_computation(words),
        _ => wrong_number(words),
    }
}

fn note_behind() -> Hint {
    Hint::Text("a note stands on a line of its own")
}

// Of a command with too few or too many words.
fn wrong_words(words: &Words) -> Hint {
    match words.at(0) {
        _ if place_of_where(words).is_some() => form_of(words),
        b"table" if !words.at(3).is_empty() => Hint::Text("a table has at most 64 fields"),
        b"compute" => text_or_form(operations_hint(words), words),
        b"sort" if !words.at(3).is_empty() => Hint::Text("a sort is by at most 8 fields"),
        b"stat" if words.count() == 3 => Hint::Text("of many traces it is stats P Q"),
        b"fill" if words.count() == 5 && !is_word(words, 2, b"last") => {
            Hint::Text("of one trace it is fill P P FROM TO NUMBER")
        }
        b"sample" if words.count() >= 5 => Hint::Text("of many traces it is samples P Q FROM TO"),
        b"samples" if words.count() == 4 && !is_word(words, 2, b"last") => {
            Hint::Text("of one trace it is samples P P FROM TO")
        }
        _ => form_of(words),
    }
}

fn text_or_form(text: Option<&'static str>, words: &Words) -> Hint {
    match text {
        Some(text) => Hint::Text(text),
        None => form_of(words),
    }
}

fn form_of(words: &Words) -> Hint {
    match form(words.at(0)) {
        "" => Hint::None,
        form => Hint::Form(form),
    }
}

// The one of the names that is meant.
fn nearest(word: &[u8], names: &[&'static str]) -> Hint {
    match nearest_of(word, names) {
        Near::Letters(name) => Hint::Small(name),
        Near::Typed(name) => Hint::Near(name),
        Near::None => Hint::None,
    }
}

// Of a command with a word that has to be a number or a place.
fn wrong_number(words: &Words) -> Hint {
    for word in words.as_slice() {
        if let Some(text) = number_hint(word) {
            return Hint::Text(text);
        }
    }
    if words.has_note() {
        return note_behind();
    }
    match words.at(0) {
        b"range" => match nearest(words.at(1), &QUANTITIES) {
            Hint::None => Hint::Text("WHICH is inline, crossline, offset, x or y"),
            hint => hint,
        },
        b"map" => Hint::Text("FIELD is a place, as @189:4, or a name, as source_x"),
        b"stat" if words.count() == 3 => Hint::Text("of many traces it is stats P Q"),
        b"fill" | b"samples" if is_word(words, 3, b"last") || is_word(words, 4, b"last") => {
            Hint::Text("last is a trace: FROM and TO are samples, and count from 0")
        }
        _ => place_or_form(words),
    }
}

// Whether this one of the words, counted from 0, is that.
fn is_word(words: &Words, number: usize, word: &[u8]) -> bool {
    words.at(number) == word
}

fn place_or_form(words: &Words) -> Hint {
    if words.as_slice().iter().any(|word| is_like_place(word)) {
        Hint::Text("a place is @BYTE:SIZE, as @189:4")
    } else {
        form_of(words)
    }
}

// Whether the word begins as a place, or as one by which a sort falls.
fn is_like_place(word: &[u8]) -> bool {
    word.starts_with(b"@") || word.starts_with(b"-@")
}

// Of a computation with a word that has to be a number, a place or an operator.
fn wrong_computation(words: &Words) -> Hint {
    if words.has_note() {
        return note_behind();
    }
    match computed_number_hint(&in_front_of_conditions(words)) {
        Some(text) => Hint::Text(text),
        None => wrong_number(words),
    }
}

// Of an edit that is refused.
fn edit_hint(words: &Words, refusal: Refusal) -> Hint {
    match refusal {
        Refusal::NoTrace(p, count) => no_trace(words, p, count),
        Refusal::NoField => no_field(words),
        Refusal::NoPlace => no_place(words),
        Refusal::NoSample(k, count) if k == count => Hint::Text("samples count from 0"),
        Refusal::Frame => frame(words),
        Refusal::Map(fault) => map_hint(words, fault),
        Refusal::TooLarge => Hint::Text("--max-bytes N raises the limit"),
        Refusal::NoValues => Hint::Text(NO_VALUES),
        Refusal::FileChanged => Hint::Text(CHANGED),
        Refusal::ZeroDivisor(_) => Hint::Text(
            "find tells the traces where a FIELD is 0: leave them out",
        ),
        _ => Hint::None,
    }
}

// Of a query that is refused.
fn query_hint(words: &Words, fault: AskFault) -> Hint {
    match fault {
        AskFault::NoTrace(p, count) => no_trace(words, p, count),
        AskFault::NoField => no_field(words),
        AskFault::NoPlace => no_place(words),
        AskFault::NoSample(k, count) if k == count => Hint::Text("samples count from 0"),
        AskFault::FileChanged => Hint::Text(CHANGED),
        AskFault::NoValues => Hint::Text(NO_VALUES),
        _ => Hint::None,
    }
}

// Of a position without a trace. A range of traces that is refused by its last one, though there
// is such a trace, stands the other way round.
fn no_trace(words: &Words, p: u32, count: u32) -> Hint {
    if p == 0 {
        Hint::Text("traces count from 1")
    } else if is_of_range(words.at(0)) && p <= count {
        Hint::Text("P stands behind Q: the first of the traces comes first")
    } else {
        Hint::None
    }
}

// Whether the command is one of the traces from P to Q.
fn is_of_range(command: &[u8]) -> bool {
    matches!(
        command,
        b"set"
            | b"renumber"
            | b"compute"
            | b"swap"
            | b"sort"
            | b"table"
            | b"find"
            | b"extremes"
            | b"delete"
            | b"count"
            | b"stats"
            | b"samples"
            | b"fill"
            | b"move"
    )
}

// Of a name that is no field, of the command or of one of its conditions.
fn no_field(words: &Words) -> Hint {
    match place_of_where(words) {
        None => no_field_of_command(words),
        Some(place) => match sign_hint(words) {
            Some(text) => Hint::Text(text),
            None => no_field_of_conditions(words, place),
        },
    }
}

// Of a command in front of `where`, and else of the conditions behind it.
fn no_field_of_conditions(words: &Words, place: usize) -> Hint {
    match no_field_of_command(&words.in_front_of(place)) {
        Hint::None => first_unknown_side(words, place.saturating_add(1)),
        hint => hint,
    }
}

// Of the first word of conditions, from this one on, that is like a name, or a fact about samples.
fn first_unknown_side(words: &Words, from: usize) -> Hint {
    for word in words.as_slice().iter().skip(from) {
        match unknown_side(word) {
            Hint::None => {}
            hint => return hint,
        }
    }
    Hint::None
}

fn unknown_side(word: &[u8]) -> Hint {
    match word {
        b"inf" | b"nan" => Hint::Text("a condition has no nan and no inf: inf alone is > 1e999"),
        [b'.', ..] => Hint::Text("a number in a condition begins with a digit or -, as 0.5"),
        _ if is_fact(word) => Hint::None,
        _ => match nearest(word, &SAMPLE_FACTS) {
            Hint::None => unknown_name(word),
            hint => hint,
        },
    }
}

// Whether the word is a fact about samples.
fn is_fact(word: &[u8]) -> bool {
    SAMPLE_FACTS.iter().any(|name| word == name.as_bytes())
}

// Of a command without conditions. Where it takes any number of names, those of a note are some.
fn no_field_of_command(words: &Words) -> Hint {
    match words.at(0) {
        b"table" | b"compute" | b"sort" if words.has_note() => note_behind(),
        b"bin" | b"getbin" => {
            let other = "a field of the trace headers: set and get";
            field_hint(words.at(1), &BINARY_NAMES, &TRACE_NAMES, other)
        }
        b"renumber" | b"find" => trace_field(words.at(3)),
        b"table" | b"sort" | b"swap" => first_unknown(words, 3),
        b"compute" => match joined_hint(words) {
            Some(text) => Hint::Text(text),
            None => first_unknown(words, 3),
        },
        b"set" => first_unknown(words, 2),
        _ => trace_field(words.at(2)),
    }
}

// Of the first word from this one on that is no place, no name that is always there, and like one,
// but for the `-` of a sort that falls.
fn first_unknown(words: &Words, from: usize) -> Hint {
    for word in words.as_slice().iter().skip(from) {
        match unknown_name(word.strip_prefix(b"-").unwrap_or(word)) {
            Hint::None => {}
            hint => return hint,
        }
    }
    Hint::None
}

// Of a word that is no place and no name that is always there, and like one.
fn unknown_name(word: &[u8]) -> Hint {
    if word.first().is_some_and(u8::is_ascii_alphabetic) && !is_trace_name(word) {
        trace_field(word)
    } else {
        Hint::None
    }
}

fn is_trace_name(word: &[u8]) -> bool {
    match str::from_utf8(word) {
        Ok(name) => is_geometry(name) || named(name).is_some(),
        Err(_) => false,
    }
}

fn trace_field(word: &[u8]) -> Hint {
    let other = "a field of the binary header: bin and getbin";
    match field_hint(word, &TRACE_NAMES, &BINARY_NAMES, other) {
        Hint::None if is_fact(word) => {
            Hint::Text("a fact about samples stands in conditions alone: where sample_least < 0")
        }
        Hint::None if is_name_in_capitals(word) => {
            Hint::Text("names have small letters; those of segyio alone are found in any case")
        }
        hint => hint,
    }
}

// Whether the word is a name of the trace header but for its capital letters.
fn is_name_in_capitals(word: &[u8]) -> bool {
    let mut small = [0u8; 24];
    if word.len() > small.len() {
        return false;
    }
    for i in 0..word.len() {
        small[i] = word[i].to_ascii_lowercase();
    }
    is_trace_name(&small[..word.len()])
}

// The name that is meant, or that it is one of the other header.
fn field_hint(
    word: &[u8],
    names: &[&'static str],
    others: &[&'static str],
    other: &'static str,
) -> Hint {
    if others.iter().any(|name| name.as_bytes() == word) {
        return Hint::Text(other);
    }
    nearest(word, names)
}

// Of a place outside the header, or a line outside the block.
fn no_place(words: &Words) -> Hint {
    match words.at(0) {
        b"bin" | b"getbin" => {
            Hint::Text("BYTE is that of the file, 3201 to 3600; SIZE is 1, 2, 3, 4 or 8")
        }
        b"text" | b"line" => Hint::Text("lines count from 1 to 40, blocks from 0"),
        b"code" | b"lines" => Hint::Text("blocks count from 0"),
        b"get" => header_bytes(),
        command if is_of_range(command) => header_bytes(),
        _ => Hint::None,
    }
}

fn header_bytes() -> Hint {
    Hint::Text("BYTE is that of the header, 1 to 240; SIZE is 1, 2, 3, 4 or 8")
}

// Of an edit that would cut the file elsewhere.
fn frame(words: &Words) -> Hint {
    match words.at(0) {
        b"resize" => Hint::Text("each trace has the binary header's number of samples"),
        b"declare" => Hint::Text("a load without these options would give other traces or texts"),
        _ => Hint::Text("these bytes say how the file is cut"),
    }
}

// Of a name that is not bound or not unbound.
fn map_hint(words: &Words, fault: MapFault) -> Hint {
    match fault {
        MapFault::BadName => Hint::Text("1 to 24 of a to z, 0 to 9 and _, a letter first"),
        MapFault::OutsideHeader => Hint::Text("a header has the bytes 1 to 240"),
        MapFault::BadKind if words.at(0) == b"map".as_slice() => {
            Hint::Text("SIZE is 1, 2, 3, 4 or 8; the six names are signed, of 2 or 4 bytes")
        }
        MapFault::Standard => Hint::Text("a name of the standard keeps its place: take another"),
        _ => Hint::None,
    }
}
