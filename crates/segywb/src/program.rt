// From the command line to the exit status.
ghost use Rattle.std.specs.Prelude.{◌≡◌, ◌≤◌, ◌&&◌, ◌||◌, not, length, IfSome, is_some, unwrap_or};
ghost use Rattle.command_line.specs.CommandLine.{usual_limit};

use command_line::{Arguments, arguments};
use device_io::{Sink, Source};
use frame_cut::{Limits, LoadFault};
use journal_codes::PIECE_ROOM;
use journal_save::Disk;
use room::Room;
use run_ending::{
    OutPlace, RepairTeller, Target, disk_of, finish, finish_in_place, finish_told, journal_refusal,
    look_at_file, misuse, reading_of, recover_file, refused_out, target_of, tell_how_to_begin,
};
use safe_save::{
    BoundedFile, Folder, Original, Save, answers_limit, hold_standard_streams, keep_from_clearing,
};
use saved_run::{ToOut, run_on_disk_to_out, run_to_out};
use script_hints::Notes;
use script_run::{
    InPlace, Options, Outside, RepairRun, RunEnd, Saves, refuse_too_large, run_in_place,
    run_on_disk_in_place, session, session_on_disk,
};
use std::fs::{File, Metadata, OpenFile};
use std::io::{BufWriter, Read};
use std::rt::{Clock, Env, Files};
use std::{env, fs, io};

// The most bytes of a file, where the command line names no other number.
const DEFAULT_LIMIT: u64 = 4294967296;

const DEFAULT_LIMIT_ON_DISK: u64 = 1099511627776;

// Short pieces of the save are written together, so many bytes at once; a piece of as many or more
// goes by itself.
const ROOM: usize = 65536;

// Where the lines of a script come from.
#[derive(Drop)]
enum Lines<F> {
    // From a file.
    File(F),
    // From standard input.
    Standard,
}

// The file that is loaded.
#[derive(Drop)]
enum Volume<F> {
    // Its bytes go into memory.
    Memory(Source<F>),
    // They stay on disk: so many of them.
    Disk(F, u64),
}

// Reads the command line and runs the script. Whether standard input is a terminal decides what is
// told where the command line asks for neither a script nor a session.
pub fn status_of<R: Files<File = File> + Env + Clock + AllocGlobal + Print + Eprint + Input>(
    rt: &R,
    is_typed: bool,
) -> u8 {
    // Before anything is opened: a file would get the number of a standard stream that is closed.
    let _streams = match hold_standard_streams(rt) {
        Ok(held) => held,
        Err(error) => {
            let _ = eprintln!(rt; "segywb: a standard stream may be closed ({error})");
            return 4;
        }
    };
    let Ok(words) = words(rt) else {
        let _ = eprintln!(rt; "segywb: cannot read the command line");
        return 2;
    };
    match arguments(rt.alloc(), words.as_slice()) {
        Ok(arguments) if is_typed && is_without_lines(&arguments) => {
            tell_how_to_begin(rt, arguments.file);
            2
        }
        Ok(arguments) => open_and_run(rt, &arguments),
        Err(error) => {
            // What --help and --version ask for goes to standard output.
            let _ = error.print(rt);
            2
        }
    }
}

// Whether the command line asks for nothing yet.
fn is_without_lines(arguments: &Arguments) -> bool {
    arguments.script.is_none() && !(arguments.session || arguments.recover || arguments.look)
}

// The words of the command line, the program's name first.
fn words<R: Env + AllocGlobal>(rt: &R) -> io::Result<Vec<String>> {
    let mut words = Vec::new(rt.alloc());
    for word in env::args(rt)? {
        words.push(word)?;
    }
    Ok(words)
}

// Opens the file, then the script, then the folder of the save, and runs the script or the session.
fn open_and_run<'a, R: Files<File = File> + Clock + AllocGlobal + Print + Eprint + Input>(
    rt: &'a R,
    arguments: &Arguments<'a>,
) -> u8
    requires { IfSome arguments.now.max_bytes (λ n. n ≤ 1099511627776) }
{
    if let Some(text) = misuse(rt, arguments) {
        let _ = eprintln!(rt; "segywb: {text}");
        return 2;
    }
    if arguments.recover {
        return recover_file(rt, arguments);
    }
    if arguments.look {
        return look_at_file(rt, arguments);
    }
    let _kept = kept_files(rt, arguments);
    let (file, about) = match opened(rt, arguments.file) {
        Ok(opened) => opened,
        Err(status) => return status,
    };
    let original = original_of(rt, arguments, &about);
    if let Some(status) = file_refusal(rt, arguments, original, &file) {
        return status;
    }
    let lines = match lines_of(rt, arguments) {
        Ok(lines) => lines,
        Err(status) => return status,
    };
    let bytes = about.len();
    let is_large = original.is_some() && bytes > limit_of(arguments, false);
    let volume = volume_of(arguments, file, bytes);
    match lines {
        Some(lines) if arguments.in_place => {
            repair(rt, arguments, original, is_large, volume, lines)
        }
        None if arguments.in_place => repair_at_saves(rt, arguments, original, is_large, volume),
        lines => open_out_and_run(rt, arguments, original, is_large, volume, lines),
    }
}

// Opens the folder of the save, and runs the script or the session.
fn open_out_and_run<'a, R: Files<File = File> + Clock + AllocGlobal + Print + Eprint + Input>(
    rt: &'a R,
    arguments: &Arguments<'a>,
    original: Option<Original<'a>>,
    is_large: bool,
    volume: Volume<R::File>,
    lines: Option<Lines<R::File>>,
) -> u8
    requires { IfSome arguments.now.max_bytes (λ n. n ≤ 1099511627776) }
{
    let target = match target_of(rt, arguments, original) {
        Ok(target) => target,
        Err(refusal) => return refused_out(rt, arguments.out.unwrap_or(""), &refusal),
    };
    if is_large {
        return too_large(rt, arguments);
    }
    match lines {
        Some(lines) => run_to(rt, arguments, original, volume, lines, target),
        None => session_over(rt, arguments, original, volume),
    }
}

// Refuses, before it is read, a FILE that is none on disk where one is needed, since a pipe gives
// its bytes but once; and one beside which a journal stands.
fn file_refusal<R: Files<File = File> + AllocGlobal + Eprint>(
    rt: &R,
    arguments: &Arguments,
    original: Option<Original>,
    file: &File,
) -> Option<u8> {
    if original.is_some() {
        return journal_refusal(rt, arguments, file);
    }
    let option = match (arguments.on_disk, arguments.in_place) {
        (false, false) => return None,
        (true, _) => "--on-disk",
        (false, true) => "--in-place",
    };
    let name = arguments.file;
    let _ = eprintln!(rt; "segywb: {option} needs a file on disk, and {name} is none");
    Some(3)
}

// FILE, open, and what is known of it; where it cannot be opened or looked at, the exit status.
fn opened<R: Files<File = File> + Eprint>(
    rt: &R,
    name: &str,
) -> std::result::Result<(File, Metadata), u8> {
    let Ok(file) = fs::open(rt, name) else {
        let _ = eprintln!(rt; "segywb: cannot open {name}");
        return Err(3);
    };
    match file.metadata() {
        Ok(about) => Ok((file, about)),
        Err(error) => {
            let _ = eprintln!(rt; "segywb: cannot look at {name} ({error})");
            Err(3)
        }
    }
}

// The file of this many bytes as the run loads it.
fn volume_of(arguments: &Arguments, file: File, bytes: u64) -> Volume<File> {
    if arguments.on_disk {
        Volume::Disk(file, bytes)
    } else {
        Volume::Memory(Source::expecting(file, bytes))
    }
}

// What a save of this run is not to take for a file that an earlier one left: FILE and SCRIPT, and
// what the standard streams are.
fn kept_files<R: Files<File = File>>(rt: &R, arguments: &Arguments) -> [Option<File>; 5] {
    // A repair of FILE itself takes no file away, and locks FILE alone.
    if arguments.out.is_none() || arguments.in_place {
        return [None, None, None, None, None];
    }
    [
        keep_from_clearing(rt, arguments.file),
        keep_from_clearing(rt, arguments.script.unwrap_or("/dev/stdin")),
        keep_from_clearing(rt, "/dev/stdin"),
        keep_from_clearing(rt, "/dev/stdout"),
        keep_from_clearing(rt, "/dev/stderr"),
    ]
}

// FILE as it was opened. Where it is to be saved, each change of it from now on is to be seen.
fn original_of<'a, R: Files + Clock>(
    rt: &R,
    arguments: &Arguments<'a>,
    about: &Metadata,
) -> Option<Original<'a>> {
    let original = Original::new(arguments.file, about)?;
    if arguments.out.is_some() || arguments.in_place {
        Some(original.watched(rt))
    } else {
        Some(original)
    }
}

// Refuses a file on disk that has more bytes than the limit, before it is read.
fn too_large<R: Files<File = File> + AllocGlobal + Print + Eprint>(
    rt: &R,
    arguments: &Arguments,
) -> u8 {
    let answers = &mut Sink::new(BoundedFile::new(io::writer(rt), answers_limit(rt)));
    let end = refuse_too_large(answers);
    finish_told(rt, arguments, None, end)
}

// Where the lines of the script come from, with it open, if there is one; where it cannot be
// opened, the exit status.
fn lines_of<R: Files + Eprint>(
    rt: &R,
    arguments: &Arguments,
) -> std::result::Result<Option<Lines<R::File>>, u8> {
    let script = match arguments.script {
        None => return Ok(None),
        Some("-") => return Ok(Some(Lines::Standard)),
        Some(script) => script,
    };
    match fs::open(rt, script) {
        Ok(file) => Ok(Some(Lines::File(file))),
        Err(_) => {
            let _ = eprintln!(rt; "segywb: cannot open {script}");
            Err(4)
        }
    }
}

// Answers a session on standard input over the file, whose saves go to OUT.
fn session_over<'a, R: Files<File = File> + Clock + AllocGlobal + Print + Eprint + Input>(
    rt: &'a R,
    arguments: &Arguments<'a>,
    original: Option<Original<'a>>,
    volume: Volume<R::File>,
) -> u8
    requires { IfSome arguments.now.max_bytes (λ n. n ≤ 1099511627776) }
{
    let mut out = Outside {
        place: OutPlace::new(rt, *arguments, original),
    };
    let end = session_to(rt, arguments, original, volume, &mut out);
    finish_told(rt, arguments, out.place.original(), end)
}

// Answers a session on standard input over the file, whose saves repair FILE itself.
fn repair_at_saves<'a, R: Files<File = File> + Clock + AllocGlobal + Print + Eprint + Input>(
    rt: &'a R,
    arguments: &Arguments<'a>,
    original: Option<Original<'a>>,
    is_large: bool,
    volume: Volume<R::File>,
) -> u8
    requires { IfSome arguments.now.max_bytes (λ n. n ≤ 1099511627776) }
{
    let disk = match disk_of(rt, arguments, original) {
        Ok(disk) => disk,
        Err(status) => return status,
    };
    if is_large {
        return too_large(rt, arguments);
    }
    let teller = RepairTeller::new(rt, *arguments);
    let mut own = InPlace::new(rt.alloc(), disk, teller, arguments.on_disk);
    let end = session_to(rt, arguments, original, volume, &mut own);
    finish_told(rt, arguments, own.disk.original(), end)
}

// Answers a session on standard input over the file, whose saves go to this place.
fn session_to<R: Files<File = File> + AllocGlobal + Print + Input, P: Saves>(
    rt: &R,
    arguments: &Arguments,
    original: Option<Original>,
    volume: Volume<R::File>,
    place: &mut P,
) -> RunEnd
    requires { IfSome arguments.now.max_bytes (λ n. n ≤ 1099511627776) }
{
    let options = options(arguments, original.is_some());
    let script = &mut Source::new(rt.reader());
    let answers = &mut Sink::new(BoundedFile::new(io::writer(rt), answers_limit(rt)));
    let room = &mut Room::new(rt.alloc());
    match volume {
        Volume::Memory(mut volume) => session(room, &mut volume, script, answers, place, options),
        Volume::Disk(volume, bytes) => {
            session_on_disk(room, volume, bytes, script, answers, place, options).close()
        }
    }
}

// Runs the script over the file, and repairs FILE itself.
fn repair<'a, R: Files<File = File> + AllocGlobal + Print + Eprint + Input>(
    rt: &'a R,
    arguments: &Arguments<'a>,
    original: Option<Original<'a>>,
    is_large: bool,
    volume: Volume<R::File>,
    lines: Lines<R::File>,
) -> u8
    requires { IfSome arguments.now.max_bytes (λ n. n ≤ 1099511627776) }
{
    let mut disk = match disk_of(rt, arguments, original) {
        Ok(disk) => disk,
        Err(status) => return status,
    };
    if is_large {
        return too_large(rt, arguments);
    }
    let mut piece = Vec::new(rt.alloc());
    if piece.resize(PIECE_ROOM, 0).is_err() {
        let _ = eprintln!(rt; "segywb: out of memory");
        return 4;
    }
    let mut notes = Notes::new();
    let options = options(arguments, false);
    let piece = piece.as_mut_slice();
    let run = match lines {
        Lines::File(file) => {
            let script = &mut Source::new(file);
            repaired(rt, volume, script, &mut disk, piece, options, &mut notes)
        }
        Lines::Standard => {
            let script = &mut Source::new(rt.reader());
            repaired(rt, volume, script, &mut disk, piece, options, &mut notes)
        }
    };
    finish_in_place(
        rt,
        arguments,
        original,
        run.end,
        run.repaired,
        disk.is_stale(),
        disk.journal(),
        &notes,
    )
}

// Answers the lines of a script on standard output, and repairs the disk behind them.
fn repaired<R: Files<File = File> + AllocGlobal + Print, S: Read, D: Disk>(
    rt: &R,
    volume: Volume<R::File>,
    script: &mut Source<S>,
    disk: &mut D,
    piece: &mut [u8],
    options: Options,
    notes: &mut Notes,
) -> RepairRun
    requires { length piece.old ≡ PIECE_ROOM }
{
    let answers = &mut Sink::new(BoundedFile::new(io::writer(rt), answers_limit(rt)));
    let room = &mut Room::new(rt.alloc());
    match volume {
        Volume::Memory(mut volume) => {
            run_in_place(
                room,
                &mut volume,
                script,
                answers,
                disk,
                piece,
                options,
                notes,
            )
        }
        Volume::Disk(file, bytes) => run_on_disk_in_place(
            room, file, bytes, script, answers, disk, piece, options, notes,
        )
        .close(),
    }
}

// Runs the script over the file, and saves to the target.
fn run_to<'a, R: Files<File = File> + AllocGlobal + Print + Eprint + Input>(
    rt: &'a R,
    arguments: &Arguments<'a>,
    original: Option<Original<'a>>,
    volume: Volume<R::File>,
    lines: Lines<R::File>,
    target: Target<'a, R>,
) -> u8
    requires { IfSome arguments.now.max_bytes (λ n. n ≤ 1099511627776) }
{
    let mode = target.mode();
    let room = if arguments.out.is_some() { ROOM } else { 0 };
    let Ok(writer) = BufWriter::with_capacity(rt.alloc(), room, Save::new(target)) else {
        let _ = eprintln!(rt; "segywb: out of memory");
        return 4;
    };
    let mut notes = Notes::new();
    let options = options(arguments, false);
    let ran = match volume {
        Volume::Memory(mut volume) => {
            answer(rt, &mut volume, lines, writer, mode, options, &mut notes)
        }
        Volume::Disk(volume, bytes) => {
            answer_on_disk(rt, volume, bytes, lines, writer, mode, options, &mut notes)
        }
    };
    finish(
        rt, arguments, original, ran.end, ran.folder, ran.out, &notes,
    )
}

// Answers the lines of a script on standard output, and ends the save. The refused ones are noted.
fn answer<R: Files + AllocGlobal + Print + Input, F: Folder + Drop>(
    rt: &R,
    volume: &mut Source<R::File>,
    lines: Lines<R::File>,
    writer: BufWriter<Save<F>>,
    mode: Option<u32>,
    options: Options,
    notes: &mut Notes,
) -> ToOut<F> {
    let answers = &mut Sink::new(BoundedFile::new(io::writer(rt), answers_limit(rt)));
    let room = &mut Room::new(rt.alloc());
    match lines {
        Lines::File(file) => {
            let script = &mut Source::new(file);
            run_to_out(room, volume, script, answers, writer, mode, options, notes)
        }
        Lines::Standard => {
            let script = &mut Source::new(rt.reader());
            run_to_out(room, volume, script, answers, writer, mode, options, notes)
        }
    }
}

// The same over a file that stays on disk, which has so many bytes.
fn answer_on_disk<R: Files<File = File> + AllocGlobal + Print + Input, F: Folder + Drop>(
    rt: &R,
    volume: File,
    bytes: u64,
    lines: Lines<File>,
    writer: BufWriter<Save<F>>,
    mode: Option<u32>,
    options: Options,
    notes: &mut Notes,
) -> ToOut<F> {
    match lines {
        Lines::File(file) => {
            let script = &mut Source::new(file);
            script_on_disk(rt, volume, bytes, script, writer, mode, options, notes)
        }
        Lines::Standard => {
            let script = &mut Source::new(rt.reader());
            script_on_disk(rt, volume, bytes, script, writer, mode, options, notes)
        }
    }
}

// The lines of a script. The volume that the run gives back is closed here.
fn script_on_disk<R: Files + AllocGlobal + Print, S: Read, F: Folder + Drop>(
    rt: &R,
    volume: File,
    bytes: u64,
    script: &mut Source<S>,
    writer: BufWriter<Save<F>>,
    mode: Option<u32>,
    options: Options,
    notes: &mut Notes,
) -> ToOut<F> {
    let answers = &mut Sink::new(BoundedFile::new(io::writer(rt), answers_limit(rt)));
    let room = &mut Room::new(rt.alloc());
    run_on_disk_to_out(
        room, volume, bytes, script, answers, writer, mode, options, notes,
    )
    .close()
}

// The most bytes that FILE may have. A session over a file on disk has one limit, whether its bytes
// stay there or not, so that an edit is refused in both or in none.
fn limit_of(arguments: &Arguments, is_one_limit: bool) -> u64
    ensures { result ≡ unwrap_or arguments.now.max_bytes
        (usual_limit (arguments.now.on_disk || is_one_limit)) }
{
    let usual = if arguments.on_disk || is_one_limit {
        DEFAULT_LIMIT_ON_DISK
    } else {
        DEFAULT_LIMIT
    };
    arguments.max_bytes.unwrap_or(usual)
}

// How the command line asks for the run.
fn options(arguments: &Arguments, is_one_limit: bool) -> Options
    requires { IfSome arguments.now.max_bytes (λ n. n ≤ 1099511627776) }
    ensures reading { result.reading ≡ record {
      fixed = arguments.now.fixed;
      opaque = arguments.now.opaque;
      floats = arguments.now.floats;
      order = arguments.now.order;
      samples = arguments.now.samples;
      format = arguments.now.format;
      texts = arguments.now.texts;
      tail = arguments.now.tail;
    } }
    ensures bytes { result.limits.bytes ≡ unwrap_or arguments.now.max_bytes
        (usual_limit (arguments.now.on_disk || is_one_limit)) }
    ensures traces { result.limits.traces ≡ 4294967295 }
    ensures stop { result.stop ≡ arguments.now.stop }
    ensures save { result.save ≡ ((is_some arguments.now.out || arguments.now.in_place)
        && (not arguments.now.session || arguments.now.save_at_end)) }
{
    let limits = match Limits::new(limit_of(arguments, is_one_limit), u32::MAX) {
        Some(limits) => limits,
        None => unreachable!(),
    };
    Options {
        reading: reading_of(arguments),
        limits,
        stop: arguments.stop,
        save: (arguments.out.is_some() || arguments.in_place)
            && (!arguments.session || arguments.save_at_end),
    }
}
