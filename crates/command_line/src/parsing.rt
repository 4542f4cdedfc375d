// The command line, read by clap.
ghost use Rattle.std.specs.Prelude.{◌≡◌, ◌≤◌, ℕ, List, [], ◌∷◌, Some, None, IfOk, IfSome, IsNone, IsSome, codes, map, option_map};
ghost use Rattle.std.specs.String.{string_bytes};
ghost use Rattle.clap.specs.Words.{FailsBy, app_of, first_of, one_of, found_of, first_value, one_text};
ghost use Rattle.command_line.specs.CommandLine.{segywb, titled, matched, is_set, order_refusals, refusals, IsNumberIn, IsReadable, ReadsLimit, ReadsCount, ReadsOrder};

use clap::error::ErrorKind;
use clap::{ArgMatches, Command, Error};
use num_order::Order;
use std::alloc::{AllocError, Global};

mod args;
mod read;

pub use crate::parsing::read::Arguments;

const GREATEST_LIMIT: u64 = 1099511627776;

// What `--help` says above the arguments: in a function of its own, as the check of the command
// with this text at hand takes a minute.
fn about() -> &'static str {
    "Repairs SEG-Y files: runs a script of edits and queries over FILE, prints one answer for \
     each\nline on standard output, and saves the edited file where --out says, or in FILE itself \
     with\n--in-place. A save that fails leaves what was there as it was."
}

// What it says below them.
fn after() -> &'static str {
    "Exit status:\n\
     \x20 0  no line was refused\n\
     \x20 1  some line was refused\n\
     \x20 2  the command line is not accepted, or --help or --version was asked for\n\
     \x20 3  FILE cannot be opened, or is refused, or a repair of it was cut off\n\
     \x20 4  SCRIPT cannot be opened or read, or the answers or the save failed, or FILE was\n\
     \x20    changed by another program before the save\n\n\
     Examples:\n\
     \x20 segywb line.sgy --script fix.txt --out fixed.sgy\n\
     \x20 segywb line.sgy --script fix.txt --stop --out line.sgy\n\
     \x20 segywb line.sgy --script fix.txt --stop --in-place\n\
     \x20 echo info | segywb line.sgy --session\n\n\
     The script language: man 5 segywb-script, or docs/MANUAL.md."
}

// The program's name, with its version and what `--help` says above and below the arguments. An
// option may stand more than once.
fn titled_command<'a>(alloc: Global) -> Command<'a>
    ensures { app_of result ≡ titled }
{
    Command::new(alloc, "segywb")
        .version("0.1.0")
        .about(about())
        .after_help(after())
        .args_override_self(true)
}

fn command<'a>(alloc: Global) -> Result<Command<'a>, AllocError>
    ensures { IfOk result (λ c. app_of c ≡ segywb) }
{
    let command = titled_command(alloc)
        .arg(args::file(alloc))?
        .arg(args::script(alloc))?
        .arg(args::out(alloc))?
        .arg(args::in_place(alloc))?
        .arg(args::on_disk(alloc))?
        .arg(args::fixed(alloc))?
        .arg(args::samples(alloc))?
        .arg(args::format(alloc))?
        .arg(args::texts(alloc))?
        .arg(args::tail(alloc))?
        .arg(args::floats(alloc))?
        .arg(args::opaque(alloc))?
        .arg(args::order(alloc))?
        .arg(args::limit(alloc))?
        .arg(args::stop(alloc))?
        .arg(args::session(alloc))?
        .arg(args::save_at_end(alloc))?
        .arg(args::quiet(alloc))?
        .arg(args::recover(alloc))?
        .arg(args::look(alloc))?;
    Ok(command)
}

// The limit on the file's bytes; `None` where it is no number from 1 to 2^40, which the matches of
// `command` rule out.
fn max_bytes(matches: &ArgMatches) -> Option<Option<u64>>
    ensures gives { IsNumberIn 1 1099511627776 (one_text (found_of matches.now) (codes "max-bytes"))
        → IsSome result }
    ensures text { IfSome result
        (λ limit. ReadsLimit (one_text (found_of matches.now) (codes "max-bytes")) limit) }
    ensures range { IfSome result (λ limit. IfSome limit (λ n. (1 ≤ n) × (n ≤ 1099511627776))) }
{
    match matches.try_get_one::<u64>("max-bytes") {
        Ok(None) => Some(None),
        Ok(Some(n)) if 1 <= n && n <= GREATEST_LIMIT => Some(Some(n)),
        _ => None,
    }
}

// A number that is asked for; `None` where it is above the greatest, which the matches of `command`
// rule out.
fn number(matches: &ArgMatches, id: &str, greatest: u64) -> Option<Option<u64>>
    ensures gives { IsNumberIn 0 greatest (one_text (found_of matches.now) id.now) → IsSome result }
    ensures text { IfSome result
        (λ number. ReadsLimit (one_text (found_of matches.now) id.now) number) }
    ensures range { IfSome result (λ number. IfSome number (λ n. n ≤ greatest)) }
{
    match matches.try_get_one::<u64>(id) {
        Ok(None) => Some(None),
        Ok(Some(n)) if n <= greatest => Some(Some(n)),
        _ => None,
    }
}

// The number of samples that is asked for.
fn samples(matches: &ArgMatches) -> Option<Option<u32>>
    ensures gives { IsNumberIn 0 4294967295 (one_text (found_of matches.now) (codes "samples"))
        → IsSome result }
    ensures text { IfSome result
        (λ samples. ReadsLimit (one_text (found_of matches.now) (codes "samples")) samples) }
{
    match number(matches, "samples", u32::MAX as u64)? {
        Some(n) => Some(Some(n as u32)),
        None => Some(None),
    }
}

// The code of the sample format that is asked for.
fn format(matches: &ArgMatches) -> Option<Option<u16>>
    ensures gives { IsNumberIn 0 65535 (one_text (found_of matches.now) (codes "format"))
        → IsSome result }
    ensures text { IfSome result
        (λ format. ReadsLimit (one_text (found_of matches.now) (codes "format")) format) }
{
    match number(matches, "format", u16::MAX as u64)? {
        Some(n) => Some(Some(n as u16)),
        None => Some(None),
    }
}

// The number of extended textual headers that is asked for.
fn texts(matches: &ArgMatches) -> Option<Option<i16>>
    ensures gives { IsNumberIn 0 32767 (one_text (found_of matches.now) (codes "texts"))
        → IsSome result }
    ensures text { IfSome result
        (λ texts. ReadsCount (one_text (found_of matches.now) (codes "texts")) texts) }
{
    match number(matches, "texts", i16::MAX as u64)? {
        Some(n) => Some(Some(n as i16)),
        None => Some(None),
    }
}

// The order of bytes that is asked for; `None` where the word names none.
fn order(matches: &ArgMatches) -> Option<Option<Order>>
    ensures refused { IsNone result
        → order_refusals (first_value (found_of matches.now) (codes "order"))
        ≡ ErrorKind.InvalidValue ∷ [] }
    ensures text { IfSome result
        (λ order. ReadsOrder (first_value (found_of matches.now) (codes "order")) order) }
{
    match matches.get_str("order") {
        None => Some(None),
        Some("big") => Some(Some(Order::Big)),
        Some("little") => Some(Some(Order::Little)),
        Some(_) => None,
    }
}

// Whether a flag is set.
fn is_set(matches: &ArgMatches, id: &str) -> bool
    ensures { result ≡ is_set (first_value (found_of matches.now) id.now) }
{
    match matches.get_str(id) {
        Some(text) => text == "true",
        None => false,
    }
}

// `None` never comes where the matches are those of `command`.
fn read_matches<'a>(matches: &ArgMatches<'a>, order: Option<Order>) -> Option<Arguments<'a>>
    ensures gives { IsReadable (found_of matches.now) → IsSome result }
    ensures file { IfSome result (λ a. first_value (found_of matches.now) (codes "FILE") ≡ Some
        a.file.now) }
    ensures script { IfSome result
        (λ a. first_value (found_of matches.now) (codes "script") ≡ option_map (λ s. s.now)
        a.script) }
    ensures out { IfSome result (λ a. first_value (found_of matches.now) (codes "out") ≡ option_map
        (λ s. s.now) a.out) }
    ensures in_place { IfSome result
        (λ a. a.in_place ≡ is_set (first_value (found_of matches.now) (codes "in-place"))) }
    ensures on_disk { IfSome result
        (λ a. a.on_disk ≡ is_set (first_value (found_of matches.now) (codes "on-disk"))) }
    ensures limit { IfSome result
        (λ a. ReadsLimit (one_text (found_of matches.now) (codes "max-bytes")) a.max_bytes) }
    ensures range { IfSome result (λ a. IfSome a.max_bytes (λ n. (1 ≤ n) × (n ≤ 1099511627776))) }
    ensures fixed { IfSome result
        (λ a. a.fixed ≡ is_set (first_value (found_of matches.now) (codes "fixed"))) }
    ensures samples { IfSome result
        (λ a. ReadsLimit (one_text (found_of matches.now) (codes "samples")) a.samples) }
    ensures format { IfSome result
        (λ a. ReadsLimit (one_text (found_of matches.now) (codes "format")) a.format) }
    ensures texts { IfSome result
        (λ a. ReadsCount (one_text (found_of matches.now) (codes "texts")) a.texts) }
    ensures tail { IfSome result
        (λ a. a.tail ≡ is_set (first_value (found_of matches.now) (codes "tail"))) }
    ensures floats { IfSome result
        (λ a. a.floats ≡ is_set (first_value (found_of matches.now) (codes "floats"))) }
    ensures opaque { IfSome result
        (λ a. a.opaque ≡ is_set (first_value (found_of matches.now) (codes "opaque-samples"))) }
    ensures order { IfSome result (λ a. a.order ≡ order) }
    ensures stop { IfSome result
        (λ a. a.stop ≡ is_set (first_value (found_of matches.now) (codes "stop"))) }
    ensures session { IfSome result
        (λ a. a.session ≡ is_set (first_value (found_of matches.now) (codes "session"))) }
    ensures save_at_end { IfSome result
        (λ a. a.save_at_end ≡ is_set (first_value (found_of matches.now) (codes "save-at-end"))) }
    ensures quiet { IfSome result
        (λ a. a.quiet ≡ is_set (first_value (found_of matches.now) (codes "quiet"))) }
    ensures recover { IfSome result
        (λ a. a.recover ≡ is_set (first_value (found_of matches.now) (codes "recover"))) }
    ensures look { IfSome result
        (λ a. a.look ≡ is_set (first_value (found_of matches.now) (codes "look"))) }
{
    let file = matches.get_str("FILE")?;
    let script = matches.get_str("script");
    let out = matches.get_str("out");
    let in_place = is_set(matches, "in-place");
    let on_disk = is_set(matches, "on-disk");
    let max_bytes = max_bytes(matches)?;
    let fixed = is_set(matches, "fixed");
    let samples = samples(matches)?;
    let format = format(matches)?;
    let texts = texts(matches)?;
    let tail = is_set(matches, "tail");
    let floats = is_set(matches, "floats");
    let opaque = is_set(matches, "opaque-samples");
    let stop = is_set(matches, "stop");
    let session = is_set(matches, "session");
    let save_at_end = is_set(matches, "save-at-end");
    let quiet = is_set(matches, "quiet");
    let recover = is_set(matches, "recover");
    let look = is_set(matches, "look");
    Some(Arguments {
        file,
        script,
        out,
        in_place,
        on_disk,
        max_bytes,
        fixed,
        samples,
        format,
        texts,
        tail,
        floats,
        opaque,
        order,
        stop,
        session,
        save_at_end,
        quiet,
        recover,
        look,
    })
}

/// What the words of a command line say, the program's name first: `FILE --script S [--out O]
/// [--in-place] [--on-disk] [--fixed] [--samples N] [--format CODE] [--texts N] [--tail]
/// [--floats] [--opaque-samples] [--order big|little] [--max-bytes N] [--stop] [--quiet]`, or
/// `FILE --session [--save-at-end]` with the same options but `--script`, or `FILE --recover`, or
/// `FILE --look`. The number of samples is 0 to 4294967295, CODE 0 to 65535, the number of texts 0
/// to 32767, and that of bytes 1 to 1099511627776. An option may stand more than once, and the last
/// one counts. Refused with clap's text where they are not accepted, `--help`
/// too, or where a growth was refused. Takes memory.
///
/// Other words than those of `refusals` are accepted: `Err` comes for them from want of memory
/// alone, and `Ok` for no others.
pub fn arguments<'a>(alloc: Global, words: &'a [String]) -> Result<Arguments<'a>, Error>
    ensures refusals { FailsBy (refusals (map string_bytes words.now)) result }
    ensures file { IfOk result (λ a. first_of (codes "FILE") (matched (map string_bytes words.now))
        ≡ Some a.file.now) }
    ensures script { IfOk result
        (λ a. first_of (codes "script") (matched (map string_bytes words.now))
        ≡ option_map (λ s. s.now) a.script) }
    ensures out { IfOk result (λ a. first_of (codes "out") (matched (map string_bytes words.now))
        ≡ option_map (λ s. s.now) a.out) }
    ensures in_place { IfOk result
        (λ a. a.in_place
        ≡ is_set (first_of (codes "in-place") (matched (map string_bytes words.now)))) }
    ensures on_disk { IfOk result
        (λ a. a.on_disk
        ≡ is_set (first_of (codes "on-disk") (matched (map string_bytes words.now)))) }
    ensures limit { IfOk result
        (λ a. ReadsLimit (one_of (codes "max-bytes") (matched (map string_bytes words.now)))
        a.max_bytes) }
    ensures range { IfOk result (λ a. IfSome a.max_bytes (λ n. (1 ≤ n) × (n ≤ 1099511627776))) }
    ensures fixed { IfOk result
        (λ a. a.fixed
        ≡ is_set (first_of (codes "fixed") (matched (map string_bytes words.now)))) }
    ensures samples { IfOk result
        (λ a. ReadsLimit (one_of (codes "samples") (matched (map string_bytes words.now)))
        a.samples) }
    ensures format { IfOk result
        (λ a. ReadsLimit (one_of (codes "format") (matched (map string_bytes words.now)))
        a.format) }
    ensures texts { IfOk result
        (λ a. ReadsCount (one_of (codes "texts") (matched (map string_bytes words.now)))
        a.texts) }
    ensures tail { IfOk result
        (λ a. a.tail
        ≡ is_set (first_of (codes "tail") (matched (map string_bytes words.now)))) }
    ensures floats { IfOk result
        (λ a. a.floats
        ≡ is_set (first_of (codes "floats") (matched (map string_bytes words.now)))) }
    ensures opaque { IfOk result
        (λ a. a.opaque
        ≡ is_set (first_of (codes "opaque-samples") (matched (map string_bytes words.now)))) }
    ensures order { IfOk result
        (λ a. ReadsOrder (first_of (codes "order") (matched (map string_bytes words.now)))
        a.order) }
    ensures stop { IfOk result
        (λ a. a.stop
        ≡ is_set (first_of (codes "stop") (matched (map string_bytes words.now)))) }
    ensures session { IfOk result
        (λ a. a.session
        ≡ is_set (first_of (codes "session") (matched (map string_bytes words.now)))) }
    ensures save_at_end { IfOk result
        (λ a. a.save_at_end
        ≡ is_set (first_of (codes "save-at-end") (matched (map string_bytes words.now)))) }
    ensures quiet { IfOk result
        (λ a. a.quiet
        ≡ is_set (first_of (codes "quiet") (matched (map string_bytes words.now)))) }
    ensures recover { IfOk result
        (λ a. a.recover
        ≡ is_set (first_of (codes "recover") (matched (map string_bytes words.now)))) }
    ensures look { IfOk result
        (λ a. a.look
        ≡ is_set (first_of (codes "look") (matched (map string_bytes words.now)))) }
{
    let mut command = command(alloc)?;
    let matches = command.try_get_matches_from_mut(words)?;
    let Some(order) = order(&matches) else {
        return Err(command.error(ErrorKind::InvalidValue, "--order is big or little")?);
    };
    match read_matches(&matches, order) {
        Some(read) => Ok(read),
        None => Err(command.error(ErrorKind::MissingRequiredArgument, "FILE")?),
    }
}
