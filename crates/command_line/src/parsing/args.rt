// The arguments of the command line, one by one.
ghost use Rattle.std.specs.Prelude.{◌≡◌, false};
ghost use Rattle.clap.specs.Words.{rule_of};
ghost use Rattle.command_line.specs.CommandLine.{file_rule, script_rule, out_rule, in_place_rule, on_disk_rule, fixed_rule, samples_rule, format_rule, texts_rule, tail_rule, floats_rule, opaque_rule, order_rule, limit_rule, stop_rule, session_rule, save_at_end_rule, quiet_rule, recover_rule, look_rule};

use clap::builder::ValueParser;
use clap::{Arg, ArgAction};
use std::alloc::Global;

// `FILE`: the file to load.
pub fn file<'a>(alloc: Global) -> Arg<'a>
    ensures rule { rule_of result ≡ file_rule }
    ensures local { result.global ≡ false }
{
    Arg::new(alloc, "FILE")
        .required(true)
        .action(ArgAction::Set)
        .help(
            "SEG-Y file of integers, or with --floats or --opaque-samples; in memory, but for \
             --on-disk",
        )
}

// `--script S`: the script to run.
pub fn script<'a>(alloc: Global) -> Arg<'a>
    ensures rule { rule_of result ≡ script_rule }
    ensures local { result.global ≡ false }
{
    Arg::new(alloc, "script")
        .long("script")
        .value_name("SCRIPT")
        .help("edits and queries, one a line; - is standard input")
}

// `--out O`: where the file is saved after the script.
pub fn out<'a>(alloc: Global) -> Arg<'a>
    ensures rule { rule_of result ≡ out_rule }
    ensures local { result.global ≡ false }
{
    Arg::new(alloc, "out").long("out").value_name("OUT").help(
        "save the edited file to OUT, which may be FILE; without it nothing is saved",
    )
}

// `--in-place`: FILE itself becomes the edited file.
pub fn in_place<'a>(alloc: Global) -> Arg<'a>
    ensures rule { rule_of result ≡ in_place_rule }
    ensures local { result.global ≡ false }
{
    Arg::new(alloc, "in-place")
        .long("in-place")
        .action(ArgAction::SetTrue)
        .help("repair FILE itself: only changed bytes are written, and a crash loses nothing")
}

// `--on-disk`: the bytes of the file stay on disk.
pub fn on_disk<'a>(alloc: Global) -> Arg<'a>
    ensures rule { rule_of result ≡ on_disk_rule }
    ensures local { result.global ≡ false }
{
    Arg::new(alloc, "on-disk")
        .long("on-disk")
        .action(ArgAction::SetTrue)
        .help(
            "leave the bytes of FILE on disk, for one larger than memory; leave it alone meanwhile",
        )
}

// `--fixed`: each trace has the binary header's number of samples, whatever bytes 3503-3504 say.
pub fn fixed<'a>(alloc: Global) -> Arg<'a>
    ensures rule { rule_of result ≡ fixed_rule }
    ensures local { result.global ≡ false }
{
    Arg::new(alloc, "fixed")
        .long("fixed")
        .action(ArgAction::SetTrue)
        .help("read each trace with the binary header's number of samples")
}

// `--samples N`: each trace has N samples, whatever the headers say.
pub fn samples<'a>(alloc: Global) -> Arg<'a>
    ensures rule { rule_of result ≡ samples_rule }
    ensures local { result.global ≡ false }
{
    Arg::new(alloc, "samples")
        .long("samples")
        .value_parser(ValueParser::unsigned(0, 4294967295))
        .value_name("N")
        .help("read each trace with N samples, whatever the headers say")
}

// `--format CODE`: the format of the samples, whatever bytes 3225-3226 say.
pub fn format<'a>(alloc: Global) -> Arg<'a>
    ensures rule { rule_of result ≡ format_rule }
    ensures local { result.global ≡ false }
{
    Arg::new(alloc, "format")
        .long("format")
        .value_parser(ValueParser::unsigned(0, 65535))
        .value_name("CODE")
        .help("read the samples in the format with this code, whatever bytes 3225-3226 say")
}

// `--texts N`: the number of extended textual headers, whatever bytes 3505-3506 say.
pub fn texts<'a>(alloc: Global) -> Arg<'a>
    ensures rule { rule_of result ≡ texts_rule }
    ensures local { result.global ≡ false }
{
    Arg::new(alloc, "texts")
        .long("texts")
        .value_parser(ValueParser::unsigned(0, 32767))
        .value_name("N")
        .help("read N extended textual headers, whatever bytes 3505-3506 say")
}

// `--tail`: what is less than a trace, behind the last one, is kept as bytes of no trace.
pub fn tail<'a>(alloc: Global) -> Arg<'a>
    ensures rule { rule_of result ≡ tail_rule }
    ensures local { result.global ≡ false }
{
    Arg::new(alloc, "tail")
        .long("tail")
        .action(ArgAction::SetTrue)
        .help("keep what stands behind the last whole trace as bytes of no trace")
}

// `--floats`: the samples of formats of floats have their values.
pub fn floats<'a>(alloc: Global) -> Arg<'a>
    ensures rule { rule_of result ≡ floats_rule }
    ensures local { result.global ≡ false }
{
    Arg::new(alloc, "floats")
        .long("floats")
        .action(ArgAction::SetTrue)
        .help(
            "read formats 1, 5 and 6 too, floats as IBM and IEEE 754 have them, with their values",
        )
}

// `--opaque-samples`: formats whose samples have no value here are read too.
pub fn opaque<'a>(alloc: Global) -> Arg<'a>
    ensures rule { rule_of result ≡ opaque_rule }
    ensures local { result.global ≡ false }
{
    Arg::new(alloc, "opaque-samples")
        .long("opaque-samples")
        .action(ArgAction::SetTrue)
        .help(
            "read formats 1, 4, 5 and 6 too, with samples that are bytes without a value; \
             with --floats format 4 alone",
        )
}

// `--order big|little`: the order of bytes, where bytes 3297-3300 do not tell it.
pub fn order<'a>(alloc: Global) -> Arg<'a>
    ensures rule { rule_of result ≡ order_rule }
    ensures local { result.global ≡ false }
{
    Arg::new(alloc, "order")
        .long("order")
        .value_name("big|little")
        .help("the order of bytes, where bytes 3297-3300 do not tell it [default: big]")
}

// `--max-bytes N`: the most bytes that the file may have.
pub fn limit<'a>(alloc: Global) -> Arg<'a>
    ensures rule { rule_of result ≡ limit_rule }
    ensures local { result.global ≡ false }
{
    Arg::new(alloc, "max-bytes")
        .long("max-bytes")
        .value_parser(ValueParser::unsigned(1, 1099511627776))
        .value_name("N")
        .help(
            "refuse files above N bytes, at most 1099511627776 \
             [default: 4294967296; with --on-disk 1099511627776]",
        )
}

// `--stop`: the first refused line ends the run.
pub fn stop<'a>(alloc: Global) -> Arg<'a>
    ensures rule { rule_of result ≡ stop_rule }
    ensures local { result.global ≡ false }
{
    Arg::new(alloc, "stop")
        .long("stop")
        .action(ArgAction::SetTrue)
        .help("end the run at the first refused line, and save nothing")
}

// `--session`: the lines of standard input are answered one by one.
pub fn session<'a>(alloc: Global) -> Arg<'a>
    ensures rule { rule_of result ≡ session_rule }
    ensures local { result.global ≡ false }
{
    Arg::new(alloc, "session")
        .long("session")
        .action(ArgAction::SetTrue)
        .help("in place of a script, answer the lines of standard input one by one")
}

// `--save-at-end`: a session saves behind its last line too.
pub fn save_at_end<'a>(alloc: Global) -> Arg<'a>
    ensures rule { rule_of result ≡ save_at_end_rule }
    ensures local { result.global ≡ false }
{
    Arg::new(alloc, "save-at-end")
        .long("save-at-end")
        .action(ArgAction::SetTrue)
        .help("in a session, save to --out at the end of its lines too, not only at the line save")
}

// `--quiet`: standard error is not told of refused lines and refused files.
pub fn quiet<'a>(alloc: Global) -> Arg<'a>
    ensures rule { rule_of result ≡ quiet_rule }
    ensures local { result.global ≡ false }
{
    Arg::new(alloc, "quiet")
        .long("quiet")
        .action(ArgAction::SetTrue)
        .help("leave out the places and hints that standard error has for refused lines")
}

// `--recover`: a repair of the file itself that was cut off is undone.
pub fn recover<'a>(alloc: Global) -> Arg<'a>
    ensures rule { rule_of result ≡ recover_rule }
    ensures local { result.global ≡ false }
{
    Arg::new(alloc, "recover")
        .long("recover")
        .action(ArgAction::SetTrue)
        .help("put the old bytes back where a repair by --in-place was cut off")
}

// `--look`: what the head of the file says beside what its length says.
pub fn look<'a>(alloc: Global) -> Arg<'a>
    ensures rule { rule_of result ≡ look_rule }
    ensures local { result.global ≡ false }
{
    Arg::new(alloc, "look")
        .long("look")
        .action(ArgAction::SetTrue)
        .help("print what the head of FILE says beside what its length says, and read no trace")
}
