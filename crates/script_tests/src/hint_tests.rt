// The names and commands that hints are taken from: each is one, and none is left out.
use field_map::{bin_field, header_field, is_geometry, named};
use script_hints::{BINARY_NAMES, COMMANDS, TRACE_NAMES, form};
use std::process::Abort;

fn is_trace_name(name: &str) -> bool {
    is_geometry(name) || named(name).is_some()
}

fn expect_trace_names(rt: &impl Abort, names: &[&str]) {
    for name in names {
        assert!(rt; is_trace_name(name), "{name}");
    }
}

fn expect_binary_names(rt: &impl Abort, names: &[&str]) {
    for name in names {
        assert!(rt; bin_field(name).is_some(), "{name}");
    }
}

#[test]
fn each_name_is_one(rt: HostRuntime) {
    expect_trace_names(&rt, &TRACE_NAMES);
    expect_binary_names(&rt, &BINARY_NAMES);
}

#[test]
fn each_field_has_its_name(rt: HostRuntime) {
    for k in 0..99u32 {
        let is_there = match header_field(k) {
            Some((name, _)) => TRACE_NAMES.contains(&name),
            None => false,
        };
        assert!(rt; is_there, "{k}");
    }
    assert!(rt; header_field(99).is_none());
}

fn has_form(command: &str) -> bool {
    form(command.as_bytes())
        .as_bytes()
        .starts_with(command.as_bytes())
}

fn expect_forms(rt: &impl Abort, commands: &[&str]) {
    for command in commands {
        assert!(rt; has_form(command), "{command}");
    }
}

#[test]
fn each_command_has_a_form(rt: HostRuntime) {
    expect_forms(&rt, &COMMANDS);
}
