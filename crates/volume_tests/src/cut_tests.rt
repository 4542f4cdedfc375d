// Files that are cut under a limit of traces, which no run of the program meets, and traces that
// are measured, with values worked by hand. How files are cut otherwise is tried on the built
// program.
use crate::files::two_traces;
use crate::heads::{counted_head, integers};
use frame_cut::{
    Head, Limits, LoadFault, Reading, cut, extension_count, front_length, sample_count,
    trace_length,
};
use num_order::Order;
use room::Room;
use sample_codes::IntegerFormat;
use std::alloc::Global;
use std::process::Abort;
use std::test::Fail;

// The number of traces of the file, or why it is refused.
fn traces(alloc: Global, bytes: &[u8], limits: Limits) -> Result<u32, LoadFault> {
    match cut(&mut Room::new(alloc), bytes, Reading::as_written(), limits) {
        Ok(cut) => Ok(cut.count()),
        Err(fault) => Err(fault),
    }
}

// Asserts that the first bytes of the file are cut under these limits, or are refused so.
fn expect_within(
    rt: &impl Abort,
    alloc: Global,
    file: &[u8],
    (length, bytes, count): (usize, u64, u32),
    expected: Result<u32, LoadFault>,
) {
    let limits = Limits::new(bytes, count).expect(rt, "below 2^40");
    assert_eq!(rt;
        traces(alloc, &file[..length.min(file.len())], limits),
        expected,
        "{length} bytes within {bytes}, {count} traces"
    );
}

// A torn trace is told before too many.
fn expect_limits_kept(rt: &impl Abort, alloc: Global, file: &[u8]) {
    for (within, expected) in [
        ((4088, 4088, 2), Ok(2)),
        ((4088, 4087, 2), Err(LoadFault::TooLarge)),
        ((4088, 0, 0), Err(LoadFault::TooLarge)),
        ((4088, 4088, 1), Err(LoadFault::TooManyTraces)),
        ((4088, 4088, 0), Err(LoadFault::TooManyTraces)),
        ((4087, 4088, 1), Err(LoadFault::Truncated(2))),
    ] {
        expect_within(rt, alloc, file, within, expected);
    }
}

#[test]
fn keeps_the_limits(rt: HostRuntime) -> Result<(), Fail> {
    let file = two_traces(rt.alloc())?;
    expect_limits_kept(&rt, rt.alloc(), &file);
    let printed = format!(in rt.alloc(); "{}", LoadFault::TooManyTraces)?;
    assert_eq!(rt; printed.as_str(), "L15 too many traces");
    Ok(())
}

// A trace of one extension, and of as many samples as 32 bits hold.
fn measures_the_longest(rt: &impl Abort, mut head: Head, front: &[u8; 480]) {
    assert_eq!(rt; front_length(&head), 480);
    assert!(rt; head.extensions != 0);
    assert_eq!(rt; extension_count(&head, front), Some(1));
    assert_eq!(rt; trace_length(&head, front), Some(480 + 2 * 4294967295));
    head.format = integers(IntegerFormat::Unsigned64);
    assert_eq!(rt; trace_length(&head, front), Some(480 + 8 * 4294967295));
    head.order = Order::Little;
    assert_eq!(rt; extension_count(&head, front), None);
    assert_eq!(rt; trace_length(&head, front), None);
}

// Headers of zeros.
fn measures_the_shortest(rt: &impl Abort, head: &Head, front: &[u8; 480]) {
    assert_eq!(rt; front_length(head), 480);
    assert!(rt; head.extensions != 0);
    assert_eq!(rt; extension_count(head, front), Some(3));
    assert_eq!(rt; sample_count(head, front), 2);
}

#[test]
fn measures_traces(rt: HostRuntime) {
    let head = counted_head();
    let mut front = [0u8; 480];
    measures_the_shortest(&rt, &head, &front);
    front[376..380].copy_from_slice(&[0xFF; 4]);
    front[397] = 1;
    measures_the_longest(&rt, head, &front);
}
