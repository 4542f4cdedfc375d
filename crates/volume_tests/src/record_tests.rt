// The record of a trace with the samples of another one. One function owns the map and lends it
// out: the proof of a function that owns a map takes the longer the more it does, and that of a
// borrower stays short.
use crate::heads::{head_of, integers, plain_head};
use crate::views::view;
use field_map::FieldMap;
use key_counts::Ratio;
use num_order::Order;
use room::Room;
use sample_codes::IntegerFormat;
use std::process::Abort;
use std::test::Fail;
use trace_record::{Amplitudes, record_of, record_with_samples_of};

// What a record tells of the values of samples.
fn amplitudes(least: i128, greatest: i128, sum: i128) -> Option<Amplitudes> {
    Some(Amplitudes {
        least,
        greatest,
        sum,
    })
}

// The first trace of a small survey: inline 10, crossline 21, two 16-bit samples, 1 and -2.
fn small_trace() -> [u8; 244] {
    let mut base = [0; 244];
    base[7] = 1;
    base[39] = 100;
    base[115] = 2;
    base[116] = 0x0F;
    base[117] = 0xA0;
    base[182] = 0x03;
    base[183] = 0xE8;
    base[186] = 0x01;
    base[187] = 0xF4;
    base[191] = 10;
    base[195] = 21;
    base[241] = 1;
    base[242] = 0xFF;
    base[243] = 0xFE;
    base
}

// The headers of the trace, and four samples that its bytes have under another head.
fn samples_of_another_record(rt: &impl Abort, fields: &FieldMap) {
    let bytes = head_of(Order::Little, integers(IntegerFormat::Unsigned8), 4);
    let trace = small_trace();
    let other = record_of(&view(rt, &bytes, &trace, &[]), fields);
    let head = plain_head();
    let record = record_with_samples_of(&view(rt, &head, &trace, &[]), fields, &other);
    assert_eq!(rt; record.amplitudes, amplitudes(0, 255, 510));
    assert_eq!(rt; (record.number, record.samples_field), (4, 2));
    assert_eq!(rt; (record.inline, record.crossline), (10, 21));
    assert_eq!(rt; record.x, Ratio::whole(1000));
}

#[test]
fn takes_the_samples_of_another_record(rt: HostRuntime) -> Result<(), Fail> {
    let fields = FieldMap::standard(&mut Room::new(rt.alloc()), 0)?;
    samples_of_another_record(&rt, &fields);
    Ok(())
}
