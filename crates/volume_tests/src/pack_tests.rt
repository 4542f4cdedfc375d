// Records that are packed, with the least and the greatest numbers that they may have.
use key_counts::Ratio;
use std::mem::size_of;
use trace_record::{Amplitudes, PackedRecord, Record};

#[test]
#[tactic(auto, unfolding(trace_record::specs::Packable::IsPackable, trace_record::specs::Packable::HaveRange))]
fn keeps_records_small(rt: HostRuntime) {
    let record = Record {
        amplitudes: Some(Amplitudes {
            least: -2,
            greatest: 1,
            sum: -1,
        }),
        x: Ratio::whole(1000),
        y: Ratio::whole(500),
        inline: 10,
        crossline: 21,
        offset: 100,
        sequence: 1,
        number: 2,
        scalar: 0,
        units: 0,
        interval: 4000,
        samples_field: 2,
        has_known_name: true,
    };
    let copy = record;
    assert_eq!(rt; copy, record);
    assert_eq!(rt; size_of::<Record>(), 128);
}

#[test]
#[tactic(auto, unfolding(trace_record::specs::Packable::IsPackable, trace_record::specs::Packable::HaveRange))]
fn packs_the_least_values(rt: HostRuntime) {
    let least = Record {
        amplitudes: Some(Amplitudes {
            least: -0x8000_0000_0000_0000,
            greatest: -0x8000_0000_0000_0000,
            sum: -0x7FFF_FFFF_8000_0000_0000_0000,
        }),
        x: Ratio::scaled(i32::MIN, i16::MAX),
        y: Ratio::scaled(-1, i16::MIN),
        inline: i32::MIN,
        crossline: i32::MIN,
        offset: i32::MIN,
        sequence: i32::MIN,
        number: u32::MAX,
        scalar: i16::MIN,
        units: i16::MIN,
        interval: 0,
        samples_field: 0,
        has_known_name: false,
    };
    assert_eq!(rt; PackedRecord::of(least).record(), least);
}

#[test]
#[tactic(auto, unfolding(trace_record::specs::Packable::IsPackable, trace_record::specs::Packable::HaveRange))]
fn packs_the_greatest_values(rt: HostRuntime) {
    let greatest = Record {
        amplitudes: Some(Amplitudes {
            least: 0xFFFF_FFFF_FFFF_FFFF,
            greatest: 0xFFFF_FFFF_FFFF_FFFF,
            sum: 0xFFFF_FFFE_FFFF_FFFF_0000_0001,
        }),
        x: Ratio::scaled(i32::MAX, i16::MAX),
        y: Ratio::scaled(1, i16::MIN),
        inline: i32::MAX,
        crossline: i32::MAX,
        offset: i32::MAX,
        sequence: i32::MAX,
        number: u32::MAX,
        scalar: i16::MAX,
        units: i16::MAX,
        interval: u16::MAX,
        samples_field: u16::MAX,
        has_known_name: true,
    };
    assert_eq!(rt; PackedRecord::of(greatest).record(), greatest);
}
