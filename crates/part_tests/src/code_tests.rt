// The ranks by which floats are compared, which no file and no answer has.
use float_codes::{FloatFormat, NO_NUMBER};
use num_order::Order;
use sample_codes::ValueFormat;

// Ranks by Python: struct.unpack('>q', struct.pack('>d', v)), of v below 0 minus 1 less the same of
// -v.
#[test]
fn reads_floats_as_ranks(rt: HostRuntime) {
    let ibm = ValueFormat::Float(FloatFormat::Ibm32);
    assert_eq!(rt;
        ibm.decode(Order::Big, &[0xC2, 0x76, 0xA0, 0]),
        -1 - 0x405D_A800_0000_0000
    );
    assert_eq!(rt;
        ibm.decode(Order::Little, &[0, 0, 0x10, 0]),
        0x2FB0_0000_0000_0000
    );
    assert!(rt; ibm.fits(0x405D_A800_0000_0000));
    assert!(rt; !ibm.fits(i128::from(NO_NUMBER)));
    let narrow = ValueFormat::Float(FloatFormat::Ieee32);
    assert_eq!(rt;
        narrow.decode(Order::Big, &[0x3D, 0xCC, 0xCC, 0xCD]),
        0x3FB9_9999_A000_0000
    );
    assert_eq!(rt; narrow.decode(Order::Little, &[0, 0, 0, 0x80]), -1);
    assert_eq!(rt;
        narrow.decode(Order::Big, &[0, 0, 0, 1]),
        0x36A0_0000_0000_0000
    );
    assert!(rt; !narrow.fits(0x3FB9_9999_9999_999A));
    let wide = ValueFormat::Float(FloatFormat::Ieee64);
    assert_eq!(rt;
        wide.decode(Order::Big, &[0xFF, 0xF0, 0, 0, 0, 0, 0, 0]),
        -1 - 0x7FF0_0000_0000_0000
    );
    assert_eq!(rt;
        wide.decode(Order::Big, &[0xFF, 0xF8, 0, 0, 0, 0, 0, 1]),
        i128::from(NO_NUMBER)
    );
    assert!(rt; !wide.fits(1 << 64));
}
