use crate::{Reading, parse, text};
use float_codes::FloatFormat;
use ryu::Buffer;

#[test]
fn texts(rt: HostRuntime) {
    let mut buffer = Buffer::new();
    let wide = FloatFormat::Ieee64;
    assert_eq!(rt; text(wide, 0.1, &mut buffer), "0.1");
    assert_eq!(rt; text(wide, 100.0, &mut buffer), "100");
    assert_eq!(rt; text(wide, -0.0, &mut buffer), "-0");
    assert_eq!(rt;
        text(wide, 9007199254740992.0, &mut buffer),
        "9007199254740992"
    );
    assert_eq!(rt;
        text(wide, -9007199254740994.0, &mut buffer),
        "-9007199254740994.0"
    );
    assert_eq!(rt; text(wide, 1e300, &mut buffer), "1e300");
    assert_eq!(rt; text(wide, 5e-324, &mut buffer), "5e-324");
    assert_eq!(rt; text(wide, f64::NAN, &mut buffer), "nan");
    assert_eq!(rt; text(wide, f64::NEG_INFINITY, &mut buffer), "-inf");
    let narrow = FloatFormat::Ieee32;
    assert_eq!(rt; text(narrow, 123456792.0, &mut buffer), "123456790");
    assert_eq!(rt; text(narrow, 0.10000000149011612, &mut buffer), "0.1");
    assert_eq!(rt;
        text(FloatFormat::Ibm32, 7.2370051459731155e75, &mut buffer),
        "7.2370051459731155e75"
    );
}

#[test]
fn words(rt: HostRuntime) {
    assert!(rt; parse(FloatFormat::Ieee32, b"0.1") == Some(Reading::Value(0.10000000149011612)));
    assert!(rt; parse(FloatFormat::Ibm32, b"0.1") == Some(Reading::Value(0.10000002384185791)));
    assert!(rt; parse(FloatFormat::Ibm32, b"-118.625") == Some(Reading::Value(-118.625)));
    assert!(rt;
        parse(FloatFormat::Ibm32, b"-1e76") == Some(Reading::PastGreatest { negative: true })
    );
    assert!(rt; parse(FloatFormat::Ieee64, b"inf") == Some(Reading::Value(f64::INFINITY)));
    assert!(rt;
        parse(FloatFormat::Ieee64, b"1e309") == Some(Reading::PastGreatest { negative: false })
    );
    assert!(rt; parse(FloatFormat::Ieee64, b"+1") == None);
    assert!(rt; parse(FloatFormat::Ieee64, b"1e") == None);
}

// Decimals at the middle of two IBM values, and beside it by less than a binary64 tells.
#[test]
fn middles(rt: HostRuntime) {
    let ibm = FloatFormat::Ibm32;
    let next = 1.00000095367431640625;
    for (word, value) in [
        (b"1.000000476837158203125".as_slice(), 1.0),
        (b"1.0000004768371582031250000000000001".as_slice(), next),
        (b"-1.0000004768371582031250000000000001".as_slice(), -next),
        (b"1.000001430511474609375".as_slice(), 1.0000019073486328125),
        (b"-10000.014305114746093749999999999E-4".as_slice(), -next),
        (
            b"0.00000001000001430511474609374999999999e8".as_slice(),
            next,
        ),
    ] {
        assert!(rt; parse(ibm, word) == Some(Reading::Value(value)));
    }
}
