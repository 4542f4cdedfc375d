use crate::Amount;
use std::cmp::Ordering;

// How the number of a word compares with a value.
fn compared(word: &[u8], value: f64) -> Option<Ordering> {
    Some(Amount::of_decimal(word)?.compare(float_codes::rank_of(value)))
}

#[test]
fn decimals(rt: HostRuntime) {
    for (word, value, order) in [
        (b"0.1".as_slice(), 0.1, Ordering::Less),
        (b"3.5".as_slice(), 3.5, Ordering::Equal),
        (b"-0".as_slice(), 0.0, Ordering::Equal),
        (b"0".as_slice(), -0.0, Ordering::Equal),
        (b"-1e-400".as_slice(), -0.0, Ordering::Less),
        (b"1e-400".as_slice(), 5e-324, Ordering::Less),
        (b"1e400".as_slice(), f64::INFINITY, Ordering::Less),
        (
            b"1e400".as_slice(),
            1.7976931348623157e308,
            Ordering::Greater,
        ),
        (
            b"1.00000000000000000000000000001".as_slice(),
            1.0,
            Ordering::Greater,
        ),
        (
            b"-1.00000000000000000000000000001".as_slice(),
            -1.0,
            Ordering::Less,
        ),
        (b"inf".as_slice(), f64::INFINITY, Ordering::Equal),
        (b"inf".as_slice(), f64::NAN, Ordering::Less),
        (b"-inf".as_slice(), -1.7976931348623157e308, Ordering::Less),
    ] {
        assert!(rt; compared(word, value) == Some(order));
    }
    assert!(rt; compared(b"nan", 0.0) == None);
    assert!(rt; compared(b"1e", 0.0) == None);
}

#[test]
fn wholes(rt: HostRuntime) {
    for (number, value, order) in [
        (0i128, -0.0, Ordering::Equal),
        (5, 5.0, Ordering::Equal),
        (-5, 5.0, Ordering::Less),
        (9007199254740993, 9007199254740992.0, Ordering::Greater),
        (-9007199254740993, -9007199254740992.0, Ordering::Less),
        (
            i128::MIN,
            -170141183460469231731687303715884105728.0,
            Ordering::Equal,
        ),
        (
            i128::MAX,
            170141183460469231731687303715884105728.0,
            Ordering::Less,
        ),
    ] {
        let rank = float_codes::rank_of(value);
        assert!(rt; Amount::of_whole(number).compare(rank) == order);
    }
}
