ghost use Rattle.std.specs.Prelude.{◌≡◌, ◌<◌, ◌^◌, length};
ghost use Rattle.float_sum.specs.Sums.{total_of};

use crate::FloatTotal;

fn sum_of(values: &[f64]) -> f64
    requires { length values.now < 2 ^ 40 }
    ensures { result ≡ total_of values.now }
{
    let mut total = FloatTotal::new();
    for value in values {
        total.add(*value);
    }
    total.sum()
}

#[test]
fn sums(rt: HostRuntime) {
    assert_eq!(rt; sum_of(&[0.1, 0.2, 0.3, 0.4, 0.5, 0.6, 0.7]), 2.8);
    assert_eq!(rt; sum_of(&[1e16, 1.0, -1e16, 1e-300]), 1.0);
    assert_eq!(rt; sum_of(&[f64::MAX, f64::MAX, -f64::MAX, -1.0]), f64::MAX);
    assert_eq!(rt; sum_of(&[f64::MAX, f64::MAX]), f64::INFINITY);
    assert_eq!(rt; sum_of(&[5e-324, 5e-324, -5e-324]), 5e-324);
    assert_eq!(rt; sum_of(&[1e22, 1.0, -1e22, f64::NAN]), 1.0);
    assert_eq!(rt; sum_of(&[1.0, f64::NEG_INFINITY]), f64::NEG_INFINITY);
    assert!(rt; sum_of(&[f64::INFINITY, 1.0, f64::NEG_INFINITY]).is_nan());
    assert_eq!(rt; std::num::f64_to_bits_with_nan(sum_of(&[-0.0, -0.0])), 0);
    assert_eq!(rt; std::num::f64_to_bits_with_nan(sum_of(&[])), 0);
}
