// A natural number of fixed room, with what an exact comparison needs.
ghost use Rattle.std.specs.Prelude.{◌≡◌, ℕ, ◌+◌, ◌*◌, ◌^◌, ◌<◌, length};
ghost use Rattle.std.specs.Ordering.{nat_cmp};
ghost use Rattle.std.specs.Str.Parse.{digits_value, AllDigits};
ghost use Rattle.float_text.specs.Limbs.{value_below, limb_weight};

use std::cmp::Ordering;
use std::marker::Model;

// How many limbs of 64 bits there are, the lowest first: room for 2 ^ 1024 * 10 ^ 1074.
const LIMBS: usize = 72;

/// A natural number below 2 ^ 4608.
#[derive(Drop)]
pub(crate) struct LargeNumber {
    limbs: [u64; LIMBS],
}

impl Model for LargeNumber {
    ghost Value = { ℕ };

    ghost view = { λ n. value_below n.limbs 72 };
}

// Multiplies and adds, and returns what goes past the room.
fn multiply_add(limbs: &mut [u64; LIMBS], by: u64, add: u64) -> u64
    ensures { value_below limbs.new 72 + result * limb_weight 72
        ≡ value_below limbs.old 72 * by + add }
{
    let mut carry = add;
    for at in 0..LIMBS {
        let wide = limbs[at] as u128 * by as u128 + carry as u128;
        limbs[at] = (wide & 0xffff_ffff_ffff_ffff) as u64;
        carry = (wide >> 64) as u64;
    }
    carry
}

fn compare_limbs(left: &[u64], right: &[u64]) -> Ordering
    requires { (length left.now ≡ 72) × (length right.now ≡ 72) }
    ensures { result ≡ nat_cmp (value_below left.now 72) (value_below right.now 72) }
{
    let mut at = LIMBS;
    while at > 0 {
        at -= 1;
        if left[at] < right[at] {
            return Ordering::Less;
        }
        if left[at] > right[at] {
            return Ordering::Greater;
        }
    }
    Ordering::Equal
}

impl LargeNumber {
    pub(crate) fn new(number: u64) -> LargeNumber
        ensures { result ≡ number }
    {
        let mut large = LargeNumber { limbs: [0; LIMBS] };
        large.multiply_add(1, number);
        large
    }

    /// Multiplies by a number, and adds another one.
    pub(crate) fn multiply_add(&mut self, by: u64, add: u64)
        requires { self.old * by + add < limb_weight 72 }
        ensures { self.new ≡ self.old * by + add }
    {
        multiply_add(&mut self.limbs, by, add);
    }

    // Multiplies by a number so many times.
    fn multiply(&mut self, by: u64, times: u64)
        requires some { 0 < by }
        requires room { self.old * by ^ times < limb_weight 72 }
        ensures { self.new ≡ self.old * by ^ times }
    {
        let mut left = times;
        while left > 0 {
            self.multiply_add(by, 0);
            left -= 1;
        }
    }

    // Multiplies by a number so many times, by a power of it, of which one pass is worth `count`.
    fn multiply_by_power(&mut self, by: u64, count: u64, power: u64, times: u64)
        requires some { (0 < by) × (0 < count) }
        requires power { power ≡ by ^ count }
        requires room { self.old * by ^ times < limb_weight 72 }
        ensures { self.new ≡ self.old * by ^ times }
    {
        self.multiply(power, times / count);
        self.multiply(by, times % count);
    }

    /// Multiplies by so many twos.
    pub(crate) fn multiply_by_twos(&mut self, times: u64)
        requires { self.old * 2 ^ times < limb_weight 72 }
        ensures { self.new ≡ self.old * 2 ^ times }
    {
        self.multiply_by_power(2, 63, 0x8000_0000_0000_0000, times);
    }

    /// Multiplies by so many fives.
    pub(crate) fn multiply_by_fives(&mut self, times: u64)
        requires { self.old * 5 ^ times < limb_weight 72 }
        ensures { self.new ≡ self.old * 5 ^ times }
    {
        self.multiply_by_power(5, 27, 7_450_580_596_923_828_125, times);
    }

    /// Multiplies by so many tens.
    pub(crate) fn multiply_by_tens(&mut self, times: u64)
        requires { self.old * 10 ^ times < limb_weight 72 }
        ensures { self.new ≡ self.old * 10 ^ times }
    {
        self.multiply_by_power(10, 19, 10_000_000_000_000_000_000, times);
    }

    /// Puts digits behind those of the number.
    pub(crate) fn push_digits(&mut self, digits: &[u8])
        requires digits { AllDigits 10 digits.now }
        requires room { self.old * 10 ^ length digits.now + digits_value 10 digits.now
            < limb_weight 72 }
        ensures { self.new ≡ self.old * 10 ^ length digits.now + digits_value 10 digits.now }
    {
        for at in 0..digits.len() {
            self.multiply_add(10, (digits[at] - b'0') as u64);
        }
    }

    pub(crate) fn compare(&self, other: &LargeNumber) -> Ordering
        ensures { result ≡ nat_cmp self.now other.now }
    {
        compare_limbs(&self.limbs, &other.limbs)
    }
}
