// Natural numbers as words that count powers of 2 ^ 32, lowest first.
ghost use Rattle.std.specs.Prelude.{ℕ, ◌≡◌, ◌<◌, ◌≤◌, ◌+◌, ◌*◌, ◌^◌, ◌/◌, cond, length};
ghost use Rattle.float_sum.specs.Worth.{worth, IsWithin};
ghost use Rattle.float_sum.specs.Sums.{AreDigits, HasLeading};

// Adds digits * 2 ^ shift.
#[inline(always)]
pub(crate) fn add(words: &mut [u128], digits: u64, shift: u64)
    requires place { shift / 32 < length words.old }
    requires digits { digits < 2 ^ 53 }
    requires room { IsWithin (2 ^ 127) words.old }
    ensures worth { worth words.new ≡ worth words.old + digits * 2 ^ shift }
    ensures within { (b : ℕ) → IsWithin b words.old → IsWithin (b + 2 ^ 84) words.new }
    ensures length { length words.new ≡ length words.old }
{
    words[(shift / 32) as usize] += u128::from(digits) << (shift % 32);
}

// Carries, so that each word is a digit.
pub(crate) fn carry_all(words: &mut [u128])
    requires room { IsWithin (2 ^ 127) words.old }
    requires fits { worth words.old < 2 ^ (32 * length words.old) }
    ensures worth { worth words.new ≡ worth words.old }
    ensures digits { AreDigits words.new }
    ensures length { length words.new ≡ length words.old }
{
    let mut carry: u128 = 0;
    for i in 0..words.len() {
        let sum = words[i] + carry;
        words[i] = sum % 0x1_0000_0000;
        carry = sum / 0x1_0000_0000;
    }
}

// The difference, and whether it is below 0, where one is borrowed at its end.
pub(crate) fn subtract(from: &[u128], less: &[u128], out: &mut [u128]) -> bool
    requires less { length less.now ≡ length from.now }
    requires out { length out.old ≡ length from.now }
    requires from_digits { AreDigits from.now }
    requires less_digits { AreDigits less.now }
    ensures worth { worth out.new + worth less.now
        ≡ worth from.now + cond result 1 0 * 2 ^ (32 * length from.now) }
    ensures digits { AreDigits out.new }
    ensures length { length out.new ≡ length from.now }
{
    let mut borrow: u128 = 0;
    for i in 0..from.len() {
        let rest = from[i] + 0x1_0000_0000 - less[i] - borrow;
        out[i] = rest % 0x1_0000_0000;
        borrow = 1 - rest / 0x1_0000_0000;
    }
    borrow == 1
}

// The leading digits of a number, how many follow, and whether one of those is not 0.
#[derive(Clone, Copy)]
pub(crate) struct Leading {
    pub(crate) top: u128,
    pub(crate) dropped: u64,
    pub(crate) rest: bool,
}

pub(crate) fn leading_of(words: &[u128]) -> Leading
    requires digits { AreDigits words.now }
    requires length { length words.now < 2 ^ 32 }
    ensures leading { (r : ℕ)
        × HasLeading (worth words.now) result.top result.dropped result.rest r }
    ensures top { result.top < 2 ^ 96 }
    ensures dropped { result.dropped ≤ length words.now }
{
    let mut top: u128 = 0;
    let mut dropped = 0;
    let mut rest = false;
    let mut i = words.len();
    while 0 < i {
        i -= 1;
        let digit = words[i];
        if top < 0x1_0000_0000_0000_0000 {
            top = top * 0x1_0000_0000 + digit;
        } else {
            dropped += 1;
            rest = rest || digit != 0;
        }
    }
    Leading { top, dropped, rest }
}
