// An integer's decimal text: its sign, and its digits by their places.
ghost use Rattle.std.specs.Prelude.{◌≡◌, ◌+◌, ◌/◌, ◌%◌, ◌^◌, ◌<◌, ◌≤◌, length, take, drop};
ghost use Rattle.format.specs.Integers.{size, decimal};
ghost use Rattle.format.specs.Forms.{width};
ghost use Rattle.decimal.specs.Reading.{integer_of};
ghost use Rattle.decimal.specs.Texts.{left, Good};

use crate::{int_at, long_at, short_at};
use format::StringForm;

// What is left of an integer's text: the minus sign, where it is to come, and then the `count` lowest digits of `number`.
#[derive(Clone, Copy)]
pub struct Text {
    pub minus: bool,
    pub number: u64,
    pub count: u32,
}

// The powers of ten that 64 bits hold. (A match on numbers becomes a table that stands in the program; an array would be made anew for each call.)
fn ten_to(k: u32) -> u64
    requires { k < 20 }
    ensures { (result ≡ 10 ^ k) × (1 ≤ result) }
{
    match k {
        0 => 1,
        1 => 10,
        2 => 100,
        3 => 1_000,
        4 => 10_000,
        5 => 100_000,
        6 => 1_000_000,
        7 => 10_000_000,
        8 => 100_000_000,
        9 => 1_000_000_000,
        10 => 10_000_000_000,
        11 => 100_000_000_000,
        12 => 1_000_000_000_000,
        13 => 10_000_000_000_000,
        14 => 100_000_000_000_000,
        15 => 1_000_000_000_000_000,
        16 => 10_000_000_000_000_000,
        17 => 100_000_000_000_000_000,
        18 => 1_000_000_000_000_000_000,
        _ => 10_000_000_000_000_000_000,
    }
}

// A figure as its digit.
fn digit(d: u64) -> u8
    requires { d < 10 }
    ensures { result ≡ 0x30 + d }
{
    0x30 + d as u8
}

// The digit of n that counts 10 ^ place: those above it are left off by `% 10`, so that n stays as it is from digit to digit.
pub fn digit_at(n: u64, place: u32) -> u8
    requires { place < 20 }
    ensures { result ≡ 0x30 + n / 10 ^ place % 10 }
{
    digit((n / ten_to(place)) % 10)
}

// How many digits n has.
#[tactic(auto, using(crate::proofs::Tens::size_is))]
fn size(n: u64) -> u32
    ensures { (result ≡ size n) × (result ≤ 20) }
{
    for k in 1..20 {
        if n < ten_to(k) {
            return k;
        }
    }
    20
}

impl Text {
    // The decimal text of z.
    pub fn of(z: i64) -> Text
        ensures { (left result ≡ decimal z) × Good result }
    {
        let n = z.unsigned_abs();
        Text {
            minus: z < 0,
            number: n,
            count: size(n),
        }
    }
}

// The text of the integer whose octets start at `at`, in a form of integers.
pub fn text_at(s: &[u8], at: usize, form: StringForm) -> Text
    requires { (1 ≤ width form) × (at + width form ≤ length s.now) }
    ensures { (left result ≡ decimal (integer_of (width form) (take (width form) (drop at s.now)))) × Good result }
{
    match form {
        StringForm::Short => Text::of(i64::from(short_at(s, at))),
        StringForm::Int => Text::of(i64::from(int_at(s, at))),
        StringForm::Long => Text::of(long_at(s, at)),
        _ => Text::of(0),
    }
}
