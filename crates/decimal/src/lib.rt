// Integers of 2, 4 or 8 octets, highest first, two's complement: from octets to integers and back, to decimal text and back.
// May depend on format and fields.
#![tactic(auto)]

pub mod printing;
pub mod scanning;

ghost use Rattle.std.specs.Prelude.{◌≡◌, ◌+◌, ◌^◌, ◌≤◌, length, take, drop};
ghost use Rattle.format.specs.Integers.{octets_of};
ghost use Rattle.fields.specs.PutContracts.{Puts};
ghost use Rattle.decimal.specs.Reading.{integer_of};

use fields::put::put_part;

// The integer of the octets from `at`.
pub fn short_at(s: &[u8], at: usize) -> i16
    requires { at + 2 ≤ length s.now }
    ensures { result ≡ integer_of 2 (take 2 (drop at s.now)) }
{
    i16::from_be_bytes([s[at], s[at + 1]])
}

pub fn int_at(s: &[u8], at: usize) -> i32
    requires { at + 4 ≤ length s.now }
    ensures { result ≡ integer_of 4 (take 4 (drop at s.now)) }
{
    i32::from_be_bytes([s[at], s[at + 1], s[at + 2], s[at + 3]])
}

pub fn long_at(s: &[u8], at: usize) -> i64
    requires { at + 8 ≤ length s.now }
    ensures { result ≡ integer_of 8 (take 8 (drop at s.now)) }
{
    i64::from_be_bytes([
        s[at],
        s[at + 1],
        s[at + 2],
        s[at + 3],
        s[at + 4],
        s[at + 5],
        s[at + 6],
        s[at + 7],
    ])
}

// The octets of z; what the output has no room for is left out, and counted.
pub fn put_short(out: &mut [u8], at: usize, z: i16) -> usize
    requires { at ≤ 2 ^ 32 }
    ensures { Puts out.old at result out.new (octets_of 2 z) }
{
    put_part(out, at, &z.to_be_bytes(), 0, 2)
}

pub fn put_int(out: &mut [u8], at: usize, z: i32) -> usize
    requires { at ≤ 2 ^ 32 }
    ensures { Puts out.old at result out.new (octets_of 4 z) }
{
    put_part(out, at, &z.to_be_bytes(), 0, 4)
}

pub fn put_long(out: &mut [u8], at: usize, z: i64) -> usize
    requires { at ≤ 2 ^ 32 }
    ensures { Puts out.old at result out.new (octets_of 8 z) }
{
    put_part(out, at, &z.to_be_bytes(), 0, 8)
}
