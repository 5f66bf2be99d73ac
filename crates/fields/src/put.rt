// Numbers, lengths and text as they are written: what the output has no room for is left out.
ghost use Rattle.std.specs.Prelude.{◌≡◌, ◌+◌, ◌-◌, ◌/◌, ◌^◌, ◌<◌, ◌≤◌, ◌∷◌, length, take, drop, slice_set};
ghost use Rattle.format.specs.Numbers.{lengths, numbers, c21, c25, top, octets, spell};
ghost use Rattle.fields.specs.PutContracts.{Puts};

use crate::values;

// One octet; nothing where the output ends before it.
pub fn put(out: &mut [u8], at: usize, b: u8)
    ensures { out.new ≡ slice_set out.old at b }
{
    if at < out.len() {
        out[at] = b;
    }
}

// The `more` lowest octets of v, the highest first.
pub fn put_octets(out: &mut [u8], at: usize, v: u64, more: usize) -> usize
    requires { (at ≤ 2 ^ 32) × (more ≤ 8) }
    ensures { Puts out.old at result out.new (octets more v) }
{
    for i in 0..more {
        let behind = more - 1 - i;
        put(out, at + i, ((v >> (8 * behind)) % 256) as u8);
    }
    at + more
}

// One form of a number: its first octet holds `lead` and what stands of v above the `more` octets behind it.
#[tactic(auto, using(crate::proofs::Puts::above, crate::proofs::Puts::puts_octet))]
fn put_form(out: &mut [u8], at: usize, lead: u64, v: u64, more: usize) -> usize
    requires { (at < 2 ^ 32) × (more ≤ 4) × (lead + v / 256 ^ more < 256) }
    ensures { Puts out.old at result out.new ((lead + v / 256 ^ more) ∷ octets more v) }
{
    put(out, at, (lead + (v >> (8 * more))) as u8);
    put_octets(out, at + 1, v, more)
}

// C.22, C.23, C.24: the length n from `bit` on, in an octet that holds `lead` before it. Each form counts on where the one before it ends.
pub fn put_length(out: &mut [u8], at: usize, bit: u32, lead: u8, n: usize) -> usize
    requires { (at < 2 ^ 32) × (1 ≤ bit) × (bit ≤ 7) × (lead + 2 ^ (9 - bit) ≤ 256) × (1 ≤ n) × (n ≤ 2 ^ 32) }
    ensures { Puts out.old at result out.new (spell (lengths bit) lead n) × (result ≤ at + 5) }
{
    let first = u64::from(lead);
    let short = values(8 - bit);
    let mut v = n as u64 - 1;
    if v < short {
        return put_form(out, at, first, v, 0);
    }
    v -= short;
    if v < 256 {
        return put_form(out, at, first + short, v, 1);
    }
    v -= 256;
    put_form(out, at, first + short + short / 2, v, 4)
}

// C.27, C.28: the number n from `bit` on, in an octet that holds `lead` before it.
pub fn put_number(out: &mut [u8], at: usize, bit: u32, lead: u8, n: u32) -> usize
    requires { (at < 2 ^ 32) × (1 ≤ bit) × (bit ≤ 6) × (lead + 2 ^ (9 - bit) ≤ 256) × (1 ≤ n) × (n ≤ top) }
    ensures { Puts out.old at result out.new (spell (numbers bit) lead n) × (result ≤ at + 4) }
{
    let first = u64::from(lead);
    let short = values(8 - bit);
    let mut v = n as u64 - 1;
    if v < short {
        return put_form(out, at, first, v, 0);
    }
    v -= short;
    let middle = values(14 - bit);
    if v < middle {
        return put_form(out, at, first + short, v, 1);
    }
    v -= middle;
    let long = values(22 - bit);
    if v < long {
        return put_form(out, at, first + short + short / 4, v, 2);
    }
    v -= long;
    put_form(out, at, first + short + short / 2, v, 3)
}

// C.25: the number n from bit 2 on, in an octet that holds `lead` before it.
pub fn put_number_at_bit_2(out: &mut [u8], at: usize, lead: u8, n: u32) -> usize
    requires { (at < 2 ^ 32) × (lead + 128 ≤ 256) × (1 ≤ n) × (n ≤ top) }
    ensures { Puts out.old at result out.new (spell c25 lead n) × (result ≤ at + 3) }
{
    let first = u64::from(lead);
    let mut v = n as u64 - 1;
    if v < 64 {
        return put_form(out, at, first, v, 0);
    }
    v -= 64;
    if v < 8192 {
        return put_form(out, at, first + 64, v, 1);
    }
    v -= 8192;
    put_form(out, at, first + 96, v, 2)
}

// C.21: how many entries a table lists, n.
pub fn put_count(out: &mut [u8], at: usize, n: u32) -> usize
    requires { (at < 2 ^ 32) × (1 ≤ n) × (n ≤ top) }
    ensures { Puts out.old at result out.new (spell c21 0 n) × (result ≤ at + 3) }
{
    let mut v = n as u64 - 1;
    if v < 128 {
        return put_form(out, at, 0, v, 0);
    }
    v -= 128;
    put_form(out, at, 128, v, 2)
}

// The `size` octets of the text from `place` on. What fits is copied with no test for each octet; by a loop, since most parts are short, and a call of
// `copy_from_slice` costs more than such a part.
pub fn put_part(out: &mut [u8], at: usize, text: &[u8], place: usize, size: usize) -> usize
    requires { (at + size < 2 ^ 64) × (place + size ≤ length text.now) }
    ensures { Puts out.old at result out.new (take size (drop place text.now)) }
{
    for i in 0..size.min(out.len().saturating_sub(at)) {
        out[at + i] = text[place + i];
    }
    at + size
}
