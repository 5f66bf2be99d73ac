// One field of a document at a time: numbers and lengths read by a cursor, or put into an output; text; and eight octets as one number.
// May depend on format alone.
#![tactic(auto)]

pub mod put;

ghost use Rattle.std.specs.Prelude.{◌≡◌, ℕ, ◌+◌, ◌-◌, ◌*◌, ◌/◌, ◌^◌, ◌<◌, ◌≤◌, true, ◌&&◌, length, take, drop, ◌≢◌, bit_and, nat_le, slice_index, slice_range, EachIndex};
ghost use Rattle.format.specs.Numbers.{lengths, numbers, c21, c25, top};
ghost use Rattle.fields.specs.Fields.{bits_of, value_from, behind, field_at, no_top};
ghost use Rattle.fields.specs.WeightContracts.{weight, Small, high_bits, not_plain, Plain, Alone};
ghost use Rattle.fields.specs.Utf8.{alone, fits, ranges, Holds, by_rows, character, counted, is_text};

use format::refusals::{Fault, Refusal};

// The link's version: the octets before the body, which are E0 00 (12.6), version 1 (12.7, 12.9) and no optional part (12.8); where the body starts; octets of the longest document.
pub const HEADER: [u8; 5] = [0xE0, 0x00, 0x00, 0x01, 0x00];

pub const BODY: usize = HEADER.len();

// The last octet of the header where a head follows, the initial vocabulary (C.2.3).
pub const HEAD: u8 = 0x20;

pub const OCTETS: usize = 16384;

// The highest number.
pub const TOP: u64 = 1048576;

// Above every length.
pub const NO_TOP: u64 = 0x2_0000_0000;

// Where the next field starts.
#[derive(Clone, Copy)]
pub struct Cursor {
    pub at: usize,
}

// What was read, and the cursor at the next field.
#[derive(Clone, Copy)]
pub struct Read<T> {
    pub value: T,
    pub next: Cursor,
}

// What was read, or the refusal and its place.
pub type Reading<T> = Result<Read<T>, Fault>;

// Bits `first` to `last` of an octet, bit 1 the highest: at most seven of them, and none where `last` stands before `first`.
pub fn bits(o: u8, first: u32, last: u32) -> u8
    requires { (1 ≤ last) × (last ≤ 8) × (first ≤ last + 1) × (last < first + 7) }
    ensures { result ≡ bits_of o first last }
{
    (o >> (8 - last)) & ((1u8 << (last + 1 - first)) - 1)
}

// How many values k bits have.
fn values(k: u32) -> u64
    requires { k ≤ 32 }
    ensures { (result ≡ 2 ^ k) × (result ≤ 2 ^ 32) }
{
    1u64 << k
}

// The value that x and then the `more` octets from `at` spell, the higher first.
pub fn value_from(s: &[u8], at: usize, x: u8, more: usize) -> u64
    requires { (more ≤ 4) × (at + more ≤ length s.now) }
    ensures { (result ≡ value_from s.now at x more) × (result < 2 ^ 40) }
{
    let mut v = u64::from(x);
    for o in &s[at..at + more] {
        v = v * 256 + u64::from(*o);
    }
    v
}

impl Cursor {
    // The octets behind the field's first one, which holds x of the value. The form spells `size` numbers from `low` on.
    #[tactic(auto, unfolding(crate::specs::Fields::behind))]
    fn behind(self, s: &[u8], x: u8, more: usize, low: u64, size: u64, top: u64) -> Reading<u64>
        requires { (more ≤ 4) × (self.at < length s.now) × (low < 2 ^ 40) }
        ensures { result ≡ behind s.now self.at x more low size top }
    {
        let at = self.at;
        if s.len() - at <= more {
            return Err(Refusal::Truncated.at(at));
        }
        let v = value_from(s, at + 1, x, more);
        if size <= v {
            return Err(Refusal::Padding.at(at));
        }
        if top < low + v {
            return Err(Refusal::Range.at(at));
        }
        Ok(Read {
            value: low + v,
            next: Cursor { at: at + 1 + more },
        })
    }

    // C.25: a number from bit 2, coded 0, 10 or 110.
    #[tactic(auto, unfolding(crate::specs::Fields::field_at, crate::specs::Fields::read_in, crate::specs::Fields::share_of, format::specs::Numbers::behind_first, format::specs::Numbers::c25))]
    pub fn number_at_bit_2(self, s: &[u8]) -> Reading<u64>
        ensures { result ≡ field_at c25 top 2 s.now self.at }
    {
        let at = self.at;
        if s.len() <= at {
            return Err(Refusal::Truncated.at(at));
        }
        let o = s[at];
        if bits(o, 2, 2) == 0 {
            return self.behind(s, bits(o, 3, 8), 0, 1, 64, TOP);
        }
        if bits(o, 2, 3) == 2 {
            return self.behind(s, bits(o, 4, 8), 1, 65, 8192, TOP);
        }
        if bits(o, 2, 4) == 6 {
            return self.behind(s, bits(o, 5, 8), 2, 8257, 1048576, TOP);
        }
        Err(Refusal::Code.at(at))
    }

    // C.27, C.28: a number from bit 3 or 4. The octet alone is decided here, so that it costs no call: see `longer_number`.
    #[tactic(auto, unfolding(crate::specs::Fields::field_at))]
    pub fn number<const BIT: u32>(self, s: &[u8]) -> Reading<u64>
        requires { (1 ≤ BIT) × (BIT ≤ 6) }
        ensures { result ≡ field_at (numbers BIT) top BIT s.now self.at }
    {
        let at = self.at;
        if s.len() <= at {
            return Err(Refusal::Truncated.at(at));
        }
        let o = s[at];
        if bits(o, BIT, BIT) == 0 {
            return self.behind(s, bits(o, BIT + 1, 8), 0, 1, values(8 - BIT), TOP);
        }
        self.longer_number(s, BIT)
    }

    // C.27, C.28: a number from bit 3 or 4 that has 1 there: coded 100, 101, or 110 and padding.
    fn longer_number(self, s: &[u8], bit: u32) -> Reading<u64>
        requires { (1 ≤ bit) × (bit ≤ 6) × (self.at < length s.now) × (bits_of (slice_index s.now self.at) bit bit ≢ 0) }
        ensures { result ≡ field_at (numbers bit) top bit s.now self.at }
    {
        let at = self.at;
        let o = s[at];
        let short = values(8 - bit);
        let code = bits(o, bit, bit + 2);
        let rest = bits(o, bit + 3, 8);
        let middle = values(14 - bit);
        if code == 4 {
            return self.behind(s, rest, 1, short + 1, middle, TOP);
        }
        let long = values(22 - bit);
        if code == 5 {
            return self.behind(s, rest, 2, short + middle + 1, long, TOP);
        }
        if code != 6 {
            return Err(Refusal::Code.at(at));
        }
        if rest != 0 {
            return Err(Refusal::Padding.at(at));
        }
        self.behind(s, 0, 3, short + middle + long + 1, 1048576, TOP)
    }

    // C.22, C.23, C.24: a length from bit 2, 5 or 7, coded 0, or 10 or 11 and padding.
    #[tactic(auto, unfolding(crate::specs::Fields::field_at))]
    pub fn length(self, s: &[u8], bit: u32) -> Reading<u64>
        requires { (1 ≤ bit) × (bit ≤ 7) }
        ensures { result ≡ field_at (lengths bit) no_top bit s.now self.at }
    {
        let at = self.at;
        if s.len() <= at {
            return Err(Refusal::Truncated.at(at));
        }
        let o = s[at];
        let short = values(8 - bit);
        if bits(o, bit, bit) == 0 {
            return self.behind(s, bits(o, bit + 1, 8), 0, 1, short, NO_TOP);
        }
        if bits(o, bit + 2, 8) != 0 {
            return Err(Refusal::Padding.at(at));
        }
        if bits(o, bit, bit + 1) == 2 {
            return self.behind(s, 0, 1, short + 1, 256, NO_TOP);
        }
        self.behind(s, 0, 4, short + 257, 0x1_0000_0000, NO_TOP)
    }

    // C.21: how many entries the head lists for a table, from bit 1, coded 0, or 1 and padding.
    #[tactic(auto, unfolding(crate::specs::Fields::field_at, crate::specs::Fields::read_in, crate::specs::Fields::share_of, format::specs::Numbers::behind_first, format::specs::Numbers::c21))]
    pub fn count(self, s: &[u8]) -> Reading<u64>
        ensures { result ≡ field_at c21 top 1 s.now self.at }
    {
        let at = self.at;
        if s.len() <= at {
            return Err(Refusal::Truncated.at(at));
        }
        let o = s[at];
        if bits(o, 1, 1) == 0 {
            return self.behind(s, bits(o, 2, 8), 0, 1, 128, TOP);
        }
        if bits(o, 2, 4) != 0 {
            return Err(Refusal::Padding.at(at));
        }
        self.behind(s, bits(o, 5, 8), 2, 129, 1048576, TOP)
    }
}

fn among(b: u8, low: u8, high: u8) -> bool
    ensures { result ≡ (nat_le low b && nat_le b high) }
{
    low <= b && b <= high
}

// An octet from 20 to 7F is plain: a character by itself, of which most text is made.
pub fn is_plain(b: u8) -> bool
    ensures { result ≡ (nat_le 0x20 b && nat_le b 0x7F) }
{
    among(b, 0x20, 0x7F)
}

// Text, as the grammar of RFC 3629, section 4, prints it: a row for each alternative of UTF8-1 to UTF8-4. In a row stand the lowest and the highest that the first octet may be,
// then the same of the second, the third and the fourth: 80 and BF are the grammar's UTF8-tail, and 00 and 00 stand where the character has no such octet. docs/READING-TEXT.md
// takes octets through it. Two things are XML's and not the grammar's: UTF8-1 has 9, A, D and 20 to 7F alone; and EF stands in two rows, by its second octet, so that EF BF BE and
// EF BF BF, which would be FFFE and FFFF, are in none.
const ROWS: [[u8; 8]; 13] = [
    // first     second      third       fourth
    // UTF8-1
    [0x09, 0x0A, 0x00, 0x00, 0x00, 0x00, 0x00, 0x00],
    [0x0D, 0x0D, 0x00, 0x00, 0x00, 0x00, 0x00, 0x00],
    [0x20, 0x7F, 0x00, 0x00, 0x00, 0x00, 0x00, 0x00],
    // UTF8-2
    [0xC2, 0xDF, 0x80, 0xBF, 0x00, 0x00, 0x00, 0x00],
    // UTF8-3
    [0xE0, 0xE0, 0xA0, 0xBF, 0x80, 0xBF, 0x00, 0x00],
    [0xE1, 0xEC, 0x80, 0xBF, 0x80, 0xBF, 0x00, 0x00],
    [0xED, 0xED, 0x80, 0x9F, 0x80, 0xBF, 0x00, 0x00],
    [0xEE, 0xEE, 0x80, 0xBF, 0x80, 0xBF, 0x00, 0x00],
    [0xEF, 0xEF, 0x80, 0xBE, 0x80, 0xBF, 0x00, 0x00],
    [0xEF, 0xEF, 0xBF, 0xBF, 0x80, 0xBD, 0x00, 0x00],
    // UTF8-4
    [0xF0, 0xF0, 0x90, 0xBF, 0x80, 0xBF, 0x80, 0xBF],
    [0xF1, 0xF3, 0x80, 0xBF, 0x80, 0xBF, 0x80, 0xBF],
    [0xF4, 0xF4, 0x80, 0x8F, 0x80, 0xBF, 0x80, 0xBF],
];

// The table, with its rule, which is proved once, by a computation over all rows: rows 0 to 2 are UTF8-1, row 3 is UTF8-2, rows 4 to 9 are UTF8-3, rows 10 to 12 are UTF8-4.
fn table() -> [[u8; 8]; 13]
    ensures { Holds result 1 0 3 × Holds result 2 3 4 × Holds result 3 4 10 × Holds result 4 10 13 }
{
    ROWS
}

// Each of the first n octets of s is in its range of the row.
#[tactic(auto, using(crate::proofs::Utf8::range_next, crate::proofs::Utf8::no_ranges))]
fn fits(row: &[u8; 8], s: &[u8], n: usize) -> bool
    requires { (n ≤ 4) × (n ≤ length s.now) }
    ensures { result ≡ fits (ranges 0 n row.now) s.now }
{
    for k in 0..n {
        if !among(s[k], row[2 * k], row[2 * k + 1]) {
            return false;
        }
    }
    true
}

// n, where n octets of s are there and fit one of the rows.
#[tactic(auto, using(crate::proofs::Utf8::row_next, crate::proofs::Utf8::no_row), unfolding(crate::specs::Utf8::by_rows))]
fn by_rows(rows: &[[u8; 8]], s: &[u8], n: usize) -> Option<usize>
    requires { (1 ≤ n) × (n ≤ 4) }
    ensures { result ≡ counted (by_rows n rows.now s.now) }
{
    if s.len() < n {
        return None;
    }
    for row in rows {
        if fits(row, s, n) {
            return Some(n);
        }
    }
    None
}

// How many octets the first character of s has. Its first octet tells which of UTF8-1 to UTF8-4 it can be, so that only their rows are gone through.
fn character(s: &[u8]) -> Option<usize>
    requires { 0 < length s.now }
    ensures { result ≡ counted (character s.now) }
{
    let rows = table();
    match s[0] {
        0x00..=0x7F => by_rows(&rows[..3], s, 1),
        0x80..=0xDF => by_rows(&rows[3..4], s, 2),
        0xE0..=0xEF => by_rows(&rows[4..10], s, 3),
        _ => by_rows(&rows[10..], s, 4),
    }
}

// No octet of some is below `low` or above `high`.
#[derive(Clone, Copy)]
struct LowHigh {
    low: u8,
    high: u8,
}

// The octets of each of two stretches that are n together or more, where they overlap: a multiple of 32.
fn half_of(n: usize) -> usize
    requires { n < 2 ^ 63 }
    ensures { result ≡ (n + 63) / 64 * 32 }
{
    (n + 63) / 64 * 32
}

// Those of more than 32 octets. Nothing ends the loop early, so that one instruction looks at many of them. It goes through two stretches side by side, which
// overlap, each of a multiple of 32 octets, so that none is left for a loop of its own.
fn extremes(s: &[u8]) -> LowHigh
    requires { 32 < length s.now }
    ensures { EachIndex s.now (λ j. (result.low ≤ slice_index s.now j) × (slice_index s.now j ≤ result.high)) }
{
    let half = half_of(s.len());
    let second = s.len() - half;
    let mut low: u8 = 0xFF;
    let mut high: u8 = 0;
    for i in 0..half {
        low = low.min(s[i]).min(s[second + i]);
        high = high.max(s[i]).max(s[second + i]);
    }
    LowHigh { low, high }
}

// A space in place of a tab, a line feed or a carriage return.
#[tactic(auto, using(crate::proofs::Utf8::alone_single), unfolding(crate::proofs::Utf8::single))]
fn raised(b: u8) -> u8
    ensures { 0x20 ≤ result → b ≤ 0x7F → alone b ≡ true }
{
    if among(b, 0x09, 0x0A) || b == 0x0D {
        return 0x20;
    }
    b
}

// Each of more than 32 octets is a character by itself, if none is above 7F. A loop as that of `extremes`.
fn all_alone(s: &[u8]) -> bool
    requires { 32 < length s.now }
    ensures { result ≡ true → EachIndex s.now (λ j. slice_index s.now j ≤ 0x7F) → Alone s.now }
{
    let half = half_of(s.len());
    let second = s.len() - half;
    let mut low: u8 = 0xFF;
    for i in 0..half {
        low = low.min(raised(s[i])).min(raised(s[second + i]));
    }
    0x20 <= low
}

// Four octets from `at` on as one number, the first the lowest.
pub fn four(x: &[u8], at: usize) -> u64
    requires { at + 4 ≤ length x.now }
    ensures { (result ≡ weight (take 4 (drop at x.now))) × Small (take 4 (drop at x.now)) × (result < 0x1_0000_0000) }
{
    u64::from(x[at])
        + 0x100 * u64::from(x[at + 1])
        + 0x1_0000 * u64::from(x[at + 2])
        + 0x100_0000 * u64::from(x[at + 3])
}

// Eight octets from `at` on as one number, so that they are loaded and looked at at once.
pub fn eight(x: &[u8], at: usize) -> u64
    requires { at + 8 ≤ length x.now }
    ensures { (result ≡ weight (take 8 (drop at x.now))) × Small (take 8 (drop at x.now)) }
{
    four(x, at) + 0x1_0000_0000 * four(x, at + 4)
}

// The high bit of each of eight octets.
pub const HIGH: u64 = 0x8080_8080_8080_8080;

// Eight spaces, the lowest plain octets.
pub const SPACES: u64 = 0x2020_2020_2020_2020;

// Of eight octets the first that is not plain has its high bit set in the answer: it had, or it is less than a space. No octet before it has.
pub fn not_plain(x: u64) -> u64
    ensures { result ≡ not_plain x }
{
    x | std::num::wrapping_sub_u64(x, SPACES)
}

// The same of eight octets or more, by eights of which the last may overlap, in one number: no high bit of it is set where all octets are plain.
fn not_plain_by_eights(s: &[u8]) -> u64
    requires { 8 ≤ length s.now }
    ensures { bit_and result (high_bits 8) ≡ 0 → Plain s.now 0 (length s.now) }
{
    let last = s.len() - 8;
    let mut seen = not_plain(eight(s, last));
    for k in 0..last.div_ceil(8) {
        seen |= not_plain(eight(s, 8 * k));
    }
    seen
}

// Each octet is plain. Most strings are short: one load of eight octets tells it, or two that overlap.
fn all_plain(s: &[u8], from: usize, to: usize) -> bool
    requires { (from ≤ to) × (to ≤ length s.now) }
    ensures { result ≡ true → Plain s.now from to }
{
    let n = to - from;
    if n < 8 {
        if s.len() - from < 8 {
            return false;
        }
        // Only the first n of them count. Two shifts: where n is 0, one would be by 64, which none may be.
        return not_plain(eight(s, from)) & ((HIGH >> 8) >> (56 - 8 * n)) == 0;
    }
    if n <= 16 {
        let both = not_plain(eight(s, from)) | not_plain(eight(s, to - 8));
        return both & HIGH == 0;
    }
    not_plain_by_eights(&s[from..to]) & HIGH == 0
}

// Each of more than 32 octets is a character by itself. Most long texts are plain, and most others have line ends beside.
#[tactic(auto, using(crate::proofs::Utf8::alone_plain))]
fn is_easy(s: &[u8]) -> bool
    requires { 32 < length s.now }
    ensures { result ≡ true → Alone s.now }
{
    let e = extremes(s);
    e.high < 0x80 && (0x20 <= e.low || all_alone(s))
}

// The octets of a short string, at most, which is looked at by eights.
const SHORT: usize = 32;

// These octets are text: many at once where that tells it, or character by character. It is called, so that a short string, which it seldom sees, costs none of its registers.
#[inline(never)]
#[tactic(auto, using(crate::proofs::Utf8::text_next, crate::proofs::Utf8::text_none, crate::proofs::Utf8::alone_text), unfolding(crate::specs::Utf8::is_text, crate::specs::Utf8::text_behind))]
fn by_characters(s: &[u8]) -> bool
    ensures { result ≡ is_text s.now }
{
    if SHORT < s.len() && is_easy(s) {
        return true;
    }
    let mut rest = s;
    while !rest.is_empty() {
        let Some(n) = character(rest) else {
            return false;
        };
        rest = &rest[n..];
    }
    true
}

// The octets from `from` to before `to` are text. Those after them are loaded too where a string is short (`all_plain`), so that s is not cut down to them.
#[tactic(auto, using(crate::proofs::Utf8::plain_text))]
pub fn is_text(s: &[u8], from: usize, to: usize) -> bool
    requires { (from ≤ to) × (to ≤ length s.now) }
    ensures { result ≡ is_text (slice_range s.now from to) }
{
    to - from <= SHORT && all_plain(s, from, to) || by_characters(&s[from..to])
}
