// A string's octets in an alphabet: which alphabet has all its characters, and their places, two in an octet.
ghost use Rattle.std.specs.Prelude.{◌≡◌, ◌&&◌, true, false, ◌+◌, ◌-◌, ◌<◌, ◌≤◌, length};
ghost use Rattle.format.specs.Forms.{numeric, dates};
ghost use Rattle.format.specs.declared.StringForm.TheVariants.{Utf8};
ghost use Rattle.fields.specs.PutContracts.{Puts};
ghost use Rattle.forms.specs.Reading.{said};
ghost use Rattle.forms.specs.Packing.{alphabet, is_letter, all_letters, place_in, packed_by, alphabet_for};
ghost use Rattle.forms.specs.Streams.{part, ahead, Sound, Fine};

use crate::Said;
use fields::put::put;
use format::StringForm;

// Which of the two alphabets have a character, or all that were looked at.
#[derive(Clone, Copy)]
struct Fit {
    numeric: bool,
    dates: bool,
}

impl Fit {
    // What both alphabets have so far.
    const ALL: Fit = Fit {
        numeric: true,
        dates: true,
    };

    // Of two parts of a string.
    fn and(self, other: Fit) -> Fit
        ensures { (result.numeric ≡ (self.numeric && other.numeric)) × (result.dates ≡ (self.dates && other.dates)) }
    {
        Fit {
            numeric: self.numeric && other.numeric,
            dates: self.dates && other.dates,
        }
    }
}

// Most of what an alphabet has are digits.
fn fit_octet(o: u8) -> Fit
    ensures { (result.numeric ≡ is_letter numeric o) × (result.dates ≡ is_letter dates o) }
{
    if 0x30 <= o && o <= 0x39 {
        return Fit {
            numeric: true,
            dates: true,
        };
    }
    let both = o == 0x2D || o == 0x20;
    Fit {
        numeric: both || o == 0x2B || o == 0x2E || o == 0x65,
        dates: both || o == 0x3A || o == 0x54 || o == 0x5A,
    }
}

// A string that begins with another octet has no alphabet: most strings are told by this.
pub fn may_begin(o: u8) -> bool
    ensures { result ≡ false → (is_letter numeric o ≡ false) × (is_letter dates o ≡ false) }
{
    if o < 0x3B {
        return true;
    }
    if o == 0x54 {
        return true;
    }
    if o == 0x5A {
        return true;
    }
    o == 0x65
}

// The place of a character of an alphabet. It is put in line, since packing asks it for each character.
#[inline(always)]
fn place_in(form: StringForm, o: u8) -> u8
    requires { is_letter (alphabet form) o ≡ true }
    ensures { (result ≡ place_in (alphabet form) o) × (result < 15) }
{
    match o {
        0x2D => 10,
        0x2B => 11,
        0x3A => 11,
        0x2E => 12,
        0x54 => 12,
        0x65 => 13,
        0x5A => 13,
        0x20 => 14,
        _ => o - 0x30,
    }
}

// Octets as they stand, for utf-8. Most strings are told by their first one.
fn fit_octets(s: &[u8], from: usize, to: usize) -> Fit
    requires { (from ≤ to) × (to ≤ length s.now) }
    ensures { (result.numeric ≡ all_letters numeric (part s.now from to)) × (result.dates ≡ all_letters dates (part s.now from to)) }
{
    let mut all = Fit::ALL;
    for &o in &s[from..to] {
        all = all.and(fit_octet(o));
        if !all.numeric && !all.dates {
            return all;
        }
    }
    all
}

// And of a string in another form.
fn fit_said(x: Said) -> Fit
    requires { Fine x }
    ensures { (result.numeric ≡ all_letters numeric (ahead x.entry)) × (result.dates ≡ all_letters dates (ahead x.entry)) }
{
    let mut all = Fit::ALL;
    for o in x {
        all = all.and(fit_octet(o));
    }
    all
}

fn fits(s: &[u8], form: StringForm, from: usize, to: usize) -> Fit
    requires { (from ≤ to) × (to ≤ length s.now) × Sound form (part s.now from to) }
    ensures { (result.numeric ≡ all_letters numeric (said form (part s.now from to))) × (result.dates ≡ all_letters dates (said form (part s.now from to))) }
{
    match form {
        StringForm::Utf8 => fit_octets(s, from, to),
        _ => fit_said(Said::over(s, form, from, to)),
    }
}

// The alphabet with the lower number that has all characters of a string; utf-8 where none has.
pub fn alphabet_for(s: &[u8], form: StringForm, from: usize, to: usize) -> StringForm
    requires { (from ≤ to) × (to ≤ length s.now) × Sound form (part s.now from to) }
    ensures { result ≡ alphabet_for (said form (part s.now from to)) }
{
    let f = fits(s, form, from, to);
    if f.numeric {
        return StringForm::Numeric;
    }
    if f.dates {
        return StringForm::Dates;
    }
    StringForm::Utf8
}

// Octets as they stand, for utf-8.
fn pack_octets(
    out: &mut [u8],
    at: usize,
    s: &[u8],
    from: usize,
    to: usize,
    letters: StringForm,
) -> usize
    requires { (at ≤ 0x1_0000_0000) × (from ≤ to) × (to ≤ length s.now) × (length s.now ≤ 0x1_0000_0000) × (all_letters (alphabet letters) (part s.now from to) ≡ true) }
    ensures { Puts out.old at result out.new (packed_by (alphabet letters) (part s.now from to)) }
{
    // An output that ends before it, as in measuring, gets nothing: it is counted alone.
    if out.len() <= at {
        return at + (to - from + 1) / 2;
    }
    let mut i = at;
    for pair in s[from..to].chunks(2) {
        let high = 16 * place_in(letters, pair[0]);
        let low = if pair.len() == 2 {
            place_in(letters, pair[1])
        } else {
            15
        };
        put(out, i, high + low);
        i += 1;
    }
    i
}

// And of a string in another form.
fn pack_said(out: &mut [u8], at: usize, x: Said, letters: StringForm) -> usize
    requires { (at ≤ 0x1_0000_0000) × (length (ahead x) ≤ 0x4_0000_0000) × Fine x × (all_letters (alphabet letters) (ahead x) ≡ true) }
    ensures { Puts out.old at result out.new (packed_by (alphabet letters) (ahead x.entry)) }
{
    let mut u = x;
    let mut i = at;
    while let Some(o) = u.next() {
        let high = 16 * place_in(letters, o);
        let Some(p) = u.next() else {
            put(out, i, high + 15);
            return i + 1;
        };
        put(out, i, high + place_in(letters, p));
        i += 1;
    }
    i
}

// The string in an alphabet that has all its characters; what the output has no room for is left out, and counted.
pub fn put_packed(
    out: &mut [u8],
    at: usize,
    s: &[u8],
    form: StringForm,
    from: usize,
    to: usize,
    letters: StringForm,
) -> usize
    requires { (at ≤ 0x1_0000_0000) × (from ≤ to) × (to ≤ length s.now) × (length s.now ≤ 0x1_0000_0000) × Sound form (part s.now from to) × (all_letters (alphabet letters) (said form (part s.now from to)) ≡ true) }
    ensures { Puts out.old at result out.new (packed_by (alphabet letters) (said form (part s.now from to))) }
{
    match form {
        StringForm::Utf8 => pack_octets(out, at, s, from, to, letters),
        _ => pack_said(out, at, Said::over(s, form, from, to), letters),
    }
}
