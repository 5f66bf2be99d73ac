// A string as integers: how many there are and how many octets hold each, and their octets.
ghost use Rattle.std.specs.Prelude.{◌≡◌, true, ◌+◌, ◌-◌, ◌<◌, ◌≤◌, length};
ghost use Rattle.format.specs.Forms.{width};
ghost use Rattle.fields.specs.PutContracts.{Puts};
ghost use Rattle.decimal.specs.Words.{shape, integers_in};
ghost use Rattle.decimal.specs.Machine.{least_in};
ghost use Rattle.forms.specs.Reading.{said};
ghost use Rattle.forms.specs.Streams.{part, ahead, Sound, Fine, Lost};

use crate::Said;
use decimal::scanning::{Integers, Scan, Word, put_ended};
use format::StringForm;

// A word before is no integer, or the word under way can become none: no integers will be found.
fn is_lost(u: Scan) -> bool
    ensures { result ≡ true → Lost u }
{
    match (u.before, u.word) {
        (None, _) | (_, Word::NoWord) => true,
        _ => false,
    }
}

// Octets as they stand, for utf-8. Most strings are told by their first one.
fn found_octets(s: &[u8], from: usize, to: usize) -> Option<Integers>
    requires { (from ≤ to) × (to ≤ length s.now) × (length s.now ≤ 0x1_0000_0000) }
    ensures { result ≡ least_in (part s.now from to) }
{
    let mut u = Scan::start();
    for &o in &s[from..to] {
        u = u.step(o);
        if is_lost(u) {
            return None;
        }
    }
    u.found()
}

// And of a string in another form.
fn found_said(x: Said) -> Option<Integers>
    requires { Fine x × (length (ahead x) ≤ 0x10_0000_0000) }
    ensures { result ≡ least_in (ahead x.entry) }
{
    let mut scan = Scan::start();
    for o in x {
        scan = scan.step(o);
        if is_lost(scan) {
            return None;
        }
    }
    scan.found()
}

// The integers whose decimal text a string is: how many, and the least of 2, 4 and 8 octets that holds each.
pub fn integers_for(s: &[u8], form: StringForm, from: usize, to: usize) -> Option<Integers>
    requires { (from ≤ to) × (to ≤ length s.now) × (length s.now ≤ 0x1_0000_0000) × Sound form (part s.now from to) }
    ensures { result ≡ least_in (said form (part s.now from to)) }
{
    match form {
        StringForm::Utf8 => found_octets(s, from, to),
        _ => found_said(Said::over(s, form, from, to)),
    }
}

// The string's integers in a form that holds them; what the output has no room for is left out, and counted.
pub fn put_integers(
    out: &mut [u8],
    at: usize,
    s: &[u8],
    form: StringForm,
    from: usize,
    to: usize,
    integers: StringForm,
) -> usize
    requires { (at ≤ 0xC000_0000) × (from ≤ to) × (to ≤ length s.now) × (length s.now ≤ 0x100_0000) × Sound form (part s.now from to) × (shape (width integers) (said form (part s.now from to)) ≡ true) }
    ensures { Puts out.old at result out.new (integers_in (width integers) (said form (part s.now from to))) }
{
    let mut word = Word::Empty;
    let mut i = at;
    for o in Said::over(s, form, from, to) {
        if o == 0x20 {
            i = put_ended(out, i, word.ended(), integers);
            word = Word::Empty;
        } else {
            word = word.step(o);
        }
    }
    put_ended(out, i, word.ended(), integers)
}
