// Strings in the forms that they come in: whether octets are text in a form, two strings compared by their characters, and a string put in UTF-8, in an alphabet or as integers. A string of any
// form is given octet by octet in UTF-8.
// May depend on format, fields and decimal.
#![tactic(auto)]

mod deciding;
mod integers;
mod packing;

ghost use Rattle.std.specs.Prelude.{◌≡◌, true, ◌∷◌, ◌++◌, ◌+◌, ◌-◌, ◌*◌, ◌%◌, ◌<◌, ◌≤◌, length, get_or};
ghost use Rattle.format.specs.Characters.{utf8};
ghost use Rattle.format.specs.Forms.{width};
ghost use Rattle.format.specs.Tables.{same};
ghost use Rattle.fields.specs.PutContracts.{Puts};
ghost use Rattle.forms.specs.Reading.{is_text16, characters16, said};
ghost use Rattle.forms.specs.Packing.{alphabet};
ghost use Rattle.decimal.specs.Texts as texts;
ghost use Rattle.forms.specs.Streams.{part, letters, ahead, listed, Sound, Fine, Idle, Waits, Gives};

pub use deciding::is_text;
use decimal::printing::{Text, digit_at, text_at};
use fields::put::put;
use format::StringForm;
pub use integers::{integers_for, put_integers};
pub use packing::{alphabet_for, may_begin, put_packed};

// A string of s of which the octets from `at` to `to` are still to be read. Of what was read, `left` octets wait, the first of a, b, c; and after them the
// `count` lowest digits of an integer's number. It gives the string octet by octet in UTF-8.
#[derive(Clone, Copy)]
pub struct Said<'a> {
    pub s: &'a [u8],
    pub form: StringForm,
    pub at: usize,
    pub to: usize,
    pub left: u32,
    pub a: u8,
    pub b: u8,
    pub c: u8,
    pub number: u64,
    pub count: u32,
}

// Sixteen bits, the higher octet first.
fn unit(s: &[u8], at: usize) -> u32
    requires { at + 1 < length s.now }
    ensures { (result ≡ get_or s.now at 0 * 256 + get_or s.now (at + 1) 0) × (result < 65536) }
{
    u32::from(s[at]) * 256 + u32::from(s[at + 1])
}

// The first character of a stretch in UTF-16.
fn character16(s: &[u8], at: usize, to: usize) -> u32
    requires { (at < to) × (to ≤ length s.now) × (is_text16 (part s.now at to) ≡ true) }
    ensures { result ≡ get_or (characters16 (part s.now at to)) 0 0 }
{
    let u = unit(s, at);
    if u < 0xD800 {
        return u;
    }
    if 0xE000 <= u {
        return u;
    }
    0x10000 + (u - 0xD800) * 1024 + (unit(s, at + 2) - 0xDC00)
}

// The last six bits of n.
fn tail(n: u32) -> u8
    ensures { result ≡ 0x80 + n % 64 }
{
    (0x80 + n % 64) as u8
}

// The character at a place of a form's alphabet.
fn letter(form: StringForm, k: usize) -> u8
    requires { k < 15 }
    ensures { result ≡ get_or (alphabet form) k 0 }
{
    match form {
        StringForm::Numeric => b"0123456789-+.e "[k],
        StringForm::Dates => b"0123456789-:TZ "[k],
        _ => 0,
    }
}

// How many octets an integer of a form has.
fn width(form: StringForm) -> usize
    ensures { (result ≡ width form) × (result ≤ 8) }
{
    match form {
        StringForm::Short => 2,
        StringForm::Int => 4,
        StringForm::Long => 8,
        _ => 0,
    }
}

impl<'a> Said<'a> {
    // The whole string from `at` to `to`.
    pub fn over(s: &'a [u8], form: StringForm, at: usize, to: usize) -> Said<'a>
        requires { (at ≤ to) × (to ≤ length s.now) × Sound form (part s.now at to) }
        ensures { Fine result × (said form (part s.now at to) ≡ ahead result) }
    {
        Said {
            s,
            form,
            at,
            to,
            left: 0,
            a: 0,
            b: 0,
            c: 0,
            number: 0,
            count: 0,
        }
    }

    // So many octets wait, the first of these.
    fn wait(&mut self, left: u32, a: u8, b: u8, c: u8)
        ensures { self.new ≡ record self.old { left = left; a = a; b = b; c = c } }
    {
        self.left = left;
        self.a = a;
        self.b = b;
        self.c = c;
    }

    // A character's octets: the first is given, the others wait.
    fn character(&mut self, n: u32) -> u8
        requires { (n < 0x110000) × (self.old.left ≡ 0) }
        ensures { Waits self.old (utf8 n) result self.new }
    {
        if n < 0x80 {
            return n as u8;
        }
        if n < 0x800 {
            self.wait(1, tail(n), 0, 0);
            return (0xC0 + n / 64) as u8;
        }
        if n < 0x10000 {
            self.wait(2, tail(n / 64), tail(n), 0);
            return (0xE0 + n / 4096) as u8;
        }
        self.wait(3, tail(n / 4096), tail(n / 64), tail(n));
        (0xF0 + n / 262144) as u8
    }

    // The characters of an octet in an alphabet: the first is given, the second waits.
    fn letters(&mut self, o: u8) -> u8
        requires { (o < 240) × (self.old.left ≡ 0) }
        ensures { Waits self.old (letters (alphabet self.old.form) o) result self.new }
    {
        let k = usize::from(o % 16);
        if k < 15 {
            self.wait(1, letter(self.form, k), 0, 0);
        }
        letter(self.form, usize::from(o / 16))
    }

    // The first of an integer's digits that are left is given, the others wait.
    fn digit(&mut self) -> u8
        requires { Fine self.old × (self.old.left ≡ 0) × (1 ≤ self.old.count) }
        ensures { Gives self.old result self.new }
    {
        self.count -= 1;
        if self.count == 0 && self.at < self.to {
            self.wait(1, 0x20, 0, 0);
        }
        digit_at(self.number, self.count)
    }

    // An integer's text: its first octet is given, the digits after it wait.
    fn integer(&mut self, text: Text) -> u8
        requires { Fine self.old × (self.old.left ≡ 0) × (1 ≤ text.count) × (text.count ≤ 20) }
        ensures { (texts.left text ++ listed self.old ≡ result ∷ ahead self.new) × Fine self.new }
    {
        self.number = text.number;
        self.count = text.count;
        if text.minus {
            return 0x2D;
        }
        self.digit()
    }

    // What comes first in the octets that are not yet read: its first octet is given, the others wait.
    fn read(&mut self) -> u8
        requires { Fine self.old × Idle self.old × (self.old.at < self.old.to) }
        ensures { Gives self.old result self.new }
    {
        let s = self.s;
        let at = self.at;
        match self.form {
            StringForm::Utf8 => {
                self.at = at + 1;
                s[at]
            }
            StringForm::Utf16 => {
                let n = character16(s, at, self.to);
                self.at = at + if n < 0x10000 { 2 } else { 4 };
                self.character(n)
            }
            StringForm::Numeric | StringForm::Dates => {
                self.at = at + 1;
                self.letters(s[at])
            }
            StringForm::Short | StringForm::Int | StringForm::Long => {
                let form = self.form;
                self.at = at + width(form);
                self.integer(text_at(s, at, form))
            }
        }
    }
}

impl Iterator for Said<'_> {
    ghost use Rattle.std.specs.Iterator.{YieldsFirst, item_count};
    ghost use Rattle.forms.specs.Streams.{ahead, Fine};

    type Item = u8;

    ghost can_next = { Fine };

    ghost next_gives = { YieldsFirst ahead };

    ghost remaining = { item_count ahead };

    fn next(&mut self) -> Option<u8> {
        if 0 < self.left {
            let first = self.a;
            self.wait(self.left - 1, self.b, self.c, 0);
            return Some(first);
        }
        if 0 < self.count {
            return Some(self.digit());
        }
        if self.to <= self.at {
            return None;
        }
        Some(self.read())
    }
}

// Two strings of s, each from a place to another and in a form of its own, are the same.
pub fn same(
    s: &[u8],
    form: StringForm,
    at: usize,
    to: usize,
    other: StringForm,
    from: usize,
    end: usize,
) -> bool
    requires { (at ≤ to) × (to ≤ length s.now) × Sound form (part s.now at to) × (from ≤ end) × (end ≤ length s.now) × Sound other (part s.now from end) }
    ensures { result ≡ same (said form (part s.now at to)) (said other (part s.now from end)) }
{
    Said::over(s, form, at, to).eq(Said::over(s, other, from, end))
}

// The string in UTF-8; what the output has no room for is left out, and counted.
pub fn put_said(
    out: &mut [u8],
    at: usize,
    s: &[u8],
    form: StringForm,
    from: usize,
    to: usize,
) -> usize
    requires { (at ≤ 0x1_0000_0000) × (from ≤ to) × (to ≤ length s.now) × (length s.now ≤ 0x1_0000_0000) × Sound form (part s.now from to) }
    ensures { Puts out.old at result out.new (said form (part s.now from to)) × (result ≤ at + 4 * (to - from)) }
{
    let mut i = at;
    for o in Said::over(s, form, from, to) {
        put(out, i, o);
        i += 1;
    }
    i
}
