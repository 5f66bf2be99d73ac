// A text's words and integers, by one octet after the other, so that the text may come from anywhere.
ghost use Rattle.std.specs.Prelude.{◌≡◌, true, ◌^◌, ◌<◌, ◌≤◌, pos, neg_ℤ};
ghost use Rattle.format.specs.Integers.{octets_of, Held};
ghost use Rattle.format.specs.Forms.{width};
ghost use Rattle.fields.specs.PutContracts.{Puts};
ghost use Rattle.decimal.specs.Machine.{grown, stepped, integer_by, ended, width_of, more, starting, found, scanned, counted, ended_octets, held_by};

use crate::{put_int, put_long, put_short};
use format::StringForm;

// What was read of a word: nothing, "-", or "0"; the digits of a number that is not 0, behind a minus sign or not; or what no integer of eight octets starts with.
#[derive(Clone, Copy)]
pub enum Word {
    Empty,
    Minus,
    Zero,
    Digits(bool, u64),
    NoWord,
}

// How many integers, and the least of 2, 4 and 8 octets that holds each.
#[derive(Clone, Copy)]
pub struct Integers {
    pub count: usize,
    pub width: usize,
}

// The word that is being read, and the integers found before it, unless there was a word that is none.
#[derive(Clone, Copy)]
pub struct Scan {
    pub word: Word,
    pub before: Option<Integers>,
}

// The greatest number behind which a digit may stand: ten times the next one is above all that eight octets hold.
const MOST: u64 = 922_337_203_685_477_580;

// A number with a digit more.
#[tactic(auto, unfolding(crate::specs::Machine::grown, crate::specs::Words::is_digit))]
fn grown(minus: bool, n: u64, o: u8) -> Word
    ensures { result ≡ grown minus n o }
{
    if !o.is_ascii_digit() || MOST < n {
        return Word::NoWord;
    }
    Word::Digits(minus, n * 10 + u64::from(o - 0x30))
}

// The integer n or -n, if eight octets hold it.
#[tactic(auto, unfolding(crate::specs::Machine::integer_by, format::specs::Integers::half))]
fn integer_by(minus: bool, n: u64) -> Option<i64>
    ensures { result ≡ integer_by minus n }
{
    if minus {
        return 0i64.checked_sub_unsigned(n);
    }
    i64::try_from(n).ok()
}

impl Word {
    #[tactic(auto, unfolding(crate::specs::Machine::stepped))]
    pub fn step(self, o: u8) -> Word
        ensures { result ≡ stepped self o }
    {
        match self {
            Word::Digits(minus, n) => grown(minus, n, o),
            Word::Empty => match o {
                0x2D => Word::Minus,
                0x30 => Word::Zero,
                _ => grown(false, 0, o),
            },
            Word::Minus => match o {
                0x30 => Word::NoWord,
                _ => grown(true, 0, o),
            },
            Word::Zero => Word::NoWord,
            Word::NoWord => Word::NoWord,
        }
    }

    // The integer that a word is which ends here, if eight octets hold it.
    #[tactic(auto, unfolding(crate::specs::Machine::ended))]
    pub fn ended(self) -> Option<i64>
        ensures { result ≡ ended self }
    {
        match self {
            Word::Digits(minus, n) => integer_by(minus, n),
            Word::Zero => Some(0),
            Word::Empty | Word::Minus | Word::NoWord => None,
        }
    }
}

// The least of 2, 4 and 8 octets that holds z.
#[tactic(auto, unfolding(crate::specs::Machine::width_of, format::specs::Integers::half))]
fn width_of(z: i64) -> usize
    ensures { result ≡ width_of z }
{
    if i16::try_from(z).is_ok() {
        return 2;
    }
    if i32::try_from(z).is_ok() {
        return 4;
    }
    8
}

// With one integer more, or with a word that is none.
#[tactic(auto, unfolding(crate::specs::Machine::more, crate::specs::Machine::width_of))]
fn more(before: Option<Integers>, e: Option<i64>) -> Option<Integers>
    requires { counted before < 2 ^ 63 }
    ensures { result ≡ more before e }
{
    let Integers { count, width } = before?;
    let z = e?;
    Some(Integers {
        count: count + 1,
        width: width.max(width_of(z)),
    })
}

impl Scan {
    #[tactic(auto, unfolding(crate::specs::Machine::starting))]
    pub fn start() -> Scan
        ensures { result ≡ starting }
    {
        Scan {
            word: Word::Empty,
            before: Some(Integers { count: 0, width: 2 }),
        }
    }

    #[tactic(auto, unfolding(crate::specs::Machine::scanned, crate::specs::Machine::found))]
    pub fn step(self, o: u8) -> Scan
        requires { counted self.before < 2 ^ 63 }
        ensures { result ≡ scanned self o }
    {
        let word = self.word;
        let before = self.before;
        if o == 0x20 {
            return Scan {
                word: Word::Empty,
                before: more(before, word.ended()),
            };
        }
        Scan {
            word: word.step(o),
            before,
        }
    }

    // Where the text ends.
    #[tactic(auto, unfolding(crate::specs::Machine::found))]
    pub fn found(self) -> Option<Integers>
        requires { counted self.before < 2 ^ 63 }
        ensures { result ≡ found self }
    {
        let word = self.word;
        let before = self.before;
        more(before, word.ended())
    }
}

// The octets of an integer that is held, in a form of integers; what the output has no room for is left out, and counted.
#[tactic(auto, unfolding(format::specs::Integers::half))]
fn put_held(out: &mut [u8], at: usize, z: i64, form: StringForm) -> usize
    requires { (at ≤ 2 ^ 32) × Held (width form) z }
    ensures { Puts out.old at result out.new (octets_of (width form) z) }
{
    match form {
        StringForm::Short => put_short(out, at, z as i16),
        StringForm::Int => put_int(out, at, z as i32),
        StringForm::Long => put_long(out, at, z),
        _ => at,
    }
}

// Where a word ends: the octets of its integer, which is held.
#[tactic(auto, unfolding(crate::specs::Machine::ended_octets, crate::specs::Machine::held_by))]
pub fn put_ended(out: &mut [u8], at: usize, e: Option<i64>, form: StringForm) -> usize
    requires { (at ≤ 2 ^ 32) × (held_by (width form) e ≡ true) }
    ensures { Puts out.old at result out.new (ended_octets (width form) e) }
{
    match e {
        Some(z) => put_held(out, at, z, form),
        None => at,
    }
}
