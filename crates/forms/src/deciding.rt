// Whether octets are text in a form.
ghost use Rattle.std.specs.Prelude.{◌≡◌, ◌∷◌, [], ◌+◌, ◌%◌, ◌<◌, ◌≤◌, length, true, ◌&&◌, leb, ltb, eqb};
ghost use Rattle.format.specs.Numbers.{pick};
ghost use Rattle.format.specs.Characters.{◌‥◌};
ghost use Rattle.fields.specs.Utf8.{fits, is_text};
ghost use Rattle.forms.specs.Reading.{size, rows16, is_text16, are_places, said};
ghost use Rattle.forms.specs.Streams.{part, Sound};

use format::StringForm;

// How many octets the first character has, 0 where none is. The first octet is asked, and the second where that does not
// decide: one match on both costs half as much again on long strings.
fn size16(s: &[u8]) -> usize
    ensures { result ≡ size rows16 s.now }
{
    if s.len() < 2 {
        return 0;
    }
    let high = s[0];
    let low = s[1];
    if high == 0 {
        return match low {
            0x09 | 0x0A | 0x0D => 2,
            0x20..=0xFF => 2,
            _ => 0,
        };
    }
    if high < 0xD8 {
        return 2;
    }
    if high < 0xDC {
        return if s.len() >= 4 && 0xDC <= s[2] && s[2] < 0xE0 {
            4
        } else {
            0
        };
    }
    if high < 0xE0 {
        return 0;
    }
    if high < 0xFF || low < 0xFE {
        return 2;
    }
    0
}

// Characters in UTF-16.
fn is_text16(s: &[u8]) -> bool
    ensures { result ≡ is_text16 s.now }
{
    let mut rest = s;
    while !rest.is_empty() {
        let n = size16(rest);
        if n == 0 {
            return false;
        }
        rest = &rest[n..];
    }
    true
}

// Halves that are places of an alphabet; the very last may fill up.
fn are_places(s: &[u8]) -> bool
    ensures { result ≡ are_places s.now }
{
    let mut fills = false;
    for &o in s {
        if fills || 240 <= o {
            return false;
        }
        fills = o % 16 == 15;
    }
    true
}

// So many octets are integers of w octets each, at least one.
fn is_whole(n: usize, w: usize) -> bool
    requires { 0 < w }
    ensures { result ≡ (ltb 0 n && eqb (n % w) 0) }
{
    0 < n && n % w == 0
}

// The octets from `at` to `to` are text in this form.
pub fn is_text(s: &[u8], form: StringForm, at: usize, to: usize) -> bool
    requires { (at ≤ to) × (to ≤ length s.now) }
    ensures { (result ≡ is_text (said form (part s.now at to))) × (result ≡ true → Sound form (part s.now at to)) }
{
    let octets = &s[at..to];
    match form {
        StringForm::Utf8 => fields::is_text(s, at, to),
        StringForm::Utf16 => is_text16(octets),
        StringForm::Numeric | StringForm::Dates => are_places(octets),
        StringForm::Short => is_whole(to - at, 2),
        StringForm::Int => is_whole(to - at, 4),
        StringForm::Long => is_whole(to - at, 8),
    }
}
