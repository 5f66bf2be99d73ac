// Ends, which stand at halves of an octet, and the padding that is due where an item does not follow at once.
ghost use Rattle.std.specs.Prelude.{◌≡◌, ◌&&◌, ℕ, ◌*◌, ◌<◌, ◌≤◌, length};
ghost use Rattle.states.specs.States.{mode_of};
ghost use Rattle.read_items.specs.Steps.{half_at, ends_at, pads_at, document_end, by_halves};
ghost use Rattle.read_items.specs.ItemContracts.{Keeps, Ended};

use crate::Step;
use fields::bits;
use format::refusals::{Fault, Refusal};
use states::State;

// The half at a place counted in halves, 16 behind the last.
fn half(s: &[u8], at: usize) -> u8
    ensures { result ≡ half_at s.now at }
{
    let k = at / 2;
    if s.len() <= k {
        return 16;
    }
    if at % 2 == 0 {
        return bits(s[k], 1, 4);
    }
    bits(s[k], 5, 8)
}

// The padding that is due there is right.
pub fn pads_at(s: &[u8], at: usize) -> bool
    ensures { result ≡ pads_at s.now at }
{
    if at % 2 == 0 {
        return true;
    }
    half(s, at) == 0
}

// An end stands here; declarations are ended by an octet, and not by a half.
pub fn ends_here(st: State, s: &[u8]) -> bool
    ensures { result ≡ (by_halves (mode_of st.mode) && ends_at s.now st.at) }
{
    if State::DECLARING <= st.mode {
        return false;
    }
    half(s, st.at) == 15
}

// The end of all: there was a root, the octet is filled up, and nothing follows.
fn document_end(st: State, s: &[u8]) -> Result<Step, Fault>
    requires { st.at < 32768 }
    ensures { (n : ℕ) → Keeps s.now st n result (document_end s.now) }
{
    let at = st.at;
    if st.root == 0 {
        return Err(Refusal::Structure.at(at / 2));
    }
    if !pads_at(s, at + 1) {
        return Err(Refusal::Padding.at(at / 2));
    }
    let behind = at / 2 + 1;
    if behind == s.len() {
        return Ok(Step::Done);
    }
    Err(Refusal::Structure.at(behind))
}

// What the half 1111 ends: an attribute list that has a member, and no event says so; an element; the document. Among
// declarations none is looked for.
pub fn end_at(st: State, s: &[u8], records: &mut [u32], n: usize) -> Result<Step, Fault>
    requires { (st.at < 2 * length s.now) × (length s.now ≤ 16384) × (st.mode < 3) }
    ensures { Ended s.now st n records.old result records.new }
{
    if st.mode == State::LISTING {
        return Err(Refusal::Structure.at(st.at / 2));
    }
    if st.mode == State::LISTED {
        return Ok(Step::Quiet(st.behind_end(st.level)));
    }
    if st.level == 0 {
        return document_end(st, s);
    }
    let k = st.at / 2;
    events::keep(records, n, k, events::end());
    Ok(Step::Event(st.behind_end(st.level - 1), k))
}
