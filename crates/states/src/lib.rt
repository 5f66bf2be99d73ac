// Where a reader or a writer stands in a document, and what it knows beside the tables.
// May depend on format and tables (for specs/).
#![tactic(auto)]

ghost use Rattle.std.specs.Prelude.{◌≡◌, not, ◌||◌, ◌*◌, ◌≤◌, ◌<◌, ltb};
ghost use Rattle.states.specs.States.{farthest, fresh, moved_to, opened_at, after_end, after_start, declaring_mode, root_of};

// `at` is in halves of an octet; `root` is not 0 once there was a root. Four words without a gap: a struct with gaps is moved in pieces, at every step.
#[derive(Clone, Copy)]
pub struct State {
    pub at: usize,
    pub level: usize,
    pub root: usize,
    pub mode: usize,
}

impl State {
    // Modes: among children; in an attribute list, without a member and with one; among the declarations of an element, without attributes and with them.
    pub const CONTENT: usize = 0;

    pub const LISTING: usize = 1;

    pub const LISTED: usize = 2;

    pub const DECLARING: usize = 3;

    pub const ANNOUNCING: usize = 4;

    // Open elements, at most.
    pub const LEVELS: usize = 32;

    // Before the first item of a body.
    pub fn begin(body: usize) -> State
        requires { body ≤ 16384 }
        ensures { result ≡ fresh body }
    {
        State {
            at: 2 * body,
            level: 0,
            root: 0,
            mode: State::CONTENT,
        }
    }

    // At the octet `next`, which for a writer may lie behind what a document has room for.
    pub fn moved(self, next: usize, mode: usize) -> State
        requires { next ≤ farthest }
        ensures { result ≡ moved_to self next mode }
    {
        State {
            at: 2 * next,
            level: self.level,
            root: self.root,
            mode,
        }
    }

    // An element more, whose attribute bit is a.
    pub fn opened(self, next: usize, a: bool) -> State
        requires { (next ≤ farthest) × (self.level < 32) }
        ensures { result ≡ opened_at self next a }
    {
        State {
            at: 2 * next,
            level: self.level + 1,
            root: 1,
            mode: after_start(a),
        }
    }

    // Behind an end, among children at a level.
    pub fn behind_end(self, level: usize) -> State
        requires { self.at ≤ 2 * farthest }
        ensures { result ≡ after_end self level }
    {
        State {
            at: self.at + 1,
            level,
            root: self.root,
            mode: State::CONTENT,
        }
    }

    // An element may start inside another, and outside if there was no root yet.
    pub fn may_start(self) -> bool
        ensures { result ≡ (ltb 0 self.level || not (root_of self.root)) }
    {
        if 0 < self.level {
            return true;
        }
        self.root == 0
    }
}

// Behind a Start whose attribute bit is a.
pub fn after_start(a: bool) -> usize
    ensures { result ≡ after_start a }
{
    if a {
        return State::LISTING;
    }
    State::CONTENT
}

// Among the declarations of an element whose attribute bit is a.
pub fn declaring(a: bool) -> usize
    ensures { result ≡ declaring_mode a }
{
    if a {
        return State::ANNOUNCING;
    }
    State::DECLARING
}
