// The text area: the octets of the lines' strings, each string once.

// A string of the text area.
#[derive(Clone, Copy, PartialEq, Eq)]
pub struct Stretch {
    pub place: u32,
    pub size: u32,
}

// A place or a length as a word. Both are below 32,771.
fn word(x: usize) -> u32 {
    u32::try_from(x).unwrap_or(u32::MAX)
}

impl Stretch {
    pub fn new(place: usize, size: usize) -> Stretch {
        Stretch {
            place: word(place),
            size: word(size),
        }
    }

    fn octets(self, text: &[u8]) -> &[u8] {
        let place = self.place as usize;
        part(text, place, place + self.size as usize)
    }
}

// The text area has room for a string more than it may hold: a string is there whole before it is known to be there a
// second time, and then it is dropped. Where this room ends, more of the text is new than the writer takes, and what
// is left out does not matter. Answers where the next octet goes.
pub fn put_octet(text: &mut [u8], at: usize, b: u8) -> usize {
    match text.get_mut(at) {
        Some(octet) => {
            *octet = b;
            at.saturating_add(1)
        }
        None => at,
    }
}

// The octets from `from` to `to`. The tests here stand in for a contract that says that a string is within the text.
pub fn part(text: &[u8], from: usize, to: usize) -> &[u8] {
    text.get(from..to).unwrap_or(b"")
}

// What the lines fill: the text area, where its strings are, and the words that are given for the head and those of the
// records.
#[derive(Drop)]
pub struct Room<'a> {
    pub text: &'a mut [u8],
    pub known: &'a mut [Option<(u32, Stretch)>],
    pub words: &'a mut [u32],
}

impl Room<'_> {
    // Events after the room for records are counted and not kept: the writer refuses the list before it comes to them.
    pub fn put(&mut self, at: usize, x: u32) {
        if let Some(word) = self.words.get_mut(at) {
            *word = x;
        }
    }

    // The first string that has the octets of the one at hand, so that the text area of a document's events is no longer
    // than the document, however often a name comes again. The strings are found by their hash, which stands beside each,
    // so that of those from its slot on only the octets of one with the same hash are compared. Where no slot is left,
    // the strings have more octets than a text area may have, and none matters.
    pub fn first_same(&mut self, hash: u32, mine: Stretch) -> Stretch {
        let n = self.known.len();
        for k in 0..n {
            let at = (hash as usize).saturating_add(k) % n;
            match self.known[at] {
                None => {
                    self.known[at] = Some((hash, mine));
                    return mine;
                }
                Some((other, one)) => {
                    let text = &self.text[..];
                    if other == hash && one.octets(text) == mine.octets(text) {
                        return one;
                    }
                }
            }
        }
        mine
    }
}
