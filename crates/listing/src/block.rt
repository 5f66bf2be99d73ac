// Output goes through a block, which is written when it is full.
ghost use Rattle.std.specs.Prelude.{◌≤◌};

use std::io::{self, Write};

// The octets of a block.
const SIZE: usize = 4096;

#[derive(Drop)]
pub struct Block<'a, P: Print> {
    to: &'a P,
    octets: [u8; SIZE],
    used: usize,
    ghost within: { used ≤ 4096 },
}

impl<'a, P: Print> Block<'a, P> {
    pub fn new(to: &'a P) -> Self {
        Block {
            to,
            octets: [0; SIZE],
            used: 0,
        }
    }

    // One octet, as `write` takes it.
    pub fn push(&mut self, octet: u8) -> io::Result<()> {
        if self.used == SIZE {
            self.flush()?;
        }
        if self.used < SIZE {
            self.octets[self.used] = octet;
            self.used += 1;
        }
        Ok(())
    }

    // Two octets, one after the other.
    pub fn push_both(&mut self, first: u8, second: u8) -> io::Result<()> {
        if self.used + 2 <= SIZE {
            self.octets[self.used] = first;
            self.octets[self.used + 1] = second;
            self.used += 2;
            return Ok(());
        }
        self.push(first)?;
        self.push(second)
    }
}

impl<P: Print> Write for Block<'_, P> {
    fn write(&mut self, octets: &[u8]) -> io::Result<usize> {
        if self.used == SIZE {
            self.flush()?;
        }
        let from = self.used;
        let n = octets.len().min(SIZE - from);
        self.octets[from..from + n].copy_from_slice(&octets[..n]);
        self.used = from + n;
        Ok(n)
    }

    fn flush(&mut self) -> io::Result<()> {
        let n = self.used;
        self.used = 0;
        self.to.write_all(&self.octets[..n])
    }
}
