// A line put down from its end to its front: newline, figures from the last to the first, letter.
ghost use Rattle.std.specs.Prelude.{◌≡◌, ℕ, ◌+◌, ◌*◌, ◌/◌, ◌%◌, ◌<◌, ◌≤◌, List, [], ◌∷◌, ◌++◌, length, drop, decimal};
ghost use Rattle.lines.specs.Text.{entered, Printed};

use std::marker::Model;

// The room that the longest line needs, and a little more.
pub(crate) const ROOM: usize = 192;

// The byte of a digit.
fn digit(n: u64) -> u8
    requires { n < 10 }
    ensures { result ≡ 48 + n }
{
    b'0' + n as u8
}

// What stands of a line, at the end of its room, from byte `start` on.
#[derive(Drop)]
struct Backward {
    start: usize,
    room: [u8; ROOM],
}

// Clauses see the bytes that stand, the first first.
impl Model for Backward {
    ghost Value = { List ℕ };

    ghost view = { λ b. drop b.start b.room };

    ghost invariant = { λ b. b.start ≤ 192 };
}

impl Backward {
    // A newline alone.
    fn new() -> Backward
        ensures { result ≡ 10 ∷ [] }
    {
        Backward {
            start: ROOM - 1,
            room: [b'\n'; ROOM],
        }
    }

    // Puts a byte before what stands.
    fn put_byte(&mut self, byte: u8)
        requires { length self.old < 192 }
        ensures { self.new ≡ byte ∷ self.old }
    {
        let at = self.start - 1;
        self.room[at] = byte;
        self.start = at;
    }

    // Puts two digits.
    fn put_pair(&mut self, pair: u64)
        requires { (pair < 100) × (length self.old + 2 ≤ 192) }
        ensures { self.new ≡ (48 + pair / 10) ∷ (48 + pair % 10) ∷ self.old }
    {
        self.put_byte(digit(pair % 10));
        self.put_byte(digit(pair / 10));
    }

    // Puts the digits of n, two at a time.
    #[tactic(auto, using(crate::proofs::Digits::digits))]
    fn put_number(&mut self, n: u64)
        requires { length (decimal n) + length self.old ≤ 192 }
        ensures { self.new ≡ decimal n ++ self.old }
    {
        if n >= 100 {
            self.put_pair(n % 100);
            self.put_number(n / 100);
        } else if n >= 10 {
            self.put_pair(n);
        } else {
            self.put_byte(digit(n));
        }
    }

    // Puts a figure after a blank.
    #[tactic(auto, using(crate::proofs::Digits::sizes))]
    fn put_figure(&mut self, n: u64)
        requires { length self.old + 21 ≤ 192 }
        ensures value { self.new ≡ 32 ∷ (decimal n ++ self.old) }
        ensures short { length self.new ≤ length self.old + 21 }
    {
        self.put_number(n);
        self.put_byte(b' ');
    }

    // Copies the line to the front of a buffer, and answers its length.
    fn copy(&self, out: &mut [u8]) -> usize
        requires { 192 ≤ length out.old }
        ensures { Printed self.now out.old result out.new }
    {
        let line = &self.room[self.start..];
        out[..line.len()].copy_from_slice(line);
        line.len()
    }
}

// Puts a line at the front of a buffer, and answers its length.
pub(crate) fn put_line(out: &mut [u8], letter: u8, figures: &[u64]) -> usize
    requires room { 192 ≤ length out.old }
    requires few { length figures.now ≤ 8 }
    ensures { Printed (letter ∷ entered figures.now) out.old result out.new }
{
    let mut line = Backward::new();
    for figure in figures.iter().rev() {
        line.put_figure(*figure);
    }
    line.put_byte(letter);
    line.copy(out)
}
