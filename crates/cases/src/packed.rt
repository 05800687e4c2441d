// Cases packed one behind the other: three lengths of four bytes, then card, feed and lines.
ghost use Rattle.std.specs.Prelude.{◌≡◌, ◌+◌, length, IfSome};
ghost use Rattle.std.specs.Iterator.{at_most};

// A case: its card, its feed and the lines expected.
#[derive(Clone, Copy)]
pub struct Case<'a> {
    pub card: &'a [u8],
    pub feed: &'a [u8],
    pub lines: &'a [u8],
}

// What is left of the packed cases.
#[derive(Drop)]
pub struct Packed<'a> {
    rest: &'a [u8],
}

impl<'a> Packed<'a> {
    // All cases of the data.
    pub fn new(data: &'a [u8]) -> Packed<'a>
        ensures { result.rest.now ≡ data.now }
    {
        Packed { rest: data }
    }

    // The next so many bytes, if there are as many.
    fn take(&mut self, size: usize) -> Option<&'a [u8]>
        ensures { IfSome result (λ front. length front.now + length self.new.rest.now ≡ length self.old.rest.now) }
    {
        let (front, rest) = self.rest.split_at_checked(size)?;
        self.rest = rest;
        Some(front)
    }

    // A length of four bytes, the least first.
    fn length(&mut self) -> Option<usize>
        ensures { IfSome result (λ _. 4 + length self.new.rest.now ≡ length self.old.rest.now) }
    {
        let (bytes, rest) = self.rest.split_first_chunk()?;
        self.rest = rest;
        Some(u32::from_le_bytes(*bytes) as usize)
    }
}

impl<'a> Iterator for Packed<'a> {
    type Item = Case<'a>;

    // Each case takes at least its lengths.
    ghost remaining = { λ s. at_most (length s.rest.now) };

    fn next(&mut self) -> Option<Case<'a>> {
        let card = self.length()?;
        let feed = self.length()?;
        let lines = self.length()?;
        Some(Case {
            card: self.take(card)?,
            feed: self.take(feed)?,
            lines: self.take(lines)?,
        })
    }
}
