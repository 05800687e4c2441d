// The fields of a card: parts of its own bytes, with their offsets.
ghost use Rattle.std.specs.Prelude.{◌≡◌, IfOk};
ghost use Rattle.card.specs.Fields.{part, offset, told, Placed};

use crate::figures::figure;
use crate::words::place_of;
use refusals::Refusal;

// A name or a figure, where it stands on the card.
#[derive(Clone, Copy)]
pub(crate) enum Field<'a> {
    Name { at: u64, text: &'a [u8; 8] },
    Figure { at: u64, text: &'a [u8; 12] },
}

impl<'a> Field<'a> {
    // The offset at which a field begins.
    pub(crate) fn at(self) -> u64
        ensures { result ≡ offset (part self.entry) }
    {
        match self {
            Field::Name { at, .. } => at,
            Field::Figure { at, .. } => at,
        }
    }

    // What a field says: the place of its name among the words, or its figure.
    pub(crate) fn read(self) -> Result<u64, Refusal>
        ensures value { result ≡ told (part self.entry) }
        ensures below { IfOk result (λ n. Placed (part self.entry) n) }
    {
        match self {
            Field::Name { at, text } => place_of(text)
                .map(|k| k as u64)
                .ok_or(Refusal::UnknownName(at)),
            Field::Figure { at, text } => figure(text).ok_or(Refusal::NotANumber(at)),
        }
    }
}
