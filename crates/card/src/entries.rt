// One record of a card: a word that is new, and a figure within its range.
ghost use Rattle.std.specs.Prelude.{◌≡◌, ◌+◌, ◌<◌, ◌≤◌, take, drop, IfOk};
ghost use Rattle.card.specs.Fields.{part, a_name, a_figure};
ghost use Rattle.card.specs.Entries.{given, word_with, figure_under, entry_with};

use crate::fields::Field;
use crate::words::in_range;
use refusals::Refusal;

// A name of eight bytes and a figure of twelve, and the offset at which they begin.
#[derive(Clone, Copy)]
pub(crate) struct Record<'a> {
    pub(crate) at: u64,
    pub(crate) bytes: &'a [u8; 20],
    ghost on_card: { at ≤ 260 },
}

impl<'a> Record<'a> {
    // The field of its name.
    fn name(self) -> Field<'a>
        ensures { part result ≡ a_name self.entry.at (take 8 self.entry.bytes.now) }
    {
        let Record { at, bytes } = self;
        let text = bytes.first_chunk().unwrap();
        Field::Name { at, text }
    }

    // The field of its figure.
    fn figure(self) -> Field<'a>
        ensures { part result ≡ a_figure (self.entry.at + 8) (drop 8 self.entry.bytes.now) }
    {
        let Record { at, bytes } = self;
        let text = bytes.last_chunk().unwrap();
        Field::Figure { at: at + 8, text }
    }

    // The place of its word; `figures` has a figure for each word that came before.
    fn word(self, figures: &[Option<u64>; 14]) -> Result<usize, Refusal>
        ensures value { result ≡ word_with (given figures.now) self.entry.at (take 8 self.entry.bytes.now) }
        ensures below { IfOk result (λ k. k < 14) }
    {
        let name = self.name();
        let k = name.read()? as usize;
        if figures[k].is_some() {
            return Err(Refusal::RepeatedName(name.at()));
        }
        Ok(k)
    }

    // What its figure says, under the word at place k.
    fn value(self, k: usize) -> Result<u64, Refusal>
        requires { k < 14 }
        ensures { result ≡ figure_under k self.entry.at (drop 8 self.entry.bytes.now) }
    {
        let figure = self.figure();
        let v = figure.read()?;
        if !in_range(k, v) {
            return Err(Refusal::OutOfRange(figure.at()));
        }
        Ok(v)
    }

    // The place of its word and its figure, or the first rule that it breaks.
    pub(crate) fn read(self, figures: &[Option<u64>; 14]) -> Result<(usize, u64), Refusal>
        ensures value { result ≡ entry_with (given figures.now) self.entry.at (take 8 self.entry.bytes.now) (drop 8 self.entry.bytes.now) }
        ensures below { IfOk result (λ e. e.0 < 14) }
    {
        let k = self.word(figures)?;
        let v = self.value(k)?;
        Ok((k, v))
    }
}
