// Why a call is refused: one case for each rule that can be broken.
#![tactic(auto)]

ghost use Rattle.std.specs.Prelude.{◌≡◌, Some};
ghost use Rattle.refusals.specs.Notices.{notice_of, shown};

use std::fmt;

// A broken rule. A case that holds a number says where: an offset on a card or in a record, or a segment.
#[derive(Clone, Copy, PartialEq, Eq, Debug)]
pub enum Refusal {
    CardLength,
    UnknownName(u64),
    RepeatedName(u64),
    NotANumber(u64),
    OutOfRange(u64),
    StorageFigure,
    JoinedContents,
    PlotFigure,
    TooManySegments,
    OpeningAboveCeiling,
    RecordLength,
    UnknownLetter,
    NotZero(u64),
    NoSuchSegment(u64),
    RainAboveLimit(u64),
    DemandAboveLimit(u64),
    StorageFull(u64),
    BasinFull(u64),
    BookFull(u64),
    DrawAmount,
    EmptyParcel,
    ShortBuffer,
}

// A refusal as it is reported: its number, the layer that found it, and the place.
#[derive(Clone, Copy, PartialEq, Eq, Debug)]
pub struct Notice {
    pub number: u64,
    pub layer: u64,
    pub place: u64,
}

impl Notice {
    fn new(number: u64, layer: u64, place: u64) -> Notice
        ensures { result ≡ record { number = number; layer = layer; place = place } }
    {
        Notice {
            number,
            layer,
            place,
        }
    }
}

impl From<Refusal> for Notice {
    ghost from_gives = { λ f n. n ≡ notice_of f };

    // The number, layer and place by which a refusal is reported.
    fn from(refusal: Refusal) -> Notice {
        match refusal {
            Refusal::CardLength => Notice::new(1, 2, 0),
            Refusal::UnknownName(at) => Notice::new(2, 2, at),
            Refusal::RepeatedName(at) => Notice::new(3, 2, at),
            Refusal::NotANumber(at) => Notice::new(4, 2, at),
            Refusal::OutOfRange(at) => Notice::new(5, 2, at),
            Refusal::StorageFigure => Notice::new(6, 3, 0),
            Refusal::JoinedContents => Notice::new(7, 3, 0),
            Refusal::PlotFigure => Notice::new(8, 4, 0),
            Refusal::TooManySegments => Notice::new(9, 4, 0),
            Refusal::OpeningAboveCeiling => Notice::new(10, 5, 0),
            Refusal::RecordLength => Notice::new(11, 1, 0),
            Refusal::UnknownLetter => Notice::new(12, 1, 0),
            Refusal::NotZero(at) => Notice::new(13, 1, at),
            Refusal::NoSuchSegment(k) => Notice::new(14, 4, k),
            Refusal::RainAboveLimit(k) => Notice::new(15, 5, k),
            Refusal::DemandAboveLimit(k) => Notice::new(16, 5, k),
            Refusal::StorageFull(k) => Notice::new(17, 3, k),
            Refusal::BasinFull(k) => Notice::new(18, 5, k),
            Refusal::BookFull(k) => Notice::new(19, 5, k),
            Refusal::DrawAmount => Notice::new(20, 3, 0),
            Refusal::EmptyParcel => Notice::new(21, 5, 0),
            Refusal::ShortBuffer => Notice::new(22, 5, 0),
        }
    }
}

impl fmt::Display for Notice {
    ghost output = { λ n. Some (shown n) };

    fn fmt<W: fmt::Write>(&self, f: &mut fmt::Formatter<W>) -> fmt::Result {
        write!(
            f,
            "rule {}, found in layer {}, at {}",
            self.number, self.layer, self.place
        )
    }
}
