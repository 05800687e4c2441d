// The calls on a basin. Each says what it does to what can be seen, and to the bank and the channel themselves.
ghost use Rattle.std.specs.Prelude.{◌≡◌, ℕ, ◌+◌, ◌≤◌, IfOk, MatchResult};
ghost use Rattle.refusals.specs.Limits.{Answers, Kept};
ghost use Rattle.storages.specs.Meaning.{Out, top};
ghost use Rattle.banks.specs.Rows.{at, volume};
ghost use Rattle.basin.specs.Law.{held, New, Law, Even, page, by_rain, by_turn, by_draw, by_pour, by_closing, by_question};
ghost use Rattle.basin.specs.Calls.{Called, Rains, opening_limits, rain_limits, water_limits};

use crate::book::{Book, Sums};
use crate::parcel::Parcel;
use banks::Bank;
use refusals::Refusal;
use storages::{Storage, Tapped};

// A bank over a channel. Water that the bank releases waits in the pocket until the channel takes it.
#[derive(Drop)]
pub struct Basin<B: Bank, C: Storage> {
    bank: B,
    channel: C,
    pocket: u64,
    sums: Sums,
    ghost room: { volume (B.Bank.tracts bank) + pocket + C.Storage.holds channel ≤ C.Storage.limit channel },
    ghost even: { Even sums (volume (B.Bank.tracts bank) + pocket + C.Storage.holds channel) },
    ghost opening: { sums.opening ≤ top },
    ghost fits: { sums.rain + sums.poured ≤ page },
}

// The most rain and poured water of one book.
const PAGE: u64 = 1_000_000_000_000_000;

impl<B: Bank, C: Tapped> Basin<B, C> {
    ghost use Rattle.basin.specs.Basins.{view, RainMoved, Moved};

    // Opens a basin with all that its bank and its channel hold. From here on its books balance, whatever is called.
    pub fn open(bank: B, channel: C) -> Result<Basin<B, C>, Refusal>
    where
        B: Drop,
        C: Drop,
        ensures opened { Answers (opening_limits (B.Bank.tracts bank) (C.Storage.holds channel) (C.Storage.limit channel)) result (λ b. New (view B.Bank C.Storage b) × (b.bank ≡ bank) × (b.channel ≡ channel)) (Unit {0}) }
        ensures law { IfOk result (λ b. Law Called (view B.Bank C.Storage b)) }
    {
        let opening = bank.volume() + channel.content();
        if opening > channel.ceiling() {
            return Err(Refusal::OpeningAboveCeiling);
        }
        Ok(Basin {
            bank,
            channel,
            pocket: 0,
            sums: Sums::fresh(opening),
        })
    }

    // All water held: on the bank, in the pocket and in the channel.
    fn held(&self) -> u64
        ensures { result ≡ held (view B.Bank C.Storage self.now) }
    {
        self.bank.volume() + self.pocket + self.channel.content()
    }

    // The checks of a rain, in their order; answers the segment's area.
    fn admit(&self, segment: u64, depth: u64, demand: u64) -> Result<u64, Refusal>
        ensures { Answers (rain_limits (view B.Bank C.Storage self.now) segment depth demand) result (λ a. a ≡ (at (B.Bank.tracts self.now.bank) segment).area) (Unit {0}) }
    {
        if segment >= self.bank.count() {
            return Err(Refusal::NoSuchSegment(segment));
        }
        if depth > 15_000_000 {
            return Err(Refusal::RainAboveLimit(segment));
        }
        if demand > 1_000_000 {
            return Err(Refusal::DemandAboveLimit(segment));
        }
        let tract = self.bank.tract(segment);
        if depth > tract.ceiling - tract.content {
            return Err(Refusal::StorageFull(segment));
        }
        self.admit_water(depth * tract.area, segment)?;
        Ok(tract.area)
    }

    // The checks of new water: the basin's ceiling, and then the book's limit.
    fn admit_water(&self, water: u64, place: u64) -> Result<(), Refusal>
        ensures { Answers (water_limits (view B.Bank C.Storage self.now) water place) result (λ _. Unit {0}) (Unit {0}) }
    {
        if water > self.channel.ceiling() - self.held() {
            return Err(Refusal::BasinFull(place));
        }
        if water > PAGE - (self.sums.rain + self.sums.poured) {
            return Err(Refusal::BookFull(place));
        }
        Ok(())
    }

    // Rain on one segment: answers what ran off, evaporated and was lost deep, as volumes. What ran off joins the pocket.
    pub fn rain(
        &mut self,
        segment: u64,
        depth: u64,
        demand: u64,
    ) -> Result<(u64, u64, u64), Refusal>
        ensures called { Called (view B.Bank C.Storage self.old) (by_rain segment depth demand result) (view B.Bank C.Storage self.new) }
        ensures moved { Moved B.Bank C.Storage C.Tapped.own self.old (by_rain segment depth demand result) self.new }
    {
        let area = self.admit(segment, depth, demand)?;
        Ok(self.rain_admitted(segment, depth, demand, area))
    }

    // A rain that no rule refuses: the bank rains, and its depths are entered as volumes.
    fn rain_admitted(&mut self, segment: u64, depth: u64, demand: u64, area: u64) -> (u64, u64, u64)
        requires limits { Kept (rain_limits (view B.Bank C.Storage self.old) segment depth demand) }
        requires area { area ≡ (at (B.Bank.tracts self.old.bank) segment).area }
        ensures rains { Rains (view B.Bank C.Storage self.old) segment depth demand result (view B.Bank C.Storage self.new) }
        ensures moved { RainMoved B.Bank C.Storage self.old segment depth demand result self.new }
    {
        let Ok((release, evaporated, deep)) = self.bank.rain(segment, depth, demand) else {
            unreachable()
        };
        self.pocket += release * area;
        self.sums.rain += depth * area;
        self.sums.evaporated += evaporated * area;
        self.sums.deep += deep * area;
        (release * area, evaporated * area, deep * area)
    }

    // The channel takes the pocket: answers streamflow and deep loss.
    pub fn turn(&mut self) -> (u64, u64)
        ensures called { Called (view B.Bank C.Storage self.old) (by_turn result.0 result.1) (view B.Bank C.Storage self.new) }
        ensures moved { Moved B.Bank C.Storage C.Tapped.own self.old (by_turn result.0 result.1) self.new }
    {
        let pocket = self.pocket;
        let (streamflow, deep) = take(&mut self.channel, pocket);
        self.pocket = 0;
        self.sums.streamflow += streamflow;
        self.sums.deep += deep;
        (streamflow, deep)
    }

    // Takes channel water as a parcel.
    pub fn draw(&mut self, amount: u64) -> Result<Parcel, Refusal>
        ensures called { Called (view B.Bank C.Storage self.old) (by_draw amount result) (view B.Bank C.Storage self.new) }
        ensures moved { Moved B.Bank C.Storage C.Tapped.own self.old (by_draw amount result) self.new }
    {
        if amount == 0 {
            return Err(Refusal::DrawAmount);
        }
        self.channel.draw(amount)?;
        self.sums.drawn += amount;
        Ok(Parcel { amount })
    }

    // Empties a parcel into the pocket.
    pub fn pour(&mut self, parcel: &mut Parcel) -> Result<(), Refusal>
        ensures called { Called (view B.Bank C.Storage self.old) (by_pour parcel.old.amount result) (view B.Bank C.Storage self.new) }
        ensures moved { Moved B.Bank C.Storage C.Tapped.own self.old (by_pour parcel.old.amount result) self.new }
        ensures parcel { MatchResult result (λ _. parcel.new.amount ≡ 0) (λ _. parcel.new ≡ parcel.old) }
    {
        let amount = parcel.amount;
        if amount == 0 {
            return Err(Refusal::EmptyParcel);
        }
        self.admit_water(amount, 0)?;
        self.pocket += amount;
        self.sums.poured += amount;
        parcel.amount = 0;
        Ok(())
    }

    // The book as a closing would answer it.
    pub fn question(&self) -> Book
        ensures { Called (view B.Bank C.Storage self.now) (by_question result) (view B.Bank C.Storage self.now) }
    {
        Book {
            sums: self.sums,
            held: self.held(),
        }
    }

    // Answers the book, and begins another with all water held.
    pub fn closing(&mut self) -> Book
        ensures called { Called (view B.Bank C.Storage self.old) (by_closing result) (view B.Bank C.Storage self.new) }
        ensures moved { Moved B.Bank C.Storage C.Tapped.own self.old (by_closing result) self.new }
    {
        let book = self.question();
        self.sums = Sums::fresh(book.held);
        book
    }
}

// A storage takes an inflow that it has room for, and no demand: answers release and deep loss.
fn take<S: Storage>(storage: &mut S, inflow: u64) -> (u64, u64)
    requires { S.Storage.holds storage.old + inflow ≤ S.Storage.limit storage.old }
    ensures steps { S.Storage.steps storage.old inflow 0 (result.0, 0, result.1) storage.new }
    ensures balance { S.Storage.holds storage.new + result.0 + result.1 ≡ S.Storage.holds storage.old + inflow }
    ensures ceiling { S.Storage.limit storage.new ≡ S.Storage.limit storage.old }
{
    let Ok((release, _evaporated, deep)) = storage.step(inflow, 0) else {
        unreachable()
    };
    (release, deep)
}
