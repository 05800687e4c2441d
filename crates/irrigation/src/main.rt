// Two days at a small basin: a storm on two plots, a pump at the channel, and the book beside the clerk's own tally.
#![tactic(auto)]

use crate::tally::{Granted, Tally};
use anyhow::Context;
use banks::{Bank, Pair, Plot};
use basin::{Basin, Book, Parcel};
use refusals::{Notice, Refusal};
use storages::{Recession, Tapped};

mod tally;

// The rain that a recorder caught on 4 October 1949, hour by hour, in microinches.
const STORM: [u64; 24] = [
    10_000, 0, 0, 0, 110_000, 50_000, 20_000, 210_000, 160_000, 230_000, 220_000, 110_000, 150_000,
    50_000, 10_000, 10_000, 10_000, 10_000, 10_000, 10_000, 10_000, 70_000, 50_000, 90_000,
];

// What the air takes up in an hour of early October, in microinches.
const DEMAND: u64 = 4_908;

// The two plots, in acres: turf on the slope, and the terraces below.
const TURF: u64 = 166;

const TERRACES: u64 = 120;

const TOO_LARGE: &str = "the tally has grown too large";

// Says why a call was refused.
fn say_refused(rt: &impl Print, refusal: Refusal) -> anyhow::Result<()> {
    println!(rt; "  refused by {}", Notice::from(refusal))?;
    Ok(())
}

// A sum of the book beside the clerk's.
fn beside(rt: &impl Print, name: &str, book: u64, tally: u64) -> anyhow::Result<()> {
    println!(rt; "  {name:<11}{book:>12}{tally:>12}")?;
    Ok(())
}

// A clerk at a basin: prints each call, and tallies what was granted.
#[derive(Drop)]
struct Clerk<'a, R: Print, B: Bank, C: Tapped> {
    rt: &'a R,
    basin: Basin<B, C>,
    tally: Tally,
}

impl<'a, R: Print, B: Bank, C: Tapped> Clerk<'a, R, B, C> {
    // A clerk whose tally begins with the water held.
    fn new(rt: &'a R, basin: Basin<B, C>) -> Clerk<'a, R, B, C> {
        let tally = Tally::new(basin.question().held);
        Clerk { rt, basin, tally }
    }

    // The tally with one granted call more.
    fn tallied(&self, call: Granted) -> anyhow::Result<Tally> {
        self.tally.add(call).context(TOO_LARGE)
    }

    // Rain on a plot of that many acres.
    fn rain(&mut self, segment: u64, area: u64, depth: u64) -> anyhow::Result<()> {
        println!(self.rt; "rain of {depth} microinches on plot {segment}")?;
        match self.basin.rain(segment, depth, DEMAND) {
            Ok((runoff, evaporated, deep)) => {
                println!(self.rt; "  ran off {runoff}, evaporated {evaporated}, lost deep {deep}")?;
                self.tally = self.tallied(Granted::Rain {
                    area,
                    depth,
                    runoff,
                    evaporated,
                    deep,
                })?;
                Ok(())
            }
            Err(refusal) => say_refused(self.rt, refusal),
        }
    }

    // The channel takes what ran off.
    fn turn(&mut self) -> anyhow::Result<()> {
        let (streamflow, deep) = self.basin.turn();
        println!(self.rt; "turn: {streamflow} flowed out, {deep} went deep")?;
        self.tally = self.tallied(Granted::Turn { streamflow, deep })?;
        Ok(())
    }

    // One hour: rain on both plots, then the channel.
    fn hour(&mut self, depth: u64) -> anyhow::Result<()> {
        self.rain(0, TURF, depth)?;
        self.rain(1, TERRACES, depth)?;
        self.turn()
    }

    // A day of hours.
    fn day(&mut self, depths: &[u64]) -> anyhow::Result<()> {
        for depth in depths {
            self.hour(*depth)?;
        }
        Ok(())
    }

    // The pump takes water from the channel. The draw is tallied first: where that fails, no parcel is at hand.
    fn draw(&mut self, amount: u64) -> anyhow::Result<Option<Parcel>> {
        println!(self.rt; "the pump asks for {amount}")?;
        let tallied = self.tallied(Granted::Draw(amount))?;
        match self.basin.draw(amount) {
            Ok(parcel) => {
                self.tally = tallied;
                Ok(Some(parcel))
            }
            Err(refusal) => {
                say_refused(self.rt, refusal)?;
                Ok(None)
            }
        }
    }

    // Books a parcel out: its water goes to the fields.
    fn book(&self, parcel: Parcel) -> anyhow::Result<()> {
        let amount = parcel.book();
        println!(self.rt; "  {amount} booked out to the fields")?;
        Ok(())
    }

    // Pours a parcel back, or books it out where the basin has no room for it.
    fn give_back(&mut self, mut parcel: Parcel) -> anyhow::Result<()> {
        let amount = parcel.amount();
        match self.basin.pour(&mut parcel) {
            Ok(()) => {
                println!(self.rt; "  {amount} poured back")?;
                self.tally = self.tallied(Granted::Pour(amount))?;
                Ok(())
            }
            Err(refusal) => {
                self.book(parcel)?;
                say_refused(self.rt, refusal)
            }
        }
    }

    // A draw that is booked out, one that is poured back, one that the channel does not cover, and rain where there is no plot.
    fn pumping(&mut self) -> anyhow::Result<()> {
        if let Some(parcel) = self.draw(2_500_000)? {
            self.book(parcel)?;
        }
        if let Some(parcel) = self.draw(1_000_000)? {
            self.give_back(parcel)?;
        }
        if let Some(parcel) = self.draw(1_000_000_000_000)? {
            self.book(parcel)?;
        }
        self.rain(2, TERRACES, 10_000)
    }

    // Closes the book, and shows it beside the tally since the last closing.
    fn close(&mut self) -> anyhow::Result<()> {
        let Book { sums, held } = self.basin.closing();
        let since = self.tally.since;
        println!(self.rt; "closing            book       tally")?;
        beside(self.rt, "opening", sums.opening, since.opening)?;
        beside(self.rt, "rain", sums.rain, since.rain)?;
        beside(self.rt, "streamflow", sums.streamflow, since.streamflow)?;
        beside(self.rt, "evaporated", sums.evaporated, since.evaporated)?;
        beside(self.rt, "deep", sums.deep, since.deep)?;
        beside(self.rt, "drawn", sums.drawn, since.drawn)?;
        beside(self.rt, "poured", sums.poured, since.poured)?;
        self.tally = self.tally.close().context(TOO_LARGE)?;
        beside(self.rt, "held", held, self.tally.since.opening)
    }

    // The storm, the pump, a closing, and a dry day after it.
    fn two_days(&mut self) -> anyhow::Result<()> {
        self.day(&STORM)?;
        self.pumping()?;
        self.close()?;
        self.day(&[0; 24])?;
        println!(self.rt; "asked: {} still held", self.basin.question().held)?;
        self.close()?;
        let whole = self.tally.whole;
        println!(self.rt; "both days: rain {}, poured {}", whole.rain, whole.poured)?;
        println!(self.rt;
            "  streamflow {}, evaporated {}, deep {}, drawn {}",
            whole.streamflow, whole.evaporated, whole.deep, whole.drawn
        )?;
        Ok(())
    }
}

// Two plots over a channel: the turf lets a fiftieth of its water go each hour, the terraces a tenth, the channel three twentieths.
fn opened() -> Result<Basin<Pair<Plot<Recession>, Plot<Recession>>, Recession>, Refusal> {
    let turf = Plot::new(Recession::new(22_082, 100_000_000)?, TURF)?;
    let terraces = Plot::new(Recession::new(104_858, 100_000_000)?, TERRACES)?;
    let channel = Recession::new(157_286, 8_000_000_000_000)?;
    Basin::open(Pair::new(turf, terraces)?, channel)
}

fn main(rt: HostRuntime) -> anyhow::Result<()> {
    match opened() {
        Ok(basin) => Clerk::new(&rt, basin).two_days(),
        Err(refusal) => say_refused(&rt, refusal),
    }
}
