// A basin in which every kind of call is granted, and the refusals 6 to 8, 10 and 14 to 21 are met.

use banks::{Bank, Pair, Plot};
use basin::{Basin, Parcel};
use nesting::new_river;
use refusals::{Notice, Refusal};
use std::test::Fail;
use storages::{Chain, Recession, Storage, Tapped};

const HALF: u64 = 524_288;

// The number of a refusal, if there is one.
fn number<T: Drop>(answer: Result<T, Refusal>) -> Option<u64> {
    match answer {
        Ok(_) => None,
        Err(refusal) => Some(Notice::from(refusal).number),
    }
}

// What a draw came to: its amount, booked out, or the number of its refusal.
fn booked(answer: Result<Parcel, Refusal>) -> Result<u64, u64> {
    match answer {
        Ok(parcel) => Ok(parcel.book()),
        Err(refusal) => Err(Notice::from(refusal).number),
    }
}

// A plot of ten acres over a recession of one half.
fn plot(ceiling: u64) -> Result<Plot<Recession>, Refusal> {
    Plot::new(Recession::new(HALF, ceiling)?, 10)
}

#[test]
fn makings_refuse(rt: HostRuntime) -> Result<(), Fail> {
    assert_eq!(rt; number(Recession::new(0, 5)), Some(6));
    assert_eq!(rt; number(Recession::new(HALF, 8_000_000_000_001)), Some(6));
    assert_eq!(rt; number(Plot::new(Recession::new(HALF, 5)?, 5_001)), Some(8));
    let mut full = Recession::new(1, 5)?;
    let _ = full.step(5, 0)?;
    let mut other = Recession::new(1, 5)?;
    let _ = other.step(5, 0)?;
    assert_eq!(rt; number(Chain::new(full, other)), Some(7));
    Ok(())
}

#[test]
fn opening_above_the_ceiling_is_refused(rt: HostRuntime) -> Result<(), Fail> {
    let mut wet = Recession::new(1, 100)?;
    let _ = wet.step(100, 0)?;
    assert_eq!(rt;
        number(Basin::open(Plot::new(wet, 10)?, Recession::new(HALF, 999)?)),
        Some(10)
    );
    Ok(())
}

#[test]
fn every_call_is_granted(rt: HostRuntime) -> Result<(), Fail> {
    let mut basin = Basin::open(plot(1_000)?, Recession::new(HALF, 100_000)?)?;
    assert_eq!(rt; basin.rain(0, 1_000, 100)?, (4_500, 1_000, 0));
    assert_eq!(rt; basin.turn(), (2_250, 0));
    assert_eq!(rt; booked(basin.draw(250)), Ok(250));
    assert_eq!(rt; basin.question().held, 6_500);
    let book = basin.closing();
    assert_eq!(rt;
        (book.sums.rain, book.sums.evaporated, book.sums.drawn),
        (10_000, 1_000, 250)
    );
    assert_eq!(rt; basin.question().sums.opening, 6_500);
    Ok(())
}

#[test]
fn rains_and_draws_refuse(rt: HostRuntime) -> Result<(), Fail> {
    let bank = Pair::new(plot(1_000)?, plot(1_000)?)?;
    let mut basin = Basin::open(bank, Recession::new(HALF, 12_000)?)?;
    assert_eq!(rt; number(basin.rain(2, 0, 0)), Some(14));
    assert_eq!(rt; number(basin.rain(1, 15_000_001, 0)), Some(15));
    assert_eq!(rt; number(basin.rain(1, 0, 1_000_001)), Some(16));
    assert_eq!(rt; number(basin.rain(0, 1_001, 0)), Some(17));
    assert_eq!(rt; number(basin.rain(0, 1_000, 0)), None);
    assert_eq!(rt; number(basin.rain(1, 201, 0)), Some(18));
    assert_eq!(rt; number(basin.rain(1, 200, 0)), None);
    assert_eq!(rt; booked(basin.draw(0)), Err(20));
    assert_eq!(rt; booked(basin.draw(1)), Err(20));
    Ok(())
}

// Pours a parcel into a basin twice; the second time it is empty.
#[test]
fn a_parcel_is_poured_once(rt: HostRuntime) -> Result<(), Fail> {
    let mut basin = Basin::open(plot(1_000)?, Recession::new(HALF, 12_000)?)?;
    assert_eq!(rt; number(basin.rain(0, 1_000, 0)), None);
    let _ = basin.turn();
    let mut parcel = basin.draw(1_000)?;
    let first = number(basin.pour(&mut parcel));
    let second = number(basin.pour(&mut parcel));
    assert_eq!(rt; (first, second, parcel.book()), (None, Some(21), 0));
    assert_eq!(rt; basin.question().sums.poured, 1_000);
    Ok(())
}

#[test]
fn a_river_opens_a_basin(rt: HostRuntime) -> Result<(), Fail> {
    let river = new_river(HALF, HALF, &[HALF, HALF], 0, 100_000)?;
    let mut basin = Basin::open(plot(1_000)?, river)?;
    assert_eq!(rt; number(basin.rain(0, 1_000, 0)), None);
    assert_eq!(rt; basin.turn(), (625, 0));
    assert_eq!(rt; basin.question().held, 9_375);
    Ok(())
}

// So many times the deepest rain there can be, and a turn.
fn rounds<B: Bank, C: Tapped>(basin: &mut Basin<B, C>, times: u64) {
    for _ in 0..times {
        let _ = basin.rain(0, 15_000_000, 0);
        let _ = basin.turn();
    }
}

// The book takes rain and poured water up to 10^15, and not a unit more.
#[test]
fn a_book_is_filled_to_its_last_unit(rt: HostRuntime) -> Result<(), Fail> {
    let plot = Plot::new(Recession::new(2 * HALF, 100_000_000)?, 5_000)?;
    let mut basin = Basin::open(plot, Recession::new(HALF, 8_000_000_000_000)?)?;
    rounds(&mut basin, 13_333);
    assert_eq!(rt; number(basin.rain(0, 15_000_000, 0)), Some(19));
    assert_eq!(rt; number(basin.rain(0, 5_000_000, 0)), None);
    assert_eq!(rt; basin.question().sums.rain, 1_000_000_000_000_000);
    let mut parcel = basin.draw(1)?;
    let poured = number(basin.pour(&mut parcel));
    assert_eq!(rt;
        (number(basin.rain(0, 1, 0)), poured, parcel.book()),
        (Some(19), Some(19), 1)
    );
    Ok(())
}
