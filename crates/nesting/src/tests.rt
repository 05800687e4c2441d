// Every kind at its ends: ceilings of nothing and of the most, the greatest numbers, figures at and past their limits.
use crate::{new_river, pump};
use delay::Delay;
use refusals::Refusal;
use std::test::Fail;
use storages::{Chain, Leak, Recession, Slope, Storage, Tapped};

const TOP: u64 = 8_000_000_000_000;

const WHOLE: u64 = 1_048_576;

#[test]
fn recession_filled_to_the_last_unit(rt: HostRuntime) -> Result<(), Fail> {
    let mut pond = Recession::new(1, TOP)?;
    assert_eq!(rt; pond.step(TOP + 1, 0), Err(Refusal::StorageFull(0)));
    assert_eq!(rt; pond.step(TOP, 0), Ok((7_629_394, 0, 0)));
    assert_eq!(rt; pond.step(7_629_395, 0), Err(Refusal::StorageFull(0)));
    assert_eq!(rt; pond.step(u64::MAX, u64::MAX), Err(Refusal::StorageFull(0)));
    assert_eq!(rt; pond.step(7_629_394, u64::MAX), Ok((0, TOP, 0)));
    assert_eq!(rt; pond.draw(u64::MAX), Err(Refusal::DrawAmount));
    assert_eq!(rt; pond.draw(0), Ok(()));
    Ok(())
}

#[test]
fn slope_at_its_ceiling(rt: HostRuntime) -> Result<(), Fail> {
    assert!(rt; Slope::new(0).is_err() && Slope::new(100_001).is_err());
    let mut hill = Slope::new(1)?;
    assert_eq!(rt; hill.step(100_000_000, u64::MAX), Ok((21_544, 0, 0)));
    assert_eq!(rt; hill.step(21_545, 0), Err(Refusal::StorageFull(0)));
    assert_eq!(rt; hill.step(u64::MAX, 0), Err(Refusal::StorageFull(0)));
    assert_eq!(rt; hill.content(), 99_978_456);
    Ok(())
}

#[test]
fn delay_figures(rt: HostRuntime) {
    let mut far = [0; 25];
    far[23] = WHOLE;
    assert!(rt; Delay::new(&far[0..24], TOP).is_ok() && Delay::new(&far, TOP).is_err());
    assert!(rt; Delay::new(&[], TOP).is_err() && Delay::new(&[WHOLE], TOP + 1).is_err());
    assert!(rt; Delay::new(&[WHOLE - 1], 0).is_err() && Delay::new(&[WHOLE, 1], 0).is_err());
    assert!(rt;
        Delay::new(&[u64::MAX, WHOLE + 1], 0).is_err() && Delay::new(&[u64::MAX; 24], 0).is_err()
    );
}

#[test]
fn delay_hours(rt: HostRuntime) -> Result<(), Fail> {
    let mut dry = Delay::new(&[WHOLE], 0)?;
    assert_eq!(rt; dry.step(0, u64::MAX), Ok((0, 0, 0)));
    assert_eq!(rt; dry.step(1, 0), Err(Refusal::StorageFull(0)));
    let mut even = Delay::new(&[524_288, 524_288], TOP)?;
    assert_eq!(rt; even.step(5, 9), Ok((2, 0, 0)));
    assert_eq!(rt; even.step(u64::MAX, 0), Err(Refusal::StorageFull(0)));
    assert_eq!(rt; even.step(TOP - 3, 0), Ok((4_000_000_000_001, 0, 0)));
    assert_eq!(rt; even.draw(u64::MAX), Err(Refusal::DrawAmount));
    assert_eq!(rt; even.content(), 3_999_999_999_999);
    Ok(())
}

#[test]
fn delay_draws_the_soonest_hour(rt: HostRuntime) -> Result<(), Fail> {
    let mut late = Delay::new(&[0, 0, 524_288, 0, 524_288], 10)?;
    assert_eq!(rt; late.step(10, 0), Ok((0, 0, 0)));
    assert_eq!(rt; late.draw(7), Ok(()));
    assert_eq!(rt;
        [late.step(0, 0), late.step(0, 0)],
        [Ok((0, 0, 0)), Ok((0, 0, 0))]
    );
    assert_eq!(rt;
        [late.step(0, 0), late.step(0, 0)],
        [Ok((0, 0, 0)), Ok((3, 0, 0))]
    );
    Ok(())
}

#[test]
fn leak_is_full_by_the_whole_inflow(rt: HostRuntime) -> Result<(), Fail> {
    let mut pond = Recession::new(1, 10)?;
    assert_eq!(rt; pond.step(5, 0), Ok((0, 0, 0)));
    let mut leaky = Leak::new(524_288, pond)?;
    assert_eq!(rt; leaky.step(8, 0), Err(Refusal::StorageFull(0)));
    assert_eq!(rt;
        leaky.step(u64::MAX, u64::MAX),
        Err(Refusal::StorageFull(0))
    );
    assert_eq!(rt; leaky.step(5, 1), Ok((0, 1, 2)));
    assert_eq!(rt; leaky.draw(8), Err(Refusal::DrawAmount));
    assert_eq!(rt; leaky.draw(7), Ok(()));
    assert!(rt; Leak::new(524_289, Recession::new(1, 0)?).is_err());
    Ok(())
}

#[test]
fn chain_joins_up_to_the_lesser_ceiling(rt: HostRuntime) -> Result<(), Fail> {
    let mut above = Recession::new(524_288, 12)?;
    let mut below = Recession::new(1, 10)?;
    assert_eq!(rt;
        [above.step(12, 0), below.step(4, 0)],
        [Ok((6, 0, 0)), Ok((0, 0, 0))]
    );
    let mut both = Chain::new(above, below)?;
    assert_eq!(rt; both.step(1, 0), Err(Refusal::StorageFull(0)));
    assert_eq!(rt; both.step(0, 5), Ok((0, 5, 0)));
    assert_eq!(rt; both.step(u64::MAX, 0), Err(Refusal::StorageFull(0)));
    assert_eq!(rt; both.draw(6), Err(Refusal::DrawAmount));
    assert_eq!(rt; both.draw(5), Ok(()));
    Ok(())
}

#[test]
fn chain_above_its_ceiling_is_refused(rt: HostRuntime) -> Result<(), Fail> {
    let mut above = Recession::new(1, 10)?;
    let mut below = Recession::new(1, 10)?;
    assert_eq!(rt;
        [above.step(6, 0), below.step(5, 0)],
        [Ok((0, 0, 0)), Ok((0, 0, 0))]
    );
    assert!(rt; Chain::new(above, below).is_err());
    Ok(())
}

#[test]
fn river_of_nothing(rt: HostRuntime) -> Result<(), Fail> {
    let mut bed = new_river(1, WHOLE, &[WHOLE], 0, 0)?;
    assert_eq!(rt; pump(&mut bed, 1, 0), Err(Refusal::StorageFull(0)));
    assert_eq!(rt; pump(&mut bed, 0, u64::MAX), Ok((0, 0, 0)));
    assert!(rt; new_river(0, 1, &[WHOLE], 0, 0).is_err() && new_river(1, 1, &[], 0, 0).is_err());
    Ok(())
}
