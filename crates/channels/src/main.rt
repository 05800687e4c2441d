// A river through one wet day: what flows in, what flows out, what goes deep, what is drawn, what is held.
#![tactic(auto)]

use anyhow::bail;
use nesting::{River, new_river, pump};
use storages::Storage;

// Rain of each hour at a recorder on 4 October 1949, in hundredths of an inch.
const RAIN: [u32; 24] = [
    1, 0, 0, 0, 11, 5, 2, 21, 16, 23, 22, 11, 15, 5, 1, 1, 1, 1, 1, 1, 1, 7, 5, 9,
];

// What a hundredth of an inch brings to 166 acres, in acre-microinches.
const HUNDREDTH: u64 = 1_660_000;

// What a farm asks for every fourth hour.
const ASKED: u64 = 20_000_000;

// One hour of the river, told in words.
fn tell(rt: &impl Print, hour: usize, inflow: u64, river: &mut River) -> anyhow::Result<()> {
    let asked = if hour % 4 == 0 { ASKED } else { 0 };
    let Ok((release, deep, drawn)) = pump(river, inflow, asked) else {
        println!(rt; "hour {hour}: {inflow} are refused, the river is full")?;
        return Ok(());
    };
    print!(rt; "hour {hour}: {inflow} flow in, {release} flow out, {deep} go deep")?;
    if drawn > 0 {
        print!(rt; ", {drawn} are drawn")?;
    }
    let held = river.content();
    println!(rt; ", {held} are held")?;
    Ok(())
}

// The day, hour by hour from 1.
fn day(rt: &impl Print, river: &mut River) -> anyhow::Result<()> {
    for (hour, hundredths) in RAIN.iter().enumerate() {
        tell(rt, hour + 1, u64::from(*hundredths) * HUNDREDTH, river)?;
    }
    Ok(())
}

fn main(rt: HostRuntime) -> anyhow::Result<()> {
    let weights = [104_858, 157_286, 262_144, 262_144, 157_286, 104_858];
    let Ok(mut river) = new_river(157_286, 524_288, &weights, 10_486, 8_000_000_000_000) else {
        bail!("the river's figures are outside their limits");
    };
    day(&rt, &mut river)
}
