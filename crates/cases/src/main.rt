// Stored cases: cards and feeds, good and damaged, held against the lines that a second engine gave for them.
#![tactic(auto)]

use crate::packed::{Case, Packed};
use banks::Bank;
use basin::Basin;
use lines::Line;
use posting::{open, post_block};
use refusals::{Notice, Refusal};
use std::fs;
use storages::Tapped;

mod packed;

// Bytes of a block of records, and of the page of their lines.
const BLOCK: usize = 16_384;

const PAGE: usize = 196_608;

// Whether the lines of a feed on a basin are those expected.
fn feed_agrees<B: Bank, C: Tapped>(basin: &mut Basin<B, C>, feed: &[u8], lines: &[u8]) -> bool {
    let mut page = [0u8; PAGE];
    let mut expected = lines;
    for block in feed.chunks(BLOCK) {
        let size = post_block(basin, block, &mut page).unwrap();
        let Some(rest) = expected.strip_prefix(&page[..size]) else {
            return false;
        };
        expected = rest;
    }
    expected.is_empty()
}

// Whether the line of a refused card is the one expected.
fn refusal_agrees(refusal: Refusal, lines: &[u8]) -> bool {
    let mut line = [0u8; 192];
    let size = Line::Refused(Notice::from(refusal))
        .write(&mut line)
        .unwrap();
    lines == &line[..size]
}

// Whether a card, opened and fed, or refused, comes to the lines expected.
fn case_agrees(case: &Case<'_>) -> bool {
    match open(case.card) {
        Ok(mut basin) => feed_agrees(&mut basin, case.feed, case.lines),
        Err(refusal) => refusal_agrees(refusal, case.lines),
    }
}

fn main(rt: HostRuntime) -> anyhow::Result<()> {
    let data = fs::read(&rt, "cases.dat")?;
    let cases = Packed::new(data.as_slice()).count();
    let differing = Packed::new(data.as_slice())
        .filter(|case| !case_agrees(case))
        .count();
    println!(rt; "{cases} cases, {differing} differ")?;
    Ok(())
}
