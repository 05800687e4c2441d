// waterbook: reads card.dat and a feed from standard input, and prints a line for each record.
#![tactic(auto)]

ghost use Rattle.std.specs.Prelude.{◌≤◌, length, IfOk};

use banks::Bank;
use basin::Basin;
use lines::Line;
use posting::{CardBasin, open, post_block};
use refusals::{Notice, Refusal};
use std::io::{Read, Write};
use std::rt::Files;
use std::{fs, io};
use storages::Tapped;

// Bytes of a block of records, and of the page of their lines: 192 for each record of sixteen.
const BLOCK: usize = 16_384;

const PAGE: usize = 196_608;

// A card has 280 bytes: one more is enough to see that it is too long.
const CARD: usize = 281;

// Reads until the block is full or the input ends; answers how many bytes came.
fn fill(input: &mut impl Read, block: &mut [u8]) -> io::Result<usize>
    ensures { IfOk result (λ n. n ≤ length block.old) }
{
    let mut got = 0;
    while got < block.len() {
        let n = input.read(&mut block[got..])?;
        if n == 0 {
            break;
        }
        got += n;
    }
    Ok(got)
}

// Posts the whole feed on a basin, block by block, and prints the lines.
fn run<B: Bank, C: Tapped>(
    basin: &mut Basin<B, C>,
    input: &mut impl Read,
    output: &mut impl Write,
) -> io::Result<()> {
    let mut block = [0u8; BLOCK];
    let mut page = [0u8; PAGE];
    // An input may have no end, so the blocks are counted.
    for _ in 0..u64::MAX {
        let got = fill(input, &mut block)?;
        let size = post_block(basin, &block[..got], &mut page).unwrap();
        output.write_all(&page[..size])?;
        if got < BLOCK {
            break;
        }
    }
    Ok(())
}

// Reads card.dat; answers how many bytes came.
fn read_card(rt: &impl Files, card: &mut [u8]) -> io::Result<usize>
    ensures { IfOk result (λ n. n ≤ length card.old) }
{
    let mut file = fs::open(rt, "card.dat")?;
    fill(&mut file, card)
}

// The basin of card.dat. A card that cannot be read counts as one of no bytes.
fn opened(rt: &impl Files) -> Result<CardBasin, Refusal> {
    let mut card = [0u8; CARD];
    let got = read_card(rt, &mut card).unwrap_or(0);
    open(&card[..got])
}

// Prints the line of a refused card.
fn refuse(refusal: Refusal, output: &mut impl Write) -> io::Result<()> {
    let mut page = [0u8; 192];
    let size = Line::Refused(Notice::from(refusal))
        .write(&mut page)
        .unwrap();
    output.write_all(&page[..size])
}

// An input that cannot be read or an output that cannot be written ends the program with a message and status 1.
fn main(rt: HostRuntime) -> anyhow::Result<()> {
    let mut output = rt.stdout();
    match opened(&rt) {
        Ok(mut basin) => run(&mut basin, &mut rt.stdin(), &mut output)?,
        Err(refusal) => refuse(refusal, &mut output)?,
    }
    Ok(())
}
