// Printed lines: one for each record of a feed.
#![tactic(auto)]

ghost use Rattle.std.specs.Prelude.{◌≡◌, length};
ghost use Rattle.refusals.specs.Limits.{Answers};
ghost use Rattle.lines.specs.Text.{text, buffer_limits, Printed};

use crate::backward::{ROOM, put_line};
use basin::Book;
use refusals::{Notice, Refusal};

mod backward;

// What a record came to: rain on a segment, a turn, a closing, or a refusal.
#[derive(Clone, Copy)]
pub enum Line {
    Rain {
        segment: u64,
        runoff: u64,
        evaporated: u64,
        deep: u64,
    },
    Turn {
        streamflow: u64,
        deep: u64,
    },
    Closing(Book),
    Refused(Notice),
}

impl Line {
    // Writes the line at the front of a buffer, nothing past its newline, and answers its length.
    pub fn write(self, out: &mut [u8]) -> Result<usize, Refusal>
        ensures { Answers (buffer_limits (length out.old)) result (λ n. Printed (text self) out.old n out.new) (out.new ≡ out.old) }
    {
        if out.len() < ROOM {
            return Err(Refusal::ShortBuffer);
        }
        let size = match self {
            Line::Rain {
                segment,
                runoff,
                evaporated,
                deep,
            } => put_line(out, b'R', &[segment, runoff, evaporated, deep]),
            Line::Turn { streamflow, deep } => put_line(out, b'T', &[streamflow, deep]),
            Line::Closing(Book { sums, held }) => put_line(
                out,
                b'C',
                &[
                    sums.opening,
                    sums.rain,
                    sums.streamflow,
                    sums.evaporated,
                    sums.deep,
                    sums.drawn,
                    sums.poured,
                    held,
                ],
            ),
            Line::Refused(n) => put_line(out, b'X', &[n.number, n.layer, n.place]),
        };
        Ok(size)
    }
}

#[cfg(test)]
mod tests {
    use super::Line;
    use basin::{Book, Sums};
    use refusals::Refusal;
    use std::test::Fail;

    const MOST: u64 = 18_446_744_073_709_551_615;

    #[test]
    fn writes_the_longest_line(rt: HostRuntime) -> Result<(), Fail> {
        let mut out = [b'.'; 192];
        let sums = Sums {
            opening: MOST,
            rain: MOST,
            streamflow: MOST,
            evaporated: MOST,
            deep: MOST,
            drawn: MOST,
            poured: MOST,
        };
        assert_eq!(rt;
            Line::Closing(Book { sums, held: MOST }).write(&mut out)?,
            170
        );
        assert_eq!(rt; &out[0..23], b"C 18446744073709551615 ".as_slice());
        assert_eq!(rt; &out[148..171], b" 18446744073709551615\n.".as_slice());
        Ok(())
    }

    #[test]
    fn writes_nothing_past_the_newline(rt: HostRuntime) -> Result<(), Fail> {
        let mut out = [b'.'; 192];
        let line = Line::Rain {
            segment: 0,
            runoff: 10_000,
            evaporated: 99,
            deep: 100,
        };
        assert_eq!(rt; line.write(&mut out[0..191]), Err(Refusal::ShortBuffer));
        assert!(rt; out[0] == b'.');
        assert_eq!(rt; line.write(&mut out)?, 17);
        assert_eq!(rt; &out[0..18], b"R 0 10000 99 100\n.".as_slice());
        Ok(())
    }
}
