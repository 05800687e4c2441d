// One record of a feed: read it, make the call, write the line.
ghost use Rattle.std.specs.Prelude.{◌≡◌, length};
ghost use Rattle.refusals.specs.Limits.{Answers};
ghost use Rattle.lines.specs.Text.{text, buffer_limits, Printed};
ghost use Rattle.basin.specs.Basins.{view};
ghost use Rattle.posting.specs.Posting.{Posts, Posted, Written};

use banks::Bank;
use basin::Basin;
use feed::Event;
use lines::Line;
use refusals::{Notice, Refusal};
use storages::{Storage, Tapped};

// Makes the call that a record asks for, and answers the line of what came of it.
fn answer<B: Bank, C: Tapped>(basin: &mut Basin<B, C>, bytes: &[u8]) -> Line
    ensures { Posts B.Bank C.Storage C.Tapped.own basin.old bytes.now result basin.new }
{
    match feed::read(bytes) {
        Ok(
            Event::Rain {
                segment,
                depth,
                demand,
            },
        ) => match basin.rain(segment, depth, demand) {
            Ok((runoff, evaporated, deep)) => Line::Rain {
                segment,
                runoff,
                evaporated,
                deep,
            },
            Err(refusal) => Line::Refused(Notice::from(refusal)),
        },
        Ok(Event::Turn) => {
            let (streamflow, deep) = basin.turn();
            Line::Turn { streamflow, deep }
        }
        Ok(Event::Closing) => Line::Closing(basin.closing()),
        Err(unread) => Line::Refused(Notice::from(unread)),
    }
}

// Posts a record: the line of what came of it stands at the front of the buffer, and its length is the answer.
// A buffer of under 192 bytes is refused before anything else is done.
pub fn post<B: Bank, C: Tapped>(
    basin: &mut Basin<B, C>,
    bytes: &[u8],
    out: &mut [u8],
) -> Result<usize, Refusal>
    ensures { Answers (buffer_limits (length out.old)) result (λ n. Written B.Bank C.Storage C.Tapped.own basin.old bytes.now out.old n out.new basin.new) ((basin.new ≡ basin.old) × (out.new ≡ out.old)) }
{
    if out.len() < 192 {
        return Err(Refusal::ShortBuffer);
    }
    let line = answer(basin, bytes);
    let size = line.write(out)?;
    Ok(size)
}
