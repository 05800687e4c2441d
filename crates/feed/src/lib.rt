// The feed: records of sixteen bytes, each read as an event.
#![tactic(auto)]

ghost use Rattle.std.specs.Prelude.{◌≡◌, ℕ, ◌+◌, ◌≤◌, ◌∷◌, length, position, not, ◌==◌, IfOk};
ghost use Rattle.feed.specs.Reading.{blank, word, rain_of, bare_of, lettered, reading, record_of};

use refusals::Refusal;

// What a record tells: rain on a segment and the hour's demand, a turn of the channel, or a closing of the book.
#[derive(Clone, Copy, PartialEq, Eq, Debug)]
pub enum Event {
    Rain {
        segment: u64,
        depth: u64,
        demand: u64,
    },
    Turn,
    Closing,
}

// The place of a part's first byte that is not zero.
fn first_nonzero(part: &[u8]) -> Option<usize>
    ensures { result ≡ position (λ b. not (b == 0)) part.now }
{
    part.iter().position(|byte| *byte != 0)
}

// Refuses the first byte of a part that is not zero; the part begins at byte `at` of its record.
fn zeros(part: &[u8], at: u64) -> Result<(), Refusal>
    requires { at + length part.now ≤ 16 }
    ensures { result ≡ blank at part.now }
{
    match first_nonzero(part) {
        Some(i) => Err(Refusal::NotZero(at + i as u64)),
        None => Ok(()),
    }
}

// Four bytes, the least first.
fn amount(bytes: [u8; 4]) -> u64
    ensures { result ≡ word 0 bytes }
{
    u64::from(u32::from_le_bytes(bytes))
}

// Rain on a segment: `rest` is the record from byte 2 on, two zeros, the depth (d), the demand (w) and four zeros.
fn rain(segment: u8, rest: &[u8; 14]) -> Result<Event, Refusal>
    ensures { result ≡ rain_of (0 ∷ segment ∷ rest.now) }
{
    let [_, _, d0, d1, d2, d3, w0, w1, w2, w3, ..] = *rest;
    zeros(&rest[..2], 2)?;
    zeros(&rest[10..], 12)?;
    Ok(Event::Rain {
        segment: u64::from(segment),
        depth: amount([d0, d1, d2, d3]),
        demand: amount([w0, w1, w2, w3]),
    })
}

// An event that is its letter alone.
fn bare(event: Event, segment: u8, rest: &[u8; 14]) -> Result<Event, Refusal>
    ensures { result ≡ bare_of event (0 ∷ segment ∷ rest.now) }
{
    if segment != 0 {
        return Err(Refusal::NotZero(1));
    }
    zeros(rest, 2)?;
    Ok(event)
}

// The event that a letter stands for.
fn by_letter(letter: u8, segment: u8, rest: &[u8; 14]) -> Result<Event, Refusal>
    ensures { result ≡ lettered (letter ∷ segment ∷ rest.now) }
{
    match char::from(letter) {
        'R' => rain(segment, rest),
        'T' => bare(Event::Turn, segment, rest),
        'C' => bare(Event::Closing, segment, rest),
        _ => Err(Refusal::UnknownLetter),
    }
}

// A record of sixteen bytes, taken apart.
fn event_of(bytes: &[u8]) -> Result<Event, Refusal>
    requires { length bytes.now ≡ 16 }
    ensures value { result ≡ lettered bytes.now }
    ensures layout { IfOk result (λ e. bytes.now ≡ record_of e) }
{
    let [letter, segment, rest @ ..] = bytes else {
        return Err(Refusal::RecordLength);
    };
    let Some(rest) = rest.as_array() else {
        return Err(Refusal::RecordLength);
    };
    by_letter(*letter, *segment, rest)
}

// The event of a record, or the first rule that it breaks.
pub fn read(bytes: &[u8]) -> Result<Event, Refusal>
    ensures value { result ≡ reading bytes.now }
    ensures layout { IfOk result (λ e. bytes.now ≡ record_of e) }
{
    if bytes.len() != 16 {
        return Err(Refusal::RecordLength);
    }
    event_of(bytes)
}

#[cfg(test)]
mod tests {
    use super::*;

    #[test]
    fn reads_rain(rt: HostRuntime) {
        let bytes = [
            b'R', 255, 0, 0, 0xe8, 3, 0, 0, 255, 255, 255, 255, 0, 0, 0, 0,
        ];
        assert_eq!(rt;
            read(&bytes),
            Ok(Event::Rain {
                segment: 255,
                depth: 1_000,
                demand: 4_294_967_295,
            })
        );
    }

    #[test]
    fn refuses_the_first_wrong_byte(rt: HostRuntime) {
        let mut bytes = [0u8; 17];
        assert_eq!(rt; read(&bytes[0..16]), Err(Refusal::UnknownLetter));
        bytes[0] = b'T';
        assert_eq!(rt; read(&bytes[0..16]), Ok(Event::Turn));
        assert_eq!(rt; read(&bytes), Err(Refusal::RecordLength));
        bytes[15] = 1;
        assert_eq!(rt; read(&bytes[0..16]), Err(Refusal::NotZero(15)));
        bytes[1] = 1;
        assert_eq!(rt; read(&bytes[0..16]), Err(Refusal::NotZero(1)));
    }
}
