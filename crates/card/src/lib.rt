// The parameter card: fourteen records of a name and a figure, checked.
#![tactic(auto)]

ghost use Rattle.std.specs.Prelude.{◌≡◌, ℕ, ◌<◌, All, IsSome, IfOk, slice_index, slice_index_or};
ghost use Rattle.std.specs.Result.{result_err};
ghost use Rattle.card.specs.Cards.{Figures, records_fault, fault_of};

use crate::checked::making::card_of;
use crate::entries::Record;
use refusals::Refusal;

mod checked;
mod entries;
mod fields;
mod figures;
mod words;

pub use checked::Card;

// The figures of fourteen words that each have one.
fn values(figures: [Option<u64>; 14]) -> [u64; 14]
    requires { All IsSome figures }
    ensures { (k : ℕ) → k < 14 → slice_index_or figures k None ≡ Some (slice_index result k) }
{
    figures.map(Option::unwrap)
}

// Reads the fourteen records of a card.
fn read(card: &[u8; 280]) -> Result<Card, Refusal>
    ensures refusal { result_err result ≡ records_fault card.now }
    ensures figures { IfOk result (λ c. Figures card.now c) }
{
    let (records, _) = card.as_chunks::<20>();
    let mut figures = [None; 14];
    for (i, bytes) in records.iter().enumerate() {
        let at = 20 * i as u64;
        let (k, v) = Record { at, bytes }.read(&figures)?;
        figures[k] = Some(v);
    }
    Ok(card_of(&values(figures)))
}

// Checks a card: its figures, or the first rule that it breaks.
pub fn check(bytes: &[u8]) -> Result<Card, Refusal>
    ensures refusal { result_err result ≡ fault_of bytes.now }
    ensures figures { IfOk result (λ c. Figures bytes.now c) }
{
    let Some(card) = bytes.as_array() else {
        return Err(Refusal::CardLength);
    };
    read(card)
}

#[cfg(test)]
mod tests {
    use super::check;
    use refusals::Refusal;
    use std::test::Fail;

    const CARD: [u8; 280] =
        *b"CHK          1048576GWK                1IFWK               1OVK           100000AGWETP             0DEEPFR        524288LZETP         104858INTFW            100INFILT          1000LZSN        15000000UZSN           50000CEPSC              0IMPV         1048576AREA    000000005000";

    // What the card is refused with once the byte at an offset is another.
    fn refusal(at: usize, byte: u8) -> Option<Refusal> {
        let mut card = CARD;
        if at < card.len() {
            card[at] = byte;
        }
        check(&card).err()
    }

    #[test]
    fn takes_a_good_card(rt: HostRuntime) -> Result<(), Fail> {
        let card = check(&CARD)?;
        assert_eq!(rt; card.area(), 5_000);
        assert_eq!(rt; card.lower_nominal(), 15_000_000);
        assert_eq!(rt; card.deep_fraction(), 524_288);
        Ok(())
    }

    #[test]
    fn refuses_the_first_fault(rt: HostRuntime) {
        assert_eq!(rt; check(&CARD[0..279]).err(), Some(Refusal::CardLength));
        assert_eq!(rt; refusal(0, b'c'), Some(Refusal::UnknownName(0)));
        assert_eq!(rt; refusal(200, b'L'), Some(Refusal::RepeatedName(200)));
        assert_eq!(rt; refusal(39, b' '), Some(Refusal::NotANumber(28)));
        assert_eq!(rt; refusal(39, b'0'), Some(Refusal::OutOfRange(28)));
        assert_eq!(rt; refusal(268, b'1'), Some(Refusal::OutOfRange(268)));
    }
}
