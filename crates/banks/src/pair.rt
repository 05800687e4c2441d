// A pair: two banks as one, the first's segments first.
ghost use Rattle.std.specs.Prelude.{◌≡◌, ℕ, ◌+◌, ◌<◌, ◌≤◌, List, ◌++◌, length, MatchOption};
ghost use Rattle.std.proofs.Common.{sym, subst, ⊎_elim};
ghost use Rattle.refusals.specs.Limits.{Answers};
ghost use Rattle.storages.specs.Meaning.{Out};
ghost use Rattle.banks.specs.Rows.{Rained, room_limits};

use crate::meaning::Bank;
use crate::tract::Tract;
use refusals::Refusal;

#[derive(Drop)]
pub struct Pair<F: Bank, S: Bank> {
    first: F,
    second: S,
    ghost few: { length (F.Bank.tracts first) + length (S.Bank.tracts second) ≤ 16 },
}

// Where a pair has a segment: in the first bank or the second, by its number there.
#[derive(Clone, Copy)]
enum Place {
    First(u64),
    Second(u64),
}

impl<F: Bank, S: Bank> Pair<F, S> {
    ghost use Rattle.banks.specs.Kinds.{Placed, pair_limits};

    // Two banks as one, if they have at most sixteen segments together. Both keep what they hold.
    pub fn new(first: F, second: S) -> Result<Pair<F, S>, Refusal>
    where
        F: Drop,
        S: Drop,
        ensures { Answers (pair_limits (length (F.Bank.tracts first)) (length (S.Bank.tracts second))) result (λ p. (p.first ≡ first) × (p.second ≡ second)) (Unit {0}) }
    {
        if first.count() + second.count() > 16 {
            return Err(Refusal::TooManySegments);
        }
        Ok(Pair { first, second })
    }

    // Where a segment of the pair is, if it has it.
    fn place(&self, segment: u64) -> Option<Place>
        ensures { Placed (F.Bank.tracts self.now.first) (S.Bank.tracts self.now.second) segment result }
    {
        let count = self.first.count();
        if segment < count {
            return Some(Place::First(segment));
        }
        if segment - count < self.second.count() {
            return Some(Place::Second(segment - count));
        }
        None
    }

    // Rain on segment k of the first bank. A refusal names `segment`.
    fn rain_on_first(
        &mut self,
        k: u64,
        depth: u64,
        demand: u64,
        segment: u64,
    ) -> Result<(u64, u64, u64), Refusal>
        requires { k < length (F.Bank.tracts self.old.first) }
        ensures rains { Answers (room_limits (F.Bank.tracts self.old.first) k depth segment) result (λ o. F.Bank.rains self.old.first k depth demand o self.new.first) (self.new.first ≡ self.old.first) }
        ensures other { self.new.second ≡ self.old.second }
    {
        rain_there(&mut self.first, k, depth, demand, segment)
    }

    // Rain on segment k of the second bank. A refusal names `segment`.
    fn rain_on_second(
        &mut self,
        k: u64,
        depth: u64,
        demand: u64,
        segment: u64,
    ) -> Result<(u64, u64, u64), Refusal>
        requires { k < length (S.Bank.tracts self.old.second) }
        ensures rains { Answers (room_limits (S.Bank.tracts self.old.second) k depth segment) result (λ o. S.Bank.rains self.old.second k depth demand o self.new.second) (self.new.second ≡ self.old.second) }
        ensures other { self.new.first ≡ self.old.first }
    {
        rain_there(&mut self.second, k, depth, demand, segment)
    }
}

impl<F: Bank, S: Bank> Bank for Pair<F, S> {
    ghost use Rattle.banks.specs.Kinds.{PairRains};
    ghost use Rattle.banks.specs.Joined;
    ghost use Rattle.banks.specs.Joined.{rained_left, rained_right};

    ghost tracts = { λ p. F.Bank.tracts p.first ++ S.Bank.tracts p.second };

    ghost rains = { λ p k i d o q. PairRains F.Bank S.Bank p k i d o q };

    // a pair's row is the two rows joined, and its rain is the rain of one of them
    ghost bounded = { λ b. Joined.bounded (F.Bank.tracts b.first) (S.Bank.tracts b.second) (F.Bank.bounded b.first) (S.Bank.bounded b.second) b.few };

    ghost rained = { λ b c k p d o r.
        ⊎_elim
        (λ x. subst (λ u. Rained (F.Bank.tracts b.first ++ S.Bank.tracts b.second) k p d o (F.Bank.tracts c.first ++ S.Bank.tracts u)) (sym x.2) (rained_left _ _ k p d o _ (F.Bank.rained b.first c.first k p d o x.1)))
        (λ x. subst (λ n. Rained (F.Bank.tracts b.first ++ S.Bank.tracts b.second) n p d o (F.Bank.tracts c.first ++ S.Bank.tracts c.second)) (sym x.1) (subst (λ u. Rained (F.Bank.tracts b.first ++ S.Bank.tracts b.second) (length (F.Bank.tracts b.first) + x.0) p d o (F.Bank.tracts u ++ S.Bank.tracts c.second)) (sym x.3) (rained_right _ _ x.0 p d o _ (S.Bank.rained b.second c.second x.0 p d o x.2))))
        r };

    fn count(&self) -> u64 {
        self.first.count() + self.second.count()
    }

    fn tract(&self, segment: u64) -> Tract {
        match self.place(segment) {
            Some(Place::First(k)) => self.first.tract(k),
            Some(Place::Second(k)) => self.second.tract(k),
            None => Tract::default(),
        }
    }

    fn volume(&self) -> u64 {
        self.first.volume() + self.second.volume()
    }

    // A refusal names the pair's own segment.
    fn rain(&mut self, segment: u64, depth: u64, demand: u64) -> Result<(u64, u64, u64), Refusal> {
        match self.place(segment) {
            Some(Place::First(k)) => self.rain_on_first(k, depth, demand, segment),
            Some(Place::Second(k)) => self.rain_on_second(k, depth, demand, segment),
            None => Err(Refusal::NoSuchSegment(segment)),
        }
    }
}

// Rain on a segment that a bank has. A refusal names it by the number that it has above.
fn rain_there<B: Bank>(
    bank: &mut B,
    segment: u64,
    depth: u64,
    demand: u64,
    named: u64,
) -> Result<(u64, u64, u64), Refusal>
    requires { segment < length (B.Bank.tracts bank.old) }
    ensures count { length (B.Bank.tracts bank.new) ≡ length (B.Bank.tracts bank.old) }
    ensures rains { Answers (room_limits (B.Bank.tracts bank.old) segment depth named) result (λ o. B.Bank.rains bank.old segment depth demand o bank.new) (bank.new ≡ bank.old) }
{
    bank.rain(segment, depth, demand)
        .map_err(|_| Refusal::StorageFull(named))
}
