// A segment: the land of one checked card over three storages, as a storage.
ghost use Rattle.std.specs.Prelude.{◌≡◌, ◌+◌, ◌≤◌};
ghost use Rattle.refusals.specs.Limits.{Answers};
ghost use Rattle.storages.specs.Meaning.{Out, gone};
ghost use Rattle.land.specs.Laws.{HourLaws};
ghost use Rattle.land.specs.Hour.{still, least_of};
ghost use Rattle.std.proofs.Common.{rules};

use crate::flows::flows;
use crate::water::Zones;
use card::Card;
use refusals::Refusal;
use storages::Storage;
use storages::hour::hour;

// Interception, upper zone and lower zone, with any three storages for overland flow, interflow and groundwater.
#[derive(Drop)]
pub struct Segment<S: Storage, I: Storage, G: Storage> {
    card: Card,
    zones: Zones,
    slope: S,
    interflow: I,
    groundwater: G,
    ghost room: { still zones + S.Storage.holds slope + I.Storage.holds interflow + G.Storage.holds groundwater ≤ least_of (S.Storage.limit slope) (I.Storage.limit interflow) (G.Storage.limit groundwater) },
}

impl<S: Storage, I: Storage, G: Storage> Segment<S, I, G> {
    ghost use Rattle.land.specs.Segments.{Bare, segment_limits};

    // Bare land over three storages, which keep what they hold; a refusal gives them up. The laws of the hour hold of every card.
    pub fn new(
        card: Card,
        slope: S,
        interflow: I,
        groundwater: G,
    ) -> Result<Segment<S, I, G>, Refusal>
    where
        S: Drop,
        I: Drop,
        G: Drop,
        ensures made { Answers (segment_limits (S.Storage.holds slope + I.Storage.holds interflow + G.Storage.holds groundwater) (least_of (S.Storage.limit slope) (I.Storage.limit interflow) (G.Storage.limit groundwater))) result (λ s. Bare S.Storage I.Storage G.Storage card slope interflow groundwater s) (Unit {0}) }
        ensures laws { HourLaws }
    {
        Segment::dry_land(card, slope, interflow, groundwater)
    }

    // Bare land, if the contents of its storages fit its ceiling.
    fn dry_land(
        card: Card,
        slope: S,
        interflow: I,
        groundwater: G,
    ) -> Result<Segment<S, I, G>, Refusal>
    where
        S: Drop,
        I: Drop,
        G: Drop,
        ensures { Answers (segment_limits (S.Storage.holds slope + I.Storage.holds interflow + G.Storage.holds groundwater) (least_of (S.Storage.limit slope) (I.Storage.limit interflow) (G.Storage.limit groundwater))) result (λ s. Bare S.Storage I.Storage G.Storage card slope interflow groundwater s) (Unit {0}) }
    {
        let ceiling = least_of(slope.ceiling(), interflow.ceiling(), groundwater.ceiling());
        if slope.content() + interflow.content() + groundwater.content() > ceiling {
            return Err(Refusal::JoinedContents);
        }
        Ok(Segment {
            card,
            zones: Zones::default(),
            slope,
            interflow,
            groundwater,
        })
    }
}

// The ceiling over three storages: the least of theirs and 10^8.
fn least_of(slope: u64, interflow: u64, groundwater: u64) -> u64
    ensures { result ≡ least_of slope interflow groundwater }
{
    slope.min(interflow).min(groundwater).min(100_000_000)
}

impl<S: Storage, I: Storage, G: Storage> Storage for Segment<S, I, G> {
    ghost use Rattle.land.specs.Segments.{Hours, six, least};

    ghost holds = { λ s. six S.Storage I.Storage G.Storage s };

    ghost limit = { λ s. least S.Storage I.Storage G.Storage s };

    ghost steps = { λ s i d o t. Hours S.Storage I.Storage G.Storage s i d o t };

    ghost within = { Prim.search rules };

    ghost bounded = { Prim.search rules };

    ghost stepped = { Prim.search rules };

    fn content(&self) -> u64 {
        self.zones.interception
            + self.zones.upper
            + self.zones.lower
            + self.slope.content()
            + self.interflow.content()
            + self.groundwater.content()
    }

    fn ceiling(&self) -> u64 {
        least_of(
            self.slope.ceiling(),
            self.interflow.ceiling(),
            self.groundwater.ceiling(),
        )
    }

    fn step(&mut self, inflow: u64, demand: u64) -> Result<(u64, u64, u64), Refusal> {
        if inflow > self.ceiling() - self.content() {
            return Err(Refusal::StorageFull(0));
        }
        let flows = flows(&self.card, self.zones, inflow, demand.min(100_000_000));
        let slope = hour(&mut self.slope, flows.slope, 0)?;
        let interflow = hour(&mut self.interflow, flows.interflow, 0)?;
        let groundwater = hour(&mut self.groundwater, flows.groundwater, flows.demand)?;
        self.zones = flows.zones;
        let release = flows.runoff + slope.0 + interflow.0 + groundwater.0;
        let evaporated = flows.evaporated + slope.1 + interflow.1 + groundwater.1;
        let deep = slope.2 + interflow.2 + groundwater.2;
        Ok((release, evaporated, deep))
    }
}
