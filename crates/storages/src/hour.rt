// One hour of any storage, with what its meaning says of it.
ghost use Rattle.std.specs.Prelude.{◌≡◌, ◌≤◌};
ghost use Rattle.refusals.specs.Limits.{Answers};
ghost use Rattle.storages.specs.Meaning.{Stepped, step_limits, top};

use crate::meaning::Storage;
use refusals::Refusal;

// Steps a storage. What is granted is a step of this storage, and keeps the meaning of a step.
pub fn hour<A: Storage>(
    storage: &mut A,
    inflow: u64,
    demand: u64,
) -> Result<(u64, u64, u64), Refusal>
    ensures bounded { A.Storage.limit storage.old ≤ top }
    ensures answers { Answers (step_limits (A.Storage.holds storage.old) (A.Storage.limit storage.old) inflow) result (λ o. A.Storage.steps storage.old inflow demand o storage.new × Stepped (A.Storage.holds storage.old) (A.Storage.limit storage.old) inflow demand o (A.Storage.holds storage.new) (A.Storage.limit storage.new)) (storage.new ≡ storage.old) }
{
    storage.step(inflow, demand)
}
