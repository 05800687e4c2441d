// Worked cases: figures known by hand, and a basin in which every call is granted and most refusals of the engine are met.
#![tactic(auto)]

ghost use Rattle.worked.specs.Cases.{WorkedCases};
ghost use Rattle.worked.specs.Runs.{WorkedRuns};

#[cfg(test)]
mod tests;

// The worked cases hold of the definitions. It does nothing: its contract is the statement.
pub fn worked_cases()
    ensures { WorkedCases }
{}

// Runs worked by hand, in which every call is granted and every refusal of a call is met. It does nothing: its contract is the statement.
pub fn worked_runs()
    ensures { WorkedRuns }
{}
