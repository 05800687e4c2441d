// The land: what an hour does with rain and demand on one segment.
#![tactic(auto)]

mod division;
mod evaporation;
mod flows;
mod seepage;
mod segment;
mod surface;
#[cfg(test)]
mod tests;
mod water;

pub use segment::Segment;
