// Delay: a storage that hands an inflow on over the hours to come.
#![tactic(auto)]

mod delay;
mod hours;

pub use delay::Delay;
