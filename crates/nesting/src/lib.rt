// Kinds nest: what is made of tapped storages is a tapped storage, here a river.
#![tactic(auto)]

mod pumped;
mod river;
#[cfg(test)]
mod tests;

pub use pumped::hour_and_draw;
pub use river::{River, new_river, pump};
