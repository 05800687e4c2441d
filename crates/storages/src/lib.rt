// Storages: what holds water, from a pond to a channel.
#![tactic(auto)]

mod chain;
pub mod hour;
mod leak;
mod meaning;
mod recession;
mod slope;

pub use chain::Chain;
pub use leak::Leak;
pub use meaning::{Storage, Tapped};
pub use recession::Recession;
pub use slope::Slope;
