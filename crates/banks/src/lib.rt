// Banks: rows of land segments that rain falls on.
#![tactic(auto)]

mod meaning;
mod pair;
mod plot;
mod tract;

pub use meaning::Bank;
pub use pair::Pair;
pub use plot::Plot;
pub use tract::Tract;
