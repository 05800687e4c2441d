// A basin: a bank, a tapped channel, the water on its way between them, and the book.
#![tactic(auto)]

mod basin;
mod book;
mod parcel;

pub use basin::Basin;
pub use book::{Book, Sums};
pub use parcel::Parcel;
