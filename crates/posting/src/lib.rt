// Posting: from the bytes of a card and a feed to calls on a basin, and from their answers to lines.
#![tactic(auto)]

mod opening;
mod page;
mod record;

pub use opening::{CardBasin, Land, open};
pub use page::post_block;
pub use record::post;
