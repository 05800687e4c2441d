// A segment as a bank shows it.

// The area in acres, the content and the ceiling in microinches.
#[derive(Clone, Copy, PartialEq, Eq, Debug, Default)]
pub struct Tract {
    pub area: u64,
    pub content: u64,
    pub ceiling: u64,
}
