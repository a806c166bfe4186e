// How the paths to a state compare.
// What the cheapest cost, how many cost that, modulo 2 ^ 64, and the least cost of the others.
#[derive(Clone, Copy)]
pub struct Rank {
    pub(crate) cost: u64,
    pub(crate) count: u64,
    pub(crate) second: u64,
    // Nothing: it makes 32 bytes of a rank, so that its place in a row is found by a shift.
    pub(crate) spare: u64,
}
