// Where a path ends, and what it costs.
#[derive(Clone, Copy, Debug)]
pub struct Ending {
    pub last: usize,
    pub cost: u64,
}
