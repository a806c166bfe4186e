// Where the first path ends, what it costs, how many cost as little, modulo 2 ^ 64, and the least cost of the others.
#[derive(Clone, Copy, Debug)]
pub struct Standing {
    pub last: usize,
    pub cost: u64,
    pub ties: u64,
    pub second: Option<u64>,
}
