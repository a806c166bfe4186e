// The weights, each with what holds of all of them.
ghost use Rattle.std.specs.Prelude.{◌≡◌, ◌^◌, ◌<◌, ◌≤◌};
ghost use Rattle.algebras.specs.Numbers.{inf};

// How many paths, modulo 2 ^ 64.
#[derive(Clone, Copy, Debug, PartialEq, Eq)]
pub struct Count {
    pub(crate) value: u64,
    ghost fits: { value < 2 ^ 64 },
}

// What the cheapest path costs.
#[derive(Clone, Copy, Debug, PartialEq, Eq)]
pub struct Cost {
    pub(crate) value: u64,
    ghost fits: { value ≤ inf },
}

// What the cheapest path costs, and how many cost that; a wrapped count of 0 is possible below INF.
#[derive(Clone, Copy, Debug, PartialEq, Eq)]
pub struct CostCount {
    pub(crate) cost: u64,
    pub(crate) count: u64,
    ghost small: { cost ≤ inf },
    ghost fits: { count < 2 ^ 64 },
    ghost none: { cost ≡ inf → count ≡ 0 },
}

// What the two cheapest paths cost.
#[derive(Clone, Copy, Debug, PartialEq, Eq)]
pub struct TwoCosts {
    pub(crate) first: u64,
    pub(crate) second: u64,
    ghost fits: { second ≤ inf },
    ghost sorted: { first ≤ second },
}
