// The ranges that parameters have to lie in.
ghost use Rattle.std.specs.Prelude.{◌≡◌, ◌≤◌};
ghost use Rattle.trellises.specs.Checks.{between, all_between, largest};

// Whether low ≤ value ≤ high. Tried within the chain below, where `contains` leaves a goal that does not close.
fn is_between(low: i32, high: i32, value: i32) -> bool
    ensures { result ≡ between low high value }
{
    (low..=high).contains(&value)
}

// Whether each value is between low and high.
pub(crate) fn all_between(low: i32, high: i32, values: &[i32]) -> bool
    ensures { result ≡ all_between low high values.now }
{
    values.iter().all(|value| is_between(low, high, *value))
}

// The largest number of so many binary digits.
pub(crate) fn largest_of(bits: usize) -> i32
    requires { bits ≤ 7 }
    ensures { result ≡ largest bits }
{
    (1 << bits) - 1
}
