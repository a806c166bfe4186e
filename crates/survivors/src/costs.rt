// Costs as plain numbers, one of which stands for none.
ghost use Rattle.std.specs.Prelude.{◌≡◌};
ghost use Rattle.survivors.specs.Reaches.{as_cost};

// Stands for no cost, above what any path costs: a sum with it is never the cheaper.
// A number and no Option, so that the inner loop has nothing to ask: rows of Option<u64> were measured slower.
pub(crate) const UNREACHED: u64 = 1 << 62;

// The cost that a number stands for.
pub(crate) fn as_cost(number: u64) -> Option<u64>
    ensures { result ≡ as_cost number }
{
    (number < UNREACHED).then_some(number)
}
