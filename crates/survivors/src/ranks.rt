// One step of the survivor pass: from the ranks of the states to those one sample later, with a byte for each state.
ghost use Rattle.std.specs.Prelude.{◌≡◌, ℕ, ◌+◌, ◌^◌, ◌<◌, ◌≤◌, ◌++◌, length, nat_lt, take, drop, replicate, if◌then◌else◌, slice_index_or, slice_set};
ghost use Rattle.std.specs.List.{AllByRecursion};
ghost use Rattle.model.specs.Trellises.{most_states};
ghost use Rattle.paths.specs.Branches.{Within};
ghost use Rattle.survivors.specs.Rows.{Zeros};
ghost use Rattle.survivors.specs.Ranks.{nowhere, joined_rank, Sound, past, Sounds, Advanced, ClearPast};

use crate::costs::UNREACHED;
use crate::layout::MOST_STATES;
use crate::rank::Rank;
use model::measure::Measure;
use paths::branch::ListedBranch;

// No path.
pub(crate) const NOWHERE: Rank = Rank {
    cost: UNREACHED,
    count: 0,
    second: UNREACHED,
    spare: 0,
};

// Makes one rank of two, the second of them after a branch of this cost, and answers whether that one is the cheaper. A
// second is never below the cost beside it, so one comparison finds the new one.
pub(crate) fn join(held: &mut Rank, from: Rank, cost: u32) -> bool
    requires held { Sound (2 ^ 62) held.old }
    requires from { Sound (2 ^ 61) from }
    ensures rank { held.new ≡ joined_rank held.old from cost }
    ensures cheaper { result ≡ nat_lt (from.cost + cost) held.old.cost }
{
    let first = from.cost + u64::from(cost);
    if first < held.cost {
        let second = from.second + u64::from(cost);
        held.second = second.min(held.cost);
        held.cost = first;
        held.count = from.count;
        return true;
    }
    if first == held.cost {
        held.count = held.count.wrapping_add(from.count);
    }
    held.second = held.second.min(first);
    false
}

// Joins to the rank of a state what a branch into it brings from a rank, and puts its byte down where that is cheaper.
fn put(
    row: &mut [Rank; MOST_STATES],
    bytes: &mut [u8],
    branch: &ListedBranch,
    from: Rank,
    cost: u32,
)
    requires row { branch.now.next < length row.old }
    requires bytes { branch.now.next < length bytes.old }
    requires held { Sound (2 ^ 62) (slice_index_or row.old branch.now.next past) }
    requires from { Sound (2 ^ 61) from }
    ensures row { row.new ≡ slice_set row.old branch.now.next (joined_rank (slice_index_or row.old branch.now.next past) from cost) }
    ensures bytes { bytes.new ≡ (if nat_lt (from.cost + cost) (slice_index_or row.old branch.now.next past).cost then slice_set bytes.old branch.now.next branch.now.byte else bytes.old) }
{
    let next = branch.next as usize;
    if join(&mut row[next], from, cost) {
        bytes[next] = branch.byte;
    }
}

// What the branches bring from the states that were reached, with the byte of the cheapest branch; among equals the
// first stays.
// The bound on the costs of a row grows with each sample: so it is asked for, and a row is no type with an invariant.
fn extend<M: Measure>(
    branches: &[ListedBranch],
    measure: &M,
    sample: i16,
    from: &[Rank; MOST_STATES],
    row: &mut [Rank; MOST_STATES],
    bytes: &mut [u8],
)
    requires within { AllByRecursion (Within most_states most_states) branches.now }
    requires bytes { most_states ≤ length bytes.old }
    requires sounds { Sounds (2 ^ 61) from.now }
    requires clear { row.old ≡ replicate most_states nowhere }
    requires zeros { Zeros bytes.old }
    ensures advanced { Advanced (M.Measure.costs measure.now) sample from.now branches.now row.new bytes.new }
    ensures past { (n : ℕ) → AllByRecursion (Within most_states n) branches.now → drop n row.new ≡ drop n row.old }
{
    for branch in branches {
        let cost = measure.cost(branch.label, sample);
        put(row, bytes, branch, from[branch.from as usize], cost);
    }
}

// Copies the first n ranks of a row.
fn copy_ranks(row: &mut [Rank; MOST_STATES], from: &[Rank; MOST_STATES], n: usize)
    requires { n ≤ most_states }
    ensures { row.new ≡ take n from.now ++ drop n row.old }
{
    row[..n].copy_from_slice(&from[..n]);
}

// One sample further: the ranks and the bytes of all states. Past the first n, where no branch leads, there is never a path;
// so only these are cleared and copied back, by copies, which were measured the fastest for both.
pub(crate) fn advance_ranks<M: Measure>(
    branches: &[ListedBranch],
    measure: &M,
    sample: i16,
    n: usize,
    clear: &[Rank; MOST_STATES],
    row: &mut [Rank; MOST_STATES],
    next: &mut [Rank; MOST_STATES],
    bytes: &mut [u8],
)
    requires few { n ≤ most_states }
    requires within { AllByRecursion (Within most_states n) branches.now }
    requires bytes { most_states ≤ length bytes.old }
    requires sounds { Sounds (2 ^ 61) row.old }
    requires clear { clear.now ≡ replicate most_states nowhere }
    requires row { ClearPast n row.old }
    requires next { ClearPast n next.old }
    requires zeros { Zeros bytes.old }
    ensures advanced { Advanced (M.Measure.costs measure.now) sample row.old branches.now row.new bytes.new }
    ensures row { ClearPast n row.new }
    ensures next { ClearPast n next.new }
{
    copy_ranks(next, clear, n);
    extend(branches, measure, sample, row, next, bytes);
    copy_ranks(row, next, n);
}
