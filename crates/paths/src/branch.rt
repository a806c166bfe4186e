// A branch as an entry of a list, and the list of all branches of a trellis.
use arrays::list::FixedList;

// The state before it, the next state, both its letter and the state before it as state x 4 + letter, and its label.
#[derive(Clone, Copy)]
pub struct ListedBranch {
    pub from: u8,
    pub next: u8,
    pub byte: u8,
    pub label: i16,
}

// 64 states with 4 letters each have at most 256 branches.
pub type BranchList = FixedList<ListedBranch, 256>;
