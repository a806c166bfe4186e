// The branches of a trellis in one list, in order of state and letter, each asked for once.
ghost use Rattle.std.specs.Prelude.{◌≡◌, ◌+◌, ◌*◌, ◌<◌, ◌≤◌, ◌++◌, length};
ghost use Rattle.model.specs.Trellises.{StaysIn, most_states, most_letters};
ghost use Rattle.paths.specs.Branches.{listed, branches_from, branches_of, branches_in};

use crate::branch::{BranchList, ListedBranch};
use arrays::list::FixedList;
use model::trellis::Trellis;

// Puts a branch, if there is one, at the end of the list, which has room for it.
fn list_branch(list: &mut BranchList, state: usize, letter: usize, branch: Option<(usize, i16)>)
    requires room { length (branches_in list.old) < 256 }
    requires state { state < most_states }
    requires letter { letter < most_letters }
    requires next { StaysIn most_states branch }
    ensures listed { branches_in list.new ≡ branches_in list.old ++ listed state letter branch }
    ensures few { length (branches_in list.new) ≤ length (branches_in list.old) + 1 }
{
    if let Some((next, label)) = branch {
        let _ = list.push(ListedBranch {
            from: state as u8,
            next: next as u8,
            byte: (state * 4 + letter) as u8,
            label,
        });
    }
}

// Puts the branches of a state at the end of the list.
fn list_state<T: Trellis>(trellis: &T, state: usize, list: &mut BranchList)
    requires state { state < (T.Trellis.meaning trellis.now).states }
    requires few { length (branches_in list.old) ≤ state * 4 }
    ensures listed { branches_in list.new ≡ branches_in list.old ++ branches_from (T.Trellis.meaning trellis.now) state }
    ensures few { length (branches_in list.new) ≤ (state + 1) * 4 }
{
    for letter in 0..trellis.letters() {
        list_branch(list, state, letter, trellis.branch(state, letter));
    }
}

// The list of all branches of a trellis.
pub fn list_branches<T: Trellis>(trellis: &T) -> BranchList
    ensures { branches_in result ≡ branches_of (T.Trellis.meaning trellis.now) }
{
    let mut list = FixedList::new(ListedBranch {
        from: 0,
        next: 0,
        byte: 0,
        label: 0,
    });
    for state in 0..trellis.states() {
        list_state(trellis, state, &mut list);
    }
    list
}
