// The machine that bounds how many calls are open at once.
ghost use Rattle.std.specs.Prelude.{◌≡◌, ◌≤◌, min};
ghost use Rattle.machines.specs.Depth.{AcceptsWithin, depth_automaton, same_state};
ghost use Rattle.std.proofs.Common.{rules};

use nested::machine::Machine;

/// Accepts a word if at most `k` calls are open at any point of it.
#[derive(Clone, Copy, Debug, PartialEq, Eq, Hash)]
pub struct Depth {
    k: u8,
    ghost small: { k ≤ 15 },
}

/// How many calls are open, held at one more than the bound, and the most that were open so far.
#[derive(Clone, Copy, Debug, PartialEq, Eq, Hash)]
pub struct DepthState {
    pub depth: u8,
    pub most: u8,
}

impl Depth {
    /// Depth `k`, for a `k` from 0 to 15; a larger one counts as 15. It accepts exactly the words in which at no point more than `k`
    /// calls are open.
    #[tactic(auto, using(crate::proofs::DepthWords::accepts_within))]
    pub fn new(k: u8) -> Depth
        ensures bound { result.k ≡ min k 15 }
        ensures words { AcceptsWithin result.k }
    {
        Depth { k: k.min(15) }
    }
}

impl Machine for Depth {
    type State = DepthState;

    ghost meaning = { λ d. depth_automaton d.k };

    ghost equal = { λ _ s u. same_state s u };

    ghost equal_only = { Prim.search rules };

    ghost equal_itself = { Prim.search rules };

    fn start(&self) -> DepthState {
        DepthState { depth: 0, most: 0 }
    }

    fn internal(&self, state: DepthState, _name: u8) -> DepthState {
        state
    }

    fn call(&self, state: DepthState, _name: u8) -> DepthState {
        let depth = state.depth.saturating_add(1).min(self.k + 1);
        DepthState {
            depth,
            most: state.most.max(depth),
        }
    }

    fn ret(&self, state: DepthState, before: DepthState, _opened: u8, _name: u8) -> DepthState {
        DepthState {
            depth: before.depth,
            most: state.most,
        }
    }

    fn pending(&self, state: DepthState, _name: u8) -> DepthState {
        state
    }

    fn accepts(&self, state: DepthState) -> bool {
        state.most <= self.k
    }

    fn same(&self, left: DepthState, right: DepthState) -> bool {
        left == right
    }
}
