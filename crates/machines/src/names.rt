// The machine that holds each return to the name of its call.
ghost use Rattle.machines.specs.Names.{AcceptsAgreeing, names, same_state};
ghost use Rattle.std.proofs.Common.{rules};

use nested::machine::Machine;

/// Accepts a word if each return that closes a call has the name of that call.
#[derive(Clone, Copy, Debug, Default, PartialEq, Eq, Hash)]
pub struct Names;

/// Whether every return so far agreed with its call.
#[derive(Clone, Copy, Debug, PartialEq, Eq, Hash)]
pub enum NamesState {
    Ok,
    Broken,
}

impl Names {
    /// The machine that accepts exactly the words in which each return that closes a call has the name of that call.
    #[tactic(auto, using(crate::proofs::NamesWords::accepts_agreeing))]
    pub fn new() -> Names
        ensures { AcceptsAgreeing }
    {
        Names
    }
}

impl Machine for Names {
    type State = NamesState;

    ghost meaning = { λ _. names };

    ghost equal = { λ _ s u. same_state s u };

    ghost equal_only = { Prim.search rules };

    ghost equal_itself = { Prim.search rules };

    fn start(&self) -> NamesState {
        NamesState::Ok
    }

    fn internal(&self, state: NamesState, _name: u8) -> NamesState {
        state
    }

    fn call(&self, state: NamesState, _name: u8) -> NamesState {
        state
    }

    fn ret(&self, state: NamesState, _before: NamesState, opened: u8, name: u8) -> NamesState {
        if opened % 16 == name % 16 {
            state
        } else {
            NamesState::Broken
        }
    }

    fn pending(&self, state: NamesState, _name: u8) -> NamesState {
        state
    }

    fn accepts(&self, state: NamesState) -> bool {
        state == NamesState::Ok
    }

    fn same(&self, left: NamesState, right: NamesState) -> bool {
        left == right
    }
}
