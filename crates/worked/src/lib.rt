// Worked cases. The tests try what no contract says: that the definitions give the results people worked out by hand.
#![tactic(auto)]

#[cfg(test)]
mod tests {
    use machines::depth::Depth;
    use machines::names::Names;
    use nested::follower::Follower;
    use nested::machine::Machine;
    use nested::refusal::Refusal;
    use nested::row::mark_row;
    use nested::standing::{Standing, Stop};
    use nested::word::follow_word;
    use std::test::Fail;

    fn stands(accepts: bool, open: usize) -> Result<Standing, Stop> {
        Ok(Standing { accepts, open })
    }

    fn stops(letter: usize, refusal: Refusal) -> Result<Standing, Stop> {
        Err(Stop { letter, refusal })
    }

    // The name of the latest call. It has no `==`: a machine's states need none.
    #[derive(Clone, Copy)]
    struct Latest {
        name: u8,
    }

    // Accepts where the latest call, if there is one, has name 0.
    struct LatestIsZero;

    impl Machine for LatestIsZero {
        ghost use Rattle.std.specs.Prelude.{◌==◌};
        ghost use Rattle.std.proofs.Common.{rules, arith};

        type State = Latest;

        ghost meaning = { λ _. record { start = record { name = 0 }; internal = λ s a. s; call = λ s a. record { name = a }; ret = λ s before a b. s; pending = λ s b. s; accepts = λ s. s.name == 0 } };

        ghost equal = { λ _ s u. s.name == u.name };

        ghost equal_only = { first_of (Prim.search rules, Prim.grind (arith, Self.row.coded.inj)) };

        ghost equal_itself = { first_of (Prim.search rules, Prim.grind (arith, Self.row.coded.inj)) };

        fn start(&self) -> Latest {
            Latest { name: 0 }
        }

        fn internal(&self, state: Latest, _name: u8) -> Latest {
            state
        }

        fn call(&self, _state: Latest, name: u8) -> Latest {
            Latest { name: name % 16 }
        }

        fn ret(&self, state: Latest, _before: Latest, _opened: u8, _name: u8) -> Latest {
            state
        }

        fn pending(&self, state: Latest, _name: u8) -> Latest {
            state
        }

        fn accepts(&self, state: Latest) -> bool {
            state.name == 0
        }

        fn same(&self, left: Latest, right: Latest) -> bool {
            left.name == right.name
        }
    }

    #[test]
    fn states_need_no_equality_of_their_own(rt: HostRuntime) -> Result<(), Fail> {
        let mut marks = mark_row(&LatestIsZero, 4, rt.alloc())?;
        assert_eq!(rt;
            follow_word(&LatestIsZero, &[1, 0], &mut marks),
            stands(true, 2)
        );
        assert_eq!(rt;
            follow_word(&LatestIsZero, &[0, 1, 17], &mut marks),
            stands(false, 1)
        );
        assert!(rt; LatestIsZero.same(Latest { name: 3 }, Latest { name: 3 }));
        assert!(rt; !LatestIsZero.same(Latest { name: 3 }, Latest { name: 4 }));
        Ok(())
    }

    #[test]
    fn names_agree(rt: HostRuntime) -> Result<(), Fail> {
        let mut marks = mark_row(&Names, 4, rt.alloc())?;
        assert_eq!(rt; follow_word(&Names, &[0, 17], &mut marks), stands(false, 0));
        assert_eq!(rt; follow_word(&Names, &[17], &mut marks), stands(true, 0));
        assert_eq!(rt; follow_word(&Names, &[0], &mut marks), stands(true, 1));
        Ok(())
    }

    #[test]
    fn depth_is_bounded(rt: HostRuntime) -> Result<(), Fail> {
        let mut marks = mark_row(&Depth::new(1), 32, rt.alloc())?;
        assert_eq!(rt;
            follow_word(&Depth::new(1), &[0, 0, 16, 16], &mut marks),
            stands(false, 0)
        );
        assert_eq!(rt;
            follow_word(&Depth::new(2), &[0, 0, 16, 16], &mut marks),
            stands(true, 0)
        );
        assert_eq!(rt;
            follow_word(&Depth::new(200), &[0; 15], &mut marks),
            stands(true, 15)
        );
        assert_eq!(rt;
            follow_word(&Depth::new(200), &[0; 16], &mut marks),
            stands(false, 16)
        );
        Ok(())
    }

    #[test]
    fn marks_run_out(rt: HostRuntime) -> Result<(), Fail> {
        let mut none = mark_row(&Names, 0, rt.alloc())?;
        assert_eq!(rt; follow_word(&Names, &[32, 16], &mut none), stands(true, 0));
        assert_eq!(rt;
            follow_word(&Names, &[32, 0], &mut none),
            stops(1, Refusal::MarksFull)
        );
        let mut one = mark_row(&Names, 1, rt.alloc())?;
        assert_eq!(rt;
            follow_word(&Names, &[0, 16, 1, 17], &mut one),
            stands(true, 0)
        );
        assert_eq!(rt;
            follow_word(&Names, &[0, 0], &mut one),
            stops(1, Refusal::MarksFull)
        );
        assert_eq!(rt;
            follow_word(&Names, &[0, 48], &mut one),
            stops(1, Refusal::NotALetter)
        );
        Ok(())
    }

    #[test]
    fn at_most_4096_places_count(rt: HostRuntime) -> Result<(), Fail> {
        let mut marks = mark_row(&Names, 4096, rt.alloc())?;
        assert_eq!(rt;
            follow_word(&Names, &[0; 4096], &mut marks),
            stands(true, 4096)
        );
        assert_eq!(rt;
            follow_word(&Names, &[0; 4097], &mut marks),
            stops(4096, Refusal::MarksFull)
        );
        let mut more = mark_row(&Names, 5000, rt.alloc())?;
        assert_eq!(rt;
            follow_word(&Names, &[0; 4096], &mut more),
            stands(true, 4096)
        );
        assert_eq!(rt;
            follow_word(&Names, &[0; 4097], &mut more),
            stops(4096, Refusal::MarksFull)
        );
        Ok(())
    }

    #[test]
    fn another_row_is_refused(rt: HostRuntime) -> Result<(), Fail> {
        let mut marks = mark_row(&Names, 2, rt.alloc())?;
        let mut shorter = mark_row(&Names, 1, rt.alloc())?;
        let mut follower = Follower::begin(&Names, &marks);
        assert_eq!(rt; follower.follow(0, &mut marks), Ok(()));
        assert_eq!(rt; follower.follow(200, &mut shorter), Err(Refusal::RowLength));
        assert_eq!(rt; follower.follow(200, &mut marks), Err(Refusal::NotALetter));
        assert_eq!(rt; follower.follow(17, &mut marks), Ok(()));
        assert_eq!(rt;
            follower.standing(),
            Standing {
                accepts: false,
                open: 0,
            }
        );
        Ok(())
    }
}
