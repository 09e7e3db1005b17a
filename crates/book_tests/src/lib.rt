// Examples of the calls on a book: its limits on both sides, every refusal with its value, and own transitions.
#![tactic(auto)]

#[cfg(test)]
mod tests {
    use book::books::OpenBook;
    use book::own::OwnTransition;
    use families::Transition;
    use std::alloc::{AllocError, Global};
    use std::test::Fail;

    fn transition(source: u8, action: u8, target: u8, required: u16, excluded: u16) -> Transition {
        Transition {
            source,
            action,
            target,
            required,
            excluded,
        }
    }

    fn own(source: u8, action: u8, target: u8) -> OwnTransition {
        OwnTransition {
            source,
            action,
            target,
        }
    }

    // Records of `count` products with the configurations 0, 1, 2 and so on.
    fn push_products(bytes: &mut Vec<u8>, count: u8) -> Result<(), AllocError> {
        for c in 0..count {
            bytes.extend_from_slice(&[b'P', c, 0, 0, 0, 0, 0, 0])?;
        }
        Ok(())
    }

    // Records of 256 transitions that all differ.
    fn push_transitions(bytes: &mut Vec<u8>) -> Result<(), AllocError> {
        for i in 0..=255u8 {
            bytes.extend_from_slice(&[b'T', i / 4, i % 64, i % 4, i, 0, 0, 0])?;
        }
        Ok(())
    }

    #[test]
    fn opening(rt: HostRuntime) -> Result<(), Fail> {
        for (states, answer) in [(0, (1, 0)), (1, (0, 0)), (64, (0, 0)), (65, (1, 0))] {
            let (given, mut book) = OpenBook::open(rt.alloc(), states)?;
            assert_eq!(rt; given, answer);
            // The last state is within, the next is not; a refused opening gives one state.
            let last = if states == 64 { 63 } else { 0 };
            assert_eq!(rt;
                book.add_transition(transition(last, 63, last, 0, 0)),
                (0, 1)
            );
            assert_eq!(rt;
                book.add_transition(transition(last + 1, 63, last, 0, 0)),
                (4, 0)
            );
            assert_eq!(rt;
                book.add_transition(transition(last, 63, last + 1, 0, 0)),
                (4, 0)
            );
            assert_eq!(rt;
                book.add_transition(transition(last, 64, last, 0, 0)),
                (4, 0)
            );
        }
        Ok(())
    }

    #[test]
    fn adding_and_striking(rt: HostRuntime) -> Result<(), Fail> {
        let (_, mut book) = OpenBook::open(rt.alloc(), 4)?;
        let second = transition(1, 1, 2, 1, 0);
        let third = transition(1, 1, 2, 2, 0);
        assert_eq!(rt; book.add_product(1), (0, 0));
        assert_eq!(rt; book.add_product(1), (3, 0));
        assert_eq!(rt; book.add_product(2), (0, 1));
        assert_eq!(rt; book.strike(second), (7, 0));
        assert_eq!(rt; book.add_transition(transition(0, 0, 1, 0, 0)), (0, 1));
        assert_eq!(rt; book.add_transition(second), (0, 2));
        // Another condition makes another transition.
        assert_eq!(rt; book.add_transition(third), (0, 3));
        assert_eq!(rt; book.add_transition(second), (5, 0));
        assert_eq!(rt; book.add_transition(transition(3, 3, 0, 0, 0)), (0, 4));
        assert_eq!(rt; book.strike(second), (0, 3));
        assert_eq!(rt; book.strike(second), (7, 0));
        // The others are there, in their order, and closing and reopening keeps them.
        let book = book.close().reopen().close();
        let list = book.own_transitions(rt.alloc(), 1)?;
        assert!(rt; list.as_slice() == [own(0, 0, 1), own(1, 1, 2), own(3, 3, 0)].as_slice());
        assert_eq!(rt; book.own_transitions(rt.alloc(), 0)?.len(), 2);
        Ok(())
    }

    #[test]
    fn full_book(rt: HostRuntime) -> Result<(), Fail> {
        let mut bytes = Vec::new(rt.alloc());
        push_products(&mut bytes, 200)?;
        push_transitions(&mut bytes)?;
        assert_eq!(rt; bytes.len(), 3648);
        let (_, mut book) = OpenBook::open(rt.alloc(), 64)?;
        assert_eq!(rt; book.load(&bytes), (0, 456));
        assert_eq!(rt; book.add_product(0), (2, 0));
        assert_eq!(rt; book.add_product(200), (2, 0));
        assert_eq!(rt; book.add_transition(transition(0, 0, 0, 0, 0)), (5, 0));
        assert_eq!(rt; book.add_transition(transition(0, 0, 0, 999, 0)), (6, 0));
        assert_eq!(rt; book.load(&[80, 200, 0, 0, 0, 0, 0, 0]), (2, 0));
        assert_eq!(rt; book.load(&[77, 9, 9, 9, 0, 0, 0, 0]), (6, 0));
        assert_eq!(rt; book.load(&[]), (0, 0));
        push_products(&mut bytes, 1)?;
        assert_eq!(rt; book.load(&bytes), (8, 0));
        assert_eq!(rt; book.load(&[80, 1, 0, 0, 0, 0, 0]), (8, 0));
        // The configuration of product 199 has five features, so it meets 32 of the conditions; product 0 meets one.
        let book = book.close();
        assert_eq!(rt; book.products().len(), 200);
        assert_eq!(rt; book.own_transitions(rt.alloc(), 0)?.len(), 1);
        assert_eq!(rt; book.own_transitions(rt.alloc(), 199)?.len(), 32);
        Ok(())
    }

    // As many own transitions as a book can give, each with another source or action.
    #[test]
    fn longest_list(rt: HostRuntime) -> Result<(), Fail> {
        let (_, mut book) = OpenBook::open(rt.alloc(), 64)?;
        let _ = book.add_product(0);
        for i in 0..=255u8 {
            let _ = book.add_transition(transition(i / 4, i % 64, i % 4, 0, 0));
        }
        let list = book.close().own_transitions(rt.alloc(), 0)?;
        assert_eq!(rt; list.len(), 256);
        assert!(rt; list.as_slice()[255] == own(63, 63, 3));
        Ok(())
    }

    // `tools/allocation_failures` runs this with each allocation failing in turn: a call answers the error or what it answers
    // with memory enough, and the calls after it go on as if it had not been made.
    #[test]
    fn want_of_memory(rt: HostRuntime) -> Result<(), Fail> {
        let mut failed = false;
        let (given, mut book) = match OpenBook::open(rt.alloc(), 4) {
            Ok(opened) => opened,
            Err(AllocError) => {
                failed = true;
                OpenBook::open(rt.alloc(), 4)?
            }
        };
        assert_eq!(rt; given, (0, 0));
        assert_eq!(rt; book.load(&[80, 1, 0, 0, 0, 0, 0, 0]), (0, 1));
        for action in 0..5u8 {
            let (number, _) = book.add_transition(transition(0, action, 1, 1, 0));
            assert_eq!(rt; number, 0);
        }
        let book = book.close();
        for _ in 0..2 {
            match book.own_transitions(rt.alloc(), 0) {
                Ok(list) => assert_eq!(rt; list.len(), 5),
                Err(AllocError) => {
                    // One allocation fails at most.
                    assert!(rt; !failed);
                    failed = true;
                }
            }
            assert!(rt; book.owns(0, own(0, 4, 1)));
            assert_eq!(rt; book.products().len(), 1);
        }
        Ok(())
    }

    #[test]
    fn refused_loads(rt: HostRuntime) -> Result<(), Fail> {
        let (_, mut book) = OpenBook::open(rt.alloc(), 4)?;
        assert_eq!(rt;
            book.load(&[80, 2, 1, 0, 0, 0, 0, 0, 84, 1, 1, 2, 2, 0, 0, 0]),
            (0, 2)
        );
        // The second record is bad: it is held, out of range, unknown, or has a byte that must be zero.
        for (number, last) in [
            (3, [80, 2, 1, 0, 0, 0, 0, 0]),
            (5, [84, 1, 1, 2, 2, 0, 0, 0]),
            (4, [84, 4, 0, 0, 0, 0, 0, 0]),
            (4, [77, 0, 64, 0, 0, 0, 0, 0]),
            (9, [81, 0, 0, 0, 0, 0, 0, 0]),
            (9, [80, 7, 0, 1, 0, 0, 0, 0]),
            (9, [80, 7, 0, 0, 0, 0, 0, 1]),
            (9, [77, 0, 0, 0, 1, 0, 0, 0]),
        ] {
            let mut bytes = Vec::new(rt.alloc());
            push_products(&mut bytes, 1)?;
            bytes.extend_from_slice(&last)?;
            assert_eq!(rt; book.load(&bytes), (number, 1));
        }
        // Nothing of the refused loads is left: configuration 0 can still be added, as product 1.
        assert_eq!(rt; book.add_product(0), (0, 1));
        assert_eq!(rt; book.add_product(258), (3, 0));
        assert_eq!(rt; book.strike(transition(1, 1, 2, 2, 0)), (0, 0));
        Ok(())
    }

    #[test]
    fn own_transitions(rt: HostRuntime) -> Result<(), Fail> {
        let (_, mut book) = OpenBook::open(rt.alloc(), 4)?;
        for configuration in [1, 2, 3, 0] {
            let _ = book.add_product(configuration);
        }
        let _ = book.add_transition(transition(1, 1, 2, 1, 0));
        let _ = book.add_transition(transition(1, 1, 2, 2, 0));
        let _ = book.add_transition(transition(2, 2, 3, 3, 0));
        let _ = book.add_transition(transition(3, 3, 0, 0, 1));
        // A feature that is both required and excluded: no product meets that.
        let _ = book.add_transition(transition(0, 0, 1, 1, 1));
        let book = book.close();
        for (product, first, third, fourth) in [
            (0, true, false, false),
            (1, true, false, true),
            (2, true, true, false),
            (3, false, false, true),
            (4, false, false, false),
        ] {
            assert_eq!(rt; book.owns(product, own(1, 1, 2)), first);
            assert_eq!(rt; book.owns(product, own(2, 2, 3)), third);
            assert_eq!(rt; book.owns(product, own(3, 3, 0)), fourth);
            assert_eq!(rt; book.owns(product, own(0, 0, 1)), false);
            assert_eq!(rt; book.owns(product, own(1, 2, 1)), false);
        }
        // Product 2 meets two transitions with equal ends, and has one own transition of them.
        assert_eq!(rt; book.own_transitions(rt.alloc(), 2)?.len(), 2);
        assert_eq!(rt; book.own_transitions(rt.alloc(), 4)?.len(), 0);
        Ok(())
    }
}
