// Checks of small families, whose answers are known.
#![tactic(auto)]

#[cfg(test)]
mod tests {
    use checker::FamilyView;
    use families::Transition;
    use formulas::judge::judge;
    use formulas::{Expr, Node};
    use product_sets::{Kind, Mask, Range, Single};
    use std::process::Abort;

    // Actions are fill, rennet, test, cut; features are auto, hand.
    const TRANSITIONS: [Transition; 6] = [
        Transition {
            source: 0,
            action: 0,
            target: 1,
            required: 0,
            excluded: 0,
        },
        Transition {
            source: 1,
            action: 1,
            target: 2,
            required: 1,
            excluded: 0,
        },
        Transition {
            source: 1,
            action: 1,
            target: 2,
            required: 2,
            excluded: 0,
        },
        Transition {
            source: 2,
            action: 2,
            target: 3,
            required: 1,
            excluded: 0,
        },
        Transition {
            source: 2,
            action: 3,
            target: 0,
            required: 2,
            excluded: 0,
        },
        Transition {
            source: 3,
            action: 3,
            target: 0,
            required: 0,
            excluded: 0,
        },
    ];

    const PRODUCTS: [u16; 4] = [1, 2, 3, 0];

    // True, and hand.
    const EXPRS: [Expr; 2] = [Expr::True, Expr::Feature(1)];

    const HAND_FILLS: [Node; 2] = [
        Node::True,
        Node::Diamond {
            action: 0,
            expr: 1,
            part: 0,
        },
    ];

    const NO_HAND_FILL: [Node; 2] = [
        Node::False,
        Node::Box {
            action: 0,
            expr: 1,
            part: 0,
        },
    ];

    const REACHES_CUT: [Node; 12] = [
        Node::True,
        Node::Diamond {
            action: 3,
            expr: 0,
            part: 0,
        },
        Node::Variable(23),
        Node::Diamond {
            action: 0,
            expr: 0,
            part: 2,
        },
        Node::Or(1, 3),
        Node::Variable(23),
        Node::Diamond {
            action: 1,
            expr: 0,
            part: 5,
        },
        Node::Or(4, 6),
        Node::Variable(23),
        Node::Diamond {
            action: 2,
            expr: 0,
            part: 8,
        },
        Node::Or(7, 9),
        Node::Least(23, 10),
    ];

    const NO_EARLY_CUT: [Node; 16] = [
        Node::Variable(23),
        Node::Box {
            action: 0,
            expr: 0,
            part: 0,
        },
        Node::Variable(23),
        Node::Box {
            action: 1,
            expr: 0,
            part: 2,
        },
        Node::And(1, 3),
        Node::Variable(23),
        Node::Box {
            action: 2,
            expr: 0,
            part: 5,
        },
        Node::And(4, 6),
        Node::Variable(23),
        Node::Box {
            action: 3,
            expr: 0,
            part: 8,
        },
        Node::And(7, 9),
        Node::False,
        Node::Box {
            action: 3,
            expr: 0,
            part: 11,
        },
        Node::Box {
            action: 1,
            expr: 0,
            part: 12,
        },
        Node::And(10, 13),
        Node::Greatest(23, 14),
    ];

    const CUTS_AGAIN: [Node; 13] = [
        Node::Variable(24),
        Node::Box {
            action: 0,
            expr: 0,
            part: 0,
        },
        Node::Variable(24),
        Node::Box {
            action: 1,
            expr: 0,
            part: 2,
        },
        Node::And(1, 3),
        Node::Variable(24),
        Node::Box {
            action: 2,
            expr: 0,
            part: 5,
        },
        Node::And(4, 6),
        Node::Variable(23),
        Node::Box {
            action: 3,
            expr: 0,
            part: 8,
        },
        Node::And(7, 9),
        Node::Least(24, 10),
        Node::Greatest(23, 11),
    ];

    const NOT_NOTHING: [Node; 5] = [
        Node::Variable(23),
        Node::Not(0),
        Node::Not(1),
        Node::Least(23, 2),
        Node::Not(3),
    ];

    const NOT_FALSE: [Node; 2] = [Node::False, Node::Not(0)];

    // Checks in cells that are full of other places before, and compares the digits of the last entry in state 0.
    fn gives<K: Kind>(
        rt: &impl Abort,
        family: &FamilyView<'_>,
        nodes: &[Node],
        digits: &[bool],
        value: usize,
        kind: &mut K,
    ) {
        let none = kind.none();
        let full = kind.rest(none);
        let mut cells = [full; 64];
        let answer = family.check(&EXPRS, nodes, kind, &mut cells);
        assert_eq!(rt; answer, (0, value));
        assert!(rt; nodes.len() > 0 && nodes.len() <= 16 && family.states == 4);
        let set = cells[(nodes.len() - 1) * 4];
        for (p, digit) in digits.iter().enumerate() {
            assert!(rt; kind.has(set, p) == *digit);
        }
    }

    fn four_products<K: Kind>(rt: &impl Abort, kind: &mut K) {
        let family = FamilyView {
            states: 4,
            products: &PRODUCTS,
            transitions: &TRANSITIONS,
        };
        gives(
            rt,
            &family,
            &HAND_FILLS,
            &[false, true, true, false, false],
            2,
            kind,
        );
        gives(
            rt,
            &family,
            &NO_HAND_FILL,
            &[true, false, false, true, false],
            2,
            kind,
        );
        gives(
            rt,
            &family,
            &REACHES_CUT,
            &[true, true, true, false, false],
            3,
            kind,
        );
        gives(
            rt,
            &family,
            &NO_EARLY_CUT,
            &[true, false, false, true, false],
            2,
            kind,
        );
        gives(
            rt,
            &family,
            &CUTS_AGAIN,
            &[true, true, true, true, false],
            4,
            kind,
        );
        gives(
            rt,
            &family,
            &NOT_NOTHING,
            &[true, true, true, true, false],
            4,
            kind,
        );
    }

    // The answer to a formula that always holds, over a family of so many products in three states.
    fn always<K: Kind>(products: &[u16], kind: &mut K, cells: &mut [K::Set]) -> (u8, usize) {
        if products.len() > 200 {
            return (0, 0);
        }
        let family = FamilyView {
            states: 3,
            products,
            transitions: &[],
        };
        family.check(&EXPRS, &NOT_FALSE, kind, cells)
    }

    // The same in so many cells, six at most.
    fn in_cells<K: Kind>(count: usize, products: &[u16], kind: &mut K) -> (u8, usize) {
        let mut cells = [kind.none(); 6];
        always(products, kind, &mut cells[..count.min(6)])
    }

    #[test]
    fn rules_by_mask(rt: HostRuntime) {
        four_products(&rt, &mut Mask);
    }

    #[test]
    fn rules_by_range(rt: HostRuntime) {
        four_products(&rt, &mut Range);
    }

    #[test]
    fn rules_by_single(rt: HostRuntime) {
        let family = FamilyView {
            states: 4,
            products: &[2],
            transitions: &TRANSITIONS,
        };
        gives(&rt, &family, &HAND_FILLS, &[true, false], 1, &mut Single);
        gives(&rt, &family, &NO_EARLY_CUT, &[false, false], 0, &mut Single);
        gives(&rt, &family, &CUTS_AGAIN, &[true, false], 1, &mut Single);
    }

    // Tables that were judged before are checked alike.
    #[test]
    fn judged_before(rt: HostRuntime) {
        let family = FamilyView {
            states: 4,
            products: &PRODUCTS,
            transitions: &TRANSITIONS,
        };
        match judge(&EXPRS, &HAND_FILLS) {
            Ok(tables) => {
                let mut kind = Mask;
                let mut cells = [kind.none(); 8];
                let answer = family.check_sound(&tables, &mut kind, &mut cells);
                assert_eq!(rt; answer, (0, 2));
                assert!(rt;
                    !kind.has(cells[4], 0) && kind.has(cells[4], 1) && kind.has(cells[4], 2)
                );
            }
            Err(_) => assert!(rt; false),
        }
    }

    #[test]
    fn refusals(rt: HostRuntime) {
        assert_eq!(rt; in_cells(6, &[0; 64], &mut Mask), (0, 64));
        assert_eq!(rt; in_cells(6, &[0; 65], &mut Mask), (17, 0));
        assert_eq!(rt; in_cells(6, &[0; 200], &mut Range), (0, 200));
        assert_eq!(rt; in_cells(6, &[], &mut Single), (0, 0));
        assert_eq!(rt; in_cells(5, &[0], &mut Single), (18, 0));
        assert_eq!(rt; in_cells(5, &[0, 0], &mut Single), (17, 0));
    }
}
