//! Whole histories on the four-product family: what every call is told, what every check finds, and whose
//! columns are equal.
#![tactic(auto)]

#[cfg(test)]
mod tests {
    use families::Transition;
    use formulas::{Expr, Node};
    use histories::calls::{Call, History};
    use histories::columns::Column;
    use histories::log::{Log, Reply};
    use histories::run::run;
    use product_sets::{Kind, Mask, Range, Single};
    use std::alloc::{AllocError, Global};
    use std::process::Abort;
    use std::test::Fail;

    // Products with auto, with hand, with both and with neither; fill, rennet with auto, rennet with hand,
    // test, cut and cut.
    const FAMILY: &[u8] = b"P\x01\0\0\0\0\0\0P\x02\0\0\0\0\0\0P\x03\0\0\0\0\0\0P\0\0\0\0\0\0\0\
        T\0\0\x01\0\0\0\0T\x01\x01\x02\x01\0\0\0T\x01\x01\x02\x02\0\0\0\
        T\x02\x02\x03\x01\0\0\0T\x02\x03\0\x02\0\0\0T\x03\x03\0\0\0\0\0";

    // The same with the two rennets turned round, and the products in another order: both, hand, neither and
    // auto.
    const TURNED: &[u8] = b"P\x03\0\0\0\0\0\0P\x02\0\0\0\0\0\0P\0\0\0\0\0\0\0P\x01\0\0\0\0\0\0\
        T\0\0\x01\0\0\0\0T\x01\x01\x02\x02\0\0\0T\x01\x01\x02\x01\0\0\0\
        T\x02\x02\x03\x01\0\0\0T\x02\x03\0\x02\0\0\0T\x03\x03\0\0\0\0\0";

    const EXPRS: &[Expr] = &[Expr::True];

    // A rennet can follow the fill.
    const RENNET_FOLLOWS: &[Node] = &[
        Node::True,
        Node::Diamond {
            action: 1,
            expr: 0,
            part: 0,
        },
        Node::Diamond {
            action: 0,
            expr: 0,
            part: 1,
        },
    ];

    const CHECK: Call<'static> = Call::Check(EXPRS, RENNET_FOLLOWS);

    const FILL: Transition = Transition {
        source: 0,
        action: 0,
        target: 1,
        required: 0,
        excluded: 0,
    };

    const RENNET_BY_HAND: Transition = Transition {
        source: 1,
        action: 1,
        target: 2,
        required: 2,
        excluded: 0,
    };

    // Three accepted checks of one book, and refused and left out calls around them.
    const EDITED: [Call<'static>; 23] = [
        CHECK,
        Call::Reopen,
        Call::Load(FAMILY),
        Call::Load(FAMILY),
        Call::AddProduct(2),
        Call::AddTransition(RENNET_BY_HAND),
        Call::AddTransition(Transition { target: 4, ..FILL }),
        Call::Strike(Transition {
            required: 3,
            ..RENNET_BY_HAND
        }),
        Call::Load(b"P"),
        Call::Close,
        Call::AddProduct(7),
        Call::Close,
        CHECK,
        Call::Check(EXPRS, &[]),
        Call::Reopen,
        Call::Strike(RENNET_BY_HAND),
        Call::Close,
        CHECK,
        Call::Reopen,
        Call::AddTransition(RENNET_BY_HAND),
        Call::AddProduct(4),
        Call::Close,
        CHECK,
    ];

    // A reply without its table.
    #[derive(Clone, Copy, PartialEq, Eq, Debug)]
    enum Told {
        NotAdmitted,
        Done,
        Answer(u8, usize),
        Checked(usize),
    }

    const EDITED_TOLD: [Told; 23] = [
        Told::NotAdmitted,
        Told::NotAdmitted,
        Told::Answer(0, 10),
        Told::Answer(3, 0),
        Told::Answer(3, 0),
        Told::Answer(5, 0),
        Told::Answer(4, 0),
        Told::Answer(7, 0),
        Told::Answer(8, 0),
        Told::Done,
        Told::NotAdmitted,
        Told::NotAdmitted,
        Told::Checked(3),
        Told::Answer(10, 0),
        Told::Done,
        Told::Answer(0, 5),
        Told::Done,
        Told::Checked(2),
        Told::Done,
        Told::Answer(0, 6),
        Told::Answer(0, 4),
        Told::Done,
        Told::Checked(3),
    ];

    fn without_table(reply: &Reply) -> Told {
        match reply {
            Reply::NotAdmitted => Told::NotAdmitted,
            Reply::Done => Told::Done,
            Reply::Answer(number, value) => Told::Answer(*number, *value),
            Reply::Checked(value, _) => Told::Checked(*value),
        }
    }

    // A run in twelve cells, as many as three entries want in four states.
    fn run_with<'c, 'b, K: Kind>(
        alloc: Global,
        states: usize,
        calls: &'c [Call<'b>],
        kind: &mut K,
    ) -> Result<Log<'c, 'b>, AllocError> {
        let mut cells = [kind.none(); 12];
        run(alloc, History { states, calls }, kind, &mut cells)
    }

    fn assert_told(rt: &impl Abort, log: &Log<'_, '_>, expected: &[Told]) {
        assert_eq!(rt; log.replies.len(), expected.len());
        for (reply, expected) in log.replies.iter().zip(expected) {
            assert_eq!(rt; without_table(reply), *expected);
        }
    }

    // The products at which the whole formula holds in state 0, a digit for each.
    fn assert_digits(rt: &impl Abort, log: &Log<'_, '_>, position: usize, digits: &[u8]) {
        let Some(table) = log.table(position) else {
            panic!(rt; "no table at {position}");
        };
        assert_eq!(rt; table.columns.len(), digits.len());
        for (product, digit) in digits.iter().enumerate() {
            assert_eq!(rt; table.holds(2, 0, product), *digit == b'1');
        }
        assert!(rt; !table.holds(2, 0, digits.len()));
        assert!(rt; !table.holds(usize::MAX, 0, 0) && !table.holds(0, 4, 0));
    }

    #[test]
    fn every_call_is_told(rt: HostRuntime) -> Result<(), Fail> {
        let by_mask = run_with(rt.alloc(), 4, &EDITED, &mut Mask)?;
        let by_range = run_with(rt.alloc(), 4, &EDITED, &mut Range)?;
        for log in [&by_mask, &by_range] {
            assert_eq!(rt; log.opening, (0, 0));
            assert_told(&rt, log, &EDITED_TOLD);
            for (position, digits) in [(12, "1110"), (17, "1010"), (22, "11100")] {
                assert_digits(&rt, log, position, digits.as_bytes());
            }
        }
        Ok(())
    }

    #[test]
    fn a_refused_opening_leaves_one_state(rt: HostRuntime) -> Result<(), Fail> {
        let calls = [
            Call::Load(FAMILY),
            Call::AddProduct(2),
            Call::AddTransition(Transition { target: 0, ..FILL }),
            Call::Close,
            CHECK,
        ];
        let expected = [
            Told::Answer(4, 4),
            Told::Answer(0, 0),
            Told::Answer(0, 1),
            Told::Done,
            Told::Checked(0),
        ];
        for states in [0, 65] {
            let log = run_with(rt.alloc(), states, &calls, &mut Single)?;
            assert_eq!(rt; log.opening, (1, 0));
            assert_told(&rt, &log, &expected);
        }
        Ok(())
    }

    #[test]
    fn checks_are_refused(rt: HostRuntime) -> Result<(), Fail> {
        const X: u8 = 23;
        let calls = [
            Call::Load(FAMILY),
            Call::Close,
            Call::Check(EXPRS, &[]),
            Call::Check(&[Expr::True, Expr::Feature(16)], RENNET_FOLLOWS),
            Call::Check(EXPRS, &[Node::True, Node::Not(1)]),
            Call::Check(EXPRS, &[Node::True, Node::True]),
            Call::Check(
                EXPRS,
                &[
                    Node::Variable(X),
                    Node::Variable(X),
                    Node::Least(X, 1),
                    Node::Or(0, 2),
                    Node::Least(X, 3),
                ],
            ),
            Call::Check(EXPRS, &[Node::Variable(X)]),
            Call::Check(EXPRS, &[Node::Variable(X), Node::Not(0), Node::Least(X, 1)]),
            Call::Check(
                EXPRS,
                &[Node::True, Node::Not(0), Node::Not(1), Node::Not(2)],
            ),
        ];
        let tables = [
            (10, 0),
            (11, 1),
            (12, 1),
            (13, 0),
            (14, 4),
            (15, 0),
            (16, 0),
        ];
        let few_cells = run_with(rt.alloc(), 4, &calls, &mut Mask)?;
        let few_places = run_with(rt.alloc(), 4, &calls, &mut Single)?;
        for (log, last) in [(&few_cells, 18), (&few_places, 17)] {
            assert_eq!(rt; log.replies.len(), 10);
            for (reply, (number, value)) in log.replies.iter().skip(2).zip(&tables) {
                assert_eq!(rt; without_table(reply), Told::Answer(*number, *value));
            }
            assert_eq!(rt;
                log.replies.last().map(without_table),
                Some(Told::Answer(last, 0))
            );
        }
        Ok(())
    }

    #[test]
    fn the_single_kind_has_one_product(rt: HostRuntime) -> Result<(), Fail> {
        let calls = [
            Call::AddProduct(1),
            Call::Load(&FAMILY[32..80]),
            Call::Close,
            CHECK,
            Call::Reopen,
            Call::AddProduct(2),
            Call::Close,
            CHECK,
        ];
        let expected = [
            Told::Answer(0, 0),
            Told::Answer(0, 6),
            Told::Done,
            Told::Checked(1),
            Told::Done,
            Told::Answer(0, 1),
            Told::Done,
            Told::Answer(17, 0),
        ];
        let log = run_with(rt.alloc(), 4, &calls, &mut Single)?;
        assert_told(&rt, &log, &expected);
        Ok(())
    }

    // Two columns, each by its log, its position there and its product.
    fn equal(
        log: &Log<'_, '_>,
        (position, product): (usize, usize),
        other: &Log<'_, '_>,
        (later, twin): (usize, usize),
    ) -> Option<bool> {
        let one = Column {
            log,
            position,
            product,
        };
        let two = Column {
            log: other,
            position: later,
            product: twin,
        };
        one.equals(&two)
    }

    #[test]
    fn columns_of_one_run(rt: HostRuntime) -> Result<(), Fail> {
        let log = run_with(rt.alloc(), 4, &EDITED, &mut Mask)?;
        for (one, two, expected) in [
            ((12, 0), (17, 0), Some(true)),
            ((12, 1), (17, 1), Some(false)),
            ((12, 2), (17, 2), Some(true)),
            ((12, 3), (17, 3), Some(true)),
            ((12, 1), (22, 1), Some(true)),
            ((17, 1), (22, 1), Some(false)),
            ((12, 3), (22, 4), Some(true)),
            ((12, 4), (22, 4), None),
            ((12, 0), (13, 0), None),
            ((0, 0), (12, 0), None),
            ((12, 0), (23, 0), None),
        ] {
            assert_eq!(rt; equal(&log, one, &log, two), expected);
        }
        Ok(())
    }

    #[test]
    fn columns_of_two_runs(rt: HostRuntime) -> Result<(), Fail> {
        let log = run_with(rt.alloc(), 4, &EDITED, &mut Mask)?;
        let calls = [Call::Load(TURNED), Call::Close, CHECK];
        let turned = run_with(rt.alloc(), 4, &calls, &mut Range)?;
        for (product, twin) in [(0, 3), (1, 1), (2, 0), (3, 2)] {
            assert_eq!(rt; equal(&log, (12, product), &turned, (2, twin)), Some(true));
        }
        // Fewer states, or fewer entries.
        for (states, check) in [(3, CHECK), (4, Call::Check(EXPRS, &[Node::True]))] {
            let calls = [Call::AddProduct(1), Call::Close, check];
            let smaller = run_with(rt.alloc(), states, &calls, &mut Mask)?;
            assert_eq!(rt; equal(&log, (12, 0), &smaller, (2, 0)), None);
        }
        Ok(())
    }

    // `tools/want_of_memory` runs this with each allocation failing in turn: a run ends with the error or
    // answers its log, and the next one finds the kind and the cells fit for use.
    #[test]
    fn want_of_memory(rt: HostRuntime) -> Result<(), Fail> {
        let calls = [
            Call::AddProduct(2),
            Call::Load(&FAMILY[32..80]),
            Call::Close,
            CHECK,
        ];
        let expected = [
            Told::Answer(0, 0),
            Told::Answer(0, 6),
            Told::Done,
            Told::Checked(1),
        ];
        let mut kind = Range;
        let mut cells = [kind.none(); 12];
        let history = History {
            states: 4,
            calls: &calls,
        };
        let log = match run(rt.alloc(), history, &mut kind, &mut cells) {
            Ok(log) => log,
            Err(AllocError) => run(rt.alloc(), history, &mut kind, &mut cells)?,
        };
        assert_told(&rt, &log, &expected);
        assert_digits(&rt, &log, 3, b"1");
        Ok(())
    }
}
