// Examples of judging tables: for each rule the smallest table that breaks it, and tables that break two.
#![tactic(auto)]

#[cfg(test)]
mod tests {
    use formulas::judge::judge;
    use formulas::{Expr, Node};
    use std::test::Fail;

    // The number and the value of the answer, 0 and 0 where the tables are accepted.
    fn judged(exprs: &[Expr], nodes: &[Node]) -> (u8, usize) {
        match judge(exprs, nodes) {
            Ok(_) => (0, 0),
            Err(reason) => reason.into(),
        }
    }

    #[test]
    fn sizes(rt: HostRuntime) -> Result<(), Fail> {
        assert_eq!(rt; judged(&[], &[]), (10, 0));
        assert_eq!(rt; judged(&[], &[Node::True]), (0, 0));
        let mut nodes = Vec::new(rt.alloc());
        nodes.push(Node::True)?;
        for n in 0..63 {
            nodes.push(Node::Not(n))?;
        }
        assert_eq!(rt; judged(&[], &nodes), (0, 0));
        assert_eq!(rt; judged(&[Expr::True; 64], &nodes), (0, 0));
        assert_eq!(rt; judged(&[Expr::True; 65], &nodes), (10, 0));
        nodes.push(Node::Not(63))?;
        assert_eq!(rt; judged(&[], &nodes), (10, 0));
        Ok(())
    }

    #[test]
    fn expressions(rt: HostRuntime) {
        assert_eq!(rt; judged(&[Expr::Feature(15)], &[Node::True]), (0, 0));
        assert_eq!(rt; judged(&[Expr::Feature(16)], &[Node::True]), (11, 0));
        assert_eq!(rt; judged(&[Expr::Not(0)], &[Node::True]), (11, 0));
        assert_eq!(rt;
            judged(&[Expr::True, Expr::Or(0, 1)], &[Node::True]),
            (11, 1)
        );
        // An expression may be a part of several.
        assert_eq!(rt;
            judged(&[Expr::True, Expr::And(0, 0)], &[Node::True]),
            (0, 0)
        );
        // The first offender counts, and expressions come before formulas.
        assert_eq!(rt;
            judged(&[Expr::True, Expr::Not(1), Expr::Not(2)], &[Node::Not(0)]),
            (11, 1)
        );
    }

    #[test]
    fn entries(rt: HostRuntime) {
        assert_eq!(rt; judged(&[], &[Node::Not(0)]), (12, 0));
        assert_eq!(rt; judged(&[], &[Node::True, Node::And(0, 1)]), (12, 1));
        let diamond = Node::Diamond {
            action: 63,
            expr: 0,
            part: 0,
        };
        assert_eq!(rt; judged(&[Expr::True], &[Node::True, diamond]), (0, 0));
        assert_eq!(rt; judged(&[], &[Node::True, diamond]), (12, 1));
        let far = Node::Box {
            action: 64,
            expr: 0,
            part: 0,
        };
        assert_eq!(rt; judged(&[Expr::True], &[Node::True, far]), (12, 1));
        assert_eq!(rt;
            judged(&[], &[Node::Variable(25), Node::Least(25, 0)]),
            (0, 0)
        );
        assert_eq!(rt; judged(&[], &[Node::Variable(26)]), (12, 0));
        assert_eq!(rt; judged(&[], &[Node::True, Node::Least(26, 0)]), (12, 1));
    }

    #[test]
    fn naming(rt: HostRuntime) {
        assert_eq!(rt; judged(&[], &[Node::True, Node::True]), (13, 0));
        assert_eq!(rt; judged(&[], &[Node::True, Node::Or(0, 0)]), (13, 0));
        assert_eq!(rt;
            judged(&[], &[Node::True, Node::Not(0), Node::And(1, 0)]),
            (13, 0)
        );
        assert_eq!(rt;
            judged(&[], &[Node::True, Node::False, Node::True, Node::Or(0, 2)]),
            (13, 1)
        );
    }

    #[test]
    fn variables(rt: HostRuntime) {
        // mu X. X || mu X. X
        let twice = [
            Node::Variable(23),
            Node::Variable(23),
            Node::Least(23, 1),
            Node::Or(0, 2),
            Node::Least(23, 3),
        ];
        assert_eq!(rt; judged(&[], &twice), (14, 4));
        assert_eq!(rt; judged(&[], &[Node::Variable(23)]), (15, 0));
        // A fixpoint beside the variable, or of another one above it, does not bind it.
        let beside = [
            Node::Variable(1),
            Node::Variable(0),
            Node::Least(0, 1),
            Node::Or(0, 2),
            Node::Greatest(3, 3),
        ];
        assert_eq!(rt; judged(&[], &beside), (15, 0));
        assert_eq!(rt;
            judged(&[], &[Node::Variable(23), Node::Not(0), Node::Least(23, 1)]),
            (16, 0)
        );
        assert_eq!(rt;
            judged(
                &[],
                &[
                    Node::Variable(23),
                    Node::Not(0),
                    Node::Not(1),
                    Node::Least(23, 2),
                    Node::Not(3),
                ],
            ),
            (0, 0)
        );
        // Unbound comes before oddly bound, though its entry is a later one.
        let both = [
            Node::Variable(0),
            Node::Not(0),
            Node::Least(0, 1),
            Node::Variable(1),
            Node::Or(2, 3),
        ];
        assert_eq!(rt; judged(&[], &both), (15, 3));
        // Named twice comes before bound twice.
        let order = [
            Node::True,
            Node::Least(0, 0),
            Node::Greatest(0, 1),
            Node::Or(2, 2),
        ];
        assert_eq!(rt; judged(&[], &order), (13, 2));
    }

    #[test]
    fn fixpoints(rt: HostRuntime) {
        // mu A. nu B. A || B: each variable has the entry of its own fixpoint.
        let nested = [
            Node::Variable(0),
            Node::Variable(1),
            Node::Or(0, 1),
            Node::Greatest(1, 2),
            Node::Least(0, 3),
        ];
        let found = judge(&[], &nested).map(|tables| (tables.fixpoints[0], tables.fixpoints[1]));
        assert_eq!(rt; found, Ok((4, 3)));
    }
}
