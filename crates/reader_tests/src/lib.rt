// Tests of the reader on examples.
#![tactic(auto)]

#[cfg(test)]
mod tests {
    use formulas::{Expr, Node};
    use lexer::{Found, NoToken, Token, next_token};
    use reader::{Refusal, Vocabulary, read, read_with};
    use words::lookup;

    // An answer as its number and its value.
    fn told(answer: Result<usize, Refusal>) -> (u8, usize) {
        match answer {
            Ok(count) => (0, count),
            Err(refusal) => refusal.into(),
        }
    }

    // Whether reading a text gives this answer, with four actions and two features.
    fn answers(text: &[u8], number: u8, value: usize) -> bool {
        let mut exprs = [Expr::True; 64];
        let mut nodes = [Node::True; 64];
        told(read(
            text,
            b"fill\nrennet\ntest\ncut\n",
            b"auto\nhand\n",
            &mut exprs,
            &mut nodes,
        )) == (number, value)
    }

    // Whether two word lists and a text are read with this answer.
    fn lists(actions: &[u8], features: &[u8], number: u8) -> bool {
        let mut exprs = [Expr::True; 64];
        let mut nodes = [Node::True; 64];
        let answer = read(b"true", actions, features, &mut exprs, &mut nodes);
        told(answer).0 == number
    }

    // Each refusal with its place.
    #[test]
    fn refusals(rt: HostRuntime) {
        let mut few = [Expr::True; 63];
        let mut nodes = [Node::True; 64];
        assert!(rt; told(read(b"true", b"", b"", &mut few, &mut nodes)) == (19, 0));
        assert!(rt;
            lists(b"mu\n", b"", 21)
                && lists(b"a\na\n", b"", 21)
                && lists(b"a", b"", 21)
                && lists(b"", b"B\n", 21)
        );
        assert!(rt;
            lists(b"abcdefghijkl\n", b"a\nb\n", 0)
                && lists(b"abcdefghijklm\n", b"", 21)
                && lists(b"\n", b"", 21)
        );
        assert!(rt;
            answers(b"true & true", 22, 5)
                && answers(b"  abcdefghijklm", 22, 2)
                && answers(b"true#", 22, 4)
        );
        assert!(rt;
            answers(b"mu X <cut|true>X", 23, 5)
                && answers(b"", 23, 0)
                && answers(b"   ", 23, 3)
                && answers(b"mu X. (true", 23, 11)
        );
        assert!(rt;
            answers(b"true true", 23, 5)
                && answers(b"truex", 23, 0)
                && answers(b"mu1", 23, 0)
                && answers(b"XY", 23, 1)
        );
        assert!(rt;
            answers(b"<fill||hand>true", 23, 5)
                && answers(b"<fill|hand]true", 23, 10)
                && answers(b"<fill|X>true", 23, 6)
        );
        assert!(rt;
            answers(b"<pour|hand>true", 24, 1)
                && answers(b"<fill|cold>true", 24, 6)
                && answers(b"<pour|cold>true", 24, 1)
        );
    }

    // The sooner refusal counts: a lexical error after a syntax error, an unknown name before one.
    #[test]
    fn order(rt: HostRuntime) {
        assert!(rt; answers(b"true true #", 22, 10) && answers(b"<pour|hand>true true", 23, 16));
        assert!(rt;
            answers(b"<pour|hand>(", 23, 12) && answers(b"<pour|hand>[warm|cold]true", 24, 1)
        );
    }

    // Spaces everywhere and nowhere, operators and fixpoints.
    #[test]
    fn formulas(rt: HostRuntime) {
        assert!(rt; answers(b"<fill|hand>true", 0, 2) && answers(b" < fill | hand > true ", 0, 2));
        assert!(rt;
            answers(
                b"mu X. <cut|true>true || <fill|true>X || <rennet|true>X || <test|true>X",
                0,
                12,
            )
        );
        assert!(rt;
            answers(
                b"nu X.mu Y.[fill|true]Y&&[rennet|true]Y&&[test|true]Y&&[cut|true]X",
                0,
                13,
            )
        );
        assert!(rt;
            answers(b"!mu X. !!X", 0, 5)
                && answers(b"mu X. X || mu X. X", 0, 5)
                && answers(b"X", 0, 1)
        );
    }

    // Texts of 1,024 and 1,025 bytes, and tables of 64 and 65 entries.
    #[test]
    fn limits(rt: HostRuntime) {
        let mut text = [b' '; 1025];
        text[0] = b'A';
        assert!(rt; answers(&text[0..1024], 0, 1) && answers(&text, 20, 0));
        let mut nots = [b'!'; 1025];
        nots[63] = b'A';
        nots[1000] = b'A';
        assert!(rt; answers(&nots[0..64], 0, 64) && answers(&nots[936..1001], 25, 0));
        let mut deep = [b'!'; 80];
        deep[0] = b'<';
        deep[1] = b'c';
        deep[2] = b'u';
        deep[3] = b't';
        deep[4] = b'|';
        deep[68] = b'a';
        deep[69] = b'u';
        deep[70] = b't';
        deep[71] = b'o';
        deep[72] = b'>';
        deep[73] = b'X';
        assert!(rt; answers(&deep[0..74], 0, 2));
        deep[68] = b'!';
        deep[69] = b'a';
        deep[70] = b'u';
        deep[71] = b't';
        deep[72] = b'o';
        deep[73] = b'>';
        deep[74] = b'X';
        assert!(rt; answers(&deep[0..75], 25, 0));
    }

    // The next token in a text of 70,000 bytes: from its midst, in the midst of a name, and at its end.
    #[test]
    fn long_text(rt: HostRuntime) {
        let mut text = [b' '; 70_000];
        text[2000] = b'c';
        text[2001] = b'u';
        text[2002] = b't';
        text[3000] = b'#';
        text[69_990] = b'X';
        assert!(rt;
            matches!(
                next_token(&text, 1500),
                Ok(Some(Found {
                    token: Token::Name(2000, b"cut"),
                    start: 2000,
                    end: 2003
                }))
            )
        );
        assert!(rt;
            matches!(
                next_token(&text, 2001),
                Ok(Some(Found {
                    token: Token::Name(2001, b"ut"),
                    start: 2001,
                    end: 2003
                }))
            )
        );
        assert!(rt; matches!(next_token(&text, 2003), Err(NoToken(3000))));
        assert!(rt;
            matches!(
                next_token(&text, 3001),
                Ok(Some(Found {
                    token: Token::Variable(_, 23),
                    start: 69_990,
                    end: 69_991
                }))
            )
        );
        assert!(rt;
            matches!(next_token(&text, 69_991), Ok(None))
                && matches!(next_token(&text, 80_000), Ok(None))
        );
    }

    // Names in lists that keep their form, and in others.
    #[test]
    fn names(rt: HostRuntime) {
        assert!(rt;
            lookup(b"fill\ncut\n", 2, b"cut") == Some(1)
                && lookup(b"fill\ncut\n", 2, b"test").is_none()
                && lookup(b"fill\ncut\n", 1, b"fill").is_none()
                && lookup(b"fill\ncut", 2, b"fill").is_none()
        );
        assert!(rt; Vocabulary::new(b"fill\n", b"hand\nhand\n").is_none());
    }

    // Two texts read with names that are checked once.
    #[test]
    fn names_checked_before(rt: HostRuntime) {
        let mut exprs = [Expr::True; 64];
        let mut nodes = [Node::True; 64];
        let names = Vocabulary::new(b"fill\n", b"hand\n").expect(&rt, "both lists keep their form");
        assert!(rt; told(read_with(b"<fill|hand>X", names, &mut exprs, &mut nodes)) == (0, 2));
        assert!(rt; told(read_with(b"<cut|hand>X", names, &mut exprs, &mut nodes)) == (24, 1));
    }

    // The entries: parts before wholes, left before right, false beyond; and all false after a refusal.
    #[test]
    fn entries(rt: HostRuntime) {
        let mut exprs = [Expr::True; 64];
        let mut nodes = [Node::True; 64];
        assert!(rt;
            told(read(
                b"A && <cut|hand>B || !C",
                b"fill\ncut\n",
                b"hand\n",
                &mut exprs,
                &mut nodes,
            )) == (0, 7)
        );
        assert!(rt;
            matches!(nodes[0], Node::Variable(0))
                && matches!(nodes[1], Node::Variable(1))
                && matches!(
                    nodes[2],
                    Node::Diamond {
                        action: 1,
                        expr: 0,
                        part: 1
                    }
                )
        );
        assert!(rt;
            matches!(nodes[3], Node::And(0, 2))
                && matches!(nodes[5], Node::Not(4))
                && matches!(nodes[6], Node::Or(3, 5))
                && matches!(nodes[7], Node::False)
        );
        assert!(rt; matches!(exprs[0], Expr::Feature(0)) && matches!(exprs[1], Expr::False));
        assert!(rt; told(read(b"A && pour", b"", b"", &mut exprs, &mut nodes)) == (23, 5));
        assert!(rt; matches!(nodes[0], Node::False) && matches!(exprs[0], Expr::False));
    }
}
