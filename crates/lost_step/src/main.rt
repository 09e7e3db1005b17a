//! The maker's question, from beginning to end: do the answers on a family depend on the order of its
//! transitions?
//! The four-product family is run three times and checked against the rule that no cut follows the rennet
//! directly: with its transitions as given, with its transitions sorted, and without the third one. The runs
//! have two kinds of product set, and the columns of each product are compared.
#![tactic(auto)]

use families::Transition;
use formulas::{Expr, Node};
use histories::calls::{Call, History};
use order_report::orders::orders_text;

const STATES: usize = 4;

const ENTRIES: usize = 16;

// Every history is ten additions, a call of its own, a closing and the check.
const CALLS: usize = 13;

const CHECK: usize = 12;

const FILL: u8 = 0;

const RENNET: u8 = 1;

const TEST: u8 = 2;

const CUT: u8 = 3;

const X: u8 = 23;

// A transition without excluded features, as all six of the family are.
fn transition(source: u8, action: u8, target: u8, required: u16) -> Transition {
    Transition {
        source,
        action,
        target,
        required,
        excluded: 0,
    }
}

fn step<'b>(source: u8, action: u8, target: u8, required: u16) -> Call<'b> {
    Call::AddTransition(transition(source, action, target, required))
}

fn always(action: u8, part: usize) -> Node {
    Node::Box {
        action,
        expr: 0,
        part,
    }
}

// nu X. [fill|true]X && [rennet|true]X && [test|true]X && [cut|true]X && [rennet|true][cut|true]false
fn rule() -> [Node; ENTRIES] {
    [
        Node::Variable(X),
        always(FILL, 0),
        Node::Variable(X),
        always(RENNET, 2),
        Node::And(1, 3),
        Node::Variable(X),
        always(TEST, 5),
        Node::And(4, 6),
        Node::Variable(X),
        always(CUT, 8),
        Node::And(7, 9),
        Node::False,
        always(CUT, 11),
        always(RENNET, 12),
        Node::And(10, 13),
        Node::Greatest(X, 14),
    ]
}

fn history<'c, 'b>(calls: &'c [Call<'b>]) -> History<'c, 'b> {
    History {
        states: STATES,
        calls,
    }
}

fn main(rt: HostRuntime) -> anyhow::Result<()> {
    let exprs = [Expr::True];
    let nodes = rule();
    let check = Call::Check(&exprs, &nodes);
    let given: [Call; CALLS] = [
        Call::AddProduct(1),
        Call::AddProduct(2),
        Call::AddProduct(3),
        Call::AddProduct(0),
        step(0, FILL, 1, 0),
        step(1, RENNET, 2, 1),
        step(1, RENNET, 2, 2),
        step(2, TEST, 3, 1),
        step(2, CUT, 0, 2),
        step(3, CUT, 0, 0),
        Call::Strike(transition(0, FILL, 0, 0)),
        Call::Close,
        check,
    ];
    let sorted: [Call; CALLS] = [
        Call::AddProduct(1),
        Call::AddProduct(2),
        Call::AddProduct(3),
        Call::AddProduct(0),
        step(0, FILL, 1, 0),
        step(3, CUT, 0, 0),
        step(1, RENNET, 2, 1),
        step(2, TEST, 3, 1),
        step(1, RENNET, 2, 2),
        step(2, CUT, 0, 2),
        Call::Close,
        Call::Close,
        check,
    ];
    let mut lost = given;
    lost[10] = Call::Strike(transition(1, RENNET, 2, 2));
    let text = orders_text(
        rt.alloc(),
        "no cut follows the rennet directly",
        history(&given),
        history(&sorted),
        history(&lost),
        CHECK,
    )?;
    rt.print(text)?;
    Ok(())
}
