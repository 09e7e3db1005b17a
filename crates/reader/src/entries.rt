// Entries that a formula table and an expression table both have.
ghost use Rattle.std.specs.Prelude.{◌≡◌};
ghost use Rattle.reader.specs.Shapes.{as_expr};

use formulas::{Expr, Node};

/// The entry of the expression table that is made as one of the formula table. What no expression has is
/// false there.
pub fn expr_of(node: Node) -> Expr
    ensures { result ≡ as_expr node }
{
    match node {
        Node::True => Expr::True,
        Node::Not(part) => Expr::Not(part),
        Node::Or(left, right) => Expr::Or(left, right),
        Node::And(left, right) => Expr::And(left, right),
        _ => Expr::False,
    }
}
