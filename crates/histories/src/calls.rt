// The calls of a history.
use families::Transition;
use formulas::{Expr, Node};

/// One call on a book.
#[derive(Clone, Copy)]
pub enum Call<'b> {
    /// Adds a product, by its configuration.
    AddProduct(u16),
    /// Adds a transition.
    AddTransition(Transition),
    /// Removes the transition that equals this one.
    Strike(Transition),
    /// Adds what records of eight bytes bring.
    Load(&'b [u8]),
    /// Closes an open book.
    Close,
    /// Checks an expression table and a formula table on a closed book.
    Check(&'b [Expr], &'b [Node]),
    /// Opens a closed book again.
    Reopen,
}

/// A list of calls on a book from its opening on.
#[derive(Clone, Copy)]
pub struct History<'c, 'b> {
    /// How many states the book is opened with.
    pub states: usize,
    /// The calls, in order.
    pub calls: &'c [Call<'b>],
}
