// What a book of either type holds.
ghost use Rattle.std.specs.Prelude.{vec_len, vec_capacity};
ghost use Rattle.book.specs.Rules.{Sized, Roomy, Lawful};

use families::Transition;

// A family. What every book keeps stands in the ghost fields.
#[derive(Drop)]
pub(crate) struct Contents {
    pub(crate) states: usize,
    pub(crate) products: Vec<u16>,
    pub(crate) transitions: Vec<Transition>,
    ghost sized: { Sized states (vec_len products) (vec_len transitions) },
    ghost roomy: { Roomy (vec_capacity products) (vec_capacity transitions) },
    ghost lawful: { Lawful states products.items transitions.items },
}
