// The own transitions of a product.
ghost use Rattle.std.specs.Prelude.{◌≡◌, ℕ, ◌<◌, ◌↔◌, IfOk, IsTrue};
ghost use Rattle.families.specs.Families.{Owns, count, config};
ghost use Rattle.book.specs.Contents.{closed_contents};
ghost use Rattle.book.specs.Lists.{is_held};
ghost use Rattle.book.specs.Own.{ends, same_ends, ExactlyOwn, Listed, ListsOf};

use crate::books::ClosedBook;
use families::Transition;
use std::alloc::{AllocError, Global};

/// An own transition of a product: one from `source` by `action` to `target` that it has, whichever
/// transitions of the book give it.
#[derive(Clone, Copy, PartialEq, Eq)]
pub struct OwnTransition {
    pub source: u8,
    pub action: u8,
    pub target: u8,
}

// What a transition gives to the products that meet its condition.
impl From<Transition> for OwnTransition {
    ghost from_gives = { λ t o. o ≡ ends t };

    fn from(transition: Transition) -> OwnTransition {
        OwnTransition {
            source: transition.source,
            action: transition.action,
            target: transition.target,
        }
    }
}

// A name for the search, which has a clause of its own.
fn owned(transitions: &[Transition], configuration: u16, own: OwnTransition) -> bool
    ensures { IsTrue result ↔ Owns transitions.now configuration own.source own.action own.target }
{
    transitions.iter().any(|t| OwnTransition::from(*t) == own && t.met_by(configuration))
}

// Whether an own transition is in a list. Not by `contains`, which compares four at a time: that takes longer
// on a list in which most differ in the first field.
fn holds(list: &[OwnTransition], own: OwnTransition) -> bool
    ensures { result ≡ is_held same_ends own list.now }
{
    list.iter().any(|held| *held == own)
}

fn list_all(
    alloc: Global,
    transitions: &[Transition],
    configuration: u16,
) -> Result<Vec<OwnTransition>, AllocError>
    ensures { IfOk result (λ v. Listed configuration transitions.now v.items) }
{
    let mut list = Vec::new(alloc);
    for t in transitions {
        let own = OwnTransition::from(*t);
        if t.met_by(configuration) && !holds(&list, own) {
            list.push(own)?;
        }
    }
    Ok(list)
}

impl ClosedBook {
    /// How many states the book has.
    pub fn states(&self) -> usize
        ensures { result ≡ (closed_contents self.now).states }
    {
        self.contents.states
    }

    /// The configurations of the products, by their numbers.
    pub fn products(&self) -> &[u16]
        ensures { result.now ≡ (closed_contents self.now).products }
    {
        &self.contents.products
    }

    /// Whether a product has an own transition; a number that is no product's has none.
    pub fn owns(&self, product: usize, own: OwnTransition) -> bool
        ensures { let f = closed_contents self.now in
            IsTrue result ↔ ((product < count f)
            × Owns f.transitions (config f product) own.source own.action own.target) }
    {
        let Some(configuration) = self.products().get(product) else {
            return false;
        };
        owned(&self.contents.transitions, *configuration, own)
    }

    /// The own transitions of a product in the order of the book, each once; a number that is no product's
    /// has none. An error if there is no memory for the list.
    pub fn own_transitions(
        &self,
        alloc: Global,
        product: usize,
    ) -> Result<Vec<OwnTransition>, AllocError>
        ensures listed { IfOk result (λ v. ListsOf (closed_contents self.now) product v.items) }
        ensures own { IfOk result (λ v. ExactlyOwn (closed_contents self.now) product v.items) }
    {
        let Some(configuration) = self.products().get(product) else {
            return Ok(Vec::new(alloc));
        };
        list_all(alloc, &self.contents.transitions, *configuration)
    }
}
