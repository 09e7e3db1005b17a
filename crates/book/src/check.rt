// Checking a closed book.
ghost use Rattle.std.specs.Prelude.{◌≡◌, ℕ, ◌<◌, length};
ghost use Rattle.product_sets.specs.Kinds.{SetsKept};
ghost use Rattle.checker.specs.Gathered.{family_of};
ghost use Rattle.checker.specs.CheckLaw.{CheckLaw};
ghost use Rattle.checker.specs.Walks.{InRow};
ghost use Rattle.book.specs.Contents.{closed_contents};

use crate::books::ClosedBook;
use checker::FamilyView;
use formulas::judge::SoundTables;
use formulas::{Expr, Node};
use product_sets::Kind;

impl ClosedBook {
    // The contents, lent for a check.
    fn view(&self) -> FamilyView<'_>
        ensures { family_of result ≡ closed_contents self.now }
    {
        FamilyView {
            states: self.contents.states,
            products: &self.contents.products,
            transitions: &self.contents.transitions,
        }
    }

    // Checks a formula for every product at once. Accepted, the cell of entry n and state s, n × states + s, means the
    // products for which the entry holds there, a variable standing for the final set of its fixpoint, and the
    // value is how many products have the last entry in state 0. It is what the view promises, said of the
    // book, so the parameters are the view's.
    pub fn check<K: Kind>(
        &self,
        exprs: &[Expr],
        nodes: &[Node],
        kind: &mut K,
        cells: &mut [K::Set],
    ) -> (u8, usize)
        ensures law { CheckLaw K.means K.places (closed_contents self.now) exprs.now nodes.now kind.old cells.old
            kind.new cells.new result.0 result.1 }
        ensures held { result.0 ≡ 0 → (n : ℕ) → n < length nodes.now
            → InRow (K.holds kind.new) (closed_contents self.now).states cells.new n }
        ensures kept { SetsKept K.holds K.means kind.old kind.new }
    {
        self.view().check(exprs, nodes, kind, cells)
    }

    /// Checks a formula whose tables were judged, so that they are not judged again: it is refused by 17 and 18
    /// alone. It too is what the view promises.
    pub fn check_sound<K: Kind>(
        &self,
        tables: &SoundTables<'_>,
        kind: &mut K,
        cells: &mut [K::Set],
    ) -> (u8, usize)
        ensures law { CheckLaw K.means K.places (closed_contents self.now) tables.now.exprs.now tables.now.nodes.now
            kind.old cells.old kind.new cells.new result.0 result.1 }
        ensures held { result.0 ≡ 0 → (n : ℕ) → n < length tables.now.nodes.now
            → InRow (K.holds kind.new) (closed_contents self.now).states cells.new n }
        ensures kept { SetsKept K.holds K.means kind.old kind.new }
    {
        self.view().check_sound(tables, kind, cells)
    }
}
