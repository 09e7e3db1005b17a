// The check of a formula against a family.
ghost use Rattle.std.specs.Prelude.{◌≡◌, ℕ, ◌+◌, ◌*◌, ◌<◌, ◌≤◌, Bool, length, IsOk, IfErr, slice_get};
ghost use Rattle.formulas.specs.Tables.{last};
ghost use Rattle.semantics.specs.Entries.{Filled, no_pairs};
ghost use Rattle.semantics.specs.Evaluation.{OnlyProducts};
ghost use Rattle.product_sets.specs.Kinds.{SetsKept};
ghost use Rattle.checker.specs.Gathered.{family_of};
ghost use Rattle.checker.specs.Walks.{rows as row_of, InRow};
ghost use Rattle.checker.specs.declared.check.Refusal.TheVariants as re;
ghost use Rattle.checker.specs.Checks.{how_many, refusal_pair, Answered};
ghost use Rattle.checker.specs.CheckLaw.{CheckLaw};

use crate::view::FamilyView;
use crate::walk::Walk;
use families::ACCEPTED;
use formulas::judge::{SoundTables, Unsound, judge};
use formulas::{Expr, Node};
use product_sets::{Kind, first};

// Why a check is refused.
#[derive(Clone, Copy, Debug, PartialEq, Eq)]
enum Refusal {
    Unsound(Unsound),
    TooManyProducts,
    TooFewCells,
}

impl From<Unsound> for Refusal {
    ghost from_gives = { λ reason refusal. refusal ≡ re.Unsound reason };

    fn from(reason: Unsound) -> Refusal {
        Refusal::Unsound(reason)
    }
}

// The refusal's number and its value.
impl From<Refusal> for (u8, usize) {
    ghost from_gives = { λ refusal pair. pair ≡ refusal_pair refusal };

    fn from(refusal: Refusal) -> (u8, usize) {
        match refusal {
            Refusal::Unsound(reason) => reason.into(),
            Refusal::TooManyProducts => (17, 0),
            Refusal::TooFewCells => (18, 0),
        }
    }
}

impl FamilyView<'_> {
    // How many products are in a set.
    fn count_in<K: Kind>(&self, set: K::Set, kind: &K) -> usize
        ensures { result ≡ how_many (length self.now.products.now) (K.means kind.now set) }
    {
        // A `for`, since of a chain over a range the proof finds no count.
        let mut count = 0;
        for p in 0..self.products.len() {
            if kind.has(set, p) {
                count += 1;
            }
        }
        count
    }

    // That the kind has enough places, and that there is a cell for each entry and state.
    fn admitted<K: Kind>(
        &self,
        tables: &SoundTables<'_>,
        kind: &K,
        cells: &[K::Set],
    ) -> Result<(), Refusal>
        ensures refused { IfErr result (λ refusal. (whole : ℕ → Bool) → Answered (family_of self.now)
            tables.now.exprs.now tables.now.nodes.now K.places (length cells.now) whole (refusal_pair refusal).0
            (refusal_pair refusal).1) }
        ensures fits { IsOk result → (length self.now.products.now ≤ K.places)
            × (length tables.now.nodes.now * self.now.states ≤ length cells.now) }
    {
        if self.products.len() > kind.places_count() {
            return Err(Refusal::TooManyProducts);
        }
        if cells.len() < tables.nodes.len() * self.states {
            return Err(Refusal::TooFewCells);
        }
        Ok(())
    }

    // Gathers the sets, and fills the rows of all entries.
    fn fill<K: Kind>(&self, tables: &SoundTables<'_>, kind: &mut K, cells: &mut [K::Set])
        requires fits { (length self.now.products.now ≤ K.places) × (length tables.now.nodes.now * self.now.states ≤ length cells.old) }
        ensures held { (n : ℕ) → n < length tables.now.nodes.now
            → InRow (K.holds kind.new) self.now.states cells.new n }
        ensures kept { SetsKept K.holds K.means kind.old kind.new }
        ensures beyond { (i : ℕ) → length tables.now.nodes.now * self.now.states ≤ i
            → slice_get cells.new i ≡ slice_get cells.old i }
        ensures products { (n : ℕ) → n < length tables.now.nodes.now → OnlyProducts (family_of self.now)
            (row_of (K.means kind.new) self.now.states cells.new n) }
        ensures filled { Filled (family_of self.now) tables.now.exprs.now tables.now.nodes.now
            (row_of (K.means kind.new) self.now.states cells.new) no_pairs (last tables.now.nodes.now) }
    {
        let all = first(kind, self.products.len());
        let conditions = self.conditions(all, kind);
        let satisfied = self.satisfied(tables, all, kind);
        let walk = Walk {
            view: *self,
            tables: *tables,
            all,
            conditions: &conditions,
            satisfied: &satisfied,
        };
        walk.walk(tables.nodes.len() - 1, kind, cells);
    }

    // Checks a formula. Accepted, the cell of entry n and state s, n × states + s, holds the products for which the
    // entry holds there, a variable standing for the final set of its fixpoint, and the value is how many products
    // have the last entry in state 0. A closed book hands on to it, so both have the same parameters and promises.
    pub fn check<K: Kind>(
        &self,
        exprs: &[Expr],
        nodes: &[Node],
        kind: &mut K,
        cells: &mut [K::Set],
    ) -> (u8, usize)
        ensures law { CheckLaw K.means K.places (family_of self.now) exprs.now nodes.now kind.old cells.old
            kind.new cells.new result.0 result.1 }
        ensures held { result.0 ≡ 0 → (n : ℕ) → n < length nodes.now
            → InRow (K.holds kind.new) self.now.states cells.new n }
        ensures kept { SetsKept K.holds K.means kind.old kind.new }
    {
        match judge(exprs, nodes) {
            Err(unsound) => Refusal::from(unsound).into(),
            Ok(tables) => self.check_sound(&tables, kind, cells),
        }
    }

    /// Checks a formula whose tables were judged, so that they are not judged again: it is refused by 17 and 18
    /// alone, and promises what `check` does of the tables that were judged. A closed book hands on to it too.
    pub fn check_sound<K: Kind>(
        &self,
        tables: &SoundTables<'_>,
        kind: &mut K,
        cells: &mut [K::Set],
    ) -> (u8, usize)
        ensures law { CheckLaw K.means K.places (family_of self.now) tables.now.exprs.now tables.now.nodes.now kind.old
            cells.old kind.new cells.new result.0 result.1 }
        ensures held { result.0 ≡ 0 → (n : ℕ) → n < length tables.now.nodes.now
            → InRow (K.holds kind.new) self.now.states cells.new n }
        ensures kept { SetsKept K.holds K.means kind.old kind.new }
    {
        match self.admitted(tables, kind, cells) {
            Err(refusal) => refusal.into(),
            Ok(()) => {
                self.fill(tables, kind, cells);
                let whole = cells[(tables.nodes.len() - 1) * self.states];
                (ACCEPTED, self.count_in(whole, kind))
            }
        }
    }
}
