// What a check gathers into sets once, before it walks through the formula.
ghost use Rattle.std.specs.Prelude.{ℕ, ◌<◌, ◌≤◌, All, length};
ghost use Rattle.semantics.specs.Evaluation.{Chosen};
ghost use Rattle.product_sets.specs.Kinds.{SetsKept};
ghost use Rattle.checker.specs.Readings.{Reads};
ghost use Rattle.checker.specs.Gathered.{family_of, Collects, Passing, Everyone, Meeting, Satisfying};

use crate::rows::without;
use crate::view::FamilyView;
use families::MAX_TRANSITIONS;
use formulas::Expr;
use formulas::judge::{MAX_ENTRIES, SoundTables};
use product_sets::Kind;

impl FamilyView<'_> {
    // The products whose configuration passes a test.
    fn products_where<K: Kind, F: Fn(u16) -> bool>(&self, passes: F, kind: &mut K) -> K::Set
        requires callable { F.IsAlwaysCallable passes }
        requires fits { length self.now.products.now ≤ K.places }
        ensures held { K.holds kind.new result }
        ensures value { Reads K.holds K.means kind.new
            (λ m. Passing (family_of self.now) (m result) (F.post passes)) }
        ensures kept { SetsKept K.holds K.means kind.old kind.new }
    {
        let mut set = kind.none();
        for (p, configuration) in self.products.iter().enumerate() {
            if passes(*configuration) {
                set = kind.put(set, p);
            }
        }
        set
    }

    // For each transition the products that meet its condition.
    pub(crate) fn conditions<K: Kind>(
        &self,
        filler: K::Set,
        kind: &mut K,
    ) -> [K::Set; MAX_TRANSITIONS]
        requires fits { length self.now.products.now ≤ K.places }
        requires held { K.holds kind.old filler }
        ensures held { All (K.holds kind.new) result }
        ensures value { Reads K.holds K.means kind.new (λ m. Meeting m (family_of self.now) result) }
        ensures kept { SetsKept K.holds K.means kind.old kind.new }
    {
        let mut sets = [filler; MAX_TRANSITIONS];
        // By number: the array has a place for each transition that there may be.
        for (i, transition) in self.transitions.iter().enumerate() {
            sets[i] = self.products_where(|configuration| transition.met_by(configuration), kind);
        }
        sets
    }

    // The products that satisfy entry n of an expression table, from those that satisfy its parts.
    fn satisfying<K: Kind>(
        &self,
        tables: &SoundTables<'_>,
        n: usize,
        all: K::Set,
        sets: &[K::Set; MAX_ENTRIES],
        kind: &mut K,
    ) -> K::Set
        requires fits { (length self.now.products.now ≤ K.places) × (n < length tables.now.exprs.now) }
        requires held { K.holds kind.old all × All (K.holds kind.old) sets.now }
        requires everyone { Reads K.holds K.means kind.old (λ m. Everyone (family_of self.now) (m all)) }
        requires parts { Reads K.holds K.means kind.old
            (λ m. Satisfying m (family_of self.now) tables.now.exprs.now sets.now n) }
        ensures held { K.holds kind.new result }
        ensures value { Reads K.holds K.means kind.new (λ m. Collects (family_of self.now) (m result)
            (Chosen (family_of self.now) tables.now.exprs.now n)) }
        ensures kept { SetsKept K.holds K.means kind.old kind.new }
    {
        match tables.exprs[n] {
            Expr::False => kind.none(),
            Expr::True => all,
            Expr::Feature(k) => {
                self.products_where(|configuration| configuration >> k & 1 == 1, kind)
            }
            Expr::Not(c) => without(kind, all, sets[c]),
            Expr::Or(c, d) => kind.join(sets[c], sets[d]),
            Expr::And(c, d) => kind.meet(sets[c], sets[d]),
        }
    }

    // For each expression the products that satisfy it. An entry goes by its number, as the parts of an entry do.
    pub(crate) fn satisfied<K: Kind>(
        &self,
        tables: &SoundTables<'_>,
        all: K::Set,
        kind: &mut K,
    ) -> [K::Set; MAX_ENTRIES]
        requires fits { length self.now.products.now ≤ K.places }
        requires held { K.holds kind.old all }
        requires everyone { Reads K.holds K.means kind.old (λ m. Everyone (family_of self.now) (m all)) }
        ensures held { All (K.holds kind.new) result }
        ensures value { Reads K.holds K.means kind.new (λ m. Satisfying m (family_of self.now)
            tables.now.exprs.now result (length tables.now.exprs.now)) }
        ensures kept { SetsKept K.holds K.means kind.old kind.new }
    {
        let mut sets = [all; MAX_ENTRIES];
        for n in 0..tables.exprs.len() {
            sets[n] = self.satisfying(tables, n, all, &sets, kind);
        }
        sets
    }
}
