// The rows of diamonds and boxes, from the products whose own transitions lead into a row.
ghost use Rattle.std.specs.Prelude.{ℕ, ◌+◌, ◌*◌, ◌<◌, ◌≤◌, not, ◌&&◌, ◌||◌, T};
ghost use Rattle.std.specs.Prelude.{All};
ghost use Rattle.std.specs.List.{AllWithin};
ghost use Rattle.families.specs.Families.{count};
ghost use Rattle.semantics.specs.Evaluation.{HoldsWhere, SomeLeads, AllLead};
ghost use Rattle.product_sets.specs.Cells.{in_cell};
ghost use Rattle.product_sets.specs.Kinds.{SetsKept};
ghost use Rattle.checker.specs.Readings.{Reads, Builds};
ghost use Rattle.checker.specs.Gathered.{family_of, rows_of, Gathered};
ghost use Rattle.checker.specs.Walks.{HasRow, InRow, WritesRow};

use crate::rows::{without, write_row};
use crate::walk::Walk;
use families::MAX_STATES;
use product_sets::Kind;

// A set, and the products that meet a condition and are in the set at the target.
fn with_led<K: Kind>(kind: &mut K, set: K::Set, condition: K::Set, target: K::Set) -> K::Set
    ensures { Builds K.holds K.means kind.old kind.new
        (K.holds kind.old set × K.holds kind.old condition × K.holds kind.old target)
        (λ m p. m set p || (m condition p && m target p)) result }
{
    let led = kind.meet(condition, target);
    kind.join(set, led)
}

// The products that are not in both sets.
fn without_both<K: Kind>(kind: &mut K, all: K::Set, a: K::Set, b: K::Set) -> K::Set
    ensures { Builds K.holds K.means kind.old kind.new
        (K.holds kind.old all × K.holds kind.old a × K.holds kind.old b)
        (λ m p. m all p && not (m a p && m b p)) result }
{
    let both = kind.meet(a, b);
    without(kind, all, both)
}

impl<K: Kind> Walk<'_, K> {
    // For each state the products with an own transition by the action into the targets. Like transitions are
    // joined: it is enough that the condition of one is met.
    fn sources(
        &self,
        action: u8,
        targets: &[K::Set; MAX_STATES],
        kind: &mut K,
    ) -> [K::Set; MAX_STATES]
        requires gathered { Gathered K.holds K.means kind.old self.now }
        requires held { AllWithin (K.holds kind.old) targets.now 0 self.now.view.states }
        ensures held { All (K.holds kind.new) result }
        ensures value { Reads K.holds K.means kind.new (λ m. HoldsWhere (family_of self.now.view) (in_cell m result)
            (λ s p. (p < count (family_of self.now.view))
            × SomeLeads (family_of self.now.view) action (in_cell m targets.now) s p)) }
        ensures kept { SetsKept K.holds K.means kind.old kind.new }
    {
        let mut leading = [kind.none(); MAX_STATES];
        // By number: with `zip` the loop would go by an iterator, and its invariant have to say what that has left.
        for (i, transition) in self.view.transitions.iter().enumerate() {
            if transition.action == action {
                let target = targets[usize::from(transition.target)];
                let source = usize::from(transition.source);
                leading[source] = with_led(kind, leading[source], self.conditions[i], target);
            }
        }
        leading
    }

    // Writes the row of entry n, a diamond over the part c for the chosen products.
    pub(crate) fn diamond(
        &self,
        action: u8,
        chosen: K::Set,
        n: usize,
        c: usize,
        kind: &mut K,
        cells: &mut [K::Set],
    )
        requires gathered { Gathered K.holds K.means kind.old self.now }
        requires fits { (HasRow self.now.view.states n cells.old) × (HasRow self.now.view.states c cells.old) }
        requires chosen { K.holds kind.old chosen }
        requires held { InRow (K.holds kind.old) self.now.view.states cells.old c }
        ensures writes { WritesRow K.holds K.means self.now.view.states n kind.old cells.old kind.new cells.new }
        ensures value { Reads K.holds K.means kind.new
            (λ m. HoldsWhere (family_of self.now.view) (rows_of m self.now cells.new n)
            (λ s p. (p < count (family_of self.now.view)) × T (m chosen p)
            × SomeLeads (family_of self.now.view) action (rows_of m self.now cells.old c) s p)) }
    {
        let targets = self.row(c, cells);
        let from = self.sources(action, &targets, kind);
        self.write(
            n,
            &from,
            &from,
            |kind, led, _| kind.meet(led, chosen),
            kind,
            cells,
        );
    }

    // Writes the row of entry n, a box over the part c for the chosen products: no transition leads out of the part. It
    // differs from a diamond in the row that transitions lead into and in the last step, so they share the rest by calls.
    pub(crate) fn box_over(
        &self,
        action: u8,
        chosen: K::Set,
        n: usize,
        c: usize,
        kind: &mut K,
        cells: &mut [K::Set],
    )
        requires gathered { Gathered K.holds K.means kind.old self.now }
        requires fits { (HasRow self.now.view.states n cells.old) × (HasRow self.now.view.states c cells.old) }
        requires chosen { K.holds kind.old chosen }
        requires held { InRow (K.holds kind.old) self.now.view.states cells.old c }
        ensures writes { WritesRow K.holds K.means self.now.view.states n kind.old cells.old kind.new cells.new }
        ensures value { Reads K.holds K.means kind.new
            (λ m. HoldsWhere (family_of self.now.view) (rows_of m self.now cells.new n)
            (λ s p. (p < count (family_of self.now.view)) × (T (m chosen p)
            → AllLead (family_of self.now.view) action (rows_of m self.now cells.old c) s p))) }
    {
        let all = self.all;
        let part = self.row(c, cells);
        let mut outside = part;
        write_row(
            &mut outside[..self.view.states],
            &part,
            &part,
            |kind, inside, _|
                ensures { Builds K.holds K.means kind.old kind.new (K.holds kind.old all × K.holds kind.old inside)
                    (λ m p. m all p && not (m inside p)) result }
            { without(kind, all, inside) },
            kind,
        );
        let from = self.sources(action, &outside, kind);
        self.write(
            n,
            &from,
            &from,
            |kind, led, _|
                ensures { Builds K.holds K.means kind.old kind.new
                    (K.holds kind.old all × K.holds kind.old led × K.holds kind.old chosen)
                    (λ m p. m all p && not (m led p && m chosen p)) result }
            { without_both(kind, all, led, chosen) },
            kind,
            cells,
        );
    }
}
