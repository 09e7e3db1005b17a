// The walk through a formula table, which evaluates each entry after its parts.
ghost use Rattle.std.specs.Prelude.{◌≡◌, ℕ, ◌≤◌, [], ◌∷◌, None, T, not, ◌&&◌, ◌||◌};
ghost use Rattle.formulas.specs.Tables.{entry, parts, bound_variable, Names};
ghost use Rattle.semantics.specs.Evaluation.{Begins};
ghost use Rattle.checker.specs.Readings.{Reads, Builds};
ghost use Rattle.checker.specs.Gathered.{family_of, rows_of, Begun, Walked, Rounded, EntryRow};
ghost use Rattle.checker.specs.Walks.{InRow, WritesRow};

use crate::rows::without;
use crate::walk::Walk;
use formulas::Node;
use product_sets::Kind;

impl<K: Kind> Walk<'_, K> {
    // Writes the row of entry n: of a constant, a connective or a modality from the rows of its parts, of a variable that of
    // its nearest fixpoint, and of a fixpoint what it starts from.
    fn enter(&self, n: usize, kind: &mut K, cells: &mut [K::Set])
        requires begun { Begun K.holds K.means self.now n kind.old cells.old }
        requires parts { bound_variable (entry self.now.tables.nodes.now n) ≡ None
            → (c : ℕ) → Names c (entry self.now.tables.nodes.now n)
            → InRow (K.holds kind.old) self.now.view.states cells.old c }
        ensures writes { WritesRow K.holds K.means self.now.view.states n kind.old cells.old kind.new cells.new }
        ensures value { Reads K.holds K.means kind.new (λ m. EntryRow (family_of self.now.view)
            self.now.tables.exprs.now self.now.tables.nodes.now (rows_of m self.now cells.old) n
            (entry self.now.tables.nodes.now n) (rows_of m self.now cells.new n)) }
    {
        let all = self.all;
        match self.tables.nodes[n] {
            Node::False | Node::Least(_, _) => {
                let none = kind.none();
                self.fill(n, none, kind, cells);
            }
            Node::True | Node::Greatest(_, _) => self.fill(n, all, kind, cells),
            Node::Not(c) => self.combine(
                n,
                c,
                c,
                |kind, set, _|
                    ensures { Builds K.holds K.means kind.old kind.new (K.holds kind.old all × K.holds kind.old set)
                        (λ m p. m all p && not (m set p)) result }
                { without(kind, all, set) },
                kind,
                cells,
            ),
            Node::Or(c, d) => self.combine(n, c, d, |kind, a, b| kind.join(a, b), kind, cells),
            Node::And(c, d) => self.combine(n, c, d, |kind, a, b| kind.meet(a, b), kind, cells),
            Node::Diamond { action, expr, part } => {
                self.diamond(action, self.satisfied[expr], n, part, kind, cells);
            }
            Node::Box { action, expr, part } => {
                self.box_over(action, self.satisfied[expr], n, part, kind, cells);
            }
            Node::Variable(_) => self.copy(n, self.tables.fixpoints[n], kind, cells),
        }
    }

    // Evaluates entry n and all entries under it.
    #[cycle(iterate_walk)]
    pub(crate) fn walk(&self, n: usize, kind: &mut K, cells: &mut [K::Set])
        requires { Begun K.holds K.means self.now n kind.old cells.old }
        ensures { Walked K.holds K.means self.now n kind.old cells.old kind.new cells.new }
    {
        match self.tables.nodes[n] {
            Node::False | Node::True | Node::Variable(_) => self.enter(n, kind, cells),
            Node::Not(c) | Node::Diamond { part: c, .. } | Node::Box { part: c, .. } => {
                self.walk(c, kind, cells);
                self.enter(n, kind, cells);
            }
            Node::Or(c, d) | Node::And(c, d) => {
                self.walk(c, kind, cells);
                self.walk(d, kind, cells);
                self.enter(n, kind, cells);
            }
            Node::Least(_, c) | Node::Greatest(_, c) => {
                self.enter(n, kind, cells);
                self.iterate(n, c, kind, cells);
            }
        }
    }

    // Goes on from the row of a fixpoint n over the part c, by rounds, until a round changes nothing.
    #[cycle(iterate_walk)]
    fn iterate(&self, n: usize, c: usize, kind: &mut K, cells: &mut [K::Set])
        requires begun { Begun K.holds K.means self.now n kind.old cells.old }
        requires part { parts (entry self.now.tables.nodes.now n) ≡ c ∷ [] }
        requires held { InRow (K.holds kind.old) self.now.view.states cells.old n }
        requires begins { Reads K.holds K.means kind.old (λ m. Begins (family_of self.now.view)
            (entry self.now.tables.nodes.now n) (rows_of m self.now cells.old n)) }
        ensures { Rounded K.holds K.means self.now n c kind.old cells.old kind.new cells.new }
    {
        // A loop, since how many rounds it takes is not known before.
        'rounds: loop {
            self.walk(c, kind, cells);
            if self.same_rows(n, c, kind, cells) {
                break 'rounds;
            }
            self.copy(n, c, kind, cells);
        }
    }
}
