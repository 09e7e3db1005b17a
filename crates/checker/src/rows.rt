// Rows of cells, one cell for each state: entry n has the cells from n × states on.
ghost use Rattle.std.specs.Prelude.{◌≡◌, ℕ, ◌+◌, ◌*◌, ◌<◌, ◌≤◌, Bool, true, not, ◌&&◌};
ghost use Rattle.std.specs.Prelude.{All, Some, length, slice_get};
ghost use Rattle.std.specs.List.{AllWithin};
ghost use Rattle.semantics.specs.Evaluation.{SameRow};
ghost use Rattle.product_sets.specs.Cells.{in_cell};
ghost use Rattle.product_sets.specs.Kinds.{SetsKept};
ghost use Rattle.checker.specs.Readings.{Reads, Builds};
ghost use Rattle.checker.specs.Steps.{Steps, Follows};
ghost use Rattle.checker.specs.Gathered.{family_of, rows_of};
ghost use Rattle.checker.specs.Walks.{HasRow, InRow, WritesRow};

use crate::walk::Walk;
use families::MAX_STATES;
use product_sets::Kind;

// The products that are not in the set.
pub(crate) fn without<K: Kind>(kind: &mut K, all: K::Set, set: K::Set) -> K::Set
    ensures { Builds K.holds K.means kind.old kind.new (K.holds kind.old all × K.holds kind.old set)
        (λ m p. m all p && not (m set p)) result }
{
    let rest = kind.rest(set);
    kind.meet(all, rest)
}

// Writes a row, each cell by a step from the cells of two other rows.
pub(crate) fn write_row<K: Kind, F: Fn(&mut K, K::Set, K::Set) -> K::Set>(
    row: &mut [K::Set],
    left: &[K::Set; MAX_STATES],
    right: &[K::Set; MAX_STATES],
    step: F,
    kind: &mut K,
)
    requires callable { F.IsAlwaysCallable step }
    requires steps { Steps K.holds K.means (F.post step) }
    requires fits { length row.old ≤ 64 }
    requires left { AllWithin (K.holds kind.old) left.now 0 (length row.old) }
    requires right { AllWithin (K.holds kind.old) right.now 0 (length row.old) }
    ensures held { All (K.holds kind.new) row.new }
    ensures value { Reads K.holds K.means kind.new (λ m. (rule : ℕ → Bool → Bool → Bool)
        → Follows K.holds K.means (F.post step) kind.old m rule → (s p : ℕ) → s < length row.old
        → in_cell m row.new s p ≡ rule p (in_cell m left.now s p) (in_cell m right.now s p)) }
    ensures kept { SetsKept K.holds K.means kind.old kind.new }
{
    for (s, cell) in row.iter_mut().enumerate() {
        *cell = step(kind, left[s], right[s]);
    }
}

// Whether the sets of two rows mean the same, one by one.
fn same_sets<K: Kind>(left: &[K::Set], right: &[K::Set], kind: &K) -> bool
    requires { length left.now ≡ length right.now }
    ensures sound { result ≡ true → (s : ℕ) (a b : K.Set) → slice_get left.now s ≡ Some a → slice_get right.now s ≡ Some b
        → (p : ℕ) → K.means kind.now a p ≡ K.means kind.now b p }
    ensures full { ((s : ℕ) (a b : K.Set) → slice_get left.now s ≡ Some a → slice_get right.now s ≡ Some b
        → (p : ℕ) → K.means kind.now a p ≡ K.means kind.now b p) → result ≡ true }
{
    left.iter().zip(right).all(|(a, b)| kind.same(*a, *b))
}

impl<K: Kind> Walk<'_, K> {
    // A copy of the row of entry n: the cells that are read lie beside those that are written.
    pub(crate) fn row(&self, n: usize, cells: &[K::Set]) -> [K::Set; MAX_STATES]
        requires fits { HasRow self.now.view.states n cells.now }
        ensures { (s : ℕ) → s < self.now.view.states
            → slice_get result s ≡ slice_get cells.now (n * self.now.view.states + s) }
    {
        let states = self.view.states;
        let mut row = [self.all; MAX_STATES];
        row[..states].copy_from_slice(&cells[n * states..n * states + states]);
        row
    }

    // Writes the row of entry n by a step from two rows.
    pub(crate) fn write<F: Fn(&mut K, K::Set, K::Set) -> K::Set>(
        &self,
        n: usize,
        left: &[K::Set; MAX_STATES],
        right: &[K::Set; MAX_STATES],
        step: F,
        kind: &mut K,
        cells: &mut [K::Set],
    )
        requires callable { F.IsAlwaysCallable step }
        requires steps { Steps K.holds K.means (F.post step) }
        requires fits { HasRow self.now.view.states n cells.old }
        requires left { AllWithin (K.holds kind.old) left.now 0 self.now.view.states }
        requires right { AllWithin (K.holds kind.old) right.now 0 self.now.view.states }
        ensures writes { WritesRow K.holds K.means self.now.view.states n kind.old cells.old kind.new cells.new }
        ensures value { Reads K.holds K.means kind.new (λ m. (rule : ℕ → Bool → Bool → Bool)
            → Follows K.holds K.means (F.post step) kind.old m rule
            → (s p : ℕ) → s < self.now.view.states → rows_of m self.now cells.new n s p
            ≡ rule p (in_cell m left.now s p) (in_cell m right.now s p)) }
    {
        let start = n * self.view.states;
        write_row(
            &mut cells[start..start + self.view.states],
            left,
            right,
            step,
            kind,
        );
    }

    // Writes the row of entry n by a step from the rows of c and d.
    pub(crate) fn combine<F: Fn(&mut K, K::Set, K::Set) -> K::Set>(
        &self,
        n: usize,
        c: usize,
        d: usize,
        step: F,
        kind: &mut K,
        cells: &mut [K::Set],
    )
        requires callable { F.IsAlwaysCallable step }
        requires steps { Steps K.holds K.means (F.post step) }
        requires fits { (HasRow self.now.view.states n cells.old) × (HasRow self.now.view.states c cells.old)
            × (HasRow self.now.view.states d cells.old) }
        requires left { InRow (K.holds kind.old) self.now.view.states cells.old c }
        requires right { InRow (K.holds kind.old) self.now.view.states cells.old d }
        ensures writes { WritesRow K.holds K.means self.now.view.states n kind.old cells.old kind.new cells.new }
        ensures value { Reads K.holds K.means kind.new (λ m. (rule : ℕ → Bool → Bool → Bool)
            → Follows K.holds K.means (F.post step) kind.old m rule
            → (s p : ℕ) → s < self.now.view.states → rows_of m self.now cells.new n s p
            ≡ rule p (rows_of m self.now cells.old c s p) (rows_of m self.now cells.old d s p)) }
    {
        let left = self.row(c, cells);
        let right = self.row(d, cells);
        self.write(n, &left, &right, step, kind, cells);
    }

    // Writes one set into each cell of entry n.
    pub(crate) fn fill(&self, n: usize, set: K::Set, kind: &mut K, cells: &mut [K::Set])
        requires fits { HasRow self.now.view.states n cells.old }
        requires held { K.holds kind.old set }
        ensures writes { WritesRow K.holds K.means self.now.view.states n kind.old cells.old kind.new cells.new }
        ensures value { Reads K.holds K.means kind.new (λ m. (s p : ℕ) → s < self.now.view.states
            → rows_of m self.now cells.new n s p ≡ m set p) }
    {
        let row = [set; MAX_STATES];
        self.write(n, &row, &row, |_, cell, _| cell, kind, cells);
    }

    // Writes the row of c into that of n.
    pub(crate) fn copy(&self, n: usize, c: usize, kind: &mut K, cells: &mut [K::Set])
        requires fits { (HasRow self.now.view.states n cells.old) × (HasRow self.now.view.states c cells.old) }
        requires held { InRow (K.holds kind.old) self.now.view.states cells.old c }
        ensures writes { WritesRow K.holds K.means self.now.view.states n kind.old cells.old kind.new cells.new }
        ensures value { Reads K.holds K.means kind.new (λ m. SameRow (family_of self.now.view)
            (rows_of m self.now cells.new n) (rows_of m self.now cells.old c)) }
    {
        let row = self.row(c, cells);
        self.write(n, &row, &row, |_, cell, _| cell, kind, cells);
    }

    // Whether the rows of two entries mean the same.
    pub(crate) fn same_rows(&self, n: usize, c: usize, kind: &K, cells: &[K::Set]) -> bool
        requires fits { (HasRow self.now.view.states n cells.now) × (HasRow self.now.view.states c cells.now) }
        ensures sound { result ≡ true → SameRow (family_of self.now.view)
            (rows_of (K.means kind.now) self.now cells.now n)
            (rows_of (K.means kind.now) self.now cells.now c) }
        ensures full { SameRow (family_of self.now.view) (rows_of (K.means kind.now) self.now cells.now n)
            (rows_of (K.means kind.now) self.now cells.now c) → result ≡ true }
    {
        let states = self.view.states;
        let left = &cells[n * states..n * states + states];
        let right = &cells[c * states..c * states + states];
        same_sets(left, right, kind)
    }
}
