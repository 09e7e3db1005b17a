// What an accepted check found, as a value of its own.
ghost use Rattle.std.specs.Prelude.{◌≡◌, ◌*◌, ◌^◌, ◌<◌, map, IfOk};

use book::books::ClosedBook;
use product_sets::Kind;
use std::alloc::{AllocError, Global};

/// The products at which each entry of a formula holds in each state. It owns all that it says, so it goes on
/// saying the same whatever becomes of the kind, the cells and the book that it was made from.
#[derive(Drop)]
pub struct Table {
    /// How many entries the formula has.
    pub entries: usize,
    /// How many states the book has.
    pub states: usize,
    /// For each product its column: whether the entry holds, entry after entry and state after state.
    pub columns: Vec<Vec<bool>>,
    pub ghost fits: { entries * states < 2 ^ 64 },
}

// Whether a product is in each of the cells.
fn column_of<K: Kind>(
    alloc: Global,
    product: usize,
    kind: &K,
    cells: &[K::Set],
) -> Result<Vec<bool>, AllocError>
    ensures { IfOk result (λ v. v.items ≡ map (λ set. K.means kind.now set product) cells.now) }
{
    cells
        .iter()
        .map(|set| kind.has(*set, product))
        .collect(alloc)
}

impl Table {
    ghost use Rattle.std.specs.Prelude.{◌≤◌, length, option_map};
    ghost use Rattle.book.specs.Contents.{closed_contents};
    ghost use Rattle.histories.specs.Tables.{column, holds, Reads};

    // What the cells mean after an accepted check of so many entries on the book.
    pub(crate) fn read<K: Kind>(
        alloc: Global,
        book: &ClosedBook,
        entries: usize,
        kind: &K,
        cells: &[K::Set],
    ) -> Result<Table, AllocError>
        requires { entries * (closed_contents book.now).states ≤ length cells.now }
        ensures { IfOk result (λ table.
            Reads (closed_contents book.now) entries (K.means kind.now) cells.now table) }
    {
        let states = book.states();
        let rows = &cells[..entries * states];
        let mut columns = Vec::new(alloc);
        for product in 0..book.products().len() {
            columns.push(column_of(alloc, product, kind, rows)?)?;
        }
        Ok(Table {
            entries,
            states,
            columns,
        })
    }

    /// Whether an entry holds in a state at a product; where one of them is out of range it does not.
    pub fn holds(&self, entry: usize, state: usize, product: usize) -> bool
        ensures { result ≡ holds self.now entry state product }
    {
        let Some(column) = self.column(product) else {
            return false;
        };
        entry < self.entries
            && state < self.states
            && column
                .get(entry * self.states + state)
                .copied()
                .unwrap_or(false)
    }

    /// The answers at a product, entry after entry and state after state.
    pub fn column(&self, product: usize) -> Option<&[bool]>
        ensures { option_map (λ bits. bits.now) result ≡ column self.now product }
    {
        self.columns.get(product).map(Vec::as_slice)
    }
}
