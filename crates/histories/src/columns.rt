// The columns of products, compared.
use crate::log::Log;

/// The column of a product in an accepted check.
#[derive(Clone, Copy)]
pub struct Column<'l, 'c, 'b> {
    /// The log of the run that made the check.
    pub log: &'l Log<'c, 'b>,
    /// Which call of the run the check was, from 0.
    pub position: usize,
    /// The product's number.
    pub product: usize,
}

impl Column<'_, '_, '_> {
    ghost use Rattle.histories.specs.Columns.{Compares, ColumnLaw};

    /// Whether the product has the same answers as another, of this run or of another one, at every entry and
    /// state. None unless both are products in accepted checks with equally many entries and states. Answers
    /// to different formulas are compared as they are.
    pub fn equals(&self, other: &Column<'_, '_, '_>) -> Option<bool>
        ensures answer { Compares self.now other.now result }
        ensures law { ColumnLaw self.now other.now }
    {
        let table = self.log.table(self.position)?;
        let others = other.log.table(other.position)?;
        if table.entries != others.entries || table.states != others.states {
            return None;
        }
        Some(table.column(self.product)? == others.column(other.product)?)
    }
}
