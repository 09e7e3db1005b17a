// What the calls of a run are answered.
ghost use Rattle.histories.specs.Logs.{HoldsPlainTables};

use crate::calls::History;
use crate::table::Table;

/// What became of one call of a history.
#[derive(Drop)]
pub enum Reply {
    /// The book's state does not admit the call, and it was left out.
    NotAdmitted,
    /// The book was closed or reopened, which is never refused and answers nothing.
    Done,
    /// The number and the value of an addition, a strike, a load, or a refused check.
    Answer(u8, usize),
    /// The value of an accepted check, whose number is 0, and what it found.
    Checked(usize, Table),
}

/// The log of a run: for each call of its history, in order, what became of it.
#[derive(Drop)]
pub struct Log<'c, 'b> {
    /// The history that was run.
    pub history: History<'c, 'b>,
    /// The number and the value of opening.
    pub opening: (u8, usize),
    /// The replies to the calls, in order.
    pub replies: Vec<Reply>,
    /// Every table is plain checking on the ledger of its call, so who reads a log need ask for no more.
    pub ghost plain: { ∥ HoldsPlainTables history.states history.calls.now replies.items ∥₁ },
}

impl Log<'_, '_> {
    ghost use Rattle.std.specs.Prelude.{◌≡◌};
    ghost use Rattle.std.specs.Option.{option_copied};
    ghost use Rattle.histories.specs.Logs.{table_at};

    /// The table of an accepted check, by its position among the calls; none if that call is not one.
    pub fn table(&self, position: usize) -> Option<&Table>
        ensures { option_copied result ≡ table_at self.now.replies.items position }
    {
        match self.replies.get(position) {
            Some(Reply::Checked(_, table)) => Some(table),
            _ => None,
        }
    }
}
