// A book between two calls of a history.
ghost use Rattle.std.specs.Prelude.{◌≡◌, ℕ, length, IfOk};
ghost use Rattle.book.specs.Contents.{closed_contents};
ghost use Rattle.histories.specs.Ledger.{next_standing};
ghost use Rattle.histories.specs.Logs.{IsReply, IsReplyToCheck};
ghost use Rattle.histories.specs.Phases.{standing_of};
ghost use Rattle.histories.specs.Runs.{Leaves, CheckLeaves};
ghost use Rattle.histories.specs.declared.phase.Phase.TheVariants.{Open};

use crate::calls::Call;
use crate::log::Reply;
use crate::table::Table;
use book::books::{ClosedBook, OpenBook};
use families::ACCEPTED;
use formulas::{Expr, Node};
use product_sets::Kind;
use std::alloc::{AllocError, Global};

// A book that is open or closed.
#[derive(Drop)]
pub(crate) enum Phase {
    Open(OpenBook),
    Closed(ClosedBook),
}

// A call on an open book. It is no check, so its reply is one whatever the kind and the cells.
fn call_open(mut book: OpenBook, call: &Call<'_>) -> (Phase, Reply)
    ensures standing { standing_of result.0 ≡ next_standing (standing_of (Open book)) call.now }
    ensures reply { (places cells : ℕ)
        → IsReply places cells (standing_of (Open book)) call.now result.1 }
{
    let (number, value) = match call {
        Call::AddProduct(configuration) => book.add_product(*configuration),
        Call::AddTransition(transition) => book.add_transition(*transition),
        Call::Strike(transition) => book.strike(*transition),
        Call::Load(bytes) => book.load(bytes),
        Call::Close => return (Phase::Closed(book.close()), Reply::Done),
        Call::Check(_, _) | Call::Reopen => return (Phase::Open(book), Reply::NotAdmitted),
    };
    (Phase::Open(book), Reply::Answer(number, value))
}

// A check on a closed book, and the table of an accepted one. Where memory ends at the table the check is
// done.
fn check<K: Kind>(
    alloc: Global,
    book: &ClosedBook,
    exprs: &[Expr],
    nodes: &[Node],
    kind: &mut K,
    cells: &mut [K::Set],
) -> Result<Reply, AllocError>
    ensures reply { IfOk result (λ reply. IsReplyToCheck K.places (length cells.old)
        (closed_contents book.now) exprs.now nodes.now reply) }
    ensures left { CheckLeaves K.holds K.means K.places
        (closed_contents book.now) exprs.now nodes.now kind.old cells.old kind.new cells.new }
{
    let (number, value) = book.check(exprs, nodes, kind, cells);
    if number != ACCEPTED {
        return Ok(Reply::Answer(number, value));
    }
    let table = Table::read(alloc, book, nodes.len(), kind, cells)?;
    Ok(Reply::Checked(value, table))
}

impl Phase {
    // The book after a call, and what became of the call. Where memory ends the call is done.
    pub(crate) fn after<K: Kind>(
        self,
        alloc: Global,
        call: &Call<'_>,
        kind: &mut K,
        cells: &mut [K::Set],
    ) -> Result<(Phase, Reply), AllocError>
        ensures standing { IfOk result (λ after.
            standing_of after.0 ≡ next_standing (standing_of self) call.now) }
        ensures reply { IfOk result (λ after. IsReply K.places (length cells.old)
            (standing_of self) call.now after.1) }
        ensures left { Leaves K.holds K.means K.places
            (standing_of self) call.now kind.old cells.old kind.new cells.new }
    {
        match self {
            Phase::Open(book) => Ok(call_open(book, call)),
            Phase::Closed(book) => match call {
                Call::Reopen => Ok((Phase::Open(book.reopen()), Reply::Done)),
                Call::Check(exprs, nodes) => {
                    let reply = check(alloc, &book, exprs, nodes, kind, cells)?;
                    Ok((Phase::Closed(book), reply))
                }
                _ => Ok((Phase::Closed(book), Reply::NotAdmitted)),
            },
        }
    }
}
