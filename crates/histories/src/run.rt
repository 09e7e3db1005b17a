// The run of a history on a book.
ghost use Rattle.std.specs.Prelude.{◌≡◌, length, IfOk, OnErr};
ghost use Rattle.histories.specs.Logs.{HistoryLaw};
ghost use Rattle.histories.specs.Runs.{Runs, RunsFront};

use crate::calls::History;
use crate::log::Log;
use crate::phase::Phase;
use book::books::OpenBook;
use product_sets::Kind;
use std::alloc::{AllocError, Global};

/// Opens a book and makes the calls of a history on it, its checks with this kind and in these cells, of
/// which a check wants entries × states. Where memory ends the run does too, with the kind and the cells as
/// the calls up to there leave them.
pub fn run<'c, 'b, K: Kind>(
    alloc: Global,
    history: History<'c, 'b>,
    kind: &mut K,
    cells: &mut [K::Set],
) -> Result<Log<'c, 'b>, AllocError>
    ensures same { IfOk result (λ log. log.history ≡ history.entry) }
    ensures law { IfOk result (λ log. HistoryLaw K.places (length cells.old)
        history.entry.states history.entry.calls.now log.opening log.replies.items) }
    ensures left { IfOk result (λ _. Runs K.holds K.means K.places
        history.entry.states kind.old cells.old history.entry.calls.now kind.new cells.new) }
    ensures failed { OnErr result (RunsFront K.holds K.means K.places
        history.entry.states kind.old cells.old history.entry.calls.now kind.new cells.new) }
{
    let (opening, book) = OpenBook::open(alloc, history.states)?;
    let mut phase = Phase::Open(book);
    let mut replies = Vec::new(alloc);
    for call in history.calls {
        let (next, reply) = phase.after(alloc, call, kind, cells)?;
        phase = next;
        replies.push(reply)?;
    }
    Ok(Log {
        history,
        opening,
        replies,
    })
}
