// Three runs of a family, told one after the other.
ghost use Rattle.std.specs.Prelude.{◌≡◌, IfOk, string_bytes};
ghost use Rattle.order_report.specs.Orders.{IsRun, IsReport};

use crate::lines::{check_text, comparison_text};
use histories::calls::History;
use histories::log::Log;
use histories::run::run;
use product_sets::{Kind, Mask, Range};
use std::alloc::{AllocError, Global};

// Enough for a rule of 16 entries over 4 states. A check that wants more is refused.
const CELLS: usize = 64;

// Runs a history with a kind of product set.
fn logged<'c, 'b, K: Kind>(
    alloc: Global,
    history: History<'c, 'b>,
    kind: &mut K,
) -> Result<Log<'c, 'b>, AllocError>
    ensures { IfOk result (λ log. IsRun K.places history.entry log) }
{
    let mut cells = [kind.none(); CELLS];
    run(alloc, history, kind, &mut cells)
}

/// What lost_step writes of three histories of one family: with the transitions in the given order, with the
/// same transitions sorted, and with one of them lost. It writes the rule, which is given in words; what the
/// check of each finds, which is the call at this position, from 0, in all three; and for each product of
/// the last two whether its column is the one of the given order. Each check has 64 cells, and one that
/// wants more is refused. An error is want of memory.
pub fn orders_text(
    alloc: Global,
    rule: &str,
    given: History<'_, '_>,
    sorted: History<'_, '_>,
    lost: History<'_, '_>,
    position: usize,
) -> Result<String, AllocError>
    ensures { IfOk result (λ text.
        IsReport rule.now given.entry sorted.entry lost.entry position (string_bytes text)) }
{
    let given_log = logged(alloc, given, &mut Mask)?;
    let sorted_log = logged(alloc, sorted, &mut Range)?;
    let lost_log = logged(alloc, lost, &mut Range)?;
    let given_check = check_text(alloc, &given_log, position)?;
    let sorted_check = check_text(alloc, &sorted_log, position)?;
    let sorted_columns = comparison_text(alloc, &sorted_log, &given_log, position)?;
    let lost_check = check_text(alloc, &lost_log, position)?;
    let lost_columns = comparison_text(alloc, &lost_log, &given_log, position)?;
    format!(in alloc;
        "rule: {rule}\n\
        transitions in the given order, with the mask kind\n{given_check}\
        transitions sorted by their condition, with the range kind\n{sorted_check}\
        compared with the given order\n{sorted_columns}\
        the third transition lost, with the range kind\n{lost_check}\
        compared with the given order\n{lost_columns}"
    )
}
