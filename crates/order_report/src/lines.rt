// The lines of a check, and those of two checks compared.
ghost use Rattle.std.specs.Prelude.{◌≡◌, IfOk, string_bytes};
ghost use Rattle.order_report.specs.Lines.{check_lines, state_line, table_lines};
ghost use Rattle.order_report.specs.Lines.{product_line, product_count, Comparison};

use histories::columns::Column;
use histories::log::{Log, Reply};
use histories::table::Table;
use std::alloc::{AllocError, Global};

// The line of a state: a digit for each product.
fn state_text(alloc: Global, table: &Table, state: usize) -> Result<String, AllocError>
    ensures { IfOk result (λ text. string_bytes text ≡ state_line table.now state) }
{
    let whole = table.entries.saturating_sub(1);
    let mut text = format!(in alloc; "  state {state}: ")?;
    for product in 0..table.columns.len() {
        let holds = table.holds(whole, state, product);
        text.push_str(if holds { "1" } else { "0" })?;
    }
    text.push_str("\n")?;
    Ok(text)
}

// The lines of an accepted check.
fn table_text(alloc: Global, value: usize, table: &Table) -> Result<String, AllocError>
    ensures { IfOk result (λ text. string_bytes text ≡ table_lines value table.now) }
{
    let mut text = format!(in alloc; "  {value} products keep the rule in state 0\n")?;
    for state in 0..table.states {
        text.push_str(&state_text(alloc, table, state)?)?;
    }
    Ok(text)
}

/// What the check at a position of a log was told, counted from 0: how many products keep the rule in state
/// 0 and, for each state, a digit for each product, 1 where the whole formula holds; or the refusal and its
/// value. For a call that answers nothing, and beyond the log, no line. An error is want of memory.
pub fn check_text(alloc: Global, log: &Log<'_, '_>, position: usize) -> Result<String, AllocError>
    ensures { IfOk result (λ text. string_bytes text ≡ check_lines log.now position) }
{
    match log.replies.get(position) {
        Some(Reply::Checked(value, table)) => table_text(alloc, *value, table),
        Some(Reply::Answer(number, value)) => format!(in alloc; "  refused {number} {value}\n"),
        _ => Ok(String::new(alloc)),
    }
}

// The line of a product, by what the comparison of its columns finds.
fn product_text(alloc: Global, product: usize, same: Option<bool>) -> Result<String, AllocError>
    ensures { IfOk result (λ text. string_bytes text ≡ product_line product same) }
{
    match same {
        Some(true) => format!(in alloc; "  product {product}: the same column\n"),
        Some(false) => format!(in alloc; "  product {product}: another column\n"),
        None => format!(in alloc; "  product {product}: not comparable\n"),
    }
}

// How many products the check at a position has columns for; none where it is no accepted check.
fn products_at(log: &Log<'_, '_>, position: usize) -> usize
    ensures { result ≡ product_count log.now position }
{
    match log.table(position) {
        Some(table) => table.columns.len(),
        None => 0,
    }
}

/// A line for each product that the check at a position has in one log or in the other: whether it has the
/// same column in both, or cannot be compared. An error is want of memory.
pub fn comparison_text(
    alloc: Global,
    log: &Log<'_, '_>,
    given: &Log<'_, '_>,
    position: usize,
) -> Result<String, AllocError>
    ensures { IfOk result (λ text. Comparison log.now given.now position (string_bytes text)) }
{
    let count = products_at(log, position).max(products_at(given, position));
    let mut text = String::new(alloc);
    for product in 0..count {
        let column = Column {
            log,
            position,
            product,
        };
        let as_given = Column {
            log: given,
            position,
            product,
        };
        let same = column.equals(&as_given);
        text.push_str(&product_text(alloc, product, same)?)?;
    }
    Ok(text)
}
