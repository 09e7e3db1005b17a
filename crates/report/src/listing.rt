//! What own_steps writes: the own transitions of every product of a family file.
ghost use Rattle.std.specs.Prelude.{◌≡◌, ◌++◌, IfOk, codes, string_bytes};
ghost use Rattle.families.specs.Families.{count};
ghost use Rattle.book.specs.Contents.{closed_contents};
ghost use Rattle.report.specs.Sessions.{line_of};
ghost use Rattle.report.specs.Listings.{Listed, Listing, Lists, own_line, product_line};

use crate::session::Unopened;
use book::books::{ClosedBook, OpenBook};
use book::own::OwnTransition;
use families::{ACCEPTED, MAX_STATES};
use std::alloc::{AllocError, Global};

// The line of a product.
fn product(alloc: Global, number: usize, configuration: u16) -> Result<String, AllocError>
    ensures { IfOk result (λ text. string_bytes text ≡ product_line number configuration) }
{
    format!(in alloc; "product {number} configuration {configuration}\n")
}

// The line of an own transition.
fn own_transition(alloc: Global, own: OwnTransition) -> Result<String, AllocError>
    ensures { IfOk result (λ text. string_bytes text ≡ own_line own) }
{
    format!(in alloc; "  {} {} {}\n", own.source, own.action, own.target)
}

// The line of a product and those of its own transitions.
fn list_product(
    alloc: Global,
    book: &ClosedBook,
    number: usize,
    configuration: u16,
) -> Result<String, AllocError>
    ensures { IfOk result (λ text.
        Lists (closed_contents book.now) number configuration (string_bytes text)) }
{
    let mut text = product(alloc, number, configuration)?;
    for own in &book.own_transitions(alloc, number)? {
        text.push_str(&own_transition(alloc, *own)?)?;
    }
    Ok(text)
}

// The lines of every product of a book.
fn list_products(alloc: Global, book: &ClosedBook) -> Result<String, AllocError>
    ensures { IfOk result (λ text.
        Listing (closed_contents book.now) (count (closed_contents book.now)) (string_bytes text)) }
{
    let mut text = String::new(alloc);
    for (number, configuration) in book.products().iter().enumerate() {
        text.push_str(&list_product(alloc, book, number, *configuration)?)?;
    }
    Ok(text)
}

// The one line of a refused load.
fn refused(alloc: Global, unopened: Unopened) -> Result<String, AllocError>
    ensures { IfOk result (λ text. string_bytes text ≡ line_of unopened ++ codes "\n") }
{
    format!(in alloc; "{unopened}\n")
}

/// What own_steps writes for the bytes of a family file: a line for each product and for each of its own
/// transitions, or the refusal of the load. An error is want of memory.
pub fn own_steps(alloc: Global, family: &[u8]) -> Result<String, AllocError>
    ensures { IfOk result (λ text. Listed family.now (string_bytes text)) }
{
    let (_, mut book) = OpenBook::open(alloc, MAX_STATES)?;
    let (number, value) = book.load(family);
    if number != ACCEPTED {
        return refused(alloc, Unopened::Book(number, value));
    }
    list_products(alloc, &book.close())
}
