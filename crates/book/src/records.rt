// One record of eight bytes.
ghost use Rattle.std.specs.Prelude.{◌≡◌};
ghost use Rattle.book.specs.Records.{record_in};

use families::{MAX_PRODUCTS, MAX_TRANSITIONS, Transition};

/// How many bytes a record has.
pub const RECORD_BYTES: usize = 8;

/// How many bytes a load has at most: as many as the records of a full book have.
pub const MAX_BYTES: usize = (MAX_PRODUCTS + MAX_TRANSITIONS) * RECORD_BYTES;

/// What a record asks for: a product by its configuration, or a transition.
#[derive(Clone, Copy)]
pub enum Record {
    AddProduct(u16),
    AddTransition(Transition),
}

/// What eight bytes ask for, or none if they are no record. Numbers of two bytes have the low byte first.
pub fn read(bytes: [u8; RECORD_BYTES]) -> Option<Record>
    ensures { result ≡ record_in bytes }
{
    match bytes {
        [b'P', a, b, 0, 0, 0, 0, 0] => Some(Record::AddProduct(u16::from_le_bytes([a, b]))),
        [b'T', source, action, target, a, b, c, d] => Some(Record::AddTransition(Transition {
            source,
            action,
            target,
            required: u16::from_le_bytes([a, b]),
            excluded: u16::from_le_bytes([c, d]),
        })),
        [b'M', source, action, target, 0, 0, 0, 0] => Some(Record::AddTransition(Transition {
            source,
            action,
            target,
            required: 0,
            excluded: 0,
        })),
        _ => None,
    }
}
