// A record as eight bytes.
ghost use Rattle.std.specs.Prelude.{◌≡◌};
ghost use Rattle.family_text.specs.Records.{record_bytes};

use book::records::{RECORD_BYTES, Record};

// Numbers of two bytes have the low byte first.
pub(crate) fn bytes(entry: Record) -> [u8; RECORD_BYTES]
    ensures { result ≡ record_bytes entry }
{
    match entry {
        Record::AddProduct(configuration) => {
            let [a, b] = configuration.to_le_bytes();
            [b'P', a, b, 0, 0, 0, 0, 0]
        }
        Record::AddTransition(t) => {
            let [a, b] = t.required.to_le_bytes();
            let [c, d] = t.excluded.to_le_bytes();
            [b'T', t.source, t.action, t.target, a, b, c, d]
        }
    }
}
