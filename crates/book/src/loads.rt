// Loading from bytes.
ghost use Rattle.std.specs.Prelude.{◌≡◌};
ghost use Rattle.book.specs.Answers.{answer_of};
ghost use Rattle.book.specs.Records.{record_in};
ghost use Rattle.book.specs.Loads.{record_result, record_after, load_answer, load_after};
ghost use Rattle.book.specs.LoadLaw.{beginning, Loaded};
ghost use Rattle.book.specs.Contents.{family, contents};

use crate::books::OpenBook;
use crate::contents::Contents;
use crate::records::{MAX_BYTES, RECORD_BYTES, Record, read};
use crate::refusals::{Refusal, answer};
use families::ACCEPTED;

impl Contents {
    // Takes out all but the first products and transitions.
    fn cut_back(&mut self, products: usize, transitions: usize)
        ensures { family self.new ≡ beginning (family self.old) products transitions }
    {
        self.products.truncate(products);
        self.transitions.truncate(transitions);
    }
}

impl OpenBook {
    // Makes the call that a record asks for, and answers as it does.
    fn enter(&mut self, bytes: [u8; RECORD_BYTES]) -> (u8, usize)
        ensures answer { result ≡ answer_of (record_result (contents self.old) (record_in bytes)) }
        ensures book { contents self.new ≡ record_after (contents self.old) (record_in bytes) }
    {
        match read(bytes) {
            Some(Record::AddProduct(configuration)) => self.add_product(configuration),
            Some(Record::AddTransition(transition)) => self.add_transition(transition),
            None => answer(Err(Refusal::BadRecord)),
        }
    }

    /// Enters every record of eight bytes in order; the first bad one keeps the whole load out. Accepted, the
    /// value is the count of records; refused at a record, by 2 to 6 or 9, it is that record's number.
    /// Refused by 8 if the length is no multiple of 8 or is above 3,648.
    pub fn load(&mut self, bytes: &[u8]) -> (u8, usize)
        ensures answer { result ≡ load_answer (contents self.old) bytes.now }
        ensures book { contents self.new ≡ load_after (contents self.old) bytes.now }
        ensures law { Loaded (contents self.old) bytes.now result.0 result.1 (contents self.new) }
    {
        if bytes.len() % RECORD_BYTES != 0 || bytes.len() > MAX_BYTES {
            return answer(Err(Refusal::BadLength));
        }
        let products = self.contents.products.len();
        let transitions = self.contents.transitions.len();
        let (records, _) = bytes.as_chunks::<RECORD_BYTES>();
        for (i, record) in records.iter().enumerate() {
            let (number, _) = self.enter(*record);
            if number != ACCEPTED {
                self.contents.cut_back(products, transitions);
                return (number, i);
            }
        }
        (ACCEPTED, records.len())
    }
}
