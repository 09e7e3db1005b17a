// A session: a family and two word lists, against which formula texts are checked.
ghost use Rattle.std.specs.Prelude.{◌≡◌, ◌≤◌, length, IfOk, Some, vec_items};
ghost use Rattle.words.specs.Words.{InForm};
ghost use Rattle.formulas.specs.Tables.{formula_at, last};

use crate::digits::Digits;
use crate::verdict::Refused;
use book::books::{ClosedBook, OpenBook};
use families::{ACCEPTED, MAX_STATES};
use formulas::judge::{MAX_ENTRIES, SoundTables, judge};
use formulas::{Expr, Node};
use product_sets::{Kind, Mask};
use reader::{MAX_ACTIONS, MAX_FEATURES, Vocabulary, read_with};
use std::alloc::{AllocError, Global};
use std::fmt;
use words::Names;

// A cell for each entry and state.
const CELLS: usize = MAX_ENTRIES * MAX_STATES;

// A family, and two word lists that were found to keep their form.
#[derive(Drop)]
pub struct Session {
    book: ClosedBook,
    actions: Vec<u8>,
    features: Vec<u8>,
    ghost action_form: { ∥ InForm 64 (vec_items actions) ∥₁ },
    ghost feature_form: { ∥ InForm 16 (vec_items features) ∥₁ },
}

// Why a session does not begin: the refusal of the family file and its value, or word lists that do not keep their form.
#[derive(Clone, Copy, Debug, PartialEq, Eq)]
pub enum Unopened {
    Book(u8, usize),
    Words,
}

// The one line that is written then.
impl fmt::Display for Unopened {
    ghost use Rattle.report.specs.Sessions.{line_of};

    ghost output = { λ u. Some (line_of u) };

    fn fmt<W: fmt::Write>(&self, f: &mut fmt::Formatter<W>) -> fmt::Result {
        match self {
            Unopened::Book(number, value) => write!(f, "book {number} {value}"),
            Unopened::Words => f.write_str("words 21 0"),
        }
    }
}

impl Session {
    ghost use Rattle.report.specs.Answers.{Answer, Checked};
    ghost use Rattle.report.specs.Sessions.{Opens, family_of, actions_of, features_of};
    ghost use Rattle.report.specs.Verdicts.{outcome_of};

    // Loads a family file into a book of 64 states and takes over both word lists.
    pub fn open(
        heap: Global,
        family: &[u8],
        actions: Vec<u8>,
        features: Vec<u8>,
    ) -> Result<Result<Session, Unopened>, AllocError>
        ensures { IfOk result (Opens family.now actions.items features.items) }
    {
        let (_, mut book) = OpenBook::open(heap, MAX_STATES)?;
        let (number, value) = book.load(family);
        if number != ACCEPTED {
            return Ok(Err(Unopened::Book(number, value)));
        }
        if Vocabulary::new(&actions, &features).is_none() {
            return Ok(Err(Unopened::Words));
        }
        Ok(Ok(Session {
            book: book.close(),
            actions,
            features,
        }))
    }

    // The names of both word lists, which were checked when the session was opened.
    fn names(&self) -> Vocabulary<'_>
        ensures actions { result.actions.list.now ≡ actions_of self.now }
        ensures features { result.features.list.now ≡ features_of self.now }
    {
        Vocabulary {
            actions: Names {
                list: &self.actions,
                limit: MAX_ACTIONS,
            },
            features: Names {
                list: &self.features,
                limit: MAX_FEATURES,
            },
        }
    }

    // Reads a text and checks its formula for every product.
    pub fn verdict(&self, text: &[u8]) -> Result<Digits, Refused>
        ensures { Answer (family_of self.now) (actions_of self.now) (features_of self.now) text.now (outcome_of result) }
    {
        let mut exprs = [Expr::False; MAX_ENTRIES];
        let mut nodes = [Node::False; MAX_ENTRIES];
        let count = read_with(text, self.names(), &mut exprs, &mut nodes)?;
        match judge(&exprs, &nodes[..count]) {
            Err(unsound) => {
                let (number, value) = unsound.into();
                Err(Refused { number, value })
            }
            Ok(tables) => self.checked_by_mask(&tables),
        }
    }

    // Checks judged tables with the mask. The cells are made here, since what is refused before needs none.
    fn checked_by_mask(&self, tables: &SoundTables<'_>) -> Result<Digits, Refused>
        ensures { Checked (family_of self.now) tables.now.exprs.now tables.now.nodes.now
            (formula_at tables.now.exprs.now tables.now.nodes.now (last tables.now.nodes.now))
            (outcome_of result) }
    {
        let mut kind = Mask;
        let mut cells = [kind.none(); CELLS];
        self.checked(tables, &mut kind, &mut cells)
    }

    // Checks judged tables with a kind of 64 places, in cells that suffice for all tables.
    fn checked<K: Kind>(
        &self,
        tables: &SoundTables<'_>,
        kind: &mut K,
        cells: &mut [K::Set],
    ) -> Result<Digits, Refused>
        requires { (K.places ≡ 64) × (4096 ≤ length cells.old) }
        ensures { Checked (family_of self.now) tables.now.exprs.now tables.now.nodes.now
            (formula_at tables.now.exprs.now tables.now.nodes.now (last tables.now.nodes.now))
            (outcome_of result) }
    {
        let (number, value) = self.book.check_sound(tables, kind, cells);
        if number != ACCEPTED {
            return Err(Refused { number, value });
        }
        let whole = cells[(tables.nodes.len() - 1) * self.book.states()];
        Ok(Digits::of(kind, whole, self.book.products().len()))
    }
}
