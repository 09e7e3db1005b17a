// The digits of an answer.
ghost use Rattle.std.specs.Prelude.{◌≡◌, ℕ, ◌<◌, ◌≤◌, false, Some, length, map, take, slice_index_or};
ghost use Rattle.report.specs.Lines.{digit};

use product_sets::Kind;
use std::fmt;

// One for each place of the mask.
const MAX_DIGITS: usize = 64;

// For each product whether a formula holds of it in state 0. An array and a count, since an answer is copied and no memory may be wanted for
// it, so that every text gets its answer: a `Vec` allocates, and an `ArrayVec` is not `Copy`.
#[derive(Clone, Copy)]
pub struct Digits {
    holds: [bool; MAX_DIGITS],
    count: usize,
    ghost fits: { count ≤ length holds },
}

impl Digits {
    // Which of the first `count` places are in a set.
    pub(crate) fn of<K: Kind>(kind: &K, set: K::Set, count: usize) -> Digits
        requires { count ≤ 64 }
        ensures count { result.count ≡ count }
        ensures each { (p : ℕ) → p < count → slice_index_or result.holds p false ≡ K.means kind.now set p }
    {
        let mut holds = [false; MAX_DIGITS];
        for (place, digit) in holds[..count].iter_mut().enumerate() {
            *digit = kind.has(set, place);
        }
        Digits { holds, count }
    }

    pub fn as_slice(&self) -> &[bool]
        ensures { result.now ≡ take self.now.count self.now.holds }
    {
        &self.holds[..self.count]
    }
}

// One character for each product.
impl fmt::Display for Digits {
    ghost output = { λ d. Some (map digit (take d.count d.holds)) };

    fn fmt<W: fmt::Write>(&self, f: &mut fmt::Formatter<W>) -> fmt::Result {
        for holds in self.as_slice() {
            f.write_str(if *holds { "1" } else { "0" })?;
        }
        Ok(())
    }
}
