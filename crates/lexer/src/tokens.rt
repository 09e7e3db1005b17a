// The tokens of a text, in a table.
ghost use Rattle.std.specs.Prelude.{◌≡◌, ◌<◌, ◌≤◌, length, take, MatchOption, MatchResult};

use crate::{NoToken, Token, next_token};

/// How many bytes a text has at most.
pub const LONGEST_TEXT: usize = 1024;

/// A text of at most 1,024 bytes.
#[derive(Clone, Copy)]
pub struct Text<'t> {
    bytes: &'t [u8],
    ghost short: { length bytes.now ≤ 1024 },
}

impl<'t> Text<'t> {
    ghost use Rattle.lexer.specs.Texts.{TokensOf, NoTokenAt, toks};

    /// The text, unless it is too long.
    pub fn new(bytes: &'t [u8]) -> Option<Text<'t>>
        ensures { MatchOption result (1024 < length bytes.now)
            (λ text. (length bytes.now ≤ 1024) × (text.bytes.now ≡ bytes.now)) }
    {
        if bytes.len() > LONGEST_TEXT {
            None
        } else {
            Some(Text { bytes })
        }
    }

    /// How many bytes the text has.
    pub fn len(self) -> usize
        ensures { result ≡ length self.entry.bytes.now }
    {
        self.bytes.len()
    }

    /// Writes the tokens of the text, in order, from the start of a table, and answers their count; or
    /// answers the first place where no token begins. A text has no more tokens than bytes, so the table
    /// has room for them.
    pub fn tokens(self, table: &mut [Token<'t>; LONGEST_TEXT]) -> Result<usize, NoToken>
        ensures length { length table.new ≡ 1024 }
        ensures tokens { MatchResult result
            (λ count. (count ≤ 1024) × TokensOf self.entry.bytes.now 0 (toks (take count table.new)))
            (λ bad. NoTokenAt self.entry.bytes.now 0 bad.0) }
    {
        let mut count = 0;
        let mut at = 0;
        while let Some(found) = next_token(self.bytes, at)? {
            table[count] = found.token;
            count += 1;
            at = found.end;
        }
        Ok(count)
    }
}
