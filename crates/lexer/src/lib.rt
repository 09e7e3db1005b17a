//! Cuts a formula text into tokens.
#![tactic(auto)]

mod tokens;

ghost use Rattle.std.specs.Prelude.{◌≡◌, ℕ, ◌+◌, ◌<◌, ◌≤◌, ◌↔◌, IsTrue, length, drop, slice_index};
ghost use Rattle.lexer.specs.Tokens.{Name, NoWord, in_name, tok};
ghost use Rattle.lexer.specs.Cuts.{after_spaces, after_name, word_of, tok_of, place_of, seen, first_at, cut_at, Onward, Lawful};

pub use tokens::{LONGEST_TEXT, Text};

// How many bytes a name has at most.
const LONGEST_NAME: usize = 12;

/// The tokens that are always spelled alike: `mu nu true false ! && || | < > [ ] ( ) .`
#[derive(Clone, Copy, PartialEq, Eq)]
pub enum Sign {
    Mu,
    Nu,
    True,
    False,
    Not,
    And,
    Or,
    Bar,
    Less,
    Greater,
    LeftBracket,
    RightBracket,
    Open,
    Close,
    Dot,
}

/// A token with its place, which is that of its first byte in the text. A name is the part of the text
/// that spells it; a variable (the makers' letter) is numbered 0 to 25 for A to Z. Two bytes hold any place
/// of a `Text`, and standing first they keep a token within 24 bytes; in a longer text `Found` has the
/// place.
#[derive(Clone, Copy)]
pub enum Token<'t> {
    Sign(u16, Sign),
    Variable(u16, u8),
    Name(u16, &'t [u8]),
}

impl<'t> Token<'t> {
    /// The place of the token's first byte, where that is below 65,536.
    pub fn place(self) -> usize
        ensures { result ≡ place_of self.entry }
    {
        match self {
            Token::Name(place, _) | Token::Variable(place, _) | Token::Sign(place, _) => {
                usize::from(place)
            }
        }
    }
}

/// The place of a byte with which no token begins, or where a name begins that is too long.
#[derive(Clone, Copy, Debug, PartialEq, Eq)]
pub struct NoToken(pub usize);

// The bytes from a place on: none past the end.
fn rest(text: &[u8], from: usize) -> &[u8]
    ensures { result.now ≡ drop from text.now }
{
    text.get(from..).unwrap_or(&[])
}

fn past_spaces(text: &[u8], from: usize) -> usize
    ensures value { result ≡ after_spaces text.now from }
    ensures within { from ≤ length text.now → result ≤ length text.now }
    ensures on { from ≤ result }
{
    from + rest(text, from).iter().take_while(|b| **b == b' ').count()
}

// Bytes are taken as chars here and below, so that chars stand in the patterns.
fn is_in_name(c: char) -> bool
    ensures { result ≡ in_name c }
{
    matches!(c, 'a'..='z' | '0'..='9')
}

fn past_name(text: &[u8], from: usize) -> usize
    ensures value { result ≡ after_name text.now from }
    ensures within { from ≤ length text.now → result ≤ length text.now }
    ensures on { from ≤ result }
{
    from + rest(text, from)
        .iter()
        .take_while(|b| is_in_name(**b as char))
        .count()
}

// A run of small letters and digits as a token: one of the four words, or a name.
fn word(bytes: &[u8], place: u16) -> Token<'_>
    ensures { tok_of result ≡ tok (word_of bytes.now) place }
{
    match bytes {
        b"mu" => Token::Sign(place, Sign::Mu),
        b"nu" => Token::Sign(place, Sign::Nu),
        b"true" => Token::Sign(place, Sign::True),
        b"false" => Token::Sign(place, Sign::False),
        _ => Token::Name(place, bytes),
    }
}

// The byte at a place, or 0 past the end: 0 begins no token and pairs with none, so a guard needs no Option.
fn byte_at(text: &[u8], at: usize) -> u8
    ensures { result ≡ slice_index text.now at }
{
    text.get(at).copied().unwrap_or(0)
}

/// A token that was found, the place of its first byte, and the place where the text goes on. In a text
/// of more than 65,536 bytes `start` is what to go by: the token's own place is exact below 65,536 only.
#[derive(Clone, Copy)]
pub struct Found<'t> {
    pub token: Token<'t>,
    pub start: usize,
    pub end: usize,
}

// The longest token at a place where a byte stands.
fn first_token(text: &[u8], at: usize) -> Result<Option<Found<'_>>, NoToken>
    requires { at < length text.now }
    ensures value { seen result ≡ first_at text.now at }
    ensures onward { Onward result at (length text.now) }
{
    let next = byte_at(text, at + 1) as char;
    // The low two bytes of the place: all of it in a `Text`.
    let place = (at % 65_536) as u16;
    let (token, end) = match text[at] as char {
        'a'..='z' => {
            let end = past_name(text, at);
            if end - at > LONGEST_NAME {
                return Err(NoToken(at));
            }
            (word(&text[at..end], place), end)
        }
        'A'..='Z' => (Token::Variable(place, text[at] - b'A'), at + 1),
        '&' if next == '&' => (Token::Sign(place, Sign::And), at + 2),
        '|' if next == '|' => (Token::Sign(place, Sign::Or), at + 2),
        '|' => (Token::Sign(place, Sign::Bar), at + 1),
        '!' => (Token::Sign(place, Sign::Not), at + 1),
        '<' => (Token::Sign(place, Sign::Less), at + 1),
        '>' => (Token::Sign(place, Sign::Greater), at + 1),
        '[' => (Token::Sign(place, Sign::LeftBracket), at + 1),
        ']' => (Token::Sign(place, Sign::RightBracket), at + 1),
        '(' => (Token::Sign(place, Sign::Open), at + 1),
        ')' => (Token::Sign(place, Sign::Close), at + 1),
        '.' => (Token::Sign(place, Sign::Dot), at + 1),
        _ => return Err(NoToken(at)),
    };
    Ok(Some(Found {
        token,
        start: at,
        end,
    }))
}

/// The token that comes next from a place on, with spaces skipped, if the text does not end there; or
/// the place where none begins. The text may have any length, and the place may be any.
pub fn next_token(text: &[u8], from: usize) -> Result<Option<Found<'_>>, NoToken>
    ensures longest { Lawful text.now from (seen result) }
    ensures value { seen result ≡ cut_at text.now from }
    ensures onward { Onward result from (length text.now) }
{
    let at = past_spaces(text, from);
    if at < text.len() {
        first_token(text, at)
    } else {
        Ok(None)
    }
}

/// Whether bytes are a name: 1 to 12 small letters and digits, a small letter first, and none of the four
/// words.
pub fn is_name(bytes: &[u8]) -> bool
    ensures { IsTrue result ↔ Name bytes.now }
{
    bytes.len() <= LONGEST_NAME
        && past_name(bytes, 0) == bytes.len()
        && byte_at(bytes, 0).is_ascii_lowercase()
        && is_no_word(bytes)
}

fn is_no_word(bytes: &[u8]) -> bool
    ensures { IsTrue result ↔ NoWord bytes.now }
{
    matches!(word(bytes, 0), Token::Name(_, _))
}
