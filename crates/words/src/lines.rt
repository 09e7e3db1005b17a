// The lines of a word list.
ghost use Rattle.std.specs.Prelude.{◌≡◌, length, ◌==◌, position};
ghost use Rattle.std.specs.Iterator.{YieldsFirstRef, at_most};
ghost use Rattle.words.specs.Cut.{cut, left};

// The lines of a list: what each byte 10 ends, and what is left after the last.
#[derive(Drop)]
pub struct Lines<'a> {
    rest: &'a [u8],
}

impl<'a> Lines<'a> {
    pub fn of(list: &'a [u8]) -> Lines<'a>
        ensures { left result ≡ cut list.now }
    {
        Lines { rest: list }
    }
}

impl<'a> Iterator for Lines<'a> {
    type Item = &'a [u8];

    ghost next_gives = { YieldsFirstRef left };

    ghost remaining = { λ l. at_most (length l.rest.now) };

    fn next(&mut self) -> Option<&'a [u8]> {
        let rest = self.rest;
        match line_end(rest) {
            Some(end) => {
                self.rest = &rest[end + 1..];
                Some(&rest[..end])
            }
            None if rest.is_empty() => None,
            None => {
                self.rest = &[];
                Some(rest)
            }
        }
    }
}

// Where the first line ends: at its byte 10.
fn line_end(list: &[u8]) -> Option<usize>
    ensures { result ≡ position (λ b. b == 10) list.now }
{
    list.iter().position(|b| *b == b'\n')
}
