// The lines of a text, and the words of a line.
ghost use Rattle.std.specs.Prelude.{◌≡◌, ◌==◌, IfOk};
ghost use Rattle.std.specs.List.{before_first};
ghost use Rattle.family_text.specs.Words.{texts, lines_of, words_of};

use std::alloc::{AllocError, Global};

pub(crate) fn lines(alloc: Global, text: &[u8]) -> Result<Vec<&[u8]>, AllocError>
    ensures { IfOk result (λ lines. texts lines.items ≡ lines_of text.now) }
{
    text.split(|b| *b == b'\n').collect(alloc)
}

pub(crate) fn words(alloc: Global, line: &[u8]) -> Result<Vec<&[u8]>, AllocError>
    ensures { IfOk result (λ words. texts words.items ≡ words_of line.now) }
{
    without_comment(line)
        .split(|b| b.is_ascii_whitespace())
        .filter(|word| !word.is_empty())
        .collect(alloc)
}

// What stands before the first `#`.
fn without_comment(line: &[u8]) -> &[u8]
    ensures { result.now ≡ before_first (λ b. b == 35) line.now }
{
    let end = line.iter().take_while(|b| **b != b'#').count();
    &line[..end]
}
