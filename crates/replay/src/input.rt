//! The inputs that words of a list stand for.

ghost use Rattle.std.specs.Prelude.{◌≡◌, ◌≤◌, length, take, Some, None, MatchOption, MatchResult, [], ◌∷◌};
ghost use Rattle.std.specs.Iterator.{at_most};
ghost use Rattle.replay.specs.Inputs.{hex, decoded, input};
ghost use Rattle.replay.specs.Answers.{taken};

use crate::case::Differs;

/// What a digit of base 16 stands for, and 0 for any other byte.
fn hex_value(b: u8) -> u8
    ensures { result ≡ hex b }
{
    match b {
        b'0'..=b'9' => b - b'0',
        b'A'..=b'F' => b - b'A' + 10,
        _ => 0,
    }
}

/// The bytes that are still to come of the input that a word stands for.
#[derive(Clone, Copy)]
struct Bytes<'a> {
    rest: &'a [u8],
}

impl<'a> Bytes<'a> {
    /// All of them. The word % is the empty input.
    fn of(word: &'a [u8]) -> Bytes<'a>
        ensures { decoded result.rest.now ≡ input word.now }
    {
        match word {
            b"%" => Bytes { rest: &[] },
            rest => Bytes { rest },
        }
    }
}

impl<'a> Iterator for Bytes<'a> {
    type Item = u8;

    ghost next_gives = { λ s r t. MatchOption r
        ((decoded s.rest.now ≡ []) × (t ≡ s))
        (λ b. decoded s.rest.now ≡ b ∷ decoded t.rest.now) };

    ghost remaining = { λ s. at_most (length (decoded s.rest.now)) };

    fn next(&mut self) -> Option<u8> {
        let (byte, behind) = match self.rest {
            [] => return None,
            [b'%', high, low, behind @ ..] => (hex_value(*high) * 16 + hex_value(*low), behind),
            [byte, behind @ ..] => (*byte, behind),
        };
        self.rest = behind;
        Some(byte)
    }
}

/// Writes the bytes that a word stands for to an output, behind so many that stand there, and answers how many there
/// are then.
pub fn decode(word: &[u8], out: &mut [u8], before: usize) -> Result<usize, Differs>
    ensures { MatchResult result
        (λ n. (n ≤ length out.old) × (taken (Some word.now) before out.old ≡ Some (take n out.new)))
        (λ e. taken (Some word.now) before out.old ≡ None) }
{
    if out.len() < before {
        return Err(Differs);
    }
    let mut n = before;
    for byte in Bytes::of(word) {
        if out.len() <= n {
            return Err(Differs);
        }
        out[n] = byte;
        n += 1;
    }
    Ok(n)
}
