//! The tokens of a line, and the number that a word is.
ghost use Rattle.std.specs.Prelude.{◌≡◌, ◌∷◌, [], MatchOption};
ghost use Rattle.ck_format.specs.Tokens.{begins_as_number, number_at, tokens};
ghost use Rattle.ck_format.specs.AreTokens.{AreTokens};
ghost use Rattle.memchr.specs.Find.{IsFirstByte, is_byte};

/// The tokens of a line that has at most four.
#[derive(Drop)]
pub enum Tokens<'a> {
    One(&'a [u8]),
    Two(&'a [u8], &'a [u8]),
    Three(&'a [u8], &'a [u8], &'a [u8]),
    Four(&'a [u8], &'a [u8], &'a [u8], &'a [u8]),
    More,
}

// Where the first space is. Words are short, so a look at each byte is faster than `memchr`.
fn first_space(line: &[u8]) -> Option<usize>
    ensures { IsFirstByte (is_byte 32) line.now result }
{
    line.iter().position(|b| *b == b' ')
}

// The first word, and what stands behind the space after it, where there is one.
fn cut(line: &[u8]) -> (&[u8], Option<&[u8]>)
    ensures { MatchOption result.1 (tokens line.now ≡ result.0.now ∷ [])
        (λ rest. tokens line.now ≡ result.0.now ∷ tokens rest.now) }
{
    match first_space(line) {
        None => (line, None),
        Some(at) => (&line[..at], Some(&line[at + 1..])),
    }
}

/// The tokens of a line.
pub(crate) fn tokens_of(line: &[u8]) -> Tokens<'_>
    ensures { AreTokens result (tokens line.now) }
{
    let (first, rest) = cut(line);
    let Some(rest) = rest else {
        return Tokens::One(first);
    };
    let (second, rest) = cut(rest);
    let Some(rest) = rest else {
        return Tokens::Two(first, second);
    };
    let (third, rest) = cut(rest);
    let Some(rest) = rest else {
        return Tokens::Three(first, second, third);
    };
    let (fourth, rest) = cut(rest);
    let Some(_) = rest else {
        return Tokens::Four(first, second, third, fourth);
    };
    Tokens::More
}

// Whether a word begins as a number does: by a digit, which is no 0 in front of another byte.
fn is_begun(word: &[u8]) -> bool
    ensures { result ≡ begins_as_number word.now }
{
    match word {
        [] => false,
        [c] => c.is_ascii_digit(),
        [c, ..] => c.is_ascii_digit() && *c != b'0',
    }
}

/// The number that a word is.
pub fn number_of(word: &[u8]) -> Option<u64>
    ensures { result ≡ number_at word.now }
{
    if !is_begun(word) {
        return None;
    }
    let mut number: u64 = 0;
    for byte in word {
        if !byte.is_ascii_digit() {
            return None;
        }
        number = number
            .checked_mul(10)?
            .checked_add(u64::from(*byte - b'0'))?;
    }
    Some(number)
}
