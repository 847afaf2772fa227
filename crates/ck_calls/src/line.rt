//! The lines of a transcript.

/// `a` behind a number stands for so many times this: such keys have partial 0 and the bucket 0 at
/// each power up to 40, so they all have the same two buckets.
const APART: u64 = 282_574_488_338_432;

/// How many keys a call may have.
pub const MOST_KEYS: usize = 8;

/// How many numbers a line may have.
pub const MOST_NUMBERS: usize = 17;

/// A line that is printed: a call, or where the name of the call is empty a note.
#[derive(Clone, Copy)]
pub struct Line<'a> {
    pub text: &'a str,
    /// The number of the handle that makes the call; 0 where none is named.
    pub who: usize,
    pub call: &'a str,
    pub count: usize,
    /// So many numbers, and then zeros.
    pub numbers: [u64; MOST_NUMBERS],
}

impl<'a> Line<'a> {
    /// The line; `None` where it is an answer.
    pub fn of(text: &'a str) -> Option<Line<'a>> {
        let mut line = Line {
            text,
            who: 0,
            call: "",
            count: 0,
            numbers: [0; MOST_NUMBERS],
        };
        let Some(words) = text.strip_prefix("> ") else {
            return (text.is_empty() || text.starts_with('#')).then_some(line);
        };
        for word in words.split_ascii_whitespace() {
            line.take(word);
        }
        Some(line)
    }

    // Takes the next word.
    fn take(&mut self, word: &'a str) {
        let number = number(word);
        match number {
            Some(number) if self.call.is_empty() => self.who = number as usize,
            Some(number) if self.count < MOST_NUMBERS => {
                self.numbers[self.count] = number;
                self.count += 1;
            }
            Some(_) => {}
            None => self.call = word,
        }
    }

    /// Its numbers.
    pub fn all(&self) -> &[u64] {
        &self.numbers[..self.count.min(MOST_NUMBERS)]
    }

    /// The number at this position, or the greatest one that its type has.
    pub fn small(&self, at: usize) -> u32 {
        let number = self.numbers.get(at).copied().unwrap_or(0);
        u32::try_from(number).unwrap_or(u32::MAX)
    }
}

fn number(word: &str) -> Option<u64> {
    if word == "max" {
        return Some(u64::MAX);
    }
    match word.strip_suffix('a') {
        Some(times) => times.parse::<u64>().ok()?.checked_mul(APART),
        None => word.parse().ok(),
    }
}
