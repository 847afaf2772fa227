//! Which script is to be made.
ghost use Rattle.std.specs.Prelude.{◌≡◌, ◌≤◌, ◌*◌, Some, IfOk};
ghost use Rattle.ck_format.specs.Tokens.{number_at};

use crate::fault::RequestFault;
use ck_format::number_of;

const MOST_WORKERS: u32 = 1024;

// The most command lines that a script can have.
const MOST_LINES: u32 = 1_000_000;

/// Which script is to be made.
#[derive(Clone, Copy)]
pub struct Recipe {
    /// The seed of the generator.
    pub seed: u64,
    /// How many workers there are.
    pub workers: u32,
    /// How many command lines each of them has.
    pub lines: u32,
    pub ghost some: { 1 ≤ workers },
    pub ghost most: { workers ≤ 1024 },
    pub ghost few_lines: { workers * lines ≤ 1000000 },
}

// The number that a word is, as in scripts.
fn number(word: &str) -> Result<u64, RequestFault>
    ensures { IfOk result (λ n. number_at word.now ≡ Some n) }
{
    match number_of(word.as_bytes()) {
        Some(n) => Ok(n),
        None => Err(RequestFault::Arguments),
    }
}

// The same of a number that is within these bounds.
fn number_within(word: &str, least: u32, most: u32) -> Result<u32, RequestFault>
    ensures value { IfOk result (λ n. number_at word.now ≡ Some n) }
    ensures least { IfOk result (λ n. least ≤ n) }
    ensures most { IfOk result (λ n. n ≤ most) }
{
    let n = number(word)?;
    if n < u64::from(least) || n > u64::from(most) {
        return Err(RequestFault::Arguments);
    }
    Ok(n as u32)
}

/// The recipe that these words say.
pub(crate) fn recipe_of(seed: &str, workers: &str, lines: &str) -> Result<Recipe, RequestFault>
    ensures seed { IfOk result (λ recipe. number_at seed.now ≡ Some recipe.seed) }
    ensures workers { IfOk result (λ recipe. number_at workers.now ≡ Some recipe.workers) }
    ensures lines { IfOk result (λ recipe. number_at lines.now ≡ Some recipe.lines) }
{
    let seed = number(seed)?;
    let workers = number_within(workers, 1, MOST_WORKERS)?;
    let lines = number_within(lines, 0, MOST_LINES)?;
    if workers * lines > MOST_LINES {
        return Err(RequestFault::TooManyLines);
    }
    Ok(Recipe {
        seed,
        workers,
        lines,
    })
}
