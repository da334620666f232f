//! The words that ask for a sample.

ghost use Rattle.std.specs.Prelude.{ℕ, MatchOption, MatchBool};
ghost use Rattle.dm_sample.specs.Samples.{BeginsNumber, IsSample, IsSize};

/// The most variants that a sample has.
pub const LARGEST_SAMPLE: u32 = 2_000;

/// Whether the word begins with a digit other than 0.
fn begins_number(word: &str) -> bool
    ensures { MatchBool result (BeginsNumber word.now) (¬ (BeginsNumber word.now)) }
{
    match word.as_bytes().first() {
        Some(byte) => *byte > b'0' && *byte <= b'9',
        None => false,
    }
}

/// The number that the word tells in decimal without a leading zero, if it is from 1 to [LARGEST_SAMPLE].
fn size_of(word: &str) -> Option<u32>
    ensures { MatchOption result ((n : ℕ) → ¬ (IsSize word.now n)) (λ n. IsSize word.now n) }
{
    if !begins_number(word) {
        return None;
    }
    match word.parse::<u32>() {
        Ok(n) if n <= LARGEST_SAMPLE => Some(n),
        _ => None,
    }
}

/// How many variants the sample has that the words ask for: `sample`, and a number from 1 to [LARGEST_SAMPLE].
pub fn sample_size(words: &[String]) -> Option<u32>
    ensures { MatchOption result ((n : ℕ) → ¬ (IsSample words.now n)) (λ n. IsSample words.now n) }
{
    match words {
        [first, second] if first.as_str() == "sample" => size_of(second.as_str()),
        _ => None,
    }
}
