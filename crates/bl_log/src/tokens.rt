//! Words that are read.
ghost use Rattle.std.specs.Prelude.{◌≡◌, ◌<◌, ◌^◌, ◌∷◌, ℕ, ℤ, List, MatchResult, IfOk, IsSomeAnd};
ghost use Rattle.std.specs.Str.{IsAscii};
ghost use Rattle.std.specs.Fmt.{decimal, signed_decimal};
ghost use Rattle.bl_log.specs.declared.fault.Miss.TheVariants.{Memory};
ghost use Rattle.bl_log.specs.Fits.{IsU32, IsI64, IsI128};

use crate::fault::Miss;
use bl_text::WordWalk;

/// The next word. `Words` where there is none.
pub(crate) fn next_word<'a>(words: &mut WordWalk<'a>) -> Result<&'a [u8], Miss>
    ensures { (word : List ℕ) (rest : List (List ℕ)) → words.old ≡ word ∷ rest
        → MatchResult result (λ w. (w.now ≡ word) × (words.new ≡ rest)) (λ e. e ≡ Memory) }
{
    match words.next() {
        Some(word) => Ok(word),
        None => Err(Miss::Words),
    }
}

/// Passes over a word. `Words` where another comes, or none.
pub(crate) fn pass_word(words: &mut WordWalk<'_>, expected: &[u8]) -> Result<(), Miss>
    ensures { (rest : List (List ℕ)) → words.old ≡ expected.now ∷ rest
        → MatchResult result (λ _. words.new ≡ rest) (λ e. e ≡ Memory) }
{
    let word = next_word(words)?;
    if word == expected {
        Ok(())
    } else {
        Err(Miss::Words)
    }
}

// A word as text, where it is one.
fn as_text(word: &[u8]) -> Option<&str>
    ensures { IsAscii word.now → IsSomeAnd result (λ text. text.now ≡ word.now) }
{
    match str::from_utf8(word) {
        Ok(text) => Some(text),
        Err(_) => None,
    }
}

/// The number that a word spells. `Words` where it spells none of the type.
pub(crate) fn u32_in(word: &[u8]) -> Result<u32, Miss>
    ensures reads { (n : ℕ) → IsU32 n → word.now ≡ decimal n
        → MatchResult result (λ m. m ≡ n) (λ e. e ≡ Memory) }
    ensures fits { IfOk result IsU32 }
{
    let Some(text) = as_text(word) else {
        return Err(Miss::Words);
    };
    match text.parse::<u32>() {
        Ok(number) => Ok(number),
        Err(_) => Err(Miss::Words),
    }
}

/// The number that a word spells. `Words` where it spells none of the type.
pub(crate) fn usize_in(word: &[u8]) -> Result<usize, Miss>
    ensures { (n : ℕ) → n < 2 ^ 64 → word.now ≡ decimal n
        → MatchResult result (λ m. m ≡ n) (λ e. e ≡ Memory) }
{
    let Some(text) = as_text(word) else {
        return Err(Miss::Words);
    };
    match text.parse::<usize>() {
        Ok(number) => Ok(number),
        Err(_) => Err(Miss::Words),
    }
}

/// The number that a word spells. `Words` where it spells none of the type.
pub(crate) fn i64_in(word: &[u8]) -> Result<i64, Miss>
    ensures reads { (z : ℤ) → IsI64 z → word.now ≡ signed_decimal z
        → MatchResult result (λ m. m ≡ z) (λ e. e ≡ Memory) }
    ensures fits { IfOk result IsI64 }
{
    let Some(text) = as_text(word) else {
        return Err(Miss::Words);
    };
    match text.parse::<i64>() {
        Ok(number) => Ok(number),
        Err(_) => Err(Miss::Words),
    }
}

/// The number that a word spells. `Words` where it spells none of the type.
pub(crate) fn i128_in(word: &[u8]) -> Result<i128, Miss>
    ensures reads { (z : ℤ) → IsI128 z → word.now ≡ signed_decimal z
        → MatchResult result (λ m. m ≡ z) (λ e. e ≡ Memory) }
    ensures fits { IfOk result IsI128 }
{
    let Some(text) = as_text(word) else {
        return Err(Miss::Words);
    };
    match text.parse::<i128>() {
        Ok(number) => Ok(number),
        Err(_) => Err(Miss::Words),
    }
}
