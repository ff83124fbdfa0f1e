ghost use Rattle.std.specs.Prelude.{◌≡◌, ◌<◌, ◌≤◌, All, length, not};
ghost use Rattle.bl_text.specs.Pieces.{HasNoBlank, leading, is_blank, words_of};

use crate::front::behind_first;
use std::marker::Model;

/// The words that are left of a line, as an iterator. A contract sees the list of them.
#[derive(Drop)]
pub struct WordWalk<'a> {
    rest: &'a [u8],
}

impl<'a> Model for WordWalk<'a> {
    ghost use Rattle.std.specs.Prelude.{ℕ, List};
    ghost use Rattle.bl_text.specs.Pieces.{words_of};

    ghost Value = { List (List ℕ) };

    ghost view = { λ w. words_of w.rest.now };
}

/// The words of a line, from the left: the longest runs of bytes that are not blanks.
pub fn words<'a>(line: &'a [u8]) -> WordWalk<'a>
    ensures left { result ≡ words_of line.now }
    ensures few { length (words_of line.now) ≤ length line.now }
    ensures filled { All (λ word. 0 < length word) (words_of line.now) }
    ensures unbroken { All HasNoBlank (words_of line.now) }
{
    WordWalk { rest: line }
}

/// Whether a byte is a blank: a space, a tab or a carriage return.
pub fn is_blank(byte: u8) -> bool
    ensures { result ≡ is_blank byte }
{
    byte == b' ' || byte == b'\t' || byte == b'\r'
}

/// How many blanks come in front.
fn blanks(bytes: &[u8]) -> usize
    ensures count { result ≡ leading is_blank bytes.now }
    ensures within { result ≤ length bytes.now }
{
    let mut n = 0;
    for b in bytes {
        if !is_blank(*b) {
            return n;
        }
        n += 1;
    }
    n
}

/// How many bytes come before the first blank, or before the end.
fn to_blank(bytes: &[u8]) -> usize
    ensures count { result ≡ leading (λ b. not (is_blank b)) bytes.now }
    ensures within { result ≤ length bytes.now }
{
    let mut n = 0;
    for b in bytes {
        if is_blank(*b) {
            return n;
        }
        n += 1;
    }
    n
}

impl<'a> Iterator for WordWalk<'a> {
    type Item = &'a [u8];

    ghost use Rattle.std.specs.Iterator.{YieldsFirstRef, item_count};

    ghost next_gives = { YieldsFirstRef (λ s. s) };

    ghost remaining = { item_count (λ s. s) };

    fn next(&mut self) -> Option<&'a [u8]> {
        let start = blanks(self.rest);
        let (_, here) = self.rest.split_at(start);
        if here.is_empty() {
            return None;
        }
        let n = to_blank(here);
        let (word, after) = here.split_at(n);
        self.rest = behind_first(after);
        Some(word)
    }
}
