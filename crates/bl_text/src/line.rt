ghost use Rattle.std.specs.Prelude.{◌≡◌, ◌<◌, ◌≤◌, ◌^◌, All, length, not};
ghost use Rattle.bl_text.specs.Pieces.{HasNoLineFeed, leading, is_line_feed, without_return};
ghost use Rattle.bl_text.specs.Pieces.{lines_of};

use crate::front::behind_first;
use std::marker::Model;

/// A line without its line feed and without one carriage return at its end, and its number: the
/// first line has the number 1.
#[derive(Clone, Copy)]
pub struct Line<'a> {
    pub number: u32,
    pub bytes: &'a [u8],
}

/// The lines that are left of a text, as an iterator. A contract sees their number and bytes.
#[derive(Drop)]
pub struct LineWalk<'a> {
    rest: &'a [u8],
    given: u32,
}

impl<'a> Model for LineWalk<'a> {
    ghost use Rattle.std.specs.Prelude.{◌<◌, ◌+◌, ◌^◌, length};
    ghost use Rattle.bl_text.specs.Pieces.{Left, lines_of};

    ghost Value = { Left };

    ghost view = { λ w. record { number = w.given + 1; lines = lines_of w.rest.now } };

    ghost invariant = { λ w. w.given + length w.rest.now < 2 ^ 32 };
}

/// The lines of a text of fewer than 2^32 bytes, from the first on: what stands before each line
/// feed, and what stands after the last one if that is not empty, each without one carriage return
/// at its end.
pub fn lines<'a>(bytes: &'a [u8]) -> LineWalk<'a>
    requires { length bytes.now < 2 ^ 32 }
    ensures left { result ≡ record { number = 1; lines = lines_of bytes.now } }
    ensures few { length (lines_of bytes.now) ≤ length bytes.now }
    ensures unbroken { All HasNoLineFeed (lines_of bytes.now) }
{
    LineWalk {
        rest: bytes,
        given: 0,
    }
}

/// How many bytes come before the first line feed, or before the end.
fn to_line_feed(bytes: &[u8]) -> usize
    ensures count { result ≡ leading (λ b. not (is_line_feed b)) bytes.now }
    ensures within { result ≤ length bytes.now }
{
    let mut n = 0;
    for b in bytes {
        if *b == b'\n' {
            return n;
        }
        n += 1;
    }
    n
}

/// All but one carriage return at the end.
fn without_return(piece: &[u8]) -> &[u8]
    ensures { result.now ≡ without_return piece.now }
{
    let n = piece.len();
    if n > 0 && piece[n - 1] == b'\r' {
        return &piece[..n - 1];
    }
    piece
}

impl<'a> Iterator for LineWalk<'a> {
    type Item = Line<'a>;

    ghost use Rattle.std.specs.Prelude.{option_map};
    ghost use Rattle.std.specs.Iterator.{item_count};
    ghost use Rattle.bl_text.specs.Pieces.{TakesLine};

    ghost next_gives = { λ s r t. TakesLine s (option_map (λ l. (l.number, l.bytes.now)) r) t };

    ghost remaining = { item_count (λ s. s.lines) };

    fn next(&mut self) -> Option<Line<'a>> {
        if self.rest.is_empty() {
            return None;
        }
        let n = to_line_feed(self.rest);
        let (piece, after) = self.rest.split_at(n);
        self.rest = behind_first(after);
        self.given += 1;
        Some(Line {
            number: self.given,
            bytes: without_return(piece),
        })
    }
}
