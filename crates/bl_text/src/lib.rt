//! Base: lines of a text, and words of a line.
#![tactic(auto)]

mod front;
pub mod laws;
mod line;
mod word;

pub use line::{Line, LineWalk, lines};
pub use word::{WordWalk, is_blank, words};

#[cfg(test)]
mod tests {
    use super::*;

    #[test]
    fn cuts_lines(rt: HostRuntime) {
        let mut walk = lines(b"one  two\r\n\n\tthree\rfour \n5\r\r\nlast");
        let want: [(u32, &[u8]); 5] = [
            (1, b"one  two"),
            (2, b""),
            (3, b"\tthree\rfour "),
            (4, b"5\r"),
            (5, b"last"),
        ];
        for (number, bytes) in want {
            let line = walk.next().expect(&rt, "a line is left");
            assert_eq!(rt; line.number, number);
            assert_eq!(rt; line.bytes, bytes, "line {number}");
        }
        assert!(rt; walk.next().is_none());
        assert!(rt; lines(b"a\n").count() == 1);
    }

    #[test]
    fn cuts_words(rt: HostRuntime) {
        let mut walk = words(b"\t RHS  'MARKER'\r-.5\t");
        let want: [&[u8]; 3] = [b"RHS", b"'MARKER'", b"-.5"];
        for word in want {
            assert_eq!(rt; walk.next().expect(&rt, "a word is left"), word);
        }
        assert!(rt; walk.next().is_none());
        assert!(rt; is_blank(b'\r'));
    }
}
