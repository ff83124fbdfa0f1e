//! What the cuts come to, for texts that are put together.
ghost use Rattle.std.specs.Prelude.{◌≡◌, []};
ghost use Rattle.bl_text.specs.Pieces.{lines_of, words_of};
ghost use Rattle.bl_text.specs.Laws.{CutsAtLineFeed, DropsReturn, KeepsLastLine, KeepsOtherEnd};
ghost use Rattle.bl_text.specs.Laws.{CutsAtBlank, KeepsLastWord, PassesBlank};

/// Each line ends at its line feed or at the end of the text, and loses one carriage return.
pub fn lines_end_at_line_feeds()
    ensures none { lines_of [] ≡ [] }
    ensures ended { CutsAtLineFeed }
    ensures last { KeepsLastLine }
    ensures dropped { DropsReturn }
    ensures kept { KeepsOtherEnd }
{}

/// Each word is a run without blanks, from the line's start or a blank to the next blank or the
/// line's end.
pub fn words_are_runs_without_blanks()
    ensures none { words_of [] ≡ [] }
    ensures blank { PassesBlank }
    ensures ended { CutsAtBlank }
    ensures last { KeepsLastWord }
{}
