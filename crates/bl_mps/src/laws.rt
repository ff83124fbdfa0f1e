//! What the reading comes to, in other words.
ghost use Rattle.bl_mps.specs.Laws.{IsOne, LessIsBetter, RangesWiden, ScaleIsLeast};
ghost use Rattle.bl_mps.specs.Laws.{ShowsFileValues, TellsFirstFault, TellsMeaning};

use bl_cards::laws::{files_say_what_their_lines_say, line_faults_are_first};

/// Every file has a problem or a fault, and none has both.
pub fn files_have_a_problem_or_a_fault()
    ensures { IsOne }
{}

/// A fault that is told is the first: no line before it breaks a rule, and no rule that comes
/// before it is broken by its line, or by the whole at the ENDATA line. And each such first
/// fault is told.
pub fn faults_are_first()
    ensures { TellsFirstFault }
{
    line_faults_are_first();
    files_say_what_their_lines_say();
}

/// A problem that is read is the meaning of what the sections say, each by its own data lines in
/// turn, and no line up to the ENDATA line breaks a rule. And where the sections say so, the
/// problem is read.
pub fn problems_are_what_the_sections_say()
    ensures { TellsMeaning }
{
    files_say_what_their_lines_say();
}

/// A row with a range has two ends as far apart as the range's size, and its right side is the
/// one that its kind and the range's sign say.
pub fn ranges_widen_rows()
    ensures { RangesWiden }
{}

/// The scale of a row, and of the objective, is the least power of ten that makes its numbers
/// whole.
pub fn scales_are_least()
    ensures { ScaleIsLeast }
{}

/// A point's value is shown as the file's objective has it, and a point of less value is one
/// that is better in the sense of the file: where it asks for the greatest value, one with more.
pub fn values_are_those_of_the_file()
    ensures shown { ShowsFileValues }
    ensures order { LessIsBetter }
{}
