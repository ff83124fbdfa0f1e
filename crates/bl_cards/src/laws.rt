//! What the reading of lines comes to, in other words.
ghost use Rattle.bl_cards.specs.Laws.{TellsEnds, TellsFirstLine, TellsLines};

/// A fault of a line is the first: no line before it breaks a rule, and no rule that comes
/// before it is broken by its line. Where no line breaks a rule, the fault is that there is no
/// ENDATA line. And each such first fault is told.
pub fn line_faults_are_first()
    ensures { TellsFirstLine }
{}

/// What a file says is what its lines up to the ENDATA line say, each section by its own data
/// lines in turn: the columns and their numbers by name, the right sides, ranges and cards of
/// each section's first set, and the sense by the one word of OBJSENSE. And where lines say so,
/// the file says it.
pub fn files_say_what_their_lines_say()
    ensures ends { TellsEnds }
    ensures lines { TellsLines }
{}
