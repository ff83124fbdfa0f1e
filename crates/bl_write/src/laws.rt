//! What is written reads back.
ghost use Rattle.bl_write.specs.Laws.{ReadsBack};

/// The text of a problem, read again, is the problem.
pub fn written_problems_read_back()
    ensures { ReadsBack }
{}
