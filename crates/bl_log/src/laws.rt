//! What the text of a journal comes to.
ghost use Rattle.bl_log.specs.Laws.{TextDetermines, HasNoBadLine, FirstBadIsOne};

/// The text determines the journal, and each of its lines spells an entry. Of a text that is
/// none, one line is the first that spells no entry.
pub fn texts_read_back()
    ensures one { TextDetermines }
    ensures good { HasNoBadLine }
    ensures first { FirstBadIsOne }
{}
