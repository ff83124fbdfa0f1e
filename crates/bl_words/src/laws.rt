//! Laws of what words mean.
ghost use Rattle.bl_words.specs.Laws.{MeanOneWish};

/// A list of words means one wish at most.
pub fn words_mean_one_wish()
    ensures { MeanOneWish }
{}
