//! What holds of the meanings of words.
ghost use Rattle.command_words.specs.Laws.{GoodFrontsGoOn, NothingMends, NothingOfBeforeChanges, NothingOfBeforeIsRefused};

/// Words in which nothing new stands mean themselves, and the adapters take what they took.
pub fn nothing_of_before_changes()
    ensures { NothingOfBeforeChanges }
{}

/// They aren't refused, and neither are words that are short for others.
pub fn nothing_of_before_is_refused()
    ensures { NothingOfBeforeIsRefused }
{}

/// Behind a word that may not stand where it does, no words make a command of them.
pub fn nothing_mends()
    ensures { NothingMends }
{}

/// Behind words of which each may stand where it does, some words do.
pub fn good_fronts_go_on()
    ensures { GoodFrontsGoOn }
{}
