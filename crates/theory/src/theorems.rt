//! What is proved of the definitions alone: each theorem is the contract of a function that does nothing.

ghost use Rattle.theory.specs.Rigs.{worked, EveryYields};
ghost use Rattle.theory.specs.Theorems.{AnswerFixed, DrawnBack, LayoutByClusters, SearchRight};

/// Two layouts of a table that are chosen and numbered tell the same ends and the same number of imagers.
pub fn answer_fixed()
    ensures { AnswerFixed }
{}

/// A table has a layout exactly when every cluster of it has one.
pub fn layout_by_clusters()
    ensures { LayoutByClusters }
{}

/// The search answers what the definitions say, for every sound table.
pub fn search_right()
    ensures { SearchRight }
{}

/// The definitions yield the outcome of every worked rig.
pub fn rigs_worked()
    ensures { EveryYields worked }
{}

/// A proper drawing is a layout of its own table, and three different baselines that are not doubtful have a common imager in
/// the chosen layout exactly when they have one as drawn.
pub fn drawn_back()
    ensures { DrawnBack }
{}
