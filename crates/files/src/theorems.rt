//! What is proved of the definitions alone: each theorem is the contract of a function that does nothing.

ghost use Rattle.files.specs.Theorems.{FilesFit, LinesReadBack};

/// The two files of an issue fit in 4,096 bytes.
pub fn files_fit()
    ensures { FilesFit }
{}

/// The fields of a line are the texts that it was made of, and make it again.
pub fn lines_read_back()
    ensures { LinesReadBack }
{}
