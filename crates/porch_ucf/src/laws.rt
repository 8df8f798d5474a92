//! What is true of each checkpoint file.

ghost use Rattle.porch_ucf.specs.Laws.{FilesAreSpelled, FlawlessFilesAreGood, FilesAreReadBack, FlawlessFilesHaveNoFlaw, FirstFlawsAreOne};

/// An open file whose front has no flaw begins with the file of what it holds; and a file without a flaw
/// holds a checkpoint that its program can go on from.
pub fn files_are_spelled()
    ensures spelled { FilesAreSpelled }
    ensures good { FlawlessFilesAreGood }
{}

/// The file of a checkpoint that its program can go on from, whatever follows it, has no flaw and holds
/// that checkpoint.
pub fn files_are_read_back()
    ensures { FilesAreReadBack }
{}

/// A file has one first flaw or none.
pub fn first_flaws_are_one()
    ensures flawless { FlawlessFilesHaveNoFlaw }
    ensures one { FirstFlawsAreOne }
{}
