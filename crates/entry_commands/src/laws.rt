//! What is printed as JSON is read as it is meant.
ghost use Rattle.entry_commands.specs.Laws.{ListReadsBack};

/// What the list of a menu prints as JSON is UTF-8 and, read as JSON, is the menu of the folders that its word names.
pub fn list_reads_back()
    ensures { ListReadsBack }
{}
