//! The tables are a grammar.

ghost use Rattle.word_grammar.specs.Laws.{WordsFindTheirCommand, TextsFindTheirOption, NamesHaveVerbsOrNone};

/// Each command is found by its own words, so no two commands have the same.
pub fn words_find_their_command()
    ensures { WordsFindTheirCommand }
{}

/// Each option of a command is found by its own text, so no two options of a command have the same.
pub fn texts_find_their_option()
    ensures { TextsFindTheirOption }
{}

/// The commands of one first word all have a verb, or none has.
pub fn names_have_verbs_or_none()
    ensures { NamesHaveVerbsOrNone }
{}
