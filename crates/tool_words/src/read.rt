//! Words become a command.
ghost use Rattle.std.specs.Prelude.{◌≡◌, find, length, option_map, MatchResult};
ghost use Rattle.std.specs.List.{list_any};
ghost use Rattle.word_grammar.specs.Grammar.{row};
ghost use Rattle.word_grammar.specs.Shown.{option_shown};
ghost use Rattle.tool_words.specs.Items.{last_option_value, operands};
ghost use Rattle.tool_words.specs.Meaning.{command_of, with_verb, are_too_long, is_long, is_missing, check_count, all_required, gather_items, command_by_name, read_words, meaning};
ghost use Rattle.tool_words.specs.Answers.{Gives, FaultIs};
ghost use Rattle.tool_words.specs.Shown.{texts, items_shown, chosen_shown};

use crate::command::Command;
use crate::fault::{UsageReason, WordsFault};
use crate::fill::fill;
use crate::items::Item;
use crate::scan::read_items;
use crate::values::{last_value, operand_count};
use boot_base::Text;
use std::alloc::Global;
use word_grammar::{CommandName, OptionRow, Takes};

/// How many words there may be.
const MAX_WORDS: usize = 16_777_216;

/// How many bytes a word may have.
const MAX_WORD: usize = 1_048_576;

fn are_too_long(words: &[String]) -> bool
    ensures { result ≡ are_too_long (texts words.now) }
{
    words.len() > MAX_WORDS || has_long_word(words)
}

fn has_long_word(words: &[String]) -> bool
    ensures { result ≡ list_any is_long (texts words.now) }
{
    words.iter().any(|word| word.as_str().len() > MAX_WORD)
}

// The command that the first words name, and the words after them.
fn command_of<'a>(
    alloc: Global,
    words: &'a [String],
) -> Result<(CommandName, &'a [String]), WordsFault>
    ensures { Gives chosen_shown result (command_of (texts words.now)) }
{
    let Some((word, rest)) = words.split_first() else {
        return Err(UsageReason::NoCommand.into());
    };
    let Some(command) = CommandName::from_name(word.as_str()) else {
        let word = Text::of(alloc, word.as_str())?;
        return Err(UsageReason::UnknownCommand { word }.into());
    };
    match command.row().verb {
        Some(_) => with_verb(alloc, word.as_str(), rest),
        None => Ok((command, rest)),
    }
}

// The command with the verb that comes next, and the words after it.
fn with_verb<'a>(
    alloc: Global,
    word: &str,
    rest: &'a [String],
) -> Result<(CommandName, &'a [String]), WordsFault>
    ensures { Gives chosen_shown result (with_verb word.now (texts rest.now)) }
{
    let Some((verb, rest)) = rest.split_first() else {
        return Err(UsageReason::NoVerb.into());
    };
    let Some(command) = CommandName::from_name_and_verb(word, verb.as_str()) else {
        let word = Text::of(alloc, verb.as_str())?;
        return Err(UsageReason::UnknownVerb { word }.into());
    };
    Ok((command, rest))
}

// As many operands as the command takes.
fn check_count(items: &[Item<'_>], wanted: usize) -> Result<(), UsageReason>
    ensures { MatchResult result
        (λ _. check_count wanted (length (operands (items_shown items.now))) ≡ Ok tt)
        (λ reason. check_count wanted (length (operands (items_shown items.now))) ≡ Err reason) }
{
    let count = operand_count(items);
    if count < wanted {
        return Err(UsageReason::TooFew);
    }
    if count > wanted {
        return Err(UsageReason::TooMany);
    }
    Ok(())
}

fn is_missing(items: &[Item<'_>], option: OptionRow) -> bool
    ensures { result ≡ is_missing (λ text. last_option_value text (items_shown items.now)) (option_shown option) }
{
    matches!(option.takes, Takes::Required) && last_value(items, option.text).is_none()
}

// The first required option of the command that is not given.
fn first_missing(command: CommandName, items: &[Item<'_>]) -> Option<OptionRow>
    ensures { option_map option_shown result
        ≡ find (is_missing (gather_items command (items_shown items.now)).last) (row command).options }
{
    let row = command.row();
    row.options
        .iter()
        .copied()
        .find(|option| is_missing(items, *option))
}

// Every required option is given. The first one that is missing is the reason.
fn check_required(alloc: Global, command: CommandName, items: &[Item<'_>]) -> Result<(), WordsFault>
    ensures { Gives (λ _. tt) result (all_required command (gather_items command (items_shown items.now)).last) }
{
    match first_missing(command, items) {
        Some(option) => {
            let word = Text::of(alloc, option.text)?;
            Err(UsageReason::Required { word }.into())
        }
        None => Ok(()),
    }
}

// The command with the words after it.
fn read_command(
    alloc: Global,
    command: CommandName,
    words: &[String],
) -> Result<Command, WordsFault>
    ensures { Gives (λ made. made) result (command_by_name command (texts words.now)) }
{
    let items = read_items(alloc, command, words)?;
    let items = items.as_slice();
    check_count(items, command.row().operands)?;
    check_required(alloc, command, items)?;
    let made = fill(alloc, command, items)?;
    Ok(made)
}

fn read_words(alloc: Global, words: &[String]) -> Result<Command, WordsFault>
    ensures { Gives (λ made. made) result (read_words (texts words.now)) }
{
    let (command, rest) = command_of(alloc, words)?;
    read_command(alloc, command, rest)
}

impl Command {
    /// The command that the words after the program's name give.
    ///
    /// At most 16,777,216 words are taken, each of at most 1,048,576 bytes. Words outside the grammar
    /// give the first reason.
    pub fn read(alloc: Global, words: &Vec<String>) -> Result<Command, WordsFault>
        ensures { MatchResult result
            (λ command. meaning (texts words.now.items) ≡ Ok command)
            (λ fault. FaultIs fault (meaning (texts words.now.items))) }
    {
        let words = words.as_slice();
        if are_too_long(words) {
            return Err(UsageReason::TooLong.into());
        }
        read_words(alloc, words)
    }
}
