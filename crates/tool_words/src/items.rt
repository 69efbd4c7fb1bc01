//! The words after a command and its verb: options with their values, and operands.
ghost use Rattle.std.specs.Prelude.{◌≡◌, ◌≤◌, length, is_none, IfOk, IfSome};
ghost use Rattle.pcr_values.specs.Prelude.{bank_named};
ghost use Rattle.word_grammar.specs.Shown.{option_shown};
ghost use Rattle.tool_words.specs.Items.{word_meaning, option_said, check_value, option_of, without_value as value_missing, is_flag, are_banks};
ghost use Rattle.tool_words.specs.Answers.{Gives, IsReason};
ghost use Rattle.tool_words.specs.Shown.{said_shown, next_shown, texts};
ghost use Rattle.tool_words.specs.Steps.{with_next_word, Steps};
ghost use Rattle.tool_words.specs.declared.fault.UsageReason.TheVariants.{UnknownOption};

use crate::fault::{UsageReason, WordsFault};
use boot_base::Text;
use pcr_values::Bank;
use std::alloc::Global;
use word_grammar::{CommandName, OptionRow, Takes, ValueKind};

/// What a word says before a word `--`.
#[derive(Clone, Copy)]
pub(crate) enum Said<'a> {
    /// The word is `--`: all words after it are operands.
    Ends,
    /// The word is an operand.
    Plain,
    /// An option with its value, which is empty for a flag.
    Whole(&'static str, &'a str),
    /// An option whose value is the next word.
    Open(OptionRow),
}

// The value, where the option takes it: that of `--bank` must be a bank's name.
fn check_value<'a>(alloc: Global, option: OptionRow, value: &'a str) -> Result<&'a str, WordsFault>
    ensures { Gives (λ v. v.now) result (check_value (option_shown option) value.now) }
{
    if are_banks(option.value) && Bank::from_name(value).is_none() {
        let word = Text::of(alloc, value)?;
        return Err(UsageReason::UnknownBank { word }.into());
    }
    Ok(value)
}

fn are_banks(values: ValueKind) -> bool
    ensures { result ≡ are_banks values }
{
    matches!(values, ValueKind::Bank)
}

fn is_flag(takes: Takes) -> bool
    ensures { result ≡ is_flag takes }
{
    matches!(takes, Takes::Flag)
}

// The option of the command that is written so.
fn option(alloc: Global, command: CommandName, text: &str) -> Result<OptionRow, WordsFault>
    ensures { Gives option_shown result (option_of command text.now) }
{
    match command.option(text) {
        Some(option) => Ok(option),
        None => Err(unknown_option(alloc, text)),
    }
}

fn unknown_option(alloc: Global, word: &str) -> WordsFault
    ensures { IsReason result (UnknownOption word.now) }
{
    match Text::of(alloc, word) {
        Ok(word) => UsageReason::UnknownOption { word }.into(),
        Err(error) => error.into(),
    }
}

// What a word says that begins with `--` and is longer. It is split at its first `=`.
fn read_option<'a>(
    alloc: Global,
    command: CommandName,
    word: &'a str,
) -> Result<Said<'a>, WordsFault>
    ensures { Gives said_shown result (option_said command word.now) }
{
    let Some((name, value)) = word.split_once('=') else {
        let option = option(alloc, command, word)?;
        return Ok(without_value(option));
    };
    let option = option(alloc, command, name)?;
    if is_flag(option.takes) {
        let word = Text::of(alloc, option.text)?;
        return Err(UsageReason::TakesNoValue { word }.into());
    }
    let value = check_value(alloc, option, value)?;
    Ok(Said::Whole(option.text, value))
}

// What an option without a `=` says.
fn without_value<'a>(option: OptionRow) -> Said<'a>
    ensures { said_shown result ≡ value_missing (option_shown option) }
{
    if is_flag(option.takes) {
        Said::Whole(option.text, "")
    } else {
        Said::Open(option)
    }
}

/// What a word says where options are still read.
pub(crate) fn read_word<'a>(
    alloc: Global,
    command: CommandName,
    word: &'a str,
) -> Result<Said<'a>, WordsFault>
    ensures { Gives said_shown result (word_meaning command word.now) }
{
    if word == "--" {
        return Ok(Said::Ends);
    }
    if word.as_bytes().starts_with(b"--") {
        return read_option(alloc, command, word);
    }
    if word.as_bytes().starts_with(b"-") && word.len() > 1 {
        return Err(unknown_option(alloc, word));
    }
    Ok(Said::Plain)
}

/// An option's text with its value, which is empty for a flag; or an operand.
#[derive(Clone, Copy)]
pub(crate) enum Item<'a> {
    Value(&'static str, &'a str),
    Operand(&'a str),
}

/// An item, and the words after it.
#[derive(Clone, Copy)]
pub(crate) struct Next<'a> {
    pub(crate) item: Item<'a>,
    pub(crate) rest: &'a [String],
}

// The option of this word with the next word as its value.
fn with_next_word<'a>(
    alloc: Global,
    option: OptionRow,
    word: &str,
    after: &'a [String],
) -> Result<Next<'a>, WordsFault>
    ensures value { Gives next_shown result (with_next_word (option_shown option) word.now (texts after.now)) }
    ensures shorter { IfOk result (λ next. length next.rest.now ≤ length after.now) }
{
    let Some((value, rest)) = after.split_first() else {
        let word = Text::of(alloc, word)?;
        return Err(UsageReason::NeedsValue { word }.into());
    };
    let value = check_value(alloc, option, value.as_str())?;
    let item = Item::Value(option.text, value);
    Ok(Next { item, rest })
}

/// The item that begins with this word, or None at `--`.
pub(crate) fn next_item<'a>(
    alloc: Global,
    command: CommandName,
    word: &'a str,
    after: &'a [String],
) -> Result<Option<Next<'a>>, WordsFault>
    ensures step { Steps command word.now (texts after.now) result }
    ensures shorter { IfOk result (λ next. IfSome next (λ next. length next.rest.now ≤ length after.now)) }
{
    match read_word(alloc, command, word)? {
        Said::Ends => Ok(None),
        Said::Plain => {
            let item = Item::Operand(word);
            Ok(Some(Next { item, rest: after }))
        }
        Said::Whole(text, value) => {
            let item = Item::Value(text, value);
            Ok(Some(Next { item, rest: after }))
        }
        Said::Open(option) => {
            let next = with_next_word(alloc, option, word, after)?;
            Ok(Some(next))
        }
    }
}
