//! Why words are not a command.
ghost use Rattle.std.specs.Prelude.{◌≡◌};
ghost use Rattle.tool_words.specs.declared.fault.WordsFault.TheVariants.{Memory, Usage};
ghost use Rattle.tool_words.specs.declared.fault.LineFault.TheVariants as line;

use boot_base::Text;
use std::alloc::AllocError;
use thiserror::Error;

/// Why words are outside the grammar: the first reason, in this order. The reasons from
/// `UnknownOption` to `UnknownBank` come at the first word, from the left, that has one.
#[derive(Debug, Drop)]
pub enum UsageReason {
    /// There are over 16,777,216 words, or one has over 1,048,576 bytes.
    TooLong,
    /// There are no words.
    NoCommand,
    /// The first word names no command.
    UnknownCommand { word: Text },
    /// The command has verbs, and there is no second word.
    NoVerb,
    /// The second word is no verb of the command.
    UnknownVerb { word: Text },
    /// The command has no such option. The word is what stands before a `=`.
    UnknownOption { word: Text },
    /// No word follows an option that takes the next word as its value.
    NeedsValue { word: Text },
    /// A flag is given a value. The word is the flag.
    TakesNoValue { word: Text },
    /// The value of `--bank` names no bank. The word is the value.
    UnknownBank { word: Text },
    /// There are fewer operands than the command takes.
    TooFew,
    /// There are more operands than the command takes.
    TooMany,
    /// A required option is missing. The word is the option.
    Required { word: Text },
}

/// Why words give no command.
#[derive(Debug, Drop, Error)]
pub enum WordsFault {
    /// There is no memory for the command or the reason.
    #[error("out of memory")]
    Memory,
    /// The words are outside the grammar.
    #[error("words outside the grammar")]
    Usage {
        /// The first reason.
        reason: UsageReason,
    },
}

impl From<AllocError> for WordsFault {
    ghost from_gives = { λ _ fault. fault ≡ Memory };

    fn from(_error: AllocError) -> WordsFault {
        WordsFault::Memory
    }
}

impl From<UsageReason> for WordsFault {
    ghost from_gives = { λ reason fault. fault ≡ Usage reason };

    fn from(reason: UsageReason) -> WordsFault {
        WordsFault::Usage { reason }
    }
}

/// Why a line gives no words.
#[derive(Debug, PartialEq, Eq, Drop, Error)]
pub enum LineFault {
    /// There is no memory for the words.
    #[error("out of memory")]
    Memory,
    /// The single quotes of the line are odd in number.
    #[error("a quote is left open")]
    OpenQuote,
}

impl From<AllocError> for LineFault {
    ghost from_gives = { λ _ fault. fault ≡ line.Memory };

    fn from(_error: AllocError) -> LineFault {
        LineFault::Memory
    }
}
