//! What a run does, one after the other.
ghost use Rattle.std.specs.Prelude.{◌≡◌};
ghost use Rattle.boot_run.specs.Lines.{is_unread};

use tool_words::{Action, One};

/// A line of a run.
#[derive(Debug, Drop)]
pub enum Line {
    /// A command of one action, on its own.
    Plain(One),
    /// An action of a command of several.
    Part(Action),
    /// A command of a script, on its line of that number, counted from 1.
    Numbered(u64, One),
    /// The script's line of that number, which is no command.
    Unread(u64),
    /// A script that is too long, which is refused whole.
    TooLong,
}

impl Line {
    /// Whether this is no command.
    pub fn is_unread(&self) -> bool
        ensures { result ≡ is_unread self.now }
    {
        match self {
            Line::Plain(_) | Line::Part(_) | Line::Numbered(..) => false,
            Line::Unread(_) | Line::TooLong => true,
        }
    }
}
