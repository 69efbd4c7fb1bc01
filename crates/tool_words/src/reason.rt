//! The printed texts of the reasons.
ghost use Rattle.std.specs.Prelude.{◌≡◌, ◌++◌};
ghost use Rattle.tool_words.specs.Reasons.{usage_reason_text};

use crate::fault::UsageReason;
use boot_base::AppendText;
use std::alloc::AllocError;
use std::fmt;

impl UsageReason {
    // The words before the one that the reason is about, that one, and the words after it.
    #[tactic(auto, unfolding(crate::specs::Reasons::usage_reason_text))]
    fn pieces(&self) -> (&str, &str, &str)
        ensures { result.0.now ++ (result.1.now ++ result.2.now) ≡ usage_reason_text self.now }
    {
        match self {
            UsageReason::TooLong => ("too long", "", ""),
            UsageReason::NoCommand => ("no command", "", ""),
            UsageReason::UnknownCommand { word } => ("unknown command ", word.as_str(), ""),
            UsageReason::NoVerb => ("no verb", "", ""),
            UsageReason::UnknownVerb { word } => ("unknown verb ", word.as_str(), ""),
            UsageReason::UnknownOption { word } => ("unknown option ", word.as_str(), ""),
            UsageReason::NeedsValue { word } => ("", word.as_str(), " needs a value"),
            UsageReason::TakesNoValue { word } => ("", word.as_str(), " takes no value"),
            UsageReason::UnknownBank { word } => ("unknown bank ", word.as_str(), ""),
            UsageReason::TooFew => ("too few operands", "", ""),
            UsageReason::TooMany => ("too many operands", "", ""),
            UsageReason::Required { word } => ("", word.as_str(), " is required"),
        }
    }
}

impl fmt::Display for UsageReason {
    ghost use Rattle.std.specs.Prelude.{Some};
    ghost use Rattle.tool_words.specs.Reasons.{usage_reason_text};

    ghost output = { λ reason. Some (usage_reason_text reason) };

    /// The text that stands after `usage: `.
    fn fmt<W: fmt::Write>(&self, f: &mut fmt::Formatter<W>) -> fmt::Result {
        let (before, word, after) = self.pieces();
        write!(f, "{before}{word}{after}")
    }
}

impl AppendText for UsageReason {
    ghost use Rattle.tool_words.specs.Reasons.{usage_reason_text};

    ghost text = { usage_reason_text };

    /// The text that stands after `usage: `.
    fn append_to(&self, out: &mut Vec<u8>) -> Result<(), AllocError> {
        let text = self.to_string(*out.allocator())?;
        out.extend_from_slice(text.as_bytes())?;
        Ok(())
    }
}
