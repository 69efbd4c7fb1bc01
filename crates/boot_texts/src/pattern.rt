//! Patterns and the texts that they match.
ghost use Rattle.std.specs.Prelude.{◌≡◌, ◌↔◌, IsTrue};
ghost use Rattle.boot_texts.specs.Patterns.{IsPattern, PatternMatches};
ghost use Rattle.boot_texts.specs.PatternLaws.{EmptyMatches, EscapeMatches, MembersAreBetween, OneItemList, PlainMatches, QuestionMatches, SetMatches, StarMatches, UnclosedIsNoPattern};
ghost use Rattle.boot_texts.specs.PatternSteps.{IsSearchStep};

use crate::pattern_item::first_item;

/// What each item of a pattern matches, whatever is behind it: `*` any run of bytes, `?` one byte, a set one byte
/// that equals a member or lies in a range with both ends, a backslash and a byte that byte, any other byte
/// itself. No bytes are two patterns; a set without end or member and a backslash at the end are none.
pub fn items_match_as_the_manual_says()
    ensures empty { EmptyMatches }
    ensures star { StarMatches }
    ensures question { QuestionMatches }
    ensures set { SetMatches }
    ensures members { MembersAreBetween }
    ensures escape { EscapeMatches }
    ensures plain { PlainMatches }
    ensures unreadable { UnclosedIsNoPattern }
    ensures once { OneItemList }
{}

/// The pattern matches the text. Bytes that aren't a list of items match nothing. It takes no memory. Of several
/// `*` only the last is tried again, so for a pattern of P bytes and a text of T it takes at most (P + 1) (T + 1)
/// steps.
pub fn matches(pattern: &[u8], text: &[u8]) -> bool
    ensures { IsTrue result ↔ PatternMatches pattern.now text.now }
{
    let mut rest = pattern;
    let mut left = text;
    let mut star: Option<(&[u8], &[u8])> = None;
    'steps: loop {
        match first_step(rest, left) {
            Step::Done => return true,
            Step::Never => return false,
            Step::Run(behind) => {
                star = Some((behind, left));
                rest = behind;
            }
            Step::On(behind, after) => {
                rest = behind;
                left = after;
            }
            Step::Fails => {
                let Some((again, from)) = star else {
                    return false;
                };
                let Some((_, from)) = from.split_first() else {
                    return false;
                };
                star = Some((again, from));
                rest = again;
                left = from;
            }
        }
    }
}

// What the first item of a pattern makes of a text.
enum Step<'p, 't> {
    // The pattern and the text are at their ends.
    Done,
    // The text doesn't match.
    Fails,
    // The pattern isn't a list of items, so no text matches.
    Never,
    // The item is `*`, with this behind it.
    Run(&'p [u8]),
    // The item takes the text's first byte; what is behind the two is left to be matched.
    On(&'p [u8], &'t [u8]),
}

fn first_step<'p, 't>(pattern: &'p [u8], text: &'t [u8]) -> Step<'p, 't>
    ensures { IsSearchStep pattern.now text.now result }
{
    let Some((item, behind)) = first_item(pattern) else {
        if !pattern.is_empty() {
            return Step::Never;
        }
        if !text.is_empty() {
            return Step::Fails;
        }
        return Step::Done;
    };
    if item.is_any_run() {
        return Step::Run(behind);
    }
    let Some((byte, rest)) = text.split_first() else {
        return Step::Fails;
    };
    if item.takes(*byte) {
        Step::On(behind, rest)
    } else {
        Step::Fails
    }
}

/// The bytes are a list of items, as each pattern is.
pub fn is_pattern(bytes: &[u8]) -> bool
    ensures { IsTrue result ↔ IsPattern bytes.now }
{
    let mut rest = bytes;
    while let Some((_, behind)) = first_item(rest) {
        rest = behind;
    }
    rest.is_empty()
}
