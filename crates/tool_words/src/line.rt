//! The words of a line of a script.
ghost use Rattle.std.specs.Prelude.{◌≡◌, ◌↔◌, ◌∷◌, [], List, ℕ, true, false, count_by, IfOk, chars};
ghost use Rattle.tool_words.specs.Line.{is_open, is_quote, is_word_gap, line_words, mark, Gap, Itself};
ghost use Rattle.tool_words.specs.LineSteps.{all_words};
ghost use Rattle.tool_words.specs.Shown.{texts};

use crate::fault::LineFault;
use std::alloc::{AllocError, Global};

/// The words of a line so far.
#[derive(Drop)]
struct SoFar {
    /// The words that are done.
    words: Vec<String>,
    /// The word that is begun.
    word: Option<String>,
    /// Whether the next character stands between two quotes.
    quoted: bool,
}

impl SoFar {
    fn new(alloc: Global) -> SoFar
        ensures { (line : List ℕ) → all_words result line ≡ line_words line }
    {
        SoFar {
            words: Vec::new(alloc),
            word: None,
            quoted: false,
        }
    }

    // Takes a quote, which begins a word where none is begun.
    fn take_quote(self, alloc: Global) -> SoFar
        ensures { (rest : List ℕ) → all_words self (39 ∷ rest) ≡ all_words result rest }
    {
        let SoFar {
            words,
            word,
            quoted,
        } = self;
        let word = word.unwrap_or(String::new(alloc));
        SoFar {
            words,
            word: Some(word),
            quoted: !quoted,
        }
    }

    // Takes a gap, which ends the word that is begun.
    fn take_gap(self) -> Result<SoFar, AllocError>
        ensures { IfOk result (λ after. (c : ℕ) (rest : List ℕ) → mark self.quoted c ≡ Gap
            → all_words self (c ∷ rest) ≡ all_words after rest) }
    {
        let SoFar {
            mut words,
            word,
            quoted,
        } = self;
        if let Some(word) = word {
            words.push(word)?;
        }
        Ok(SoFar {
            words,
            word: None,
            quoted,
        })
    }

    // Takes a character that stands for itself.
    fn take_itself(self, alloc: Global, c: char) -> Result<SoFar, AllocError>
        ensures { IfOk result (λ after. (rest : List ℕ) → mark self.quoted c ≡ Itself c
            → all_words self (c ∷ rest) ≡ all_words after rest) }
    {
        let SoFar {
            words,
            word,
            quoted,
        } = self;
        let mut word = word.unwrap_or(String::new(alloc));
        word.push(c)?;
        Ok(SoFar {
            words,
            word: Some(word),
            quoted,
        })
    }

    // Takes the next character.
    fn take(self, alloc: Global, c: char) -> Result<SoFar, AllocError>
        ensures { IfOk result (λ after. (rest : List ℕ) → all_words self (c ∷ rest) ≡ all_words after rest) }
    {
        if c == '\'' {
            return Ok(self.take_quote(alloc));
        }
        if !self.quoted && is_word_gap(c) {
            return self.take_gap();
        }
        self.take_itself(alloc, c)
    }

    // The words at the end of the line.
    fn finish(self) -> Result<Vec<String>, AllocError>
        ensures { IfOk result (λ words. texts words.items ≡ all_words self []) }
    {
        let SoFar {
            mut words,
            word,
            quoted: _,
        } = self;
        if let Some(word) = word {
            words.push(word)?;
        }
        Ok(words)
    }
}

// A space or a tab.
fn is_word_gap(c: char) -> bool
    ensures { result ≡ is_word_gap c }
{
    c == ' ' || c == '\t'
}

// How many single quotes there are.
fn quotes(line: &str) -> usize
    ensures { result ≡ count_by is_quote (chars line.now) }
{
    line.chars().filter(|c| *c == '\'').count()
}

// The words of a line whose quotes are even in number.
fn words_of(alloc: Global, line: &str) -> Result<Vec<String>, AllocError>
    ensures { IfOk result (λ words. texts words.items ≡ line_words (chars line.now)) }
{
    let mut words = SoFar::new(alloc);
    for c in line.chars() {
        words = words.take(alloc, c)?;
    }
    words.finish()
}

/// The words of a line of a script.
///
/// Words are parted by spaces and tabs. Between two single quotes every character stands for
/// itself, and pieces without a gap are one word, so `a'b c'd` is one word, and `''` is an empty one.
/// The answer is `OpenQuote` exactly where the single quotes are odd in number.
pub fn split_line(alloc: Global, line: &str) -> Result<Vec<String>, LineFault>
    ensures words { IfOk result (λ words. texts words.items ≡ line_words (chars line.now)) }
    ensures open { (result ≡ Err LineFault.OpenQuote) ↔ (is_open (chars line.now) ≡ true) }
{
    if quotes(line) % 2 == 1 {
        return Err(LineFault::OpenQuote);
    }
    let words = words_of(alloc, line)?;
    Ok(words)
}
