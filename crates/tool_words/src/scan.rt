//! Reads the words after a command, one item after another.
ghost use Rattle.std.specs.Prelude.{◌≡◌, ◌∷◌, [], ◌++◌, map, OnOk};
ghost use Rattle.tool_words.specs.Items.{items, Operand};
ghost use Rattle.tool_words.specs.Answers.{Gives};
ghost use Rattle.tool_words.specs.Shown.{texts, item_shown, items_shown};

use crate::fault::WordsFault;
use crate::items::{Item, next_item};
use std::alloc::{AllocError, Global};
use word_grammar::CommandName;

/// The items of the words after a command, read from the left.
pub(crate) fn read_items<'a>(
    alloc: Global,
    command: CommandName,
    words: &'a [String],
) -> Result<Vec<Item<'a>>, WordsFault>
    ensures { Gives (λ read. items_shown read.items) result (items command (texts words.now)) }
{
    let mut items = Vec::new(alloc);
    let mut rest = words;
    while let Some((word, after)) = rest.split_first() {
        let Some(next) = next_item(alloc, command, word.as_str(), after)? else {
            push_operands(&mut items, after)?;
            return Ok(items);
        };
        push(&mut items, next.item)?;
        rest = next.rest;
    }
    Ok(items)
}

fn push<'a>(items: &mut Vec<Item<'a>>, item: Item<'a>) -> Result<(), AllocError>
    ensures { OnOk result (items_shown items.new.items ≡ items_shown items.old.items ++ item_shown item.entry ∷ []) }
{
    items.push(item)?;
    Ok(())
}

// Adds words that are all operands.
fn push_operands<'a>(items: &mut Vec<Item<'a>>, words: &'a [String]) -> Result<(), AllocError>
    ensures { OnOk result (items_shown items.new.items ≡ items_shown items.old.items ++ map Operand (texts words.now)) }
{
    for word in words {
        items.push(Item::Operand(word.as_str()))?;
    }
    Ok(())
}
