//! What the items of a command give: values of options, and operands.
ghost use Rattle.std.specs.Prelude.{◌≡◌, [], ◌++◌, length, slice_index_or, IfOk, OnOk, option_copied};
ghost use Rattle.std.specs.List.{cons_option};
ghost use Rattle.tool_words.specs.Items.{item_value, operand_in, all_values, last_option_value, operands};
ghost use Rattle.tool_words.specs.Shown.{item_shown, items_shown};

use crate::items::Item;
use boot_base::{Text, TextList};
use std::alloc::{AllocError, Global};

impl<'a> Item<'a> {
    // The value that the item gives the option.
    fn value_in(self, option: &str) -> Option<&'a str>
        ensures { option_copied result ≡ item_value option.now (item_shown self.entry) }
    {
        match self {
            Item::Value(text, value) if text == option => Some(value),
            Item::Value(_, _) | Item::Operand(_) => None,
        }
    }

    // The operand that the item is.
    fn operand_in(self) -> Option<&'a str>
        ensures { option_copied result ≡ operand_in (item_shown self.entry) }
    {
        match self {
            Item::Value(_, _) => None,
            Item::Operand(word) => Some(word),
        }
    }
}

/// The last value of the option. That of a flag is empty.
pub(crate) fn last_value<'a>(items: &[Item<'a>], option: &str) -> Option<&'a str>
    ensures { option_copied result ≡ last_option_value option.now (items_shown items.now) }
{
    let mut last = None;
    for item in items {
        last = item.value_in(option).or(last);
    }
    last
}

/// All values of the option, in order.
pub(crate) fn all_values(
    alloc: Global,
    items: &[Item<'_>],
    option: &str,
) -> Result<TextList, AllocError>
    ensures { IfOk result (λ list. list ≡ all_values option.now (items_shown items.now)) }
{
    let mut list = TextList::new(alloc);
    for item in items {
        push_value(alloc, &mut list, item.value_in(option))?;
    }
    Ok(list)
}

// Puts the value at the end, where there is one.
fn push_value(alloc: Global, list: &mut TextList, value: Option<&str>) -> Result<(), AllocError>
    ensures { OnOk result (list.new ≡ list.old ++ cons_option (option_copied value.entry) []) }
{
    if let Some(value) = value {
        let value = Text::of(alloc, value)?;
        list.push(value)?;
    }
    Ok(())
}

/// How many operands there are.
pub(crate) fn operand_count(items: &[Item<'_>]) -> usize
    ensures { result ≡ length (operands (items_shown items.now)) }
{
    let mut count = 0;
    for item in items {
        if item.operand_in().is_some() {
            count += 1;
        }
    }
    count
}

/// The operand at a place, counted from 0. It is empty where there are fewer.
pub(crate) fn operand_at<'a>(items: &[Item<'a>], place: usize) -> &'a str
    ensures { result.now ≡ slice_index_or (operands (items_shown items.now)) place [] }
{
    let mut left = place;
    for item in items {
        if let Some(word) = item.operand_in() {
            if left == 0 {
                return word;
            }
            left -= 1;
        }
    }
    ""
}
