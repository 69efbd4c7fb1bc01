//! The items of a pattern.
ghost use Rattle.std.specs.Prelude.{◌≡◌, ◌<◌, ◌≤◌, length, IfSome, option_map};
ghost use Rattle.std.specs.List.{list_any, position_or_len};
ghost use Rattle.boot_texts.specs.Patterns.{is_any_run, item_takes, member_holds, members_of};
ghost use Rattle.boot_texts.specs.PatternItems.{ends_set, escape_reading, item_of, item_reading, set_reading};

/// An item of a pattern.
#[derive(Clone, Copy)]
pub(crate) enum Item<'a> {
    /// `*`, which matches any run of bytes.
    AnyRun,
    /// `?`, which matches one byte.
    AnyByte,
    /// A set, with what stands between its brackets.
    Set(&'a [u8]),
    /// A backslash and the byte that it escapes.
    Escaped(u8),
    /// A byte that stands for itself.
    Plain(u8),
}

impl<'a> Item<'a> {
    /// The item is `*`.
    pub(crate) fn is_any_run(self) -> bool
        ensures { result ≡ is_any_run (item_of self.entry) }
    {
        matches!(self, Item::AnyRun)
    }

    /// The item matches this one byte; `*` is no question of one byte.
    pub(crate) fn takes(self, byte: u8) -> bool
        ensures { result ≡ item_takes (item_of self.entry) byte }
    {
        match self {
            Item::AnyRun => false,
            Item::AnyByte => true,
            Item::Set(between) => set_holds(between, byte),
            Item::Escaped(other) | Item::Plain(other) => byte == other,
        }
    }
}

/// The first item of a pattern and what is behind it; nothing where no item stands there.
pub(crate) fn first_item(pattern: &[u8]) -> Option<(Item<'_>, &[u8])>
    ensures value { option_map (λ pair. (item_of pair.0, pair.1.now)) result ≡ item_reading pattern.now }
    ensures shorter { IfSome result (λ pair. length pair.1.now < length pattern.now) }
{
    let (first, rest) = pattern.split_first()?;
    match *first {
        b'*' => Some((Item::AnyRun, rest)),
        b'?' => Some((Item::AnyByte, rest)),
        b'[' => set_item(rest),
        b'\\' => escaped_item(rest),
        byte => Some((Item::Plain(byte), rest)),
    }
}

// The set behind its opening bracket.
fn set_item(text: &[u8]) -> Option<(Item<'_>, &[u8])>
    ensures value { option_map (λ pair. (item_of pair.0, pair.1.now)) result ≡ set_reading text.now }
    ensures shorter { IfSome result (λ pair. length pair.1.now < length text.now) }
{
    let end = set_length(text);
    if end == 0 || end == text.len() {
        return None;
    }
    Some((Item::Set(&text[..end]), &text[end + 1..]))
}

// How many bytes stand before the first closing bracket.
fn set_length(text: &[u8]) -> usize
    ensures value { result ≡ position_or_len ends_set text.now }
    ensures bound { result ≤ length text.now }
{
    text.iter().take_while(|byte| **byte != b']').count()
}

// The byte behind a backslash.
fn escaped_item(text: &[u8]) -> Option<(Item<'_>, &[u8])>
    ensures value { option_map (λ pair. (item_of pair.0, pair.1.now)) result ≡ escape_reading text.now }
    ensures shorter { IfSome result (λ pair. length pair.1.now < length text.now) }
{
    let (byte, rest) = text.split_first()?;
    Some((Item::Escaped(*byte), rest))
}

// The set with these members holds the byte.
fn set_holds(between: &[u8], byte: u8) -> bool
    ensures { result ≡ list_any (member_holds byte) (members_of between.now) }
{
    let mut members = between;
    while let Some((first, rest)) = members.split_first() {
        let behind = match rest {
            [b'-', high, behind @ ..] => {
                if *first <= byte && byte <= *high {
                    return true;
                }
                behind
            }
            _ => {
                if byte == *first {
                    return true;
                }
                rest
            }
        };
        members = behind;
    }
    false
}
