//! The fields of a command, each copied once from the words.
ghost use Rattle.std.specs.Prelude.{◌≡◌, [], IfOk, is_some, unwrap_or, option_map, codes, slice_index_or};
ghost use Rattle.tool_words.specs.Items.{last_option_value, operands};
ghost use Rattle.tool_words.specs.Meaning.{inline_or_file, required_value, gather_items, command_from, build_parts, calculate_parts, entry_texts as entry_texts_meant, esp as esp_meant};
ghost use Rattle.tool_words.specs.declared.command.Given.TheVariants.{Inline, File};
ghost use Rattle.tool_words.specs.Shown.{items_shown};
ghost use Rattle.word_grammar.specs.declared.grammar.CommandName.TheVariants.{Build, Calculate, Image, Install, Unlink, LoaderDefault, LoaderTimeout, Type1Install, Keep, Demo};

use crate::command::{
    BlessWord, BuildWords, CalculateWords, Command, EntryTexts, Given, KeepWords, One, PartWords,
    Several, Type1Words,
};
use crate::items::Item;
use crate::values::{all_values, last_value, operand_at};
use boot_base::Text;
use menu_order::BlessVerb;
use std::alloc::{AllocError, Global};
use word_grammar::CommandName;

/// The text itself, or after a leading `@` the path of its file.
pub fn inline_or_file(alloc: Global, value: &str) -> Result<Given, AllocError>
    ensures { IfOk result (λ made. made ≡ inline_or_file value.now) }
{
    match value.strip_prefix('@') {
        Some(path) => Ok(Given::File(Text::of(alloc, path)?)),
        None => {
            let text = Text::of(alloc, value)?;
            Ok(Given::Inline(text))
        }
    }
}

// The last value of the option, or this text where it isn't given.
fn value_or(
    alloc: Global,
    items: &[Item<'_>],
    option: &str,
    absent: &str,
) -> Result<Text, AllocError>
    ensures { IfOk result (λ text. text ≡ unwrap_or (last_option_value option.now (items_shown items.now)) absent.now) }
{
    Text::of(alloc, last_value(items, option).unwrap_or(absent))
}

// The value of a required option, which has been looked for.
fn required_value(alloc: Global, items: &[Item<'_>], option: &str) -> Result<Text, AllocError>
    ensures { IfOk result (λ text. text ≡ required_value (last_option_value option.now (items_shown items.now))) }
{
    value_or(alloc, items, option, "")
}

// The folder of the boot files, which is `efi` where no other is given.
fn esp(alloc: Global, items: &[Item<'_>]) -> Result<Text, AllocError>
    ensures { IfOk result (λ text. text ≡ esp_meant (λ option. last_option_value option (items_shown items.now))) }
{
    value_or(alloc, items, "--esp-path", "efi")
}

// The last value of the option.
fn optional_value(
    alloc: Global,
    items: &[Item<'_>],
    option: &str,
) -> Result<Option<Text>, AllocError>
    ensures { IfOk result (λ text. text ≡ last_option_value option.now (items_shown items.now)) }
{
    Ok(match last_value(items, option) {
        Some(value) => Some(Text::of(alloc, value)?),
        None => None,
    })
}

// The last value of the option, as a text or after a leading `@` as the path of its file.
fn text_or_file(
    alloc: Global,
    items: &[Item<'_>],
    option: &str,
) -> Result<Option<Given>, AllocError>
    ensures { IfOk result (λ given.
        given ≡ option_map inline_or_file (last_option_value option.now (items_shown items.now))) }
{
    Ok(match last_value(items, option) {
        Some(value) => Some(inline_or_file(alloc, value)?),
        None => None,
    })
}

// The last value of the option, as a text.
fn inline(alloc: Global, items: &[Item<'_>], option: &str) -> Result<Option<Given>, AllocError>
    ensures { IfOk result (λ given.
        given ≡ option_map Inline (last_option_value option.now (items_shown items.now))) }
{
    let text = optional_value(alloc, items, option)?;
    Ok(text.map(Given::Inline))
}

// The last value of the option, as the path of a file.
fn file(alloc: Global, items: &[Item<'_>], option: &str) -> Result<Option<Given>, AllocError>
    ensures { IfOk result (λ given.
        given ≡ option_map File (last_option_value option.now (items_shown items.now))) }
{
    let path = optional_value(alloc, items, option)?;
    Ok(path.map(Given::File))
}

// Whether the option is given.
fn is_given(items: &[Item<'_>], option: &str) -> bool
    ensures { result ≡ is_some (last_option_value option.now (items_shown items.now)) }
{
    last_value(items, option).is_some()
}

// The operand at a place. As many as the command takes have been counted.
fn operand(alloc: Global, items: &[Item<'_>], place: usize) -> Result<Text, AllocError>
    ensures { IfOk result (λ text. text ≡ slice_index_or (operands (items_shown items.now)) place []) }
{
    Text::of(alloc, operand_at(items, place))
}

// The parts of a build.
fn build_parts(alloc: Global, items: &[Item<'_>]) -> Result<PartWords<Given>, AllocError>
    ensures { IfOk result
        (λ made. made ≡ build_parts (λ option. last_option_value option (items_shown items.now))) }
{
    Ok(PartWords {
        osrel: text_or_file(alloc, items, "--os-release")?,
        cmdline: text_or_file(alloc, items, "--cmdline")?,
        sbat: text_or_file(alloc, items, "--sbat")?,
        dtb: file(alloc, items, "--devicetree")?,
        uname: inline(alloc, items, "--uname")?,
        splash: file(alloc, items, "--splash")?,
        pcrpkey: file(alloc, items, "--pcrpkey")?,
        ucode: file(alloc, items, "--microcode")?,
    })
}

// `ukify build`.
fn build(alloc: Global, items: &[Item<'_>]) -> Result<Command, AllocError>
    ensures { IfOk result (λ made. made ≡ command_from Build (gather_items Build (items_shown items.now))) }
{
    Ok(Command::One(One::Build(BuildWords {
        stub: required_value(alloc, items, "--stub")?,
        linux: required_value(alloc, items, "--linux")?,
        output: required_value(alloc, items, "--output")?,
        parts: build_parts(alloc, items)?,
        initrds: all_values(alloc, items, "--initrd")?,
        sections: all_values(alloc, items, "--section")?,
        measure: is_given(items, "--measure"),
    })))
}

// The parts of a calculation.
fn calculate_parts(alloc: Global, items: &[Item<'_>]) -> Result<PartWords<Text>, AllocError>
    ensures { IfOk result
        (λ made. made ≡ calculate_parts (λ option. last_option_value option (items_shown items.now))) }
{
    Ok(PartWords {
        osrel: optional_value(alloc, items, "--osrel")?,
        cmdline: optional_value(alloc, items, "--cmdline")?,
        sbat: optional_value(alloc, items, "--sbat")?,
        dtb: optional_value(alloc, items, "--dtb")?,
        uname: optional_value(alloc, items, "--uname")?,
        splash: optional_value(alloc, items, "--splash")?,
        pcrpkey: optional_value(alloc, items, "--pcrpkey")?,
        ucode: optional_value(alloc, items, "--ucode")?,
    })
}

// `measure calculate`.
fn calculate(alloc: Global, items: &[Item<'_>]) -> Result<Command, AllocError>
    ensures { IfOk result (λ made. made ≡ command_from Calculate (gather_items Calculate (items_shown items.now))) }
{
    Ok(Command::One(One::Calculate(CalculateWords {
        linux: required_value(alloc, items, "--linux")?,
        initrd: optional_value(alloc, items, "--initrd")?,
        parts: calculate_parts(alloc, items)?,
        banks: all_values(alloc, items, "--bank")?,
        phases: all_values(alloc, items, "--phase")?,
        json: is_given(items, "--json"),
    })))
}

// `measure image`.
fn image(alloc: Global, items: &[Item<'_>]) -> Result<Command, AllocError>
    ensures { IfOk result (λ made. made ≡ command_from Image (gather_items Image (items_shown items.now))) }
{
    Ok(Command::One(One::Image {
        file: operand(alloc, items, 0)?,
        banks: all_values(alloc, items, "--bank")?,
        phases: all_values(alloc, items, "--phase")?,
        json: is_given(items, "--json"),
    }))
}

// `install`.
fn install(alloc: Global, items: &[Item<'_>]) -> Result<Command, AllocError>
    ensures { IfOk result (λ made. made ≡ command_from Install (gather_items Install (items_shown items.now))) }
{
    Ok(Command::One(One::Install {
        file: operand(alloc, items, 0)?,
        name: operand(alloc, items, 1)?,
        tries: optional_value(alloc, items, "--tries")?,
        esp: esp(alloc, items)?,
    }))
}

// The texts of an entry that names payloads.
fn entry_texts(alloc: Global, items: &[Item<'_>]) -> Result<EntryTexts, AllocError>
    ensures { IfOk result
        (λ made. made ≡ entry_texts_meant (λ option. last_option_value option (items_shown items.now))) }
{
    Ok(EntryTexts {
        title: optional_value(alloc, items, "--title")?,
        version: optional_value(alloc, items, "--version")?,
        machine_id: optional_value(alloc, items, "--machine-id")?,
        sort_key: optional_value(alloc, items, "--sort-key")?,
        options: optional_value(alloc, items, "--options")?,
    })
}

// `type1 install`.
fn type1_install(alloc: Global, items: &[Item<'_>]) -> Result<Command, AllocError>
    ensures { IfOk result
        (λ made. made ≡ command_from Type1Install (gather_items Type1Install (items_shown items.now))) }
{
    Ok(Command::Several(Several::Type1Install(Type1Words {
        name: operand(alloc, items, 0)?,
        linux: required_value(alloc, items, "--linux")?,
        initrds: all_values(alloc, items, "--initrd")?,
        texts: entry_texts(alloc, items)?,
        esp: esp(alloc, items)?,
    })))
}

// `demo`.
fn demo(alloc: Global, items: &[Item<'_>]) -> Result<Command, AllocError>
    ensures { IfOk result (λ made. made ≡ command_from Demo (gather_items Demo (items_shown items.now))) }
{
    Ok(Command::Several(Several::Demo {
        seed: operand(alloc, items, 0)?,
        count: operand(alloc, items, 1)?,
    }))
}

// `bless` with this verb.
fn bless(alloc: Global, verb: BlessWord, items: &[Item<'_>]) -> Result<Command, AllocError>
    ensures { IfOk result (λ made. made ≡ Command.One (One.Bless verb
        (slice_index_or (operands (items_shown items.now)) 0 [])
        (esp_meant (λ option. last_option_value option (items_shown items.now))))) }
{
    Ok(Command::One(One::Bless {
        verb,
        path: operand(alloc, items, 0)?,
        esp: esp(alloc, items)?,
    }))
}

// `bootctl unlink`.
fn unlink(alloc: Global, items: &[Item<'_>]) -> Result<Command, AllocError>
    ensures { IfOk result (λ made. made ≡ command_from Unlink (gather_items Unlink (items_shown items.now))) }
{
    Ok(Command::One(One::Unlink {
        name: operand(alloc, items, 0)?,
        esp: esp(alloc, items)?,
    }))
}

// `loader set-default`.
fn loader_default(alloc: Global, items: &[Item<'_>]) -> Result<Command, AllocError>
    ensures { IfOk result
        (λ made. made ≡ command_from LoaderDefault (gather_items LoaderDefault (items_shown items.now))) }
{
    Ok(Command::One(One::LoaderDefault {
        pattern: operand(alloc, items, 0)?,
        esp: esp(alloc, items)?,
    }))
}

// `loader set-timeout`.
fn loader_timeout(alloc: Global, items: &[Item<'_>]) -> Result<Command, AllocError>
    ensures { IfOk result
        (λ made. made ≡ command_from LoaderTimeout (gather_items LoaderTimeout (items_shown items.now))) }
{
    Ok(Command::One(One::LoaderTimeout {
        value: operand(alloc, items, 0)?,
        esp: esp(alloc, items)?,
    }))
}

// `keep`.
fn keep(alloc: Global, items: &[Item<'_>]) -> Result<Command, AllocError>
    ensures { IfOk result (λ made. made ≡ command_from Keep (gather_items Keep (items_shown items.now))) }
{
    Ok(Command::Several(Several::Keep(KeepWords {
        number: operand(alloc, items, 0)?,
        per_key: is_given(items, "--per-key"),
        dry_run: is_given(items, "--dry-run"),
        esp: esp(alloc, items)?,
    })))
}

/// The command that these items give. Its operands have been counted, and its required options looked for.
pub(crate) fn fill(
    alloc: Global,
    command: CommandName,
    items: &[Item<'_>],
) -> Result<Command, AllocError>
    ensures { IfOk result (λ made. made ≡ command_from command (gather_items command (items_shown items.now))) }
{
    match command {
        CommandName::Build => build(alloc, items),
        CommandName::Inspect => Ok(Command::One(One::Inspect {
            file: operand(alloc, items, 0)?,
            json: is_given(items, "--json"),
        })),
        CommandName::Calculate => calculate(alloc, items),
        CommandName::Image => image(alloc, items),
        CommandName::ListEntries => Ok(Command::One(One::List {
            esp: esp(alloc, items)?,
            json: is_given(items, "--json"),
        })),
        CommandName::Unlink => unlink(alloc, items),
        CommandName::Identify => Ok(Command::One(One::Identify {
            file: operand(alloc, items, 0)?,
        })),
        CommandName::Tidy => Ok(Command::One(One::Tidy {
            esp: esp(alloc, items)?,
        })),
        CommandName::Install => install(alloc, items),
        CommandName::Boot => Ok(Command::One(One::Boot {
            esp: esp(alloc, items)?,
        })),
        CommandName::BlessGood => bless(alloc, BlessWord::Mark(BlessVerb::Good), items),
        CommandName::BlessBad => bless(alloc, BlessWord::Mark(BlessVerb::Bad), items),
        CommandName::BlessIndeterminate => {
            bless(alloc, BlessWord::Mark(BlessVerb::Indeterminate), items)
        }
        CommandName::BlessStatus => bless(alloc, BlessWord::Status, items),
        CommandName::LoaderShow => Ok(Command::One(One::LoaderShow {
            esp: esp(alloc, items)?,
        })),
        CommandName::LoaderDefault => loader_default(alloc, items),
        CommandName::LoaderTimeout => loader_timeout(alloc, items),
        CommandName::Type1Install => type1_install(alloc, items),
        CommandName::Type1Cleanup => Ok(Command::Several(Several::Type1Cleanup {
            esp: esp(alloc, items)?,
        })),
        CommandName::Keep => keep(alloc, items),
        CommandName::Script => Ok(Command::Script),
        CommandName::Demo => demo(alloc, items),
    }
}
