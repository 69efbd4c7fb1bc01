//! The text of a menu.
ghost use Rattle.std.specs.Prelude.{◌≡◌, ◌++◌, IfOk, OnOk, option_copied, flat_map};
ghost use Rattle.boot_entries.specs.Listing.{line, some_line, type_text, title_or_base, status_text, tries_line, initrd_lines, options_line, title_lines, file_lines, key_lines, counter_lines, boot_lines, kernel_lines, extra_lines, item_text, behind_space, behind_newline, list_text};

use boot_base::Bytes;
use menu_order::{Counter, MenuItem, Suffix};
use std::alloc::{AllocError, Global};

/// The text of a menu: for each entry, in order, a line for each value that it has, with an empty line between
/// each two entries. Want of memory is its one fault.
pub fn list_text(alloc: Global, items: &[MenuItem]) -> Result<Vec<u8>, AllocError>
    ensures { IfOk result (λ text. text.items ≡ list_text items.now) }
{
    let mut out = Vec::new(alloc);
    let Some((first, later)) = items.split_first() else {
        return Ok(out);
    };
    append_item(&mut out, first)?;
    for item in later {
        append_later(&mut out, item)?;
    }
    Ok(out)
}

// Puts the lines of an entry behind `out`.
fn append_item(out: &mut Vec<u8>, item: &MenuItem) -> Result<(), AllocError>
    ensures { OnOk result (out.new.items ≡ out.old.items ++ item_text item.now) }
{
    append_names(out, item)?;
    append_order(out, item)?;
    append_boots(out, item)
}

// What the entry is, and which file it is of.
fn append_names(out: &mut Vec<u8>, item: &MenuItem) -> Result<(), AllocError>
    ensures { OnOk result (out.new.items ≡ out.old.items ++ (title_lines item.now ++ file_lines item.now)) }
{
    append_title(out, item)?;
    append_file(out, item)
}

// What it is ordered by, and how its boots went.
fn append_order(out: &mut Vec<u8>, item: &MenuItem) -> Result<(), AllocError>
    ensures { OnOk result (out.new.items ≡ out.old.items ++ (key_lines item.now ++ counter_lines item.now.counter)) }
{
    append_keys(out, item)?;
    append_counter(out, item.counter)
}

// Puts an empty line and the lines of an entry behind `out`.
fn append_later(out: &mut Vec<u8>, item: &MenuItem) -> Result<(), AllocError>
    ensures { OnOk result (out.new.items ≡ out.old.items ++ behind_newline item.now) }
{
    out.push(b'\n')?;
    append_item(out, item)
}

// What the entry is.
#[tactic(auto, unfolding(crate::specs::Listing::title_lines))]
fn append_title(out: &mut Vec<u8>, item: &MenuItem) -> Result<(), AllocError>
    ensures { OnOk result (out.new.items ≡ out.old.items ++ title_lines item.now) }
{
    append_line(out, "        type: ", type_text(item.suffix).as_bytes())?;
    append_some(out, "       title: ", title(item))
}

// Which file it is of.
#[tactic(auto, unfolding(crate::specs::Listing::file_lines))]
fn append_file(out: &mut Vec<u8>, item: &MenuItem) -> Result<(), AllocError>
    ensures { OnOk result (out.new.items ≡ out.old.items ++ file_lines item.now) }
{
    let id = item.id(*out.allocator())?;
    append_line(out, "          id: ", id.as_slice())?;
    append_parts(out, "      source: ", b"/", item.path.as_str().as_bytes())
}

// What it is ordered by.
#[tactic(auto, unfolding(crate::specs::Listing::key_lines))]
fn append_keys(out: &mut Vec<u8>, item: &MenuItem) -> Result<(), AllocError>
    ensures { OnOk result (out.new.items ≡ out.old.items ++ key_lines item.now) }
{
    append_some(out, "    sort-key: ", item.sort_key.as_ref())?;
    if item.suffix == Suffix::Conf {
        append_some(out, "  machine-id: ", item.machine_id.as_ref())?;
    }
    append_some(out, "     version: ", item.version.as_ref())
}

// How its boots went.
#[tactic(auto, unfolding(crate::specs::Listing::counter_lines))]
fn append_counter(out: &mut Vec<u8>, counter: Option<Counter>) -> Result<(), AllocError>
    ensures { OnOk result (out.new.items ≡ out.old.items ++ counter_lines counter) }
{
    append_tries(out, counter)?;
    append_line(out, "      status: ", status_text(counter).as_bytes())
}

// How many boots are left and were tried.
fn append_tries(out: &mut Vec<u8>, counter: Option<Counter>) -> Result<(), AllocError>
    ensures { OnOk result (out.new.items ≡ out.old.items ++ tries_line counter) }
{
    match counter {
        None => Ok(()),
        Some(Counter { left, done }) => {
            let tries = format!(in *out.allocator(); "{left} left, {done} done")?;
            append_line(out, "       tries: ", tries.as_bytes())
        }
    }
}

// What a type 1 entry boots.
#[tactic(auto, unfolding(crate::specs::Listing::boot_lines))]
fn append_boots(out: &mut Vec<u8>, item: &MenuItem) -> Result<(), AllocError>
    ensures { OnOk result (out.new.items ≡ out.old.items ++ boot_lines item.now) }
{
    match item.suffix {
        Suffix::Efi => Ok(()),
        Suffix::Conf => {
            append_kernel(out, item)?;
            append_extras(out, item)
        }
    }
}

// The kernel or the EFI program.
#[tactic(auto, unfolding(crate::specs::Listing::kernel_lines))]
fn append_kernel(out: &mut Vec<u8>, item: &MenuItem) -> Result<(), AllocError>
    ensures { OnOk result (out.new.items ≡ out.old.items ++ kernel_lines item.now) }
{
    append_some(out, "       linux: ", item.linux.as_ref())?;
    append_some(out, "         efi: ", item.efi.as_ref())
}

// What it is given.
#[tactic(auto, unfolding(crate::specs::Listing::extra_lines))]
fn append_extras(out: &mut Vec<u8>, item: &MenuItem) -> Result<(), AllocError>
    ensures { OnOk result (out.new.items ≡ out.old.items ++ extra_lines item.now) }
{
    append_initrds(out, item.initrds.as_slice())?;
    append_options(out, item.options.as_slice())
}

fn append_initrds(out: &mut Vec<u8>, initrds: &[Bytes]) -> Result<(), AllocError>
    ensures { OnOk result (out.new.items ≡ out.old.items ++ initrd_lines initrds.now) }
{
    for initrd in initrds {
        append_line(out, "      initrd: ", initrd.as_slice())?;
    }
    Ok(())
}

fn append_options(out: &mut Vec<u8>, options: &[Bytes]) -> Result<(), AllocError>
    ensures { OnOk result (out.new.items ≡ out.old.items ++ options_line options.now) }
{
    let Some((first, later)) = options.split_first() else {
        return Ok(());
    };
    let text = join_texts(*out.allocator(), first, later)?;
    append_line(out, "     options: ", &text)
}

/// Texts with a space between each two. Want of memory is its one fault.
pub fn join_texts(alloc: Global, first: &Bytes, later: &[Bytes]) -> Result<Vec<u8>, AllocError>
    ensures { IfOk result (λ text. text.items ≡ first.now ++ flat_map behind_space later.now) }
{
    let mut text = first.as_slice().to_vec(alloc)?;
    for option in later {
        append_option(&mut text, option)?;
    }
    Ok(text)
}

fn append_option(text: &mut Vec<u8>, option: &Bytes) -> Result<(), AllocError>
    ensures { OnOk result (text.new.items ≡ text.old.items ++ behind_space option.now) }
{
    text.push(b' ')?;
    text.extend_from_slice(option.as_slice())
}

// Puts a line behind `out`: a label and a value.
fn append_line(out: &mut Vec<u8>, label: &str, value: &[u8]) -> Result<(), AllocError>
    ensures { OnOk result (out.new.items ≡ out.old.items ++ line label.now value.now) }
{
    append_parts(out, label, value, b"")
}

// Puts a line behind `out`: a label and a value in two parts.
fn append_parts(out: &mut Vec<u8>, label: &str, front: &[u8], back: &[u8]) -> Result<(), AllocError>
    ensures { OnOk result (out.new.items ≡ out.old.items ++ line label.now (front.now ++ back.now)) }
{
    out.extend_from_slice(label.as_bytes())?;
    out.extend_from_slice(front)?;
    out.extend_from_slice(back)?;
    Ok(out.push(b'\n')?)
}

// Puts a line behind `out` where there is a value.
fn append_some(out: &mut Vec<u8>, label: &str, value: Option<&Bytes>) -> Result<(), AllocError>
    ensures { OnOk result (out.new.items ≡ out.old.items ++ some_line label.now (option_copied value.entry)) }
{
    match value {
        Some(value) => append_line(out, label, value.as_slice()),
        None => Ok(()),
    }
}

fn type_text(suffix: Suffix) -> &'static str
    ensures { result.now ≡ type_text suffix }
{
    match suffix {
        Suffix::Conf => "type1 (.conf)",
        Suffix::Efi => "type2 (.efi)",
    }
}

/// The title that is shown: for type 1 without one the base. It takes no memory.
pub fn title(item: &MenuItem) -> Option<&Bytes>
    ensures { option_copied result ≡ title_or_base item.now.suffix item.now.base item.now.title }
{
    match (&item.title, item.suffix) {
        (Some(title), _) => Some(title),
        (None, Suffix::Conf) => Some(&item.base),
        (None, Suffix::Efi) => None,
    }
}

/// What a counter tells of the entry: `good`, `bad` or `indeterminate`. It takes no memory.
pub fn status_text(counter: Option<Counter>) -> &'static str
    ensures { result.now ≡ status_text counter }
{
    match counter {
        None => "good",
        Some(Counter { left: 0, .. }) => "bad",
        Some(_) => "indeterminate",
    }
}
