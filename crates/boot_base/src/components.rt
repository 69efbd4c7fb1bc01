//! The components of a path's text, which slashes part.
ghost use Rattle.std.specs.Prelude.{◌≡◌, ◌++◌, not, length, IfOk, OnOk, string_bytes, if◌then◌else◌, ◌==◌, ◌∷◌};
ghost use Rattle.std.specs.List.{list_any};
ghost use Rattle.boot_base.specs.Paths.{components, is_component, is_kept, is_refused, normal_of};

use std::alloc::{AllocError, Global};

/// The most bytes of a component of a path. A temporary file's name has four more.
const COMPONENT_LIMIT: usize = 251;

/// The text is one component of a path.
pub(crate) fn is_one_component(name: &str) -> bool
    ensures { result ≡ is_component name.now }
{
    counts(name) && !name.as_bytes().contains(&b'/')
}

/// Some component of the text counts.
pub(crate) fn has_component(text: &str) -> bool
    ensures { result ≡ list_any is_kept (components text.now) }
{
    text.split('/').any(|component| counts(component))
}

/// A NUL is in the text.
pub(crate) fn has_nul(text: &str) -> bool
    ensures { result ≡ list_any (λ b. b == 0) text.now }
{
    text.as_bytes().contains(&0)
}

/// Some component is `..` or has more than 251 bytes.
pub(crate) fn has_refused_component(text: &str) -> bool
    ensures { result ≡ list_any is_refused (components text.now) }
{
    text.split('/').any(|component| component == ".." || component.len() > COMPONENT_LIMIT)
}

/// The components that count, with a `/` between each two.
pub(crate) fn normal_text(alloc: Global, text: &str) -> Result<String, AllocError>
    ensures { IfOk result (λ normal. string_bytes normal ≡ normal_of text.now) }
{
    let mut normal = String::new(alloc);
    for component in text.split('/') {
        if counts(component) {
            add(&mut normal, component)?;
        }
    }
    Ok(normal)
}

// The component counts: it is neither empty nor `.`.
fn counts(component: &str) -> bool
    ensures { result ≡ is_kept component.now }
{
    !(component.is_empty() || component == ".")
}

fn add(text: &mut String, component: &str) -> Result<(), AllocError>
    ensures { OnOk result (string_bytes text.new
        ≡ (if length (string_bytes text.old) == 0 then component.now
        else string_bytes text.old ++ (47 ∷ component.now))) }
{
    if !text.is_empty() {
        text.push('/')?;
    }
    text.push_str(component)
}

/// The three texts, one behind the other.
pub(crate) fn joined_with(
    alloc: Global,
    front: &str,
    middle: &str,
    back: &str,
) -> Result<String, AllocError>
    ensures { IfOk result (λ text. string_bytes text ≡ front.now ++ (middle.now ++ back.now)) }
{
    format!(in alloc; "{front}{middle}{back}")
}
