//! Texts of answers.
use boot_base::AppendText;
use std::alloc::{AllocError, Global};

/// A name that may be there.
pub(crate) fn text_or_none(alloc: Global, text: Option<String>) -> Result<String, AllocError> {
    match text {
        Some(text) => Ok(text),
        None => String::from_str(alloc, "none"),
    }
}

/// The printed text of a value.
pub(crate) fn text_of_value<T: AppendText>(alloc: Global, value: &T) -> Result<String, AllocError> {
    let mut text = Vec::new(alloc);
    value.append_to(&mut text)?;
    String::from_utf8_lossy(alloc, text.as_slice())
}
