//! Calls on patterns of entries, and on texts of loader.conf.
use crate::fault::RowFault;
use crate::row::Row;
use crate::settings::add_value;
use boot_base::{Bytes, BytesList};
use boot_texts::{ConfKey, LoaderConf, default_place, is_pattern, matches, may_be_value, with_key};
use std::alloc::{AllocError, Global};

fn answer(alloc: Global, is: bool) -> Result<Vec<u8>, AllocError> {
    let text = if is { "yes" } else { "no" };
    text.as_bytes().to_vec(alloc)
}

pub(crate) fn tell_matched(alloc: Global, row: &Row<'_>) -> Result<Vec<u8>, RowFault> {
    Ok(answer(alloc, matches(row.bytes(0)?, row.bytes(1)?))?)
}

pub(crate) fn pattern(alloc: Global, row: &Row<'_>) -> Result<Vec<u8>, RowFault> {
    Ok(answer(alloc, is_pattern(row.bytes(0)?))?)
}

fn key_of(name: &str) -> Result<ConfKey, RowFault> {
    match name {
        "default" => Ok(ConfKey::Default),
        "timeout" => Ok(ConfKey::Timeout),
        _ => Err(RowFault::Unclear),
    }
}

pub(crate) fn value(alloc: Global, row: &Row<'_>) -> Result<Vec<u8>, RowFault> {
    let key = key_of(row.text(0)?)?;
    Ok(answer(alloc, may_be_value(key, row.bytes(1)?))?)
}

fn add_settings(told: &mut Vec<u8>, conf: &LoaderConf) -> Result<(), AllocError> {
    add_value(told, "default", bytes_of_value(&conf.default))?;
    add_value(told, "timeout", bytes_of_value(&conf.timeout))
}

// The bytes of a value that is there.
fn bytes_of_value(value: &Option<Bytes>) -> Option<&[u8]> {
    match value {
        Some(value) => Some(value.as_slice()),
        None => None,
    }
}

pub(crate) fn settings(alloc: Global, row: &Row<'_>) -> Result<Vec<u8>, RowFault> {
    let conf = LoaderConf::read(alloc, row.bytes(0)?)?;
    let mut told = Vec::new(alloc);
    add_settings(&mut told, &conf)?;
    Ok(told)
}

pub(crate) fn change(alloc: Global, row: &Row<'_>) -> Result<Vec<u8>, RowFault> {
    let key = key_of(row.text(0)?)?;
    let value = row.bytes(1)?;
    if !may_be_value(key, value) {
        return Err(RowFault::Unclear);
    }
    Ok(with_key(alloc, row.bytes(2)?, key, value)?)
}

// The ids, each of them between newlines.
fn ids_of(alloc: Global, text: &[u8]) -> Result<BytesList, AllocError> {
    let mut ids = BytesList::new(alloc);
    for id in text.split(|byte| *byte == b'\n') {
        if !id.is_empty() {
            ids.push(Bytes::of(alloc, id)?)?;
        }
    }
    Ok(ids)
}

fn place_text(alloc: Global, place: Option<usize>) -> Result<String, AllocError> {
    match place {
        Some(place) => format!(in alloc; "{place}"),
        None => String::from_str(alloc, "none"),
    }
}

// The place of the id that a text of loader.conf chooses.
fn choose_place(alloc: Global, text: &[u8], ids: &[u8]) -> Result<Option<usize>, AllocError> {
    let ids = ids_of(alloc, ids)?;
    let conf = LoaderConf::read(alloc, text)?;
    Ok(default_place(ids.as_slice(), &conf))
}

pub(crate) fn choice(alloc: Global, row: &Row<'_>) -> Result<Vec<u8>, RowFault> {
    let place = choose_place(alloc, row.bytes(0)?, row.bytes(1)?)?;
    Ok(place_text(alloc, place)?.into_bytes())
}
