//! Rows: calls with their arguments.
use crate::fault::RowFault;
use crate::notation::{bytes_of, number_of};
use std::alloc::Global;
use std::str;

// The arguments of a text.
fn read_arguments(alloc: Global, text: &str) -> Result<Vec<Vec<u8>>, RowFault> {
    let mut arguments = Vec::new(alloc);
    for argument in text.split('|') {
        arguments.push(bytes_of(alloc, argument)?)?;
    }
    Ok(arguments)
}

#[derive(Drop)]
pub(crate) struct Row<'a> {
    pub(crate) call: &'a str,
    arguments: Vec<Vec<u8>>,
}

impl<'a> Row<'a> {
    pub(crate) fn read(alloc: Global, line: &'a str) -> Result<Row<'a>, RowFault> {
        let (call, rest) = line.split_once(' ').unwrap_or((line, ""));
        let arguments = read_arguments(alloc, rest)?;
        Ok(Row { call, arguments })
    }

    /// The argument at a place, counted from 0.
    pub(crate) fn bytes(&self, place: usize) -> Result<&[u8], RowFault> {
        match self.arguments.get(place) {
            Some(argument) => Ok(argument.as_slice()),
            None => Err(RowFault::Unclear),
        }
    }

    /// The argument at a place, as a text.
    pub(crate) fn text(&self, place: usize) -> Result<&str, RowFault> {
        match str::from_utf8(self.bytes(place)?) {
            Ok(text) => Ok(text),
            Err(_) => Err(RowFault::Unclear),
        }
    }

    /// The argument at a place, as a number.
    pub(crate) fn number(&self, place: usize) -> Result<u32, RowFault> {
        number_of(self.text(place)?)
    }
}
