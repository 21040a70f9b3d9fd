//! The fields of a table of TOML, each read as the type that it must have.

use super::running::Failure;
use std::alloc::Global;
use toml::{Table, Value};

/// Fails if a key of the table is none of the names.
pub fn only(alloc: Global, table: &Table, names: &[&str]) -> Result<(), Failure> {
    for key in table.keys() {
        if !names.contains(&key.as_str()) {
            return Err(Failure::Unknown(String::from_str(alloc, key)?));
        }
    }
    Ok(())
}

/// The text of that name, if the table has one.
pub fn text_if_any<'a>(table: &'a Table, name: &'static str) -> Result<Option<&'a str>, Failure> {
    match table.get(name) {
        Some(value) => match value.as_str() {
            Some(text) => Ok(Some(text)),
            None => Err(Failure::Field(name)),
        },
        None => Ok(None),
    }
}

/// The text of that name.
pub fn text<'a>(table: &'a Table, name: &'static str) -> Result<&'a str, Failure> {
    match text_if_any(table, name)? {
        Some(text) => Ok(text),
        None => Err(Failure::Field(name)),
    }
}

/// Whether the table says `true` under that name.
pub fn switch(table: &Table, name: &'static str) -> Result<bool, Failure> {
    match table.get(name) {
        Some(value) => match value.as_bool() {
            Some(switch) => Ok(switch),
            None => Err(Failure::Field(name)),
        },
        None => Ok(false),
    }
}

fn number_of(value: &Value, name: &'static str) -> Result<u64, Failure> {
    match value.as_integer() {
        Some(number) if number >= 0 => Ok(number.unsigned_abs()),
        _ => Err(Failure::Field(name)),
    }
}

/// The number of that name, if the table has one.
pub fn number_if_any(table: &Table, name: &'static str) -> Result<Option<u64>, Failure> {
    match table.get(name) {
        Some(value) => Ok(Some(number_of(value, name)?)),
        None => Ok(None),
    }
}

/// The number of that name, which is below 256.
pub fn small_number(table: &Table, name: &'static str) -> Result<u8, Failure> {
    match number_if_any(table, name)? {
        Some(number) if number < 256 => Ok(number as u8),
        _ => Err(Failure::Field(name)),
    }
}

/// The list of that name, if the table has one.
pub fn list_if_any<'a>(
    table: &'a Table,
    name: &'static str,
) -> Result<Option<&'a [Value]>, Failure> {
    match table.get(name) {
        Some(value) => match value.as_array() {
            Some(list) => Ok(Some(list.as_slice())),
            None => Err(Failure::Field(name)),
        },
        None => Ok(None),
    }
}

/// The list of that name, empty where the table has none.
pub fn list<'a>(table: &'a Table, name: &'static str) -> Result<&'a [Value], Failure> {
    Ok(list_if_any(table, name)?.unwrap_or(&[]))
}

/// The table that is the value of the list of that name.
pub fn table_of<'a>(value: &'a Value, name: &'static str) -> Result<&'a Table, Failure> {
    match value.as_table() {
        Some(table) => Ok(table),
        None => Err(Failure::Field(name)),
    }
}

/// The texts of the list of that name.
pub fn texts_of<'a>(
    alloc: Global,
    list: &'a [Value],
    name: &'static str,
) -> Result<Vec<&'a str>, Failure> {
    let mut texts = Vec::new(alloc);
    for value in list {
        match value.as_str() {
            Some(text) => texts.push(text)?,
            None => return Err(Failure::Field(name)),
        }
    }
    Ok(texts)
}

/// The numbers of the list of that name, none where the table has no such list.
pub fn numbers(alloc: Global, table: &Table, name: &'static str) -> Result<Vec<u64>, Failure> {
    let list = list(table, name)?;
    let mut numbers = Vec::new(alloc);
    for value in list {
        numbers.push(number_of(value, name)?)?;
    }
    Ok(numbers)
}
