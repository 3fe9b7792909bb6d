// A case, and the line of data that spells it.

use crate::latin::bytes_of;
use serde_json::Value;
use std::alloc::{AllocError, AllocFailed, Global};
use thiserror::Error;

/// What a run answers: the output, the message with its line feed, and the number of the status.
#[derive(Debug, PartialEq, Eq, Drop)]
pub struct Answer {
    pub output: Vec<u8>,
    pub message: Vec<u8>,
    pub status: u8,
}

/// A run that is to be tried: its words, its files by name, and what it answers.
#[derive(Debug, Drop)]
pub struct Case {
    pub name: String,
    pub words: Vec<String>,
    pub files: Vec<(String, Vec<u8>)>,
    pub wanted: Answer,
}

/// Why a line is no case.
#[derive(Debug, Drop, Error)]
pub enum LineFault {
    #[error("out of memory")]
    NoMemory,
    #[error("not a JSON value")]
    NotJson,
    #[error("a field is missing or has another type: {0}")]
    Field(&'static str),
}

impl From<AllocError> for LineFault {
    fn from(_: AllocError) -> Self {
        LineFault::NoMemory
    }
}

impl<T: Drop> From<AllocFailed<T>> for LineFault {
    fn from(_: AllocFailed<T>) -> Self {
        LineFault::NoMemory
    }
}

/// The text of a field.
fn text_field<'v>(value: &'v Value, field: &'static str) -> Result<&'v str, LineFault> {
    let Some(text) = value.get(field).and_then(Value::as_str) else {
        return Err(LineFault::Field(field));
    };
    Ok(text)
}

/// The bytes of a field, whose text has a character for each.
fn bytes_field(alloc: Global, value: &Value, field: &'static str) -> Result<Vec<u8>, LineFault> {
    let text = text_field(value, field)?;
    let Some(bytes) = bytes_of(alloc, text)? else {
        return Err(LineFault::Field(field));
    };
    Ok(bytes)
}

/// The words of a run.
fn words_of(alloc: Global, value: &Value) -> Result<Vec<String>, LineFault> {
    let Some(list) = value.get("args").and_then(Value::as_array) else {
        return Err(LineFault::Field("args"));
    };
    let mut words = Vec::new(alloc);
    for item in list {
        let Some(word) = item.as_str() else {
            return Err(LineFault::Field("args"));
        };
        words.push(String::from_str(alloc, word)?)?;
    }
    Ok(words)
}

/// The files of a run, by name.
fn files_of(alloc: Global, value: &Value) -> Result<Vec<(String, Vec<u8>)>, LineFault> {
    let Some(members) = value.get("files").and_then(Value::as_object) else {
        return Err(LineFault::Field("files"));
    };
    let mut files = Vec::new(alloc);
    for (name, content) in members {
        let Some(text) = content.as_str() else {
            return Err(LineFault::Field("files"));
        };
        let Some(bytes) = bytes_of(alloc, text)? else {
            return Err(LineFault::Field("files"));
        };
        files.push((String::from_str(alloc, name.as_str())?, bytes))?;
    }
    Ok(files)
}

/// What a run is to answer.
fn wanted_of(alloc: Global, value: &Value) -> Result<Answer, LineFault> {
    let Some(number) = value.get("status").and_then(Value::as_u64) else {
        return Err(LineFault::Field("status"));
    };
    let Ok(status) = u8::try_from(number) else {
        return Err(LineFault::Field("status"));
    };
    Ok(Answer {
        output: bytes_field(alloc, value, "stdout")?,
        message: bytes_field(alloc, value, "stderr")?,
        status,
    })
}

/// The case that a line spells.
pub fn read_case(alloc: Global, line: &str) -> Result<Case, LineFault> {
    let value = match Value::from_str(alloc, line) {
        Ok(value) => value,
        Err(error) if error.is_memory() => return Err(LineFault::NoMemory),
        Err(_) => return Err(LineFault::NotJson),
    };
    Ok(Case {
        name: String::from_str(alloc, text_field(&value, "name")?)?,
        words: words_of(alloc, &value)?,
        files: files_of(alloc, &value)?,
        wanted: wanted_of(alloc, &value)?,
    })
}
