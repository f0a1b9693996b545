//! How large a work is.

use csl_elements::NameVariable;
use serde_json::{Map, Value};

/// The bytes of the texts in a value, each counted with one more.
pub(crate) fn bytes_of(value: &Value) -> usize {
    let mut bytes: usize = 0;
    match value {
        Value::String(text) => bytes = text.len().saturating_add(1),
        Value::Array(items) => {
            for item in items {
                bytes = bytes.saturating_add(bytes_of(item));
            }
        }
        Value::Object(members) => {
            for (_, inside) in members.iter() {
                bytes = bytes.saturating_add(bytes_of(inside));
            }
        }
        Value::Null | Value::Bool(_) | Value::Number(_) => {}
    }
    bytes
}

/// The number of persons among the variables of a work.
pub(crate) fn person_count(members: &Map<String, Value>) -> usize {
    let mut count: usize = 0;
    for (name, value) in members.iter() {
        if let (Some(_), Some(persons)) = (
            NameVariable::from_name(name.as_str()),
            value.as_array(),
        ) {
            count = count.saturating_add(persons.len());
        }
    }
    count
}
