//! Rows of tests that are written as text.
use std::alloc::{AllocError, Global};
use std::str::Split;

/// The next field of a row, or nothing if there is none.
pub fn field<'a>(fields: &mut Split<'a, char>) -> &'a str {
    fields.next().unwrap_or("")
}

/// The next field as a number, and 0 if it is none.
pub fn number(fields: &mut Split<'_, char>) -> u32 {
    field(fields).parse().unwrap_or(0)
}

/// The numbers of a field, with a space between two of them.
pub fn numbers(alloc: Global, field: &str) -> Result<Vec<i64>, AllocError> {
    let mut numbers = Vec::new(alloc);
    for word in field.split_whitespace() {
        numbers.push(word.parse().unwrap_or(99))?;
    }
    Ok(numbers)
}

/// The same as numbers of 32 bits.
pub fn cycles(alloc: Global, field: &str) -> Result<Vec<i32>, AllocError> {
    let mut cycles = Vec::new(alloc);
    for word in field.split_whitespace() {
        cycles.push(word.parse().unwrap_or(99))?;
    }
    Ok(cycles)
}

/// The same as samples.
pub fn samples(alloc: Global, field: &str) -> Result<Vec<u16>, AllocError> {
    let mut samples = Vec::new(alloc);
    for word in field.split_whitespace() {
        samples.push(word.parse().unwrap_or(99))?;
    }
    Ok(samples)
}
