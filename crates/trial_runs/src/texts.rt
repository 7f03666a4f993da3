//! Texts of many lines.

use crate::Memory;
use std::alloc::Global;

/// Lines with a number from 0 on between two texts.
pub fn numbered(alloc: Global, count: u64, before: &str, after: &str) -> Result<String, Memory> {
    let mut lines = String::new(alloc);
    for at in 0..count {
        let line = format!(in alloc; "{before}{at}{after}\n")?;
        lines.push_str(line.as_str())?;
    }
    Ok(lines)
}

/// A line so many times.
pub fn repeated(alloc: Global, count: u64, line: &str) -> Result<String, Memory> {
    let mut lines = String::new(alloc);
    for _ in 0..count {
        lines.push_str(line)?;
        lines.push('\n')?;
    }
    Ok(lines)
}

/// The first so many lines of a text.
pub fn first_lines(alloc: Global, text: &str, count: usize) -> Result<String, Memory> {
    let mut front = String::new(alloc);
    for line in text.split_inclusive('\n').take(count) {
        front.push_str(line)?;
    }
    Ok(front)
}

/// Lines and the replies to them, each as one text: those of the opening, and then these.
pub fn of_rows(
    alloc: Global,
    opening: &[(&str, &str)],
    rows: &[(&str, &str)],
) -> Result<(String, String), Memory> {
    let mut input = String::new(alloc);
    let mut replies = String::new(alloc);
    for (line, reply) in opening.iter().chain(rows.iter()) {
        input.push_str(line)?;
        input.push('\n')?;
        replies.push_str(reply)?;
        replies.push('\n')?;
    }
    Ok((input, replies))
}
