//! Headers, and texts of lines.

use std::alloc::{AllocError, Global};

/// Two sites, which have half of the rights each: lower 20, raise 30.
pub const STOCK_OF_TWO: &str =
    r#"{"sites":2,"fields":[{"name":"stock","floor":0,"ceiling":100,"value":40}]}"#;

/// Three sites: lower 14, 13 and 13, raise 20 each.
pub const STOCK_OF_THREE: &str =
    r#"{"sites":3,"fields":[{"name":"stock","floor":0,"ceiling":100,"value":40}]}"#;

/// Adds the parts, one behind the other. Its only error is want of memory.
pub fn add(text: &mut String, parts: &[&str]) -> Result<(), AllocError> {
    for part in parts {
        text.push_str(*part)?;
    }
    Ok(())
}

/// A text of these parts. Its only error is want of memory.
pub fn joined(alloc: Global, parts: &[&str]) -> Result<String, AllocError> {
    let mut text = String::new(alloc);
    add(&mut text, parts)?;
    Ok(text)
}

/// The header of two sites and these lines behind it, each with its line feed. Its only error is
/// want of memory.
pub fn text_of_two(alloc: Global, lines: &[&str]) -> Result<String, AllocError> {
    let mut text = joined(alloc, &[STOCK_OF_TWO, "\n"])?;
    for line in lines {
        add(&mut text, &[*line, "\n"])?;
    }
    Ok(text)
}
