// Robots that follow one another in a row.
use std::alloc::{AllocError, Global};
use std::fmt::{self, Write};

/// The text of the map: one row of 4,096 free cells.
pub fn map_text(alloc: Global) -> Result<Vec<u8>, AllocError> {
    let mut text = Vec::new(alloc);
    text.extend_from_slice(b"type octile\nheight 1\nwidth 4096\nmap\n")?;
    for _ in 0..4096 {
        text.push(b'.')?;
    }
    text.push(b'\n')?;
    Ok(text)
}

/// The text of the plan: all robots move at each tick, each into the former cell of the one before it.
pub fn plan_text(alloc: Global, robots: u64, steps: u64) -> Result<String, fmt::Error> {
    let mut text = String::new(alloc);
    for robot in 0..robots {
        write!(text, "Agent {robot}: ")?;
        for step in 0..=steps {
            let column = (robots - 1 - robot).saturating_add(step);
            write!(text, "(0,{column})->")?;
        }
        text.write_str("\n")?;
    }
    Ok(text)
}
