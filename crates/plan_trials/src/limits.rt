// A plan with exactly as many pairs as a plan may have.
use std::alloc::Global;
use std::test::Fail;

/// Robots 0 and 1 are 1,024 times each in the cell (0,1). Robot 2 leaves the cell (2,0), and robot 3 may enter it.
pub fn crowded_plan(alloc: Global, meets: bool) -> Result<String, Fail> {
    let mut text = String::new(alloc);
    text.push_str("Agent 0: ")?;
    push_often(&mut text, "(0,1)->(0,2)->", 1024)?;
    text.push_str("\nAgent 1: ")?;
    push_often(&mut text, "(0,0)->", 2048)?;
    push_often(&mut text, "(0,1)->(0,0)->", 1024)?;
    text.push_str("\nAgent 2: (2,0)->(2,1)->\nAgent 3: (1,0)->(1,0)->")?;
    text.push_str(if meets { "(2,0)\n" } else { "\n" })?;
    Ok(text)
}

fn push_often(text: &mut String, piece: &str, times: u32) -> Result<(), Fail> {
    for _ in 0..times {
        text.push_str(piece)?;
    }
    Ok(())
}
