ghost use Rattle.std.specs.Prelude.{◌≡◌, ◌<◌, ◌^◌, ◌↔◌, ◌++◌, [], ◌∷◌, length, All, IsTrue, IfOk, OnOk};
ghost use Rattle.std.specs.List.{AllByRecursion};
ghost use Rattle.plan_text.specs.PlanText.{IsNarrow, IsWritable, plan_text_of, label_of, path_text};
ghost use Rattle.plan_text.specs.PlanErrors.{WideIs};

use crate::fault::WritePlanError;
use crate::spelling::{push_cells, push_label};
use fleet_base::{Cell, Memory, RawPlan, Text};
use std::alloc::Global;

/// The canonical text of a plan: a line with LF for each robot, without an arrow at its end. A plan without robots has
/// the empty text.
///
/// `Wide` comes exactly where a path is empty or has a number of more than four digits, with the first such robot.
pub fn write_plan(alloc: Global, plan: &RawPlan) -> Result<Text, WritePlanError>
    requires { length plan.now < 2 ^ 32 }
    ensures text { IfOk result (λ text. text ≡ plan_text_of plan.now) }
    ensures written { IfOk result (λ _. AllByRecursion IsWritable plan.now) }
    ensures wide { WideIs plan.now result }
{
    let mut text = Text::new(alloc);
    for robot in 0..plan.robots() as u32 {
        let path = plan.cells(robot as usize);
        if !is_writable(path) {
            return Err(WritePlanError::Wide { robot });
        }
        push_line(&mut text, robot, path)?;
    }
    Ok(text)
}

fn push_line(out: &mut Text, robot: u32, path: &[Cell]) -> Result<(), Memory>
    ensures { OnOk result (out.new ≡ out.old ++ (label_of robot ++ path_text path.now ++ (10 ∷ []))) }
{
    push_label(out, robot)?;
    push_cells(out, path)?;
    out.push(b'\n')
}

/// Whether a path has a text: it has a cell, and no number of more than four digits.
fn is_writable(path: &[Cell]) -> bool
    ensures { IsTrue result ↔ IsWritable path.now }
{
    !path.is_empty() && is_narrow(path)
}

fn is_narrow(path: &[Cell]) -> bool
    ensures { IsTrue result ↔ All IsNarrow path.now }
{
    path.iter().all(|cell| cell.row < 10000 && cell.col < 10000)
}
