ghost use Rattle.std.specs.Prelude.{◌≡◌, ◌++◌, OnOk};
ghost use Rattle.fleet_base.specs.Bytes.{numeral};
ghost use Rattle.plan_text.specs.PlanText.{cell_text, path_text, label_of};

use fleet_base::{Cell, Memory, Text, push_bytes, push_number};

/// Appends what the line of a robot begins with; for want of memory some of it is missing at the end.
pub fn push_label(out: &mut Text, robot: u32) -> Result<(), Memory>
    ensures { OnOk result (out.new ≡ out.old ++ label_of robot) }
{
    push_bytes(out, b"Agent ")?;
    push_numeral(out, robot)?;
    push_bytes(out, b": ")
}

/// Appends the cells, parted by arrows; for want of memory some of it is missing at the end.
pub fn push_cells(out: &mut Text, path: &[Cell]) -> Result<(), Memory>
    ensures { OnOk result (out.new ≡ out.old ++ path_text path.now) }
{
    for (n, cell) in path.iter().enumerate() {
        if n > 0 {
            push_bytes(out, b"->")?;
        }
        push_cell(out, *cell)?;
    }
    Ok(())
}

fn push_cell(out: &mut Text, cell: Cell) -> Result<(), Memory>
    ensures { OnOk result (out.new ≡ out.old ++ cell_text cell) }
{
    out.push(b'(')?;
    push_numeral(out, cell.row)?;
    out.push(b',')?;
    push_numeral(out, cell.col)?;
    out.push(b')')
}

fn push_numeral(out: &mut Text, number: u32) -> Result<(), Memory>
    ensures { OnOk result (out.new ≡ out.old ++ numeral number) }
{
    push_number(out, u64::from(number))
}
