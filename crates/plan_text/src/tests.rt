use super::*;
use fleet_base::{Cell, RawPlan};
use std::alloc::Global;
use std::process::Abort;
use std::test::Fail;

/// What the reader says of a text.
fn refusal(rt: &impl Abort, alloc: Global, text: &str) -> Option<PlanError> {
    assert!(rt; text.len() < 4096);
    read_plan(alloc, text.as_bytes()).err()
}

/// A text, with the line and the column of its fault.
const LABEL_FAULTS: [(&str, u32, u32); 15] = [
    ("x", 1, 1),
    ("agent 0: (1,0)", 1, 1),
    ("Agent", 1, 6),
    ("Agent 1: (1,0)", 1, 7),
    ("Agent  0: (1,0)", 1, 7),
    ("Agent x: (1,0)", 1, 7),
    ("Agent 00: (1,0)", 1, 8),
    ("Agent 0 (1,0)", 1, 8),
    ("Agent 0", 1, 8),
    ("Agent 0:(1,0)", 1, 9),
    ("\nAgent 0: (1,0)\n", 1, 1),
    ("Agent 0: (1,0)\n\nAgent 1: (1,1)\n", 2, 1),
    ("Agent 0: (1,0)\nAgent 0: (1,1)\n", 2, 7),
    ("Agent 0: (1,0)\nAgent 2: (1,1)\nAgent 9: (1,1)\n", 2, 7),
    (
        "Agent 0: (0,0)\nAgent 1: (0,1)\nAgent 2: (0,2)\nAgent 3: (0,3)\nAgent 4: (0,4)\nAgent 5: (0,5)\nAgent 6: (0,6)\nAgent 7: (0,7)\nAgent 8: (0,8)\nAgent 9: (0,9)\nAgent 11: (1,0)\n",
        11,
        8,
    ),
];

#[test]
fn a_line_leaves_its_label(rt: HostRuntime) {
    for (text, line, column) in LABEL_FAULTS {
        let fault = PlanFault {
            line,
            column,
            kind: PlanKind::Label,
        };
        assert_eq!(rt;
            refusal(&rt, rt.alloc(), text),
            Some(PlanError::Fault(fault)),
            "at {text:?}"
        );
    }
}

/// A text, with the line and the column of its fault.
const PATH_FAULTS: [(&str, u32, u32); 26] = [
    ("Agent 0: ", 1, 10),
    ("Agent 0: 1,0)", 1, 10),
    ("Agent 0: (", 1, 11),
    ("Agent 0: (,0)", 1, 11),
    ("Agent 0: (x,0)", 1, 11),
    ("Agent 0: (00001,0)", 1, 12),
    ("Agent 0: (1;0)", 1, 12),
    ("Agent 0: (1", 1, 12),
    ("Agent 0: (12345,0)", 1, 15),
    ("Agent 0: (1,", 1, 13),
    ("Agent 0: (1,x)", 1, 13),
    ("Agent 0: (1,)", 1, 13),
    ("Agent 0: (1,-1)", 1, 13),
    ("Agent 0: (1,01)", 1, 14),
    ("Agent 0: (1,0", 1, 14),
    ("Agent 0: (1,0]", 1, 14),
    ("Agent 0: (1,12345)", 1, 17),
    ("Agent 0: (1,0) ", 1, 15),
    ("Agent 0: (1,0)(1,1)", 1, 15),
    ("Agent 0: (1,0)-", 1, 16),
    ("Agent 0: (1,0)-(1,1)", 1, 16),
    ("Agent 0: (1,0)->->", 1, 17),
    ("Agent 0: (1,0)->x", 1, 17),
    ("Agent 0: (1,0)->(1,1)x", 1, 22),
    ("Agent 0: (1,0)\r\r\n", 1, 15),
    (
        "Agent 0: (1,0)\nAgent 1: (1,0)->(1,a)\nAgent 7: (1,1)\n",
        2,
        20,
    ),
];

#[test]
fn a_line_leaves_its_path(rt: HostRuntime) {
    for (text, line, column) in PATH_FAULTS {
        let fault = PlanFault {
            line,
            column,
            kind: PlanKind::Path,
        };
        assert_eq!(rt;
            refusal(&rt, rt.alloc(), text),
            Some(PlanError::Fault(fault)),
            "at {text:?}"
        );
    }
}

#[test]
fn a_text_without_a_line_is_empty(rt: HostRuntime) {
    for text in ["", "\n", "\r\n", "\n\r\n\n", "\r"] {
        let fault = PlanFault {
            line: 1,
            column: 1,
            kind: PlanKind::Empty,
        };
        assert_eq!(rt;
            refusal(&rt, rt.alloc(), text),
            Some(PlanError::Fault(fault)),
            "at {text:?}"
        );
    }
}

/// Texts as planners print them, with the canonical text of the same plan.
const TEXTS: [(&str, &str); 6] = [
    (
        "Agent 0: (1,0)->(1,1)->(1,2)->\nAgent 1: (0,2)->(0,2)->(1,2)->\n",
        "Agent 0: (1,0)->(1,1)->(1,2)\nAgent 1: (0,2)->(0,2)->(1,2)\n",
    ),
    (
        "Agent 0: (1,0)->(1,1)\r\nAgent 1: (0,2)->\r\n",
        "Agent 0: (1,0)->(1,1)\nAgent 1: (0,2)\n",
    ),
    ("Agent 0: (1,0)", "Agent 0: (1,0)\n"),
    ("Agent 0: (1,0)->\r", "Agent 0: (1,0)\n"),
    ("Agent 0: (1,0)\n\n\r\n\n", "Agent 0: (1,0)\n"),
    (
        "Agent 0: (9999,0)->(0,1000)->(120,45)\n",
        "Agent 0: (9999,0)->(0,1000)->(120,45)\n",
    ),
];

#[test]
fn a_text_is_read_and_written_canonically(rt: HostRuntime) -> Result<(), Fail> {
    for (text, canonical) in TEXTS {
        assert!(rt; text.len() < 4096);
        let plan = read_plan(rt.alloc(), text.as_bytes())?;
        assert!(rt; plan.robots() < 4096);
        let written = write_plan(rt.alloc(), &plan)?;
        assert_eq!(rt; written.as_slice(), canonical.as_bytes(), "at {text:?}");
    }
    Ok(())
}

#[test]
fn a_text_gives_its_cells(rt: HostRuntime) -> Result<(), Fail> {
    let plan = read_plan(rt.alloc(), b"Agent 0: (1,20)->(9999,0)->\nAgent 1: (300,4)")?;
    assert_eq!(rt; plan.robots(), 2);
    assert_eq!(rt;
        plan.cells(0),
        [Cell { row: 1, col: 20 }, Cell { row: 9999, col: 0 }].as_slice()
    );
    assert_eq!(rt; plan.cells(1), [Cell { row: 300, col: 4 }].as_slice());
    Ok(())
}

#[test]
fn a_wide_path_is_not_written(rt: HostRuntime) -> Result<(), Fail> {
    let narrow = Cell {
        row: 9999,
        col: 9999,
    };
    let table = [
        (
            [narrow, Cell { row: 1, col: 10000 }],
            [narrow, narrow],
            Some(WritePlanError::Wide { robot: 0 }),
        ),
        (
            [narrow, narrow],
            [Cell { row: 10000, col: 1 }, narrow],
            Some(WritePlanError::Wide { robot: 1 }),
        ),
        ([narrow, narrow], [narrow, narrow], None),
    ];
    for (first, second, answer) in table {
        let mut plan = RawPlan::new(rt.alloc());
        plan.push_path(first.to_vec(rt.alloc())?)?;
        plan.push_path(second.to_vec(rt.alloc())?)?;
        assert_eq!(rt; write_plan(rt.alloc(), &plan).err(), answer);
    }
    Ok(())
}

#[test]
fn an_empty_path_is_not_written_and_an_empty_plan_is(rt: HostRuntime) -> Result<(), Fail> {
    let mut plan = RawPlan::new(rt.alloc());
    let text = write_plan(rt.alloc(), &plan)?;
    assert_eq!(rt; text.as_slice().len(), 0);
    plan.push_path(Vec::new(rt.alloc()))?;
    assert_eq!(rt;
        write_plan(rt.alloc(), &plan).err(),
        Some(WritePlanError::Wide { robot: 0 })
    );
    Ok(())
}
