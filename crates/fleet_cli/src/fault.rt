// Why a command is refused.
use command_words::WordsError;
use fleet_base::{Memory, Status};
use map_text::{MapError, MapFault, ScenError, ScenFault};
use path_planner::{PlannerError, TaskWhy};
use plan_check::{CheckError, Unsound};
use plan_text::{PlanError, PlanFault};
use switch_pairs::PairsError;

/// A file that a command names.
#[derive(Clone, Copy, Debug, PartialEq, Eq)]
pub enum Paper {
    Map,
    Plan,
    Scen,
}

/// Why a command is refused. Each has a line and a status of its own.
#[derive(Debug, Drop)]
pub enum Fault {
    /// The words are those of no command.
    Usage,
    /// The file is longer than 2^25 bytes.
    Long { paper: Paper, length: u64 },
    /// The file was not read, and the shelf's count of faults rose.
    Unread { paper: Paper },
    /// The map is not in the grammar.
    Map(MapFault),
    /// The plan is not in the grammar.
    Plan(PlanFault),
    /// The plan is not sound on the map, or above a limit.
    Unsound(Unsound),
    /// The plan has more than 1,048,576 pairs.
    Pairs { count: u64 },
    /// The scenario is not in the grammar.
    Scen(ScenFault),
    /// The task of this robot is bad.
    BadTask { robot: u32, why: TaskWhy },
    /// This robot has no path beside those of the robots before it.
    NoPath { robot: u32 },
}

impl Fault {
    ghost use Rattle.std.specs.Prelude.{◌≡◌};
    ghost use Rattle.fleet_cli.specs.Lines.{status_of};

    /// The status that a command ends with.
    pub fn status(&self) -> Status
        ensures { result ≡ status_of self.now }
    {
        match self {
            Fault::Usage => Status::Usage,
            Fault::Unread { .. } => Status::ReadFault,
            _ => Status::Input,
        }
    }
}

/// Why a command came to no answer.
#[derive(Debug, Drop)]
pub enum Refusal {
    Fault(Fault),
    Memory,
}

impl From<Memory> for Refusal {
    ghost use Rattle.std.specs.Prelude.{◌≡◌};
    ghost use Rattle.fleet_cli.specs.declared.fault.Refusal.TheVariants as refusal;

    ghost from_gives = { λ _ r. r ≡ refusal.Memory };

    fn from(_memory: Memory) -> Refusal {
        Refusal::Memory
    }
}

impl From<WordsError> for Refusal {
    ghost use Rattle.std.specs.Prelude.{◌≡◌};
    ghost use Rattle.fleet_cli.specs.Refusals.{of_words};

    ghost from_gives = { λ error refusal. refusal ≡ of_words error };

    fn from(error: WordsError) -> Refusal {
        match error {
            WordsError::Usage => Refusal::Fault(Fault::Usage),
            WordsError::Memory => Refusal::Memory,
        }
    }
}

impl From<MapError> for Refusal {
    ghost use Rattle.std.specs.Prelude.{◌≡◌};
    ghost use Rattle.fleet_cli.specs.Refusals.{of_map};

    ghost from_gives = { λ error refusal. refusal ≡ of_map error };

    fn from(error: MapError) -> Refusal {
        match error {
            MapError::Fault(fault) => Refusal::Fault(Fault::Map(fault)),
            MapError::Memory => Refusal::Memory,
        }
    }
}

impl From<PlanError> for Refusal {
    ghost use Rattle.std.specs.Prelude.{◌≡◌};
    ghost use Rattle.fleet_cli.specs.Refusals.{of_plan};

    ghost from_gives = { λ error refusal. refusal ≡ of_plan error };

    fn from(error: PlanError) -> Refusal {
        match error {
            PlanError::Fault(fault) => Refusal::Fault(Fault::Plan(fault)),
            PlanError::Memory => Refusal::Memory,
        }
    }
}

impl From<CheckError> for Refusal {
    ghost use Rattle.std.specs.Prelude.{◌≡◌};
    ghost use Rattle.fleet_cli.specs.Refusals.{of_check};

    ghost from_gives = { λ error refusal. refusal ≡ of_check error };

    fn from(error: CheckError) -> Refusal {
        match error {
            CheckError::Unsound(fault) => Refusal::Fault(Fault::Unsound(fault)),
            CheckError::Memory => Refusal::Memory,
        }
    }
}

impl From<PairsError> for Refusal {
    ghost use Rattle.std.specs.Prelude.{◌≡◌};
    ghost use Rattle.fleet_cli.specs.Refusals.{of_pairs};

    ghost from_gives = { λ error refusal. refusal ≡ of_pairs error };

    fn from(error: PairsError) -> Refusal {
        match error {
            PairsError::TooMany { count } => Refusal::Fault(Fault::Pairs { count }),
            PairsError::Memory => Refusal::Memory,
        }
    }
}

impl From<ScenError> for Refusal {
    ghost use Rattle.std.specs.Prelude.{◌≡◌};
    ghost use Rattle.fleet_cli.specs.Refusals.{of_scen};

    ghost from_gives = { λ error refusal. refusal ≡ of_scen error };

    fn from(error: ScenError) -> Refusal {
        match error {
            ScenError::Fault(fault) => Refusal::Fault(Fault::Scen(fault)),
            ScenError::Memory => Refusal::Memory,
        }
    }
}

impl From<PlannerError> for Refusal {
    ghost use Rattle.std.specs.Prelude.{◌≡◌};
    ghost use Rattle.fleet_cli.specs.Refusals.{of_planner};

    ghost from_gives = { λ error refusal. refusal ≡ of_planner error };

    fn from(error: PlannerError) -> Refusal {
        match error {
            PlannerError::BadTask { robot, why } => Refusal::Fault(Fault::BadTask { robot, why }),
            PlannerError::NoPath { robot } => Refusal::Fault(Fault::NoPath { robot }),
            PlannerError::Memory => Refusal::Memory,
        }
    }
}
