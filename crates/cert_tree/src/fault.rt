ghost use Rattle.std.specs.Prelude.{◌≡◌};
ghost use Rattle.cert_tree.specs.declared.fault.LineFault.TheVariants as line_fault;
ghost use Rattle.cert_tree.specs.Reading.{fault_at};

use fleet_base::Memory;
use thiserror::Error;

/// Why a text is not read as a certificate.
#[derive(Clone, Copy, Debug, PartialEq, Eq, Error)]
pub enum CertError {
    /// The text is not in the grammar, which this line, counted from 1, is the first to leave.
    #[error("line {line} is no line of a certificate")]
    Fault { line: u32 },
    /// Want of memory.
    #[error("out of memory")]
    Memory,
}

/// Why a line is not read.
#[derive(Clone, Copy, Debug, PartialEq, Eq)]
pub enum LineFault {
    Malformed,
    Memory,
}

impl From<Memory> for LineFault {
    ghost from_gives = { λ _ e. e ≡ line_fault.Memory };

    fn from(_memory: Memory) -> LineFault {
        LineFault::Memory
    }
}

impl LineFault {
    /// The same of a text that has the line at this place.
    pub fn at(self, line: u32) -> CertError
        ensures { result ≡ fault_at self line }
    {
        match self {
            LineFault::Malformed => CertError::Fault { line },
            LineFault::Memory => CertError::Memory,
        }
    }
}
