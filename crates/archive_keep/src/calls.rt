// Counts the calls of a keeper in memory, and its faults.
ghost use Rattle.std.specs.Prelude.{◌≡◌, ◌↔◌, false, IsErr, IsErrOf, OnOk, OnErr};
ghost use Rattle.archive_keep.specs.Faults.{HasCause, one_more};

use crate::KeepFault;

/// The calls of a keeper: how many were made, which fail, and how often one failed.
#[derive(Drop)]
pub struct Calls {
    /// The numbers of the calls that are to fail.
    pub failing: Vec<u64>,
    /// Whether an archive is attached.
    pub attached: bool,
    pub made: u64,
    pub faults: u64,
}

impl Calls {
    ghost use Rattle.archive_keep.specs.Memory.{IsSetToFail};

    pub fn new(failing: Vec<u64>) -> Self
        ensures { result ≡ record { failing = failing; attached = false; made = 0; faults = 0 } }
    {
        Calls {
            failing,
            attached: false,
            made: 0,
            faults: 0,
        }
    }

    /// Counts a call, and fails where it is set to fail.
    pub fn begin(&mut self, needs_archive: bool) -> Result<(), KeepFault>
        ensures fails { IsErr result ↔ IsSetToFail needs_archive self.old }
        ensures failed { OnErr result (IsErrOf result KeepFault.Failed) }
        ensures ok { OnOk result (self.new ≡ record self.old { made = one_more self.old.made }) }
        ensures err { OnErr result (self.new ≡ record self.old { made = one_more self.old.made; faults = one_more self.old.faults }) }
    {
        self.made = self.made.saturating_add(1);
        if self.failing.contains(&self.made) || (needs_archive && !self.attached) {
            self.faults = self.faults.saturating_add(1);
            return Err(KeepFault::Failed);
        }
        Ok(())
    }
}
