// Counts the calls of an object in memory, and its faults.
ghost use Rattle.std.specs.Prelude.{◌≡◌, ◌↔◌, [], false, IsErr, OnOk, OnErr};
ghost use Rattle.station_api.specs.Causes.{HasCause, IsToBlame, one_more};

use crate::Failed;

#[derive(Drop)]
pub struct Meter {
    /// The numbers of the calls that are to fail.
    pub failing: Vec<u64>,
    /// Whether the object is ready: before that, some calls are faults.
    pub ready: bool,
    pub calls: u64,
    pub faults: u64,
    pub starved: u64,
}

impl Meter {
    ghost use Rattle.station_api.specs.Meter.{counts_in, IsSetToFail};

    pub fn new(failing: Vec<u64>, ready: bool) -> Self
        ensures { result ≡ record { failing = failing; ready = ready; calls = 0; faults = 0; starved = 0 } }
    {
        Meter {
            failing,
            ready,
            calls: 0,
            faults: 0,
            starved: 0,
        }
    }

    /// Counts a call, and fails where it is set to fail.
    pub fn begin(&mut self, needs_ready: bool) -> Result<(), Failed>
        ensures cause { HasCause (counts_in self.old) (counts_in self.new) result }
        ensures fails { IsErr result ↔ IsSetToFail needs_ready self.old }
        ensures calls { self.new.calls ≡ one_more self.old.calls }
        ensures failing { self.new.failing ≡ self.old.failing }
        ensures ready { self.new.ready ≡ self.old.ready }
        ensures starved { self.new.starved ≡ self.old.starved }
        ensures no_fault { OnOk result (self.new.faults ≡ self.old.faults) }
        ensures one_fault { OnErr result (self.new.faults ≡ one_more self.old.faults) }
        ensures unfailing { self.old.failing.items ≡ [] → needs_ready ≡ false → self.new.faults ≡ self.old.faults }
    {
        self.calls = self.calls.saturating_add(1);
        if self.failing.contains(&self.calls) || (needs_ready && !self.ready) {
            self.faults = self.faults.saturating_add(1);
            return Err(Failed);
        }
        Ok(())
    }

    /// Counts a fault for want of memory.
    pub fn starve(&mut self) -> Failed
        ensures cause { IsToBlame (counts_in self.old) (counts_in self.new) }
        ensures counts { self.new ≡ record self.old { faults = one_more self.old.faults; starved = one_more self.old.starved } }
    {
        self.faults = self.faults.saturating_add(1);
        self.starved = self.starved.saturating_add(1);
        Failed
    }

    /// Counts a fault of an object that is never ready, so that it may fail for any cause.
    pub fn blame(&mut self)
        requires { self.old.ready ≡ false }
        ensures cause { IsToBlame (counts_in self.old) (counts_in self.new) }
        ensures counts { self.new ≡ record self.old { faults = one_more self.old.faults } }
    {
        self.faults = self.faults.saturating_add(1);
    }
}
