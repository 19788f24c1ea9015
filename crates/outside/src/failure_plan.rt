ghost use Rattle.std.specs.Prelude.{◌≡◌, ◌≤◌};
ghost use Rattle.outside.specs.Cause.{risen};
ghost use Rattle.outside.specs.Failures.{fails_now, fresh};

use std::marker::Model;

/// The calls in which a form in memory fails, and how often it has.
#[derive(Drop)]
pub struct FailurePlan {
    calls: Vec<u64>,
    call: u64,
    faults: u64,
}

impl Model for FailurePlan {
    ghost use Rattle.outside.specs.Failures.{Plan};

    ghost Value = { Plan };

    ghost view = { λ plan. record { calls = plan.calls.items; call = plan.call; faults = plan.faults } };
}

impl FailurePlan {
    /// Takes no memory.
    pub fn new(calls: Vec<u64>) -> FailurePlan
        ensures { result ≡ fresh calls.items }
    {
        FailurePlan {
            calls,
            call: 0,
            faults: 0,
        }
    }

    pub fn faults(&self) -> u64
        ensures { result ≡ self.now.faults }
    {
        self.faults
    }

    /// Whether the next call is one that fails.
    pub fn fails_now(&self) -> bool
        ensures { result ≡ fails_now self.now }
    {
        self.calls.iter().any(|number| *number == self.call)
    }

    /// Counts a call that answered.
    pub fn pass(&mut self)
        ensures grows { self.old.call ≤ self.new.call }
        ensures after { self.new ≡ record self.old { call = risen self.old.call } }
    {
        self.call = self.call.saturating_add(1);
    }

    /// Counts a call that failed.
    pub fn fail(&mut self)
        ensures grows { (self.old.call ≤ self.new.call) × (self.old.faults ≤ self.new.faults) }
        ensures after { self.new ≡ record self.old { call = risen self.old.call; faults = risen self.old.faults } }
    {
        self.call = self.call.saturating_add(1);
        self.faults = self.faults.saturating_add(1);
    }
}
