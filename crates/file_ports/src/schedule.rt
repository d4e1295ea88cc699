// Which calls of an object in memory fail, and how many faults there were.
ghost use Rattle.std.specs.Prelude.{◌≡◌, ◌↔◌, ◌≤◌, ℕ, IsTrue, true};
ghost use Rattle.file_ports.specs.Faults.{greatest_count, one_more};

use std::marker::Model;

#[derive(Drop)]
pub struct Schedule {
    failing: Vec<u64>,
    next: u64,
    faults: u64,
}

impl Model for Schedule {
    ghost use Rattle.std.specs.Prelude.{◌≤◌};
    ghost use Rattle.file_ports.specs.Faults.{greatest_count};
    ghost use Rattle.file_ports.specs.Schedule.{Calls};

    ghost Value = { Calls };

    ghost view = { λ s. record { failing = s.failing.items; next = s.next; faults = s.faults } };

    ghost invariant = { λ s. s.faults ≤ greatest_count };
}

impl Schedule {
    ghost use Rattle.file_ports.specs.Schedule.{FailsNext, IsOneCall};

    /// No call has come yet. The calls with these numbers, from 0, will fail.
    pub fn new(failing: Vec<u64>) -> Self
        ensures { result ≡ record { failing = failing.items; next = 0; faults = 0 } }
    {
        Schedule {
            failing,
            next: 0,
            faults: 0,
        }
    }

    /// Numbers one call, and says whether it fails.
    pub fn fails(&mut self) -> bool
        ensures fault { IsTrue result ↔ FailsNext self.old }
        ensures call { IsOneCall (FailsNext self.old) self.old self.new }
        ensures limit { self.new.faults ≤ greatest_count }
    {
        let fault = self.failing.contains(&self.next);
        self.next = self.next.saturating_add(1);
        if fault {
            self.faults = self.faults.saturating_add(1);
        }
        fault
    }

    /// Counts a fault of a call that was not told to fail.
    pub fn rise(&mut self)
        ensures after { self.new ≡ record self.old { faults = one_more self.old.faults } }
        ensures limit { self.new.faults ≤ greatest_count }
    {
        self.faults = self.faults.saturating_add(1);
    }
}
