ghost use Rattle.std.specs.Prelude.{◌≡◌, ◌≤◌, ◌↔◌, IsTrue, Contains, if◌then◌else◌};
ghost use Rattle.base_io.specs.Memory.{next};

use scheme_data::CallList;

/// The number of the last call, the numbers of those that are to fail, and how many faults there were.
#[derive(Drop)]
pub struct Counts {
    pub calls: u64,
    pub fails: CallList,
    pub faults: u64,
}

impl Counts {
    /// Before the first call.
    pub fn new(fails: CallList) -> Counts
        ensures { result ≡ record { calls = 0; fails = fails; faults = 0 } }
    {
        Counts {
            calls: 0,
            fails,
            faults: 0,
        }
    }

    /// Counts a call, and a fault where it is to fail, and says whether it is.
    pub fn fails_now(&mut self) -> bool
        ensures listed { IsTrue result ↔ Contains self.old.fails (next self.old.calls) }
        ensures calls { self.new.calls ≡ next self.old.calls }
        ensures fails { self.new.fails ≡ self.old.fails }
        ensures later { self.old.faults ≤ self.new.faults }
        ensures faults { self.new.faults ≡ (if result then next self.old.faults else self.old.faults) }
    {
        self.calls = self.calls.saturating_add(1);
        if self.fails.as_slice().contains(&self.calls) {
            self.fault();
            return true;
        }
        false
    }

    /// Counts a fault.
    pub fn fault(&mut self)
        ensures later { self.old.faults ≤ self.new.faults }
        ensures faults { self.new ≡ record self.old { faults = next self.old.faults } }
    {
        self.faults = self.faults.saturating_add(1);
    }
}
