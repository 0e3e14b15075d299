// The calls of an object in memory that are to fail, by their numbers.
ghost use Rattle.std.specs.Prelude.{◌≡◌, ℕ, ◌≤◌, ◌+◌, ◌-◌, ◌^◌, [], min, IsTrue, Contains, ◌↔◌, if◌then◌else◌};
ghost use Rattle.prof_memory.specs.Plans.{Plan};

/// An object in memory, which answers as planned.
pub trait Planned {
    /// Which calls are to fail, how many there were, and how many bytes a call moves at most.
    ghost plan: { Self → Plan };

    /// How many bytes can still be written to it.
    ghost space: { Self → ℕ } = { λ _. 0 };
}

/// Which calls are to fail, how many there were, and how many have failed.
#[derive(Drop)]
pub struct Trouble {
    pub failing: Vec<u64>,
    pub calls: u64,
    pub faults: u64,
}

impl Trouble {
    pub fn new(failing: Vec<u64>) -> Self
        ensures failing { result.failing.items ≡ failing.items }
        ensures calls { result.calls ≡ 0 }
        ensures faults { result.faults ≡ 0 }
    {
        Trouble {
            failing,
            calls: 0,
            faults: 0,
        }
    }

    /// Counts a call, and says whether it is to fail. A call that is to fail is counted as a fault.
    pub fn strikes(&mut self) -> bool
        ensures listed { IsTrue result ↔ Contains self.old.failing.items (min (self.old.calls + 1) (2 ^ 64 - 1)) }
        ensures failing { self.new.failing.items ≡ self.old.failing.items }
        ensures calls { self.new.calls ≡ min (self.old.calls + 1) (2 ^ 64 - 1) }
        ensures faults { self.new.faults ≡ (if result then min (self.old.faults + 1) (2 ^ 64 - 1) else self.old.faults) }
        ensures later { self.old.faults ≤ self.new.faults }
    {
        self.calls = self.calls.saturating_add(1);
        let listed = self.failing.contains(&self.calls);
        if listed {
            self.faults = self.faults.saturating_add(1);
        }
        listed
    }

    /// Counts a fault.
    pub fn count(&mut self)
        ensures failing { self.new.failing.items ≡ self.old.failing.items }
        ensures calls { self.new.calls ≡ self.old.calls }
        ensures faults { self.new.faults ≡ min (self.old.faults + 1) (2 ^ 64 - 1) }
        ensures later { self.old.faults ≤ self.new.faults }
    {
        self.faults = self.faults.saturating_add(1);
    }
}
