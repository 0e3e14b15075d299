// A keeper in memory, whose calls can be made to fail.
ghost use Rattle.std.specs.Prelude.{◌≡◌, ◌≢◌, ◌≤◌, ◌↔◌, ℕ, List, [], None, Some, Ok, Err, OnOk, OnErr, IfOk, IfSome, refl};
ghost use Rattle.prof_io.specs.Causes.{Rose};
ghost use Rattle.prof_io.specs.Shelf.{file_at};
ghost use Rattle.prof_io.specs.Keep.{Puts};
ghost use Rattle.prof_memory.specs.Keeping.{texts_under};
ghost use Rattle.prof_memory.specs.Plans.{counted, Strikes};

use crate::texts::Texts;
use crate::trouble::{Planned, Trouble};
use prof_io::{Counted, KeepRefusal, Keeper, Text};
use std::alloc::Global;

/// Texts kept in memory by their keys. They are the texts of every name but the empty one.
#[derive(Drop)]
pub struct MapKeeper {
    texts: Texts,
    trouble: Trouble,
    called_at: u64,
    returned_at: u64,
}

impl MapKeeper {
    /// A keeper of no texts.
    pub fn new(alloc: Global, failing: Vec<u64>) -> MapKeeper
        ensures texts { ⟦<MapKeeper as Keeper>⟧.texts result ≡ Some [] }
        ensures called { ⟦<MapKeeper as Keeper>⟧.called_at result ≡ 0 }
        ensures returned { ⟦<MapKeeper as Keeper>⟧.returned_at result ≡ 0 }
        ensures got { ⟦<MapKeeper as Keeper>⟧.got result ≡ None }
        ensures sure { failing.items ≡ [] → ⟦<MapKeeper as Counted>⟧.sure result }
        ensures faults { ⟦<MapKeeper as Counted>⟧.faults result ≡ 0 }
        ensures plan { ⟦<MapKeeper as Planned>⟧.plan result ≡ record { failing = failing.items; calls = 0; piece = 0 } }
    {
        MapKeeper {
            texts: Texts::new(alloc),
            trouble: Trouble::new(failing),
            called_at: 0,
            returned_at: 0,
        }
    }
}

impl Counted for MapKeeper {
    ghost faults = { λ s. s.trouble.faults };

    ghost sure = { λ s. s.trouble.failing.items ≡ [] };
}

impl Planned for MapKeeper {
    ghost plan = { λ s. record { failing = s.trouble.failing.items; calls = s.trouble.calls; piece = 0 } };
}

impl Keeper for MapKeeper {
    ghost texts = { λ s. Some s.texts.entries.items };

    ghost begun = { λ s name. Some (texts_under name s.texts.entries.items) };

    ghost called_at = { λ s. s.called_at };

    ghost returned_at = { λ s. s.returned_at };

    ghost got = { λ s. s.texts.got };

    ghost nothing_nameless = { λ _. refl };

    fn begin(&mut self, _alloc: Global, name: &str) -> Result<(), KeepRefusal>
        ensures ok { OnOk result (⟦<MapKeeper as Keeper>⟧.texts self.new ≡ ⟦<MapKeeper as Keeper>⟧.begun self.old name.now) }
        ensures err { OnErr result (⟦<MapKeeper as Keeper>⟧.texts self.new ≡ ⟦<MapKeeper as Keeper>⟧.texts self.old) }
        ensures called { ⟦<MapKeeper as Keeper>⟧.called_at self.new ≡ ⟦<MapKeeper as Counted>⟧.faults self.old }
        ensures returned { ⟦<MapKeeper as Keeper>⟧.returned_at self.new ≡ ⟦<MapKeeper as Counted>⟧.faults self.new }
        ensures got { ⟦<MapKeeper as Keeper>⟧.got self.new ≡ ⟦<MapKeeper as Keeper>⟧.got self.old }
        ensures sure { ⟦<MapKeeper as Counted>⟧.sure self.old → (result ≢ Err KeepRefusal.Failed) × ⟦<MapKeeper as Counted>⟧.sure self.new }
        ensures later { ⟦<MapKeeper as Counted>⟧.faults self.old ≤ ⟦<MapKeeper as Counted>⟧.faults self.new }
        ensures failed { result ≡ Err KeepRefusal.Failed → Rose (⟦<MapKeeper as Counted>⟧.faults self.old) (⟦<MapKeeper as Counted>⟧.faults self.new) }
        ensures kept { result ≢ Err KeepRefusal.Failed → ⟦<MapKeeper as Counted>⟧.faults self.new ≡ ⟦<MapKeeper as Counted>⟧.faults self.old }

        // It answers Failed at the calls that are listed, and at no others.
        ensures plan { ⟦<MapKeeper as Planned>⟧.plan self.new ≡ counted (⟦<MapKeeper as Planned>⟧.plan self.old) }
        ensures listed { (result ≡ Err KeepRefusal.Failed) ↔ Strikes (⟦<MapKeeper as Planned>⟧.plan self.old) }
    {
        self.called_at = self.trouble.faults;
        let fails = self.trouble.strikes();
        self.returned_at = self.trouble.faults;
        if fails {
            return Err(KeepRefusal::Failed);
        }
        if name.is_empty() {
            self.texts.entries.clear();
        }
        Ok(())
    }

    fn put(&mut self, alloc: Global, key: &str, text: &str) -> Result<(), KeepRefusal>
        ensures ok { OnOk result (Puts (⟦<MapKeeper as Keeper>⟧.texts self.old) (⟦<MapKeeper as Keeper>⟧.texts self.new) key.now text.now) }
        ensures err { OnErr result (⟦<MapKeeper as Keeper>⟧.texts self.new ≡ ⟦<MapKeeper as Keeper>⟧.texts self.old) }
        ensures called { ⟦<MapKeeper as Keeper>⟧.called_at self.new ≡ ⟦<MapKeeper as Keeper>⟧.called_at self.old }
        ensures returned { ⟦<MapKeeper as Keeper>⟧.returned_at self.new ≡ ⟦<MapKeeper as Keeper>⟧.returned_at self.old }
        ensures got { ⟦<MapKeeper as Keeper>⟧.got self.new ≡ ⟦<MapKeeper as Keeper>⟧.got self.old }
        ensures sure { ⟦<MapKeeper as Counted>⟧.sure self.old → (result ≢ Err KeepRefusal.Failed) × ⟦<MapKeeper as Counted>⟧.sure self.new }
        ensures later { ⟦<MapKeeper as Counted>⟧.faults self.old ≤ ⟦<MapKeeper as Counted>⟧.faults self.new }
        ensures failed { result ≡ Err KeepRefusal.Failed → Rose (⟦<MapKeeper as Counted>⟧.faults self.old) (⟦<MapKeeper as Counted>⟧.faults self.new) }
        ensures kept { result ≢ Err KeepRefusal.Failed → ⟦<MapKeeper as Counted>⟧.faults self.new ≡ ⟦<MapKeeper as Counted>⟧.faults self.old }

        // It answers Failed at the calls that are listed, and at no others.
        ensures plan { ⟦<MapKeeper as Planned>⟧.plan self.new ≡ counted (⟦<MapKeeper as Planned>⟧.plan self.old) }
        ensures listed { (result ≡ Err KeepRefusal.Failed) ↔ Strikes (⟦<MapKeeper as Planned>⟧.plan self.old) }
    {
        if self.trouble.strikes() {
            return Err(KeepRefusal::Failed);
        }
        self.texts.put(alloc, key, text)?;
        Ok(())
    }

    fn get(&mut self, alloc: Global, key: &str) -> Result<Option<Text>, KeepRefusal>
        ensures ok { IfOk result (λ text. IfSome (⟦<MapKeeper as Keeper>⟧.texts self.old) (λ kept. text ≡ file_at kept key.now)) }
        ensures got { IfOk result (λ text. ⟦<MapKeeper as Keeper>⟧.got self.new ≡ text) }
        ensures err { OnErr result (⟦<MapKeeper as Keeper>⟧.got self.new ≡ ⟦<MapKeeper as Keeper>⟧.got self.old) }
        ensures texts { ⟦<MapKeeper as Keeper>⟧.texts self.new ≡ ⟦<MapKeeper as Keeper>⟧.texts self.old }
        ensures called { ⟦<MapKeeper as Keeper>⟧.called_at self.new ≡ ⟦<MapKeeper as Keeper>⟧.called_at self.old }
        ensures returned { ⟦<MapKeeper as Keeper>⟧.returned_at self.new ≡ ⟦<MapKeeper as Keeper>⟧.returned_at self.old }
        ensures sure { ⟦<MapKeeper as Counted>⟧.sure self.old → (result ≢ Err KeepRefusal.Failed) × ⟦<MapKeeper as Counted>⟧.sure self.new }
        ensures later { ⟦<MapKeeper as Counted>⟧.faults self.old ≤ ⟦<MapKeeper as Counted>⟧.faults self.new }
        ensures failed { result ≡ Err KeepRefusal.Failed → Rose (⟦<MapKeeper as Counted>⟧.faults self.old) (⟦<MapKeeper as Counted>⟧.faults self.new) }
        ensures kept { result ≢ Err KeepRefusal.Failed → ⟦<MapKeeper as Counted>⟧.faults self.new ≡ ⟦<MapKeeper as Counted>⟧.faults self.old }

        // It answers Failed at the calls that are listed, and at no others.
        ensures plan { ⟦<MapKeeper as Planned>⟧.plan self.new ≡ counted (⟦<MapKeeper as Planned>⟧.plan self.old) }
        ensures listed { (result ≡ Err KeepRefusal.Failed) ↔ Strikes (⟦<MapKeeper as Planned>⟧.plan self.old) }
    {
        if self.trouble.strikes() {
            return Err(KeepRefusal::Failed);
        }
        let text = self.texts.get(alloc, key)?;
        Ok(text)
    }
}
