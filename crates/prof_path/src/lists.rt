//! Small lists, which contracts see as the lists of their items.
ghost use Rattle.std.specs.Prelude.{◌≡◌, ◌∷◌, ◌++◌, [], IfOk, OnOk, OnErr};

use prof_io::{NoMemory, Text};
use prof_tables::Step;
use std::alloc::Global;
use std::marker::Model;

/// A path: its steps, from the root on.
#[derive(Drop)]
pub struct StepList {
    steps: Vec<Step>,
}

impl Model for StepList {
    ghost use Rattle.std.specs.Prelude.{List};
    ghost use Rattle.prof_tables.specs.declared.rows.Step.{Step};

    ghost Value = { List Step };

    ghost view = { λ a. a.steps.items };
}

impl StepList {
    pub fn new(alloc: Global) -> Self
        ensures { result ≡ [] }
    {
        StepList {
            steps: Vec::new(alloc),
        }
    }

    pub fn push(&mut self, item: Step) -> Result<(), NoMemory>
        ensures ok { OnOk result (self.new ≡ self.old ++ item ∷ []) }
        ensures err { OnErr result (self.new ≡ self.old) }
    {
        self.steps.push(item)?;
        Ok(())
    }

    pub fn as_slice(&self) -> &[Step]
        ensures { result.now ≡ self.now }
    {
        self.steps.as_slice()
    }

    pub fn copy(&self, alloc: Global) -> Result<Self, NoMemory>
        ensures { IfOk result (λ list. list ≡ self.now) }
    {
        let steps = Vec::from_slice(alloc, self.steps.as_slice())?;
        Ok(StepList { steps })
    }

    /// The list of these steps.
    pub(crate) fn of(steps: Vec<Step>) -> Self
        ensures { result ≡ steps.items }
    {
        StepList { steps }
    }
}

/// A path of functions, from the root on.
#[derive(Drop)]
pub struct FuncPath {
    funcs: Vec<u32>,
}

impl Model for FuncPath {
    ghost use Rattle.std.specs.Prelude.{List, ℕ};

    ghost Value = { List ℕ };

    ghost view = { λ a. a.funcs.items };
}

impl FuncPath {
    pub fn new(alloc: Global) -> Self
        ensures { result ≡ [] }
    {
        FuncPath {
            funcs: Vec::new(alloc),
        }
    }

    pub fn push(&mut self, item: u32) -> Result<(), NoMemory>
        ensures ok { OnOk result (self.new ≡ self.old ++ item ∷ []) }
        ensures err { OnErr result (self.new ≡ self.old) }
    {
        self.funcs.push(item)?;
        Ok(())
    }

    pub fn as_slice(&self) -> &[u32]
        ensures { result.now ≡ self.now }
    {
        self.funcs.as_slice()
    }

    pub fn copy(&self, alloc: Global) -> Result<Self, NoMemory>
        ensures { IfOk result (λ list. list ≡ self.now) }
    {
        let funcs = Vec::from_slice(alloc, self.funcs.as_slice())?;
        Ok(FuncPath { funcs })
    }
}

/// The terms of a search, each a text.
#[derive(Drop)]
pub struct TermList {
    terms: Vec<Text>,
}

impl Model for TermList {
    ghost use Rattle.std.specs.Prelude.{List, ℕ};

    ghost Value = { List (List ℕ) };

    ghost view = { λ a. a.terms.items };
}

impl TermList {
    pub fn new(alloc: Global) -> Self
        ensures { result ≡ [] }
    {
        TermList {
            terms: Vec::new(alloc),
        }
    }

    pub fn push(&mut self, item: Text) -> Result<(), NoMemory>
        ensures ok { OnOk result (self.new ≡ self.old ++ item ∷ []) }
        ensures err { OnErr result (self.new ≡ self.old) }
    {
        self.terms.push(item)?;
        Ok(())
    }

    pub fn as_slice(&self) -> &[Text]
        ensures { result.now ≡ self.now }
    {
        self.terms.as_slice()
    }

    pub fn copy(&self, alloc: Global) -> Result<Self, NoMemory>
        ensures { IfOk result (λ list. list ≡ self.now) }
    {
        let mut terms = Vec::new(alloc);
        for term in &self.terms {
            terms.push(term.copy(alloc)?)?;
        }
        Ok(TermList { terms })
    }
}

/// A closed interval of time, in nanoseconds.
#[derive(Clone, Copy, Debug, PartialEq, Eq)]
pub struct Span {
    pub start: i64,
    pub end: i64,
}

/// Intervals of time.
#[derive(Drop)]
pub struct SpanList {
    spans: Vec<Span>,
}

impl Model for SpanList {
    ghost use Rattle.std.specs.Prelude.{List};
    ghost use Rattle.prof_path.specs.declared.lists.Span.{Span};

    ghost Value = { List Span };

    ghost view = { λ a. a.spans.items };
}

impl SpanList {
    pub fn new(alloc: Global) -> Self
        ensures { result ≡ [] }
    {
        SpanList {
            spans: Vec::new(alloc),
        }
    }

    pub fn push(&mut self, item: Span) -> Result<(), NoMemory>
        ensures ok { OnOk result (self.new ≡ self.old ++ item ∷ []) }
        ensures err { OnErr result (self.new ≡ self.old) }
    {
        self.spans.push(item)?;
        Ok(())
    }

    pub fn as_slice(&self) -> &[Span]
        ensures { result.now ≡ self.now }
    {
        self.spans.as_slice()
    }

    pub fn copy(&self, alloc: Global) -> Result<Self, NoMemory>
        ensures { IfOk result (λ list. list ≡ self.now) }
    {
        let spans = Vec::from_slice(alloc, self.spans.as_slice())?;
        Ok(SpanList { spans })
    }
}
