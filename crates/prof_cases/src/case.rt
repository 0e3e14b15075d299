// A case: what is there, what fails, what is asked, and what is to come.
use anyhow::Result;
use std::alloc::Global;

/// Bytes under a name: a file, or a kept text by its key.
#[derive(Drop)]
pub struct Named {
    pub name: String,
    pub bytes: Vec<u8>,
}

/// How much of what is wanted has to come.
#[derive(Clone, Copy, PartialEq, Eq)]
pub enum Extent {
    Whole,
    /// A front of it, perhaps all.
    Front,
    /// A front of it, and not all.
    Cut,
}

/// What is to be written.
#[derive(Drop)]
pub struct Wanted {
    pub bytes: Vec<u8>,
    pub extent: Extent,
}

/// The objects of the outside whose calls can fail.
#[derive(Clone, Copy, PartialEq, Eq)]
pub enum Object {
    Files,
    Hall,
    Keeper,
    Out,
    Err,
}

/// A call that fails, by its number among all calls of its object, from 1.
#[derive(Clone, Copy)]
pub struct Call {
    pub object: Object,
    pub number: u32,
}

/// Calls of one object, from the first up to the end, of which each is to fail in turn.
#[derive(Clone, Copy)]
pub struct Sweep {
    pub object: Object,
    pub first: u32,
    pub end: u32,
}

/// A case. It is played once for each size of its pieces, and for each call of its sweep.
#[derive(Drop)]
pub struct Case {
    pub name: String,
    pub words: Vec<String>,
    pub files: Vec<Named>,
    pub kept: Vec<Named>,
    /// The bytes that come on each connection.
    pub connections: Vec<Vec<u8>>,
    pub pieces: Vec<usize>,
    /// How many bytes the output, and the hall, take in all.
    pub room: usize,
    pub failing: Vec<Call>,
    pub sweep: Option<Sweep>,
    pub status: u8,
    pub out: Wanted,
    pub err: Wanted,
    /// What is to be written to the first connections. The others get nothing.
    pub answers: Vec<Wanted>,
}

impl Wanted {
    /// Nothing is to be written.
    pub fn nothing(alloc: Global) -> Wanted {
        Wanted {
            bytes: Vec::new(alloc),
            extent: Extent::Whole,
        }
    }
}

impl Case {
    /// A case of no words, to which nothing is to be written.
    pub fn new(alloc: Global, name: String) -> Case {
        Case {
            name,
            words: Vec::new(alloc),
            files: Vec::new(alloc),
            kept: Vec::new(alloc),
            connections: Vec::new(alloc),
            pieces: Vec::new(alloc),
            room: 1_048_576,
            failing: Vec::new(alloc),
            sweep: None,
            status: 0,
            out: Wanted::nothing(alloc),
            err: Wanted::nothing(alloc),
            answers: Vec::new(alloc),
        }
    }

    /// The calls of an object that fail, each with so many added.
    pub fn failing_calls(&self, alloc: Global, object: Object, added: u64) -> Result<Vec<u64>> {
        let mut numbers = Vec::new(alloc);
        for call in &self.failing {
            if call.object == object {
                numbers.push(added.saturating_add(call.number as u64))?;
            }
        }
        Ok(numbers)
    }
}
