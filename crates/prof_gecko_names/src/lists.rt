//! The lists of a thread that grow with its functions.
ghost use Rattle.std.specs.Prelude.{◌≡◌, ◌+◌, ◌<◌, ◌≤◌, length, IfOk, OnOk};
ghost use Rattle.prof_raw.specs.Texts.{with_text};
ghost use Rattle.prof_gecko_names.specs.Lists as says;

use crate::func::{Func, ResourceKey};
use crate::naming::{NamedFunc, NamedResource};
use indexmap::IndexSet;
use prof_io::{NoMemory, Text};
use prof_raw::Strings;
use std::alloc::Global;
use std::marker::Model;

/// The strings, the resources with what each stands for, and the functions.
#[derive(Drop)]
pub struct FuncLists {
    pub strings: Strings,
    keys: IndexSet<ResourceKey>,
    pub resources: Vec<u32>,
    pub funcs: Vec<Func>,
}

impl Model for FuncLists {
    ghost use Rattle.prof_gecko_names.specs.Lists.{Lists};

    ghost Value = { Lists };

    ghost view = { λ d. record {
      strings = d.strings;
      keys = d.keys.keys;
      resources = d.resources.items;
      funcs = d.funcs.items;
    } };
}

/// What a resource stands for, whose name has this place.
fn resource_key(lib: Option<usize>, place: u32) -> ResourceKey
    ensures { result ≡ says.resource_key lib place }
{
    match lib {
        Some(lib) => ResourceKey::Lib { lib },
        None => ResourceKey::Name { place },
    }
}

impl FuncLists {
    /// The lists before the first function.
    pub fn over(alloc: Global, strings: Strings) -> Self
        ensures { result ≡ says.lists_over strings }
    {
        FuncLists {
            strings,
            keys: IndexSet::new(alloc),
            resources: Vec::new(alloc),
            funcs: Vec::new(alloc),
        }
    }

    /// The place of a text, which goes behind the strings where it isn't there already.
    fn place_of(&mut self, alloc: Global, text: &str) -> Result<u32, NoMemory>
        requires { length self.old.strings < 4294967295 }
        ensures place { IfOk result (λ n. n ≡ says.place_in self.new.strings text.now) }
        ensures after { OnOk result
            (self.new ≡ says.on_strings self.old (with_text self.old.strings text.now)) }
    {
        self.strings.place_or_push(alloc, text)
    }

    /// The same of a text that may be absent.
    fn maybe_place_of(
        &mut self,
        alloc: Global,
        text: &Option<Text>,
    ) -> Result<Option<u32>, NoMemory>
        requires { length self.old.strings < 4294967295 }
        ensures place { IfOk result (λ n.
            n ≡ says.maybe_place self.new.strings text.now) }
        ensures after { OnOk result
            (self.new ≡ says.on_strings self.old (says.with_maybe self.old.strings text.now)) }
    {
        match text {
            Some(text) => Ok(Some(self.place_of(alloc, text.as_str())?)),
            None => Ok(None),
        }
    }

    /// The number of a resource, which goes behind the others where it isn't there already.
    fn number_of(
        &mut self,
        alloc: Global,
        resource: &Option<NamedResource>,
    ) -> Result<Option<u32>, NoMemory>
        requires strings { length self.old.strings < 4294967295 }
        requires keys { length self.old.keys < 4294967295 }
        ensures number { IfOk result (λ n. n ≡ says.resource_number self.old resource.now) }
        ensures after { OnOk result (self.new ≡ says.with_resource self.old resource.now) }
    {
        let Some(resource) = resource else {
            return Ok(None);
        };
        let place = self.place_of(alloc, resource.name.as_str())?;
        let key = resource_key(resource.lib, place);
        let (number, is_new) = self.keys.insert_full(key)?;
        if is_new {
            self.resources.push(place)?;
        }
        Ok(Some(number as u32))
    }

    /// One more function, with its flag `relevantForJS`.
    pub fn add_func(
        &mut self,
        alloc: Global,
        func: &NamedFunc,
        relevant_for_js: bool,
    ) -> Result<(), NoMemory>
        requires strings { length self.old.strings + 3 < 4294967296 }
        requires keys { length self.old.keys < 4294967295 }
        ensures { OnOk result (self.new ≡ says.add_func self.old func.now relevant_for_js) }
    {
        let name = self.place_of(alloc, func.name.as_str())?;
        let file = self.maybe_place_of(alloc, &func.file)?;
        let resource = self.number_of(alloc, &func.resource)?;
        self.funcs.push(Func {
            name,
            is_js: func.is_js,
            relevant_for_js,
            resource,
            file,
        })?;
        Ok(())
    }
}
