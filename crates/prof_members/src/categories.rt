//! The list of categories.
ghost use Rattle.std.specs.Prelude.{◌≡◌, false, ◌<◌, ◌≤◌, ◌∷◌, ◌++◌, [], OnOk, IfOk, IfErr, IfSome, IfNone, Option, Some, None, codes, map, length, unwrap_or, string_bytes, vec_len, if◌then◌else◌};
ghost use Rattle.std.specs.Option.{option_or, option_map};
ghost use Rattle.prof_grammar.specs.Value.{Value, same_text};
ghost use Rattle.prof_layout.specs.Lists.{member_text, items_of, first_where, optional_list_fault};
ghost use Rattle.prof_layout.specs.Profile as layout;
ghost use Rattle.prof_gather.specs.Taking.{Reads};
ghost use Rattle.prof_members.specs.Gathered.{IsCategoryList};
ghost use Rattle.prof_members.specs.Columns.{IsCategoryAdded};
ghost use Rattle.prof_members.specs.Named.{category_member_name};
ghost use Rattle.std.specs.Option.{ForSome};
ghost use Rattle.prof_gather.specs.Feeding.{IsWithin, IsBegun, Passes, Finishes, Refuses, in_member};

use crate::lists::CategoryList;
use prof_column::{state_of, text, whole};
use prof_gather::{
    Feed, FromItems, FromMembers, GatherRefusal, Start, array, members, skip_behind,
};
use prof_io::{NoMemory, Source, Text};
use prof_json::Event;
use prof_raw::{ListFault, MOST_CATEGORIES, Rule, State};
use std::alloc::Global;

/// A row of the list.
#[derive(Drop)]
struct Category {
    name: Option<String>,
    grey: bool,
}

enum CategoryMember {
    Name,
    Color,
}

fn category_member(name: &str) -> Option<CategoryMember>
    ensures some { IfSome result (λ m. name.now ≡ category_member_name m) }
    ensures none { IfNone result ((m : CategoryMember) → same_text name.now (category_member_name m) ≡ false) }
{
    match name {
        "name" => Some(CategoryMember::Name),
        "color" => Some(CategoryMember::Color),
        _ => None,
    }
}

/// Reads a member's value, and says whether it is the string `grey`.
fn is_grey<R: Source, W: Start>(alloc: Global, feed: &mut Feed<R, W>) -> Result<bool, GatherRefusal>
    requires { IsWithin in_member feed.old }
    ensures ok { OnOk result (Passes feed.old feed.new) }
    ensures grey { IfOk result (λ b. (v : Value) × Reads feed.old feed.new v × (b ≡ same_text (member_text (Some v)) (codes "grey"))) }
    ensures err { IfErr result (λ r. Refuses r feed.new) }
{
    let first = feed.next(alloc)?;
    match first {
        Event::Str => Ok(feed.string() == "grey"),
        _ => {
            skip_behind(alloc, feed, first)?;
            Ok(false)
        }
    }
}

impl Category {
    ghost use Rattle.prof_grammar.specs.Value.{no_members};
    ghost use Rattle.prof_members.specs.Gathered.{AreCategoryMembers};

    /// What is gathered of no member.
    pub fn none(_alloc: Global) -> Self
        ensures { AreCategoryMembers no_members result }
    {
        Category {
            name: None,
            grey: false,
        }
    }
}

impl FromMembers for Category {
    ghost use Rattle.prof_members.specs.Gathered.{AreCategoryMembers};

    ghost is = { λ ms c. AreCategoryMembers ms c };

    fn take_member<R: Source, W: Start>(
        &mut self,
        alloc: Global,
        feed: &mut Feed<R, W>,
    ) -> Result<(), GatherRefusal> {
        match category_member(feed.name()) {
            Some(CategoryMember::Name) => self.name = text(alloc, feed)?,
            Some(CategoryMember::Color) => self.grey = is_grey(alloc, feed)?,
            None => feed.skip_member(alloc)?,
        }
        Ok(())
    }
}

impl CategoryList {
    /// What is gathered where no member has the list.
    pub fn absent(alloc: Global) -> Self
        ensures { IsCategoryList None result }
    {
        CategoryList {
            state: State::Absent,
            names: Vec::new(alloc),
            bad: None,
            grey: None,
        }
    }

    /// The first rule that the list breaks.
    pub fn fault(&self) -> Option<ListFault>
        ensures { (member : Option Value) → IsCategoryList member self.now → result ≡ optional_list_fault layout.is_category MOST_CATEGORIES member }
    {
        match self.state {
            State::Absent => None,
            State::NotArray => Some(whole(Rule::WrongKind)),
            State::Array if self.names.len() > MOST_CATEGORIES as usize => {
                Some(whole(Rule::RowLimit))
            }
            State::Array => self.bad.map(|row| ListFault {
                rule: Rule::WrongKind,
                row: Some(row),
            }),
        }
    }

    /// Adds a row.
    fn add(&mut self, alloc: Global, name: Option<String>, grey: bool) -> Result<(), NoMemory>
        requires { vec_len self.old.names ≤ 65536 }
        ensures { OnOk result (IsCategoryAdded (option_map string_bytes name) grey self.old self.new) }
    {
        let row = self.names.len() as u32;
        let mut text = Text::new(alloc);
        match name {
            Some(name) => text.push_str(name.as_str())?,
            None => {
                if self.bad.is_none() {
                    self.bad = Some(row);
                }
            }
        }
        self.names.push(text)?;
        if grey && self.grey.is_none() {
            self.grey = Some(row);
        }
        Ok(())
    }

    /// The names of the categories and the default, which is added after the last where none is grey.
    pub fn finish(self, alloc: Global) -> Result<(Vec<Text>, u32), NoMemory>
        ensures within { IfOk result (λ r. (r.1 < vec_len r.0) × (vec_len r.0 ≤ 65538)) }
        ensures is { IfOk result (λ r. (member : Option Value) → IsCategoryList member self → optional_list_fault layout.is_category MOST_CATEGORIES member ≡ None
            → (r.0.items ≡ layout.names_with (map layout.category_name (items_of member)) (first_where layout.is_grey 0 (items_of member)))
            × (r.1 ≡ unwrap_or (first_where layout.is_grey 0 (items_of member)) (length (items_of member)))) }
    {
        let CategoryList {
            mut names,
            grey,
            ..
        } = self;
        if let Some(row) = grey {
            return Ok((names, row));
        }
        let row = names.len() as u32;
        let mut other = Text::new(alloc);
        other.push_str("Other")?;
        names.push(other)?;
        Ok((names, row))
    }
}

impl FromItems for CategoryList {
    ghost use Rattle.prof_members.specs.Columns.{IsCategoryListOf};

    ghost is = { λ first vs l. IsCategoryListOf first vs l };

    fn take_item<R: Source, W: Start>(
        &mut self,
        alloc: Global,
        feed: &mut Feed<R, W>,
        first: Event,
    ) -> Result<(), GatherRefusal> {
        if self.names.len() > MOST_CATEGORIES as usize {
            return skip_behind(alloc, feed, first);
        }
        match first {
            Event::ObjectStart => {
                let Category { name, grey } = members(alloc, feed, Category::none(alloc))?;
                self.add(alloc, name, grey)?;
                Ok(())
            }
            _ => {
                skip_behind(alloc, feed, first)?;
                self.add(alloc, None, false)?;
                Ok(())
            }
        }
    }
}

/// Reads a member's value as the list of categories. Null counts as absent.
pub fn category_list<R: Source, W: Start>(
    alloc: Global,
    feed: &mut Feed<R, W>,
) -> Result<CategoryList, GatherRefusal>
    requires { IsWithin in_member feed.old }
    ensures ok { OnOk result (Passes feed.old feed.new) }
    ensures list { IfOk result (λ l. (v : Value) × Reads feed.old feed.new v × IsCategoryList (Some v) l) }
    ensures err { IfErr result (λ r. Refuses r feed.new) }
{
    let mut list = CategoryList::absent(alloc);
    let kind = array(alloc, feed, &mut list)?;
    list.state = state_of(kind, false);
    Ok(list)
}
