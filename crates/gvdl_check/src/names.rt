//! The names of a script and what they mean.

ghost use Rattle.std.specs.Prelude.{◌≡◌, ◌++◌, ◌∷◌, [], None, option_copied, OnOk, IfOk};
ghost use Rattle.gvdl_programs.specs.Judging.{Tells};
ghost use Rattle.gvdl_check.specs.Names.{meaning_of, new_name, base_of, collection_of, kept_of, program_named};

use gvdl_programs::{Callable, Refusal, Stop};
use indexmap::IndexMap;
use std::alloc::Global;
use std::marker::Model;
use surge_outside::NoMemory;

/// What a name stands for.
#[derive(Drop)]
pub(crate) enum Meaning {
    /// A built-in program, or one that the script wrote.
    Program(Callable),
    /// The single view with this place; the graph, where there is none.
    Base(Option<u32>),
    /// The collection with this place, whose views stand on the graph or on the single view of `base`.
    Collection { place: u32, base: Option<u32> },
    /// The run with this place, which is kept.
    Kept(u32),
}

/// The names that are taken, in the order in which they were.
#[derive(Drop)]
pub(crate) struct Names {
    table: IndexMap<String, Meaning>,
}

impl Model for Names {
    ghost use Rattle.std.specs.Prelude.{List, ℕ};
    ghost use Rattle.gvdl_check.specs.declared.names.Meaning.{Meaning};

    ghost Value = { List (List ℕ × Meaning) };

    ghost use Rattle.std.specs.Coded.{codes};
    ghost use Rattle.gvdl_programs.specs.contracts.template.Callable as callable_contract;

    ghost coded = { Prim.hlevel (codes, callable_contract.the_row.coded) };

    ghost use Rattle.std.specs.Prelude.{map, string_bytes};

    ghost view = { λ names. map (λ e. (string_bytes e.0, e.1)) names.table.entries };
}

impl Names {
    /// No name is taken.
    pub(crate) fn new(alloc: Global) -> Names
        ensures { result ≡ [] }
    {
        Names {
            table: IndexMap::new(alloc),
        }
    }

    // What the name stands for, if it is taken.
    fn meaning(&self, name: &str) -> Option<&Meaning>
        ensures { option_copied result ≡ meaning_of self.now name.now }
    {
        self.table.get(name)
    }

    /// Refuses a name that is taken.
    pub(crate) fn expect_new(&self, name: &str) -> Result<(), Stop>
        ensures told { Tells (new_name self.now name.now) result }
        ensures free { OnOk result (meaning_of self.now name.now ≡ None) }
    {
        match self.meaning(name) {
            Some(_) => Err(Stop::Refused(Refusal::RepeatedName)),
            None => Ok(()),
        }
    }

    /// Adds a name that is not taken.
    pub(crate) fn add(
        &mut self,
        alloc: Global,
        name: &str,
        meaning: Meaning,
    ) -> Result<(), NoMemory>
        requires { meaning_of self.old name.now ≡ None }
        ensures { OnOk result (self.new ≡ self.old ++ (name.now, meaning) ∷ []) }
    {
        let name = String::from_str(alloc, name)?;
        match self.table.insert(name, meaning) {
            Ok(_) => Ok(()),
            Err(_) => Err(NoMemory),
        }
    }

    /// The place of the single view that has this name; none where the graph has it.
    pub(crate) fn base(&self, name: &str) -> Result<Option<u32>, Stop>
        ensures { Tells (base_of self.now name.now) result }
    {
        match self.meaning(name) {
            Some(Meaning::Base(place)) => Ok(*place),
            _ => Err(Stop::Refused(Refusal::UnknownName)),
        }
    }

    /// The place of the collection that has this name, and of the single view that it stands on.
    pub(crate) fn collection(&self, name: &str) -> Result<(u32, Option<u32>), Stop>
        ensures { Tells (collection_of self.now name.now) result }
    {
        match self.meaning(name) {
            Some(Meaning::Collection { place, base }) => Ok((*place, *base)),
            _ => Err(Stop::Refused(Refusal::UnknownName)),
        }
    }

    /// The place of the kept run that has this name.
    pub(crate) fn kept(&self, name: &str) -> Result<u32, Stop>
        ensures { Tells (kept_of self.now name.now) result }
    {
        match self.meaning(name) {
            Some(Meaning::Kept(run)) => Ok(*run),
            _ => Err(Stop::Refused(Refusal::UnknownName)),
        }
    }

    /// The program that has this name, where there is one.
    pub(crate) fn program(&self, name: &str) -> Option<&Callable>
        ensures { option_copied result ≡ program_named self.now name.now }
    {
        match self.meaning(name) {
            Some(Meaning::Program(program)) => Some(program),
            _ => None,
        }
    }
}
