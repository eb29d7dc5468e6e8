//! The parameters of a written program.

ghost use Rattle.std.specs.Prelude.{◌≡◌, ◌++◌, ◌∷◌, [], None, is_none, length, option_copied, OnOk};
ghost use Rattle.gvdl_programs.specs.declared.refusal.Refusal.TheVariants as refusal;
ghost use Rattle.gvdl_programs.specs.Judging.{Tells, Leaves, expect};
ghost use Rattle.gvdl_programs.specs.Expressions.{place_of, parameter_of};
ghost use Rattle.gvdl_programs.specs.Programs.{parameter_added, parameters_of};

use crate::refusal::{Refusal, Stop};
use indexmap::IndexMap;
use std::alloc::Global;
use std::marker::Model;
use surge_outside::{NoMemory, Text};

/// The names of parameters, each with its place from 0.
#[derive(Drop)]
pub(crate) struct Parameters {
    table: IndexMap<String, usize>,
}

impl Model for Parameters {
    ghost use Rattle.std.specs.Prelude.{List, ℕ};

    ghost Value = { List (List ℕ × ℕ) };

    ghost use Rattle.std.specs.Coded.{codes};

    ghost coded = { Prim.hlevel codes };

    ghost use Rattle.std.specs.Prelude.{map, string_bytes};

    ghost view = { λ parameters. map (λ e. (string_bytes e.0, e.1)) parameters.table.entries };
}

impl Parameters {
    // The place of the parameter with this name, where there is one.
    fn place(&self, name: &str) -> Option<&usize>
        ensures { option_copied result ≡ place_of self.now name.now }
    {
        self.table.get(name)
    }

    /// The place of the parameter with this name.
    pub(crate) fn expect(&self, name: &str) -> Result<usize, Stop>
        ensures { Tells (parameter_of self.now name.now) result }
    {
        match self.place(name) {
            Some(place) => Ok(*place),
            None => Err(Stop::Refused(Refusal::UnknownName)),
        }
    }

    // Refuses a name that a parameter has.
    fn expect_new(&self, name: &str) -> Result<(), Stop>
        ensures told { Tells (expect (is_none (place_of self.now name.now)) refusal.RepeatedName) result }
        ensures free { OnOk result (place_of self.now name.now ≡ None) }
    {
        match self.place(name) {
            Some(_) => Err(Stop::Refused(Refusal::RepeatedName)),
            None => Ok(()),
        }
    }

    // Adds a parameter that there is not behind those that there are.
    fn append(&mut self, alloc: Global, name: &str) -> Result<(), NoMemory>
        requires { place_of self.old name.now ≡ None }
        ensures { OnOk result (self.new ≡ self.old ++ (name.now, length self.old) ∷ []) }
    {
        let name = String::from_str(alloc, name)?;
        let place = self.table.len();
        match self.table.insert(name, place) {
            Ok(_) => Ok(()),
            Err(_) => Err(NoMemory),
        }
    }

    // Adds a parameter behind those that there are, unless one of them has its name.
    fn add(&mut self, alloc: Global, name: &str) -> Result<(), Stop>
        ensures { Leaves (parameter_added self.old name.now) result self.new }
    {
        self.expect_new(name)?;
        self.append(alloc, name)?;
        Ok(())
    }

    /// The parameters with these names, from the left, each against the ones before.
    pub(crate) fn of(alloc: Global, names: &[Text]) -> Result<Parameters, Stop>
        ensures { Tells (parameters_of names.now) result }
    {
        let mut parameters = Parameters {
            table: IndexMap::new(alloc),
        };
        for name in names {
            parameters.add(alloc, name.as_str())?;
        }
        Ok(parameters)
    }
}
