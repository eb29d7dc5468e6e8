//! Writes statements by which edges come and go.

ghost use Rattle.std.specs.Prelude.{◌≡◌, ◌∷◌, ◌++◌, [], IfOk};
ghost use Rattle.gvdl_tree.specs.declared.script.Statement.{Statement};
ghost use Rattle.gvdl_printer.specs.Canonical.{statement_pieces};
ghost use Rattle.gvdl_printer.specs.Pages.{wrote};

use crate::page::Page;
use crate::place::PredicatePlace;
use crate::predicate::predicate;
use gvdl_tokens::{Sign, Word};
use gvdl_tree::PredTree;
use std::alloc::Global;
use surge_outside::{NoMemory, Text};

/// Edges that come with a file.
#[tactic(auto, using(crate::proofs::Growing::growing))]
pub fn insert(page: &mut Page, file: &Text) -> Result<(), NoMemory>
    ensures { IfOk result (λ _. page.new ≡ wrote page.old (statement_pieces (Statement.Insert file.now))) }
{
    page.word(Word::Insert)?;
    page.word(Word::Edges)?;
    page.string(file)?;
    page.sign(Sign::Semicolon)
}

/// Edges that end by a predicate.
#[tactic(auto, using(crate::proofs::Growing::growing))]
pub fn remove(alloc: Global, page: &mut Page, rule: &PredTree) -> Result<(), NoMemory>
    ensures { IfOk result (λ _. page.new ≡ wrote page.old (statement_pieces (Statement.Remove rule.now))) }
{
    page.word(Word::Remove)?;
    page.word(Word::Edges)?;
    page.word(Word::Where)?;
    predicate(alloc, page, rule, PredicatePlace::Alone)?;
    page.sign(Sign::Semicolon)
}
