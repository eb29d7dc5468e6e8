//! Writes aggregates of views.

ghost use Rattle.std.specs.Prelude.{◌≡◌, ◌∷◌, ◌++◌, [], IfOk};
ghost use Rattle.gvdl_tree.specs.declared.script.Statement.{Statement};
ghost use Rattle.gvdl_printer.specs.Canonical.{sum_pieces, statement_pieces};
ghost use Rattle.gvdl_printer.specs.Pages.{wrote};

use crate::leaf::prop;
use crate::page::Page;
use crate::view::named;
use gvdl_tokens::{Sign, Word};
use std::alloc::Global;
use surge_outside::{NoMemory, Text};

/// An aggregate of a collection's views.
#[tactic(auto, using(crate::proofs::Growing::growing))]
pub fn aggregate(
    page: &mut Page,
    target: &Text,
    by: &Text,
    summed: &Option<Text>,
) -> Result<(), NoMemory>
    ensures { IfOk result (λ _. page.new ≡ wrote page.old (statement_pieces (Statement.Aggregate target.now by.now summed.now))) }
{
    named(page, Word::Aggregate, target)?;
    page.word(Word::Group)?;
    page.word(Word::By)?;
    prop(page, by)?;
    sum(page, summed)?;
    page.sign(Sign::Semicolon)
}

#[tactic(auto, using(crate::proofs::Growing::growing))]
fn sum(page: &mut Page, summed: &Option<Text>) -> Result<(), NoMemory>
    ensures { IfOk result (λ _. page.new ≡ wrote page.old (sum_pieces summed.now)) }
{
    match summed {
        None => Ok(()),
        Some(property) => {
            page.word(Word::Sum)?;
            prop(page, property)
        }
    }
}
