//! Writes predicates.

ghost use Rattle.std.specs.Prelude.{◌≡◌, ◌∷◌, [], IfOk};
ghost use Rattle.gvdl_printer.specs.Layout.{word};
ghost use Rattle.gvdl_printer.specs.Canonical.{predicate_pieces, joined};
ghost use Rattle.gvdl_printer.specs.Levels.{predicate_level};
ghost use Rattle.gvdl_printer.specs.Pages.{wrote};

use crate::leaf::{comparison, operand, truth};
use crate::page::Page;
use crate::place::PredicatePlace;
use gvdl_tokens::Word;
use gvdl_tree::PredTree;
use std::alloc::Global;
use surge_outside::NoMemory;

/// A predicate, in parentheses where its place wants them.
#[tactic(auto, using(crate::proofs::Growing::growing))]
#[cycle(predicate)]
pub fn predicate(
    alloc: Global,
    page: &mut Page,
    tree: &PredTree,
    place: PredicatePlace,
) -> Result<(), NoMemory>
    ensures { IfOk result (λ _. page.new ≡ wrote page.old (predicate_pieces tree.now (predicate_level place))) }
{
    let level = place.level();
    match tree {
        PredTree::Or(members) => {
            page.open(level > 0)?;
            chain(
                alloc,
                page,
                members.as_slice(),
                Word::Or,
                PredicatePlace::OrMember,
            )?;
            page.close(level > 0)
        }
        PredTree::And(members) => {
            page.open(level > 1)?;
            chain(
                alloc,
                page,
                members.as_slice(),
                Word::And,
                PredicatePlace::AndMember,
            )?;
            page.close(level > 1)
        }
        PredTree::Not(inner) => {
            page.word(Word::Not)?;
            predicate(alloc, page, inner.get(), PredicatePlace::AndMember)
        }
        PredTree::Constant(value) => truth(page, *value),
        PredTree::Compare(first, cmp, second) => {
            operand(alloc, page, first)?;
            comparison(page, *cmp)?;
            operand(alloc, page, second)
        }
        PredTree::Missing(first) => {
            operand(alloc, page, first)?;
            page.word(Word::Is)?;
            page.word(Word::Absent)
        }
    }
}

// The members of a chain, in places of this kind, with this word between each two.
#[tactic(auto, using(crate::proofs::Growing::growing))]
#[cycle(predicate)]
fn chain(
    alloc: Global,
    page: &mut Page,
    members: &[PredTree],
    between: Word,
    place: PredicatePlace,
) -> Result<(), NoMemory>
    ensures { IfOk result (λ _. page.new ≡ wrote page.old (joined (word between) (λ p. predicate_pieces p (predicate_level place)) members.now)) }
{
    match members {
        [] => Ok(()),
        [first, others @ ..] => {
            predicate(alloc, page, first, place)?;
            for other in others {
                page.word(between)?;
                predicate(alloc, page, other, place)?;
            }
            Ok(())
        }
    }
}
