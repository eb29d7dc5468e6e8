//! Writes views and collections of views.

ghost use Rattle.std.specs.Prelude.{◌≡◌, ◌∷◌, ◌++◌, [], IfOk};
ghost use Rattle.gvdl_tokens.specs.declared.token.Token.{Token};
ghost use Rattle.gvdl_tokens.specs.declared.token.Sign.{Sign};
ghost use Rattle.gvdl_tokens.specs.declared.word.Word.{Word};
ghost use Rattle.gvdl_tree.specs.declared.script.Statement.{Statement};
ghost use Rattle.gvdl_tree.specs.declared.script.ItemBody.{ItemBody};
ghost use Rattle.gvdl_printer.specs.Layout.{plain, word, sign};
ghost use Rattle.gvdl_printer.specs.Canonical.{body_pieces, item_pieces, items_pieces, prop_piece, int_pieces, statement_pieces};
ghost use Rattle.gvdl_printer.specs.Pages.{wrote};

use crate::leaf::{int, prop};
use crate::page::Page;
use crate::place::PredicatePlace;
use crate::predicate::predicate;
use gvdl_tokens::{Sign, Word};
use gvdl_tree::{Item, ItemBody, PredTree};
use std::alloc::Global;
use surge_outside::{NoMemory, Text};

/// A word, and a name behind it.
#[tactic(auto, using(crate::proofs::Growing::growing))]
pub fn named(page: &mut Page, keyword: Word, name: &Text) -> Result<(), NoMemory>
    ensures { IfOk result (λ _. page.new ≡ wrote page.old (word keyword ∷ plain (Token.Name name.now) ∷ [])) }
{
    page.word(keyword)?;
    page.name(name)
}

/// A word, and a number behind it.
#[tactic(auto, using(crate::proofs::Growing::growing))]
pub fn counted(alloc: Global, page: &mut Page, keyword: Word, number: u64) -> Result<(), NoMemory>
    ensures { IfOk result (λ _. page.new ≡ wrote page.old (word keyword ∷ plain (Token.Number number) ∷ [])) }
{
    page.word(keyword)?;
    page.number(alloc, number)
}

// A word, and behind it a number that may be negative.
#[tactic(auto, using(crate::proofs::Growing::growing))]
fn bound(alloc: Global, page: &mut Page, keyword: Word, number: &i64) -> Result<(), NoMemory>
    ensures { IfOk result (λ _. page.new ≡ wrote page.old (word keyword ∷ int_pieces number.now)) }
{
    page.word(keyword)?;
    int(alloc, page, *number)
}

/// The two words that begin a view.
#[tactic(auto, using(crate::proofs::Growing::growing))]
fn create_view(page: &mut Page) -> Result<(), NoMemory>
    ensures { IfOk result (λ _. page.new ≡ wrote page.old (word Word.Create ∷ word Word.View ∷ [])) }
{
    page.word(Word::Create)?;
    page.word(Word::View)
}

/// A view by a predicate.
#[tactic(auto, using(crate::proofs::Growing::growing))]
pub fn single(
    alloc: Global,
    page: &mut Page,
    name: &Text,
    base: &Text,
    rule: &PredTree,
) -> Result<(), NoMemory>
    ensures { IfOk result (λ _. page.new ≡ wrote page.old (statement_pieces (Statement.View name.now base.now rule.now))) }
{
    create_view(page)?;
    page.name(name)?;
    named(page, Word::On, base)?;
    page.word(Word::Edges)?;
    page.word(Word::Where)?;
    predicate(alloc, page, rule, PredicatePlace::Alone)?;
    page.sign(Sign::Semicolon)
}

/// A collection of views.
#[tactic(auto, using(crate::proofs::Growing::growing))]
pub fn collection(
    alloc: Global,
    page: &mut Page,
    name: &Text,
    base: &Text,
    views: &[Item],
) -> Result<(), NoMemory>
    ensures { IfOk result (λ _. page.new ≡ wrote page.old (statement_pieces (Statement.Collection name.now base.now views.now))) }
{
    create_view(page)?;
    named(page, Word::Collection, name)?;
    named(page, Word::On, base)?;
    items(alloc, page, views)?;
    page.sign(Sign::Semicolon)
}

/// More views of a collection.
#[tactic(auto, using(crate::proofs::Growing::growing))]
pub fn append(alloc: Global, page: &mut Page, target: &Text, views: &[Item]) -> Result<(), NoMemory>
    ensures { IfOk result (λ _. page.new ≡ wrote page.old (statement_pieces (Statement.Append target.now views.now))) }
{
    page.word(Word::Append)?;
    named(page, Word::To, target)?;
    items(alloc, page, views)?;
    page.sign(Sign::Semicolon)
}

// Items with a comma between each two.
#[tactic(auto, using(crate::proofs::Growing::growing))]
fn items(alloc: Global, page: &mut Page, views: &[Item]) -> Result<(), NoMemory>
    ensures { IfOk result (λ _. page.new ≡ wrote page.old (items_pieces views.now)) }
{
    match views {
        [] => Ok(()),
        [first, others @ ..] => {
            item(alloc, page, first)?;
            for other in others {
                page.sign(Sign::Comma)?;
                item(alloc, page, other)?;
            }
            Ok(())
        }
    }
}

#[tactic(auto, using(crate::proofs::Growing::growing))]
fn item(alloc: Global, page: &mut Page, view: &Item) -> Result<(), NoMemory>
    ensures { IfOk result (λ _. page.new ≡ wrote page.old (item_pieces view.now)) }
{
    page.sign(Sign::OpenBracket)?;
    page.name(&view.name)?;
    page.sign(Sign::Colon)?;
    item_body(alloc, page, &view.body)?;
    page.sign(Sign::CloseBracket)
}

#[tactic(auto, using(crate::proofs::Growing::growing))]
fn item_body(alloc: Global, page: &mut Page, body: &ItemBody) -> Result<(), NoMemory>
    ensures { IfOk result (λ _. page.new ≡ wrote page.old (body_pieces body.now)) }
{
    match body {
        ItemBody::Rule(rule) => predicate(alloc, page, rule, PredicatePlace::Alone),
        ItemBody::Window {
            prop: property,
            first,
            last,
            width,
            step,
        } => {
            page.word(Word::Window)?;
            prop(page, property)?;
            bound(alloc, page, Word::From, first)?;
            bound(alloc, page, Word::To, last)?;
            counted(alloc, page, Word::Width, *width)?;
            counted(alloc, page, Word::Step, *step)
        }
    }
}
