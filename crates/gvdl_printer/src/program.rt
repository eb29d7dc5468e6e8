//! Writes programs.

ghost use Rattle.std.specs.Prelude.{◌≡◌, ◌∷◌, ◌++◌, [], IfOk};
ghost use Rattle.gvdl_tokens.specs.declared.token.Token.{Token};
ghost use Rattle.gvdl_tokens.specs.declared.token.Sign.{Sign};
ghost use Rattle.gvdl_tokens.specs.declared.word.Word.{Word};
ghost use Rattle.gvdl_tree.specs.declared.script.Statement.{Statement};
ghost use Rattle.gvdl_parser.specs.Terminals.{along_token, gather_token};
ghost use Rattle.gvdl_printer.specs.Layout.{plain, word, sign};
ghost use Rattle.gvdl_printer.specs.Canonical.{in_call, expression_pieces, statement_pieces};
ghost use Rattle.gvdl_printer.specs.Pages.{wrote};

use crate::expression::expression;
use crate::page::Page;
use crate::place::ExpressionPlace;
use crate::view::named;
use gvdl_tokens::{Sign, Word};
use gvdl_tree::{Along, ExprTree, Gather};
use std::alloc::Global;
use surge_outside::{NoMemory, Text};

/// Along which arcs a program sends, and how it gathers.
#[derive(Clone, Copy)]
pub struct Ways {
    pub along: Along,
    pub gather: Gather,
}

/// A program.
#[tactic(auto, using(crate::proofs::Growing::growing))]
pub fn program(
    alloc: Global,
    page: &mut Page,
    name: &Text,
    names: &[Text],
    ways: Ways,
    start: &ExprTree,
    send: &ExprTree,
    update: &ExprTree,
) -> Result<(), NoMemory>
    ensures { IfOk result (λ _. page.new ≡ wrote page.old (statement_pieces (Statement.Program name.now names.now ways.along start.now send.now ways.gather update.now))) }
{
    named(page, Word::Program, name)?;
    params(page, names)?;
    page.sign(Sign::OpenBrace)?;
    along(page, ways.along)?;
    part(alloc, page, Word::Start, start)?;
    part(alloc, page, Word::Send, send)?;
    gather(page, ways.gather)?;
    part(alloc, page, Word::Update, update)?;
    page.sign(Sign::CloseBrace)
}

// Parameters in parentheses, or nothing.
#[tactic(auto, using(crate::proofs::Growing::growing))]
fn params(page: &mut Page, names: &[Text]) -> Result<(), NoMemory>
    ensures { IfOk result (λ _. page.new ≡ wrote page.old (in_call (λ p. plain (Token.Name p) ∷ []) names.now)) }
{
    match names {
        [] => Ok(()),
        [first, others @ ..] => {
            page.call_open()?;
            page.name(first)?;
            for other in others {
                page.sign(Sign::Comma)?;
                page.name(other)?;
            }
            page.sign(Sign::Close)
        }
    }
}

// A word, an expression and a semicolon.
#[tactic(auto, using(crate::proofs::Growing::growing))]
fn part(alloc: Global, page: &mut Page, keyword: Word, tree: &ExprTree) -> Result<(), NoMemory>
    ensures { IfOk result (λ _. page.new ≡ wrote page.old (word keyword ∷ (expression_pieces tree.now 0 ++ sign Sign.Semicolon ∷ []))) }
{
    page.word(keyword)?;
    expression(alloc, page, tree, ExpressionPlace::Alone)?;
    page.sign(Sign::Semicolon)
}

#[tactic(auto, using(crate::proofs::Growing::growing))]
fn along(page: &mut Page, arcs: Along) -> Result<(), NoMemory>
    ensures { IfOk result (λ _. page.new ≡ wrote page.old (word Word.Along ∷ plain (along_token arcs) ∷ sign Sign.Semicolon ∷ [])) }
{
    page.word(Word::Along)?;
    page.word(along_word(arcs))?;
    page.sign(Sign::Semicolon)
}

fn along_word(arcs: Along) -> Word
    ensures { Token.Word result ≡ along_token arcs }
{
    match arcs {
        Along::Out => Word::Out,
        Along::In => Word::In,
        Along::Both => Word::Both,
    }
}

#[tactic(auto, using(crate::proofs::Growing::growing))]
fn gather(page: &mut Page, how: Gather) -> Result<(), NoMemory>
    ensures { IfOk result (λ _. page.new ≡ wrote page.old (word Word.Gather ∷ plain (gather_token how) ∷ sign Sign.Semicolon ∷ [])) }
{
    page.word(Word::Gather)?;
    page.word(gather_word(how))?;
    page.sign(Sign::Semicolon)
}

fn gather_word(how: Gather) -> Word
    ensures { Token.Word result ≡ gather_token how }
{
    match how {
        Gather::Min => Word::Min,
        Gather::Max => Word::Max,
        Gather::Sum => Word::Sum,
        Gather::Count => Word::Count,
    }
}
