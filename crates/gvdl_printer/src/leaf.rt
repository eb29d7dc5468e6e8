//! Writes numbers, properties, and the words and signs that mean a value.

ghost use Rattle.std.specs.Prelude.{◌≡◌, ◌∷◌, [], IfOk};
ghost use Rattle.gvdl_parser.specs.Terminals.{cmp_token, truth_token, value_token, term_token, factor_token};
ghost use Rattle.gvdl_printer.specs.Names.{is_name};
ghost use Rattle.gvdl_printer.specs.Layout.{plain, word, sign};
ghost use Rattle.gvdl_printer.specs.Canonical.{int_pieces, prop_piece, field_piece, operand_pieces};
ghost use Rattle.gvdl_printer.specs.Pages.{wrote};

use crate::page::Page;
use gvdl_tokens::{Sign, Word, is_name};
use gvdl_tree::{Cmp, Field, Operand, Word as ValueWord};
use std::alloc::Global;
use surge_outside::{NoMemory, Text};

/// A whole number.
#[tactic(auto, using(crate::proofs::Growing::growing))]
pub fn int(alloc: Global, page: &mut Page, number: i64) -> Result<(), NoMemory>
    ensures { IfOk result (λ _. page.new ≡ wrote page.old (int_pieces number)) }
{
    if number < 0 {
        page.negative_sign()?;
        page.number(alloc, number.unsigned_abs())
    } else {
        page.number(alloc, number.unsigned_abs())
    }
}

fn names_itself(text: &Text) -> bool
    ensures { result ≡ is_name text.now }
{
    is_name(text.as_str())
}

/// A property: as a name where it is one, else as a quoted name.
pub fn prop(page: &mut Page, property: &Text) -> Result<(), NoMemory>
    ensures { IfOk result (λ _. page.new ≡ wrote page.old (prop_piece property.now ∷ [])) }
{
    if names_itself(property) {
        page.name(property)
    } else {
        page.quoted(property)
    }
}

/// A comparison.
pub fn comparison(page: &mut Page, cmp: Cmp) -> Result<(), NoMemory>
    ensures { IfOk result (λ _. page.new ≡ wrote page.old (plain (cmp_token cmp) ∷ [])) }
{
    match cmp {
        Cmp::Eq => page.sign(Sign::Equal),
        Cmp::Ne => page.sign(Sign::NotEqual),
        Cmp::Lt => page.sign(Sign::Less),
        Cmp::Le => page.sign(Sign::AtMost),
        Cmp::Gt => page.sign(Sign::Greater),
        Cmp::Ge => page.sign(Sign::AtLeast),
    }
}

/// `true` or `false`.
pub fn truth(page: &mut Page, value: bool) -> Result<(), NoMemory>
    ensures { IfOk result (λ _. page.new ≡ wrote page.old (plain (truth_token value) ∷ [])) }
{
    if value {
        page.word(Word::True)
    } else {
        page.word(Word::False)
    }
}

/// A word that stands for a value.
pub fn value_word(page: &mut Page, word: ValueWord) -> Result<(), NoMemory>
    ensures { IfOk result (λ _. page.new ≡ wrote page.old (plain (value_token word) ∷ [])) }
{
    match word {
        ValueWord::Id => page.word(Word::Id),
        ValueWord::Start => page.word(Word::Start),
        ValueWord::Value => page.word(Word::Value),
        ValueWord::Gathered => page.word(Word::Gathered),
        ValueWord::Count => page.word(Word::Count),
        ValueWord::Outdeg => page.word(Word::Outdeg),
    }
}

/// `+` (true) or `-` (false).
pub fn term_sign(page: &mut Page, plus: bool) -> Result<(), NoMemory>
    ensures { IfOk result (λ _. page.new ≡ wrote page.old (plain (term_token plus) ∷ [])) }
{
    if plus {
        page.sign(Sign::Plus)
    } else {
        page.sign(Sign::Minus)
    }
}

/// `*` (true) or `/` (false).
pub fn factor_sign(page: &mut Page, times: bool) -> Result<(), NoMemory>
    ensures { IfOk result (λ _. page.new ≡ wrote page.old (plain (factor_token times) ∷ [])) }
{
    if times {
        page.sign(Sign::Star)
    } else {
        page.sign(Sign::Slash)
    }
}

fn field(page: &mut Page, field: &Field) -> Result<(), NoMemory>
    ensures { IfOk result (λ _. page.new ≡ wrote page.old (field_piece field.now ∷ [])) }
{
    match field {
        Field::Id => page.word(Word::Id),
        Field::Prop(property) => prop(page, property),
    }
}

// `src` or `dst`, and what is read there.
#[tactic(auto, using(crate::proofs::Growing::growing))]
fn end(page: &mut Page, end: Word, read: &Field) -> Result<(), NoMemory>
    ensures { IfOk result (λ _. page.new ≡ wrote page.old (word end ∷ sign Sign.Dot ∷ field_piece read.now ∷ [])) }
{
    page.word(end)?;
    page.sign(Sign::Dot)?;
    field(page, read)
}

/// A side of a comparison.
#[tactic(auto, using(crate::proofs::Growing::growing))]
pub fn operand(alloc: Global, page: &mut Page, side: &Operand) -> Result<(), NoMemory>
    ensures { IfOk result (λ _. page.new ≡ wrote page.old (operand_pieces side.now)) }
{
    match side {
        Operand::Number(number) => int(alloc, page, *number),
        Operand::Str(text) => page.string(text),
        Operand::Bool(value) => truth(page, *value),
        Operand::Src(field) => end(page, Word::Src, field),
        Operand::Dst(field) => end(page, Word::Dst, field),
        Operand::Edge(property) => prop(page, property),
    }
}
