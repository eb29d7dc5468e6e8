//! Words and signs that mean a value.

ghost use Rattle.std.specs.Prelude.{◌≡◌, ◌≢◌, IfSome, IfNone, Bool};
ghost use Rattle.gvdl_tokens.specs.Tokens.{kind_of};
ghost use Rattle.gvdl_tree.specs.declared.predicate.Cmp.{Cmp};
ghost use Rattle.gvdl_tree.specs.declared.expression.Word.{Word as ValueWord};
ghost use Rattle.gvdl_tree.specs.declared.script.Along.{Along};
ghost use Rattle.gvdl_tree.specs.declared.script.Gather.{Gather};
ghost use Rattle.gvdl_tree.specs.declared.script.OrderWord.{OrderWord};
ghost use Rattle.gvdl_parser.specs.Terminals.{cmp_token, truth_token, value_token, term_token, factor_token, extreme_token, along_token, gather_token, order_token, within_token};

use gvdl_tokens::{Kind, Sign, Word};
use gvdl_tree::{Along, Cmp, Gather, OrderWord, Word as ValueWord};

/// The comparison that a token means.
pub fn comparison_of(kind: Kind) -> Option<Cmp>
    ensures found { IfSome result (λ v. kind ≡ kind_of (cmp_token v)) }
    ensures none { IfNone result ((v : Cmp) → kind ≢ kind_of (cmp_token v)) }
{
    match kind {
        Kind::Sign(Sign::Equal) => Some(Cmp::Eq),
        Kind::Sign(Sign::NotEqual) => Some(Cmp::Ne),
        Kind::Sign(Sign::Less) => Some(Cmp::Lt),
        Kind::Sign(Sign::AtMost) => Some(Cmp::Le),
        Kind::Sign(Sign::Greater) => Some(Cmp::Gt),
        Kind::Sign(Sign::AtLeast) => Some(Cmp::Ge),
        _ => None,
    }
}

/// The truth that a token means.
pub fn truth_of(kind: Kind) -> Option<bool>
    ensures found { IfSome result (λ v. kind ≡ kind_of (truth_token v)) }
    ensures none { IfNone result ((v : Bool) → kind ≢ kind_of (truth_token v)) }
{
    match kind {
        Kind::Word(Word::True) => Some(true),
        Kind::Word(Word::False) => Some(false),
        _ => None,
    }
}

/// The value that a token stands for.
pub fn value_of(kind: Kind) -> Option<ValueWord>
    ensures found { IfSome result (λ v. kind ≡ kind_of (value_token v)) }
    ensures none { IfNone result ((v : ValueWord) → kind ≢ kind_of (value_token v)) }
{
    match kind {
        Kind::Word(Word::Id) => Some(ValueWord::Id),
        Kind::Word(Word::Start) => Some(ValueWord::Start),
        Kind::Word(Word::Value) => Some(ValueWord::Value),
        Kind::Word(Word::Gathered) => Some(ValueWord::Gathered),
        Kind::Word(Word::Count) => Some(ValueWord::Count),
        Kind::Word(Word::Outdeg) => Some(ValueWord::Outdeg),
        _ => None,
    }
}

/// Whether a token adds (true) or subtracts (false).
pub fn term_of(kind: Kind) -> Option<bool>
    ensures found { IfSome result (λ v. kind ≡ kind_of (term_token v)) }
    ensures none { IfNone result ((v : Bool) → kind ≢ kind_of (term_token v)) }
{
    match kind {
        Kind::Sign(Sign::Plus) => Some(true),
        Kind::Sign(Sign::Minus) => Some(false),
        _ => None,
    }
}

/// Whether a token multiplies (true) or divides (false).
pub fn factor_of(kind: Kind) -> Option<bool>
    ensures found { IfSome result (λ v. kind ≡ kind_of (factor_token v)) }
    ensures none { IfNone result ((v : Bool) → kind ≢ kind_of (factor_token v)) }
{
    match kind {
        Kind::Sign(Sign::Star) => Some(true),
        Kind::Sign(Sign::Slash) => Some(false),
        _ => None,
    }
}

/// Whether a token asks for the greater (true) or the lesser (false) of two values.
pub fn extreme_of(kind: Kind) -> Option<bool>
    ensures found { IfSome result (λ v. kind ≡ kind_of (extreme_token v)) }
    ensures none { IfNone result ((v : Bool) → kind ≢ kind_of (extreme_token v)) }
{
    match kind {
        Kind::Word(Word::Max) => Some(true),
        Kind::Word(Word::Min) => Some(false),
        _ => None,
    }
}

/// The direction that a token means.
pub fn along_of(kind: Kind) -> Option<Along>
    ensures found { IfSome result (λ v. kind ≡ kind_of (along_token v)) }
    ensures none { IfNone result ((v : Along) → kind ≢ kind_of (along_token v)) }
{
    match kind {
        Kind::Word(Word::Out) => Some(Along::Out),
        Kind::Word(Word::In) => Some(Along::In),
        Kind::Word(Word::Both) => Some(Along::Both),
        _ => None,
    }
}

/// The way of gathering that a token means.
pub fn gather_of(kind: Kind) -> Option<Gather>
    ensures found { IfSome result (λ v. kind ≡ kind_of (gather_token v)) }
    ensures none { IfNone result ((v : Gather) → kind ≢ kind_of (gather_token v)) }
{
    match kind {
        Kind::Word(Word::Min) => Some(Gather::Min),
        Kind::Word(Word::Max) => Some(Gather::Max),
        Kind::Word(Word::Sum) => Some(Gather::Sum),
        Kind::Word(Word::Count) => Some(Gather::Count),
        _ => None,
    }
}

/// The order that a token means.
pub fn order_of(kind: Kind) -> Option<OrderWord>
    ensures found { IfSome result (λ v. kind ≡ kind_of (order_token v)) }
    ensures none { IfNone result ((v : OrderWord) → kind ≢ kind_of (order_token v)) }
{
    match kind {
        Kind::Word(Word::Greedy) => Some(OrderWord::Greedy),
        Kind::Word(Word::Declared) => Some(OrderWord::Declared),
        Kind::Word(Word::Tree) => Some(OrderWord::Tree),
        _ => None,
    }
}

/// Whether a token says `within` (true) or `for` (false).
pub fn within_of(kind: Kind) -> Option<bool>
    ensures found { IfSome result (λ v. kind ≡ kind_of (within_token v)) }
    ensures none { IfNone result ((v : Bool) → kind ≢ kind_of (within_token v)) }
{
    match kind {
        Kind::Word(Word::Within) => Some(true),
        Kind::Word(Word::For) => Some(false),
        _ => None,
    }
}
