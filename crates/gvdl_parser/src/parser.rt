//! From a text to its script or its first fault.

ghost use Rattle.std.specs.Prelude.{◌≡◌, ◌≢◌, ◌⊎◌, ◌<◌, ◌^◌, ℕ, length, IfOk, true, false, slice_get};
ghost use Rattle.gvdl_tree.specs.declared.script.Script.{Script};
ghost use Rattle.gvdl_parser.specs.declared.fault.ScriptFault.{ScriptFault};
ghost use Rattle.gvdl_parser.specs.Script.{IsScript, IsScriptWith, IsFirstFault};
ghost use Rattle.gvdl_tokens.specs.declared.place.Place.{Place};
ghost use Rattle.gvdl_parser.specs.Judging.{Judges, EndsWhole, ending_fault, syntax_fault, deep_fault};

use crate::fault::{ParseFault, ScriptFault};
use crate::script::{TokenFault, parse_tokens};
use gvdl_tokens::{Ending, LexFault, Tokens, lex};
use gvdl_tree::Script;
use std::alloc::Global;

/// The script that a text is.
///
/// The text has fewer than 2^31 bytes. It is read from the left, in time linear in its length. Chains of any length are
/// read with no more stack than 64 levels take.
///
/// # Errors
///
/// [`ParseFault::Fault`] with the text's first fault, exactly where it has one. [`ParseFault::NoMemory`] where a request
/// for memory was refused.
pub fn parse(alloc: Global, text: &[u8]) -> Result<Script, ParseFault>
    requires { length text.now < 2 ^ 31 }
    ensures found { IfOk result (λ s. IsScript text.now s) }
    ensures only { IfOk result (λ s. (n : ℕ) (other : Script) → IsScriptWith n text.now other → other ≡ s) }
    ensures fault { (f : ScriptFault) → result ≡ Err (ParseFault.Fault f) → IsFirstFault text.now f }
    ensures every_script { (s : Script) → IsScript text.now s → (result ≡ Ok s) ⊎ (result ≡ Err ParseFault.NoMemory) }
    ensures every_fault { (f : ScriptFault) → IsFirstFault text.now f → (result ≡ Err (ParseFault.Fault f)) ⊎ (result ≡ Err ParseFault.NoMemory) }
{
    match lex(alloc, text) {
        Ok(tokens) => script_of(alloc, &tokens),
        Err(LexFault::NotUtf8) => Err(ParseFault::Fault(ScriptFault::NotUtf8)),
        Err(LexFault::NoMemory) => Err(ParseFault::NoMemory),
    }
}

// The script that the tokens of a text are, or the first fault among them and what stands behind them.
fn script_of(alloc: Global, all: &Tokens) -> Result<Script, ParseFault>
    requires { length all.now.places ≡ length all.now.tokens }
    ensures { Judges all.now result }
{
    match parse_tokens(alloc, all.tokens.as_slice()) {
        Ok(script) => {
            if is_end(all.ending) {
                Ok(script)
            } else {
                Err(ParseFault::Fault(ending_fault(all.ending)))
            }
        }
        Err(TokenFault::NoMemory) => Err(ParseFault::NoMemory),
        Err(TokenFault::Syntax(k)) => Err(ParseFault::Fault(syntax_at(all, k))),
        Err(TokenFault::TooDeep(k)) => Err(ParseFault::Fault(too_deep_at(all, k))),
    }
}

fn is_end(ending: Ending) -> bool
    ensures whole { result ≡ true → (place : Place) × (ending ≡ Ending.End place) }
    ensures broken { result ≡ false → (place : Place) → ending ≢ Ending.End place }
{
    match ending {
        Ending::End(_) => true,
        _ => false,
    }
}

// What is wrong where the tokens end so and are no whole script.
fn ending_fault(ending: Ending) -> ScriptFault
    ensures { result ≡ ending_fault ending }
{
    match ending {
        Ending::End(place) => ScriptFault::Syntax(place.line, place.column),
        Ending::Syntax(place) => ScriptFault::Syntax(place.line, place.column),
        Ending::NumberTooLarge(place) => ScriptFault::NumberTooLarge(place.line, place.column),
    }
}

// A syntax fault at the token of this number, or behind them all.
fn syntax_at(all: &Tokens, k: usize) -> ScriptFault
    ensures { result ≡ syntax_fault (slice_get all.now.places k) all.now.ending }
{
    match all.places.as_slice().get(k) {
        Some(place) => ScriptFault::Syntax(place.line, place.column),
        None => ending_fault(all.ending),
    }
}

// A level too many at the token of this number.
fn too_deep_at(all: &Tokens, k: usize) -> ScriptFault
    ensures { result ≡ deep_fault (slice_get all.now.places k) all.now.ending }
{
    match all.places.as_slice().get(k) {
        Some(place) => ScriptFault::TooDeep(place.line, place.column),
        None => ending_fault(all.ending),
    }
}
