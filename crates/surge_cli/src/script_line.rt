//! Why a script is refused, and the line that says so.

ghost use Rattle.std.specs.Prelude.{◌≡◌, IfOk, string_bytes};
ghost use Rattle.surge_cli.specs.StatusText.{text_fault_name, statement_refusal_name, script_refusal_name, text_fault_place, where_text, place_text, statement_text, script_line};

use gvdl_check::StatementFault;
use gvdl_parser::ScriptFault;
use gvdl_programs::Refusal;
use std::alloc::Global;
use surge_outside::NoMemory;

/// Why a script is refused.
#[derive(Clone, Copy, Debug, PartialEq, Eq)]
pub enum ScriptRefusal {
    /// The text has more than 2^20 bytes.
    TooLarge,
    /// The text has this first fault.
    Text(ScriptFault),
    /// The text is a script that writes a form which is neither 1 nor 2.
    BadForm,
    /// The text is a script, and this is its first fault against its graph.
    Statement(StatementFault),
}

fn text_fault_name(fault: ScriptFault) -> &'static str
    ensures { result.now ≡ text_fault_name fault }
{
    match fault {
        ScriptFault::NotUtf8 => "NotUtf8",
        ScriptFault::Syntax(_, _) => "Syntax",
        ScriptFault::NumberTooLarge(_, _) => "NumberTooLarge",
        ScriptFault::TooDeep(_, _) => "TooDeep",
    }
}

fn statement_refusal_name(refusal: Refusal) -> &'static str
    ensures { result.now ≡ statement_refusal_name refusal }
{
    match refusal {
        Refusal::UnknownName => "UnknownName",
        Refusal::RepeatedName => "RepeatedName",
        Refusal::UnknownProperty => "UnknownProperty",
        Refusal::WrongType => "WrongType",
        Refusal::WrongArguments => "WrongArguments",
        Refusal::TooManyViews => "TooManyViews",
        Refusal::BadRounds => "BadRounds",
        Refusal::TooManyKept => "TooManyKept",
        Refusal::BadSplit => "BadSplit",
        Refusal::NeedsForm => "NeedsForm",
        Refusal::WorkEdited => "WorkEdited",
    }
}

fn refusal_name(refusal: ScriptRefusal) -> &'static str
    ensures { result.now ≡ script_refusal_name refusal }
{
    match refusal {
        ScriptRefusal::TooLarge => "TooLarge",
        ScriptRefusal::Text(fault) => text_fault_name(fault),
        ScriptRefusal::BadForm => "BadForm",
        ScriptRefusal::Statement(fault) => statement_refusal_name(fault.refusal),
    }
}

// Where a fault of a text is: a line and a column, or the text as a whole.
fn text_fault_place(alloc: Global, fault: ScriptFault) -> Result<String, NoMemory>
    ensures { IfOk result (λ text. string_bytes text ≡ text_fault_place fault) }
{
    match fault {
        ScriptFault::NotUtf8 => Ok(String::new(alloc)),
        ScriptFault::Syntax(line, column) => place_text(alloc, line, column),
        ScriptFault::NumberTooLarge(line, column) => place_text(alloc, line, column),
        ScriptFault::TooDeep(line, column) => place_text(alloc, line, column),
    }
}

// Where a script is refused: at a place of its text, at a statement, or as a whole.
fn where_text(alloc: Global, refusal: ScriptRefusal) -> Result<String, NoMemory>
    ensures { IfOk result (λ text. string_bytes text ≡ where_text refusal) }
{
    match refusal {
        ScriptRefusal::TooLarge => Ok(String::new(alloc)),
        ScriptRefusal::Text(fault) => text_fault_place(alloc, fault),
        ScriptRefusal::BadForm => Ok(String::new(alloc)),
        ScriptRefusal::Statement(fault) => statement_text(alloc, fault.statement),
    }
}

fn place_text(alloc: Global, line: u32, column: u32) -> Result<String, NoMemory>
    ensures { IfOk result (λ text. string_bytes text ≡ place_text line column) }
{
    Ok(format!(in alloc; "line {line} column {column}: ")?)
}

fn statement_text(alloc: Global, number: u32) -> Result<String, NoMemory>
    ensures { IfOk result (λ text. string_bytes text ≡ statement_text number) }
{
    Ok(format!(in alloc; "statement {number}: ")?)
}

/// The line of a refused script, with its line feed. The one error is want of memory.
pub(crate) fn script_line(alloc: Global, refusal: ScriptRefusal) -> Result<String, NoMemory>
    ensures { IfOk result (λ line. string_bytes line ≡ script_line refusal) }
{
    let place = where_text(alloc, refusal)?;
    let name = refusal_name(refusal);
    Ok(format!(in alloc; "surge: script: {place}{name}\n")?)
}
