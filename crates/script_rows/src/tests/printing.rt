//! A script and its canonical text, which was worked out by hand: also of what no graph takes, so that the program shows no
//! canonical text of it.

ghost use Rattle.std.specs.Prelude.{◌≡◌, ◌<◌, ◌^◌, length, IfOk};

use gvdl_parser::{ParseFault, parse};
use gvdl_printer::{print, print_property, print_string};
use gvdl_tree::Script;
use std::alloc::Global;
use std::test::Fail;
use surge_outside::{List, Text};

// The script of a text, and the script of its canonical text, which is the same.
fn read_twice(alloc: Global, text: &[u8]) -> Result<(Script, Script), ParseFault>
    requires { length text.now < 2 ^ 30 }
    ensures { IfOk result (λ both. both.0 ≡ both.1) }
{
    let script = parse(alloc, text)?;
    let printed = print(alloc, &script)?;
    let again = parse(alloc, printed.as_slice())?;
    Ok((script, again))
}

// What is printed of the script that the canonical text of a text is read as.
fn printed_again(alloc: Global, text: &str) -> Result<List<u8>, Fail> {
    if text.len() > 100_000 {
        return Err(Fail::new("the text is too long"));
    }
    let (_, again) = read_twice(alloc, text.as_bytes())?;
    Ok(print(alloc, &again)?)
}

#[test]
fn the_example_of_the_language_page(rt: HostRuntime) -> Result<(), Fail> {
    let given = concat!(
        "# two views and a run\n",
        "load  graph G nodes 'n4.csv'\n      edges 'e1.csv' ;\n",
        "create view collection W on G\n",
        "    [ w : window \"t\" from 0 to -150 width 040 step 10 ],\n",
        "    [ b : not(src . id = dst.\"x\") ], [ c : ((y=1 or y=2)) or \"or\"=003 ];\n",
        "program p(){along out;start(0);send -(value+1);gather count;update if(id)=1 then(value)else none;}\n",
        "run p( ) on W within 2000 round split auto;\n",
    );
    let canonical = concat!(
        "load graph G nodes 'n4.csv' edges 'e1.csv';\n",
        "create view collection W on G [w: window t from 0 to -150 width 40 step 10], ",
        "[b: not src.id = dst.x], [c: (y = 1 or y = 2) or \"or\" = 3];\n",
        "program p { along out; start 0; send -(value + 1); gather count; ",
        "update if id = 1 then value else none; }\n",
        "run p on W within 2000 rounds split auto;\n",
    );
    let printed = printed_again(rt.alloc(), given)?;
    assert_eq!(rt; printed.as_slice(), canonical.as_bytes());
    Ok(())
}

#[test]
fn what_no_graph_takes(rt: HostRuntime) -> Result<(), Fail> {
    let given = concat!(
        "load graph G nodes '' edges 'it''s \"é\"' ;",
        "create view v on G edges where src.\"id\" > dst.\"a b\"",
        " or true = 'it''s' and false!='\"';",
        "program p { along in; start if(id)<start then(value)else(gathered else outdeg);",
        "send -max(-1 , edge . w) ; gather max; update none else value else count; }",
        "run f(\"a\",\"in\", -3) on C for 1 round order greedy split every 00 keep as K;",
    );
    let canonical = concat!(
        "load graph G nodes '' edges 'it''s \"é\"';\n",
        "create view v on G edges where src.\"id\" > dst.\"a b\"",
        " or true = 'it''s' and false != '\"';\n",
        "program p { along in; start if id < start then value else gathered else outdeg; ",
        "send -max(-1, edge.w); gather max; update none else value else count; }\n",
        "run f(a, \"in\", -3) on C for 1 rounds order greedy split every 0 keep as K;\n",
    );
    let printed = printed_again(rt.alloc(), given)?;
    assert_eq!(rt; printed.as_slice(), canonical.as_bytes());
    Ok(())
}

#[test]
fn statements_of_form_two(rt: HostRuntime) -> Result<(), Fail> {
    let given = concat!(
        "form 0002 ;load graph G nodes 'n' edges 'e';",
        "run p on C within 1 round phases 007;run p on C for 1 round order tree keep as K;",
        "show   tree C;insert edges '';remove edges where(not(y=1));",
        "aggregate C group by \"g\" ;aggregate C group by \"group\" sum \"w\";",
    );
    let canonical = concat!(
        "form 2;\n",
        "load graph G nodes 'n' edges 'e';\n",
        "run p on C within 1 rounds phases 7;\n",
        "run p on C for 1 rounds order tree keep as K;\n",
        "show tree C;\n",
        "insert edges '';\n",
        "remove edges where not y = 1;\n",
        "aggregate C group by g;\n",
        "aggregate C group by \"group\" sum w;\n",
    );
    let printed = printed_again(rt.alloc(), given)?;
    assert_eq!(rt; printed.as_slice(), canonical.as_bytes());
    Ok(())
}

// A name as a property, a blank, and the same as a string.
fn both_texts(alloc: Global, name: &str) -> Result<List<u8>, Fail> {
    let name = Text::from_string(String::from_str(alloc, name)?);
    let mut text = print_property(alloc, &name)?;
    text.push(b' ')?;
    text.append(print_string(alloc, &name)?)?;
    Ok(text)
}

#[test]
fn properties_and_strings(rt: HostRuntime) -> Result<(), Fail> {
    let named = both_texts(rt.alloc(), "city")?;
    assert_eq!(rt; named.as_slice(), "city 'city'".as_bytes());
    let quoted = both_texts(rt.alloc(), "O'Brien \"x\"")?;
    assert_eq!(rt;
        quoted.as_slice(),
        "\"O'Brien \"\"x\"\"\" 'O''Brien \"x\"'".as_bytes()
    );
    Ok(())
}

#[test]
fn any_number_of_a_form(rt: HostRuntime) -> Result<(), Fail> {
    let text = "form 0;\nload graph G nodes 'n' edges 'e';\n";
    let printed = printed_again(rt.alloc(), text)?;
    assert_eq!(rt; printed.as_slice(), text.as_bytes());
    Ok(())
}
