//! The tokens of texts, their places and where they end, as a text.

use gvdl_tokens::{Ending, LexFault, Place, Token, lex};
use std::alloc::Global;
use std::process::Abort;
use std::test::Fail;

fn show_place(alloc: Global, text: &mut String, place: Place) -> Result<(), Fail> {
    let Place { line, column } = place;
    let shown = format!(in alloc; "@{line}:{column}")?;
    text.push_str(shown.as_str())?;
    Ok(())
}

fn show_token(text: &mut String, token: &Token) -> Result<(), Fail> {
    match token {
        Token::Name(name) => {
            text.push_str("name ")?;
            text.push_str(name.as_str())?;
        }
        Token::Quoted(name) => {
            text.push_str("quoted ")?;
            text.push_str(name.as_str())?;
        }
        Token::Str(string) => {
            text.push_str("string ")?;
            text.push_str(string.as_str())?;
        }
        Token::Word(word) => text.push_str(word.spelling())?,
        Token::Sign(sign) => text.push_str(sign.spelling())?,
        Token::Number(_) => text.push_str("number ")?,
        Token::End => text.push_str("end")?,
    }
    Ok(())
}

fn show_value(alloc: Global, text: &mut String, token: &Token) -> Result<(), Fail> {
    if let Token::Number(number) = token {
        let value = number.get();
        let shown = format!(in alloc; "{value}")?;
        text.push_str(shown.as_str())?;
    }
    Ok(())
}

fn show_ending(alloc: Global, text: &mut String, ending: Ending) -> Result<(), Fail> {
    match ending {
        Ending::End(place) => {
            text.push_str("end")?;
            show_place(alloc, text, place)
        }
        Ending::Syntax(place) => {
            text.push_str("syntax")?;
            show_place(alloc, text, place)
        }
        Ending::NumberTooLarge(place) => {
            text.push_str("too large")?;
            show_place(alloc, text, place)
        }
    }
}

fn shown(alloc: Global, text: &[u8]) -> Result<String, Fail> {
    let mut shown = String::new(alloc);
    if text.len() > 10000 {
        return Ok(shown);
    }
    let read = lex(alloc, text)?;
    for (token, place) in read.tokens.as_slice().iter().zip(read.places.as_slice()) {
        show_token(&mut shown, token)?;
        show_value(alloc, &mut shown, token)?;
        show_place(alloc, &mut shown, *place)?;
        shown.push_str(" | ")?;
    }
    show_ending(alloc, &mut shown, read.ending)?;
    Ok(shown)
}

fn are_read(rt: &impl Abort, alloc: Global, cases: &[(&str, &str)]) -> Result<(), Fail> {
    for (text, tokens) in cases {
        let found = shown(alloc, text.as_bytes())?;
        assert_eq!(rt; found.as_str(), *tokens);
    }
    Ok(())
}

// Texts, and what is shown of their tokens: blanks, line ends, comments and byte order marks.
const GAPS: [(&str, &str); 15] = [
    ("", "end@1:1"),
    ("a", "name a@1:1 | end@1:2"),
    ("\n\n  a", "name a@3:3 | end@3:4"),
    ("\r\na\r\n", "name a@2:1 | end@3:1"),
    ("a\rb", "name a@1:1 | name b@1:3 | end@1:4"),
    ("\t\ta\t", "name a@1:3 | end@1:5"),
    ("# note\na", "name a@2:1 | end@2:2"),
    ("a#b\nc", "name a@1:1 | name c@2:1 | end@2:2"),
    ("a # é ' \" @\n# \n b", "name a@1:1 | name b@3:2 | end@3:3"),
    ("a #", "name a@1:1 | end@1:4"),
    ("#\r\n#", "end@2:2"),
    ("\u{FEFF}", "end@1:1"),
    ("\u{FEFF}a\nb", "name a@1:1 | name b@2:1 | end@2:2"),
    ("\u{FEFF}\u{FEFF}a", "syntax@1:1"),
    ("a\u{FEFF}", "name a@1:1 | syntax@1:2"),
];

#[test]
fn places_and_gaps(rt: HostRuntime) -> Result<(), Fail> {
    are_read(&rt, rt.alloc(), &GAPS)
}

// Strings and quoted names, closed and not.
const QUOTES: [(&str, &str); 20] = [
    ("''", "string @1:1 | end@1:3"),
    ("'a''b'", "string a'b@1:1 | end@1:7"),
    ("''''", "string '@1:1 | end@1:5"),
    ("'a' 'b'", "string a@1:1 | string b@1:5 | end@1:8"),
    ("'a\nb' c", "string a\nb@1:1 | name c@2:4 | end@2:5"),
    ("'# \"é'", "string # \"é@1:1 | end@1:8"),
    ("'", "syntax@1:1"),
    ("'a", "syntax@1:1"),
    ("'a''b", "syntax@1:1"),
    ("'''", "syntax@1:1"),
    ("a 'b\n'' c", "name a@1:1 | syntax@1:3"),
    ("\"a b\"", "quoted a b@1:1 | end@1:6"),
    ("\"load\"", "quoted load@1:1 | end@1:7"),
    ("\"\"\"\"", "quoted \"@1:1 | end@1:5"),
    ("\"a\"\"'\"'b'", "quoted a\"'@1:1 | string b@1:7 | end@1:10"),
    ("\"\"", "syntax@1:1"),
    ("a \"\" b", "name a@1:1 | syntax@1:3"),
    ("\"\"a\"", "syntax@1:1"),
    ("\"a\"\"", "syntax@1:1"),
    (
        "load graph G nodes 'n4",
        "load@1:1 | graph@1:6 | name G@1:12 | nodes@1:14 | syntax@1:20",
    ),
];

#[test]
fn strings_and_quoted_names(rt: HostRuntime) -> Result<(), Fail> {
    are_read(&rt, rt.alloc(), &QUOTES)
}

// Numbers, names and words, and where one ends and the next begins.
const NAMES: [(&str, &str); 17] = [
    ("0", "number 0@1:1 | end@1:2"),
    (
        "9223372036854775807",
        "number 9223372036854775807@1:1 | end@1:20",
    ),
    ("9223372036854775808", "too large@1:1"),
    ("1 18446744073709551616", "number 1@1:1 | too large@1:3"),
    ("00000000000000000000000000007", "number 7@1:1 | end@1:30"),
    ("9223372036854775808 @", "too large@1:1"),
    ("@ 9223372036854775808", "syntax@1:1"),
    ("10rounds", "number 10@1:1 | rounds@1:3 | end@1:9"),
    ("1a-1", "number 1@1:1 | name a-1@1:2 | end@1:5"),
    ("a-b", "name a-b@1:1 | end@1:4"),
    ("a-", "name a-@1:1 | end@1:3"),
    ("value - 1", "value@1:1 | -@1:7 | number 1@1:9 | end@1:10"),
    ("value -1", "value@1:1 | -@1:7 | number 1@1:8 | end@1:9"),
    ("value-1", "name value-1@1:1 | end@1:8"),
    (
        "_ Load loads load-1",
        "name _@1:1 | name Load@1:3 | name loads@1:8 | name load-1@1:14 | end@1:20",
    ),
    ("é", "syntax@1:1"),
    ("aé", "name a@1:1 | syntax@1:2"),
];

#[test]
fn numbers_names_and_words(rt: HostRuntime) -> Result<(), Fail> {
    are_read(&rt, rt.alloc(), &NAMES)
}

// Signs, and characters that begin none.
const SIGNS: [(&str, &str); 9] = [
    (
        ";,:.()",
        ";@1:1 | ,@1:2 | :@1:3 | .@1:4 | (@1:5 | )@1:6 | end@1:7",
    ),
    (
        "[]{}+-*/",
        "[@1:1 | ]@1:2 | {@1:3 | }@1:4 | +@1:5 | -@1:6 | *@1:7 | /@1:8 | end@1:9",
    ),
    (
        "=!=<<=>>=",
        "=@1:1 | !=@1:2 | <@1:4 | <=@1:5 | >@1:7 | >=@1:8 | end@1:10",
    ),
    ("< = <==", "<@1:1 | =@1:3 | <=@1:5 | =@1:7 | end@1:8"),
    ("!", "syntax@1:1"),
    ("! =", "syntax@1:1"),
    ("a\n ! b", "name a@1:1 | syntax@2:2"),
    ("a @", "name a@1:1 | syntax@1:3"),
    ("a\u{0}", "name a@1:1 | syntax@1:2"),
];

#[test]
fn signs(rt: HostRuntime) -> Result<(), Fail> {
    are_read(&rt, rt.alloc(), &SIGNS)
}

// The reserved words. (A name would be shown as one.)
const RESERVED: [(&str, &str); 8] = [
    (
        "load graph nodes edges create view collection on where",
        "load@1:1 | graph@1:6 | nodes@1:12 | edges@1:18 | create@1:24 | view@1:31 | collection@1:36 | on@1:47 | where@1:50 | end@1:55",
    ),
    (
        "window from to width step program along out in",
        "window@1:1 | from@1:8 | to@1:13 | width@1:16 | step@1:22 | program@1:27 | along@1:35 | out@1:41 | in@1:45 | end@1:47",
    ),
    (
        "both start send gather update min max sum count",
        "both@1:1 | start@1:6 | send@1:12 | gather@1:17 | update@1:24 | min@1:31 | max@1:35 | sum@1:39 | count@1:43 | end@1:48",
    ),
    (
        "run within for rounds round order greedy declared split",
        "run@1:1 | within@1:5 | for@1:12 | rounds@1:16 | round@1:23 | order@1:29 | greedy@1:35 | declared@1:42 | split@1:51 | end@1:56",
    ),
    (
        "none every auto keep as append show work and",
        "none@1:1 | every@1:6 | auto@1:12 | keep@1:17 | as@1:22 | append@1:25 | show@1:32 | work@1:37 | and@1:42 | end@1:45",
    ),
    (
        "or not is absent true false src dst id",
        "or@1:1 | not@1:4 | is@1:8 | absent@1:11 | true@1:18 | false@1:23 | src@1:29 | dst@1:33 | id@1:37 | end@1:39",
    ),
    (
        "value gathered outdeg edge node if then else form",
        "value@1:1 | gathered@1:7 | outdeg@1:16 | edge@1:23 | node@1:28 | if@1:33 | then@1:36 | else@1:41 | form@1:46 | end@1:50",
    ),
    (
        "insert remove tree group by aggregate phases changes replay",
        "insert@1:1 | remove@1:8 | tree@1:15 | group@1:20 | by@1:26 | aggregate@1:29 | phases@1:39 | changes@1:46 | replay@1:54 | end@1:60",
    ),
];

#[test]
fn reserved_words(rt: HostRuntime) -> Result<(), Fail> {
    are_read(&rt, rt.alloc(), &RESERVED)
}

#[test]
fn bytes_that_are_not_utf8(rt: HostRuntime) {
    let texts: [&[u8]; 4] = [b"\xFF", b"@ \xFF", b"\xEF\xBB", b"'\xE9'"];
    for text in texts {
        assert_eq!(rt; lex(rt.alloc(), text).err(), Some(LexFault::NotUtf8));
    }
}
