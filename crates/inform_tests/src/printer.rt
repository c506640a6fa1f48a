//! Printed texts. A text that is printed so is the text of its program, so that the program of each
//! is printed as it stands; and texts read back through the tokens.
use super::texts::{joined, program_of};
use crate::expect;
use inform_lexer::{Kind, text, tokens};
use inform_printer::print;
use inform_tree::Program;
use std::alloc::Global;
use std::process::Abort;

// The printed text of a program, which has to be well formed.
fn printed<R: Abort + AllocGlobal>(rt: &R, program: &Program) -> Vec<u8> {
    expect!(rt; program.well_formed());
    print(rt.alloc(), program).expect(rt, "memory")
}

// Expects that the program of each text, which stands between two others, is printed as it stands.
fn expect_all<R: Abort + AllocGlobal>(rt: &R, before: &str, cases: &[&str], after: &str) {
    for case in cases {
        let text = joined(rt, &[before, case, after]);
        let program = program_of(rt, text.as_bytes());
        expect!(rt; printed(rt, &program).as_slice() == text.as_bytes(), case);
    }
}

// ---- values

const VALUES: &[&str] = &[
    "0",
    "4294967295",
    "' '",
    "lamp_2",
    "f ( 1 , a + b )",
    "f ( )",
    "random ( a + b )",
    // Chains.
    "a - b + 3 - 'c'",
    "a * 2 / f ( ) % random ( 6 )",
    "( a + b ) * 2",
    "1 - ( a + b )",
    "( a + b ) + 1",
    "1 + ( a * 2 / f ( ) % random ( 6 ) )",
    // Operands.
    "- 1",
    "- ( a + b )",
    "- ( - f ( ) )",
    "1 - ( - 2 )",
    "table_1 --> 7",
    "table_1 -> ( a + b )",
    "table_1 --> ( table_1 -> 0 )",
];

#[test]
fn values_are_printed(rt: HostRuntime) {
    expect_all(&rt, "[ main ;\nx = ", VALUES, " ;\n] ;\n");
}

// ---- conditions

const CONDITIONS: &[&str] = &[
    "a + b == 1",
    "a + b ~= 1",
    "a + b < 1",
    "a + b > 1",
    "a + b <= 1",
    "a + b >= 1",
    "p",
    "p && q",
    "( p && q ) || r",
    "r && ( p && q )",
    "~~ ( p && q )",
    "~~ ( p ) || q",
];

#[test]
fn conditions_are_printed(rt: HostRuntime) {
    expect_all(&rt, "[ main ;\nwhile ( ", CONDITIONS, " ) {\n}\n] ;\n");
}

// ---- statements

const STATEMENTS: &[&str] = &[
    ";",
    "{\n;\n}",
    "break ;",
    "continue ;",
    "quit ;",
    "rtrue ;",
    "rfalse ;",
    "return ;",
    "return a + b ;",
    "new_line ;",
    // Changes.
    "i ++ ;",
    "i -- ;",
    "t -> ( a + b ) = a + b ;",
    "g ( 'z' ) ;",
    "read line words ;",
    "print ( char ) a + b , \"; \" , ( a + b ) * 2 ;",
    // Choices.
    "if ( p ) {\n}",
    "if ( p ) {\nif ( p ) {\n}\n}\nelse {\nquit ;\n}",
    "if ( p ) {\nif ( p ) {\n}\nelse {\nquit ;\n}\n}",
    "switch ( 1 ) {\n}",
    "switch ( a + b ) {\n1 , - 2 to top : quit ;\n'q' : }",
    "switch ( a + b ) {\n1 , - 2 to top : quit ;\n'q' : default : ;\n}",
    // Loops.
    "do {\nbreak ;\n}\nuntil ( p && q ) ;",
    "for ( : : ) {\n}",
    "for ( t -> ( a + b ) = a + b : p && q : i ++ ) {\ncontinue ;\n}",
];

#[test]
fn statements_are_printed(rt: HostRuntime) {
    expect_all(&rt, "[ main ;\n", STATEMENTS, "\n] ;\n");
}

// ---- directives

const DIRECTIVES: &[&str] = &[
    "",
    "Constant low = - 7 ;\nConstant key = low ;\nGlobal room ;\nGlobal light = 'L' ;\n",
    "Array list --> 3 ( - 1 ) 'e' key ;\nArray list -> 3 ( - 1 ) 'e' key ;\n",
    "[ add left right ;\n] ;\n",
];

#[test]
fn directives_are_printed(rt: HostRuntime) {
    expect_all(&rt, "", DIRECTIVES, "");
}

// ---- texts

// How a string is printed, and what it says.
const TEXTS: &[(&str, &[u8])] = &[
    ("\"\"", b""),
    ("\"@@64@@53 @@126 @@94 @@92\"", b"@5 ~ ^ \\"),
    ("\"a^@@200  7\"", b"a\n\xc8  7"),
    ("\"@@200@@55\"", b"\xc87"),
    ("\"@@200 7\"", b"\xc8 7"),
    ("\"say ~it's~\"", b"say \"it's\""),
    ("\"@@0@@127\"", b"\x00\x7f"),
    ("\"@@64@@49@@50\"", b"@12"),
];

// Whether the first string of a text says these bytes.
fn reads_back(alloc: Global, whole: &[u8], bytes: &[u8]) -> bool {
    let Ok(found) = tokens(alloc, whole) else {
        return false;
    };
    for token in &found {
        if token.kind == Kind::Quoted {
            return text(alloc, whole, *token).is_ok_and(|said| said.bytes() == bytes);
        }
    }
    false
}

#[test]
fn texts_are_printed(rt: HostRuntime) {
    for (spelling, bytes) in TEXTS {
        expect_all(&rt, "[ main ;\nprint ", &[spelling], " ;\n] ;\n");
        expect!(rt; reads_back(rt.alloc(), spelling.as_bytes(), bytes), spelling);
    }
}
