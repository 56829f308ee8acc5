//! Lines whose tokens and faults were worked out by hand from the manual.

use crate::language::rows::{Asked, compare};
use asm_expr::expression::Binary;
use asm_laws::tokens::{fault_ends_tokens, tokens_are_spelled};
use asm_lex::lexer::tokens;
use asm_syntax::fault::{FaultKind, LineFault};
use asm_syntax::keyword::{Directive, Keyword, Mnemonic, RegisterWord};
use asm_syntax::token::{Placed, Token};
use i80_base::instruction::Instr;
use std::alloc::{AllocError, Global};

pub(crate) fn put_bytes(bytes: &[u8], told: &mut String) -> Result<(), AllocError> {
    for byte in bytes {
        told.push(char::from(*byte))?;
    }
    Ok(())
}

/// The name of a keyword of the rows.
pub(crate) fn keyword_name(keyword: Keyword) -> &'static str {
    match keyword {
        Keyword::Mnemonic(Mnemonic::Alone(Instr::Nop)) => "Mnemonic(Alone(Nop))",
        Keyword::Mnemonic(Mnemonic::MoveImmediate) => "Mnemonic(MoveImmediate)",
        Keyword::Register(RegisterWord::A) => "Register(A)",
        Keyword::Directive(Directive::Bytes) => "Directive(Bytes)",
        Keyword::Directive(Directive::EndIf) => "Directive(EndIf)",
        Keyword::Infix(Binary::And) => "Infix(And)",
        _ => "another keyword",
    }
}

fn put_text(text: &[u8], told: &mut String) -> Result<(), AllocError> {
    told.push('<')?;
    put_bytes(text, told)?;
    told.push('>')
}

fn put_token(token: Token<'_>, told: &mut String) -> Result<(), AllocError> {
    match token {
        Token::Name(word) => put_bytes(word.letters, told),
        Token::Keyword(keyword) => told.push_str(keyword_name(keyword)),
        Token::Overlong => told.push_str("overlong"),
        Token::Number(n) => write!(told, "#{n}"),
        Token::Text(text) => put_text(text, told),
        Token::Sign(sign) => told.push(char::from(sign)),
    }
}

// Tokens after their columns.
fn put_all(found: &[Placed<'_>], told: &mut String) -> Result<(), AllocError> {
    for placed in found {
        if !told.is_empty() {
            told.push(' ')?;
        }
        write!(told, "{}:", placed.column)?;
        put_token(placed.token, told)?;
    }
    Ok(())
}

/// A line's tokens after their columns, or its fault.
pub(crate) fn put_tokens(alloc: Global, line: &[u8], told: &mut String) -> Result<(), AllocError> {
    match tokens(alloc, line) {
        Ok(found) => put_all(found.as_slice(), told),
        Err(fault) => write!(told, "{fault}"),
    }
}

// A line, and its tokens after their columns.
const LINES: &str = "\
; anything: 99999 'x \0 é |
 |
 \t  |
loop: nop; | 1:loop 5:: 7:Mnemonic(Alone(Nop))
\tMVI a,5 ; five | 2:Mnemonic(MoveImmediate) 6:Register(A) 7:, 8:#5
DB'A',$-1 | 1:Directive(Bytes) 3:<A> 6:, 7:$ 8:- 9:#1
?a@1 @ ? | 1:?a@1 6:@ 8:?
1? | 1:#1 2:?
'it''s;' '''' | 1:<it''s;> 10:<''>
''' ' x | 1:<'' > 7:x
1and 2 | 1 Number
1 AND 2 and 3 And 4 | 1:#1 3:Infix(And) 7:#2 9:Infix(And) 13:#3 15:Infix(And) 19:#4
!\"#%&()*+,-./:<=>[\\]^_`{|}~ | 1:! 2:\" 3:# 4:% 5:& 6:( 7:) 8:* 9:+ 10:, 11:- 12:. 13:/ \
14:: 15:< 16:= 17:> 18:[ 19:\\ 20:] 21:^ 22:_ 23:` 24:{ 25:| 26:} 27:~
0ffh 0FFH 10h | 1:#255 6:#255 11:#16
1B 0B 0BH 1D 17q 17O 65535 | 1:#1 4:#0 7:#11 11:#1 14:#15 18:#15 22:#65535
1111111111111111B 177777Q 0FFFFH 000065535d | 1:#65535 19:#65535 27:#65535 34:#65535
a234567890123456789012345678901 | 1:a234567890123456789012345678901
a2345678901234567890123456789012,1 | 1:overlong 33:, 34:#1
";

// A line, and its leftmost fault.
const FAULTS: &str = "\
NOP\r | 4 Character
NOP \r; x | 5 Character
\x0b | 1 Character
 \x0c | 2 Character
A\0 | 2 Character
\x7f | 1 Character
\u{feff}NOP | 1 Character
NOP é | 5 Character
99999 NOP | 1 Number
65536 | 1 Number
DB 10000H | 4 Number
200000O | 1 Number
10000000000000000B | 1 Number
4294967296 | 1 Number
2B | 1 Number
0FB | 1 Number
0A | 1 Number
5AND 3 | 1 Number
8Q | 1 Number
9O | 1 Number
0FD | 1 Number
0GH | 1 Number
1HH | 1 Number
A,0A,0B | 3 Number
'' | 1 Text
DB '' | 4 Text
'abc | 1 Text
' | 1 Text
''' | 1 Text
'A'B' | 5 Text
'a\tb' | 1 Text
DB 'a', 'é' | 9 Text
DB 'a, 99999 \0 | 4 Text
0A 'a | 1 Number
";

#[test]
fn tokens_of_lines(rt: HostRuntime) {
    tokens_are_spelled();
    compare(&rt, Asked::Tokens, LINES);
}

#[test]
fn leftmost_faults(rt: HostRuntime) {
    fault_ends_tokens();
    compare(&rt, Asked::Tokens, FAULTS);
}

// A beginning, so many of one character, and an end.
fn long_line(
    alloc: Global,
    beginning: &[u8],
    character: u8,
    count: usize,
    end: &[u8],
) -> Result<Vec<u8>, AllocError> {
    let mut line = Vec::from_slice(alloc, beginning)?;
    for _ in 0..count {
        line.push(character)?;
    }
    line.extend_from_slice(end)?;
    Ok(line)
}

// How many tokens a line has.
fn token_count(alloc: Global, line: &[u8]) -> Result<usize, LineFault> {
    Ok(tokens(alloc, line)?.len())
}

// How many tokens such a long line has.
fn long_count(
    alloc: Global,
    beginning: &[u8],
    character: u8,
    count: usize,
    end: &[u8],
) -> Result<usize, LineFault> {
    let line = long_line(alloc, beginning, character, count, end)?;
    let found = token_count(alloc, &line);
    drop(line);
    found
}

// A string has 128 characters at most, of which a doubled quote is one. A hostile line is read in
// one pass.
const LONG: [(&[u8], u8, usize, &[u8], Result<usize, FaultKind>); 7] = [
    (b"'", b'~', 127, b"'''", Ok(1)),
    (b"'", b'~', 128, b"'''", Err(FaultKind::Text)),
    (b"", b'(', 1_048_576, b"", Ok(1_048_576)),
    (b"", b' ', 1_048_576, b"", Ok(0)),
    (b"", b'A', 1_048_576, b"", Ok(1)),
    (b"", b'\'', 1_048_576, b"", Err(FaultKind::Text)),
    (b"", b'1', 1_048_576, b"", Err(FaultKind::Number)),
];

#[test]
fn long_lines(rt: HostRuntime) {
    for (beginning, character, count, end, wanted) in &LONG {
        let wanted = wanted.map_err(|kind| LineFault::At { column: 1, kind });
        let found = long_count(rt.alloc(), beginning, *character, *count, end);
        assert!(rt; found == wanted, "{count}");
    }
}
