//! The language held against what its manual and its users expect.

use crate::language::rows::{Asked, compare};
use asm_text::statements::statements;
use std::alloc::{AllocError, Global};

/// How many statements a text has.
pub(crate) fn put_count(alloc: Global, text: &str, told: &mut String) -> Result<(), AllocError> {
    match statements(alloc, text) {
        Ok(all) => write!(told, "{}", all.as_slice().len()),
        Err(fault) => write!(told, "{fault}"),
    }
}

// Texts without a fault, and how many statements they have. One is two ends of a line with a `\r` each;
// `lines` takes one more away.
const GOOD: &str = "\
NOP | 1
 | 0

 | 1
\r\r
\r\r
 | 2
X: MVI A,5 ; five
 HLT
END X
nothing é | 3
; é中😀 | 1
x :\tnop | 1
DB'A'
JMP$
DB(1)
DB-1 | 4
X1 EQU 5
X1@? SET LOW X1 | 2
DB 'IT''S',0FFH,1B,0B,0BH,1D,17O,17Q | 1
DB 1,2 , 3 | 1
MOV A,M
MOV M,A
MOV B,C | 3
LXI SP,0
PUSH PSW
LDAX D
DAD SP
RST 7 | 5
IF 1
X: ELSE
Y: ENDIF | 3
END | 1
NOP
END 5
IF 1
' | 2
RIM: NOP
MACRO EQU 5 | 2
DB 2*-1+3,NOT 1 AND 3,HIGH 1234H+1 | 1
ABCDEFGHIJKLMNOPQRSTUVWXYZ12345: NOP | 1
DS 0
ORG $
DW X,'AB' | 3
CNZ X
JPE X
RPO | 3
";

#[test]
fn good_texts(rt: HostRuntime) {
    compare(&rt, Asked::Count, GOOD);
}
