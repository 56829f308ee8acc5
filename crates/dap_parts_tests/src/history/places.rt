//! Runs that go back to counts of steps, and must be as a plain run from power-on was there.
use crate::history::check::check;
use std::alloc::AllocError;
use std::rt::HostRuntime;

/// A keyboard, interrupts, switches, and changes by hand. The program reads the console and the switches, and
/// calls; RST 1 counts.
const BUSY: &str = "\
JMP MAIN
ORG 8
PUSH PSW
LDA 200H
INR A
STA 200H
OUT 2
POP PSW
EI
RET
ORG 40H
MAIN: LXI SP,4000H
LXI H,210H
EI
LOOP: IN 0
ANI 1
JZ NONE
IN 1
CALL STORE
NONE: IN 2
STA 201H
CALL WAIT
JMP LOOP
STORE: MOV M,A
INX H
RET
WAIT: MVI B,3
W1: DCR B
CALL NIL
JNZ W1
RET
NIL: RET
--
type A
switches 90
run 10
type BC
run 47
press 1
type
run 1
press 1
run 62
switches 1
run 80
press 1
press 1
run 100
press 9
run 100
write 559 abc
run 100
registers 64 16368
press 1
run 1
type Z
run 276
write 65535 ab
run 422
type !
run 1
switches 7
+compare 0 1201 767
most 7
+break 18
+searches b
+searches 0
+searches 1
+searches 2
";

/// HLT is each sixth step from the third on, and waits for the request.
const WAITING: &str = "\
LXI SP,4000H
X: EI
HLT
JMP X
ORG 10H
INR B
RET
--
run 3
press 2
run 6
press 2
run 6
+compare 0 16 767
";

/// A program without inputs.
const ALONE: &str = "\
LXI SP,4000H
X: CALL F
JMP X
F: CALL G
RET
G: INR B
PUSH B
POP D
RET
--
run 300
+compare 0 301 767
";

/// Changes by hand of the stack pointer, with frames live.
const FRAMES: &str = "\
LXI SP,4000H
CALL F
F: CALL G
G: INR A
X: JMP X
--
run 4
registers 10 16382
run 2
write 16380 ab
run 3
registers 3 12288
run 11
+compare 0 21 767
";

/// The program counts in memory, and mixes the bytes of the console and the switches. On the way to its end a
/// moment is saved after 8,808 steps, and on the way to 8,807 one after 615. The run goes back step by step.
const STEPS: &str = "\
X: LHLD 210H
INX H
SHLD 210H
IN 1
ADD B
MOV B,A
IN 2
XRA B
MOV B,A
STA 200H
JMP X
--
most 1000
skip 615
type ab
skip 8164
run 28
switches 3
run 1
type cd
switches 90
run 1
write 528 ab
run 91
skip 8069
run 21
type e
run 10
+compare 123 154 30
+compare 2 123 120
";

/// The program counts in memory by a routine, and keeps the byte that the console gives. A moment is saved
/// after 1,049,000 steps.
const LONG: &str = "\
LXI SP,4000H
X: CALL F
IN 1
STA 200H
JMP X
F: LHLD 210H
INX H
SHLD 210H
RET
--
most 1000
skip 1
-run 1
-skip 1
+skip 2
type a
skip 999997
type bcd
skip 47000
switches 3
-skip 1998
-run 3
-skip 1997
-run 2
+skip 4000
write 529 w
-skip 999
-run 1
+skip 1000
+compare 0 11 767
";

#[test]
fn runs_go_back_to_their_counts(rt: HostRuntime) -> Result<(), AllocError> {
    check(&rt, &[BUSY, WAITING, ALONE, FRAMES, STEPS, LONG])
}

/// HLT ends it after two steps, and it goes on by changes by hand. RST 1 leads on to a second HLT, so that it
/// makes no more than 7 steps.
const TWO_ENDS: &str = "\
MVI A,1
HLT
INR A
HLT
ORG 8
INR B
RET
--
run 2
+ended
+goto 2
+registers 3 16384
+press 1
+resume
+note
+each 5
+compare 0 8 3
+stopped
+unreached 8
+goto 7
+registered 2 3 5
";

/// Its inputs after 60 steps are forgotten, and another comes, with which it becomes the plain run.
const CHANGED: &str = "\
X: IN 2
STA 200H
IN 1
STA 201H
JMP X
--
most 7
run 10
switches 1
run 50
type a
+skip 1
+switches 2
+skip 29
+type b
+skip 10
+goto 60
+forget 1
+forget 0
switches 9
+resume
run 40
+here
+compare 0 101 767
+goto 100
+here
";

const LOOP: &str = "\
X: NOP
NOP
JMP X
--
most 10
+skip 80
+breakpoint
";

#[test]
fn runs_end_and_go_on_otherwise(rt: HostRuntime) -> Result<(), AllocError> {
    check(&rt, &[TWO_ENDS, CHANGED, LOOP])
}
