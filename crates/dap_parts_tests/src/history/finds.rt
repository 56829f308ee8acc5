//! Searches from counts, and what they are to find. The counts follow from the programs, by hand.
use crate::history::check::check;
use std::alloc::AllocError;
use std::rt::HostRuntime;

/// The call is a statement at 1, 6, 11, .. The routine is at the next two counts.
const CALLS: &str = "\
LXI SP,4000H
X: CALL F
NOP
JMP X
F: INR A
RET
--
most 7
+skip 40
+break 0
+goto 0
+find 0 0
+goto 1
+find 0 0
+goto 4
+find 0 1
+goto 4
+find 1 3
+goto 5
+find 0 4
+goto 8
+find 0 6
+goto 8
+find 1 7
+goto 39
+find 0 36
";

/// The breakpoint is met at 1, 4, 7, ..
const LOOP: &str = "\
X: NOP
NOP
JMP X
--
most 7
+skip 80
+break 2
+goto 0
+find b 0
+goto 1
+find b 0
+goto 2
+find b 1
+goto 4
+find b 1
+goto 5
+find b 4
+goto 80
+find b 79
+goto 79
+find b 76
";

/// Only a typed byte reaches the routine. A turn without a byte has three steps, the first at 1. The byte
/// typed at 11 is seen by IN at 13; the routine is reached at 17.
const TYPED: &str = "\
LXI SP,4000H
X: IN 0
ANI 1
JZ X
CALL F
JMP X
F: IN 1
RET
--
most 7
+skip 11
+type a
+skip 1
+switches 1
+skip 48
+break 7
+goto 60
+find b 17
+goto 18
+find b 17
+goto 17
+find b 0
+goto 19
+find 0 16
";

#[test]
fn searches_find_the_last_goal(rt: HostRuntime) -> Result<(), AllocError> {
    check(&rt, &[CALLS, LOOP, TYPED])
}

/// The breakpoint is met once, at the second step. 64, 512, 4,096, 32,768 and 262,144 steps are searched,
/// with eight pauses, and then all 800,415 from the start, 65,536 at a time.
const FAR: &str = "\
NOP
NOP
X: INR A
JMP X
--
most 4096
+skip 1048700
+switches 5
+skip 51299
+break 2
+find b 1 20
";

/// It leaves 32,768 typed bytes unread. The breakpoint is at the second JMP, to which PC is set once. What
/// lies below the steps that are searched as above is searched from the moment at 1,048,576 on, up to
/// 3,150,416.
const UNREAD: &str = "\
IN 1
X: JMP X
JMP X
--
most 4096
+many 32769
+skip 1100000
+registers 5 16384
+skip 2350000
+break 3
+find b 1100000 40
";

#[test]
fn searches_go_far_back(rt: HostRuntime) -> Result<(), AllocError> {
    check(&rt, &[FAR, UNREAD])
}

/// It leaves more unread. The same is searched from the start on, since no moment is saved.
const MORE_UNREAD: &str = "\
IN 1
X: JMP X
JMP X
--
most 4096
+many 32770
+skip 1100000
+registers 5 16384
+skip 2350000
+break 3
+find b 1100000 56
";

#[test]
fn no_moment_has_more_unread_bytes(rt: HostRuntime) -> Result<(), AllocError> {
    check(&rt, &[MORE_UNREAD])
}

/// X is reached at 0, 2, 4, .., with one more in A each time: it is 5 at 10.
const ONCE: &str = "\
X: INR A
JMP X
--
most 7
+skip 80
+when 0 A==5
+find b 10
+goto 11
+find b 10
+goto 10
+find b 0
";

/// A condition that is 0 never stops the run. One that has no value stops it wherever it is asked, as B is 0,
/// and so does one that is any other number.
const VALUES: &str = "\
X: INR A
JMP X
--
most 7
+skip 80
+when 0 0
+when 0 A GT 40
+find b 0
+when 0 A==300 || A==3
+goto 80
+find b 6
+when 1 1/B
+goto 80
+find b 79
+goto 79
+find b 77
+when 0 A && $==X
+goto 79
+find b 78
";

/// Of two breakpoints at an address each stops the run, as a plain one does at 1, 3, 5, ..
const TOGETHER: &str = "\
X: INR A
JMP X
--
most 7
+skip 80
+when 0 A==5
+when 0 A==9
+goto 80
+find b 18
+goto 18
+find b 10
+break 2
+goto 80
+find b 79
+goto 11
+find b 10
+goto 10
+find b 9
";

/// X is reached as above. A breakpoint with a hit condition stops no run that goes back.
const HITS: &str = "\
X: INR A
JMP X
--
most 7
+skip 80
+hit 0 1
+find b 0
+when 0 A==5
+hit 0 A==9
+goto 80
+find b 10
";

/// The byte at V is one more at 2, 5, 8, .., where the JMP is reached. A condition is asked of the run as it
/// was then: at 80 the byte is 27. A step back by a statement doesn't ask it.
const READS: &str = "\
X: INR A
STA V
JMP X
V: DB 0
--
most 7
+skip 80
+when 4 [V]==3
+find b 8
+goto 80
+find 0 79
";

/// Y is reached at 512, 1,026, 1,540, .., with one more in B each time: it is 3 at 2,054, and again at
/// 133,638. From 130,000, 64, 512, 4,096 and 32,768 steps are searched, with four pauses, and then all 92,560
/// from the start, 65,536 at a time.
const FAR_CONDITION: &str = "\
X: INR A
JNZ X
Y: INR B
JMP X
--
most 4096
+skip 134000
+when 4 B==3
+find b 133638
+goto 130000
+find b 2054 5
";

#[test]
fn searches_find_conditions(rt: HostRuntime) -> Result<(), AllocError> {
    check(&rt, &[ONCE, VALUES, TOGETHER, HITS, READS, FAR_CONDITION])
}

/// Inputs that are cut after a count: it, how many are later, and how many are left.
const CUTS: &str = "\
NOP
--
+cut 0 0 0
+append 1 1 0
+cut 0 1 0
+append 0 1 0
+append 0 1 0
+append 5 1 0
+append 5 1 0
+append 9 1 0
+cut 0 3 2
+append 5 1 0
+append 5 1 0
+append 9 1 0
+cut 4 3 2
+append 5 1 0
+append 5 1 0
+append 9 1 0
+cut 5 1 4
+append 9 1 0
+cut 8 1 4
+append 9 1 0
+cut 9 0 5
+cut 10 0 5
";

/// Four inputs count 1,048,576 each, as many as a log has room for, and the least one counts 64.
const FULL: &str = "\
NOP
--
+append 0 1048512 0
+append 0 1048512 0
+append 0 1048512 0
+append 0 1048513 1
+append 0 1048512 0
+append 0 0 1
+entries 4
";

/// The unit in which a moment was saved, and the last one in which it stays; and in each of some units, how
/// many moments are kept. The numbers were counted by another program.
const KEPT: &str = "\
NOP
--
+stays 1 18
+stays 2 36
+stays 3 20
+stays 4 72
+stays 12 80
+stays 16 288
+stays 1023 1040
+kept 100 39
+kept 1024 70
+kept 1025 65
+kept 9999 95
";

#[test]
fn logs_and_moments_are_cut(rt: HostRuntime) -> Result<(), AllocError> {
    check(&rt, &[CUTS, FULL, KEPT])
}
