//! Jobs under schedules. What is expected follows from the rules of the protocol.

use crate::rows::assert_rows;
use std::test::Fail;

// Marks alone.
#[test]
fn waves_commit(rt: HostRuntime) -> Result<(), Fail> {
    let table = r#"
each makes one mark, and four sweeps commit@m|m@w s t0*2 t1 s*4@save 0/1 ops 1 out 0, save 1/1 ops 1 out 0, log 0/1 stop 1, log 1/1 stop 1, commit 1, ended ops 1 out 0, runs ops 1 out 0, line 1
the fourth sweep brings Stopped, and three don't commit@m|m@w s t0*2 t1 s*3@save 0/1 ops 1 out 0, save 1/1 ops 1 out 0, log 0/1 stop 1, log 1/1 stop 1, ended ops 1 out 0, runs ops 1 out 0, line 0
the second sweep brings Ready, and two write no log@m|m@w s t0*2 t1 s*2@save 0/1 ops 1 out 0, save 1/1 ops 1 out 0, ended ops 1 out 0, runs ops 1 out 0, line 0
a mark that isn't asked saves nothing@m|m@w t0 s t1@save 1/1 ops 1 out 0, runs ops 1 out 0, runs ops 1 out 0, line 0
output before and after a save@oab m ocd|m@t0 w s t0 t1 t0 s*4@put 0 ab, save 0/1 ops 2 out 2, save 1/1 ops 1 out 0, put 0 cd, log 0/1 stop 3, log 1/1 stop 1, commit 1, runs ops 3 out 4, runs ops 1 out 0, line 1
a wave that is under way isn't begun again, so the second mark saves nothing@m m|m@w s t0 w s t0 t1 s*4@save 0/1 ops 1 out 0, save 1/1 ops 1 out 0, log 0/1 stop 2, log 1/1 stop 1, commit 1, runs ops 2 out 0, runs ops 1 out 0, line 1
after a commit the next line's wave may begin@m m|m m@w s t0 t1 s*4 w s t0 t1 s*4@save 0/1 ops 1 out 0, save 1/1 ops 1 out 0, log 0/1 stop 1, log 1/1 stop 1, commit 1, save 0/2 ops 2 out 0, save 1/2 ops 2 out 0, log 0/2 stop 2, log 1/2 stop 2, commit 2, runs ops 2 out 0, runs ops 2 out 0, line 2
one rank alone@m@w s t0*2 s*4@save 0/1 ops 1 out 0, log 0/1 stop 1, commit 1, ended ops 1 out 0, line 1, finished
a ring of 16@s1:0 m|s2:1 m|s3:2 m|s4:3 m|s5:4 m|s6:5 m|s7:6 m|s8:7 m|s9:8 m|s10:9 m|s11:10 m|s12:11 m|s13:12 m|s14:13 m|s15:14 m|s0:15 m@w s r*2 s*3@save 0/1 ops 2 out 0 mail 15:15, save 1/1 ops 2 out 0 mail 0:0, save 2/1 ops 2 out 0 mail 1:1, save 3/1 ops 2 out 0 mail 2:2, save 4/1 ops 2 out 0 mail 3:3, save 5/1 ops 2 out 0 mail 4:4, save 6/1 ops 2 out 0 mail 5:5, save 7/1 ops 2 out 0 mail 6:6, save 8/1 ops 2 out 0 mail 7:7, save 9/1 ops 2 out 0 mail 8:8, save 10/1 ops 2 out 0 mail 9:9, save 11/1 ops 2 out 0 mail 10:10, save 12/1 ops 2 out 0 mail 11:11, save 13/1 ops 2 out 0 mail 12:12, save 14/1 ops 2 out 0 mail 13:13, save 15/1 ops 2 out 0 mail 14:14, log 0/1 stop 2, log 1/1 stop 2, log 2/1 stop 2, log 3/1 stop 2, log 4/1 stop 2, log 5/1 stop 2, log 6/1 stop 2, log 7/1 stop 2, log 8/1 stop 2, log 9/1 stop 2, log 10/1 stop 2, log 11/1 stop 2, log 12/1 stop 2, log 13/1 stop 2, log 14/1 stop 2, log 15/1 stop 2, commit 1, runs ops 2 out 0, runs ops 2 out 0, runs ops 2 out 0, runs ops 2 out 0, runs ops 2 out 0, runs ops 2 out 0, runs ops 2 out 0, runs ops 2 out 0, runs ops 2 out 0, runs ops 2 out 0, runs ops 2 out 0, runs ops 2 out 0, runs ops 2 out 0, runs ops 2 out 0, runs ops 2 out 0, runs ops 2 out 0, line 1
"#;
    assert_rows(&rt, rt.alloc(), table)
}

// By what its sender and its receiver have saved.
#[test]
fn messages_are_late_intra_or_early(rt: HostRuntime) -> Result<(), Fail> {
    let table = r#"
sent before its sender's save and come after its receiver's: late, logged with what it holds@s1:7 m|m r0@w s t0 t1 t0 d0>1 t1 s*4@save 1/1 ops 1 out 0, save 0/1 ops 2 out 0, log 0/1 stop 2, log 1/1 stop 2 late 0:7, commit 1, runs ops 2 out 0, runs ops 2 out 0, line 1
Ready waits for the late message that rank 0 counted@s1:7 m|m r0@w s t0 t1 t0 c0>0 c0>1 c1>0 c1>1 c0>0 c1>0 c0>1 d0>1 c1>0 c0>0 c0>1 c0>0 c1>0@save 1/1 ops 1 out 0, save 0/1 ops 2 out 0, log 0/1 stop 2, log 1/1 stop 1 late 0:7, commit 1, runs ops 2 out 0, runs ops 1 out 0, line 1
sent after its sender's save and taken before its receiver's: early, counted@m s1:7|r0 m@w s t0*2 d0>1 t1*2 s*4@save 0/1 ops 1 out 0, save 1/1 ops 2 out 0 early 0:1, log 0/1 stop 2, log 1/1 stop 2, commit 1, runs ops 2 out 0, runs ops 2 out 0, line 1
early, and in the mailbox at its receiver's save@m s1:7 s1:8|m r0@w s t0*3 d0>1*2 t1 s*4@save 0/1 ops 1 out 0, save 1/1 ops 1 out 0 mail 0:7 mail 0:8 early 0:2, log 0/1 stop 3, log 1/1 stop 1, commit 1, runs ops 3 out 0, runs ops 1 out 0, line 1
sent after its sender's save and come after its receiver's: intra, logged by its source@m s1:7|m r0@w s t0 t1 t0 d0>1 t1 s*4@save 0/1 ops 1 out 0, save 1/1 ops 1 out 0, log 0/1 stop 2, log 1/1 stop 2 intra 0, commit 1, runs ops 2 out 0, runs ops 2 out 0, line 1
what comes before both saves is neither logged nor early@s1:7 m|m r0@t0 d0>1 w s t0 t1 s*4@save 0/1 ops 2 out 0, save 1/1 ops 1 out 0 mail 0:7, log 0/1 stop 2, log 1/1 stop 1, commit 1, runs ops 2 out 0, runs ops 1 out 0, line 1
late and intra in order of arrival@s1:7 m s1:8|m r0 r0@w s t0 t1 t0*2 d0>1*2 t1 s*4@save 1/1 ops 1 out 0, save 0/1 ops 2 out 0, log 0/1 stop 3, log 1/1 stop 2 late 0:7 intra 0, commit 1, runs ops 3 out 0, runs ops 2 out 0, line 1
a message that its sender sent after its stop stops its receiver, and isn't logged@m s1:7 s1:8|m r0 r0@w s t0 t1 c0>0 c0>1 c1>0 c1>1 c0>0 c1>0 t0 c0>0 t0 d0>1*2 t1*2 c0>1 c0>0 c1>0@save 0/1 ops 1 out 0, save 1/1 ops 1 out 0, log 0/1 stop 2, log 1/1 stop 1 intra 0, commit 1, runs ops 3 out 0, runs ops 3 out 0, line 1
from any source the first arrival is taken@r m|s0:5 m|s0:6 m@t1 t2 d2>0 d1>0 t0 w s t0 t1 t2 s*4@save 0/1 ops 2 out 0 mail 1:5, save 1/1 ops 2 out 0, save 2/1 ops 2 out 0, log 0/1 stop 2, log 1/1 stop 2, log 2/1 stop 2, commit 1, runs ops 2 out 0, runs ops 2 out 0, runs ops 2 out 0, line 1
from a named source a later arrival is taken@r1 m|s0:5|s0:6@t1 t2 d2>0 d1>0 t0 w s t0@save 0/1 ops 2 out 0 mail 2:6, runs ops 2 out 0, runs ops 1 out 0, runs ops 1 out 0, line 0
a receive waits for what it names@r1|s0:5@t0*2 t1 t0 d1>0 t0@runs ops 1 out 0, runs ops 1 out 0, line 0
a message to itself@s0:3 m r0@t0 w c0>0 t0 d0>0 t0 s*4@save 0/1 ops 2 out 0, log 0/1 stop 3 late 0:3, commit 1, runs ops 3 out 0, line 1
"#;
    assert_rows(&rt, rt.alloc(), table)
}

// An ended rank goes on in its layer, and a killed one in nothing.
#[test]
fn ended_and_killed_ranks(rt: HostRuntime) -> Result<(), Fail> {
    let table = r#"
an ended rank's layer counts, logs and stops@m|s0:7 m@w s t0*2 t1*2 s*4@save 0/1 ops 1 out 0, save 1/1 ops 2 out 0, log 0/1 stop 1 late 1:7, log 1/1 stop 2, commit 1, ended ops 1 out 0, runs ops 2 out 0, line 1
a rank that ended before its mark never saves@|m@t0 w s t1 s*5@save 1/1 ops 1 out 0, ended ops 0 out 0, runs ops 1 out 0, line 0
all have ended@m|m@t0*2 t1*2@ended ops 1 out 0, ended ops 1 out 0, line 0, finished
an ended rank can be killed@m|m@t0*2 t1*2 k1@ended ops 1 out 0, killed ops 1 out 0, line 0
a killed rank has no turn and no save@m|m@w s k1 t1 t0 s*5@save 0/1 ops 1 out 0, runs ops 1 out 0, killed ops 0 out 0, line 0
no rank stops without the killed one's Ready@m|m@w s t0 t1 k1 s*5@save 0/1 ops 1 out 0, save 1/1 ops 1 out 0, runs ops 1 out 0, killed ops 1 out 0, line 0
a killed rank 0 begins no wave@m|m@k0 w s t1@killed ops 0 out 0, runs ops 1 out 0, line 0
what a killed rank has sent still comes@s1:7|r0@t0 k0 d0>1 t1@killed ops 1 out 0, runs ops 1 out 0, line 0
nothing comes to a killed rank@s1:7|r0@t0 k1 d0>1 t1@runs ops 1 out 0, killed ops 0 out 0, line 0
numbers of no ranks@m|m@t2 k2 d2>0 d0>2 c2>0 c0>2 w s@runs ops 0 out 0, runs ops 0 out 0, line 0
"#;
    assert_rows(&rt, rt.alloc(), table)
}
