//! Schedules, and what is answered under them.

use crate::rows::{answered, assert_answers, line_after, repeated};
use job_core::Event;
use job_schedule::{ScheduleFault, read_schedule};
use std::alloc::{AllocError, Global};
use std::fmt::InlineText;
use std::test::Fail;

const PROGRAM: &str = "int main(void){int x=7;printf(\"%d\\n\",x);return 0;}";

const FRONT: &str = "int main(void){return 0;}\n#pragma ccc schedule\n";

#[test]
fn turns_ranks(rt: HostRuntime) -> Result<(), Fail> {
    let front = line_after(rt.alloc(), PROGRAM, "⏎#pragma ccc schedule⏎")?;
    let table = r#"
1 plain 1@@rank 0 running ops 0 bytes 0⏎unfinished⏎
1 plain 1@t0@rank 0 running ops 1 bytes 2⏎unfinished⏎
0 plain 1@t0 t0@rank 0 exit 0 bytes 2⏎7⏎finished⏎
0 plain 1@t0*2@rank 0 exit 0 bytes 2⏎7⏎finished⏎
0 plain 1@r r@rank 0 exit 0 bytes 2⏎7⏎finished⏎
0 plain 1@t0*200000@rank 0 exit 0 bytes 2⏎7⏎finished⏎
0 plain 1@r*3076 t0*60@rank 0 exit 0 bytes 2⏎7⏎finished⏎
0 plain 1@ ⇥t0␍⏎t0⏎@rank 0 exit 0 bytes 2⏎7⏎finished⏎
1 plain 1@⏎⏎ ␍⇥@rank 0 running ops 0 bytes 0⏎unfinished⏎
1 plain 1@d0>0 c0>0 s w k0 x t0@rank 0 running ops 1 bytes 2⏎unfinished⏎
0 plain 1@k0*9 t0 x t0@rank 0 exit 0 bytes 2⏎7⏎finished⏎
1 plain 1@t1 t65535 t999999999 t0@rank 0 running ops 1 bytes 2⏎unfinished⏎
1 plain 2@r@rank 0 running ops 1 bytes 2⏎rank 1 running ops 1 bytes 2⏎unfinished⏎
1 plain 2@t1*2 t0@rank 0 running ops 1 bytes 2⏎rank 1 ended ops 1 bytes 2⏎unfinished⏎
0 plain 2@t1*3 t0*2@rank 0 exit 0 bytes 2⏎7⏎rank 1 exit 0 bytes 2⏎7⏎finished⏎
"#;
    assert_answers(&rt, rt.alloc(), &front, table)
}

#[test]
fn refuses_schedules(rt: HostRuntime) -> Result<(), Fail> {
    let table = r#"
4 plain 1@t0 z@bad schedule at 3⏎
4 plain 1@t0*0@bad schedule at 0⏎
4 plain 1@t0*200001 T0@bad schedule at 10⏎
4 plain 1@t0*200001@too many events 200001⏎
4 plain 1@r*3077@too many events 200005⏎
4 plain 1@r*3076 s*61@too many events 200001⏎
4 check@t0 z@bad schedule at 3⏎
4 check@t0*200001@too many events 200001⏎
"#;
    assert_answers(&rt, rt.alloc(), FRONT, table)?;
    assert_answers(
        &rt,
        rt.alloc(),
        "int main(void){return y;}\n#pragma ccc schedule\n",
        table,
    )?;
    assert_answers(&rt, rt.alloc(), "\n#pragma ccc schedule\n", table)?;
    let table = r#"
0 check@return 0;}⏎#pragma ccc schedule⏎t0@accepted⏎
3 check@return y;}⏎#pragma ccc schedule⏎t0@refused UnknownName at 22⏎
"#;
    assert_answers(&rt, rt.alloc(), "int main(void){", table)
}

// What isn't the line belongs to the text. The first line counts, and a comment doesn't hide it.
#[test]
fn finds_the_line(rt: HostRuntime) -> Result<(), Fail> {
    let table = r#"
1 plain 1@⏎#pragma ccc schedule@rank 0 running ops 0 bytes 0⏎unfinished⏎
1 plain 1@⏎#pragma ccc schedule⏎@rank 0 running ops 0 bytes 0⏎unfinished⏎
1 plain 1@⏎#pragma ccc schedule␍⏎t0␍⏎@rank 0 running ops 1 bytes 2⏎unfinished⏎
1 plain 1@⏎ ⇥␍#pragma ccc schedule␍ ⇥⏎t0@rank 0 running ops 1 bytes 2⏎unfinished⏎
1 plain 1@⏎⏎⏎#pragma ccc schedule⏎t0@rank 0 running ops 1 bytes 2⏎unfinished⏎
4 plain 1@⏎#pragma ccc schedule⏎t0⏎#pragma ccc schedule⏎t0@bad schedule at 3⏎
3 plain 1@/*⏎#pragma ccc schedule⏎t0@refused Syntax at 50⏎
4 plain 1@/*⏎#pragma ccc schedule⏎t0 */@bad schedule at 3⏎
3 plain 1@#pragma ccc schedule⏎t0@refused Syntax at 50⏎
3 plain 1@⏎#pragma ccc schedule t0⏎t0@refused Syntax at 51⏎
3 plain 1@⏎#pragma ccc schedules⏎t0@refused Syntax at 51⏎
3 plain 1@⏎#pragma  ccc schedule⏎t0@refused Syntax at 51⏎
3 plain 1@⏎#pragma ccc schedul@refused Syntax at 51⏎
0 plain 1@//⏎//#pragma ccc schedule⏎@rank 0 exit 0 bytes 2⏎7⏎finished⏎
"#;
    assert_answers(&rt, rt.alloc(), PROGRAM, table)?;
    assert_answers(
        &rt,
        rt.alloc(),
        "#pragma ccc schedule",
        "3 plain 1@⏎t0@refused NoMain at 0⏎",
    )
}

#[test]
fn finds_the_first_wrong_word(rt: HostRuntime) -> Result<(), Fail> {
    let table = r#"
4 plain 1@t@bad schedule at 0⏎
4 plain 1@t-1@bad schedule at 0⏎
4 plain 1@t+1@bad schedule at 0⏎
4 plain 1@t 1@bad schedule at 0⏎
4 plain 1@t00@bad schedule at 0⏎
4 plain 1@t01@bad schedule at 0⏎
4 plain 1@t1000000000@bad schedule at 0⏎
4 plain 1@t0000000000@bad schedule at 0⏎
4 plain 1@t1a@bad schedule at 0⏎
4 plain 1@t1>2@bad schedule at 0⏎
4 plain 1@tt0@bad schedule at 0⏎
4 plain 1@T0@bad schedule at 0⏎
4 plain 1@k@bad schedule at 0⏎
4 plain 1@k02@bad schedule at 0⏎
4 plain 1@d@bad schedule at 0⏎
4 plain 1@d1@bad schedule at 0⏎
4 plain 1@d>@bad schedule at 0⏎
4 plain 1@d1>@bad schedule at 0⏎
4 plain 1@d>2@bad schedule at 0⏎
4 plain 1@d1>02@bad schedule at 0⏎
4 plain 1@d01>2@bad schedule at 0⏎
4 plain 1@d1>2>3@bad schedule at 0⏎
4 plain 1@d1>>2@bad schedule at 0⏎
4 plain 1@d1 >2@bad schedule at 0⏎
4 plain 1@c1<2@bad schedule at 0⏎
4 plain 1@c1@bad schedule at 0⏎
4 plain 1@c*2@bad schedule at 0⏎
4 plain 1@s0@bad schedule at 0⏎
4 plain 1@ss@bad schedule at 0⏎
4 plain 1@w1@bad schedule at 0⏎
4 plain 1@xx@bad schedule at 0⏎
4 plain 1@rr@bad schedule at 0⏎
4 plain 1@r2@bad schedule at 0⏎
4 plain 1@z@bad schedule at 0⏎
4 plain 1@0@bad schedule at 0⏎
4 plain 1@*@bad schedule at 0⏎
4 plain 1@*2@bad schedule at 0⏎
4 plain 1@2*s@bad schedule at 0⏎
4 plain 1@s*@bad schedule at 0⏎
4 plain 1@s*0@bad schedule at 0⏎
4 plain 1@s*01@bad schedule at 0⏎
4 plain 1@s*1000000000@bad schedule at 0⏎
4 plain 1@s*2*3@bad schedule at 0⏎
4 plain 1@s**2@bad schedule at 0⏎
4 plain 1@s*s@bad schedule at 0⏎
4 plain 1@s *2@bad schedule at 2⏎
4 plain 1@s* 2@bad schedule at 0⏎
4 plain 1@t*2@bad schedule at 0⏎
4 plain 1@g7@bad schedule at 0⏎
4 plain 1@g7*1000@bad schedule at 0⏎
4 plain 1@q2*5@bad schedule at 0⏎
4 plain 1@t0 z@bad schedule at 3⏎
4 plain 1@⏎⏎  t0␍⏎ zz s@bad schedule at 9⏎
4 plain 1@s s*0 z@bad schedule at 2⏎
4 plain 1@z t0*200001@bad schedule at 0⏎
4 plain 1@t0*200001 z@bad schedule at 10⏎
"#;
    assert_answers(&rt, rt.alloc(), FRONT, table)
}

#[test]
fn counts_events(rt: HostRuntime) -> Result<(), Fail> {
    let table = r#"
4 plain 1@r*3077@too many events 200005⏎
4 plain 1@t0*200001@too many events 200001⏎
4 plain 1@t0*200000 t0@too many events 200001⏎
4 plain 1@s*199936 r@too many events 200001⏎
4 plain 1@r*3076 w*61@too many events 200001⏎
4 plain 1@x*999999999@too many events 999999999⏎
4 plain 1@r*999999999@too many events 64999999935⏎
4 plain 1@r*999999999⏎r*999999999@too many events 129999999870⏎
"#;
    assert_answers(&rt, rt.alloc(), FRONT, table)
}

/// The events of one rank, each with how often it comes in a row.
fn shown(alloc: Global, events: &[Event]) -> Result<String, AllocError> {
    let mut text = String::new(alloc);
    let mut last: Option<Event> = None;
    let mut times: u64 = 0;
    for event in events {
        if let Some(before) = last
            && before != *event
        {
            write!(text, "{before:?}*{times} ")?;
            times = 0;
        }
        last = Some(*event);
        times = times.saturating_add(1);
    }
    if let Some(before) = last {
        write!(text, "{before:?}*{times}")?;
    }
    Ok(text)
}

#[test]
fn gives_events(rt: HostRuntime) -> Result<(), Fail> {
    let table = r#"
@
 ⇥␍⏎ @
t0@Turn(0)*1
t2@Turn(2)*1
t15*4@Turn(15)*4
k0@Kill(0)*1
k7*2@Kill(7)*2
d1>2@Deliver { from: 1, to: 2 }*1
d1>2*3@Deliver { from: 1, to: 2 }*3
d0>0@Deliver { from: 0, to: 0 }*1
c3>14@Control { from: 3, to: 14 }*1
c10>9*10@Control { from: 10, to: 9 }*10
s@Sweep*1
s*5@Sweep*5
w@Wave*1
w*2@Wave*2
x@Restart*1
x*3@Restart*3
r@Turn(0)*1 Sweep*1
r*2@Turn(0)*1 Sweep*1 Turn(0)*1 Sweep*1
t0*200000@Turn(0)*200000
s*199935 r@Sweep*199935 Turn(0)*1 Sweep*1
t16@Turn(16)*1
t65534@Turn(65534)*1
t65535@Turn(65535)*1
t65536@Turn(65535)*1
t65537@Turn(65535)*1
t131072@Turn(65535)*1
t999999999@Turn(65535)*1
k100000@Kill(65535)*1
d65536>1@Deliver { from: 65535, to: 1 }*1
c1>999999999@Control { from: 1, to: 65535 }*1
s s@Sweep*2
 s@Sweep*1
s @Sweep*1
s⇥w@Sweep*1 Wave*1
s␍w@Sweep*1 Wave*1
s⏎w@Sweep*1 Wave*1
␍⏎s ⇥ w␍⏎@Sweep*1 Wave*1
t0 t1@Turn(0)*1 Turn(1)*1
t10@Turn(10)*1
t100000000*1@Turn(65535)*1
s*10@Sweep*10
s*100000@Sweep*100000
"#;
    for line in table.lines().skip(1) {
        let (schedule, expected) = line.split_once('@').expect(&rt, "a marked line");
        let schedule = line_after(rt.alloc(), "", schedule)?;
        assert!(rt; schedule.len() <= 100);
        let schedule = read_schedule(rt.alloc(), schedule.as_bytes())?;
        let events = schedule.events(1)?;
        let shown = shown(rt.alloc(), &events)?;
        assert_eq!(rt; shown.as_str(), expected, "at {line}");
    }
    Ok(())
}

#[test]
fn a_round_turns_each_rank(rt: HostRuntime) -> Result<(), Fail> {
    let schedule = read_schedule(rt.alloc(), b"w r*2")?;
    assert_eq!(rt;
        schedule.events(0)?.as_slice(),
        [Event::Wave, Event::Sweep, Event::Sweep].as_slice()
    );
    let events = schedule.events(3)?;
    let expected = [
        Event::Wave,
        Event::Turn(0),
        Event::Turn(1),
        Event::Turn(2),
        Event::Sweep,
        Event::Turn(0),
        Event::Turn(1),
        Event::Turn(2),
        Event::Sweep,
    ];
    assert_eq!(rt; events.as_slice(), expected.as_slice());
    Ok(())
}

#[test]
fn faults_are_shown(rt: HostRuntime) -> Result<(), Fail> {
    let fault = ScheduleFault::BadEvent { at: 3 };
    assert_eq!(rt;
        InlineText::<64>::of(fault).as_str(),
        "no word of a schedule at byte 3"
    );
    let fault = ScheduleFault::TooMany { count: 200001 };
    let text = "200001 events, which is more than 200,000";
    assert_eq!(rt; InlineText::<64>::of(fault).as_str(), text);
    assert_eq!(rt;
        InlineText::<64>::of(ScheduleFault::NoMemory).as_str(),
        "no memory"
    );
    Ok(())
}

#[test]
fn prints_to_the_limit(rt: HostRuntime) -> Result<(), Fail> {
    let letters = repeated(rt.alloc(), "", "a", 64, "")?;
    let output = repeated(rt.alloc(), "", letters.as_str(), 16384, "finished\n")?;
    let table = r#"
@rank 0 exit 0 bytes 1048576⏎
printf("a");@rank 0 fault 109 bytes 1048576⏎
"#;
    for line in table.lines().skip(1) {
        let (after, head) = line.split_once('@').expect(&rt, "a marked line");
        let mut input = String::from_str(
            rt.alloc(),
            "int main(void){int i;for(i=0;i<16384;i++)printf(\"",
        )?;
        input.push_str(letters.as_str())?;
        input.push_str("\");")?;
        input.push_str(after)?;
        input.push_str("return 0;}\n#pragma ccc schedule\nt0*16385")?;
        let answer = line_after(rt.alloc(), "", head)?;
        let (_, written) = answered(rt.alloc(), "plain 1", input.as_bytes())?;
        assert_eq!(rt;
            written.len(),
            answer.len() + output.len(),
            "after: {after}"
        );
        assert!(rt; written.starts_with(answer.as_bytes()) && written.ends_with(output.as_bytes()));
    }
    Ok(())
}
