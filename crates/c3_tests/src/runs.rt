//! Commands, and the limits of what goes in and out.

use crate::rows::{answered, assert_answers, repeated};
use std::test::Fail;

#[test]
fn answers_commands(rt: HostRuntime) -> Result<(), Fail> {
    let table = r#"
0 plain 2@int main(void){int x=7;printf("%d\n",x);return 0;}@rank 0 exit 0 bytes 2⏎7⏎rank 1 exit 0 bytes 2⏎7⏎finished⏎
0 plain 1@int main(void){int x=2147483647;x=x+1;return x;}@rank 0 fault 105 bytes 0⏎finished⏎
0 plain 1@int main(void){int a=-7,b=0;printf("%d %d\n",a/2,a%2);return a/b;}@rank 0 fault 106 bytes 6⏎-3 -1⏎finished⏎
0 plain 1@int main(void){int n=32;return 1<<n;}@rank 0 fault 107 bytes 0⏎finished⏎
0 plain 1@int down(int n){int r=0;if(n==0){potentialCheckpoint();return 1;}r=down(n-1);return r+n;}int main(void){int s=down(2729);printf("%d\n",s);return 0;}@rank 0 exit 0 bytes 8⏎3725086⏎finished⏎
0 plain 1@int down(int n){int r=0;if(n==0){potentialCheckpoint();return 1;}r=down(n-1);return r+n;}int main(void){int s=down(2730);printf("%d\n",s);return 0;}@rank 0 fault 108 bytes 0⏎finished⏎
1 plain 1@int main(void){while(1){}}⏎#pragma ccc schedule⏎r*9@rank 0 running ops 0 bytes 0⏎unfinished⏎
3 plain 1@@refused NoMain at 0⏎
0 plain 16@int main(void){return 2;}@rank 0 exit 2 bytes 0⏎rank 1 exit 2 bytes 0⏎rank 2 exit 2 bytes 0⏎rank 3 exit 2 bytes 0⏎rank 4 exit 2 bytes 0⏎rank 5 exit 2 bytes 0⏎rank 6 exit 2 bytes 0⏎rank 7 exit 2 bytes 0⏎rank 8 exit 2 bytes 0⏎rank 9 exit 2 bytes 0⏎rank 10 exit 2 bytes 0⏎rank 11 exit 2 bytes 0⏎rank 12 exit 2 bytes 0⏎rank 13 exit 2 bytes 0⏎rank 14 exit 2 bytes 0⏎rank 15 exit 2 bytes 0⏎finished⏎
0 check@int main(void){int x=7;printf("%d\n",x);return 0;}@accepted⏎
2 check 2@int main(void){int x=7;printf("%d\n",x);return 0;}@usage⏎
2 @int main(void){int x=7;printf("%d\n",x);return 0;}@usage⏎
2 plain@int main(void){int x=7;printf("%d\n",x);return 0;}@usage⏎
2 plain 04@int main(void){int x=7;printf("%d\n",x);return 0;}@usage⏎
2 plain 2 2@int main(void){int x=7;printf("%d\n",x);return 0;}@usage⏎
2 plain 0@int main(void){int x=7;printf("%d\n",x);return 0;}@usage⏎
2 plain 17@int main(void){int x=7;printf("%d\n",x);return 0;}@usage⏎
2 start 04@int main(void){int x=7;printf("%d\n",x);return 0;}@usage⏎
2 run@int main(void){int x=7;printf("%d\n",x);return 0;}@usage⏎
"#;
    assert_answers(&rt, rt.alloc(), "", table)
}

#[test]
fn keeps_the_limits_of_length(rt: HostRuntime) -> Result<(), Fail> {
    let table = r#"
65536@refused NoMain at 65536
65537@refused TextLimit at 65536
1048576@refused TextLimit at 65536
1048577@input too long
"#;
    for line in table.trim().lines() {
        let (length, answer) = line.split_once('@').expect(&rt, "a marked line");
        let length = length.parse::<u32>().expect(&rt, "a number") as usize;
        let spaces = vec![in rt.alloc(); b' '; length]?;
        for words in ["plain 1", "check"] {
            let (_, written) = answered(rt.alloc(), words, &spaces)?;
            assert_eq!(rt; written.trim_ascii_end(), answer.as_bytes(), "at {length}");
        }
    }
    Ok(())
}

#[test]
fn keeps_the_limit_of_output(rt: HostRuntime) -> Result<(), Fail> {
    let rows = [
        (
            512,
            "for(int i=0;i<2048;i++)printf(\"",
            "\");return 3;}",
            "rank 0 exit 3 bytes 1048576\n",
            1048576,
        ),
        (
            400,
            "while(1)printf(\"",
            "\");}",
            "rank 0 fault 109 bytes 1048400\n",
            1048400,
        ),
        (
            300,
            "while(1)printf(\"",
            "\");}",
            "rank 0 running ops 3076 bytes 922800\nunfinished\n",
            0,
        ),
    ];
    for (times, loop_, back, front, output) in rows {
        let mut input = String::from_str(rt.alloc(), "int main(void){")?;
        input.push_str(loop_)?;
        let text = repeated(rt.alloc(), "", "a", times, back)?;
        input.push_str(text.as_str())?;
        let (_, written) = answered(rt.alloc(), "plain 1", input.as_bytes())?;
        assert_eq!(rt; written.starts_with(front.as_bytes()), true, "at {times}");
        let end = if output == 0 { 0 } else { "finished\n".len() };
        assert_eq!(rt; written.len(), front.len() + output + end, "at {times}");
    }
    Ok(())
}
