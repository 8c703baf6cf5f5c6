//! Texts near the limit of 65,536 bytes, and of 64 levels.

use crate::rows::{answered, push_line};
use std::alloc::Global;
use std::process::Abort;
use std::test::Fail;

/// The pieces between `@`s. Before a `×` stands how often a piece is repeated.
fn pieced(rt: &impl Abort, alloc: Global, pieces: &str) -> Result<String, Fail> {
    let mut text = String::new(alloc);
    for piece in pieces.split('@') {
        match piece.split_once('×') {
            None => push_line(&mut text, piece)?,
            Some((times, repeated)) => {
                let times = times.parse::<u32>().expect(rt, "a number");
                for _ in 0..times {
                    push_line(&mut text, repeated)?;
                }
            }
        }
    }
    Ok(text)
}

/// Each line is an input, and after its `→` what is written.
fn assert_long(rt: &impl Abort, alloc: Global, words: &str, table: &str) -> Result<(), Fail> {
    for line in table.trim().lines() {
        let (input, answer) = line.split_once('→').expect(rt, "an answer");
        let input = pieced(rt, alloc, input)?;
        let answer = pieced(rt, alloc, answer)?;
        let (_, written) = answered(alloc, words, input.as_bytes())?;
        assert_eq!(rt; written.as_slice(), answer.as_bytes(), "at {line}");
    }
    Ok(())
}

#[test]
fn chains_run(rt: HostRuntime) -> Result<(), Fail> {
    let table = r#"
int main(void){int x=1;return x@32700×+x@;}→rank 0 exit 32701 bytes 0⏎@finished⏎
int main(void){int x=1;return x@32700×-x@;}→rank 0 exit -32699 bytes 0⏎@finished⏎
int main(void){int x=1;return x@32700×*x@;}→rank 0 exit 1 bytes 0⏎@finished⏎
int main(void){int x=1;return x@32700×/x@;}→rank 0 exit 1 bytes 0⏎@finished⏎
int main(void){int x=1;return x@32700×%x@;}→rank 0 exit 0 bytes 0⏎@finished⏎
int main(void){int x=1;return x@32700×<x@;}→rank 0 exit 1 bytes 0⏎@finished⏎
int main(void){int x=1;return x@32700×>x@;}→rank 0 exit 0 bytes 0⏎@finished⏎
int main(void){int x=1;return x@32700×&x@;}→rank 0 exit 1 bytes 0⏎@finished⏎
int main(void){int x=1;return x@32700×^x@;}→rank 0 exit 1 bytes 0⏎@finished⏎
int main(void){int x=1;return x@32700×|x@;}→rank 0 exit 1 bytes 0⏎@finished⏎
int main(void){int x=0;return x@21700×<<x@;}→rank 0 exit 0 bytes 0⏎@finished⏎
int main(void){int x=1;return x@21700×>>x@;}→rank 0 exit 0 bytes 0⏎@finished⏎
int main(void){int x=1;return x@21700×<=x@;}→rank 0 exit 1 bytes 0⏎@finished⏎
int main(void){int x=1;return x@21700×>=x@;}→rank 0 exit 1 bytes 0⏎@finished⏎
int main(void){int x=1;return x@21700×==x@;}→rank 0 exit 1 bytes 0⏎@finished⏎
int main(void){int x=1;return x@21700×!=x@;}→rank 0 exit 1 bytes 0⏎@finished⏎
int main(void){int x=1;return x@21700×&&x@;}→rank 0 exit 1 bytes 0⏎@finished⏎
int main(void){int x=1;return x@21700×||x@;}→rank 0 exit 1 bytes 0⏎@finished⏎
int main(void){int x=1;return x@16000×*x+x@;}→rank 0 exit 16001 bytes 0⏎@finished⏎
int main(void){int x=1;return x@10000×&&x||x@;}→rank 0 exit 1 bytes 0⏎@finished⏎
"#;
    assert_long(&rt, rt.alloc(), "plain 1", table)
}

#[test]
fn long_texts_run(rt: HostRuntime) -> Result<(), Fail> {
    let table = r#"
struct p{struct p *n;int k;};int main(void){struct p a,*p=&a;a.n=&a;a.k=5;p=p@21700×->n@;return p->k;}→rank 0 exit 5 bytes 0⏎@finished⏎
struct p{struct p *n;int k;};int main(void){struct p a;a.n=&a;a.k=6;return a@10000×.n[0]@.k;}→rank 0 exit 6 bytes 0⏎@finished⏎
int main(void){int a@7000×[1]@;a@7000×[0]@=7;return a@7000×[0]@;}→rank 0 exit 7 bytes 0⏎@finished⏎
int main(void){int x=0;if(x)x=1;@4600×else if(x)x=2;@else x=3;return x;}→rank 0 exit 3 bytes 0⏎@finished⏎
int main(void){int x=0;if(x);@5900×else if(x);@return x;}→rank 0 exit 0 bytes 0⏎@finished⏎
5400×int f(void);@int f(void){return 0;}int main(void){return 0;}→rank 0 exit 0 bytes 0⏎@finished⏎
3800×#include <mpi.h>⏎@int main(void){return 0;}→rank 0 exit 0 bytes 0⏎@finished⏎
int main(void){int x=0;@16000×x++;@return x;}→rank 0 exit 16000 bytes 0⏎@finished⏎
int main(void){@65000×;@return 1;}→rank 0 exit 1 bytes 0⏎@finished⏎
int main(void){@32000×{}@return 1;}→rank 0 exit 1 bytes 0⏎@finished⏎
int main(void){@8000×{int a;}@return 1;}→rank 0 exit 1 bytes 0⏎@finished⏎
int main(void){int x=1;@6500×if(x)x=1;@return x;}→rank 0 exit 1 bytes 0⏎@finished⏎
int main(void){⏎@2700×#pragma ccc checkpoint⏎@return 1;}→rank 0 exit 1 bytes 0⏎@finished⏎
int main(void){@2900×potentialCheckpoint();@return 1;}→rank 0 exit 1 bytes 0⏎@finished⏎
int main(void){@5400×printf("a");@return 1;}→rank 0 running ops 3076 bytes 3076⏎unfinished⏎
int main(void){int @65000×*@p=0;return p==0;}→rank 0 exit 1 bytes 0⏎@finished⏎
int main(void){return sizeof(int@65000×*@);}→rank 0 exit 16 bytes 0⏎@finished⏎
int main(void){int x=7;printf("@15000×%d@"@15000×,x@);return 0;}→rank 0 exit 0 bytes 15000⏎@15000×7@finished⏎
16000×/**/@int main(void){return 0;}→rank 0 exit 0 bytes 0⏎@finished⏎
21000×//⏎@int main(void){return 0;}→rank 0 exit 0 bytes 0⏎@finished⏎
int main(void){printf("@65000×a@");return 0;}→rank 0 exit 0 bytes 65000⏎@65000×a@finished⏎
int main(void){printf("@32000×\n@");return 0;}→rank 0 exit 0 bytes 32000⏎@32000×⏎@finished⏎
int main(void){int @32000×n@=4;return @32000×n@;}→rank 0 exit 4 bytes 0⏎@finished⏎
int main(void){return @1000×0 +@4@20000× +0@;}→rank 0 exit 4 bytes 0⏎@finished⏎
"#;
    assert_long(&rt, rt.alloc(), "plain 1", table)
}

#[test]
fn long_texts_are_refused(rt: HostRuntime) -> Result<(), Fail> {
    let table = r#"
struct s{int n;};int main(void){struct s a;return a@32000×.n@;}→refused NotStruct at 50⏎
int main(void){int *p=0;return p@21000×[0]@;}→refused NotPointer at 31⏎
int main(void){return x@21000×->n@;}→refused UnknownName at 22⏎
int main(void){int a@13×[2]@;a@13×[1]@=7;return 0;}→accepted⏎
int main(void){int a@14×[2]@;return 0;}→refused ArraySize at 19⏎
int main(void){int a@20000×[2]@;return 0;}→refused ArraySize at 19⏎
int main(void){int a@32000×,a@;return 0;}→refused Redeclared at 21⏎
int f(int@9000×,int@);int main(void){f(1@9000×,1@);return 0;}→refused Undefined at 36026⏎
int f(int a){return a;}int main(void){f(1@32000×,1@);return 0;}→refused ArgumentCount at 38⏎
int f(int a@9000×,int a@);int main(void){return 0;}→refused Redeclared at 16⏎
struct s{@10000×int a;@};int main(void){return 0;}→refused Redeclared at 19⏎
struct s{int a@32000×,a@;};int main(void){return 0;}→refused Redeclared at 15⏎
"#;
    assert_long(&rt, rt.alloc(), "check", table)
}

#[test]
fn deep_texts_run(rt: HostRuntime) -> Result<(), Fail> {
    let table = r#"
int main(void){int x=0;x=@62×(int)@1;@return x;}→rank 0 exit 1 bytes 0⏎@finished⏎
int main(void){int x=0;x=@62×!@1;@return x;}→rank 0 exit 1 bytes 0⏎@finished⏎
int main(void){int x=0;x=@62×(@1@62×)@;return x;}→rank 0 exit 1 bytes 0⏎@finished⏎
int main(void){int x=0;x=@31×(int)!@1;return x;}→rank 0 exit 0 bytes 0⏎@finished⏎
int main(void){int x=0;x=@62×1?1:@2;@return x;}→rank 0 exit 1 bytes 0⏎@finished⏎
int main(void){int a[1],x=0;a[0]=0;x=@62×a[@0@62×]@;return x;}→rank 0 exit 0 bytes 0⏎@finished⏎
int main(void){@62×while(0)@;@return 1;}→rank 0 exit 1 bytes 0⏎@finished⏎
int main(void){@62×for(;0;)@;@return 1;}→rank 0 exit 1 bytes 0⏎@finished⏎
int main(void){@62×do @;@62×while(0);@return 1;}→rank 0 exit 1 bytes 0⏎@finished⏎
int main(void){@62×if(1)@;@return 1;}→rank 0 exit 1 bytes 0⏎@finished⏎
int main(void){@62×{@;@62×}@return 1;}→rank 0 exit 1 bytes 0⏎@finished⏎
"#;
    assert_long(&rt, rt.alloc(), "plain 1", table)
}

#[test]
fn deeper_texts_are_refused(rt: HostRuntime) -> Result<(), Fail> {
    let table = r#"
int main(void){int x=0;x=@63×(int)@1;@return x;}→refused TooDeep at 336⏎
int main(void){int x=0;x=@63×!@1;@return x;}→refused TooDeep at 88⏎
int main(void){int x=0;x=@63×(@1@63×)@;return x;}→refused TooDeep at 88⏎
int main(void){int x=0;x=@32×(int)!@1;return x;}→refused TooDeep at 212⏎
int main(void){int x=0;x=@63×1?1:@2;@return x;}→refused TooDeep at 275⏎
int main(void){int a[1],x=0;a[0]=0;x=@63×a[@0@63×]@;return x;}→refused TooDeep at 163⏎
int main(void){@63×while(0)@;@return 1;}→refused TooDeep at 517⏎
int main(void){@63×for(;0;)@;@return 1;}→refused TooDeep at 515⏎
int main(void){@63×do @;@63×while(0);@return 1;}→refused TooDeep at 204⏎
int main(void){@63×if(1)@;@return 1;}→refused TooDeep at 328⏎
int main(void){@63×{@;@63×}@return 1;}→refused TooDeep at 78⏎
"#;
    assert_long(&rt, rt.alloc(), "check", table)
}

// Level comes before range at one place, and Syntax before level.
#[test]
fn the_lowest_fault_is_answered(rt: HostRuntime) -> Result<(), Fail> {
    let table = r#"
int main(void){int x;x=@63×(@9223372036854775808→refused TooDeep at 86⏎
int main(void){int x;x=@63×(@;→refused Syntax at 86⏎
"#;
    assert_long(&rt, rt.alloc(), "check", table)
}
