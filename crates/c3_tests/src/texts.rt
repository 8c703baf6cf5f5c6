//! Texts, and whether they have a tree, worked out by hand from the grammar.

use crate::rows::{answered, assert_refused, line_after};
use c_parse::ParseFault;
use c_tree::Kind;
use c3_top::Status;
use std::alloc::Global;
use std::fmt::InlineText;
use std::process::Abort;
use std::test::Fail;

/// Whether a text that is answered so has a tree, whatever rules it breaks.
fn has_tree(status: Status) -> bool {
    match status {
        Status::Refused { kind, .. } => !matches!(
            kind,
            Kind::Syntax | Kind::TooDeep | Kind::NumberRange | Kind::TextLimit
        ),
        status => status == Status::Done,
    }
}

/// Each line has a tree between the two others.
fn assert_read(
    rt: &impl Abort,
    alloc: Global,
    front: &str,
    back: &str,
    table: &str,
) -> Result<(), Fail> {
    for line in table.trim().lines() {
        let mut text = line_after(alloc, front, line)?;
        text.push_str(back)?;
        let (status, _) = answered(alloc, "check", text.as_bytes())?;
        assert!(rt; has_tree(status), "at {line}");
    }
    Ok(())
}

#[test]
fn reads_items(rt: HostRuntime) -> Result<(), Fail> {
    let table = r#"
int main(void){return 0;}
#include <mpi.h>⏎  #include   <stdio.h> ␍⏎#include<stdlib.h>⏎int main(){}
struct node{int v;struct node *next;};int main(void){return 0;}
struct s{char a[2][3],b;long int *c;MPI_Status t;int MPI_SOURCE,MPI_TAG;};
long int f(long a,char *b,struct s *c,MPI_Status *d,int e[],int g[3]);
void f(int,char**,struct s*);char g();struct s *h(void);
int main(int argc,char **argv){return 0;}
int f(int argc,char *argv[]){}int f(int argc,char *argv[5]){}
#include <mpi.h>
#include<mpi.h>
#include<stdio.h>␍
#include<stdlib.h> ⇥
  ⇥#include ⇥ <stdio.h> ⇥␍
//⏎#include <mpi.h>
"#;
    assert_read(&rt, rt.alloc(), "", "", table)?;
    assert_read(
        &rt,
        rt.alloc(),
        "",
        " // nothing\n/* at all */",
        "int main(void){}",
    )
}

#[test]
fn reads_statements(rt: HostRuntime) -> Result<(), Fail> {
    let table = r#"
int main(void){int a=1,b[2][3],*c,**d;long e;char f='x';return a;}
int main(void){;{}{int a;;}}
int main(void){if(1)if(2);else;}
int main(void){if(1);else if(2);else if(3){}else;}
int main(void){while(1);do;while(0);for(;;);}
int main(void){for(int i=0,j;i<3;i++)continue;for(i=0;;)break;for(;;--i){}}
int main(void){return;return 1+2;}
int main(void){printf("%d\n",1,2);printf("");free(p);}
int main(void){⏎#pragma ccc checkpoint⏎potentialCheckpoint();if(1)⏎#pragma ccc checkpoint⏎else;}
int main(void){x=1;x+=1;x<<=2;x++;++x;x--;--x;*p=1;a[1]=2;s.m=3;q->m=4;}
int main(void){MPI_Init(NULL,NULL);MPI_Init(&a,&b);MPI_Finalize();}
int main(void){MPI_Comm_rank(MPI_COMM_WORLD,&r);MPI_Comm_size(MPI_COMM_WORLD,p);}
int main(void){MPI_Send(b,1,MPI_INT,0,1+1,MPI_COMM_WORLD);}
int main(void){MPI_Recv(b,1,MPI_LONG,MPI_ANY_SOURCE,0,MPI_COMM_WORLD,MPI_STATUS_IGNORE);}
int main(void){MPI_Recv(b,1,MPI_CHAR,0,MPI_ANY_TAG,MPI_COMM_WORLD,&st);MPI_Get_count(&st,MPI_INT,&n);}
int main(void){MPI_Barrier(MPI_COMM_WORLD);MPI_Bcast(&v,1,MPI_INT,0,MPI_COMM_WORLD);}
int main(void){MPI_Reduce(&a,&b,1,MPI_INT,MPI_SUM,0,MPI_COMM_WORLD);}
int main(void){MPI_Allreduce(a,b,1,MPI_LONG,MPI_MAX,MPI_COMM_WORLD);}
int main(void){MPI_Gather(a,1,MPI_INT,b,1,MPI_INT,0,MPI_COMM_WORLD);}
int main(void){MPI_Scatter(a,1,MPI_INT,b,1,MPI_INT,0,MPI_COMM_WORLD);MPI_Allgather(a,1,MPI_INT,b,1,MPI_INT,MPI_COMM_WORLD);}
"#;
    assert_read(&rt, rt.alloc(), "", "", table)
}

#[test]
fn reads_expressions(rt: HostRuntime) -> Result<(), Fail> {
    let table = r#"
f(g(1))+f()+f(1,2)
(int)y
(struct s*)p
(char**)malloc(3*sizeof(char*))
a?b:c?d:e
a||b&&c|d^e&f==g<h<<i+j*k
-+!~*&y
- -y+ +z
sizeof(long int)+sizeof(struct s)
'a'+'\n'+'\0'+'\''
NULL
MPI_ANY_SOURCE+MPI_ANY_TAG+MPI_PROC_NULL
st.MPI_SOURCE+p->MPI_TAG
a[1][b[2]].c->d
(a)[0]+f(1)[2]
0l+9223372036854775807L
(a)+(-b)
"#;
    assert_read(&rt, rt.alloc(), "int main(void){x=", ";}", table)
}

#[test]
fn reads_the_longest_token(rt: HostRuntime) -> Result<(), Fail> {
    let table = r#"
int main(void){x=a&&&b;x=a& &b;x=a**b;x=a- - -b;x=a-~!b;x=a<b>c;}
int main(void){int a/*b*/=/***/1/* * / */;//x⏎int b=2;/*⏎//*/b=a//⏎+b;}
int main(void){⏎#pragma ccc checkpoint⏎;⏎#pragma ccc  checkpoint⏎⏎ #pragma⇥ccc⇥checkpoint  ␍⏎;}
int main(void){Int=ints+int_*_x9/Zz-null+MPI;}
"#;
    assert_read(&rt, rt.alloc(), "", "", table)?;
    let table = r#"
int main(void){x=a@++=b;}
int main(void){x=a@+==b;}
int main(void){x=a@---b;}
int main(void){x=a@--->b;}
int main(void){x=a@--=b;}
int main(void){x=a@-=>b;}
int main(void){x=a->@>b;}
int main(void){x=a->@=b;}
int main(void){x=a@-->>=b;}
int main(void){x=- @> - -b;}
int main(void){x=a>>@>b;}
int main(void){x=a>>@>=b;}
int main(void){x=a@>>==b;}
int main(void){x=a>=@=b;}
int main(void){x=a> @>=b;}
int main(void){x=a<<@<b;}
int main(void){x=a<<@<=b;}
int main(void){x=a@<<==b;}
int main(void){x=a<=@=b;}
int main(void){x=a<@->b;}
int main(void){x=a==@=b;}
int main(void){x=a==@==b;}
int main(void){x= @=b;}
int main(void){x=a!=@=b;}
int main(void){x=!@!=b;}
int main(void){x=a&&@=b;}
int main(void){x=a@&=&b;}
int main(void){x=a||@|b;}
int main(void){x=a||@=b;}
int main(void){x=a@|=|b;}
int main(void){x=a@*=*b;}
int main(void){x=a@*==b;}
int main(void){x=a@/==b;}
int main(void){x=a/ @/b;}
int main(void){x=a@%=%b;}
int main(void){x=a@^=^b;}
int main(void){x=~@=b;}
int main(void){x=a.@..b;}
int main(void){x=0@0;}
int main(void){x=0@12;}
int main(void){x=12@ab;}
int main(void){x=7L@l;}
int main(void){x=7 @L;}
int f(// \⏎@1);
int f();@/*/ x
int f();@/* y *
int f()@/*
"#;
    assert_refused(&rt, rt.alloc(), "", Kind::Syntax, table)
}

#[test]
fn refuses_items(rt: HostRuntime) -> Result<(), Fail> {
    let table = r#"
@x
@1
int@
int @1;
int x@;
int main@{}
int main(void)@
int main(void)@return 0;}
int *@(void);
int f(@,int);
int f(int,@);
int f(int @int);
int f(int a[@x]);
int f(int a[3@,int b);
int f(void @void);
long @long f(void);
void @int f(void);
struct s{@};
struct s{int a;}@int main(void){}
struct s{int @;};
struct s{int a@=1;};
struct s @;
struct @{int a;};
int f();@f();
int main(void){}@}
int main(void){}@/* open *
int main(void){}@#include <mpi.h>
@#include <math.h>⏎
int main(void){return 0;@
"#;
    assert_refused(&rt, rt.alloc(), "", Kind::Syntax, table)
}

#[test]
fn refuses_statements(rt: HostRuntime) -> Result<(), Fail> {
    let table = r#"
int main(void){int a @b;}
int main(void){int a=@;}
int main(void){int a[@];}
int main(void){int a[2@+1];}
int main(void){int f@(int a);}
int main(void){return 0@}
int main(void){return 0 @1;}
int main(void){if @1;}
int main(void){if(1)@}
int main(void){if(1)@int a;}
int main(void){@else;}
int main(void){if(1);else @}
int main(void){if(1);else;@else;}
int main(void){while(@)x;}
int main(void){do;@}
int main(void){do;while(1)@}
int main(void){for(;@)x;}
int main(void){for(;;@;)x;}
int main(void){for(int i=0@)x;}
int main(void){break @1;}
int main(void){printf(@x);}
int main(void){printf("a"@"b");}
int main(void){printf("a",1@;}
int main(void){x=1@=2;}
int main(void){x @y;}
int main(void){x++@+1;}
int main(void){@goto a;}
int main(void){@#pragma ccc checkpoint⏎}
int main(void){⏎@#pragma ccc checkpoints⏎}
int main(void){x=1;@@}
int main(void){MPI_Init(NULL,@&a);}
int main(void){MPI_Init(&a,@NULL);}
int main(void){MPI_Init(@);}
int main(void){MPI_Send(b,1,@int,0,0,MPI_COMM_WORLD);}
int main(void){MPI_Send(b,1,MPI_INT,0,0,@x);}
int main(void){MPI_Recv(b,1,MPI_INT,0,0,MPI_COMM_WORLD@);}
int main(void){MPI_Barrier(MPI_COMM_WORLD@,1);}
int main(void){MPI_Reduce(a,b,1,MPI_INT,@0,0,MPI_COMM_WORLD);}
"#;
    assert_refused(&rt, rt.alloc(), "", Kind::Syntax, table)
}

#[test]
fn refuses_expressions(rt: HostRuntime) -> Result<(), Fail> {
    let table = r#"
int main(void){x+@;}
int main(void){x=a@+++b;}
int main(void){x=(1@;}
int main(void){x=@/1;}
int main(void){x=@&=1;}
int main(void){x=a?b@;}
int main(void){x=a[@];}
int main(void){x=a.@1;}
int main(void){x=a->@(b);}
int main(void){f(1,@);}
int main(void){x=sizeof @x;}
int main(void){x=sizeof(@x);}
int main(void){x=malloc@;}
int main(void){x=(int@[3])y;}
int main(void){x=(int)@;}
int main(void){x=@MPI_Barrier(MPI_COMM_WORLD);}
int main(void){x=@MPI_COMM_WORLD;}
int main(void){x=@while;}
int main(void){x=@MPI_Foo;}
int main(void){x=@'';}
int main(void){x=@'ab';}
int main(void){x='@\q';}
int main(void){printf(@"abc⏎");}
int main(void){printf("ab@\q");}
int main(void){x=0@1;}
int main(void){x=0@x1;}
int main(void){x=1.@5;}
int main(void){x=1l@u;}
int main(void){x=1 @9223372036854775808;}
int main(void){x=@auto;}
int main(void){x=@case;}
int main(void){x=@const;}
int main(void){x=@default;}
int main(void){x=@double;}
int main(void){x=@enum;}
int main(void){x=@extern;}
int main(void){x=@float;}
int main(void){x=@goto;}
int main(void){x=@inline;}
int main(void){x=@register;}
int main(void){x=@restrict;}
int main(void){x=@short;}
int main(void){x=@signed;}
int main(void){x=@static;}
int main(void){x=@switch;}
int main(void){x=@typedef;}
int main(void){x=@union;}
int main(void){x=@unsigned;}
int main(void){x=@volatile;}
int main(void){x=@_Bool;}
int main(void){x=@_Complex;}
int main(void){x=@_Imaginary;}
int main(void){x=@MPI_Isend;}
int main(void){x=@MPI_;}
int main(void){x=@MPI_source;}
"#;
    assert_refused(&rt, rt.alloc(), "", Kind::Syntax, table)
}

#[test]
fn refuses_quotes_and_lines(rt: HostRuntime) -> Result<(), Fail> {
    let table = r#"
int main(void){x='@\"'
int main(void){x='@\a'
int main(void){x='@\1'
int main(void){x='@\⏎'
int main(void){x=@'\00'
int main(void){x=@''
int main(void){x=@'''
int main(void){x=@'ab'
int main(void){x=@'⇥'
int main(void){x=@'⏎'
int main(void){x=@'
int main(void){x=@'a
int main(void){x=@'\
int main(void){x=@'\n
int main(void){x='@\q
int main(void){printf("@\0"
int main(void){printf("ab@\q"
int main(void){printf("\n@\x"
int main(void){printf("@\'"
int main(void){printf("@\⏎"
int main(void){printf("@\q⏎"
int main(void){printf(@"⏎\q"
int main(void){printf("@\q
int main(void){printf(@"a␍"
int main(void){printf(@"
int main(void){printf(@"abc
int main(void){printf(@"abc\
int main(void){printf(@"abc\"
int main(void){x=@$`\
"#;
    assert_refused(&rt, rt.alloc(), "", Kind::Syntax, table)?;
    let table = r#"
@/*/ x
@# include <mpi.h>
@#include < mpi.h>
@#include <mpi.h >
@#include <mpi.h>;
@#include <mpi.h> //
@#include <mpi.h>␍␍
@#include <mpi.h>␍ 
@#include␍<mpi.h>
@#include <math.h>
@#include "mpi.h"
@#include
@#pragma ccc
@#pragmaccc checkpoint
@#pragma ccccheckpoint
@#pragma ccc checkpoints
@#define x
@#
 @##
/**/@#include <mpi.h>
/*⏎*/ @#include <mpi.h>
␍@#include <mpi.h>
@#include <mpi.h> #include <mpi.h>
"#;
    assert_refused(&rt, rt.alloc(), "", Kind::Syntax, table)
}

#[test]
fn tells_numbers_that_are_too_large(rt: HostRuntime) -> Result<(), Fail> {
    let table = r#"
int main(void){x=@9223372036854775808;}
int main(void){long x=@99999999999999999999999L;}
int main(void){int a[@9223372036854775808];}
int f(int a[@9223372036854775808]);
int main(void){x=@9223372036854775808;y=(;}
int main(void){x=@9223372036854775808L;}
int main(void){x=@18446744073709551615;}
int main(void){x=@18446744073709551616;}
int main(void){x=@18446744073709551617;}
int main(void){x=@27670116110564327424;}
"#;
    assert_refused(&rt, rt.alloc(), "", Kind::NumberRange, table)
}

#[test]
fn refuses_each_prefix(rt: HostRuntime) -> Result<(), Fail> {
    let program = r#"int main(int argc, char **argv) {
  long a[3], *p = &a[0];
  for (int i = 0; i < 3; i++) { a[i] = (i ? -i : 2) << 1; }
#pragma ccc checkpoint
  if (p->x == 'c') printf("%ld\n", *p); else do ; while (0);
  MPI_Send(p, 3, MPI_LONG, 1, 0, MPI_COMM_WORLD);
  return sizeof(long) + f(a, b);
}"#;
    let (status, _) = answered(rt.alloc(), "check", program.as_bytes())?;
    assert!(rt; has_tree(status));
    for length in 1..program.len() {
        let front = &program.as_bytes()[..length];
        let place = match answered(rt.alloc(), "check", front)? {
            (
                Status::Refused {
                    kind: Kind::Syntax,
                    at,
                },
                _,
            ) => at as usize,
            _ => program.len(),
        };
        assert!(rt; place <= length, "at {length}");
    }
    Ok(())
}

#[test]
fn faults_are_shown(rt: HostRuntime) -> Result<(), Fail> {
    let faults = [
        ParseFault::TextLimit,
        ParseFault::Syntax { at: 7 },
        ParseFault::TooDeep { at: 0 },
        ParseFault::NumberRange { at: 65536 },
        ParseFault::NoMemory,
    ];
    let texts = r#"
the text is longer than 65,536 bytes
no program goes on like this at byte 7
more than 64 levels at byte 0
a number of 2^63 or more at byte 65536
no memory
"#;
    for (fault, text) in faults.iter().zip(texts.trim().lines()) {
        assert_eq!(rt; InlineText::<64>::of(*fault).as_str(), text);
    }
    Ok(())
}
