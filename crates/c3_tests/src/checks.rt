//! Texts and what `check` answers, worked out by hand from the rules.

use crate::rows::{assert_accepted, assert_refused, assert_rows};
use c_tree::Kind;
use std::test::Fail;

#[test]
fn accepts(rt: HostRuntime) -> Result<(), Fail> {
    let texts = r#"
int main(void){return 0;}
int main(){}
int main(int argc,char **argv){return 0;}
int main(int n,char *v[]){int argc=n_(1);return argc;}int n_(int k){return k;}
int main(int n,char *v[8192]){return 0;}
#include <mpi.h>⏎#include <stdio.h>⏎#include <stdlib.h>⏎int main(void){return 0;}
int fib(int n){int a=0,b=1,t;while(n>0){t=a+b;a=b;b=t;n--;}return a;}int main(void){int r=fib(10);printf("%d\n",r);return r;}
int even(int n);int odd(int n){int r;if(n==0)return 0;r=even(n-1);return r;}int even(int n){int r;if(n==0)return 1;r=odd(n-1);return r;}int main(void){int r=odd(7);return r;}
void f(void);void f(void);void f(void){return;}void f(void);int main(void){f();return 0;}
int f(int,long,char);int f(int a,long b,char c){return a+b+c;}int main(void){f('a',1L,2);return 0;}
int main(void){int x=x;return x;}
int main(void){int x=1;{int x=2;{long x=3;x=x+1;}x=x+1;}return x;}
int main(void){for(int i=0;i<3;i++){int i=5;i=i;}for(int i=0;;)break;return 0;}
int main(void){int i;for(i=0;i<9;i+=2)if(i==4)continue;else if(i>6)break;else;return i;}
int main(void){do{int k=0;k++;}while(0);while(1){while(1)break;break;}return 0;}
int main(void){char c='x';int i=c;long l=i;c=l;i=l;l=c+i*l;return (int)l;}
int main(void){char c=1;printf("%d %c %ld%%\n",c,c,1L+c);printf("");return 0;}
int main(void){printf("%c%d",65,'a'+1);printf("%ld",1?2:3L);printf("%ld",1L<<2);return 0;}
int main(void){int a=1;a=-a+!a-~a+ +a;a=(a<2)==(a>=1)&&a||a^3|a&1;a<<=2;a>>=1;a%=7;a/=2;a-=1;a*=3;a&=5;a|=2;a^=1;return a?a:-a;}
int main(void){int a;(a)=1;((a))+=2;(a)++;--(a);return (a);}
int main(void){long s=sizeof(int)+sizeof(long int)+sizeof(char);return (int)s;}
int f(int f){return f;}int main(void){int r=(f(2));(f(3));return r;}
int f(void){return 1;}int main(void){int i;for(f();;f()){i=f();break;}for(i=f();i<2;i=f())break;return i;}
void g(void){}int main(void){if(1){g();}else{g();}while(0)g();do g();while(0);return 0;}
int main(void){⏎#pragma ccc checkpoint⏎potentialCheckpoint();{potentialCheckpoint();}return 0;}
long f(void){return 1;}char g(void){return 300;}int main(void){int a=f(),b=g();return a+b;}
int unused(int a);int main(void){return 0;}
int main(void){int main=3;return main;}
int a(int a){{int a=2;return a;}}int main(void){return 0;}
int main(void){return 1L;}
int f(){}long g(){}void h(){}char k(){}int main(){}
"#;
    assert_accepted(&rt, rt.alloc(), "", texts)
}

#[test]
fn refuses_names(rt: HostRuntime) -> Result<(), Fail> {
    let unknown = r#"
int main(void){return @x;}
int main(void){int y;{int x;}@x=y;return 0;}
int main(void){@f();return 0;}
int main(int argc,char **argv){return @argc;}
int f(void){return 1;}int main(void){int f=2;@f();return f;}
int f(int a){return a;}int main(void){return @a;}
int main(void){for(int i=0;i<3;i++);return @i;}
int main(void){@x=1;int x;return 0;}
int f(void){return 0;}int main(void){return @f;}
int main(void){if(1){int k;}else @k=1;return 0;}
int main(void){do{int k=0;}while(@k);return 0;}
int main(void){int a=1,b=@c,c=2;return a;}
int f(int a){return a;}int main(void){f(@zq,2);return 0;}
int main(void){if(@zq)break;return 0;}
int main(void){@y=1;z=2;return 0;}
int main(void){printf("%d",@x);return 0;}
"#;
    assert_refused(&rt, rt.alloc(), "", Kind::UnknownName, unknown)?;
    let twice = r#"
int main(void){int x;int @x;return 0;}
int main(void){int x,@x;return 0;}
int f(void){return 0;}int @f(void){return 1;}int main(void){return 0;}
int f(int a){int @a;return 0;}int main(void){return 0;}
int f(int a,int @a){return 0;}int main(void){return 0;}
int f(int a,long @a);int main(void){return 0;}
int main(void){for(int i=0,@i;;)break;return 0;}
int main(int argc,char **argv){int @argc;return 0;}
int main(int v,char *@v[]){return 0;}
int main(void){return 0;}int @main(void){return 1;}
int main(void){return 0;}void @main(void){}
int main(void){int x;void @x;return 0;}
int f(int a){return 0;}int @f(long a){return 0;}int main(void){return 0;}
int main(void){{int x;{int x;}int @x;}return 0;}
"#;
    assert_refused(&rt, rt.alloc(), "", Kind::Redeclared, twice)
}

#[test]
fn refuses_mains(rt: HostRuntime) -> Result<(), Fail> {
    let none = r#"
@
 ⏎@
int f(void){return 0;}@
int mainly(void){return 0;}@
#include <stdio.h>⏎@
void f(int main){main=1;}@
"#;
    assert_refused(&rt, rt.alloc(), "", Kind::NoMain, none)?;
    let bad = r#"
void @main(void){}
int @main(int a){return 0;}
int @main(int a,int b){return 0;}
long @main(void){return 0;}
int *@main(void){return 0;}
int @main(void);int main(void){return 0;}
int main(void){return 0;}int @main(void);
int main(void){@main();return 0;}
int main(void){@main(1);return 0;}
int @main(int a,char **){return 0;}
int @main(int a,char *b){return 0;}
int @main(int a,char ***b){return 0;}
int @main(int a,char **b,int c){return 0;}
int @main(int a[2],char **b){return 0;}
char @main(){return 0;}
int @main(void);
"#;
    assert_refused(&rt, rt.alloc(), "", Kind::BadMain, bad)?;
    let sizes = r#"
int main(int a,char *@b[0]){return 0;}
int main(int a,char *@b[8193]){return 0;}
int main(int a,char *@argv[10000]){return 0;}
int main(int a,char *@b[9223372036854775807]){return x;}
int main(int argc,char*@argv[0]){break;}
"#;
    assert_refused(&rt, rt.alloc(), "", Kind::ArraySize, sizes)
}

#[test]
fn refuses_values(rt: HostRuntime) -> Result<(), Fail> {
    let void = r#"
void f(void){}int main(void){int x;x=@f();return x;}
void f(void){}int main(void){int x=@f();return x;}
void f(void){}int main(void){int x;x=@(f());return x;}
void f(int a){}int main(void){long y=@f(1);return 0;}
void f(void){}int main(void){int i;for(i=@f();;)break;return 0;}
void f(void);int main(void){int i=@((f()));return i;}void f(void){}
"#;
    assert_refused(&rt, rt.alloc(), "", Kind::NotScalar, void)?;
    let places = r#"
int main(void){@1=2;return 0;}
int main(void){int x;@x+1=2;return 0;}
int main(void){int x;@(x+1)++;return 0;}
int main(void){++@5;return 0;}
int main(void){int x;@x*2+=1;return 0;}
int main(void){int x;@-x=1;return 0;}
int main(void){int x;--@(x?x:x);return 0;}
int main(void){int x;@(int)x=1;return 0;}
int main(void){@'a'--;return 0;}
int f(void){return 1;}int main(void){@2=f();return 0;}
"#;
    assert_refused(&rt, rt.alloc(), "", Kind::NotPlace, places)?;
    let casts = r#"
int main(void){int x=0;int y=@(void)x;return y;}
int main(void){return @(void)1;}
int main(void){if(@(void)0);return 0;}
int main(void){int x;x=1+@(void)2;return x;}
int main(void){printf("%d",@(void)3);return 0;}
"#;
    assert_refused(&rt, rt.alloc(), "", Kind::TypeMismatch, casts)?;
    let incomplete = r#"
int main(void){void @x;return 0;}
int f(void @x){return 0;}int main(void){return 0;}
int f(@void,int a){return a;}int main(void){return 0;}
int f(@void,void);int main(void){return 0;}
int f(@int){return 0;}int main(void){return 0;}
int f(int a,@long){return 0;}int main(void){return 0;}
int main(void){long x=@sizeof(void);return 0;}
int main(void){for(void @i;;)break;return 0;}
"#;
    assert_refused(&rt, rt.alloc(), "", Kind::IncompleteType, incomplete)
}

#[test]
fn refuses_calls(rt: HostRuntime) -> Result<(), Fail> {
    let counts = r#"
int f(int a){return a;}int main(void){int x;x=@f();return x;}
int f(void){return 1;}int main(void){@f(1);return 0;}
int f(){return 1;}int main(void){(@f(1));return 0;}
void f(int a,int b){}int main(void){@f(1);return 0;}
int f(int,long);int main(void){@f(1,2,3);return 0;}int f(int a,long b){return a;}
int f(int a);int main(void){@f();return 0;}
int main(void){@f();return x;}int f(int a){return a;}
"#;
    assert_refused(&rt, rt.alloc(), "", Kind::ArgumentCount, counts)?;
    let places = r#"
int f(void){return 1;}int main(void){return @f();}
int f(void){return 1;}int main(void){int x=1+@f();return x;}
int f(void){return 1;}int main(void){int x;x=-@f();return x;}
int f(void){return 1;}int main(void){int x=1;x+=@f();return x;}
int f(void){return 1;}int main(void){if(@f());return 0;}
int f(int a){return a;}int main(void){f(@f(1));return 0;}
int f(void){return 1;}int main(void){printf("%d",@f());return 0;}
int f(void){return 1;}int main(void){int x=(int)@f();return x;}
int f(void){return 1;}int main(void){int x=1?@f():f();return x;}
int f(void){return 1;}int main(void){@f()=1;return 0;}
int main(void){int x=1;@x;return 0;}
int main(void){int x=1;@(x);return 0;}
int main(void){@1+2;return 0;}
int main(void){for(@1;;)break;return 0;}
"#;
    assert_refused(&rt, rt.alloc(), "", Kind::CallPlace, places)?;
    let undefined = r#"
int f(void);int main(void){@f();return 0;}
int f(int a);int main(void){int x=@f(2);return x;}
void g(int a);int f(void){@g(1);return 0;}int main(void){return 0;}
void g(void);int main(void){while(1){{@g();}}return 0;}
int main(void){@g();return 0;}void g(void);
"#;
    assert_refused(&rt, rt.alloc(), "", Kind::Undefined, undefined)?;
    let differing = r#"
int f(int a);int @f(long a){return 0;}int main(void){return 0;}
int f(int a);long @f(int a){return 0;}int main(void){return 0;}
int f(void){return 0;}int @f(int a);int main(void){return 0;}
int f(int);int f(int);int @f(int,int);int main(void){return 0;}
void f(char c);void @f(int c);int main(void){return 0;}
int f(int a);int @f();int main(void){return 0;}
"#;
    assert_refused(&rt, rt.alloc(), "", Kind::PrototypeDiffers, differing)
}

#[test]
fn refuses_statements(rt: HostRuntime) -> Result<(), Fail> {
    let returns = r#"
void f(void){@return 1;}int main(void){return 0;}
int f(void){@return;}int main(void){return 0;}
int main(void){@return;}
void f(int a){if(a)@return a;}int main(void){return 0;}
long f(void){while(1)@return;}int main(void){return 0;}
"#;
    assert_refused(&rt, rt.alloc(), "", Kind::ReturnValue, returns)?;
    let words = r#"
int main(void){@break;}
int main(void){@continue;return 0;}
int main(void){if(1)@break;return 0;}
int main(void){while(0);@break;return 0;}
int main(void){{@continue;}return 0;}
int main(void){for(;;)break;if(0);else @continue;return 0;}
int main(void){@break;zq=1;return 0;}
"#;
    assert_refused(&rt, rt.alloc(), "", Kind::LoopWord, words)?;
    let formats = r#"
int main(void){printf(@"%d");return 0;}
int main(void){printf(@"x",1);return 0;}
int main(void){printf(@"%x",1);return 0;}
int main(void){printf(@"%");return 0;}
int main(void){printf(@"%ld",1);return 0;}
int main(void){printf(@"%d",1L);return 0;}
int main(void){printf(@"%l",1L);return 0;}
int main(void){printf(@"%c",1L);return 0;}
int main(void){printf(@"%d %d",1);return 0;}
int main(void){printf(@"%%%");return 0;}
int main(void){printf(@"%d%ld",1L,1);return 0;}
"#;
    assert_refused(&rt, rt.alloc(), "", Kind::FormatMismatch, formats)
}

#[test]
fn refuses_what_is_not_built(rt: HostRuntime) -> Result<(), Fail> {
    let rows = r#"
@int main(void){MPI_Barrier(MPI_COMM_WORLD);return 0;}
@int main(void){return y;MPI_Barrier(MPI_COMM_WORLD);}
"#;
    assert_refused(&rt, rt.alloc(), "", Kind::NotYet, rows)?;
    let syntax = r#"
int main(void){int *p;return 0@
int main(void){return y@}
"#;
    assert_refused(&rt, rt.alloc(), "", Kind::Syntax, syntax)
}

#[test]
fn refuses_texts(rt: HostRuntime) -> Result<(), Fail> {
    let table = r#"
int main(void){return x;}@refused UnknownName at 22⏎
@refused NoMain at 0⏎
int main(void){return 0;@refused Syntax at 24⏎
int main(void){return 9223372036854775808;}@refused NumberRange at 22⏎
int main(void){MPI_Barrier(MPI_COMM_WORLD);}@refused NotYet at 0⏎
"#;
    assert_rows(&rt, rt.alloc(), "check", "", table)
}
