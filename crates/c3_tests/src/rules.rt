//! More texts for `check`, worked out by hand from the rules.

use crate::rows::{assert_accepted, assert_refused};
use c_tree::Kind;
use std::test::Fail;

#[test]
fn broken_calls_and_headers(rt: HostRuntime) -> Result<(), Fail> {
    let call_place = r#"
int f(void);int main(void){int x;x=@f()+1;return 0;}
int f(int a){return a;}int main(void){int*p;int x;x=@f(p)+1;return 0;}
void f(void){}int main(void){int x;x=1+@f();return x;}
int main(void){int x;x=1+@f(x);return 0;}int f(struct u *p){return 0;}
int f(int a){return a;}int main(void){int*p;f(@f(p));return 0;}
"#;
    let argument_count = r#"
int f(int a){return a;}int main(void){int x;x=1+@f();return 0;}
"#;
    let bad_main = r#"
int main(void){int x;x=1+@main();return 0;}
int main(void){int x;x=1+@main(x);return 0;}
"#;
    let unknown_name = r#"
int main(void){int x;x=@f()+1;return 0;}
int f(int a){return a;}int main(void){int x;x=f(@zq)+1;return 0;}
int main(void){int x;f(x);return 0;}int f(struct @u *p){return 0;}
int main(void){int*p;p=f(1,2);return 0;}int f(struct @u *p){return 0;}
int main(void){int x;x=f();return 0;}struct @u *f(void){return 0;}
int main(void){3=f();return 0;}int f(struct @u *p){return 0;}
"#;
    let undefined = r#"
int main(void){int*p;p=@f(1);return 0;}int f(struct u *p);
int f(int a);int main(void){int*p;@f(p);return 0;}
"#;
    let incomplete_type = r#"
int main(void){int x;x=f();return 0;}void *@f(void){return 0;}
int main(void){f(1,2);return 0;}int f(void @a){return 0;}
struct s{int a;};int main(void){int x;x=f();return 0;}struct s @f(void){}
"#;
    let array_size = r#"
int main(void){f();return 0;}int f(int @a[0]){return 0;}
"#;
    let redeclared = r#"
int main(void){f(1);return 0;}int f(int a,int @a){return 0;}
"#;
    let type_mismatch = r#"
int main(void){int x;x=@(int*)malloc(4);return 0;}
int main(void){int x=@(int*)malloc(4);return 0;}
int main(void){char c;c=@(int)malloc(4);return 0;}
int main(void){int x;x=(@(char*)(malloc(4)));return 0;}
int main(void){int*p;p=@f();return 0;}int f(void){return 0;}
int main(void){int*p;f(@p);return 0;}int f(int a);int f(struct u *p){return 0;}
"#;
    let malloc_place = r#"
int main(void){int x;x=(int)@malloc(4);return 0;}
"#;
    assert_refused(&rt, rt.alloc(), "", Kind::CallPlace, call_place)?;
    assert_refused(&rt, rt.alloc(), "", Kind::ArgumentCount, argument_count)?;
    assert_refused(&rt, rt.alloc(), "", Kind::BadMain, bad_main)?;
    assert_refused(&rt, rt.alloc(), "", Kind::UnknownName, unknown_name)?;
    assert_refused(&rt, rt.alloc(), "", Kind::Undefined, undefined)?;
    assert_refused(&rt, rt.alloc(), "", Kind::IncompleteType, incomplete_type)?;
    assert_refused(&rt, rt.alloc(), "", Kind::ArraySize, array_size)?;
    assert_refused(&rt, rt.alloc(), "", Kind::Redeclared, redeclared)?;
    assert_refused(&rt, rt.alloc(), "", Kind::TypeMismatch, type_mismatch)?;
    assert_refused(&rt, rt.alloc(), "", Kind::MallocPlace, malloc_place)?;
    Ok(())
}

#[test]
fn further_rules(rt: HostRuntime) -> Result<(), Fail> {
    let accepted = r#"
int main(void){int x,*p=&x,**q;long l;q=&p;**q=3;p=p+1-1L;p-=x;p++;--p;l=p-*q;return !p&&(p<*q||*p);}
int main(void){char *p;*p++;}
int main(void){int *p;p=&*p;p=&p[1];}
int main(void){char **p=malloc('a'),c;p[1]=((char*)(malloc(c)));free(NULL);}
struct s{int s;};struct t{char s;};int s(int t){struct s s;s.s=t;return s.s;}int main(void){return 0;}
struct s{char c,*p;long a[2][3];};struct t{struct s s,b[2];int MPI_TAG,MPI_SOURCE;};int main(void){struct t t,*p=&t;t.b[1].a[0][2]=*p->s.p;p->b->c=t.MPI_TAG;return p->s.a[1]==t.b[0].a[1]&&&p->MPI_SOURCE!=NULL;}
struct s{char c,*p;long a[2][3];};struct t{int MPI_TAG;struct s b[2];struct t *next;struct s s;};int main(void){struct t t;t.b[1].a[0][2]=t.MPI_TAG;(*t.next).s.p=&t.b->c;t.next=t.next-1;}
struct s{int a[8000];int b[192];};int main(void){struct s x;return x.b[191];}
"#;
    let unknown_name = r#"
struct @s main(void){return 0;}
int main(void){return (void)@q;}
int main(void){return sizeof(struct @s);}struct s{int a;};
int main(void){return (struct @s*)0==NULL;}
"#;
    let bad_main = r#"
int @main(struct s a){}
void f(void){MPI_Init(&@a,&b);}int main(int a,char **b){f();return 0;}
"#;
    let call_place = r#"
int f(void){return 1;}int main(void){for(;@f(););return 0;}
int f(void){return 1;}int main(void){return @f()+x;}
"#;
    let not_integer = r#"
int main(void){int *p;@p*=2;return 0;}
"#;
    let not_pointer = r#"
struct s{int a;};int main(void){struct s x;return @x.a->a;}
"#;
    let not_place = r#"
int main(void){int a[2][3],*p;p=&@a[0];return 0;}
int main(void){int @a[2]=malloc(4);return 0;}
struct s{int a;};int main(void){struct s *p;@*p=0;return 0;}
struct s{int a;};int main(void){struct s x,@y=0;return 0;}
struct s{int a[2];};int main(void){struct s x;return &@x.a==NULL;}
struct s{int a;};int main(void){struct s x;@x=malloc(4);return 0;}
"#;
    let type_mismatch = r#"
int main(void){int *p,**q;q=@p;return 0;}
int main(void){int *p,x;return @1+x-p;}
int main(void){char *p;p=@(char*)0;return 0;}
struct s{int a;};int main(void){return @(struct s)0;}
struct s{int a;};struct t{int a;};int main(void){struct t *p;p=@(struct s*)malloc(4);return 0;}
"#;
    let prototype_differs = r#"
int f(int *a);int f(int a[]);int @f(int *a[]);int main(void){}
int **f(int a);int *@f(int a);int main(void){}
"#;
    let datatype = r#"
int main(void){char x;MPI_Recv(@&x,&x,MPI_INT,0,0,MPI_COMM_WORLD,MPI_STATUS_IGNORE);return 0;}
"#;
    assert_accepted(&rt, rt.alloc(), "", accepted)?;
    assert_refused(&rt, rt.alloc(), "", Kind::UnknownName, unknown_name)?;
    assert_refused(&rt, rt.alloc(), "", Kind::BadMain, bad_main)?;
    assert_refused(&rt, rt.alloc(), "", Kind::CallPlace, call_place)?;
    assert_refused(&rt, rt.alloc(), "", Kind::NotInteger, not_integer)?;
    assert_refused(&rt, rt.alloc(), "", Kind::NotPointer, not_pointer)?;
    assert_refused(&rt, rt.alloc(), "", Kind::NotPlace, not_place)?;
    assert_refused(&rt, rt.alloc(), "", Kind::TypeMismatch, type_mismatch)?;
    assert_refused(
        &rt,
        rt.alloc(),
        "",
        Kind::PrototypeDiffers,
        prototype_differs,
    )?;
    assert_refused(&rt, rt.alloc(), "", Kind::Datatype, datatype)?;
    Ok(())
}
