//! Types, places and pointers: what `check` answers, worked out by hand from the rules.

use crate::rows::{assert_accepted, assert_refused};
use c_tree::Kind;
use std::test::Fail;

#[test]
fn accepts_pointers(rt: HostRuntime) -> Result<(), Fail> {
    let texts = r#"
int main(void){int *p=NULL,*q=0,*r=(0L);p=q;q=r;return p==q&&p==0&&0!=q&&NULL==NULL&&!p;}
int main(void){int *p=malloc(4);int *q=(int*)malloc(sizeof(int)*2);long *r;r=((long*)(malloc(8)));free(p);free(q);free(NULL);return 0;}
struct s{int a;long b[3];struct s *n;};int main(void){struct s v[3],*p=v,**q=&p;v[0].n=&v[1];p->n->a=2;(*q)->n=p+1;(**q).b[2]=7;p[1].b[0]=p->b[1];return v[0].n->n->a;}
int main(void){int m[2][3][4];int *p=m[1][2],*q=&m[0][0][0];m[0][1][2]=*p;return (int)(p-q)+*m[0][1]+m[1][1][1];}
int main(void){int x,*p=&x,**q=&p,***r=&q;***r=1;**q+=2;*p-=3;(*p)++;--**q;return *&*&x;}
int main(void){int a[3];int *p=a,*e=a+3;while(p<e){*p=e-p;p++;}p=p-1;p-=1;p+=1;return p>=a&&p!=e;}
int main(void){int x;long y;int *p=x?&x:NULL,*q=x?0:&x,*r=x?p:q;return p==r?y:x;}
int f(int p[],int q[2],int *r){return p[0]+q[1]+*r;}int f(int*,int*,int[9]);int main(void){int a[2],s;s=f(a,a+1,&a[1]);s=f(NULL,0,a);return s;}
int *f(int *p){return p;}int *g(void){return NULL;}int *h(void){return 0;}struct s{int a;};struct s *k(void){}int main(void){int x,*p=f(&x);p=g();f(p);struct s *q=k();return q==NULL;}
struct s{int MPI_SOURCE;int MPI_TAG;struct s *s;};int main(void){struct s s;s.MPI_SOURCE=1;s.s=&s;return s.s->MPI_TAG;}
struct a{int x;};struct b{struct a a[2];struct a *p;};int main(void){struct b b;b.p=b.a;b.p[1].x=b.a[0].x;return sizeof(struct b)+sizeof(struct a*)+sizeof(char**);}
int main(void){int a[8192];a[0]=1;return a[8191];}
struct s{int a[4096];long b[4096];};int main(void){struct s *p=NULL;return p==NULL;}
int main(void){char c;char *s=&c;s[0]=97;printf("%c%d",*s,s[0]+1);return (int)*s;}
int main(int argc,char **argv){int *p=NULL;if(p&&*p||!p)return 1;for(;p;)p=p+1;do;while(p!=0);return p?1:0;}
int main(void){int *p=NULL;return NULL<NULL||p<NULL||p-NULL==0||p-0==p;}
"#;
    assert_accepted(&rt, rt.alloc(), "", texts)
}

#[test]
fn refuses_names_of_types(rt: HostRuntime) -> Result<(), Fail> {
    let rows = r#"
struct s{int a;};int main(void){struct @t x;return 0;}
int main(void){struct @s *p;return 0;}
struct s{struct @t *p;};int main(void){return 0;}
int f(struct @s *p);struct s{int a;};int main(void){return 0;}
struct @s *f(void);int main(void){return 0;}
int main(void){long n=sizeof(struct @s);return 0;}
struct s{int a;long b[3];struct s *n;};int main(void){struct s x;x.@c=1;return 0;}
struct s{int a;long b[3];struct s *n;};int main(void){struct s *p=NULL;return p->@m;}
struct s{int a;long b[3];struct s *n;};int main(void){struct s x;return x.n->@MPI_TAG;}
int main(void){int a[2];a[@i]=1;return 0;}
int main(void){int *p=malloc(@n);return 0;}
int main(void){int *p=(struct @t*)malloc(1);return 0;}
struct s{int a;};int main(void){return @s;}
int main(void){int x=1;free(@y);return x;}
int f(struct @t);int main(void){return 0;}
struct t{int a;};int f(struct t*);int f(struct @u*p){return 0;}int main(void){return 0;}
int f(struct @t[0]);int main(void){return 0;}
"#;
    assert_refused(&rt, rt.alloc(), "", Kind::UnknownName, rows)?;
    let rows = r#"
struct s{int a[8000];int b[8000];int @b;};int main(void){return 0;}
struct s{int a;};struct @s{int b;};int main(void){return 0;}
struct s{int a;long @a;};int main(void){return 0;}
struct s{int MPI_TAG,b,*@MPI_TAG;};int main(void){return 0;}
int main(void){int *p;int @p[2];return 0;}
int f(int *p,int @p[3]){return 0;}int main(void){return 0;}
"#;
    assert_refused(&rt, rt.alloc(), "", Kind::Redeclared, rows)?;
    assert_refused(
        &rt,
        rt.alloc(),
        "",
        Kind::BadMain,
        r#"int *@main(void){return NULL;}"#,
    )
}

#[test]
fn refuses_values(rt: HostRuntime) -> Result<(), Fail> {
    let rows = r#"
struct s{int a;long b[3];struct s *n;};int main(void){struct s x;if(@x)return 1;return 0;}
struct s{int a;long b[3];struct s *n;};int main(void){struct s x;int y=@x;return y;}
struct s{int a;long b[3];struct s *n;};int main(void){struct s x;int y=1+@x;return y;}
struct s{int a;long b[3];struct s *n;};int main(void){struct s x,*p;p=&x;return p==@x;}
struct s{int a;long b[3];struct s *n;};int f(int a){return a;}int main(void){struct s x;f(@x);return 0;}
struct s{int a;long b[3];struct s *n;};int main(void){struct s x;return *@x;}
struct s{int a;long b[3];struct s *n;};int main(void){struct s x;free(@x);return 0;}
struct s{int a;long b[3];struct s *n;};int main(void){struct s x;return @x[0];}
struct s{int a;long b[3];struct s *n;};int main(void){struct s x;return @x->a;}
struct s{int a;long b[3];struct s *n;};int main(void){struct s x;return @(int)x;}
struct s{int a;long b[3];struct s *n;};int main(void){struct s x;@x+=1;return 0;}
int main(void){int m[2][3];int *p=@m;return 0;}
int main(void){int m[2][3];return *@m==NULL;}
int main(void){int m[2][2][2];int *p=@m[1];return 0;}
int main(void){int m[2][3];while(@m)break;return 0;}
void v(void){}int main(void){int *p=@v();return 0;}
"#;
    assert_refused(&rt, rt.alloc(), "", Kind::NotScalar, rows)?;
    let rows = r#"
int main(void){int x,*p=&x;p=1+@p;return 0;}
int main(void){int x,*p=&x,*q=p;p=p+@q;return 0;}
int main(void){int *p=@NULL+1;return 0;}
int main(void){int x,*p=&x;p+=@p;return 0;}
int main(void){int x,*p=&x;x+=@p;return 0;}
int main(void){int x,*p=&x;x=@p*2;return 0;}
int main(void){int x,*p=&x;x=2%@p;return 0;}
int main(void){int x,*p=&x;x=-@p;return 0;}
int main(void){int x,*p=&x;return ~@p;}
int main(void){int a[2],*p=a;return a[@p];}
int main(void){int *p=malloc(@NULL);return 0;}
int main(void){int a[2];return @a&1;}
int main(void){int x,*p=&x;x=1<<@p;return x;}
"#;
    assert_refused(&rt, rt.alloc(), "", Kind::NotInteger, rows)?;
    let rows = r#"
int main(void){int x;return *@x;}
int main(void){int x;return @x[0];}
int main(void){int x;return @x->a;}
int main(void){int x;free(@x);return 0;}
int main(void){free(@0);return 0;}
int main(void){return *@NULL;}
int main(void){return @NULL[0];}
int main(void){return @NULL->m;}
int main(void){int a[2];return @a[0][1];}
int main(void){int x,*p=&x;return *@*p;}
int main(void){int x;x=*@0;return x;}
"#;
    assert_refused(&rt, rt.alloc(), "", Kind::NotPointer, rows)
}

#[test]
fn refuses_selections_and_places(rt: HostRuntime) -> Result<(), Fail> {
    let rows = r#"
int main(void){int x;return @x.a;}
int main(void){int x,*p=&x;return @p->a;}
struct s{int a;long b[3];struct s *n;};int main(void){struct s x,*p=&x;return @p.a;}
struct s{int a;long b[3];struct s *n;};int main(void){struct s *v[2];return @v.a;}
struct s{int a;long b[3];struct s *n;};int main(void){struct s x,*p=&x,**q=&p;return @q->a;}
struct s{int a;long b[3];struct s *n;};int main(void){struct s v[2];return @v.a;}
int main(void){int m[2][2];return @m.a;}
"#;
    assert_refused(&rt, rt.alloc(), "", Kind::NotStruct, rows)?;
    let rows = r#"
int main(void){int a[2],*p=&@a;return 0;}
int main(void){int x,*p=&@(x+1);return 0;}
int main(void){int *p=&@5;return 0;}
int main(void){int x,**q=& @&x;return 0;}
int main(void){int a[2],b[2];@a=b;return 0;}
int main(void){int @a[2]=1;return 0;}
struct s{int a;long b[3];struct s *n;};int main(void){struct s x,y;@x=y;return 0;}
struct s{int a;long b[3];struct s *n;};int main(void){struct s x,@y=x;return 0;}
int main(void){int a[2];@a++;return 0;}
int main(void){int m[2][2];@m[0]=NULL;return 0;}
int main(void){int x,*p=&x;@&x=p;return 0;}
int main(void){@NULL=NULL;return 0;}
struct s{int a;long b[3];struct s *n;};int main(void){struct s x;@x.b=NULL;return 0;}
"#;
    assert_refused(&rt, rt.alloc(), "", Kind::NotPlace, rows)
}

#[test]
fn refuses_types_that_differ(rt: HostRuntime) -> Result<(), Fail> {
    let rows = r#"
int main(void){int x,*p=&x;long y=@5-p;return 0;}
int main(void){int x;long *p=@&x;return 0;}
int main(void){int x,*p=@1;return 0;}
int main(void){int x,*p=@'\0';return 0;}
int main(void){int x,*p=@-0;return 0;}
int main(void){int x,y=@&x;return 0;}
int main(void){int x=@NULL;return x;}
int main(void){int x,*p=&x;long y,*q=&y;return @p==q;}
int main(void){int x,*p=&x;return @p==1;}
int main(void){int x,*p=&x;return @1<p;}
int main(void){int x,*p=&x,**q=&p;return (int)(@p-q);}
int main(void){int x,*p=&x,*q=p;p-=@q;return 0;}
int main(void){int x,*p=&x;@x-=p;return 0;}
int main(void){int x,*p=&x;p=@x?p:1;return 0;}
int main(void){int x;long y;int *p=@x?&x:&y;return 0;}
int main(void){int x,*p=@x?0:0;return 0;}
int main(void){int x,*p=&x;return @p;}
int *f(int *p){return @*p;}int main(void){return 0;}
int f(int *p){return *p;}int main(void){long x;f(@&x);return 0;}
int f(int *p,int n){return n;}int main(void){f(NULL,@NULL);return 0;}
int f(int *p){return *p;}int main(void){f(@3);return 0;}
int *f(void){return 0;}int main(void){long *p=@f();return 0;}
int f(void){return 0;}int main(void){int *p=@f();return 0;}
int main(void){int x,*p=&x;long y=@(long)p;return 0;}
int main(void){int x,*p=@(int*)&x;return 0;}
int main(void){int *p=@(long*)malloc(4);return 0;}
int main(void){int *p=(@(int)malloc(4));return 0;}
int main(void){int *p=@(void*)malloc(4);return 0;}
int main(void){int x=@(void)1;return x;}
struct s{int a;};struct t{int a;};int main(void){struct s x;struct t *p=@&x;return 0;}
int main(void){int a[2];long *p=@a;return 0;}
"#;
    assert_refused(&rt, rt.alloc(), "", Kind::TypeMismatch, rows)?;
    let rows = r#"
int f(int *p);int @f(int **p){return 0;}int main(void){return 0;}
int *f(void);int @f(void){return 0;}int main(void){return 0;}
struct s{int a;};struct t{int a;};int f(struct s *p);int @f(struct t *p){return 0;}int main(void){return 0;}
int f(int *p);int @f(long p[]){return 0;}int main(void){return 0;}
"#;
    assert_refused(&rt, rt.alloc(), "", Kind::PrototypeDiffers, rows)?;
    let rows = r#"
int main(void){int x;printf(@"%d",&x);return 0;}
int main(void){printf(@"%ld",NULL);return 0;}
int main(void){char a[3];printf(@"%c",a);return 0;}
"#;
    assert_refused(&rt, rt.alloc(), "", Kind::FormatMismatch, rows)?;
    assert_refused(
        &rt,
        rt.alloc(),
        "",
        Kind::ReturnValue,
        r#"int *f(void){@return;}int main(void){return 0;}"#,
    )
}

#[test]
fn refuses_malloc_in_a_wrong_place(rt: HostRuntime) -> Result<(), Fail> {
    let rows = r#"
int main(void){int x=@malloc(4);return x;}
int main(void){int x,*p;p=&x+@malloc(4);return 0;}
int main(void){int *p=1?@malloc(4):NULL;return 0;}
int main(void){int *p;if(@malloc(4))return 1;return 0;}
int main(void){free(@malloc(4));return 0;}
int *f(void){return @malloc(4);}int main(void){return 0;}
int main(void){int *p=(int*)(int*)@malloc(4);return 0;}
int main(void){int *p=NULL;p+=@malloc(4);return 0;}
int main(void){int x;x=(int)@malloc(4);return x;}
int main(void){int *p=&*@malloc(4);return 0;}
int f(int *p){return 0;}int main(void){f(@malloc(4));return 0;}
"#;
    assert_refused(&rt, rt.alloc(), "", Kind::MallocPlace, rows)?;
    let rows = r#"
int main(void){@malloc(4);return 0;}
int main(void){@(malloc(4));return 0;}
int main(void){@(int*)malloc(4);return 0;}
int main(void){int x,*p=&x;@*p;return 0;}
int main(void){int a[2];@a[0];return 0;}
int *f(void){return 0;}int main(void){int x=*@f();return x;}
"#;
    assert_refused(&rt, rt.alloc(), "", Kind::CallPlace, rows)
}

#[test]
fn refuses_sizes_and_incomplete_types(rt: HostRuntime) -> Result<(), Fail> {
    let rows = r#"
int main(void){int @a[0];return 0;}
int main(void){int @a[8193];return 0;}
int main(void){int @a[2][4097];return 0;}
int main(void){int @a[9223372036854775807];return 0;}
int main(void){char *@a[91][91];return 0;}
struct s{int @a[8193];};int main(void){return 0;}
struct @s{int a[8192];int b;};int main(void){return 0;}
struct @s{int a[4096];long b[4096];char c;};int main(void){return 0;}
struct s{int a[3];};int main(void){struct s @v[2731];return 0;}
struct s{int a[3];};struct t{struct s @v[2731];};int main(void){return 0;}
int f(int @p[0]){return 0;}int main(void){return 0;}
int f(@int [8193]);int main(void){return 0;}
int main(void){int @a[2][0];return 0;}
"#;
    assert_refused(&rt, rt.alloc(), "", Kind::ArraySize, rows)?;
    let rows = r#"
int f(int a);int f(void @a);int main(void){return 0;}
int main(void){void @x;return 0;}
int main(void){void *@p;return 0;}
int main(void){void **@p;return 0;}
int main(void){void @a[3];return 0;}
struct s{void @v;};int main(void){return 0;}
struct s{void *@v;};int main(void){return 0;}
struct s{int a;struct s @x;};int main(void){return 0;}
struct s{struct s @x[2];};int main(void){return 0;}
struct s{int a;};int f(struct s @x);int main(void){return 0;}
struct s{int a;};int f(@struct s);int main(void){return 0;}
int f(@int *){return 0;}int main(void){return 0;}
int f(void *@p);int main(void){return 0;}
int f(void @p[2]);int main(void){return 0;}
struct s{int a;};struct s @f(void);int main(void){return 0;}
void *@f(void){return 0;}int main(void){return 0;}
int main(void){long n=@sizeof(void);return 0;}
int main(void){long n=@sizeof(void*);return 0;}
"#;
    assert_refused(&rt, rt.alloc(), "", Kind::IncompleteType, rows)
}
