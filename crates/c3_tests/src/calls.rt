//! Calls of MPI: what `check` answers, worked out by hand from the rules.

use crate::rows::{assert_accepted, assert_refused};
use c_tree::Kind;
use std::test::Fail;

const FRONT: &str =
    "int main(int argc,char **argv){int a[3],m[2][2],n,*p;long l,*q;char c;MPI_Status st,*sp,sts[2];";

#[test]
fn accepts_calls_of_mpi(rt: HostRuntime) -> Result<(), Fail> {
    let texts = r#"
int main(int argc,char **argv){int a[3],m[2][2],n,*p;long l,*q;char c;MPI_Status st,*sp,sts[2];MPI_Init(&argc,&argv);MPI_Comm_rank(MPI_COMM_WORLD,&n);MPI_Comm_size(MPI_COMM_WORLD,a);MPI_Comm_rank(MPI_COMM_WORLD,NULL);MPI_Comm_size(MPI_COMM_WORLD,&a[2]);MPI_Finalize();return 0;}
int main(void){MPI_Init(NULL,NULL);MPI_Finalize();return 0;}
void f(void){MPI_Init(NULL,NULL);}int main(void){f();return 0;}
int main(int argc,char **argv){int a[3],m[2][2],n,*p;long l,*q;char c;MPI_Status st,*sp,sts[2];MPI_Send(a,3,MPI_INT,0,0,MPI_COMM_WORLD);MPI_Send(&n,1,MPI_INT,n,n+1,MPI_COMM_WORLD);MPI_Send(q,l,MPI_LONG,l,c,MPI_COMM_WORLD);MPI_Send(&c,1,MPI_CHAR,MPI_PROC_NULL,'x',MPI_COMM_WORLD);MPI_Send(NULL,0,MPI_CHAR,0,0,MPI_COMM_WORLD);MPI_Send(m[1],2,MPI_INT,0,0,MPI_COMM_WORLD);return 0;}
int main(int argc,char **argv){int a[3],m[2][2],n,*p;long l,*q;char c;MPI_Status st,*sp,sts[2];MPI_Recv(a,3,MPI_INT,MPI_ANY_SOURCE,MPI_ANY_TAG,MPI_COMM_WORLD,&st);MPI_Recv(p,1,MPI_INT,0,0,MPI_COMM_WORLD,MPI_STATUS_IGNORE);MPI_Recv(&l,1,MPI_LONG,0,0,MPI_COMM_WORLD,sp);MPI_Recv(q,1,MPI_LONG,0,0,MPI_COMM_WORLD,NULL);MPI_Recv(NULL,0,MPI_INT,0,0,MPI_COMM_WORLD,sts);MPI_Recv(a+1,2,MPI_INT,0,0,MPI_COMM_WORLD,&sts[1]);return 0;}
int main(int argc,char **argv){int a[3],m[2][2],n,*p;long l,*q;char c;MPI_Status st,*sp,sts[2];MPI_Get_count(&st,MPI_INT,&n);MPI_Get_count(sp,MPI_CHAR,p);MPI_Get_count(NULL,MPI_LONG,NULL);MPI_Get_count(sts+1,MPI_LONG,a);n=st.MPI_SOURCE+sp->MPI_TAG+sts[1].MPI_TAG;st.MPI_TAG=3;sts[0].MPI_SOURCE++;p=&st.MPI_TAG;return 0;}
struct s{MPI_Status st;MPI_Status *p;int MPI_TAG;};int f(MPI_Status *s,MPI_Status t[]){return s->MPI_TAG+t[1].MPI_SOURCE;}int main(void){struct s x;x.p=&x.st;x.p->MPI_SOURCE=x.MPI_TAG;int r=f(&x.st,x.p);return sizeof(MPI_Status)+sizeof(struct s)+r;}
int main(void){int x=MPI_ANY_SOURCE+MPI_ANY_TAG*MPI_PROC_NULL;return x==MPI_ANY_TAG?MPI_PROC_NULL:-MPI_ANY_SOURCE;}
int main(void){MPI_Status s[2048];MPI_Status *p=malloc(3*sizeof(MPI_Status));return p==NULL||s==p;}
"#;
    assert_accepted(&rt, rt.alloc(), "", texts)
}

#[test]
fn refuses_arguments(rt: HostRuntime) -> Result<(), Fail> {
    let rows = r#"
MPI_Send(a,@st,MPI_INT,0,0,MPI_COMM_WORLD);return 0;}
MPI_Send(@st,1,MPI_INT,0,0,MPI_COMM_WORLD);return 0;}
MPI_Send(@m,1,MPI_INT,0,0,MPI_COMM_WORLD);return 0;}
MPI_Send(a,1,MPI_INT,@m,0,MPI_COMM_WORLD);return 0;}
MPI_Send(a,1,MPI_INT,0,@st,MPI_COMM_WORLD);return 0;}
MPI_Recv(a,1,MPI_INT,0,0,MPI_COMM_WORLD,@st);return 0;}
MPI_Recv(a,1,MPI_INT,@st,0,MPI_COMM_WORLD,&st);return 0;}
MPI_Comm_rank(MPI_COMM_WORLD,@st);return 0;}
MPI_Get_count(@st,MPI_INT,&n);return 0;}
MPI_Get_count(&st,MPI_INT,@m);return 0;}
"#;
    assert_refused(&rt, rt.alloc(), FRONT, Kind::NotScalar, rows)?;
    let rows = r#"
MPI_Send(a,@p,MPI_INT,0,0,MPI_COMM_WORLD);return 0;}
MPI_Send(a,1,MPI_INT,@NULL,0,MPI_COMM_WORLD);return 0;}
MPI_Send(a,1,MPI_INT,0,@p,MPI_COMM_WORLD);return 0;}
MPI_Recv(a,@a,MPI_INT,0,0,MPI_COMM_WORLD,&st);return 0;}
MPI_Recv(a,1,MPI_INT,@p,0,MPI_COMM_WORLD,&st);return 0;}
MPI_Recv(a,1,MPI_INT,0,@&n,MPI_COMM_WORLD,&st);return 0;}
"#;
    assert_refused(&rt, rt.alloc(), FRONT, Kind::NotInteger, rows)?;
    let rows = r#"
MPI_Send(@n,1,MPI_INT,0,0,MPI_COMM_WORLD);return 0;}
MPI_Send(@0,1,MPI_INT,0,0,MPI_COMM_WORLD);return 0;}
MPI_Recv(@l,1,MPI_LONG,0,0,MPI_COMM_WORLD,&st);return 0;}
MPI_Recv(@a[0],1,MPI_INT,0,0,MPI_COMM_WORLD,&st);return 0;}
MPI_Send(@MPI_ANY_TAG,1,MPI_INT,0,0,MPI_COMM_WORLD);return 0;}
"#;
    assert_refused(&rt, rt.alloc(), FRONT, Kind::NotPointer, rows)?;
    let rows = r#"
MPI_Comm_rank(MPI_COMM_WORLD,&@zq);return 0;}
MPI_Send(n,1,MPI_INT,@zq,0,MPI_COMM_WORLD);return 0;}
MPI_Send(a,@argc,MPI_INT,0,0,MPI_COMM_WORLD);return 0;}
n=st.@count;return 0;}
MPI_Get_count(MPI_STATUS_IGNORE,MPI_INT,&@zq);return 0;}
MPI_Recv(a,1,MPI_INT,0,0,MPI_COMM_WORLD,@zq);return 0;}
"#;
    assert_refused(&rt, rt.alloc(), FRONT, Kind::UnknownName, rows)
}

#[test]
fn refuses_datatypes(rt: HostRuntime) -> Result<(), Fail> {
    let rows = r#"
MPI_Send(@a,1,MPI_LONG,0,0,MPI_COMM_WORLD);return 0;}
MPI_Send(@&c,1,MPI_INT,0,0,MPI_COMM_WORLD);return 0;}
MPI_Recv(@q,1,MPI_INT,0,0,MPI_COMM_WORLD,&st);return 0;}
MPI_Recv(@&p,1,MPI_INT,0,0,MPI_COMM_WORLD,&st);return 0;}
MPI_Send(@&st,1,MPI_INT,0,0,MPI_COMM_WORLD);return 0;}
MPI_Send(@p,1,MPI_CHAR,0,0,MPI_COMM_WORLD);return 0;}
MPI_Recv(a,1,MPI_INT,0,0,MPI_COMM_WORLD,@p);return 0;}
MPI_Recv(a,1,MPI_INT,0,0,MPI_COMM_WORLD,@0);return 0;}
MPI_Recv(a,1,MPI_INT,0,0,MPI_COMM_WORLD,@n);return 0;}
MPI_Recv(a,1,MPI_INT,0,0,MPI_COMM_WORLD,@&sp);return 0;}
MPI_Comm_rank(MPI_COMM_WORLD,@q);return 0;}
MPI_Comm_rank(MPI_COMM_WORLD,@n);return 0;}
MPI_Comm_size(MPI_COMM_WORLD,@0);return 0;}
MPI_Comm_size(MPI_COMM_WORLD,@&c);return 0;}
MPI_Get_count(@MPI_STATUS_IGNORE,MPI_INT,&n);return 0;}
MPI_Get_count(@&n,MPI_INT,&n);return 0;}
MPI_Get_count(&st,MPI_INT,@q);return 0;}
MPI_Get_count(sp,MPI_LONG,@&l);return 0;}
MPI_Get_count(@0,MPI_INT,q);return 0;}
"#;
    assert_refused(&rt, rt.alloc(), FRONT, Kind::Datatype, rows)
}

#[test]
fn refuses_names_in_init(rt: HostRuntime) -> Result<(), Fail> {
    let rows = r#"
int main(void){int a,b;MPI_Init(&@a,&b);return 0;}
int main(int argc,char **argv){MPI_Init(&@argv,&argc);return 0;}
int main(int argc,char **argv){MPI_Init(&argc,&@argc);return 0;}
int main(int argc,char **argv){{int argc;MPI_Init(&@argc,&argv);}return 0;}
int main(int argc,char **argv){MPI_Init(&@zq,&argv);return 0;}
void f(int argc,char **argv){MPI_Init(&@argc,&argv);}int main(void){return 0;}
int main(int argc,char **argv){for(char argv;;){MPI_Init(&argc,&@argv);}return 0;}
"#;
    assert_refused(&rt, rt.alloc(), "", Kind::BadMain, rows)
}

#[test]
fn refuses_statuses_and_constants(rt: HostRuntime) -> Result<(), Fail> {
    let rows = r#"
MPI_Status @t=st;return 0;}
@st=st;return 0;}
@MPI_ANY_SOURCE=1;return 0;}
n=1;p=&@MPI_PROC_NULL;return 0;}
"#;
    assert_refused(&rt, rt.alloc(), FRONT, Kind::NotPlace, rows)?;
    let rows = r#"
n=@n.MPI_TAG;return 0;}
n=@p->MPI_SOURCE;return 0;}
n=@sts.MPI_TAG;return 0;}
"#;
    assert_refused(&rt, rt.alloc(), FRONT, Kind::NotStruct, rows)?;
    let rows = r#"
sp=@p;return 0;}
p=@MPI_ANY_TAG;return 0;}
p=&st.MPI_TAG;q=@&st.MPI_TAG;return 0;}
"#;
    assert_refused(&rt, rt.alloc(), FRONT, Kind::TypeMismatch, rows)?;
    let rows = r#"
int f(MPI_Status @s){return 0;}int main(void){return 0;}
MPI_Status @f(void){}int main(void){return 0;}
int f(@MPI_Status);int main(void){return 0;}
"#;
    assert_refused(&rt, rt.alloc(), "", Kind::IncompleteType, rows)?;
    assert_refused(
        &rt,
        rt.alloc(),
        "",
        Kind::Redeclared,
        r#"int main(void){MPI_Status s;MPI_Status @s;return 0;}"#,
    )?;
    assert_refused(
        &rt,
        rt.alloc(),
        "",
        Kind::ArraySize,
        r#"int main(void){MPI_Status @s[2049];return 0;}"#,
    )
}

#[test]
fn refuses_collective_calls(rt: HostRuntime) -> Result<(), Fail> {
    let rows = r#"
@int main(int argc,char **argv){int a[3],m[2][2],n,*p;long l,*q;char c;MPI_Status st,*sp,sts[2];MPI_Barrier(MPI_COMM_WORLD);return 0;}
@int main(int argc,char **argv){int a[3],m[2][2],n,*p;long l,*q;char c;MPI_Status st,*sp,sts[2];MPI_Bcast(a,1,MPI_INT,0,MPI_COMM_WORLD);return 0;}
@int main(int argc,char **argv){int a[3],m[2][2],n,*p;long l,*q;char c;MPI_Status st,*sp,sts[2];MPI_Reduce(a,p,1,MPI_INT,MPI_SUM,0,MPI_COMM_WORLD);return 0;}
@int main(int argc,char **argv){int a[3],m[2][2],n,*p;long l,*q;char c;MPI_Status st,*sp,sts[2];MPI_Allreduce(a,p,1,MPI_INT,MPI_MAX,MPI_COMM_WORLD);return 0;}
@int main(int argc,char **argv){int a[3],m[2][2],n,*p;long l,*q;char c;MPI_Status st,*sp,sts[2];MPI_Gather(a,1,MPI_INT,p,1,MPI_INT,0,MPI_COMM_WORLD);return 0;}
@int main(int argc,char **argv){int a[3],m[2][2],n,*p;long l,*q;char c;MPI_Status st,*sp,sts[2];MPI_Scatter(a,1,MPI_INT,p,1,MPI_INT,0,MPI_COMM_WORLD);return 0;}
@int main(int argc,char **argv){int a[3],m[2][2],n,*p;long l,*q;char c;MPI_Status st,*sp,sts[2];MPI_Allgather(a,1,MPI_INT,p,1,MPI_INT,MPI_COMM_WORLD);return 0;}
@int main(int argc,char **argv){int a[3],m[2][2],n,*p;long l,*q;char c;MPI_Status st,*sp,sts[2];n=zq;MPI_Bcast(zq,n,MPI_INT,0,MPI_COMM_WORLD);return 0;}
"#;
    assert_refused(&rt, rt.alloc(), "", Kind::NotYet, rows)
}
