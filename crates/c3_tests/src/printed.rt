//! The texts of places and expressions in passed code, worked out by hand.

use crate::rows::answered;
use c3_top::Status;
use std::alloc::Global;
use std::process::Abort;
use std::test::Fail;

/// The lines without blanks at their ends, and without those that call c3's own functions.
fn plain_lines(alloc: Global, text: &str) -> Result<String, Fail> {
    let mut told = String::new(alloc);
    for line in text.lines() {
        if !line.starts_with("  ccc_") {
            told.push_str(line.trim())?;
            told.push_str("\n")?;
        }
    }
    Ok(told)
}

/// After each `§` stands the body of `main` without its last `return 0;`, and then the plain lines of what `pass` writes.
fn assert_bodies(rt: &impl Abort, alloc: Global, front: &str, table: &str) -> Result<(), Fail> {
    for part in table.split('§').skip(1) {
        let (body, lines) = part.split_once('\n').expect(rt, "a line");
        let mut program = String::from_str(alloc, front)?;
        program.push_str("int main(void){")?;
        program.push_str(body)?;
        program.push_str("return 0;}")?;
        let (_, written) = answered(alloc, "pass", program.as_bytes())?;
        let text = String::from_utf8(written).expect(rt, "ASCII");
        let told = plain_lines(alloc, text.as_str())?;
        assert_eq!(rt; told.as_str(), lines, "at {body}");
    }
    Ok(())
}

#[test]
fn places_are_printed(rt: HostRuntime) -> Result<(), Fail> {
    let front = "struct s{int a[2];struct s*n;};struct t{struct s x;MPI_Status m;};";
    let table = r#"
§int a[3];int*p;p=a;*p=1;p[1]=a[2]+2;
struct s { int a[2]; struct s *n; };
struct t { struct s x; MPI_Status m; };
int main(void) {
int v0[3];
int *v1;
v1 = (&v0[0]);
(*v1) = 1;
v1[1] = (v0[2] + 2);
return 0;
return 0;
}
§struct t u;struct s*p;p=&u.x;p->n=p;p->n->a[1]=3;u.x.a[0]=(*p).a[1];u.m.MPI_TAG=p->n->n->a[0];
struct s { int a[2]; struct s *n; };
struct t { struct s x; MPI_Status m; };
int main(void) {
struct t v0;
struct s *v1;
v1 = (&v0.x);
(*v1).n = v1;
(*(*v1).n).a[1] = 3;
v0.x.a[0] = (*v1).a[1];
v0.m.MPI_TAG = (*(*(*v1).n).n).a[0];
return 0;
return 0;
}
§int a[2][3];struct s b[2];a[1][2]=1;b->a[0]=2;(b+1)->n=b;(&b[1])[0].n=b;*a[1]=b[1].a[0]+a[0][1];
struct s { int a[2]; struct s *n; };
struct t { struct s x; MPI_Status m; };
int main(void) {
int v0[2][3];
struct s v1[2];
v0[1][2] = 1;
(*(&v1[0])).a[0] = 2;
(*((&v1[0]) + 1)).n = (&v1[0]);
(&v1[1])[0].n = (&v1[0]);
(*(&v0[1][0])) = (v1[1].a[0] + v0[0][1]);
return 0;
return 0;
}
§int a[2];int*p=a;int**q=&p;*q=p+1;**q=5;p=*q-1;p=0;p=NULL;a[0]=p<q[0]&&p!=NULL&&p==0&&p-a==0;
struct s { int a[2]; struct s *n; };
struct t { struct s x; MPI_Status m; };
int main(void) {
int v0[2];
int *v1;
int **v2;
v1 = (&v0[0]);
v2 = (&v1);
(*v2) = (v1 + 1);
(*(*v2)) = 5;
v1 = ((*v2) - 1);
v1 = NULL;
v1 = NULL;
v0[0] = ((((v1 < v2[0]) && (v1 != NULL)) && (v1 == NULL)) && ((v1 - (&v0[0])) == ((long)0)));
return 0;
return 0;
}
"#;
    assert_bodies(&rt, rt.alloc(), front, table)
}

#[test]
fn expressions_are_printed(rt: HostRuntime) -> Result<(), Fail> {
    let table = r#"
§char c=1;int i=2;long n=3;n=n+i;i=(int)n;c=c+1;i=-c;n=i<<2;i=!n&&c||i;i=n?i:c;i=+i;i=~i;
int main(void) {
char v0;
int v1;
long v2;
v0 = ((char)1);
v1 = 2;
v2 = ((long)3);
v2 = (v2 + ((long)v1));
v1 = ((int)v2);
v0 = ((char)(((int)v0) + 1));
v1 = (-((int)v0));
v2 = ((long)(v1 << 2));
v1 = (((!v2) && v0) || v1);
v1 = (v2 ? v1 : ((int)v0));
v1 = (+v1);
v1 = (~v1);
return 0;
return 0;
}
§int x=1;int a[2];x+=2;x<<=1;a[x]*=x;x--;++a[1];
int main(void) {
int v0;
int v1[2];
v0 = 1;
v0 = (v0 + 2);
v0 = (v0 << 1);
v1[v0] = (v1[v0] * v0);
v0 = (v0 - 1);
v1[1] = (v1[1] + 1);
return 0;
return 0;
}
§int x;x=1-2-3*4/5%6;x=x&1|2^3;x=x>>1;x=(x<1)==(x>2);x=x<=1!=(x>=2);
int main(void) {
int v0;
v0 = ((1 - 2) - (((3 * 4) / 5) % 6));
v0 = ((v0 & 1) | (2 ^ 3));
v0 = (v0 >> 1);
v0 = ((v0 < 1) == (v0 > 2));
v0 = ((v0 <= 1) != (v0 >= 2));
return 0;
return 0;
}
§long n=5L;n=3000000000;n='\n';n=sizeof(int*)+sizeof(char);n=(long)1;n=(long)1L;n=n+1+2L;
int main(void) {
long v0;
v0 = 5L;
v0 = 3000000000L;
v0 = ((long)10);
v0 = (16L + 1L);
v0 = ((long)1);
v0 = 1L;
v0 = ((v0 + ((long)1)) + 2L);
return 0;
return 0;
}
"#;
    assert_bodies(&rt, rt.alloc(), "", table)
}
