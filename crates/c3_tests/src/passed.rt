//! The texts of passed code, worked out by hand.

use crate::rows::answered;
use c3_top::Status;
use std::alloc::Global;
use std::process::Abort;
use std::test::Fail;

/// After each `§` stands a program's line, and then what `pass` writes of it.
fn assert_texts(rt: &impl Abort, alloc: Global, table: &str) -> Result<(), Fail> {
    for part in table.split('§').skip(1) {
        let (program, text) = part.split_once('\n').expect(rt, "a line");
        let (status, written) = answered(alloc, "pass", program.as_bytes())?;
        assert_eq!(rt; status, Status::Done, "at {program}");
        assert_eq!(rt; written.as_slice(), text.as_bytes(), "at {program}");
    }
    Ok(())
}

#[test]
fn jumps_are_passed(rt: HostRuntime) -> Result<(), Fail> {
    let table = r#"
§int main(void){potentialCheckpoint();return 0;}
int main(void) {
  ccc_enter(; 1:L4);
  ccc_step();
  ccc_step();
  ccc_push(1);
L4:
  ccc_mark(1);
  ccc_pop();
  ccc_step();
  ccc_leave();
  return 0;
  ccc_leave();
  return 0;
}
§int main(void){{;}}
int main(void) {
  ccc_enter(; );
  ccc_step();
  ccc_step();
  ccc_step();
  ccc_leave();
  return 0;
}
§int main(void){int i=0;while(i<3){i++;if(i==2)continue;if(i==4)break;}return i;}
int main(void) {
  int v0;
  ccc_enter(v0; );
  ccc_step();
  ccc_step();
  v0 = 0;
  ccc_step();
L5:
  if (!(v0 < 3)) goto L18;
  ccc_step();
  ccc_step();
  v0 = (v0 + 1);
  ccc_step();
  if (!(v0 == 2)) goto L13;
  ccc_step();
  goto L5;
L13:
  ccc_step();
  if (!(v0 == 4)) goto L17;
  ccc_step();
  goto L18;
L17:
  goto L5;
L18:
  ccc_step();
  ccc_leave();
  return v0;
  ccc_leave();
  return 0;
}
§int main(void){int i;for(i=0;;i++){if(i>2)return i;}}
int main(void) {
  int v0;
  ccc_enter(v0; );
  ccc_step();
  ccc_step();
  ccc_zero(v0);
  ccc_step();
  v0 = 0;
L6:
  ccc_step();
  ccc_step();
  if (!(v0 > 2)) goto L12;
  ccc_step();
  ccc_leave();
  return v0;
L12:
  v0 = (v0 + 1);
  goto L6;
  ccc_leave();
  return 0;
}
§int main(void){int x=1;if(x==0)x=5;else if(x)x=6;else x=7;return x;}
int main(void) {
  int v0;
  ccc_enter(v0; );
  ccc_step();
  ccc_step();
  v0 = 1;
  ccc_step();
  if (!(v0 == 0)) goto L9;
  ccc_step();
  v0 = 5;
  goto L15;
L9:
  if (!v0) goto L13;
  ccc_step();
  v0 = 6;
  goto L15;
L13:
  ccc_step();
  v0 = 7;
L15:
  ccc_step();
  ccc_leave();
  return v0;
  ccc_leave();
  return 0;
}
§int main(void){int x=0;do{x++;}while(x<3);return x;}
int main(void) {
  int v0;
  ccc_enter(v0; );
  ccc_step();
  ccc_step();
  v0 = 0;
  ccc_step();
L5:
  ccc_step();
  ccc_step();
  v0 = (v0 + 1);
  if (!(v0 < 3)) goto L10;
  goto L5;
L10:
  ccc_step();
  ccc_leave();
  return v0;
  ccc_leave();
  return 0;
}
§int main(void){for(;;)potentialCheckpoint();}
int main(void) {
  ccc_enter(; 1:L5);
  ccc_step();
  ccc_step();
L3:
  ccc_step();
  ccc_push(1);
L5:
  ccc_mark(1);
  ccc_pop();
  goto L3;
  ccc_leave();
  return 0;
}
§void f(void){}int main(void){int i;for(;i<2;f())continue;return 0;}
void f(void) {
  ccc_enter(; );
  ccc_step();
  ccc_leave();
  return;
}
int main(void) {
  int v0;
  ccc_enter(v0; 1:L9);
  ccc_step();
  ccc_step();
  ccc_zero(v0);
  ccc_step();
L5:
  if (!(v0 < 2)) goto L12;
  ccc_step();
  goto L8;
L8:
  ccc_push(1);
L9:
  f();
  ccc_pop();
  goto L5;
L12:
  ccc_step();
  ccc_leave();
  return 0;
  ccc_leave();
  return 0;
}
§void g(int x){while(x)x=0;}int main(void){}
void g(int v0) {
  ccc_enter(v0; );
  ccc_step();
  ccc_step();
L3:
  if (!v0) goto L7;
  ccc_step();
  v0 = 0;
  goto L3;
L7:
  ccc_leave();
  return;
}
int main(void) {
  ccc_enter(; );
  ccc_step();
  ccc_leave();
  return 0;
}
"#;
    assert_texts(&rt, rt.alloc(), table)
}

#[test]
fn loops_are_passed(rt: HostRuntime) -> Result<(), Fail> {
    let table = r#"
§int main(void){int i,j;for(i=0;i<2;i++){for(j=0;;j++){if(j>i)break;if(j)continue;i=j;}if(i)break;}return j;}
int main(void) {
  int v0;
  int v1;
  ccc_enter(v0, v1; );
  ccc_step();
  ccc_step();
  ccc_zero(v0);
  ccc_zero(v1);
  ccc_step();
  v0 = 0;
L7:
  if (!(v0 < 2)) goto L30;
  ccc_step();
  ccc_step();
  v1 = 0;
L11:
  ccc_step();
  ccc_step();
  if (!(v1 > v0)) goto L16;
  ccc_step();
  goto L24;
L16:
  ccc_step();
  if (!v1) goto L20;
  ccc_step();
  goto L22;
L20:
  ccc_step();
  v0 = v1;
L22:
  v1 = (v1 + 1);
  goto L11;
L24:
  ccc_step();
  if (!v0) goto L28;
  ccc_step();
  goto L30;
L28:
  v0 = (v0 + 1);
  goto L7;
L30:
  ccc_step();
  ccc_leave();
  return v1;
  ccc_leave();
  return 0;
}
§int main(void){int x=0;do{x++;if(x==2)continue;if(x>4)break;}while(x<9);return x;}
int main(void) {
  int v0;
  ccc_enter(v0; );
  ccc_step();
  ccc_step();
  v0 = 0;
  ccc_step();
L5:
  ccc_step();
  ccc_step();
  v0 = (v0 + 1);
  ccc_step();
  if (!(v0 == 2)) goto L12;
  ccc_step();
  goto L16;
L12:
  ccc_step();
  if (!(v0 > 4)) goto L16;
  ccc_step();
  goto L18;
L16:
  if (!(v0 < 9)) goto L18;
  goto L5;
L18:
  ccc_step();
  ccc_leave();
  return v0;
  ccc_leave();
  return 0;
}
§int f(int n){int r;if(n>0){r=f(n-1);potentialCheckpoint();}else r=2;return r;}int main(void){int i;for(i=0;i<2;i++)f(i);return 0;}
int f(int v0) {
  int v1;
  ccc_enter(v0, v1; 1:L9, 2:L13);
  ccc_step();
  ccc_step();
  ccc_zero(v1);
  ccc_step();
  if (!(v0 > 0)) goto L16;
  ccc_step();
  ccc_step();
  ccc_push(1);
L9:
  v1 = f((v0 - 1));
  ccc_pop();
  ccc_step();
  ccc_push(2);
L13:
  ccc_mark(2);
  ccc_pop();
  goto L18;
L16:
  ccc_step();
  v1 = 2;
L18:
  ccc_step();
  ccc_leave();
  return v1;
  ccc_leave();
  return 0;
}
int main(void) {
  int v0;
  ccc_enter(v0; 3:L9);
  ccc_step();
  ccc_step();
  ccc_zero(v0);
  ccc_step();
  v0 = 0;
L6:
  if (!(v0 < 2)) goto L13;
  ccc_step();
  ccc_push(3);
L9:
  f(v0);
  ccc_pop();
  v0 = (v0 + 1);
  goto L6;
L13:
  ccc_step();
  ccc_leave();
  return 0;
  ccc_leave();
  return 0;
}
§void f(int*p){while(1){if(*p>3)return;*p=*p+1;}}int main(void){int x=0;f(&x);return x;}
void f(int *v0) {
  ccc_enter(v0; );
  ccc_step();
  ccc_step();
L3:
  if (!1) goto L13;
  ccc_step();
  ccc_step();
  if (!((*v0) > 3)) goto L10;
  ccc_step();
  ccc_leave();
  return;
L10:
  ccc_step();
  (*v0) = ((*v0) + 1);
  goto L3;
L13:
  ccc_leave();
  return;
}
int main(void) {
  int v0;
  ccc_enter(v0; 1:L6);
  ccc_step();
  ccc_step();
  v0 = 0;
  ccc_step();
  ccc_push(1);
L6:
  f((&v0));
  ccc_pop();
  ccc_step();
  ccc_leave();
  return v0;
  ccc_leave();
  return 0;
}
§int main(void){int n=3;while(n){for(;n>1;n--)potentialCheckpoint();n--;}return 0;}
int main(void) {
  int v0;
  ccc_enter(v0; 1:L11);
  ccc_step();
  ccc_step();
  v0 = 3;
  ccc_step();
L5:
  if (!v0) goto L18;
  ccc_step();
  ccc_step();
L8:
  if (!(v0 > 1)) goto L15;
  ccc_step();
  ccc_push(1);
L11:
  ccc_mark(1);
  ccc_pop();
  v0 = (v0 - 1);
  goto L8;
L15:
  ccc_step();
  v0 = (v0 - 1);
  goto L5;
L18:
  ccc_step();
  ccc_leave();
  return 0;
  ccc_leave();
  return 0;
}
§int main(void){for(int i=0,j=4;i<j;i++){int k=i;j=k?j-1:j;}return 0;}
int main(void) {
  int v0;
  int v1;
  int v2;
  ccc_enter(v0, v1, v2; );
  ccc_step();
  ccc_step();
  v0 = 0;
  v1 = 4;
L5:
  if (!(v0 < v1)) goto L13;
  ccc_step();
  ccc_step();
  v2 = v0;
  ccc_step();
  v1 = (v2 ? (v1 - 1) : v1);
  v0 = (v0 + 1);
  goto L5;
L13:
  ccc_step();
  ccc_leave();
  return 0;
  ccc_leave();
  return 0;
}
§int main(void){int x=0;for(;;){if(x==3)break;else if(x==1){x=3;continue;}else x++;potentialCheckpoint();}return 0;}
int main(void) {
  int v0;
  ccc_enter(v0; 1:L22);
  ccc_step();
  ccc_step();
  v0 = 0;
  ccc_step();
L5:
  ccc_step();
  ccc_step();
  if (!(v0 == 3)) goto L11;
  ccc_step();
  goto L25;
  goto L20;
L11:
  if (!(v0 == 1)) goto L18;
  ccc_step();
  ccc_step();
  v0 = 3;
  ccc_step();
  goto L24;
  goto L20;
L18:
  ccc_step();
  v0 = (v0 + 1);
L20:
  ccc_step();
  ccc_push(1);
L22:
  ccc_mark(1);
  ccc_pop();
L24:
  goto L5;
L25:
  ccc_step();
  ccc_leave();
  return 0;
  ccc_leave();
  return 0;
}
"#;
    assert_texts(&rt, rt.alloc(), table)
}

#[test]
fn calls_are_passed(rt: HostRuntime) -> Result<(), Fail> {
    let table = r#"
§int f(int a,char*b){potentialCheckpoint();return a;}int main(void){int a[2];char c;f(1,&c);a[1]=f(2,&c);return a[1];}
int f(int v0, char *v1) {
  ccc_enter(v0, v1; 1:L4);
  ccc_step();
  ccc_step();
  ccc_push(1);
L4:
  ccc_mark(1);
  ccc_pop();
  ccc_step();
  ccc_leave();
  return v0;
  ccc_leave();
  return 0;
}
int main(void) {
  int v0[2];
  char v1;
  ccc_enter(v0, v1; 2:L8, 3:L12);
  ccc_step();
  ccc_step();
  ccc_zero(v0);
  ccc_step();
  ccc_zero(v1);
  ccc_step();
  ccc_push(2);
L8:
  f(1, (&v1));
  ccc_pop();
  ccc_step();
  ccc_push(3);
L12:
  v0[1] = f(2, (&v1));
  ccc_pop();
  ccc_step();
  ccc_leave();
  return v0[1];
  ccc_leave();
  return 0;
}
§void f(long n,char c){}int main(void){long n;f(1,2);return 0;}
void f(long v0, char v1) {
  ccc_enter(v0, v1; );
  ccc_step();
  ccc_leave();
  return;
}
int main(void) {
  long v0;
  ccc_enter(v0; 1:L6);
  ccc_step();
  ccc_step();
  ccc_zero(v0);
  ccc_step();
  ccc_push(1);
L6:
  f(((long)1), ((char)2));
  ccc_pop();
  ccc_step();
  ccc_leave();
  return 0;
  ccc_leave();
  return 0;
}
§int f(void){return 1;}long g(void){}char*h(void){}char i(void){}int main(void){long n;n=f();return 0;}
int f(void) {
  ccc_enter(; );
  ccc_step();
  ccc_step();
  ccc_leave();
  return 1;
  ccc_leave();
  return 0;
}
long g(void) {
  ccc_enter(; );
  ccc_step();
  ccc_leave();
  return 0L;
}
char *h(void) {
  ccc_enter(; );
  ccc_step();
  ccc_leave();
  return NULL;
}
char i(void) {
  ccc_enter(; );
  ccc_step();
  ccc_leave();
  return 0;
}
int main(void) {
  long v0;
  ccc_enter(v0; 1:L6);
  ccc_step();
  ccc_step();
  ccc_zero(v0);
  ccc_step();
  ccc_push(1);
L6:
  v0 = f();
  ccc_pop();
  ccc_step();
  ccc_leave();
  return 0;
  ccc_leave();
  return 0;
}
§int main(void){int*p;p=(int*)malloc(8);p=malloc(4);free(p);return 0;}
int main(void) {
  int *v0;
  ccc_enter(v0; );
  ccc_step();
  ccc_step();
  ccc_zero(v0);
  ccc_step();
  v0 = malloc(8);
  ccc_step();
  v0 = malloc(4);
  ccc_step();
  free(v0);
  ccc_step();
  ccc_leave();
  return 0;
  ccc_leave();
  return 0;
}
§int main(void){char c='a';long n=3;printf("%%a\t\"\\%d %ld%c\n",c,n,c);printf("");return 0;}
int main(void) {
  char v0;
  long v1;
  ccc_enter(v0, v1; );
  ccc_step();
  ccc_step();
  v0 = ((char)97);
  ccc_step();
  v1 = ((long)3);
  ccc_step();
  printf("%%a\t\"\\%d %ld%c\n", v0, v1, v0);
  ccc_step();
  printf("");
  ccc_step();
  ccc_leave();
  return 0;
  ccc_leave();
  return 0;
}
§int main(int argc,char**argv){int r;char b[4];MPI_Status s;MPI_Init(&argc,&argv);MPI_Comm_rank(MPI_COMM_WORLD,&r);MPI_Comm_size(MPI_COMM_WORLD,&r);MPI_Send(b,4,MPI_CHAR,MPI_PROC_NULL,r,MPI_COMM_WORLD);MPI_Recv(b,r+1,MPI_CHAR,MPI_ANY_SOURCE,MPI_ANY_TAG,MPI_COMM_WORLD,&s);MPI_Recv(&r,1,MPI_INT,0,7,MPI_COMM_WORLD,MPI_STATUS_IGNORE);MPI_Get_count(&s,MPI_CHAR,&r);MPI_Finalize();return 0;}
int main(void) {
  int v0;
  char v1[4];
  MPI_Status v2;
  ccc_enter(v0, v1, v2; );
  ccc_step();
  ccc_step();
  ccc_zero(v0);
  ccc_step();
  ccc_zero(v1);
  ccc_step();
  ccc_zero(v2);
  ccc_step();
  MPI_Init(&argc, &argv);
  ccc_step();
  MPI_Comm_rank(MPI_COMM_WORLD, (&v0));
  ccc_step();
  MPI_Comm_size(MPI_COMM_WORLD, (&v0));
  ccc_step();
  MPI_Send((&v1[0]), 4, MPI_CHAR, -2, v0, MPI_COMM_WORLD);
  ccc_step();
  MPI_Recv((&v1[0]), (v0 + 1), MPI_CHAR, -1, -1, MPI_COMM_WORLD, (&v2));
  ccc_step();
  MPI_Recv((&v0), 1, MPI_INT, 0, 7, MPI_COMM_WORLD, MPI_STATUS_IGNORE);
  ccc_step();
  MPI_Get_count((&v2), MPI_CHAR, (&v0));
  ccc_step();
  MPI_Finalize();
  ccc_step();
  ccc_leave();
  return 0;
  ccc_leave();
  return 0;
}
§int main(void){long n;MPI_Init(NULL,NULL);MPI_Send(&n,1,MPI_LONG,1,0,MPI_COMM_WORLD);}
int main(void) {
  long v0;
  ccc_enter(v0; );
  ccc_step();
  ccc_step();
  ccc_zero(v0);
  ccc_step();
  MPI_Init(NULL, NULL);
  ccc_step();
  MPI_Send((&v0), 1, MPI_LONG, 1, 0, MPI_COMM_WORLD);
  ccc_leave();
  return 0;
}
"#;
    assert_texts(&rt, rt.alloc(), table)
}
