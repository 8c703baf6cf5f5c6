//! The tests of MPI's calls one by one, and what a receive leaves behind.

use crate::rows::{assert_run, unmarked};
use std::alloc::Global;
use std::process::Abort;
use std::test::Fail;

/// What one rank does in `main`, after these declarations.
fn in_main(alloc: Global, front: &str, body: &str) -> Result<String, Fail> {
    let mut input = String::from_str(
        alloc,
        "int main(void){int a[3],b[4096],c=0;long l=0;char s[3];int *p=NULL;MPI_Status st;",
    )?;
    input.push_str(front)?;
    input.push_str(body)?;
    input.push_str("return 0;}")?;
    Ok(input)
}

/// A rank that has printed nothing ends with the fault; 0 stands for its exit.
fn assert_ended(rt: &impl Abort, alloc: Global, code: &str, input: &str) -> Result<(), Fail> {
    let how = if code == "0" { "exit" } else { "fault" };
    let text = format!(in alloc; "rank 0 {how} {code} bytes 0\nfinished\n")?;
    assert_run(rt, alloc, "1", input, "", &text)
}

// Each fault at its test, by hand.
#[test]
fn tests_calls_in_order(rt: HostRuntime) -> Result<(), Fail> {
    let table = r#"
116@MPI_Send(b,-1,MPI_INT,0,0,MPI_COMM_WORLD);
0@MPI_Send(b,0,MPI_INT,0,0,MPI_COMM_WORLD);
0@MPI_Send(b,4096,MPI_INT,0,0,MPI_COMM_WORLD);
116@MPI_Send(b,4097,MPI_INT,0,0,MPI_COMM_WORLD);
113@MPI_Send(b,1,MPI_INT,-3,0,MPI_COMM_WORLD);
0@MPI_Send(b,1,MPI_INT,-2,0,MPI_COMM_WORLD);
113@MPI_Send(b,1,MPI_INT,-1,0,MPI_COMM_WORLD);
0@MPI_Send(b,1,MPI_INT,0,0,MPI_COMM_WORLD);
113@MPI_Send(b,1,MPI_INT,1,0,MPI_COMM_WORLD);
114@MPI_Send(b,1,MPI_INT,0,-2,MPI_COMM_WORLD);
114@MPI_Send(b,1,MPI_INT,0,-1,MPI_COMM_WORLD);
0@MPI_Send(b,1,MPI_INT,0,0,MPI_COMM_WORLD);
0@MPI_Send(b,1,MPI_INT,0,32767,MPI_COMM_WORLD);
114@MPI_Send(b,1,MPI_INT,0,32768,MPI_COMM_WORLD);
116@MPI_Send(b,4097,MPI_INT,1,-1,MPI_COMM_WORLD);
113@MPI_Send(b,1,MPI_INT,1,-1,MPI_COMM_WORLD);
114@MPI_Send(NULL,1,MPI_INT,0,-1,MPI_COMM_WORLD);
101@MPI_Send(NULL,1,MPI_INT,0,0,MPI_COMM_WORLD);
116@MPI_Send(b,4097,MPI_INT,MPI_PROC_NULL,0,MPI_COMM_WORLD);
114@MPI_Send(b,1,MPI_INT,MPI_PROC_NULL,32768,MPI_COMM_WORLD);
0@MPI_Send(NULL,5,MPI_INT,MPI_PROC_NULL,0,MPI_COMM_WORLD);
0@MPI_Send(a,3,MPI_INT,0,0,MPI_COMM_WORLD);
102@MPI_Send(a,4,MPI_INT,0,0,MPI_COMM_WORLD);
0@MPI_Send(a+1,2,MPI_INT,0,0,MPI_COMM_WORLD);
102@MPI_Send(a+1,3,MPI_INT,0,0,MPI_COMM_WORLD);
0@MPI_Send(a+3,0,MPI_INT,0,0,MPI_COMM_WORLD);
102@MPI_Send(a+3,1,MPI_INT,0,0,MPI_COMM_WORLD);
0@MPI_Send(NULL,0,MPI_INT,0,0,MPI_COMM_WORLD);
0@MPI_Send(&c,1,MPI_INT,0,0,MPI_COMM_WORLD);
102@MPI_Send(&c,2,MPI_INT,0,0,MPI_COMM_WORLD);
0@MPI_Send(&b[4095],1,MPI_INT,0,0,MPI_COMM_WORLD);
103@p=malloc(8);free(p);MPI_Send(p,1,MPI_INT,0,0,MPI_COMM_WORLD);
0@p=malloc(8);free(p);MPI_Send(p,0,MPI_INT,0,0,MPI_COMM_WORLD);
0@p=malloc(8);MPI_Send(p,2,MPI_INT,0,0,MPI_COMM_WORLD);
102@p=malloc(8);MPI_Send(p,3,MPI_INT,0,0,MPI_COMM_WORLD);
102@p=malloc(8);MPI_Send(p+2,1,MPI_INT,0,0,MPI_COMM_WORLD);
116@MPI_Recv(b,-1,MPI_INT,0,0,MPI_COMM_WORLD,&st);
116@MPI_Recv(b,4097,MPI_INT,0,0,MPI_COMM_WORLD,&st);
113@MPI_Recv(b,1,MPI_INT,-3,0,MPI_COMM_WORLD,&st);
113@MPI_Recv(b,1,MPI_INT,-1,0,MPI_COMM_WORLD,&st);
113@MPI_Recv(b,1,MPI_INT,1,0,MPI_COMM_WORLD,&st);
114@MPI_Recv(b,1,MPI_INT,0,-2,MPI_COMM_WORLD,&st);
114@MPI_Recv(b,1,MPI_INT,0,32768,MPI_COMM_WORLD,&st);
116@MPI_Recv(b,4097,MPI_INT,1,-2,MPI_COMM_WORLD,&st);
113@MPI_Recv(b,1,MPI_INT,1,-2,MPI_COMM_WORLD,&st);
114@MPI_Recv(NULL,1,MPI_INT,0,-2,MPI_COMM_WORLD,NULL);
101@MPI_Recv(NULL,1,MPI_INT,0,0,MPI_COMM_WORLD,&st);
102@MPI_Recv(a,4,MPI_INT,0,0,MPI_COMM_WORLD,NULL);
101@MPI_Recv(a,3,MPI_INT,0,0,MPI_COMM_WORLD,NULL);
102@MPI_Recv(NULL,0,MPI_INT,0,0,MPI_COMM_WORLD,&st+1);
103@MPI_Status *q=malloc(16);free(q);MPI_Recv(a,1,MPI_INT,0,0,MPI_COMM_WORLD,q);
101@MPI_Recv(NULL,3,MPI_INT,MPI_PROC_NULL,0,MPI_COMM_WORLD,NULL);
0@MPI_Recv(NULL,3,MPI_INT,MPI_PROC_NULL,0,MPI_COMM_WORLD,MPI_STATUS_IGNORE);
116@MPI_Recv(b,4097,MPI_INT,MPI_PROC_NULL,0,MPI_COMM_WORLD,&st);
114@MPI_Recv(b,1,MPI_INT,MPI_PROC_NULL,-2,MPI_COMM_WORLD,&st);
0@MPI_Send(b,3,MPI_INT,0,5,MPI_COMM_WORLD);MPI_Recv(a,3,MPI_INT,0,5,MPI_COMM_WORLD,&st);
111@MPI_Send(b,3,MPI_INT,0,5,MPI_COMM_WORLD);MPI_Recv(a,2,MPI_INT,0,5,MPI_COMM_WORLD,&st);
112@MPI_Send(b,3,MPI_INT,0,5,MPI_COMM_WORLD);MPI_Recv(&l,1,MPI_LONG,0,5,MPI_COMM_WORLD,&st);
0@MPI_Send(b,3,MPI_INT,0,5,MPI_COMM_WORLD);MPI_Recv(a,3,MPI_INT,0,MPI_ANY_TAG,MPI_COMM_WORLD,&st);
0@MPI_Send(b,3,MPI_INT,0,5,MPI_COMM_WORLD);MPI_Recv(b,4096,MPI_INT,0,5,MPI_COMM_WORLD,&st);
112@MPI_Send(b,3,MPI_INT,0,5,MPI_COMM_WORLD);MPI_Recv(s,3,MPI_CHAR,0,5,MPI_COMM_WORLD,&st);
111@MPI_Send(b,3,MPI_INT,0,5,MPI_COMM_WORLD);MPI_Recv(NULL,0,MPI_INT,0,5,MPI_COMM_WORLD,&st);
0@MPI_Get_count(&st,MPI_INT,&c);
101@MPI_Get_count(NULL,MPI_INT,&c);
101@MPI_Get_count(&st,MPI_INT,NULL);
102@MPI_Get_count(&st,MPI_INT,a+3);
102@MPI_Get_count(&st+1,MPI_INT,&c);
112@MPI_Send(b,3,MPI_INT,0,5,MPI_COMM_WORLD);MPI_Recv(a,3,MPI_INT,0,5,MPI_COMM_WORLD,&st);MPI_Get_count(&st,MPI_LONG,&c);
101@MPI_Send(b,3,MPI_INT,0,5,MPI_COMM_WORLD);MPI_Recv(a,3,MPI_INT,0,5,MPI_COMM_WORLD,&st);MPI_Get_count(&st,MPI_LONG,NULL);
0@MPI_Send(b,3,MPI_INT,0,5,MPI_COMM_WORLD);MPI_Recv(a,3,MPI_INT,0,5,MPI_COMM_WORLD,&st);MPI_Get_count(&st,MPI_INT,&c);
101@MPI_Comm_rank(MPI_COMM_WORLD,NULL);
102@MPI_Comm_rank(MPI_COMM_WORLD,a+3);
103@p=malloc(4);free(p);MPI_Comm_rank(MPI_COMM_WORLD,p);
0@MPI_Comm_rank(MPI_COMM_WORLD,a+2);
101@MPI_Comm_size(MPI_COMM_WORLD,NULL);
102@MPI_Comm_size(MPI_COMM_WORLD,a+3);
103@p=malloc(4);free(p);MPI_Comm_size(MPI_COMM_WORLD,p);
0@MPI_Comm_size(MPI_COMM_WORLD,a+2);
117@MPI_Init(NULL,NULL);
0@MPI_Finalize();
117@MPI_Finalize();MPI_Finalize();
117@MPI_Finalize();MPI_Init(NULL,NULL);
117@MPI_Finalize();MPI_Send(b,-1,MPI_INT,9,-9,MPI_COMM_WORLD);
117@MPI_Finalize();MPI_Recv(b,-1,MPI_INT,9,-9,MPI_COMM_WORLD,NULL);
117@MPI_Finalize();MPI_Comm_rank(MPI_COMM_WORLD,NULL);
117@MPI_Finalize();MPI_Comm_size(MPI_COMM_WORLD,NULL);
117@MPI_Finalize();MPI_Get_count(NULL,MPI_INT,NULL);
"#;
    for line in table.trim().lines() {
        let (code, body) = line.split_once('@').expect(&rt, "a marked line");
        let input = in_main(rt.alloc(), "MPI_Init(NULL,NULL);", body)?;
        assert_ended(&rt, rt.alloc(), code, &input)?;
    }
    Ok(())
}

#[test]
fn needs_init_first(rt: HostRuntime) -> Result<(), Fail> {
    let table = r#"
MPI_Send(b,-1,MPI_INT,9,-9,MPI_COMM_WORLD);
MPI_Recv(b,-1,MPI_INT,9,-9,MPI_COMM_WORLD,NULL);
MPI_Comm_rank(MPI_COMM_WORLD,NULL);
MPI_Comm_size(MPI_COMM_WORLD,NULL);
MPI_Get_count(NULL,MPI_INT,NULL);
MPI_Finalize();
"#;
    for body in table.trim().lines() {
        let input = in_main(rt.alloc(), "", body)?;
        assert_ended(&rt, rt.alloc(), "117", &input)?;
    }
    Ok(())
}

// What a receive leaves behind.
#[test]
fn writes_elements_and_statuses(rt: HostRuntime) -> Result<(), Fail> {
    let table = r#"
st.MPI_SOURCE=9;st.MPI_TAG=9;a[0]=4;MPI_Recv(a,1,MPI_INT,MPI_PROC_NULL,7,MPI_COMM_WORLD,&st);MPI_Get_count(&st,MPI_LONG,&c);printf("%d %d %d %d\n",st.MPI_SOURCE,st.MPI_TAG,c,a[0]);int *q=&st.MPI_SOURCE;printf("%d %d %d %d\n",q[0],q[1],q[2],q[3]);@rank 0 exit 0 bytes 20⏎-2 -1 0 4⏎-2 -1 0 0⏎finished⏎
MPI_Send(b,3,MPI_INT,0,5,MPI_COMM_WORLD);MPI_Recv(a,3,MPI_INT,0,MPI_ANY_TAG,MPI_COMM_WORLD,&st);int *q=&st.MPI_SOURCE;printf("%d %d %d %d\n",q[0],q[1],q[2],q[3]);@rank 0 exit 0 bytes 8⏎0 5 3 2⏎finished⏎
MPI_Send(s,2,MPI_CHAR,0,0,MPI_COMM_WORLD);MPI_Recv(s,3,MPI_CHAR,0,0,MPI_COMM_WORLD,&st);int *q=&st.MPI_SOURCE;printf("%d %d %d %d\n",q[0],q[1],q[2],q[3]);@rank 0 exit 0 bytes 8⏎0 0 2 1⏎finished⏎
MPI_Send(&l,1,MPI_LONG,0,32767,MPI_COMM_WORLD);MPI_Recv(&l,1,MPI_LONG,0,32767,MPI_COMM_WORLD,&st);int *q=&st.MPI_SOURCE;printf("%d %d %d %d\n",q[0],q[1],q[2],q[3]);@rank 0 exit 0 bytes 12⏎0 32767 1 3⏎finished⏎
MPI_Send(NULL,0,MPI_INT,0,1,MPI_COMM_WORLD);MPI_Recv(NULL,0,MPI_INT,0,1,MPI_COMM_WORLD,&st);int *q=&st.MPI_SOURCE;printf("%d %d %d %d\n",q[0],q[1],q[2],q[3]);@rank 0 exit 0 bytes 8⏎0 1 0 2⏎finished⏎
a[0]=1;a[1]=8;a[2]=9;MPI_Send(a,1,MPI_INT,0,0,MPI_COMM_WORLD);a[0]=7;MPI_Recv(a,3,MPI_INT,0,0,MPI_COMM_WORLD,MPI_STATUS_IGNORE);printf("%d%d%d\n",a[0],a[1],a[2]);@rank 0 exit 0 bytes 4⏎189⏎finished⏎
a[0]=77;MPI_Send(a,1,MPI_INT,0,5,MPI_COMM_WORLD);MPI_Recv(&st.MPI_SOURCE,1,MPI_INT,0,5,MPI_COMM_WORLD,&st);int *q=&st.MPI_SOURCE;printf("%d %d %d %d\n",q[0],q[1],q[2],q[3]);@rank 0 exit 0 bytes 8⏎0 5 1 2⏎finished⏎
a[0]=1;MPI_Send(a,1,MPI_INT,0,5,MPI_COMM_WORLD);a[0]=2;MPI_Send(a,1,MPI_INT,0,5,MPI_COMM_WORLD);MPI_Recv(a+1,1,MPI_INT,0,5,MPI_COMM_WORLD,MPI_STATUS_IGNORE);MPI_Recv(a+2,1,MPI_INT,0,5,MPI_COMM_WORLD,MPI_STATUS_IGNORE);printf("%d%d\n",a[1],a[2]);@rank 0 exit 0 bytes 3⏎12⏎finished⏎
s[0]=-5;s[1]=127;l=-9223372036854775807-1;MPI_Send(s,2,MPI_CHAR,0,0,MPI_COMM_WORLD);MPI_Send(&l,1,MPI_LONG,0,1,MPI_COMM_WORLD);s[0]=0;l=0;MPI_Recv(&l,1,MPI_LONG,0,1,MPI_COMM_WORLD,MPI_STATUS_IGNORE);MPI_Recv(s+1,2,MPI_CHAR,0,0,MPI_COMM_WORLD,MPI_STATUS_IGNORE);printf("%d %d %ld\n",s[1],s[2],l);@rank 0 exit 0 bytes 28⏎-5 127 -9223372036854775808⏎finished⏎
MPI_Comm_rank(MPI_COMM_WORLD,a);MPI_Comm_size(MPI_COMM_WORLD,a+1);printf("%d%d\n",a[0],a[1]);MPI_Finalize();printf("%ld\n",sizeof(MPI_Status));@rank 0 exit 0 bytes 6⏎01⏎16⏎finished⏎
"#;
    for line in table.trim().lines() {
        let (body, answer) = line.split_once('@').expect(&rt, "a marked line");
        let input = in_main(rt.alloc(), "MPI_Init(NULL,NULL);", body)?;
        let text = unmarked(rt.alloc(), answer)?;
        assert_run(&rt, rt.alloc(), "1", &input, "", &text)?;
    }
    Ok(())
}
