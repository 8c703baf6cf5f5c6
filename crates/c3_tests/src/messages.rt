//! Programs that send messages under a schedule.

use crate::rows::assert_answers;
use std::test::Fail;

// Worked out by hand from the rules of turns and calls.
#[test]
fn follows_schedules(rt: HostRuntime) -> Result<(), Fail> {
    let table = r#"
0 plain 3@int main(void){int r,v=0,i=0,s[2];MPI_Status st;MPI_Init(NULL,NULL);MPI_Comm_rank(MPI_COMM_WORLD,&r);potentialCheckpoint();if(r==0){for(i=0;i<2;i++){MPI_Recv(&v,1,MPI_INT,MPI_ANY_SOURCE,MPI_ANY_TAG,MPI_COMM_WORLD,&st);s[i]=st.MPI_SOURCE;}printf("%d %d\n",s[0],s[1]);}else MPI_Send(&r,1,MPI_INT,0,0,MPI_COMM_WORLD);return 0;}⏎#pragma ccc schedule⏎t2*3 t0*2 t1*3 t0*3@rank 0 exit 0 bytes 4⏎2 1⏎rank 1 exit 0 bytes 0⏎rank 2 exit 0 bytes 0⏎finished⏎
0 plain 3@int main(void){int r,v=0,i=0,s[2];MPI_Status st;MPI_Init(NULL,NULL);MPI_Comm_rank(MPI_COMM_WORLD,&r);potentialCheckpoint();if(r==0){for(i=0;i<2;i++){MPI_Recv(&v,1,MPI_INT,MPI_ANY_SOURCE,MPI_ANY_TAG,MPI_COMM_WORLD,&st);s[i]=st.MPI_SOURCE;}printf("%d %d\n",s[0],s[1]);}else MPI_Send(&r,1,MPI_INT,0,0,MPI_COMM_WORLD);return 0;}⏎#pragma ccc schedule⏎t2*3 t1*3 t0*5@rank 0 exit 0 bytes 4⏎1 2⏎rank 1 exit 0 bytes 0⏎rank 2 exit 0 bytes 0⏎finished⏎
1 plain 3@int main(void){int r,v=0,i=0,s[2];MPI_Status st;MPI_Init(NULL,NULL);MPI_Comm_rank(MPI_COMM_WORLD,&r);potentialCheckpoint();if(r==0){for(i=0;i<2;i++){MPI_Recv(&v,1,MPI_INT,MPI_ANY_SOURCE,MPI_ANY_TAG,MPI_COMM_WORLD,&st);s[i]=st.MPI_SOURCE;}printf("%d %d\n",s[0],s[1]);}else MPI_Send(&r,1,MPI_INT,0,0,MPI_COMM_WORLD);return 0;}⏎#pragma ccc schedule⏎t0*9@rank 0 running ops 1 bytes 0⏎rank 1 running ops 0 bytes 0⏎rank 2 running ops 0 bytes 0⏎unfinished⏎
1 plain 3@int main(void){int r,v=0,i=0,s[2];MPI_Status st;MPI_Init(NULL,NULL);MPI_Comm_rank(MPI_COMM_WORLD,&r);potentialCheckpoint();if(r==0){for(i=0;i<2;i++){MPI_Recv(&v,1,MPI_INT,MPI_ANY_SOURCE,MPI_ANY_TAG,MPI_COMM_WORLD,&st);s[i]=st.MPI_SOURCE;}printf("%d %d\n",s[0],s[1]);}else MPI_Send(&r,1,MPI_INT,0,0,MPI_COMM_WORLD);return 0;}⏎#pragma ccc schedule⏎t2*3 t1*2 t0*2@rank 0 running ops 2 bytes 0⏎rank 1 running ops 2 bytes 0⏎rank 2 ended ops 2 bytes 0⏎unfinished⏎
0 plain 2@int main(void){int r,b[3];MPI_Init(NULL,NULL);MPI_Comm_rank(MPI_COMM_WORLD,&r);if(r==0)MPI_Send(b,3,MPI_INT,1,0,MPI_COMM_WORLD);else MPI_Recv(b,2,MPI_INT,0,0,MPI_COMM_WORLD,MPI_STATUS_IGNORE);return 0;}⏎#pragma ccc schedule⏎r*9@rank 0 exit 0 bytes 0⏎rank 1 fault 111 bytes 0⏎finished⏎
1 plain 2@int main(void){int r,b[3];MPI_Init(NULL,NULL);MPI_Comm_rank(MPI_COMM_WORLD,&r);if(r==0)MPI_Send(b,3,MPI_INT,1,0,MPI_COMM_WORLD);else{MPI_Recv(b,2,MPI_INT,0,0,MPI_COMM_WORLD,MPI_STATUS_IGNORE);}while(1);}⏎#pragma ccc schedule⏎t0 t1*3@rank 0 running ops 1 bytes 0⏎rank 1 ended ops 1 bytes 0⏎unfinished⏎
1 plain 2@int main(void){int r,v=0;MPI_Init(NULL,NULL);MPI_Comm_rank(MPI_COMM_WORLD,&r);MPI_Recv(&v,1,MPI_INT,1-r,0,MPI_COMM_WORLD,MPI_STATUS_IGNORE);MPI_Send(&v,1,MPI_INT,1-r,0,MPI_COMM_WORLD);return 0;}⏎#pragma ccc schedule⏎r*3000@rank 0 running ops 0 bytes 0⏎rank 1 running ops 0 bytes 0⏎unfinished⏎
0 plain 1@int main(void){int any=MPI_ANY_SOURCE,v=3,w=0;MPI_Init(NULL,NULL);MPI_Send(&v,1,MPI_INT,0,8,MPI_COMM_WORLD);MPI_Recv(&w,1,MPI_INT,-1,8,MPI_COMM_WORLD,MPI_STATUS_IGNORE);printf("%d%d\n",any,w);return 0;}⏎#pragma ccc schedule⏎t0*4@rank 0 exit 0 bytes 4⏎-13⏎finished⏎
"#;
    assert_answers(&rt, rt.alloc(), "", table)
}
