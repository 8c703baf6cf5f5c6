//! Programs that send messages, with what MPI prints.

use crate::rows::{assert_run, unmarked};
use std::alloc::Global;
use std::process::Abort;
use std::test::Fail;

/// Each part between `§`s is a program in a line, and then lines of how many ranks run it, an `@` and what they write under the schedule.
fn assert_programs(
    rt: &impl Abort,
    alloc: Global,
    schedule: &str,
    table: &str,
) -> Result<(), Fail> {
    for part in table.split('§') {
        let (program, rows) = part.trim().split_once('\n').expect(rt, "a program");
        for line in rows.lines() {
            let (ranks, answer) = line.split_once('@').expect(rt, "a marked line");
            let answer = unmarked(alloc, answer)?;
            assert_run(rt, alloc, ranks, program, schedule, &answer)?;
        }
    }
    Ok(())
}

// The expected output is that of an MPI library, but for one rank that sends to itself.
#[test]
fn runs_programs_with_messages(rt: HostRuntime) -> Result<(), Fail> {
    let table = r#"
int main(int argc,char **argv){int r,n,t=0;MPI_Status st;MPI_Init(&argc,&argv);MPI_Comm_rank(MPI_COMM_WORLD,&r);MPI_Comm_size(MPI_COMM_WORLD,&n);if(r==0){t=100;MPI_Send(&t,1,MPI_INT,(r+1)%n,7,MPI_COMM_WORLD);MPI_Recv(&t,1,MPI_INT,(r+n-1)%n,7,MPI_COMM_WORLD,&st);printf("%d from %d\n",t,st.MPI_SOURCE);}else{MPI_Recv(&t,1,MPI_INT,r-1,7,MPI_COMM_WORLD,&st);t+=r;MPI_Send(&t,1,MPI_INT,(r+1)%n,7,MPI_COMM_WORLD);}MPI_Finalize();return 0;}
1@rank 0 exit 0 bytes 11⏎100 from 0⏎finished⏎
2@rank 0 exit 0 bytes 11⏎101 from 1⏎rank 1 exit 0 bytes 0⏎finished⏎
4@rank 0 exit 0 bytes 11⏎106 from 3⏎rank 1 exit 0 bytes 0⏎rank 2 exit 0 bytes 0⏎rank 3 exit 0 bytes 0⏎finished⏎
16@rank 0 exit 0 bytes 12⏎220 from 15⏎rank 1 exit 0 bytes 0⏎rank 2 exit 0 bytes 0⏎rank 3 exit 0 bytes 0⏎rank 4 exit 0 bytes 0⏎rank 5 exit 0 bytes 0⏎rank 6 exit 0 bytes 0⏎rank 7 exit 0 bytes 0⏎rank 8 exit 0 bytes 0⏎rank 9 exit 0 bytes 0⏎rank 10 exit 0 bytes 0⏎rank 11 exit 0 bytes 0⏎rank 12 exit 0 bytes 0⏎rank 13 exit 0 bytes 0⏎rank 14 exit 0 bytes 0⏎rank 15 exit 0 bytes 0⏎finished⏎
§
int main(void){int r,n,i;long x;MPI_Init(NULL,NULL);MPI_Comm_rank(MPI_COMM_WORLD,&r);MPI_Comm_size(MPI_COMM_WORLD,&n);for(i=0;i<5;i++){if(r==0)x=i*i;else MPI_Recv(&x,1,MPI_LONG,r-1,i,MPI_COMM_WORLD,MPI_STATUS_IGNORE);x=x*3+r;if(r<n-1)MPI_Send(&x,1,MPI_LONG,r+1,i,MPI_COMM_WORLD);else printf("%ld ",x);}if(r==n-1)printf("\n");MPI_Finalize();return 0;}
2@rank 0 exit 0 bytes 0⏎rank 1 exit 0 bytes 16⏎1 10 37 82 145 ⏎finished⏎
4@rank 0 exit 0 bytes 0⏎rank 1 exit 0 bytes 0⏎rank 2 exit 0 bytes 0⏎rank 3 exit 0 bytes 20⏎18 99 342 747 1314 ⏎finished⏎
§
int work(int k){int s=0;while(k>0){s+=k%10;k/=10;}return s;}int main(int argc,char **argv){int r,n,k,w,v,sum=0;MPI_Status st;MPI_Init(&argc,&argv);MPI_Comm_rank(MPI_COMM_WORLD,&r);MPI_Comm_size(MPI_COMM_WORLD,&n);if(r==0){for(k=0;k<9;k++){w=1+k%(n-1);v=k*37+5;MPI_Send(&v,1,MPI_INT,w,1,MPI_COMM_WORLD);}for(w=1;w<n;w++)MPI_Send(NULL,0,MPI_INT,w,2,MPI_COMM_WORLD);for(k=0;k<9;k++){w=1+k%(n-1);MPI_Recv(&v,1,MPI_INT,w,MPI_ANY_TAG,MPI_COMM_WORLD,&st);printf("%d:%d ",w,v);sum+=v;}printf("= %d\n",sum);}else{while(1){MPI_Recv(&v,1,MPI_INT,0,MPI_ANY_TAG,MPI_COMM_WORLD,&st);if(st.MPI_TAG==2)break;v=work(v);MPI_Send(&v,1,MPI_INT,0,3,MPI_COMM_WORLD);}}MPI_Finalize();return 0;}
2@rank 0 exit 0 bytes 45⏎1:5 1:6 1:16 1:8 1:9 1:10 1:11 1:12 1:4 = 81⏎rank 1 exit 0 bytes 0⏎finished⏎
4@rank 0 exit 0 bytes 45⏎1:5 2:6 3:16 1:8 2:9 3:10 1:11 2:12 3:4 = 81⏎rank 1 exit 0 bytes 0⏎rank 2 exit 0 bytes 0⏎rank 3 exit 0 bytes 0⏎finished⏎
§
int main(void){int r,n,i,mine,other,peer;MPI_Init(NULL,NULL);MPI_Comm_rank(MPI_COMM_WORLD,&r);MPI_Comm_size(MPI_COMM_WORLD,&n);mine=(r*7+3)%17;for(i=0;i<n;i++){if((r+i)%2==0)peer=r+1;else peer=r-1;if(peer<0||peer>=n)peer=MPI_PROC_NULL;other=mine;MPI_Send(&mine,1,MPI_INT,peer,i,MPI_COMM_WORLD);MPI_Recv(&other,1,MPI_INT,peer,i,MPI_COMM_WORLD,MPI_STATUS_IGNORE);if(peer>r&&other<mine)mine=other;if(peer>=0&&peer<r&&other>mine)mine=other;}printf("%d\n",mine);MPI_Finalize();return 0;}
1@rank 0 exit 0 bytes 2⏎3⏎finished⏎
4@rank 0 exit 0 bytes 2⏎0⏎rank 1 exit 0 bytes 2⏎3⏎rank 2 exit 0 bytes 2⏎7⏎rank 3 exit 0 bytes 3⏎10⏎finished⏎
16@rank 0 exit 0 bytes 2⏎0⏎rank 1 exit 0 bytes 2⏎1⏎rank 2 exit 0 bytes 2⏎2⏎rank 3 exit 0 bytes 2⏎3⏎rank 4 exit 0 bytes 2⏎4⏎rank 5 exit 0 bytes 2⏎5⏎rank 6 exit 0 bytes 2⏎6⏎rank 7 exit 0 bytes 2⏎7⏎rank 8 exit 0 bytes 2⏎8⏎rank 9 exit 0 bytes 2⏎9⏎rank 10 exit 0 bytes 3⏎10⏎rank 11 exit 0 bytes 3⏎11⏎rank 12 exit 0 bytes 3⏎12⏎rank 13 exit 0 bytes 3⏎14⏎rank 14 exit 0 bytes 3⏎15⏎rank 15 exit 0 bytes 3⏎16⏎finished⏎
§
int main(void){int r,n,d,v,o;MPI_Init(NULL,NULL);MPI_Comm_rank(MPI_COMM_WORLD,&r);MPI_Comm_size(MPI_COMM_WORLD,&n);v=r*r+1;for(d=1;d<n;d*=2){if(r%(2*d)==0){if(r+d<n){MPI_Recv(&o,1,MPI_INT,r+d,d,MPI_COMM_WORLD,MPI_STATUS_IGNORE);v+=o;}}else{MPI_Send(&v,1,MPI_INT,r-d,d,MPI_COMM_WORLD);break;}}if(r==0)printf("%d\n",v);MPI_Finalize();return v%100;}
1@rank 0 exit 1 bytes 2⏎1⏎finished⏎
4@rank 0 exit 18 bytes 3⏎18⏎rank 1 exit 2 bytes 0⏎rank 2 exit 15 bytes 0⏎rank 3 exit 10 bytes 0⏎finished⏎
16@rank 0 exit 56 bytes 5⏎1256⏎rank 1 exit 2 bytes 0⏎rank 2 exit 15 bytes 0⏎rank 3 exit 10 bytes 0⏎rank 4 exit 30 bytes 0⏎rank 5 exit 26 bytes 0⏎rank 6 exit 87 bytes 0⏎rank 7 exit 50 bytes 0⏎rank 8 exit 8 bytes 0⏎rank 9 exit 82 bytes 0⏎rank 10 exit 23 bytes 0⏎rank 11 exit 22 bytes 0⏎rank 12 exit 38 bytes 0⏎rank 13 exit 70 bytes 0⏎rank 14 exit 23 bytes 0⏎rank 15 exit 26 bytes 0⏎finished⏎
§
int main(int argc,char **argv){int r,n,i,t;MPI_Status st;MPI_Init(&argc,&argv);MPI_Comm_rank(MPI_COMM_WORLD,&r);MPI_Comm_size(MPI_COMM_WORLD,&n);int left=r>0?r-1:MPI_PROC_NULL;int right=r<n-1?r+1:MPI_PROC_NULL;long *u=(long*)malloc(4*sizeof(long));long a,b;for(i=0;i<4;i++)u[i]=0;for(i=1;i<=2;i++)u[i]=10*r+i;for(t=0;t<3;t++){MPI_Send(&u[1],1,MPI_LONG,left,1,MPI_COMM_WORLD);MPI_Send(&u[2],1,MPI_LONG,right,2,MPI_COMM_WORLD);MPI_Recv(&u[0],1,MPI_LONG,left,2,MPI_COMM_WORLD,&st);MPI_Recv(&u[3],1,MPI_LONG,right,1,MPI_COMM_WORLD,&st);a=u[0]+u[2];b=u[1]+u[3];u[1]=a;u[2]=b;}printf("%ld %ld\n",u[1],u[2]);free(u);MPI_Finalize();return 0;}
1@rank 0 exit 0 bytes 4⏎2 1⏎finished⏎
2@rank 0 exit 0 bytes 6⏎16 35⏎rank 1 exit 0 bytes 6⏎30 23⏎finished⏎
4@rank 0 exit 0 bytes 6⏎16 56⏎rank 1 exit 0 bytes 7⏎64 128⏎rank 2 exit 0 bytes 8⏎136 167⏎rank 3 exit 0 bytes 7⏎142 83⏎finished⏎
16@rank 0 exit 0 bytes 6⏎16 56⏎rank 1 exit 0 bytes 7⏎64 128⏎rank 2 exit 0 bytes 8⏎136 208⏎rank 3 exit 0 bytes 8⏎216 288⏎rank 4 exit 0 bytes 8⏎296 368⏎rank 5 exit 0 bytes 8⏎376 448⏎rank 6 exit 0 bytes 8⏎456 528⏎rank 7 exit 0 bytes 8⏎536 608⏎rank 8 exit 0 bytes 8⏎616 688⏎rank 9 exit 0 bytes 8⏎696 768⏎rank 10 exit 0 bytes 8⏎776 848⏎rank 11 exit 0 bytes 8⏎856 928⏎rank 12 exit 0 bytes 9⏎936 1008⏎rank 13 exit 0 bytes 10⏎1016 1088⏎rank 14 exit 0 bytes 10⏎1096 1007⏎rank 15 exit 0 bytes 8⏎862 443⏎finished⏎
§
int main(void){int r,n,d,i;char s[6];MPI_Init(NULL,NULL);MPI_Comm_rank(MPI_COMM_WORLD,&r);MPI_Comm_size(MPI_COMM_WORLD,&n);for(i=0;i<6;i++)s[i]='-';if(r==0){s[0]='h';s[1]='e';s[2]='l';s[3]='l';s[4]='o';s[5]='\0';}d=1;while(d<n)d*=2;for(d=d/2;d>0;d/=2){if(r%(2*d)==0){if(r+d<n)MPI_Send(s,6,MPI_CHAR,r+d,0,MPI_COMM_WORLD);}else if(r%(2*d)==d)MPI_Recv(s,6,MPI_CHAR,r-d,0,MPI_COMM_WORLD,MPI_STATUS_IGNORE);}for(i=0;s[i];i++)printf("%c",s[i]);printf(" %d\n",r);MPI_Finalize();return 0;}
2@rank 0 exit 0 bytes 8⏎hello 0⏎rank 1 exit 0 bytes 8⏎hello 1⏎finished⏎
4@rank 0 exit 0 bytes 8⏎hello 0⏎rank 1 exit 0 bytes 8⏎hello 1⏎rank 2 exit 0 bytes 8⏎hello 2⏎rank 3 exit 0 bytes 8⏎hello 3⏎finished⏎
§
int main(void){int r,n,i,j,k;int a[6][3],x[3],row[3];int y;MPI_Status st;MPI_Init(NULL,NULL);MPI_Comm_rank(MPI_COMM_WORLD,&r);MPI_Comm_size(MPI_COMM_WORLD,&n);for(j=0;j<3;j++)x[j]=j+1;if(r==0){for(i=0;i<6;i++)for(j=0;j<3;j++)a[i][j]=i*j-i;for(i=0;i<6;i++)MPI_Send(a[i],3,MPI_INT,1+i%(n-1),i,MPI_COMM_WORLD);for(i=0;i<6;i++){MPI_Recv(&y,1,MPI_INT,1+i%(n-1),i,MPI_COMM_WORLD,MPI_STATUS_IGNORE);printf("%d ",y);}printf("\n");}else{for(i=r-1;i<6;i+=n-1){MPI_Recv(row,3,MPI_INT,0,MPI_ANY_TAG,MPI_COMM_WORLD,&st);y=0;for(k=0;k<3;k++)y+=row[k]*x[k];MPI_Send(&y,1,MPI_INT,0,st.MPI_TAG,MPI_COMM_WORLD);}}MPI_Finalize();return 0;}
2@rank 0 exit 0 bytes 14⏎0 2 4 6 8 10 ⏎rank 1 exit 0 bytes 0⏎finished⏎
4@rank 0 exit 0 bytes 14⏎0 2 4 6 8 10 ⏎rank 1 exit 0 bytes 0⏎rank 2 exit 0 bytes 0⏎rank 3 exit 0 bytes 0⏎finished⏎
§
int main(void){int r,n,d;long v,o;MPI_Init(NULL,NULL);MPI_Comm_rank(MPI_COMM_WORLD,&r);MPI_Comm_size(MPI_COMM_WORLD,&n);v=r+1;for(d=1;d<n;d*=2){if(r+d<n)MPI_Send(&v,1,MPI_LONG,r+d,d,MPI_COMM_WORLD);if(r-d>=0){MPI_Recv(&o,1,MPI_LONG,r-d,d,MPI_COMM_WORLD,MPI_STATUS_IGNORE);v+=o;}}printf("%ld\n",v);MPI_Finalize();return 0;}
2@rank 0 exit 0 bytes 2⏎1⏎rank 1 exit 0 bytes 2⏎3⏎finished⏎
4@rank 0 exit 0 bytes 2⏎1⏎rank 1 exit 0 bytes 2⏎3⏎rank 2 exit 0 bytes 2⏎6⏎rank 3 exit 0 bytes 3⏎10⏎finished⏎
§
int main(void){int r,a,b,c;MPI_Status st;MPI_Init(NULL,NULL);MPI_Comm_rank(MPI_COMM_WORLD,&r);if(r==0){a=1;MPI_Send(&a,1,MPI_INT,1,5,MPI_COMM_WORLD);a=2;MPI_Send(&a,1,MPI_INT,1,6,MPI_COMM_WORLD);a=3;MPI_Send(&a,1,MPI_INT,1,5,MPI_COMM_WORLD);}else{MPI_Recv(&a,1,MPI_INT,0,6,MPI_COMM_WORLD,&st);MPI_Recv(&b,1,MPI_INT,0,MPI_ANY_TAG,MPI_COMM_WORLD,&st);MPI_Recv(&c,1,MPI_INT,0,5,MPI_COMM_WORLD,&st);printf("%d%d%d\n",a,b,c);}MPI_Finalize();return 0;}
2@rank 0 exit 0 bytes 0⏎rank 1 exit 0 bytes 4⏎213⏎finished⏎
§
int main(void){int r,n,i,c,b[8];long l[2];MPI_Status st;MPI_Init(NULL,NULL);MPI_Comm_rank(MPI_COMM_WORLD,&r);MPI_Comm_size(MPI_COMM_WORLD,&n);for(i=0;i<8;i++)b[i]=10*r+i;if(r>0){MPI_Send(b+1,r,MPI_INT,0,20+r,MPI_COMM_WORLD);l[0]=r;MPI_Send(l,1,MPI_LONG,0,40,MPI_COMM_WORLD);}else for(i=1;i<n;i++){MPI_Recv(b,8,MPI_INT,i,MPI_ANY_TAG,MPI_COMM_WORLD,&st);MPI_Get_count(&st,MPI_INT,&c);printf("%d %d %d:",st.MPI_SOURCE,st.MPI_TAG,c);for(int j=0;j<=c;j++)printf(" %d",b[j]);printf("\n");MPI_Recv(l,2,MPI_LONG,i,40,MPI_COMM_WORLD,&st);MPI_Get_count(&st,MPI_LONG,&c);printf("%d %ld\n",c,l[0]);}MPI_Finalize();return 0;}
2@rank 0 exit 0 bytes 17⏎1 21 1: 11 1⏎1 1⏎rank 1 exit 0 bytes 0⏎finished⏎
4@rank 0 exit 0 bytes 60⏎1 21 1: 11 1⏎1 1⏎2 22 2: 21 22 2⏎1 2⏎3 23 3: 31 32 33 3⏎1 3⏎rank 1 exit 0 bytes 0⏎rank 2 exit 0 bytes 0⏎rank 3 exit 0 bytes 0⏎finished⏎
§
int main(void){int r,n,c,i;char s[20];MPI_Status st;MPI_Init(NULL,NULL);MPI_Comm_rank(MPI_COMM_WORLD,&r);MPI_Comm_size(MPI_COMM_WORLD,&n);c=0;if(r>0){MPI_Recv(s,20,MPI_CHAR,r-1,0,MPI_COMM_WORLD,&st);MPI_Get_count(&st,MPI_CHAR,&c);}for(i=0;i<=r%3;i++){s[c]='a'+r;c++;}if(r<n-1)MPI_Send(s,c,MPI_CHAR,r+1,0,MPI_COMM_WORLD);else{for(i=0;i<c;i++)printf("%c",s[i]);printf("\n");}MPI_Finalize();return 0;}
1@rank 0 exit 0 bytes 2⏎a⏎finished⏎
4@rank 0 exit 0 bytes 0⏎rank 1 exit 0 bytes 0⏎rank 2 exit 0 bytes 0⏎rank 3 exit 0 bytes 8⏎abbcccd⏎finished⏎
§
int main(void){int r,n,i,*out,*in;MPI_Init(NULL,NULL);MPI_Comm_rank(MPI_COMM_WORLD,&r);MPI_Comm_size(MPI_COMM_WORLD,&n);out=malloc(n*sizeof(int));in=malloc(n*sizeof(int));for(i=0;i<n;i++)out[i]=100*r+i;for(i=0;i<n;i++)MPI_Send(&out[i],1,MPI_INT,i,0,MPI_COMM_WORLD);for(i=n-1;i>=0;i--)MPI_Recv(&in[i],1,MPI_INT,i,0,MPI_COMM_WORLD,MPI_STATUS_IGNORE);for(i=0;i<n;i++)printf("%d ",in[i]);printf("\n");free(in);free(out);MPI_Finalize();return 0;}
1@rank 0 exit 0 bytes 3⏎0 ⏎finished⏎
4@rank 0 exit 0 bytes 15⏎0 100 200 300 ⏎rank 1 exit 0 bytes 15⏎1 101 201 301 ⏎rank 2 exit 0 bytes 15⏎2 102 202 302 ⏎rank 3 exit 0 bytes 15⏎3 103 203 303 ⏎finished⏎
§
int main(void){int r,n,x,mine=0;MPI_Init(NULL,NULL);MPI_Comm_rank(MPI_COMM_WORLD,&r);MPI_Comm_size(MPI_COMM_WORLD,&n);if(r==0){for(x=2;x<30;x++)MPI_Send(&x,1,MPI_INT,1,0,MPI_COMM_WORLD);x=0;MPI_Send(&x,1,MPI_INT,1,0,MPI_COMM_WORLD);}else{while(1){MPI_Recv(&x,1,MPI_INT,r-1,0,MPI_COMM_WORLD,MPI_STATUS_IGNORE);if(x!=0&&mine==0){mine=x;printf("%d:",mine);continue;}if(x!=0&&x%mine==0)continue;if(r<n-1)MPI_Send(&x,1,MPI_INT,r+1,0,MPI_COMM_WORLD);else if(x!=0)printf(" %d",x);if(x==0)break;}printf("\n");}MPI_Finalize();return 0;}
4@rank 0 exit 0 bytes 0⏎rank 1 exit 0 bytes 3⏎2:⏎rank 2 exit 0 bytes 3⏎3:⏎rank 3 exit 0 bytes 23⏎5: 7 11 13 17 19 23 29⏎finished⏎
§
int main(void){int r,n,i,v,s=0,seen[16];MPI_Status st;MPI_Init(NULL,NULL);MPI_Comm_rank(MPI_COMM_WORLD,&r);MPI_Comm_size(MPI_COMM_WORLD,&n);if(r==0){for(i=0;i<n;i++)seen[i]=0;for(i=1;i<n;i++){MPI_Recv(&v,1,MPI_INT,MPI_ANY_SOURCE,MPI_ANY_TAG,MPI_COMM_WORLD,&st);s+=v;seen[st.MPI_SOURCE]+=st.MPI_TAG;}for(i=0;i<n;i++)printf("%d ",seen[i]);printf("%d\n",s);}else{v=r*r;MPI_Send(&v,1,MPI_INT,0,r+1,MPI_COMM_WORLD);}MPI_Finalize();return 0;}
2@rank 0 exit 0 bytes 6⏎0 2 1⏎rank 1 exit 0 bytes 0⏎finished⏎
4@rank 0 exit 0 bytes 11⏎0 2 3 4 14⏎rank 1 exit 0 bytes 0⏎rank 2 exit 0 bytes 0⏎rank 3 exit 0 bytes 0⏎finished⏎
§
struct cell{int alive;int next;};int main(void){int r,n,g,i,l,h;struct cell c[8];int up[2],down[2];MPI_Init(NULL,NULL);MPI_Comm_rank(MPI_COMM_WORLD,&r);MPI_Comm_size(MPI_COMM_WORLD,&n);for(i=0;i<8;i++){c[i].alive=(r+i*i)%3==0;c[i].next=0;}for(g=0;g<4;g++){l=(r+n-1)%n;h=(r+1)%n;MPI_Send(&c[0].alive,1,MPI_INT,l,g,MPI_COMM_WORLD);MPI_Send(&c[7].alive,1,MPI_INT,h,g,MPI_COMM_WORLD);MPI_Recv(&down[0],1,MPI_INT,l,g,MPI_COMM_WORLD,MPI_STATUS_IGNORE);MPI_Recv(&up[1],1,MPI_INT,h,g,MPI_COMM_WORLD,MPI_STATUS_IGNORE);for(i=0;i<8;i++){int a=i>0?c[i-1].alive:down[0];int b=i<7?c[i+1].alive:up[1];c[i].next=a!=b;}for(i=0;i<8;i++)c[i].alive=c[i].next;}for(i=0;i<8;i++)printf("%d",c[i].alive);printf("\n");MPI_Finalize();return 0;}
4@rank 0 exit 0 bytes 9⏎00001001⏎rank 1 exit 0 bytes 9⏎00100110⏎rank 2 exit 0 bytes 9⏎11011111⏎rank 3 exit 0 bytes 9⏎11110000⏎finished⏎
§
int main(void){int r,a=1071,b=462,k=0,x[2];MPI_Init(NULL,NULL);MPI_Comm_rank(MPI_COMM_WORLD,&r);if(r==0){x[0]=a;x[1]=b;MPI_Send(x,2,MPI_INT,1,0,MPI_COMM_WORLD);}while(1){MPI_Recv(x,2,MPI_INT,1-r,0,MPI_COMM_WORLD,MPI_STATUS_IGNORE);k++;if(x[1]==0){if(x[0]>0){printf("%d\n",x[0]);x[0]=-1;MPI_Send(x,2,MPI_INT,1-r,0,MPI_COMM_WORLD);}break;}int t=x[0]%x[1];x[0]=x[1];x[1]=t;MPI_Send(x,2,MPI_INT,1-r,0,MPI_COMM_WORLD);}MPI_Finalize();return k;}
2@rank 0 exit 2 bytes 3⏎21⏎rank 1 exit 3 bytes 0⏎finished⏎
"#;
    assert_programs(&rt, rt.alloc(), "", table)
}

#[test]
fn schedules_agree(rt: HostRuntime) -> Result<(), Fail> {
    let table = r#"
int main(int argc,char **argv){int r,n,t=0;MPI_Status st;MPI_Init(&argc,&argv);MPI_Comm_rank(MPI_COMM_WORLD,&r);MPI_Comm_size(MPI_COMM_WORLD,&n);if(r==0){t=100;MPI_Send(&t,1,MPI_INT,(r+1)%n,7,MPI_COMM_WORLD);MPI_Recv(&t,1,MPI_INT,(r+n-1)%n,7,MPI_COMM_WORLD,&st);printf("%d from %d\n",t,st.MPI_SOURCE);}else{MPI_Recv(&t,1,MPI_INT,r-1,7,MPI_COMM_WORLD,&st);t+=r;MPI_Send(&t,1,MPI_INT,(r+1)%n,7,MPI_COMM_WORLD);}MPI_Finalize();return 0;}
4@rank 0 exit 0 bytes 11⏎106 from 3⏎rank 1 exit 0 bytes 0⏎rank 2 exit 0 bytes 0⏎rank 3 exit 0 bytes 0⏎finished⏎
§
int main(void){int r,n,i;long x;MPI_Init(NULL,NULL);MPI_Comm_rank(MPI_COMM_WORLD,&r);MPI_Comm_size(MPI_COMM_WORLD,&n);for(i=0;i<5;i++){if(r==0)x=i*i;else MPI_Recv(&x,1,MPI_LONG,r-1,i,MPI_COMM_WORLD,MPI_STATUS_IGNORE);x=x*3+r;if(r<n-1)MPI_Send(&x,1,MPI_LONG,r+1,i,MPI_COMM_WORLD);else printf("%ld ",x);}if(r==n-1)printf("\n");MPI_Finalize();return 0;}
4@rank 0 exit 0 bytes 0⏎rank 1 exit 0 bytes 0⏎rank 2 exit 0 bytes 0⏎rank 3 exit 0 bytes 20⏎18 99 342 747 1314 ⏎finished⏎
§
int work(int k){int s=0;while(k>0){s+=k%10;k/=10;}return s;}int main(int argc,char **argv){int r,n,k,w,v,sum=0;MPI_Status st;MPI_Init(&argc,&argv);MPI_Comm_rank(MPI_COMM_WORLD,&r);MPI_Comm_size(MPI_COMM_WORLD,&n);if(r==0){for(k=0;k<9;k++){w=1+k%(n-1);v=k*37+5;MPI_Send(&v,1,MPI_INT,w,1,MPI_COMM_WORLD);}for(w=1;w<n;w++)MPI_Send(NULL,0,MPI_INT,w,2,MPI_COMM_WORLD);for(k=0;k<9;k++){w=1+k%(n-1);MPI_Recv(&v,1,MPI_INT,w,MPI_ANY_TAG,MPI_COMM_WORLD,&st);printf("%d:%d ",w,v);sum+=v;}printf("= %d\n",sum);}else{while(1){MPI_Recv(&v,1,MPI_INT,0,MPI_ANY_TAG,MPI_COMM_WORLD,&st);if(st.MPI_TAG==2)break;v=work(v);MPI_Send(&v,1,MPI_INT,0,3,MPI_COMM_WORLD);}}MPI_Finalize();return 0;}
4@rank 0 exit 0 bytes 45⏎1:5 2:6 3:16 1:8 2:9 3:10 1:11 2:12 3:4 = 81⏎rank 1 exit 0 bytes 0⏎rank 2 exit 0 bytes 0⏎rank 3 exit 0 bytes 0⏎finished⏎
§
int main(void){int r,n,i,mine,other,peer;MPI_Init(NULL,NULL);MPI_Comm_rank(MPI_COMM_WORLD,&r);MPI_Comm_size(MPI_COMM_WORLD,&n);mine=(r*7+3)%17;for(i=0;i<n;i++){if((r+i)%2==0)peer=r+1;else peer=r-1;if(peer<0||peer>=n)peer=MPI_PROC_NULL;other=mine;MPI_Send(&mine,1,MPI_INT,peer,i,MPI_COMM_WORLD);MPI_Recv(&other,1,MPI_INT,peer,i,MPI_COMM_WORLD,MPI_STATUS_IGNORE);if(peer>r&&other<mine)mine=other;if(peer>=0&&peer<r&&other>mine)mine=other;}printf("%d\n",mine);MPI_Finalize();return 0;}
4@rank 0 exit 0 bytes 2⏎0⏎rank 1 exit 0 bytes 2⏎3⏎rank 2 exit 0 bytes 2⏎7⏎rank 3 exit 0 bytes 3⏎10⏎finished⏎
§
int main(int argc,char **argv){int r,n,i,t;MPI_Status st;MPI_Init(&argc,&argv);MPI_Comm_rank(MPI_COMM_WORLD,&r);MPI_Comm_size(MPI_COMM_WORLD,&n);int left=r>0?r-1:MPI_PROC_NULL;int right=r<n-1?r+1:MPI_PROC_NULL;long *u=(long*)malloc(4*sizeof(long));long a,b;for(i=0;i<4;i++)u[i]=0;for(i=1;i<=2;i++)u[i]=10*r+i;for(t=0;t<3;t++){MPI_Send(&u[1],1,MPI_LONG,left,1,MPI_COMM_WORLD);MPI_Send(&u[2],1,MPI_LONG,right,2,MPI_COMM_WORLD);MPI_Recv(&u[0],1,MPI_LONG,left,2,MPI_COMM_WORLD,&st);MPI_Recv(&u[3],1,MPI_LONG,right,1,MPI_COMM_WORLD,&st);a=u[0]+u[2];b=u[1]+u[3];u[1]=a;u[2]=b;}printf("%ld %ld\n",u[1],u[2]);free(u);MPI_Finalize();return 0;}
4@rank 0 exit 0 bytes 6⏎16 56⏎rank 1 exit 0 bytes 7⏎64 128⏎rank 2 exit 0 bytes 8⏎136 167⏎rank 3 exit 0 bytes 7⏎142 83⏎finished⏎
§
int main(void){int r,n,x,mine=0;MPI_Init(NULL,NULL);MPI_Comm_rank(MPI_COMM_WORLD,&r);MPI_Comm_size(MPI_COMM_WORLD,&n);if(r==0){for(x=2;x<30;x++)MPI_Send(&x,1,MPI_INT,1,0,MPI_COMM_WORLD);x=0;MPI_Send(&x,1,MPI_INT,1,0,MPI_COMM_WORLD);}else{while(1){MPI_Recv(&x,1,MPI_INT,r-1,0,MPI_COMM_WORLD,MPI_STATUS_IGNORE);if(x!=0&&mine==0){mine=x;printf("%d:",mine);continue;}if(x!=0&&x%mine==0)continue;if(r<n-1)MPI_Send(&x,1,MPI_INT,r+1,0,MPI_COMM_WORLD);else if(x!=0)printf(" %d",x);if(x==0)break;}printf("\n");}MPI_Finalize();return 0;}
4@rank 0 exit 0 bytes 0⏎rank 1 exit 0 bytes 3⏎2:⏎rank 2 exit 0 bytes 3⏎3:⏎rank 3 exit 0 bytes 23⏎5: 7 11 13 17 19 23 29⏎finished⏎
§
int main(void){int r,n,i,c,b[8];long l[2];MPI_Status st;MPI_Init(NULL,NULL);MPI_Comm_rank(MPI_COMM_WORLD,&r);MPI_Comm_size(MPI_COMM_WORLD,&n);for(i=0;i<8;i++)b[i]=10*r+i;if(r>0){MPI_Send(b+1,r,MPI_INT,0,20+r,MPI_COMM_WORLD);l[0]=r;MPI_Send(l,1,MPI_LONG,0,40,MPI_COMM_WORLD);}else for(i=1;i<n;i++){MPI_Recv(b,8,MPI_INT,i,MPI_ANY_TAG,MPI_COMM_WORLD,&st);MPI_Get_count(&st,MPI_INT,&c);printf("%d %d %d:",st.MPI_SOURCE,st.MPI_TAG,c);for(int j=0;j<=c;j++)printf(" %d",b[j]);printf("\n");MPI_Recv(l,2,MPI_LONG,i,40,MPI_COMM_WORLD,&st);MPI_Get_count(&st,MPI_LONG,&c);printf("%d %ld\n",c,l[0]);}MPI_Finalize();return 0;}
4@rank 0 exit 0 bytes 60⏎1 21 1: 11 1⏎1 1⏎2 22 2: 21 22 2⏎1 2⏎3 23 3: 31 32 33 3⏎1 3⏎rank 1 exit 0 bytes 0⏎rank 2 exit 0 bytes 0⏎rank 3 exit 0 bytes 0⏎finished⏎
§
int main(void){int r,n,i,*out,*in;MPI_Init(NULL,NULL);MPI_Comm_rank(MPI_COMM_WORLD,&r);MPI_Comm_size(MPI_COMM_WORLD,&n);out=malloc(n*sizeof(int));in=malloc(n*sizeof(int));for(i=0;i<n;i++)out[i]=100*r+i;for(i=0;i<n;i++)MPI_Send(&out[i],1,MPI_INT,i,0,MPI_COMM_WORLD);for(i=n-1;i>=0;i--)MPI_Recv(&in[i],1,MPI_INT,i,0,MPI_COMM_WORLD,MPI_STATUS_IGNORE);for(i=0;i<n;i++)printf("%d ",in[i]);printf("\n");free(in);free(out);MPI_Finalize();return 0;}
4@rank 0 exit 0 bytes 15⏎0 100 200 300 ⏎rank 1 exit 0 bytes 15⏎1 101 201 301 ⏎rank 2 exit 0 bytes 15⏎2 102 202 302 ⏎rank 3 exit 0 bytes 15⏎3 103 203 303 ⏎finished⏎
"#;
    let schedules = r#"
t3*40 t2*40 t1*40 t0*40 r*300
s w t2*3 x k1 t1*2 d0>1 t0 r*400
t0*500 t1*500 t2*500 t3*500 t0*500 t1*500 t2*500 t3*500 t3*500 t2*500 t1*500 t0*500 r*200
"#;
    for words in schedules.trim().lines() {
        let schedule = format!(in rt.alloc(); "\n#pragma ccc schedule\n{words}")?;
        assert_programs(&rt, rt.alloc(), &schedule, table)?;
    }
    Ok(())
}
