//! Programs of one rank without pointers.

use crate::rows::{assert_run, assert_runs};
use std::test::Fail;

// The expected output is that of gcc.
#[test]
fn runs_programs(rt: HostRuntime) -> Result<(), Fail> {
    let table = r#"
int fib(int n){int a=0,b=1,t;while(n>0){t=a+b;a=b;b=t;n--;}return a;}int main(void){int r=fib(40);printf("%d\n",r);return 7;}@rank 0 exit 7 bytes 10⏎102334155⏎finished⏎
int gcd(int a,int b){int r;if(b==0)return a;r=gcd(b,a%b);return r;}int main(void){int g=gcd(1071,462);printf("%d %d\n",g,1071/g);return g;}@rank 0 exit 21 bytes 6⏎21 51⏎finished⏎
int main(void){int n=0;for(int i=2;i<100;i++){int p=1;for(int j=2;j*j<=i;j++)if(i%j==0){p=0;break;}if(p){n++;printf("%d ",i);}}printf("\n%d\n",n);return n;}@rank 0 exit 25 bytes 75⏎2 3 5 7 11 13 17 19 23 29 31 37 41 43 47 53 59 61 67 71 73 79 83 89 97 ⏎25⏎finished⏎
int main(void){long n=27,m=27;int k=0;while(n!=1){if(n%2)n=3*n+1;else n=n/2;if(n>m)m=n;k++;}printf("%d %ld\n",k,m);return 0;}@rank 0 exit 0 bytes 9⏎111 9232⏎finished⏎
int main(void){char c=127;int i;c++;i=c;printf("%d %c%c%d\n",i,65,(char)322,(char)200);c=300;printf("%d\n",c);return c;}@rank 0 exit 44 bytes 14⏎-128 AB-56⏎44⏎finished⏎
int main(void){int x=1;{int x=2;{int x=3;printf("%d",x);}printf("%d",x);x=9;}printf("%d\n",x);return x;}@rank 0 exit 1 bytes 4⏎321⏎finished⏎
int main(void){int i,s=0;for(i=0;i<10;i++){if(i==3)continue;if(i==8)break;s+=i;}do{s--;if(s%5==0)continue;}while(s>20);printf("%d %d\n",i,s);return s;}@rank 0 exit 20 bytes 5⏎8 20⏎finished⏎
int f(int n){printf("f%d ",n);return n;}int main(void){int a=0,b=1,c;c=a&&b/a;c+=b||1/a;a=f(0);printf("%d %d\n",c,a||!b);return a?1:b?2:3;}@rank 0 exit 2 bytes 7⏎f0 1 0⏎finished⏎
int main(void){printf("%d %d %d %d\n",-7/2,-7%2,7/-2,7%-2);printf("%d %d %d\n",-8>>1,1<<30,-1>>31);printf("%d %d %d %d\n",12&10,12|3,12^10,~12);return 0;}@rank 0 exit 0 bytes 39⏎-3 -1 -3 1⏎-4 1073741824 -1⏎8 15 6 -13⏎finished⏎
int main(void){long a=1L<<40,b=a*1000+7;int i=5;printf("%ld %ld %ld\n",a,b%1000,b/a+i);printf("%d\n",(int)(a+i));return (int)(b>>38);}@rank 0 exit 4000 bytes 23⏎1099511627776 7 1005⏎5⏎finished⏎
int main(void){int x=5;x+=3;x*=2;x-=1;x/=2;x%=5;x<<=4;x>>=1;x|=3;x&=18;x^=7;printf("%d\n",x);return x;}@rank 0 exit 21 bytes 3⏎21⏎finished⏎
int even(int n);int odd(int n){int r;if(n==0)return 0;r=even(n-1);return r;}int even(int n){int r;if(n==0)return 1;r=odd(n-1);return r;}int main(void){int r=odd(101);printf("%d\n",r);return r;}@rank 0 exit 1 bytes 2⏎1⏎finished⏎
void hello(int n){while(n-1>=0){printf("hi%% ");n=n-1;}}int main(void){hello(3);printf("\t\\\"\n");return 0;}@rank 0 exit 0 bytes 16⏎hi% hi% hi% ⇥\"⏎finished⏎
int main(void){int a=3,b=4,c=5;printf("%d%d%d%d%d%d",a<b,a>b,b<=4,b>=5,a==3,c!=5);printf("%d\n",(a<b)==(b<c));return !a+!!b;}@rank 0 exit 1 bytes 8⏎1010101⏎finished⏎
int main(void){int t=0;for(int i=0;i<5;++i)for(int j=i;j<5;++j)if((i+j)%3==0)t+=i*j;else if((i+j)%3==1)t-=j;else;printf("%d\n",t);return t;}@rank 0 exit 5 bytes 2⏎5⏎finished⏎
int ack(int m,int n){int r;if(m==0)return n+1;if(n==0){r=ack(m-1,1);return r;}r=ack(m,n-1);r=ack(m-1,r);return r;}int main(void){int r=ack(2,3);printf("%d\n",r);return r;}@rank 0 exit 9 bytes 2⏎9⏎finished⏎
int pow_(int b,int e){int r=1;for(;e;e--)r*=b;return r;}int main(void){int i;for(i=0;i<8;i++){int p=pow_(3,i);printf("%d,",p);}printf("\n");return 0;}@rank 0 exit 0 bytes 26⏎1,3,9,27,81,243,729,2187,⏎finished⏎
int main(void){int i=0;for(;;){if(i==4)break;i++;{int k=i*i;if(k%2)continue;printf("%d ",k);}}printf("\n");return i;}@rank 0 exit 4 bytes 6⏎4 16 ⏎finished⏎
int main(void){int z=1;{int z=7;z++;}z=z+1;printf("%d\n",z+3);return z;}@rank 0 exit 2 bytes 2⏎5⏎finished⏎
int main(void){return 300;}@rank 0 exit 300 bytes 0⏎finished⏎
int main(void){return -1;}@rank 0 exit -1 bytes 0⏎finished⏎
long big(void){return 9223372036854775807;}int main(void){long b=big();int m=-2147483647-1;printf("%ld %d\n",b,m);return 0;}@rank 0 exit 0 bytes 32⏎9223372036854775807 -2147483648⏎finished⏎
int main(void){char a=100,b=100;int s=a+b;char d=a+b;printf("%d %d\n",s,d);return sizeof(int)+sizeof(long)+sizeof(char)-13;}@rank 0 exit 0 bytes 8⏎200 -56⏎finished⏎
int main(void){potentialCheckpoint();printf("a");potentialCheckpoint();printf("b\n");return 0;}@rank 0 exit 0 bytes 3⏎ab⏎finished⏎
int main(void){int i=0;do{if(i==3)break;i++;}while(1);while(i<9){i+=2;if(i%2)continue;i++;}printf("%d\n",i);return i;}@rank 0 exit 9 bytes 2⏎9⏎finished⏎
int main(void){for(char c=97;c<=102;c++)printf("%c%d%c",c,c-97,c==102?10:44);return 0;}@rank 0 exit 0 bytes 18⏎a0,b1,c2,d3,e4,f5⏎finished⏎
long mul(long a,long b){return a*b;}int main(void){long p=1;for(int i=1;i<=20;i++)p=mul(p,i);printf("%ld\n",p);return (int)(p%1000007);}@rank 0 exit 794133 bytes 20⏎2432902008176640000⏎finished⏎
int sign(int n){return n<0?-1:n>0?1:0;}int main(void){int a=sign(-5),b=sign(0),c=sign(9);printf("%d%d%d\n",a,b,c);return a+b+c;}@rank 0 exit 0 bytes 5⏎-101⏎finished⏎
int main(void){int n=5;while(n){int k=n;while(k){printf("*");k--;}printf("\n");n-=2;if(n<0)break;}return n;}@rank 0 exit -1 bytes 12⏎*****⏎***⏎*⏎finished⏎
int digits(long n){int k=0;do{k++;n/=10;}while(n!=0);return k;}int main(void){int a=digits(0),b=digits(-123456789012),c=digits(99);printf("%d %d %d\n",a,b,c);return a*100+b*10+c;}@rank 0 exit 222 bytes 7⏎1 12 2⏎finished⏎
"#;
    assert_runs(&rt, rt.alloc(), table)
}

// Overflow and a full stack, by hand.
#[test]
fn programs_end_with_faults(rt: HostRuntime) -> Result<(), Fail> {
    let table = r#"
int main(void){int x=2147483647;x=x+1;return x;}@rank 0 fault 105 bytes 0⏎finished⏎
int main(void){int a=-7,b=0;printf("%d %d\n",a/2,a%2);return a/b;}@rank 0 fault 106 bytes 6⏎-3 -1⏎finished⏎
int main(void){int n=32;return 1<<n;}@rank 0 fault 107 bytes 0⏎finished⏎
int down(int n){int r=0;if(n==0){potentialCheckpoint();return 1;}r=down(n-1);return r+n;}int main(void){int s=down(2729);printf("%d\n",s);return 0;}@rank 0 exit 0 bytes 8⏎3725086⏎finished⏎
int down(int n){int r=0;if(n==0){potentialCheckpoint();return 1;}r=down(n-1);return r+n;}int main(void){int s=down(2730);printf("%d\n",s);return 0;}@rank 0 fault 108 bytes 0⏎finished⏎
"#;
    assert_runs(&rt, rt.alloc(), table)
}

#[test]
fn two_ranks_run_one_program(rt: HostRuntime) -> Result<(), Fail> {
    let input = r#"int main(void){int x=7;printf("%d\n",x);return 0;}"#;
    let answer = "rank 0 exit 0 bytes 2\n7\nrank 1 exit 0 bytes 2\n7\nfinished\n";
    assert_run(&rt, rt.alloc(), "2", input, "", answer)
}
