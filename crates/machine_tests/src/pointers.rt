//! Pointers, arrays, structs and the heap: programs with what gcc prints, and the meaning that C leaves open.

use crate::rows::assert_runs;
use crate::team::written;
use std::test::Fail;

// Standard programs. The expected output is that of gcc.
#[test]
fn runs_programs_with_pointers(rt: HostRuntime) -> Result<(), Fail> {
    let table = r#"
struct node{int v;struct node *next;};int main(void){struct node *head=NULL;for(int i=0;i<5;i++){struct node *n=malloc(sizeof(struct node));n->v=i*i;n->next=head;head=n;}int s=0;while(head!=NULL){struct node *t=head->next;printf("%d ",head->v);s+=head->v;free(head);head=t;}printf("\n");return s;}@rank 0 exit 30 bytes 12⏎16 9 4 1 0 ⏎finished⏎
struct node{int v;struct node *next;};struct node *rev(struct node *p){struct node *r=NULL,*t;while(p){t=p->next;p->next=r;r=p;p=t;}return r;}int main(void){struct node a[4];for(int i=0;i<4;i++){a[i].v=i+1;a[i].next=i<3?&a[i+1]:NULL;}struct node *p=rev(a);while(p){printf("%d",p->v);p=p->next;}printf("\n");return 0;}@rank 0 exit 0 bytes 5⏎4321⏎finished⏎
struct node{long key;struct node *next;};void insert(struct node **at,struct node *n){while(*at!=0&&(*at)->key<n->key)at=&(*at)->next;n->next=*at;*at=n;}int main(void){struct node *l=0;long k=17;for(int i=0;i<8;i++){struct node *n=(struct node*)malloc(sizeof(struct node));k=k*31%101;n->key=k;insert(&l,n);}for(struct node *p=l;p;p=p->next)printf("%ld ",p->key);printf("\n");return 0;}@rank 0 exit 0 bytes 25⏎4 13 22 33 49 70 76 100 ⏎finished⏎
struct tree{int k;struct tree *left;struct tree *right;};struct tree *add(struct tree *t,int k){if(!t){struct tree *n=malloc(sizeof(struct tree));n->k=k;n->left=NULL;n->right=NULL;return n;}if(k<t->k)t->left=add(t->left,k);else if(k>t->k)t->right=add(t->right,k);return t;}void walk(struct tree *t){if(t==NULL)return;walk(t->left);printf("%d ",t->k);walk(t->right);}int main(void){struct tree *t=NULL;int x=3;for(int i=0;i<12;i++){x=(x*7+5)%23;t=add(t,x);}walk(t);printf("\n");return t->k;}@rank 0 exit 3 bytes 3⏎3 ⏎finished⏎
struct t{int v;struct t *kid[2];};int depth(struct t *n){int a,b;if(!n)return 0;a=depth(n->kid[0]);b=depth(n->kid[1]);return (a>b?a:b)+1;}int main(void){struct t n[7];int i,d;for(i=0;i<7;i++){n[i].v=i;n[i].kid[0]=2*i+1<7?n+(2*i+1):NULL;n[i].kid[1]=2*i+2<7?&n[2*i+2]:0;}d=depth(n);printf("%d %d %d\n",d,n[0].kid[1]->kid[0]->v,n[3].kid[0]==NULL);return 0;}@rank 0 exit 0 bytes 6⏎3 5 1⏎finished⏎
int main(void){int a[3][4],b[4][2],c[3][2],i,j,k;for(i=0;i<3;i++)for(j=0;j<4;j++)a[i][j]=i+j;for(i=0;i<4;i++)for(j=0;j<2;j++)b[i][j]=i*j+1;for(i=0;i<3;i++)for(j=0;j<2;j++){c[i][j]=0;for(k=0;k<4;k++)c[i][j]+=a[i][k]*b[k][j];}for(i=0;i<3;i++)printf("%d %d\n",c[i][0],c[i][1]);return c[2][1];}@rank 0 exit 40 bytes 17⏎6 20⏎10 30⏎14 40⏎finished⏎
int main(void){long m[2][3][4];long s=0;int i,j,k;for(i=0;i<2;i++)for(j=0;j<3;j++)for(k=0;k<4;k++)m[i][j][k]=100*i+10*j+k;long *p=m[1][2];for(i=0;i<4;i++)s+=p[i];printf("%ld %ld %ld\n",s,m[1][0][3],*(m[0][1]+2));return 0;}@rank 0 exit 0 bytes 11⏎486 103 12⏎finished⏎
void transpose(int *m,int n){for(int i=0;i<n;i++)for(int j=0;j<i;j++){int t=m[i*n+j];m[i*n+j]=m[j*n+i];m[j*n+i]=t;}}int main(void){int a[9];for(int i=0;i<9;i++)a[i]=i;transpose(a,3);for(int i=0;i<9;i++)printf("%d",a[i]);printf("\n");return 0;}@rank 0 exit 0 bytes 10⏎036147258⏎finished⏎
struct in{char c;int n[3];};struct out{long l;struct in a[2];struct in *p;};int main(void){struct out o;o.l=5;for(int i=0;i<2;i++){o.a[i].c='a'+i;for(int j=0;j<3;j++)o.a[i].n[j]=10*i+j;}o.p=&o.a[1];o.p->n[0]=77;o.p->c+=2;printf("%c%c %d %d %ld\n",o.a[0].c,o.a[1].c,o.a[1].n[0],o.p->n[2],o.l);return 0;}@rank 0 exit 0 bytes 11⏎ad 77 12 5⏎finished⏎
struct v{int x;int y;};struct box{struct v lo;struct v hi;};int area(struct box *b){return (b->hi.x-b->lo.x)*(b->hi.y-b->lo.y);}int main(void){struct box bs[3];int t=0,a;for(int i=0;i<3;i++){bs[i].lo.x=i;bs[i].lo.y=2*i;bs[i].hi.x=i*i+3;bs[i].hi.y=3*i+4;a=area(bs+i);t+=a;}struct v *p=&bs[2].hi;p->x++;a=area(&bs[2]);printf("%d %d %d\n",t,a,p->x);return 0;}@rank 0 exit 0 bytes 8⏎57 36 8⏎finished⏎
int len(char *s){int n=0;while(s[n])n++;return n;}void copy(char *d,char *s){while(*s){*d=*s;d++;s++;}*d=0;}int main(void){char a[6],b[8];a[0]='h';a[1]='e';a[2]='l';a[3]='l';a[4]='o';a[5]=0;copy(b,a);int n=len(b);b[0]='j';for(int i=0;i<n;i++)printf("%c",b[i]);printf(" %d\n",n);return 0;}@rank 0 exit 0 bytes 8⏎jello 5⏎finished⏎
int main(void){char w[16];int n=0,i,k=1234567;while(k){w[n]='0'+k%10;n++;k/=10;}for(i=0;i<n/2;i++){char t=w[i];w[i]=w[n-1-i];w[n-1-i]=t;}w[n]='\0';char *p=w;while(*p!='\0'){printf("%c.",*p);++p;}printf("%ld\n",p-w);return 0;}@rank 0 exit 0 bytes 16⏎1.2.3.4.5.6.7.7⏎finished⏎
int is_pal(char *s,int n){char *e=s+n-1;while(s<e){if(*s!=*e)return 0;s++;e--;}return 1;}int main(void){char a[5],b[4];int r,t;a[0]='r';a[4]='r';a[1]='a';a[3]='a';a[2]='d';b[0]='a';b[1]='b';b[2]='b';b[3]='b';r=is_pal(a,5);t=is_pal(b,4);printf("%d%d\n",r,t);return 0;}@rank 0 exit 0 bytes 3⏎10⏎finished⏎
void swap(int **a,int **b){int *t=*a;*a=*b;*b=t;}int main(void){int x=1,y=2;int *p=&x,*q=&y;int **pp=&p;swap(&p,&q);**pp=9;printf("%d %d %d %d\n",x,y,*p,*q);return pp==&p;}@rank 0 exit 1 bytes 8⏎1 9 9 1⏎finished⏎
int main(void){int a[4];int *q[4];int **r;for(int i=0;i<4;i++){a[i]=i*3;q[3-i]=&a[i];}r=q+1;*r[0]+=100;**r+=1;printf("%d %d %d %d\n",*q[0],*q[1],**(r+1),r[2]==a);return 0;}@rank 0 exit 0 bytes 10⏎9 107 3 1⏎finished⏎
int main(void){int x=5;int *p=&x;int **q=&p;int ***r=&q;***r=6;*p+=1;(**q)--;printf("%d %d\n",x,*r==&p);return 0;}@rank 0 exit 0 bytes 4⏎6 1⏎finished⏎
int sum(int *p,int *e){int s=0;for(;p!=e;p++)s+=*p;return s;}int main(void){int a[10],i,s,t;for(i=0;i<10;i++)a[i]=i;s=sum(a,a+10);t=sum(&a[3],&a[7]);int *m=a+5;printf("%d %d %d %d %ld %ld\n",s,t,m[-2],*(m-1),m-a,a-m);printf("%d%d%d%d%d\n",m>a,m<=a+5,m==&a[5],m!=a,a+10>m);return 0;}@rank 0 exit 0 bytes 21⏎45 18 3 4 5 -5⏎11111⏎finished⏎
int *find(int *p,int n,int x){int i;for(i=0;i<n;i++)if(p[i]==x)return p+i;return NULL;}int main(void){int a[5],i;int *p;for(i=0;i<5;i++)a[i]=7*i;p=find(a,5,21);if(p)printf("%ld\n",p-a);p=find(a,5,22);printf("%d\n",p==NULL);p=find(a+1,2,14);printf("%d\n",p?*p:-1);return 0;}@rank 0 exit 0 bytes 7⏎3⏎1⏎14⏎finished⏎
struct s{int a;long b;char c[3];};int main(void){struct s v[6];struct s *p=v+1,*q=&v[5];printf("%ld %ld %d\n",q-p,p-q,q>p);q-=3;p+=1;printf("%d\n",p==q);char *c=v[2].c;c[1]='x';printf("%c%d\n",p->c[1],&p->c[1]==c+1);return 0;}@rank 0 exit 0 bytes 12⏎4 -4 1⏎1⏎x1⏎finished⏎
void sort(long *a,int n){for(int i=1;i<n;i++){long x=a[i];int j=i-1;while(j>=0&&a[j]>x){a[j+1]=a[j];j--;}a[j+1]=x;}}int main(void){long *a=(long*)malloc(10*sizeof(long));long x=7;for(int i=0;i<10;i++){x=x*73%1009;a[i]=x;}sort(a,10);for(int i=0;i<10;i++)printf("%ld ",a[i]);printf("\n");free(a);return 0;}@rank 0 exit 0 bytes 41⏎218 390 420 511 561 593 837 911 918 979 ⏎finished⏎
void quick(int *a,int n){int p,i=0,j=n-1,t;if(n<2)return;p=a[n/2];while(i<=j){while(a[i]<p)i++;while(a[j]>p)j--;if(i<=j){t=a[i];a[i]=a[j];a[j]=t;i++;j--;}}quick(a,j+1);quick(a+i,n-i);}int main(void){int a[20],x=1;for(int i=0;i<20;i++){x=x*37%1001;a[i]=x;}quick(a,20);for(int i=0;i<20;i++)printf("%d ",a[i]);printf("\n");return 0;}@rank 0 exit 0 bytes 77⏎23 37 64 93 137 190 246 289 366 368 438 456 529 603 641 653 683 694 851 856 ⏎finished⏎
int main(void){char *s=malloc(101);int n=0,i,j;for(i=2;i<=100;i++)s[i]=1;for(i=2;i*i<=100;i++)if(s[i])for(j=i*i;j<=100;j+=i)s[j]=0;for(i=2;i<=100;i++)if(s[i]){n++;if(n%5==0)printf("%d ",i);}printf("%d\n",n);free(s);return 0;}@rank 0 exit 0 bytes 18⏎11 29 47 71 97 25⏎finished⏎
struct stack{int top;int data[8];};void push(struct stack *s,int x){s->data[s->top]=x;s->top++;}int pop(struct stack *s){s->top--;return s->data[s->top];}int main(void){struct stack s;int a,b;s.top=0;push(&s,3);push(&s,4);push(&s,5);a=pop(&s);b=pop(&s);push(&s,a*b);a=pop(&s);b=pop(&s);printf("%d %d %d\n",a,b,s.top);return 0;}@rank 0 exit 0 bytes 7⏎20 3 0⏎finished⏎
struct queue{int head;int tail;long ring[4];};int main(void){struct queue q;struct queue *p=&q;p->head=0;p->tail=0;for(int i=0;i<7;i++){p->ring[p->tail%4]=i*i;p->tail++;if(p->tail-p->head==3){printf("%ld ",p->ring[p->head%4]);p->head++;}}printf("%d %d\n",q.head,q.tail);return 0;}@rank 0 exit 0 bytes 15⏎0 1 4 9 16 5 7⏎finished⏎
int dot(int a[],int b[3]){int s=0;for(int i=0;i<3;i++)s+=a[i]*b[i];return s;}int main(void){int x[3],y[3],r;for(int i=0;i<3;i++){x[i]=i+1;y[i]=4-i;}r=dot(x,y);printf("%d\n",r);return 0;}@rank 0 exit 0 bytes 3⏎16⏎finished⏎
void fill(char *b,int n,char c){while(n>0){n--;b[n]=c;}}void rows(char *g,int w,int h){for(int y=0;y<h;y++){for(int x=0;x<w;x++)printf("%c",g[y*w+x]);printf("\n");}}int main(void){char g[12];fill(g,12,'.');g[5]='#';*(g+10)='o';rows(g,4,3);return 0;}@rank 0 exit 0 bytes 15⏎....⏎.#..⏎..o.⏎finished⏎
int main(void){int x=1,y=2;int *p=x?&x:&y,*q=0,*r=q?q:p;printf("%d %d %d %d\n",*r,!q,!p,p&&!q);q=p==NULL?p:NULL;return q==0;}@rank 0 exit 1 bytes 8⏎1 1 0 1⏎finished⏎
int main(void){long a[3];long *p=a;int i=0;for(i=0;i<3;i++)*(p+i)=i;p=p+1;*p+=5;p++;*p*=9;--p;printf("%ld %ld %ld\n",p[-1],*p,p[1]);i=0;return i;}@rank 0 exit 0 bytes 7⏎0 6 18⏎finished⏎
int main(void){int a[2];int *p=a;p=p+2;printf("%d\n",p==&a[2]);return 0;}@rank 0 exit 0 bytes 2⏎1⏎finished⏎
struct p{struct p *self;int k;};int main(void){struct p a;a.self=&a;a.k=4;a.self->self->self->k++;printf("%d %d\n",a.k,a.self==a.self->self);return 0;}@rank 0 exit 0 bytes 4⏎5 1⏎finished⏎
struct pair{int a;int b;};struct pair *make(int a,int b){struct pair *p=malloc(sizeof(struct pair));p->a=a;p->b=b;return p;}int main(void){struct pair *x=make(3,4),*y=make(5,6);struct pair **z=malloc(2*sizeof(struct pair*));z[0]=x;z[1]=y;printf("%d\n",z[0]->a*z[1]->b-(*z)->b*(**(z+1)).a);free(x);free(y);free(z);return 0;}@rank 0 exit 0 bytes 3⏎-2⏎finished⏎
int main(void){int n=5;long *row[5];for(int i=0;i<n;i++){row[i]=malloc((i+1)*sizeof(long));row[i][0]=1;row[i][i]=1;for(int j=1;j<i;j++)row[i][j]=row[i-1][j-1]+row[i-1][j];}for(int i=0;i<n;i++){for(int j=0;j<=i;j++)printf("%ld ",row[i][j]);printf("\n");free(row[i]);}return 0;}@rank 0 exit 0 bytes 35⏎1 ⏎1 1 ⏎1 2 1 ⏎1 3 3 1 ⏎1 4 6 4 1 ⏎finished⏎
void hanoi(int n,int *from,int *to,int *by,int *moves){if(n==0)return;hanoi(n-1,from,by,to,moves);*from-=1;*to+=1;*moves+=1;hanoi(n-1,by,to,from,moves);}int main(void){int a=6,b=0,c=0,m=0;hanoi(6,&a,&b,&c,&m);printf("%d %d %d %d\n",a,b,c,m);return 0;}@rank 0 exit 0 bytes 9⏎0 6 0 63⏎finished⏎
int main(void){char t[3][8];int n[3];for(int i=0;i<3;i++){n[i]=0;for(int k=i+5;k>0;k/=2){t[i][n[i]]='0'+k%2;n[i]++;}}for(int i=0;i<3;i++){while(n[i]){n[i]--;printf("%c",t[i][n[i]]);}printf(" ");}printf("\n");return 0;}@rank 0 exit 0 bytes 13⏎101 110 111 ⏎finished⏎
struct e{int to;int w;struct e *next;};int main(void){struct e *g[5];int d[5],i,c;for(i=0;i<5;i++){g[i]=NULL;d[i]=1000;}for(i=0;i<8;i++){struct e *e=malloc(sizeof(struct e));int from=i%4;e->to=(i*3+1)%5;e->w=i+2;e->next=g[from];g[from]=e;}d[0]=0;do{c=0;for(i=0;i<5;i++)for(struct e *e=g[i];e;e=e->next)if(d[i]+e->w<d[e->to]){d[e->to]=d[i]+e->w;c=1;}}while(c);for(i=0;i<5;i++)printf("%d ",d[i]);printf("\n");return 0;}@rank 0 exit 0 bytes 12⏎0 2 15 6 5 ⏎finished⏎
int main(void){int a[6],*lo=a,*hi=a+6,i;for(i=0;i<6;i++)a[i]=10*i;while(hi-lo>1){int *m=lo+(hi-lo)/2;if(*m<=35)lo=m;else hi=m;}printf("%ld %d\n",lo-a,*lo);return 0;}@rank 0 exit 0 bytes 5⏎3 30⏎finished⏎
void reverse(long *f,long *t){while(f<t){t--;if(f>=t)return;long x=*f;*f=*t;*t=x;f++;}}int main(void){long a[5];int i;for(i=0;i<5;i++)a[i]=i+1;reverse(a,a+5);reverse(a+1,a+3);for(i=0;i<5;i++)printf("%ld",a[i]);printf("\n");return 0;}@rank 0 exit 0 bytes 6⏎53421⏎finished⏎
struct cell{char alive;char next;};int main(void){struct cell g[8];int i,t;for(i=0;i<8;i++)g[i].alive=i==4;for(t=0;t<4;t++){for(i=0;i<8;i++)printf("%c",g[i].alive?'*':'.');printf("\n");for(i=0;i<8;i++)g[i].next=(i>0&&g[i-1].alive)!=(i<7&&g[i+1].alive);for(i=0;i<8;i++)g[i].alive=g[i].next;}return 0;}@rank 0 exit 0 bytes 36⏎....*...⏎...*.*..⏎..*...*.⏎.*.*.*.*⏎finished⏎
int main(void){int k=0;long *p=malloc(sizeof(long));for(int i=0;i<70000;i++){free(p);p=malloc(sizeof(long));*p=i;k++;}printf("%d\n",k);return 0;}@rank 0 exit 0 bytes 6⏎70000⏎finished⏎
int max(int *a,int n){int m,t;if(n==1)return *a;m=max(a+1,n-1);t=a[0];return t>m?t:m;}int main(void){int a[7],i,m;for(i=0;i<7;i++)a[i]=(i*5+3)%7*11;m=max(a,7);printf("%d\n",m);return m;}@rank 0 exit 66 bytes 3⏎66⏎finished⏎
int strcmp_(char *a,char *b){while(*a&&*a==*b){a++;b++;}return *a-*b;}int main(void){char a[4],b[4];int r,s;a[0]='a';a[1]='b';a[2]='c';a[3]=0;b[0]='a';b[1]='b';b[2]='d';b[3]=0;r=strcmp_(a,b);b[2]='c';s=strcmp_(a,b);printf("%d %d\n",r,s);return 0;}@rank 0 exit 0 bytes 5⏎-1 0⏎finished⏎
"#;
    assert_runs(&rt, rt.alloc(), table)
}

// Each fault at its operation, and what was printed before it. The expected answers are worked out by hand.
#[test]
fn tests_each_access(rt: HostRuntime) -> Result<(), Fail> {
    let table = r#"
int main(void){int *p=malloc(-4);int *q=malloc(3);int *z=malloc(8);z[1]=6;printf("%d %d %d\n",p==NULL,q==NULL,z[1]);free(z);free(z);return 0;}@rank 0 fault 103 bytes 6⏎1 1 6⏎finished⏎
struct node{int v;struct node *next;};int main(void){int a[3],x=5;int *p=&x;int *e=&a[3];struct node *n=malloc(sizeof(struct node));n->v=8;struct node *d=malloc(sizeof(struct node));struct node *o=d;free(d);d=malloc(sizeof(struct node));potentialCheckpoint();printf("%d %d %d %d\n",*p,n->v,e==a+3,o==d);printf("%d\n",o->v);return 0;}@rank 0 fault 103 bytes 8⏎5 8 1 0⏎finished⏎
int main(void){int a[2];int *p=a;p=p+2;printf("%d\n",p==&a[2]);return *p;}@rank 0 fault 102 bytes 2⏎1⏎finished⏎
int main(void){int *p=NULL;return *p;}@rank 0 fault 101 bytes 0⏎finished⏎
int main(void){int x;free(&x);return 0;}@rank 0 fault 104 bytes 0⏎finished⏎
int main(void){int *p=0;printf("a");p[5]=1;printf("b");return 0;}@rank 0 fault 101 bytes 1⏎afinished⏎
struct s{int a;int b;};int main(void){struct s *p=NULL;return p->b;}@rank 0 fault 101 bytes 0⏎finished⏎
struct s{int a[2];};int main(void){struct s *p=NULL;return p->a[1];}@rank 0 fault 101 bytes 0⏎finished⏎
int main(void){int **p=malloc(16);return **p;}@rank 0 fault 101 bytes 0⏎finished⏎
int *f(void){int x=1;return &x;}int main(void){int *p=f();printf("%d",p==NULL);return *p;}@rank 0 fault 103 bytes 1⏎0finished⏎
int *f(void){int x=1;return &x;}int main(void){int *p=f();return p[9];}@rank 0 fault 103 bytes 0⏎finished⏎
int main(void){int *p=malloc(4);*p=7;printf("%d",*p);free(p);*p=8;return 0;}@rank 0 fault 103 bytes 1⏎7finished⏎
int main(void){long *p=malloc(8);free(p);printf("%ld",p[3]);return 0;}@rank 0 fault 103 bytes 0⏎finished⏎
int main(void){int a[2];a[0]=1;printf("%d",a[0]);return a[2];}@rank 0 fault 102 bytes 1⏎1finished⏎
int main(void){int a[2];return a[-1];}@rank 0 fault 102 bytes 0⏎finished⏎
int main(void){int a[2][3];a[1][2]=4;printf("%d",a[1][2]);a[1][3]=5;return 0;}@rank 0 fault 102 bytes 1⏎4finished⏎
int main(void){char *p=malloc(3);p[2]=1;printf("%d",p[2]);p[3]=1;return 0;}@rank 0 fault 102 bytes 1⏎1finished⏎
struct s{int a;int b;};int main(void){struct s v[2];v[1].b=3;printf("%d",v[1].b);return v[2].a;}@rank 0 fault 102 bytes 1⏎3finished⏎
int main(void){int a[2][3];a[0][4]=7;printf("%d\n",a[1][1]);return 0;}@rank 0 exit 0 bytes 2⏎7⏎finished⏎
struct s{char c[1];int n;};int main(void){struct s v;v.n=300;v.c[0]=1;printf("%d %d\n",v.c[1],v.n);return 0;}@rank 0 exit 0 bytes 7⏎44 300⏎finished⏎
struct s{int *p[1];int n;};int main(void){struct s v;v.n=5;printf("%d\n",v.p[1]==NULL);return 0;}@rank 0 exit 0 bytes 2⏎1⏎finished⏎
struct s{int n[1];int *p;};int main(void){struct s v;int a[4];v.p=&a[3];printf("%d\n",v.n[1]);v.n[1]=2;printf("%d\n",v.p==NULL);return 0;}@rank 0 exit 0 bytes 4⏎3⏎1⏎finished⏎
int main(void){int a[2][3];a[0][2]=9;printf("%d\n",a[1000000][-2999998]);return 0;}@rank 0 exit 0 bytes 2⏎9⏎finished⏎
int main(void){int a[2][2];long i=4611686018427387904,j=-9223372036854775807-1;a[0][0]=6;printf("%d\n",a[i][j]);return 0;}@rank 0 exit 0 bytes 2⏎6⏎finished⏎
int main(void){int a[2][2];long i=4611686018427387904;printf("x");return a[i][0];}@rank 0 fault 102 bytes 1⏎xfinished⏎
int main(void){int *p=NULL;*p=1/0;return 0;}@rank 0 fault 106 bytes 0⏎finished⏎
int printf_(void){printf("p");return 1;}int main(void){int *p=NULL;*p=printf_();return 0;}@rank 0 fault 101 bytes 1⏎pfinished⏎
int main(void){int a[2];int *p=a+2;printf("%d",p==&a[2]);p=a+3;return 0;}@rank 0 fault 110 bytes 1⏎1finished⏎
int main(void){int a[2];int *p=&a[3];return 0;}@rank 0 fault 110 bytes 0⏎finished⏎
int main(void){int a[2];int *p=a;p--;return 0;}@rank 0 fault 110 bytes 0⏎finished⏎
int main(void){int *p=NULL;p=p+0;return 0;}@rank 0 fault 110 bytes 0⏎finished⏎
int main(void){int *p=NULL;p++;return 0;}@rank 0 fault 110 bytes 0⏎finished⏎
struct s{int a;int b;};int main(void){struct s *p=NULL;int *q=&p->b;return q==NULL;}@rank 0 fault 110 bytes 0⏎finished⏎
struct s{int a[2];};int main(void){struct s *p=NULL;int *q=p->a;return q==NULL;}@rank 0 fault 110 bytes 0⏎finished⏎
int main(void){int *p=NULL;int *q=&p[0];return 0;}@rank 0 fault 110 bytes 0⏎finished⏎
int main(void){int *p=malloc(8);free(p);p=p+1;return 0;}@rank 0 fault 103 bytes 0⏎finished⏎
int main(void){int *p=malloc(8);int *q=p+1;free(p);printf("%d",q==p+0);return 0;}@rank 0 fault 103 bytes 0⏎finished⏎
int main(void){int *p=malloc(8);int *q=p;free(p);printf("%d%d",q==p,p!=NULL);return 0;}@rank 0 exit 0 bytes 2⏎11finished⏎
int main(void){int a,b;int *p=&a,*q=&b;printf("%d",p==q);return p<q;}@rank 0 fault 110 bytes 1⏎0finished⏎
int main(void){int a[2],b[2];return (int)(a-b);}@rank 0 fault 110 bytes 0⏎finished⏎
int main(void){return NULL<NULL;}@rank 0 fault 110 bytes 0⏎finished⏎
int main(void){int x;int *p=&x;return p>0;}@rank 0 fault 110 bytes 0⏎finished⏎
int main(void){int x;int *p=&x;printf("%ld",p-NULL);return 0;}@rank 0 fault 110 bytes 0⏎finished⏎
struct s{int a;long b;char *c;};int main(void){struct s v[4];printf("%ld %ld %d\n",&v[3]-&v[1],&v[0]-&v[2],&v[1]<=&v[1]);return 0;}@rank 0 exit 0 bytes 7⏎2 -2 1⏎finished⏎
struct s{int a;int b;};int main(void){struct s v[3];struct s *p=v;int *q=&p->b;struct s *r=v+2;printf("%ld\n",r-p);printf("%ld\n",q-&v[0].a);return 0;}@rank 0 exit 0 bytes 4⏎2⏎1⏎finished⏎
int main(void){int *p=malloc(8);p=p+1;free(p);return 0;}@rank 0 fault 104 bytes 0⏎finished⏎
int main(void){int a[2];free(a);return 0;}@rank 0 fault 104 bytes 0⏎finished⏎
int *g(void){int *p=malloc(12);return p+2;}int main(void){int *p=g();free(p);return 0;}@rank 0 fault 104 bytes 0⏎finished⏎
int *g(void){int x;return &x;}int main(void){int *p=g();free(p);return 0;}@rank 0 fault 103 bytes 0⏎finished⏎
int main(void){free(NULL);int *p=NULL;free(p);p=malloc(0);printf("%d\n",p==NULL);free(p);return 0;}@rank 0 exit 0 bytes 2⏎1⏎finished⏎
struct s{long a;int *b;};int main(void){int *p=malloc(7);p[0]=1;printf("%d",p==NULL);struct s *q=malloc(23);printf("%d",q==NULL);q=malloc(24);printf("%d\n",q==NULL);return 0;}@rank 0 exit 0 bytes 4⏎010⏎finished⏎
int main(void){long *p=malloc(65536*8L);long *q=malloc(8);printf("%d%d\n",p==NULL,q==NULL);free(p);q=malloc(8);printf("%d\n",q==NULL);p=malloc(65536*8L);printf("%d\n",p==NULL);p=malloc(65535*8L);printf("%d %ld\n",p==NULL,p[65534]);return 0;}@rank 0 exit 0 bytes 11⏎01⏎0⏎1⏎0 0⏎finished⏎
int main(void){char *p=malloc(9223372036854775807);printf("%d\n",p==NULL);return 0;}@rank 0 exit 0 bytes 2⏎1⏎finished⏎
int main(void){int k=0;long *p;for(int i=0;i<70000;i++){p=malloc(8);if(p!=NULL)k++;free(p);}printf("%d\n",k);return 0;}@rank 0 exit 0 bytes 6⏎70000⏎finished⏎
int main(void){int *p;{int x=3;p=&x;}printf("%d\n",*p);return 0;}@rank 0 exit 0 bytes 2⏎3⏎finished⏎
int main(void){int *p;for(int i=0;i<3;i++){int x;x=x+i;p=&x;}printf("%d\n",*p);return 0;}@rank 0 exit 0 bytes 2⏎2⏎finished⏎
int main(void){int a[3];int i;for(i=0;i<2;i++){int b[3];b[i]=b[i]+1;a[i]=b[0]+b[1]+b[2];}printf("%d%d%d\n",a[0],a[1],a[2]);return 0;}@rank 0 exit 0 bytes 4⏎110⏎finished⏎
int *h(void){}int main(void){int *p=h();printf("%d\n",p==NULL);return 0;}@rank 0 exit 0 bytes 2⏎1⏎finished⏎
int k(int *p,int n){int r;if(n==0)return *p;*p=*p+1;r=k(p,n-1);return r+1;}int main(void){int x=1;int y=k(&x,3);printf("%d %d\n",x,y);return 0;}@rank 0 exit 0 bytes 4⏎4 7⏎finished⏎
struct s{char a;int b;long c;};struct t{struct s v[3];struct t *n;};int main(void){printf("%ld %ld %ld\n",sizeof(int*),sizeof(struct s),sizeof(struct t));return 0;}@rank 0 exit 0 bytes 9⏎16 13 55⏎finished⏎
int main(void){int a[8191];a[8190]=1;printf("%d\n",a[8190]);return 0;}@rank 0 exit 0 bytes 2⏎1⏎finished⏎
int main(void){int a[8192];return 0;}@rank 0 fault 108 bytes 0⏎finished⏎
void f(void){char b[192];}int main(void){int a[8000];printf("a");f();return 0;}@rank 0 fault 108 bytes 1⏎afinished⏎
"#;
    assert_runs(&rt, rt.alloc(), table)
}

// By first fit among 65,536 cells. The source's meaning goes by the number of live cells alone.
#[test]
fn null_comes_where_no_place_fits(rt: HostRuntime) -> Result<(), Fail> {
    let table = r#"
p=malloc(40000*8L);q=malloc(20000*8L);free(p);p=malloc(45000*8L);printf("%d",p==NULL);p=malloc(40000*8L);printf("%d",p==NULL);q=malloc(5536*8L);printf("%d",q==NULL);q=malloc(8);printf("%d\n",q==NULL);@1001
p=malloc(30000*8L);q=malloc(30000*8L);free(p);p=malloc(10000*8L);long *r=malloc(20001*8L);printf("%d",r==NULL);r=malloc(20000*8L);printf("%d",r==NULL);free(q);q=malloc(35536*8L);printf("%d\n",q==NULL);@100
p=malloc(65536*8L);free(p);q=malloc(65536*8L);printf("%d",q==NULL);p=malloc(0);printf("%d\n",p==NULL);@01
"#;
    for line in table.trim().lines() {
        let (body, answer) = line.split_once('@').expect(&rt, "a marked line");
        let input = format!(in rt.alloc(); "int main(void){{long *p,*q;{body}return 0;}}")?;
        let bytes = answer.len() + 1;
        let text = format!(in rt.alloc(); "rank 0 exit 0 bytes {bytes}\n{answer}\nfinished\n")?;
        let placed = written(rt.alloc(), 1, input.as_bytes())?;
        assert_eq!(rt; placed.as_slice(), text.as_bytes(), "at {body}");
    }
    Ok(())
}
