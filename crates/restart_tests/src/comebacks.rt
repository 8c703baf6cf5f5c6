//! Each program is saved at its marks and restored, and goes on as the one that was saved.

use crate::course::{Course, Halt, code_of};
use crate::states::assert_within;
use flat_code::Code;
use image_text::RankState;
use rank_image::restore;
use rank_machine::Machine;
use sqlite_items::Boxed;
use std::alloc::Global;
use std::process::Abort;
use std::rc::Rc;
use std::test::Fail;

/// A rank of a job: how many marks it passes, the messages that it takes, how it ends, and what it prints.
#[derive(Clone, Copy)]
struct Row<'a> {
    rank: u16,
    ranks: u16,
    marks: usize,
    fed: &'a str,
    end: &'a str,
    output: &'a str,
}

/// What a rank that was saved does: its state, how many messages it had taken, and its operations from there on.
#[derive(Drop)]
struct Way {
    state: Boxed<RankState>,
    taken: usize,
    asked: String,
}

impl Course {
    /// From the start through a mark of this number, from 0 on, to the end.
    fn way(
        &mut self,
        rt: &impl Abort,
        alloc: Global,
        row: &Row<'_>,
        number: usize,
    ) -> Result<Way, Fail> {
        for k in 0..=number {
            assert_eq!(rt; self.go_on(rt, alloc, row.fed)?, Halt::Mark, "mark {k}");
        }
        let taken = self.taken;
        let state = Boxed::new(alloc, self.machine.state()?)?;
        let asked = self.to_end(rt, alloc, row.fed)?;
        self.assert_output(rt, alloc, row)?;
        Ok(Way {
            state,
            taken,
            asked,
        })
    }

    /// What was printed.
    fn assert_output(&self, rt: &impl Abort, alloc: Global, row: &Row<'_>) -> Result<(), Fail> {
        let answer = row.output.replace(alloc, '⏎', "\n")?;
        assert_eq!(rt; self.output.as_slice(), answer.as_bytes());
        Ok(())
    }
}

/// A run without restart.
fn run(
    rt: &impl Abort,
    alloc: Global,
    code: &Rc<Code>,
    row: &Row<'_>,
    number: usize,
) -> Result<Way, Fail> {
    let machine = Machine::new(alloc, code, row.rank, row.ranks)?;
    let mut course = Course::new(alloc, machine, 0);
    course.way(rt, alloc, row, number)
}

/// The operations of a run that was restored.
fn run_again(
    rt: &impl Abort,
    alloc: Global,
    code: &Rc<Code>,
    row: &Row<'_>,
    way: &Way,
) -> Result<String, Fail> {
    let state = way.state.get();
    assert_within(rt, state);
    let machine = restore(alloc, code, row.rank, row.ranks, state)?;
    let mut course = Course::new(alloc, machine, way.taken);
    course.end_from(rt, alloc, row.fed, state)
}

/// The same operations up to the same end, with a restart and without.
fn assert_comes_back(
    rt: &impl Abort,
    alloc: Global,
    code: &Rc<Code>,
    row: &Row<'_>,
    number: usize,
) -> Result<(), Fail> {
    let way = run(rt, alloc, code, row, number)?;
    let asked = run_again(rt, alloc, code, row, &way)?;
    assert_eq!(rt; asked, way.asked, "from mark {number}");
    assert!(rt; asked.ends_with(row.end), "{asked} from mark {number}");
    Ok(())
}

/// The words before a `@`: rank, ranks, marks, the end, and messages as `SOURCE:TAG:VALUE`.
fn row_of<'a>(rt: &impl Abort, head: &'a str, output: &'a str) -> Row<'a> {
    let (rank, rest) = head.split_once(' ').expect(rt, "a rank");
    let (ranks, rest) = rest.split_once(' ').expect(rt, "ranks");
    let (marks, rest) = rest.split_once(' ').expect(rt, "marks");
    let (end, fed) = rest.split_once(' ').unwrap_or((rest, ""));
    Row {
        rank: rank.parse::<u16>().expect(rt, "a number"),
        ranks: ranks.parse::<u16>().expect(rt, "a number"),
        marks: marks.parse::<usize>().expect(rt, "a number"),
        fed,
        end,
        output,
    }
}

// Each line is a rank's row, its program, and after the last `@` what it prints, where `⏎` stands for a line feed: a message that
// crosses the line, pointers, a recursion; marks in loops and branches, in a function that is called twice, after free and malloc,
// with objects that are dead where pointers point to them, and in each phase. Ends and outputs are worked out by hand.
#[test]
fn runs_come_back_to_their_marks(rt: HostRuntime) -> Result<(), Fail> {
    let table = r#"
0 2 1 Exit(0)@int main(void){int r,v=7;MPI_Init(NULL,NULL);MPI_Comm_rank(MPI_COMM_WORLD,&r);if(r==0){v=9;MPI_Send(&v,1,MPI_INT,1,0,MPI_COMM_WORLD);potentialCheckpoint();}else{potentialCheckpoint();MPI_Recv(&v,1,MPI_INT,0,0,MPI_COMM_WORLD,MPI_STATUS_IGNORE);printf("%d\n",v);}MPI_Finalize();return 0;}@
1 2 1 Exit(0) 0:0:9@int main(void){int r,v=7;MPI_Init(NULL,NULL);MPI_Comm_rank(MPI_COMM_WORLD,&r);if(r==0){v=9;MPI_Send(&v,1,MPI_INT,1,0,MPI_COMM_WORLD);potentialCheckpoint();}else{potentialCheckpoint();MPI_Recv(&v,1,MPI_INT,0,0,MPI_COMM_WORLD,MPI_STATUS_IGNORE);printf("%d\n",v);}MPI_Finalize();return 0;}@9⏎
0 1 1 Fault(103)@struct node{int v;struct node *next;};int main(void){int a[3],x=5;int *p=&x;int *e=&a[3];struct node *n=malloc(sizeof(struct node));n->v=8;struct node *d=malloc(sizeof(struct node));struct node *o=d;free(d);d=malloc(sizeof(struct node));potentialCheckpoint();printf("%d %d %d %d\n",*p,n->v,e==a+3,o==d);printf("%d\n",o->v);return 0;}@5 8 1 0⏎
0 1 1 Exit(0)@int down(int n){int r=0;if(n==0){potentialCheckpoint();return 1;}r=down(n-1);return r+n;}int main(void){int s=down(50);printf("%d\n",s);return 0;}@1276⏎
2 3 3 Exit(6) 1:7:4 0:7:2 1:8:5@int main(void){int r,n,i,v=0,s=0;MPI_Status st;MPI_Init(NULL,NULL);MPI_Comm_rank(MPI_COMM_WORLD,&r);MPI_Comm_size(MPI_COMM_WORLD,&n);for(i=0;i<3;i++){MPI_Recv(&v,1,MPI_INT,MPI_ANY_SOURCE,MPI_ANY_TAG,MPI_COMM_WORLD,&st);potentialCheckpoint();s+=st.MPI_SOURCE;v=v*10+st.MPI_TAG;MPI_Send(&v,1,MPI_INT,st.MPI_SOURCE,i,MPI_COMM_WORLD);printf("%d ",v);}MPI_Finalize();return s+r+i-1;}@47 27 58 
0 1 4 Exit(6)@int main(void){int i,s=0;for(i=0;i<4;i++){potentialCheckpoint();s+=i;printf("%d ",s);}printf("\n");return s;}@0 1 3 6 ⏎
0 1 4 Exit(4)@int main(void){int i;for(i=0;i<4;i++){if(i%2==0){printf("e");potentialCheckpoint();}else{potentialCheckpoint();printf("o");}}return i;}@eoeo
0 1 2 Exit(0)@int f(int n){int r=n*2;potentialCheckpoint();return r+1;}int main(void){int a,b;a=f(3);b=f(a);printf("%d %d\n",a,b);return 0;}@7 15⏎
0 1 2 Exit(0)@int main(void){int *p=malloc(16);int *q=malloc(8);int *r;q[0]=5;p[3]=2;free(p);r=malloc(4);*r=9;p=malloc(16);p[3]=1;potentialCheckpoint();printf("%d%d%d\n",*r,q[0],p[3]);free(q);q=malloc(4);*q=8;potentialCheckpoint();printf("%d%d\n",*q,*r);return 0;}@951⏎89⏎
0 1 1 Fault(103)@int *f(void){int x=1;return &x;}int main(void){int *p=f();int *q=malloc(4);free(q);potentialCheckpoint();printf("%d%d",p==NULL,q==NULL);return *p;}@00
0 1 3 Exit(0)@int main(void){potentialCheckpoint();MPI_Init(NULL,NULL);potentialCheckpoint();MPI_Finalize();potentialCheckpoint();return 0;}@
"#;
    for line in table.trim_matches('\n').lines() {
        let (head, rest) = line.split_once('@').expect(&rt, "a marked line");
        let (text, output) = rest.split_once('@').expect(&rt, "a program");
        let row = row_of(&rt, head, output);
        let code = code_of(rt.alloc(), text.as_bytes())?;
        for number in 0..row.marks {
            assert_comes_back(&rt, rt.alloc(), &code, &row, number)?;
        }
    }
    Ok(())
}
