//! Flat code, a word an instruction.

use c_check::check;
use c_parse::parse;
use ccift_lower::lower;
use flat_code::{Code, Instr};
use sqlite_items::Boxed;
use std::alloc::Global;
use std::process::Abort;
use std::test::Fail;

/// An instruction, with its number where it has one.
fn push_word(text: &mut String, i: &Instr) -> Result<(), Fail> {
    match i {
        Instr::Step => text.push_str(" step")?,
        Instr::Zero(k) => write!(text, " zero{k}")?,
        Instr::Set { .. } => text.push_str(" set")?,
        Instr::Call { into, function, .. } => {
            let mark = if into.is_some() { "=" } else { "" };
            write!(text, " call{function}{mark}")?
        }
        Instr::Malloc { .. } => text.push_str(" malloc")?,
        Instr::Free(_) => text.push_str(" free")?,
        Instr::Goto(to) => write!(text, " goto{to}")?,
        Instr::Unless { to, .. } => write!(text, " unless{to}")?,
        Instr::Return(None) => text.push_str(" return")?,
        Instr::Return(Some(_)) => text.push_str(" return=")?,
        Instr::Mark(site) => write!(text, " mark{site}")?,
        Instr::Push(site) => write!(text, " push{site}")?,
        Instr::Pop => text.push_str(" pop")?,
        Instr::Leave => text.push_str(" leave")?,
        Instr::Enter { variables, sites } => {
            write!(text, " enter{variables}")?;
            for site in sites.as_slice() {
                let number = site.number;
                let place = site.place;
                write!(text, ",{number}:{place}")?;
            }
        }
        Instr::Print { .. } => text.push_str(" print")?,
        Instr::Mpi(_) => text.push_str(" mpi")?,
    }
    Ok(())
}

/// The functions' instructions, with `|` between functions.
fn shown(alloc: Global, code: &Code) -> Result<String, Fail> {
    let mut text = String::new(alloc);
    for (k, f) in code.functions.as_slice().iter().enumerate() {
        if k > 0 {
            text.push_str(" |")?;
        }
        for i in f.code.as_slice() {
            push_word(&mut text, i)?;
        }
    }
    Ok(text)
}

/// The flat code of a program's text.
fn code_of(alloc: Global, text: &[u8]) -> Result<Boxed<Code>, Fail> {
    let tree = Boxed::new(alloc, parse(alloc, text)?)?;
    let program = Boxed::new(alloc, check(alloc, tree.get())?)?;
    Ok(Boxed::new(alloc, lower(alloc, program.get())?)?)
}

/// Each line is a program after the front, and after its `@` its flat code.
fn assert_lowered(rt: &impl Abort, alloc: Global, front: &str, table: &str) -> Result<(), Fail> {
    for line in table.trim().lines() {
        let (rest, expected) = line.split_once('@').expect(rt, "a marked line");
        let mut text = String::from_str(alloc, front)?;
        text.push_str(rest)?;
        let code = code_of(alloc, text.as_bytes())?;
        let shown = shown(alloc, code.get())?;
        assert_eq!(rt; shown.as_str().trim_start(), expected, "at {line}");
    }
    Ok(())
}

#[test]
fn single_statements_are_lowered(rt: HostRuntime) -> Result<(), Fail> {
    let table = r#"
int main(void){}@step return=
int main(void){return 3;}@step step return= return=
int main(void){int a,b=2;a=b;a++;;}@step step zero0 set step set step set step return=
int main(void){{int a;{}}}@step step step zero0 step return=
void f(void){}int main(void){f();}@step return | step step call0 return=
int f(int a){return a;}int main(void){int x;x=f(1);}@step step return= return= | step step zero0 step call0= return=
int *f(void){}int main(void){}@step return= | step return=
int main(void){int *p;p=malloc(4);free(p);}@step step zero0 step malloc step free return=
int main(void){printf("a");potentialCheckpoint();MPI_Finalize();}@step step print step mark0 step mpi return=
"#;
    assert_lowered(&rt, rt.alloc(), "", table)
}

#[test]
fn branches_and_loops_are_lowered(rt: HostRuntime) -> Result<(), Fail> {
    let table = r#"
if(x)x=1;}@step step zero0 step unless7 step set return=
if(x)x=1;else x=2;}@step step zero0 step unless8 step set goto10 step set return=
if(x)x=1;else if(x)x=2;else x=3;}@step step zero0 step unless8 step set goto14 unless12 step set goto14 step set return=
if(x)x=1;else if(x)x=2;}@step step zero0 step unless8 step set goto11 unless11 step set return=
if(x);else;}@step step zero0 step unless7 step goto8 step return=
while(x)x=0;}@step step zero0 step unless8 step set goto4 return=
do x=0;while(x);}@step step zero0 step step set unless8 goto4 return=
for(x=0;x<3;x++)x=x;}@step step zero0 step set unless10 step set set goto5 return=
for(x=0;;x++)x=x;}@step step zero0 step set step set set goto5 return=
for(x=0;x<3;)x=x;}@step step zero0 step set unless9 step set goto5 return=
for(;;);}@step step zero0 step step goto4 return=
for(int i=0,j=1;i<j;)i=j;}@step step zero0 step set set unless10 step set goto6 return=
while(x){break;continue;}}@step step zero0 step unless11 step step goto11 step goto4 goto4 return=
for(;x;x=1)continue;}@step step zero0 step unless9 step goto7 set goto4 return=
do continue;while(x);}@step step zero0 step step goto6 unless8 goto4 return=
while(x){while(x)break;break;}}@step step zero0 step unless14 step step unless11 step goto11 goto7 step goto14 goto4 return=
while(x)return 1;}@step step zero0 step unless8 step return= goto4 return=
"#;
    assert_lowered(&rt, rt.alloc(), "int main(void){int x;", table)
}
