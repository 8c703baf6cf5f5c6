//! Broken states, with the row of an image that is told of each.

use crate::course::code_of;
use crate::states::{assert_same, assert_within};
use crate::written::state_of;
use flat_code::Code;
use image_text::{Field, RankState};
use rank_image::{RestoreFault, breach, restore};
use sqlite_items::Boxed;
use std::alloc::Global;
use std::process::Abort;
use std::rc::Rc;
use std::test::Fail;

fn field(rt: &impl Abort, name: &str) -> Option<Field> {
    match name {
        "sites" => Some(Field::Sites),
        "variables" => Some(Field::Variables),
        "objects" => Some(Field::Objects),
        _ => {
            assert_eq!(rt; name, "-");
            None
        }
    }
}

/// Why a state doesn't come back. One that does is the machine's state again.
fn refusal(
    rt: &impl Abort,
    alloc: Global,
    code: &Rc<Code>,
    state: &RankState,
) -> Result<Option<Field>, Fail> {
    assert_within(rt, state);
    match restore(alloc, code, 0, 1, state) {
        Err(RestoreFault::BadImage { field }) => Ok(Some(field)),
        Err(RestoreFault::NoMemory) => panic!(rt; "no memory"),
        Ok(machine) => {
            assert_same(rt, &machine, state)?;
            Ok(None)
        }
    }
}

/// A state has this breach, and comes back where it has none.
fn assert_breach(rt: &impl Abort, alloc: Global, code: &Rc<Code>, line: &str) -> Result<(), Fail> {
    let (text, name) = line.split_once('@').expect(rt, "a marked line");
    let expected = field(rt, name);
    let state = Boxed::new(alloc, state_of(rt, alloc, text)?)?;
    assert_within(rt, state.get());
    let row = breach(alloc, code, state.get())?;
    assert_eq!(rt; row, expected, "at {line}");
    let refused = refusal(rt, alloc, code, state.get())?;
    assert_eq!(rt; refused, expected, "at {line}");
    Ok(())
}

/// Each part between `§`s is a program, and then lines of states, with an `@` and the row that is told.
fn assert_breaches(rt: &impl Abort, alloc: Global, table: &str) -> Result<(), Fail> {
    for part in table.split('§') {
        let (program, rows) = part.trim().split_once('\n').expect(rt, "a program");
        let code = code_of(alloc, program.as_bytes())?;
        for line in rows.lines() {
            assert_breach(rt, alloc, &code, line)?;
        }
    }
    Ok(())
}

// In the first program `f` has site 1, its mark, and 3 cells with its own; `g` site 2, its call of `f`, and 5; `main` sites 3, its
// mark, 4, its call of `f`, and 5, its call of `g`, and 7. In the second the calls take 4,191 and 4,001 cells, of 8,192.
#[test]
fn the_first_broken_row_is_told(rt: HostRuntime) -> Result<(), Fail> {
    let table = r#"
int f(int n){int r=n;potentialCheckpoint();return r;}int g(void){int b[3];b[0]=1;int y=f(b[0]);return y;}int main(void){int x=2;int a[4];int *p=malloc(8);potentialCheckpoint();a[0]=f(x);x=g();return x;}
9;3;1:1:2 2:2:*4 3:6:0.4;4:0:*2@-
9;4 1;1:1:2 2:2:*4 3:6:0.4 5:8:2 6:9:2;4:0:*2@-
20;5 2 1;1:1:2 2:2:*4 3:6:0.4 7:8:*3 8:11:0 9:13:1 10:14:1;4:0:*2@-
9 2 1048576 140735340871680;3;1:1:2 2:2:*4 3:6:0.4;4:0:*2@-
5;3;1:1:2 2:2:*4 3:6:0.4;4:0:*2@-
4;3;1:1:2 2:2:*4 3:6:0.3;@-
576451956210401280;3;1:1:2 2:2:*4 576451956210401279:6:0.576451956210401279;4:0:*2@-
9;3;1:1:2 4:2:*4 8:6:0;3:0:*2@-
9;3;1:1:-9223372036854775808 2:2:7.1,9223372036854775807.2,-1.8,0 3:6:0.7;4:0:5.4,6.8@-
9;3;1:1:2 2:2:*4 3:6:0.4;8:0:*2 4:2:*3 6:5:1@-
9;3;1:1:2 2:2:*4 3:6:0.4;4:5:*2 8:100:1@-
9;3;1:1:2 2:2:*4 3:6:0.4;4:65535:1@-
9;3;1:1:2 2:2:*4 3:6:0.4;4:0:*65536@-
9;3;1:1:2 2:2:*4 3:6:0.4;4:0:*32768 5:32768:*32768@-
9;;;@sites
9;;1:1:2 2:2:*4 3:6:0.4;4:0:*2@sites
9;0;1:1:2 2:2:*4 3:6:0.4;4:0:*2@sites
9;1;1:1:2 2:2:*4 3:6:0.4;4:0:*2@sites
9;2;1:1:2 2:2:*4 3:6:0.4;4:0:*2@sites
9;6;1:1:2 2:2:*4 3:6:0.4;4:0:*2@sites
9;4294967295;1:1:2 2:2:*4 3:6:0.4;4:0:*2@sites
9;4;1:1:2 2:2:*4 3:6:0.4;4:0:*2@sites
9;5;1:1:2 2:2:*4 3:6:0.4;4:0:*2@sites
9;3 1;1:1:2 2:2:*4 3:6:0.4;4:0:*2@sites
9;3 3;1:1:2 2:2:*4 3:6:0.4;4:0:*2@sites
9;1 4;1:1:2 2:2:*4 3:6:0.4;4:0:*2@sites
9;4;1:1:2 2:2:*4 3:6:0.4 5:8:2 6:9:2;4:0:*2@sites
9;3 1;1:1:2 2:2:*4 3:6:0.4 5:8:2 6:9:2;4:0:*2@sites
9;4 0;1:1:2 2:2:*4 3:6:0.4 5:8:2 6:9:2;4:0:*2@sites
9;4 2;1:1:2 2:2:*4 3:6:0.4 5:8:2 6:9:2;4:0:*2@sites
9;4 3;1:1:2 2:2:*4 3:6:0.4 5:8:2 6:9:2;4:0:*2@sites
9;4 4;1:1:2 2:2:*4 3:6:0.4 5:8:2 6:9:2;4:0:*2@sites
9;4 1 1;1:1:2 2:2:*4 3:6:0.4 5:8:2 6:9:2;4:0:*2@sites
9;1 4;1:1:2 2:2:*4 3:6:0.4 5:8:2 6:9:2;4:0:*2@sites
20;5 2;1:1:2 2:2:*4 3:6:0.4 7:8:*3 8:11:0;4:0:*2@sites
20;5 1;1:1:2 2:2:*4 3:6:0.4 7:8:*3 8:11:0;4:0:*2@sites
20;5 3;1:1:2 2:2:*4 3:6:0.4 7:8:*3 8:11:0;4:0:*2@sites
20;5 5;1:1:2 2:2:*4 3:6:0.4 7:8:*3 8:11:0;4:0:*2@sites
20;5 2 0;1:1:2 2:2:*4 3:6:0.4 7:8:*3 8:11:0 9:13:1 10:14:1;4:0:*2@sites
20;5 2 2;1:1:2 2:2:*4 3:6:0.4 7:8:*3 8:11:0 9:13:1 10:14:1;4:0:*2@sites
20;5 2 3;1:1:2 2:2:*4 3:6:0.4 7:8:*3 8:11:0 9:13:1 10:14:1;4:0:*2@sites
20;5 2 1 1;1:1:2 2:2:*4 3:6:0.4 7:8:*3 8:11:0 9:13:1 10:14:1;4:0:*2@sites
20;1 2 5;1:1:2 2:2:*4 3:6:0.4 7:8:*3 8:11:0 9:13:1 10:14:1;4:0:*2@sites
9;3;;4:0:*2@variables
9;3;1:1:2 2:2:*4;4:0:*2@variables
9;3;2:2:*4 3:6:0.4;4:0:*2@variables
9;3;1:1:2 2:2:*4 3:6:0.4 5:7:0;4:0:*2@variables
9;3;1:1:2 2:2:*4 3:6:0.4 5:8:2 6:9:2;4:0:*2@variables
9;3;1:0:2 2:1:*4 3:5:0.4;4:0:*2@variables
9;3;1:1:2 2:2:*4 3:7:0.4;4:0:*2@variables
9;3;1:1:2 2:2:*3 3:6:0.4;4:0:*2@variables
9;3;1:1:2 2:2:*5 3:6:0.4;4:0:*2@variables
9;3;1:1:*0 2:2:*4 3:6:0.4;4:0:*2@variables
9;3;1:1:*4 2:5:2 3:6:0.4;4:0:*2@variables
9;3;2:2:*4 1:1:2 3:6:0.4;4:0:*2@variables
9;3;1:1:2 2:4294967295:*4 3:6:0.4;4:0:*2@variables
9;3;2:1:2 1:2:*4 3:6:0.4;4:0:*2@variables
9;3;1:1:2 1:2:*4 3:6:0.4;4:0:*2@variables
9;3;1:1:2 3:2:*4 3:6:0.4;4:0:*2@variables
9;3;0:1:2 2:2:*4 3:6:0.4;4:0:*2@variables
9;3;1:1:2 2:2:*4 9:6:0.4;4:0:*2@variables
9;3;1:1:2 2:2:*4 18446744073709551615:6:0.4;4:0:*2@variables
9;3;1:1:2.9 2:2:*4 3:6:0.4;4:0:*2@variables
9;3;1:1:2 2:2:0,0,0.9,0 3:6:0.4;4:0:*2@variables
9;3;1:1:2 2:2:*4 3:6:0.18446744073709551615;4:0:*2@variables
3;3;1:1:2 2:2:*4 3:6:0.1;@variables
1;3;1:1:2 2:2:*4 3:6:0.4;@variables
9;4 1;1:1:2 2:2:*4 3:6:0.4;4:0:*2@variables
9;4 1;1:1:2 2:2:*4 3:6:0.4 5:7:2 6:8:2;4:0:*2@variables
9;4 1;1:1:2 2:2:*4 3:6:0.4 5:8:2;4:0:*2@variables
20;5 2 1;1:1:2 2:2:*4 3:6:0.4 7:8:1 8:9:1 9:11:*3 10:14:0;4:0:*2@variables
20;5 2 1;1:1:2 2:2:*4 3:6:0.4 7:8:*3 8:11:0 9:13:1 8:14:1;4:0:*2@variables
9;3;1:1:2 2:2:*4 3:6:0.4;4:0:*0@objects
9;3;1:1:2 2:2:*4 3:6:0.4;4:0:*2 5:2:*0 6:2:1@objects
9;3;1:1:2 2:2:*4 3:6:0.4;4:65536:*0@objects
9;3;1:1:2 2:2:*4 3:6:0.4;4:0:*2 5:1:1@objects
9;3;1:1:2 2:2:*4 3:6:0.4;4:0:*2 5:0:*2@objects
9;3;1:1:2 2:2:*4 3:6:0.4;4:0:*5 5:1:1 6:7:1@objects
9;3;1:1:2 2:2:*4 3:6:0.4;4:8:*2 5:0:*2@objects
9;3;1:1:2 2:2:*4 3:6:0.4;4:65536:1@objects
9;3;1:1:2 2:2:*4 3:6:0.4;4:65535:*2@objects
9;3;1:1:2 2:2:*4 3:6:0.4;4:1:*65536@objects
9;3;1:1:2 2:2:*4 3:6:0.4;4:0:*65537@objects
9;3;1:1:2 2:2:*4 3:6:0.4;4:0:*32768 5:32768:*32769@objects
9;3;1:1:2 2:2:*4 3:6:0.4;4:4294967295:1@objects
9;3;1:1:2 2:2:*4 3:6:0.4;0:0:*2@objects
9;3;1:1:2 2:2:*4 3:6:0.4;9:0:*2@objects
9;3;1:1:2 2:2:*4 3:6:0.4;4:0:*2 10:2:1@objects
9;3;1:1:2 2:2:*4 3:6:0.4;18446744073709551615:0:*2@objects
9;3;1:1:2 2:2:*4 3:6:0.4;4:0:0,0.9@objects
9;3;1:1:2 2:2:*4 3:6:0.4;4:0:1.18446744073709551615,2@objects
9;3;1:1:2 2:2:*4 3:6:0.4;4:0:*2 4:2:1@objects
9;3;1:1:2 2:2:*4 3:6:0.4;4:0:*2 5:2:1 4:9:1@objects
9;3;1:1:2 2:2:*4 3:6:0.4;1:0:*2@objects
9;3;1:1:2 2:2:*4 3:6:0.4;3:0:*2@objects
9;3;1:1:2 2:2:*4 3:6:0.4;4:0:*2 2:2:1@objects
9;4;;4:0:*2@sites
9;4;1:1:2 2:2:*4 3:6:0.4;4:0:*0@sites
9;;9:1:2;9:65536:1@sites
1;6;1:1:2 2:2:*4 3:6:0.4;4:0:*2@sites
9;3;1:1:2 2:2:*4;4:0:*0@variables
9;3;1:1:2 2:2:*4 9:6:0;9:0:1@variables
9;3;1:1:2 2:2:*4 3:6:0.9;4:0:0.9@variables
9;3;2:1:2 1:2:*4 3:6:0.4;1:0:*2 1:1:*2@variables
9;3;1:1:2 2:2:*4 3:7:0.4;3:0:*2@variables
9;3;1:1:2 2:2:*4 3:6:0.4;1:65536:*0@objects
§
int f(void){int b[4000];b[0]=1;potentialCheckpoint();return 0;}int main(void){int a[4190];a[0]=f();return 0;}
9;2 1;1:1:*4190 2:4192:*4000;@-
9;2 1;1:1:*4190 2:4191:*4000;@variables
9;2 1;1:1:*4190;@variables
§
int f(void){int b[4000];b[0]=1;potentialCheckpoint();return 0;}int main(void){int a[4191];a[0]=f();return 0;}
9;2 1;1:1:*4191 2:4193:*4000;@sites
§
int main(void){int a[8191];a[0]=1;potentialCheckpoint();return 0;}
9;1;1:1:*8191;@-
§
int main(void){int a[8192];a[0]=1;potentialCheckpoint();return 0;}
9;1;1:1:*8192;@sites
§
int main(void){potentialCheckpoint();return 0;}
1;1;;@-
2;1;;1:0:1.1@-
1;1;;1:0:1@objects
2;1;;1:0:1.2@objects
2;1;1:1:0;@variables
"#;
    assert_breaches(&rt, rt.alloc(), table)
}
