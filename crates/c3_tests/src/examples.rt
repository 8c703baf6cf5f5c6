//! The programs of examples/, whose outputs are an MPI library's where it gives one.

use crate::rows::{answered, line_after};
use std::alloc::Global;
use std::process::Abort;
use std::test::Fail;

const RING: &str = r#"#include <mpi.h>
#include <stdio.h>

/* A token goes round twice, and each rank adds one to it. */
int main(int argc, char **argv) {
  int rank, size, round, token = 0;
  MPI_Init(&argc, &argv);
  MPI_Comm_rank(MPI_COMM_WORLD, &rank);
  MPI_Comm_size(MPI_COMM_WORLD, &size);
  int next = (rank + 1) % size;
  int last = (rank + size - 1) % size;
  for (round = 1; round <= 2; round++) {
    if (rank > 0) {
      MPI_Recv(&token, 1, MPI_INT, last, round, MPI_COMM_WORLD, MPI_STATUS_IGNORE);
    }
    token++;
    MPI_Send(&token, 1, MPI_INT, next, round, MPI_COMM_WORLD);
    if (rank == 0) {
      MPI_Recv(&token, 1, MPI_INT, last, round, MPI_COMM_WORLD, MPI_STATUS_IGNORE);
      printf("round %d: the token is %d\n", round, token);
    }
  }
  MPI_Finalize();
  return 0;
}
"#;

const STENCIL: &str = r#"#include <mpi.h>
#include <stdio.h>
#include <stdlib.h>

/* Heat in a rod: each rank has four cells and a copy of its neighbours' nearest ones. A step takes the mean of three cells. */
int main(int argc, char **argv) {
  int rank, size, i, step;
  MPI_Init(&argc, &argv);
  MPI_Comm_rank(MPI_COMM_WORLD, &rank);
  MPI_Comm_size(MPI_COMM_WORLD, &size);
  int left = rank > 0 ? rank - 1 : MPI_PROC_NULL;
  int right = rank < size - 1 ? rank + 1 : MPI_PROC_NULL;
  long *old = (long *)malloc(6 * sizeof(long));
  long *new = (long *)malloc(6 * sizeof(long));
  for (i = 0; i < 6; i++) {
    old[i] = 0;
    new[i] = 0;
  }
  if (rank == 0) old[4] = 2700;
  for (step = 0; step < 3; step++) {
    #pragma ccc checkpoint
    MPI_Send(&old[1], 1, MPI_LONG, left, 1, MPI_COMM_WORLD);
    MPI_Send(&old[4], 1, MPI_LONG, right, 2, MPI_COMM_WORLD);
    MPI_Recv(&old[0], 1, MPI_LONG, left, 2, MPI_COMM_WORLD, MPI_STATUS_IGNORE);
    MPI_Recv(&old[5], 1, MPI_LONG, right, 1, MPI_COMM_WORLD, MPI_STATUS_IGNORE);
    for (i = 1; i <= 4; i++) new[i] = (old[i - 1] + old[i] + old[i + 1]) / 3;
    long *other = old;
    old = new;
    new = other;
  }
  for (i = 1; i <= 4; i++) printf("%ld ", old[i]);
  printf("\n");
  free(old);
  free(new);
  MPI_Finalize();
  return 0;
}
"#;

const WORKERS: &str = r#"#include <mpi.h>
#include <stdio.h>

int divisors(int n) {
  int d, count = 0;
  for (d = 1; d <= n; d++) {
    if (n % d == 0) count++;
  }
  return count;
}

/* Rank 0 hands out the numbers from 10 to 15, each to the worker that asks first; a worker asks with its last answer. */
int main(int argc, char **argv) {
  int rank, size, working, task, next = 10;
  int report[2];
  MPI_Status status;
  MPI_Init(&argc, &argv);
  MPI_Comm_rank(MPI_COMM_WORLD, &rank);
  MPI_Comm_size(MPI_COMM_WORLD, &size);
  if (rank == 0) {
    working = size - 1;
    while (working > 0) {
      MPI_Recv(report, 2, MPI_INT, MPI_ANY_SOURCE, 0, MPI_COMM_WORLD, &status);
      if (report[0] > 0) {
        printf("%d has %d divisors, says %d\n", report[0], report[1], status.MPI_SOURCE);
      }
      task = next > 15 ? 0 : next;
      if (task == 0) working--;
      MPI_Send(&task, 1, MPI_INT, status.MPI_SOURCE, 1, MPI_COMM_WORLD);
      next++;
    }
  } else {
    report[0] = 0;
    do {
      MPI_Send(report, 2, MPI_INT, 0, 0, MPI_COMM_WORLD);
      MPI_Recv(&task, 1, MPI_INT, 0, 1, MPI_COMM_WORLD, MPI_STATUS_IGNORE);
      report[0] = task;
      if (task > 0) report[1] = divisors(task);
    } while (task > 0);
  }
  MPI_Finalize();
  return 0;
}
"#;

const DEADLOCK: &str = r#"#include <mpi.h>
#include <stdio.h>

/* Two ranks swap a number, but each waits for the other's before it sends its own. */
int main(int argc, char **argv) {
  int rank, mine, other;
  MPI_Init(&argc, &argv);
  MPI_Comm_rank(MPI_COMM_WORLD, &rank);
  mine = rank + 1;
  printf("rank %d waits\n", rank);
  MPI_Recv(&other, 1, MPI_INT, 1 - rank, 0, MPI_COMM_WORLD, MPI_STATUS_IGNORE);
  MPI_Send(&mine, 1, MPI_INT, 1 - rank, 0, MPI_COMM_WORLD);
  printf("rank %d got %d\n", rank, other);
  MPI_Finalize();
  return 0;
}
"#;

/// What is written for the words, the program and a schedule.
fn assert_run(
    rt: &impl Abort,
    alloc: Global,
    words: &str,
    program: &str,
    schedule: &str,
    answer: &str,
) -> Result<(), Fail> {
    let input = line_after(alloc, program, schedule)?;
    let answer = line_after(alloc, "", answer)?;
    let (_, written) = answered(alloc, words, input.as_bytes())?;
    assert_eq!(rt; written.as_slice(), answer.as_bytes());
    Ok(())
}

#[test]
fn a_token_goes_round(rt: HostRuntime) -> Result<(), Fail> {
    let answer =
        "rank 0 exit 0 bytes 48⏎round 1: the token is 4⏎round 2: the token is 8⏎rank 1 exit 0 bytes 0⏎rank 2 exit 0 bytes 0⏎rank 3 exit 0 bytes 0⏎finished⏎";
    assert_run(&rt, rt.alloc(), "plain 4", RING, "", answer)
}

#[test]
fn heat_crosses_ranks(rt: HostRuntime) -> Result<(), Fail> {
    let answer =
        "rank 0 exit 0 bytes 17⏎100 300 600 700 ⏎rank 1 exit 0 bytes 15⏎600 300 100 0 ⏎rank 2 exit 0 bytes 9⏎0 0 0 0 ⏎finished⏎";
    assert_run(&rt, rt.alloc(), "plain 3", STENCIL, "", answer)
}

#[test]
fn who_asks_first_gets_the_task(rt: HostRuntime) -> Result<(), Fail> {
    let in_turn =
        "rank 0 exit 0 bytes 156⏎10 has 4 divisors, says 1⏎11 has 2 divisors, says 2⏎12 has 6 divisors, says 1⏎13 has 2 divisors, says 2⏎14 has 4 divisors, says 1⏎15 has 4 divisors, says 2⏎rank 1 exit 0 bytes 0⏎rank 2 exit 0 bytes 0⏎finished⏎";
    assert_run(&rt, rt.alloc(), "plain 3", WORKERS, "", in_turn)?;
    let one_late =
        "rank 0 exit 0 bytes 156⏎10 has 4 divisors, says 1⏎11 has 2 divisors, says 1⏎12 has 6 divisors, says 1⏎13 has 2 divisors, says 2⏎14 has 4 divisors, says 1⏎15 has 4 divisors, says 2⏎rank 1 exit 0 bytes 0⏎rank 2 exit 0 bytes 0⏎finished⏎";
    let schedule = "#pragma ccc schedule⏎t1*9 t0*9 t1*9 t0*9 t1*9 t0*9 r*99";
    assert_run(&rt, rt.alloc(), "plain 3", WORKERS, schedule, one_late)
}

#[test]
fn two_ranks_wait_for_each_other(rt: HostRuntime) -> Result<(), Fail> {
    let answer = "rank 0 running ops 1 bytes 13⏎rank 1 running ops 1 bytes 13⏎unfinished⏎";
    assert_run(&rt, rt.alloc(), "plain 2", DEADLOCK, "", answer)
}
