//! What a machine does by its turns and answers is what its program means.

ghost use Rattle.std.specs.Prelude.{◌≡◌, ℕ, List};
ghost use Rattle.mpi_words.specs.declared.operation.Op.{Op};
ghost use Rattle.mpi_words.specs.declared.operation.End.{End};
ghost use Rattle.mpi_words.specs.declared.operation.Reply.{Reply};
ghost use Rattle.c_kernel.specs.declared.program.Program.{Program};
ghost use Rattle.c_meaning.specs.State.{State};
ghost use Rattle.c_meaning.specs.Step as source;
ghost use Rattle.flat_code.specs.Machine.{start};
ghost use Rattle.ccift_lower.specs.Lowered.{lowered};
ghost use Rattle.ccift_lower.specs.Runs.{Run, Finishes};
ghost use Rattle.ccift_pass.specs.Passed.{passed};
ghost use Rattle.rank_machine.specs.Placing.{Placing};
ghost use Rattle.machine_laws.specs.Course.{Course, Ended};

/// Whatever it is answered, a machine on passed code asks for the operations and comes to the end of some run of its program with these replies.
pub fn follows_the_program()
    ensures runs { (p : Program) (rank ranks : ℕ) (first q : Placing) (asked : List (Op × Reply)) →
        first.machine ≡ start (passed (lowered p)) rank ranks → Course (passed (lowered p)).functions first asked q →
        (t : State) × Run p.functions (source.start p rank ranks) asked t }
    ensures ends { (p : Program) (rank ranks : ℕ) (first q : Placing) (asked last : List (Op × Reply)) (end : End) →
        first.machine ≡ start (passed (lowered p)) rank ranks → Course (passed (lowered p)).functions first asked q → Ended (passed (lowered p)).functions q last end →
        (t : State) × Run p.functions (source.start p rank ranks) asked t × Finishes p.functions t last end }
{}
