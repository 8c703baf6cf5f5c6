//! What lowered code does is what its program means.

ghost use Rattle.std.specs.Prelude.{◌≡◌, ℕ, List, []};
ghost use Rattle.mpi_words.specs.declared.operation.Op.{Op};
ghost use Rattle.mpi_words.specs.declared.operation.End.{End};
ghost use Rattle.mpi_words.specs.declared.operation.Reply.{Reply};
ghost use Rattle.c_kernel.specs.declared.program.Program.{Program};
ghost use Rattle.c_meaning.specs.State.{State};
ghost use Rattle.c_meaning.specs.Step.{start};
ghost use Rattle.flat_code.specs.Machine as machine;
ghost use Rattle.ccift_lower.specs.Lowered.{lowered};
ghost use Rattle.ccift_lower.specs.Stands.{StandsFor};
ghost use Rattle.ccift_lower.specs.Runs.{Run, Ran, Finishes, Finished};

/// Fed with any replies, lowered code makes the operations and the end that some run of its program makes with these replies.
pub fn follows_the_program()
    ensures runs { (p : Program) (rank ranks : ℕ) (n : machine.Machine) (asked : List (Op × Reply)) →
        Ran (lowered p).functions (machine.start (lowered p) rank ranks) asked n →
        (t : State) × Run p.functions (start p rank ranks) asked t × StandsFor (lowered p).functions t n }
    ensures ends { (p : Program) (s : State) (m : machine.Machine) (asked : List (Op × Reply)) (end : End) →
        Finished (lowered p).functions m asked end → StandsFor (lowered p).functions s m →
        (t : State) × Run p.functions s [] t × Finishes p.functions t asked end }
{}
