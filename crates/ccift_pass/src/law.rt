//! What passed code does is what its program means, and it comes back to its marks.

ghost use Rattle.std.specs.Prelude.{◌≡◌, ℕ, ◌*◌, ◌-◌, Bool, false, List, [], length, reverse, None};
ghost use Rattle.mpi_words.specs.declared.operation.Op.{Op};
ghost use Rattle.mpi_words.specs.declared.operation.Op.TheVariants as op;
ghost use Rattle.mpi_words.specs.declared.operation.End.{End};
ghost use Rattle.mpi_words.specs.declared.operation.Reply.{Reply};
ghost use Rattle.mpi_words.specs.declared.operation.Reply.TheVariants as reply;
ghost use Rattle.c_kernel.specs.declared.program.Program.{Program};
ghost use Rattle.c_memory.specs.Memory.{Memory};
ghost use Rattle.c_meaning.specs.State.{State};
ghost use Rattle.c_meaning.specs.Step.{start};
ghost use Rattle.flat_code.specs.declared.code.Code.{Code};
ghost use Rattle.flat_code.specs.declared.code.FlatFunction.{FlatFunction};
ghost use Rattle.flat_code.specs.Machine as machine;
ghost use Rattle.flat_code.specs.Restart.{Restarting, restarting, Reenters, IsAtMark, LeadsTo, past_mark, saved_of, put_back};
ghost use Rattle.ccift_lower.specs.Lowered.{lowered};
ghost use Rattle.ccift_lower.specs.Runs.{Run, Ran, Finishes, Finished};
ghost use Rattle.ccift_pass.specs.Passed.{passed};
ghost use Rattle.ccift_pass.specs.Stages.{stages_of};

/// Fed with any replies, passed code makes the operations and the end that some run of its program makes with these replies.
pub fn follows_the_program()
    ensures runs { (p : Program) (rank ranks : ℕ) (n : machine.Machine) (asked : List (Op × Reply)) →
        Ran (passed (lowered p)).functions (machine.start (passed (lowered p)) rank ranks) asked n →
        (t : State) × Run p.functions (start p rank ranks) asked t }
    ensures ends { (p : Program) (rank ranks : ℕ) (n : machine.Machine) (asked last : List (Op × Reply)) (end : End) →
        Ran (passed (lowered p)).functions (machine.start (passed (lowered p)) rank ranks) asked n → Finished (passed (lowered p)).functions n last end →
        (t : State) × Run p.functions (start p rank ranks) asked t × Finishes p.functions t last end }
{}

/// A mark asks for its operation, and goes on when that is done.
pub fn makes_its_mark()
    ensures { (functions : List FlatFunction) (refuses : Memory → ℕ → Bool) (m : machine.Machine) → m.asked ≡ None → IsAtMark functions m →
        (mid : machine.Machine) × (machine.step functions refuses m ≡ machine.Asks op.Mark mid) × (machine.answered mid reply.Done ≡ machine.Goes false (past_mark m)) }
{}

/// Along sites that lead to a mark, restart mode stands at that mark after twice as many instructions as there are sites, less one, and at none before or after.
pub fn restarts()
    ensures reaches { (c : Code) (rank ranks : ℕ) (sites : List ℕ) (leads : LeadsTo c sites) →
        (t : Restarting) × Reenters c.functions (2 * length sites - 1) (restarting c rank ranks sites) t ×
        IsAtMark c.functions t.machine × (stages_of t.machine.frames ≡ leads.stages) }
    ensures alone { (c : Code) (rank ranks : ℕ) (sites : List ℕ) → LeadsTo c sites →
        (n : ℕ) (t : Restarting) → Reenters c.functions n (restarting c rank ranks sites) t → IsAtMark c.functions t.machine → n ≡ 2 * length sites - 1 }
{}

/// A run of passed code that stands at a mark has sites that lead there. Restart mode comes back to that mark along them, and with what was saved the machine is again what it was.
pub fn comes_back()
    ensures leads { (p : Program) (rank ranks : ℕ) (m : machine.Machine) (asked : List (Op × Reply)) →
        Ran (passed (lowered p)).functions (machine.start (passed (lowered p)) rank ranks) asked m → IsAtMark (passed (lowered p)).functions m →
        LeadsTo (passed (lowered p)) (reverse m.sites) }
    ensures returns_there { (p : Program) (rank ranks : ℕ) (m : machine.Machine) (asked : List (Op × Reply)) →
        Ran (passed (lowered p)).functions (machine.start (passed (lowered p)) rank ranks) asked m → m.asked ≡ None → IsAtMark (passed (lowered p)).functions m →
        (t : Restarting) × Reenters (passed (lowered p)).functions (2 * length m.sites - 1) (restarting (passed (lowered p)) rank ranks (reverse m.sites)) t ×
        IsAtMark (passed (lowered p)).functions t.machine × (put_back (saved_of (past_mark m)) t ≡ past_mark m) }
{}
