//! How many serials a turn takes.

ghost use Rattle.std.specs.Prelude.{◌≡◌, ◌≤◌, ℕ, Bool, List, [], Some, map};
ghost use Rattle.mpi_words.specs.declared.operation.Op.{Op};
ghost use Rattle.mpi_words.specs.declared.operation.End.{End};
ghost use Rattle.mpi_words.specs.declared.operation.Reply.{Reply};
ghost use Rattle.c_kernel.specs.declared.program.Program.{Program};
ghost use Rattle.c_kernel.specs.Regular.{IsRegular};
ghost use Rattle.flat_code.specs.declared.code.Code.{Code};
ghost use Rattle.flat_code.specs.declared.code.FlatFunction.{FlatFunction};
ghost use Rattle.flat_code.specs.Machine.{start, answered};
ghost use Rattle.flat_code.specs.Machine as machine;
ghost use Rattle.flat_code.specs.Restart.{put_back, reenter, restarting};
ghost use Rattle.ccift_lower.specs.Lowered.{lowered};
ghost use Rattle.ccift_pass.specs.Passed.{passed};
ghost use Rattle.image_text.specs.declared.state.RankState.{RankState};
ghost use Rattle.runs.specs.Turn.{Act};
ghost use Rattle.rank_machine.specs.Placing.{Placing, Turns, laid, laid_in, stepped};
ghost use Rattle.rank_machine.specs.Saving.{block_of, saved_by};
ghost use Rattle.rank_machine.specs.WellFormed.{IsWellFormed};
ghost use Rattle.turn_bounds.specs.Objects.{HasObjects};
ghost use Rattle.turn_bounds.specs.Spaced.{IsSpaced, HasCells};
ghost use Rattle.turn_bounds.specs.Settled.{After, IsSettled, most_serial, next_serial};

/// A turn in which so many statements may begin takes at most 8,192 serials for each of them and one more, and 65,536 beside.
pub fn serials()
    ensures code { (p : Program) → IsSpaced (passed (lowered p)).functions }
    ensures cells { (p : Program) → IsRegular p → HasObjects p → HasCells (passed (lowered p)).functions }
    ensures start { (c : Code) (rank ranks : ℕ) (p : Placing) → p.machine ≡ start c rank ranks → p.heap ≡ [] → IsSettled c.functions p }
    ensures step { (functions : List FlatFunction) (p : Placing) → IsSpaced functions → HasCells functions → IsSettled functions p → After (IsSettled functions) (stepped functions p) }
    ensures answer { (functions : List FlatFunction) (p q : Placing) (reply : Reply) (began : Bool) → IsSettled functions p → answered p.machine reply ≡ machine.Goes began q.machine → q.heap ≡ p.heap →
        IsSettled functions q × (next_serial q ≡ next_serial p) }
    ensures turn { (functions : List FlatFunction) (limit : ℕ) (p : Placing) (a : Act Placing Op End) → IsSpaced functions → HasCells functions → IsSettled functions p → Turns functions limit p a →
        After (λ q. IsSettled functions q × (next_serial q ≤ most_serial limit (next_serial p))) a }
{}

/// Restart mode keeps what bounds the serials of a turn, and the state that comes back at its mark has it.
pub fn restarts()
    ensures start { (c : Code) (rank ranks : ℕ) (sites : List ℕ) (p : Placing) → p.machine ≡ (restarting c rank ranks sites).machine → p.heap ≡ [] → IsSettled c.functions p }
    ensures reenter { (functions : List FlatFunction) (p q : Placing) (left more : List ℕ) → IsSettled functions p → reenter functions (record { machine = p.machine; left = left }) ≡ Some (record { machine = q.machine; left = more }) → laid q ≡ laid_in functions p.machine (laid p) p.machine.frames →
        IsSettled functions q }
    ensures back { (functions : List FlatFunction) (c : Code) (p q : Placing) (left : List ℕ) (s : RankState) → IsSettled functions p → IsWellFormed c s → q.machine ≡ put_back (saved_by s) (record { machine = p.machine; left = left }) → q.heap ≡ map block_of s.objects →
        IsSettled functions q }
{}
