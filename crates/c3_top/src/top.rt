ghost use Rattle.std.specs.Prelude.{◌≡◌, ◌⊎◌, ◌≤◌, ◌<◌, ◌++◌, ℕ, List, IfOk, IfSome, codes, length, map, string_bytes};
ghost use Rattle.std.specs.Fmt.{decimal};
ghost use Rattle.c_tree.specs.declared.kind.Kind.{Kind as Cause};
ghost use Rattle.c_kernel.specs.Regular.{IsRegular};
ghost use Rattle.c3_io.specs.Faults.{Rose};
ghost use Rattle.c3_top.specs.Command.{HasFewRanks, IsCommand, IsNoCommand};
ghost use Rattle.c3_top.specs.declared.command.Command.{Command as Asked};
ghost use Rattle.c3_top.specs.declared.command.Command.TheVariants.{Plain};
ghost use Rattle.c3_top.specs.declared.status.Status.TheVariants.{Done};
ghost use Rattle.c3_top.specs.Text.{IsProgram};
ghost use Rattle.c3_top.specs.Refusal as refusals;
ghost use Rattle.c3_top.specs.Answer.{Counts, HasParts, IsAnswer, IsBadSchedule, IsDone, IsDue, IsFault, IsLeft, IsRefused, IsResult, IsTooMany, IsWriteFault, Writes, Exactly, input_limit, passed_text};

use crate::Status;
use crate::command::{Command, asked};
use crate::input::split;
use crate::program::{NoProgram, program};
use crate::refusal::refusal;
use crate::run::{all_ended, finished, run, unfinished};
use c_kernel::program::Program;
use c_tree::Kind;
use c3_base::NoMemory;
use c3_io::{ReadAllFault, Sink, Source, read_all, write_all_to};
use ccift_lower::lower;
use ccift_pass::pass;
use flat_code::print_c;
use job_schedule::{Schedule, ScheduleFault, read_schedule};
use std::alloc::Global;

/// The greatest length of the input, in bytes.
const INPUT_LIMIT: usize = 1048576;

/// A status, and the text that is written with it.
#[derive(Drop)]
struct Answer {
    status: Status,
    text: Vec<u8>,
}

fn notice(alloc: Global, status: Status, text: &[u8]) -> Result<Answer, NoMemory>
    ensures { IfOk result (λ answer. (answer.status ≡ status) × (answer.text.items ≡ text.now)) }
{
    let text = Vec::from_slice(alloc, text)?;
    Ok(Answer { status, text })
}

/// The answer where a text is no program.
fn refused(alloc: Global, kind: Kind, at: u32) -> Result<Answer, NoMemory>
    ensures { IfOk result (λ answer. (answer.status ≡ Status.Refused kind at) × (answer.text.items ≡ refusals.refusal kind at)) }
{
    Ok(Answer {
        status: Status::Refused { kind, at },
        text: refusal(alloc, kind, at)?,
    })
}

/// The answer where a word of a schedule stands for nothing.
fn bad_schedule(alloc: Global, at: u32) -> Result<Answer, NoMemory>
    ensures { IfOk result (λ answer. (answer.status ≡ Status.BadSchedule at) × (answer.text.items ≡ codes "bad schedule at " ++ decimal at ++ codes "\n")) }
{
    let text = format!(in alloc; "bad schedule at {at}\n")?;
    Ok(Answer {
        status: Status::BadSchedule { at },
        text: text.into_bytes(),
    })
}

/// The answer where a schedule has too many events.
fn too_many(alloc: Global, count: u64) -> Result<Answer, NoMemory>
    ensures { IfOk result (λ answer. (answer.status ≡ Status.TooMany count) × (answer.text.items ≡ codes "too many events " ++ decimal count ++ codes "\n")) }
{
    let text = format!(in alloc; "too many events {count}\n")?;
    Ok(Answer {
        status: Status::TooMany { count },
        text: text.into_bytes(),
    })
}

/// The answer to `plain N` for a program under a schedule.
fn ran(alloc: Global, ranks: u16, program: Program, schedule: &Schedule) -> Result<Answer, NoMemory>
    requires few { ranks ≤ 16 }
    requires regular { IsRegular program }
    ensures { IfOk result (λ answer. (text bytes : List ℕ) → HasParts text schedule.now bytes → IsProgram text program → IsResult answer.status (Plain ranks) answer.text.items bytes) }
{
    let job = run(alloc, ranks, program, schedule)?;
    if all_ended(&job, ranks) {
        return Ok(Answer {
            status: Status::Done,
            text: finished(alloc, &job, ranks)?,
        });
    }
    Ok(Answer {
        status: Status::Unfinished,
        text: unfinished(alloc, &job, ranks)?,
    })
}

/// The answer to `pass` for a program.
fn passed(alloc: Global, program: &Program) -> Result<Answer, NoMemory>
    ensures { IfOk result (λ answer. (answer.status ≡ Done) × (answer.text.items ≡ passed_text program.now)) }
{
    let code = pass(alloc, &lower(alloc, program)?)?;
    Ok(Answer {
        status: Status::Done,
        text: print_c(alloc, &code)?,
    })
}

/// The answer to a command on a text, under a schedule.
fn text_result(
    alloc: Global,
    command: Command,
    text: &[u8],
    schedule: &Schedule,
) -> Result<Answer, NoMemory>
    requires { HasFewRanks command }
    ensures { IfOk result (λ answer. (bytes : List ℕ) → HasParts text.now schedule.now bytes → IsResult answer.status command answer.text.items bytes) }
{
    match program(alloc, text) {
        Ok(program) => match command {
            Command::Plain { ranks } => ran(alloc, ranks, program, schedule),
            Command::Check => notice(alloc, Status::Done, b"accepted\n"),
            Command::Pass => passed(alloc, &program),
        },
        Err(NoProgram::Refused { kind, at }) => refused(alloc, kind, at),
        Err(NoProgram::NoMemory) => Err(NoMemory),
    }
}

/// The answer to a command on a whole input. The schedule comes before the text.
fn result_of(alloc: Global, command: Command, input: &[u8]) -> Result<Answer, NoMemory>
    requires few { HasFewRanks command }
    requires short { length input.now ≤ input_limit }
    ensures { IfOk result (λ answer. IsResult answer.status command answer.text.items input.now) }
{
    let parts = split(input);
    match read_schedule(alloc, parts.schedule) {
        Ok(schedule) => text_result(alloc, command, parts.text, &schedule),
        Err(ScheduleFault::BadEvent { at }) => bad_schedule(alloc, at),
        Err(ScheduleFault::TooMany { count }) => too_many(alloc, count),
        Err(ScheduleFault::NoMemory) => Err(NoMemory),
    }
}

/// The answer to a command.
fn answer_to<S: Source>(alloc: Global, command: Command, source: &mut S) -> Result<Answer, NoMemory>
    requires { HasFewRanks command }
    ensures later { S.faults source.old ≤ S.faults source.new }
    ensures answer { IfOk result (λ answer. IsAnswer answer.status command (S.left source.old) answer.text.items) }
    ensures counts { IfOk result (λ answer. Counts answer.status (S.faults source.old) (S.faults source.new)) }
{
    match read_all(alloc, source, INPUT_LIMIT) {
        Ok(input) => result_of(alloc, command, &input),
        Err(ReadAllFault::TooLong) => notice(alloc, Status::InputLimit, b"input too long\n"),
        Err(ReadAllFault::ReadFault) => notice(alloc, Status::ReadFault, b"read fault\n"),
        Err(ReadAllFault::NoMemory) => Err(NoMemory),
    }
}

/// What is answered, before anything is written.
fn due_answer<S: Source>(
    alloc: Global,
    words: &[String],
    source: &mut S,
) -> Result<Answer, NoMemory>
    ensures due { IfOk result (λ answer. IsDue (map string_bytes words.now) (S.left source.old) (S.faults source.old) (S.faults source.new) answer.status answer.text.items) }
    ensures untouched { IsNoCommand (map string_bytes words.now) → source.new ≡ source.old }
    ensures later { S.faults source.old ≤ S.faults source.new }
{
    match asked(words) {
        Some(command) => answer_to(alloc, command, source),
        None => notice(alloc, Status::Usage, b"usage\n"),
    }
}

/// Does what the words say with the input that the source has, writes to the sink, and tells how it ended.
pub fn c3_top<S: Source, K: Sink>(
    alloc: Global,
    words: &[String],
    source: &mut S,
    sink: &mut K,
) -> Status
    // The text that is due with the status goes out.
    ensures written { Writes
        (IsDue (map string_bytes words.now) (S.left source.old) (S.faults source.old) (S.faults source.new))
        (K.out sink.old) (K.out sink.new) result }

    // Each answer comes exactly where it should, but for a fault in its place.
    ensures usage { Exactly (IsNoCommand (map string_bytes words.now)) Status.Usage result }
    ensures refused { (kind : Cause) (at : ℕ) → IfSome (S.left source.old) (λ input.
        Exactly ((c : Asked) × IsCommand (map string_bytes words.now) c × IsRefused kind at input) (Status.Refused kind at) result) }
    ensures bad_schedule { (at : ℕ) → IfSome (S.left source.old) (λ input.
        Exactly ((c : Asked) × IsCommand (map string_bytes words.now) c × IsBadSchedule at input) (Status.BadSchedule at) result) }
    ensures too_many { (count : ℕ) → IfSome (S.left source.old) (λ input.
        Exactly ((c : Asked) × IsCommand (map string_bytes words.now) c × IsTooMany count input) (Status.TooMany count) result) }
    ensures done { IfSome (S.left source.old) (λ input.
        Exactly ((c : Asked) × IsCommand (map string_bytes words.now) c × IsDone c input) Status.Done result) }
    ensures unfinished { IfSome (S.left source.old) (λ input.
        Exactly ((c : Asked) × IsCommand (map string_bytes words.now) c × IsLeft c input) Status.Unfinished result) }
    ensures input_limit { IfSome (S.left source.old) (λ input.
        Exactly ((c : Asked) × IsCommand (map string_bytes words.now) c × (input_limit < length input)) Status.InputLimit result) }

    // A fault of reading or writing has its cause in this call, and no count falls.
    ensures read_fault { result ≡ Status.ReadFault → Rose (S.faults source.old) (S.faults source.new) }
    ensures write_fault { IsWriteFault result → Rose (K.faults sink.old) (K.faults sink.new) }
    ensures source_later { S.faults source.old ≤ S.faults source.new }
    ensures sink_later { K.faults sink.old ≤ K.faults sink.new }

    // No fault is passed over.
    ensures source_kept { IsFault result ⊎ (S.faults source.new ≡ S.faults source.old) }
    ensures sink_kept { IsWriteFault result ⊎ (K.faults sink.new ≡ K.faults sink.old) }

    // No command leaves the source as it is.
    ensures untouched { IsNoCommand (map string_bytes words.now) → source.new ≡ source.old }
{
    let Ok(answer) = due_answer(alloc, words, source) else {
        return Status::NoMemory;
    };
    match write_all_to(sink, &answer.text) {
        Ok(()) => answer.status,
        Err(fault) => Status::WriteFault { out: fault.out },
    }
}
