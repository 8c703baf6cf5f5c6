//! The core of the checkpoint protocol as a pure machine, and its laws, over every list of events, sessions and restarts, for any
//! deterministic ranks. Each public function here is empty: its contract is a law. `specs` holds the machine:
//!
//! - `Rows`, `Process`, `Quiet`: data per rank, ranks and their turns, and the job without a protocol.
//! - `Protocol`, `Written`, `Handling`: layers, channels, controls and their moves; images and logs; what happens at each event.
//! - `Stopping`, `Line`, `Replay`, `Plan`: what images and logs stand for, ranks that replay from them, and a replay that ends.
//! - `Core`, `CoreEvents`, `SessionEnd`: the whole machine, its events, sweeps, kills, restarts and sessions.
//! - `Effects`, `Files`, `DiskSessions`: what each event writes, the files that keep it, and sessions over files.
//! - `Pausing`: ranks whose turns may pause.
//! - `Ties`: when lists of values stand for data per rank.
//! - `CoreTies`: when what code holds stands for a core, and what an event comes to there.
//!
//! and what the laws say of it:
//!
//! | Law | Says | Defined in |
//! |---|---|---|
//! | `kept` | every event, restart and session keeps the invariant; in a wave the live state is reached by a quiet run; what the files have of a committed line is one | `Invariant`, `Kept` |
//! | `never_sticks` | without a killed rank, a rank that restores has a turn or delivery that has an effect | `Kept` |
//! | `kept_with_pauses`, `never_sticks_with_pauses` | the same of ranks that pause, with a bound on the events since the beginning or the restart | `PausingKept` |
//! | `sessions_with_pauses` | the same where a session begins from a line that an earlier one committed, whose line stands for every larger bound | `PausingKept` |
//! | `filed` | after each event's effects the files have the saved images, the stopped logs, the committed line and each rank's output; a restart cuts the outputs back to the line's | `Files` |
//! | `kept_on_disk` | over any list of sessions that begin from what the files have, all this is kept | `DiskSessions` |
//! | `prompt`, `prompt_with_pauses` | after each event no Ready and no Stop is due, and an event commits at most one line | `Prompt` |
//! | `four_sweeps`, `four_sweeps_with_pauses` | once every rank has saved and none is killed, events with four sweeps among them commit the line | `Sweeps` |
//! | `written_commit` | an event that commits a line has that Commit among its effects | `Effects` |
//! | `regular` | who logs has saved in the wave under way; who is asked has not, and has an empty log | `CoreTies` |
//! | `says` | each Ready and Stopped on the way says the line of the wave | `Says` |
#![tactic(auto)]

ghost use Rattle.std.specs.List.{AllByRecursion};
ghost use Rattle.std.specs.Prelude.{◌≡◌, ◌<◌, ◌≤◌, ℕ, suc, Bool, List, length, true, false};
ghost use Rattle.core_laws.specs.Effects.{Commits, effects_of, Has};
ghost use Rattle.core_laws.specs.DiskSessions.{disk_sessions, empty_disk};
ghost use Rattle.core_laws.specs.Files.{cut_back, Filed, Files, with_effects};
ghost use Rattle.core_laws.specs.Quiet.{IsReached, IsReached_of, Quiet};
ghost use Rattle.core_laws.specs.Process.{Process, Rank, Ranks, ranks};
ghost use Rattle.core_laws.specs.Core.{Core, is_back};
ghost use Rattle.core_laws.specs.CoreEvents.{Core_event, Session_event, next, next_of, restart_from, restart_of, session, session_of, session_next_of, start, start_of};
ghost use Rattle.core_laws.specs.Written.{Written};
ghost use Rattle.core_laws.specs.Kept.{Committed, IsKept, IsLive, MovesOn};
ghost use Rattle.core_laws.specs.SessionEnd.{finished, session_to_end};
ghost use Rattle.core_laws.specs.Sweeps.{AllSaved, CommitsAfter, Peaceful, Staged, sweeps_in, with_sweep};
ghost use Rattle.core_laws.specs.Prompt.{Prompt};
ghost use Rattle.core_laws.specs.PausingKept.{CommittedPausing, IsKeptPausing, IsKeptWithin, IsLagPausing, IsLivePausing, MovesOnPausing};
ghost use Rattle.core_laws.specs.Pausing.{Stepping, stepping, without_pauses};
ghost use Rattle.core_laws.specs.Says.{Says};
ghost use Rattle.core_laws.specs.CoreTies.{Regular};

/// Whatever the ranks are and whatever happens, all is kept: each event keeps it, and so does a restart from a line that stands.
pub fn kept<State>()
    ensures begins { (process : Process State) (n : ℕ) → IsKept process n (start process) }
    ensures next { (process : Process State) (n : ℕ) (core : Core State) (event : Core_event) → IsKept process n core → IsKept process n (next process n core event) }
    ensures restart { (process : Process State) (n line : ℕ) (saved : ℕ → Written State) → Committed process n saved → IsKept process n (restart_from line saved) }
    ensures session { (process : Process State) (n : ℕ) (events : List Session_event) → IsKept process n (session process n (start process) events) }
    ensures live { (process : Process State) (n : ℕ) (core : Core State) → IsKept process n core → core.protocol.wave.under_way ≡ true → IsLive process n core }
    ensures disk { (process : Process State) (n : ℕ) (files : Files State) (core : Core State) → IsKept process n core → Filed n files core → 0 < files.line → Committed process n files.committed }
{}

/// Where no rank is killed and some rank restores, some turn of such a rank, or some delivery to one, has an effect.
pub fn never_sticks<State>()
    ensures { (process : Process State) (n : ℕ) (core : Core State) (rank : ℕ) → IsKept process n core → ((r : ℕ) → r < n → core.killed r ≡ false) → rank < n → is_back (core.one rank) ≡ false → MovesOn process n core }
{}

/// The same where a turn may pause before the rank wants an operation, by states that a quiet run of the pausing ranks reaches.
/// `bound` is at least the number of events since the beginning or the restart.
pub fn kept_with_pauses<State>()
    ensures begins { (process : Stepping State) (n bound most : ℕ) → IsKeptWithin process n bound most (start_of (stepping process)) }
    ensures next { (process : Stepping State) (n bound most : ℕ) (core : Core State) (event : Core_event) → most ≤ bound → IsKeptWithin process n bound most core → IsKeptWithin process n bound (suc most) (next_of (stepping process) n core event) }
    ensures saved { (process : Stepping State) (n bound most : ℕ) (core : Core State) → IsKeptWithin process n bound most core → Committed (without_pauses bound process) n core.saved }
    ensures restart { (process : Stepping State) (n bound most line : ℕ) (saved : ℕ → Written State) → Committed (without_pauses bound process) n saved → IsKeptWithin process n bound most (restart_from line saved) }
    ensures session { (process : Stepping State) (n : ℕ) (events : List Session_event) → IsKeptWithin process n (length events) (length events) (session_of (stepping process) n (start_of (stepping process)) events) }
    ensures reached { (process : Stepping State) (n bound : ℕ) (state : Quiet State) → IsReached (without_pauses bound process) n state → IsReached_of (stepping process) n state }
    ensures lag { (process : Stepping State) (n bound most : ℕ) (core : Core State) → most ≤ bound → IsKeptWithin process n bound most core → IsLagPausing process n bound core }
    ensures live { (process : Stepping State) (n bound most : ℕ) (core : Core State) → IsKeptWithin process n bound most core → core.protocol.wave.under_way ≡ true → IsLivePausing process n core }
{}

/// Over sessions of ranks that pause, each from the beginning or from a line that an earlier session committed, with bounds that are as large as one likes.
pub fn sessions_with_pauses<State>()
    ensures begins { (process : Stepping State) (n : ℕ) → IsKeptPausing process n (start_of (stepping process)) }
    ensures next { (process : Stepping State) (n : ℕ) (core : Core State) (event : Session_event) → IsKeptPausing process n core → IsKeptPausing process n (session_next_of (stepping process) n core event) }
    ensures saved { (process : Stepping State) (n : ℕ) (core : Core State) → IsKeptPausing process n core → CommittedPausing process n core.saved }
    ensures restart { (process : Stepping State) (n line : ℕ) (saved : ℕ → Written State) → CommittedPausing process n saved → IsKeptPausing process n (restart_from line saved) }
    ensures bound { (process : Stepping State) (n bound larger : ℕ) (saved : ℕ → Written State) → bound ≤ larger → Committed (without_pauses bound process) n saved → Committed (without_pauses larger process) n saved }
    ensures disk { (process : Stepping State) (n : ℕ) (files : Files State) (core : Core State) → IsKeptPausing process n core → Filed n files core → 0 < files.line → CommittedPausing process n files.committed }
{}

/// A replay of ranks that pause doesn't stick either.
pub fn never_sticks_with_pauses<State>()
    ensures { (process : Stepping State) (n bound most : ℕ) (core : Core State) (rank : ℕ) → most ≤ bound → IsKeptWithin process n bound most core → ((r : ℕ) → r < n → core.killed r ≡ false) → rank < n → is_back (core.one rank) ≡ false → MovesOnPausing process n core }
{}

/// What an event writes keeps the files as the core says: the images of those that have saved, the logs of those that have
/// stopped, the committed line with its images and logs, and each rank's output, of which the committed line's is the beginning. A
/// restart goes on from outputs that are cut back to it.
pub fn filed<State>()
    ensures next { (process : Process State) (n : ℕ) (files : Files State) (core : Core State) (event : Core_event) → IsKept process n core → Filed n files core → Filed n (with_effects files (effects_of (ranks process) n core event)) (next process n core event) }
    ensures paused { (process : Stepping State) (n bound most : ℕ) (files : Files State) (core : Core State) (event : Core_event) → IsKeptWithin process n bound most core → Filed n files core → Filed n (with_effects files (effects_of (stepping process) n core event)) (next_of (stepping process) n core event) }
    ensures restart { (turns : Ranks State) (n : ℕ) (files : Files State) (core : Core State) → Filed n files core → Filed n (cut_back files) (restart_of turns core) }
    ensures begins { (turns : Ranks State) (n : ℕ) (files : Files State) → files.line ≡ 0 → Filed n (cut_back files) (start_of turns) }
    ensures disk { (n : ℕ) (files : Files State) (core : Core State) → 0 < files.line → Filed n files core → Filed n (cut_back files) (restart_from files.line files.committed) }
{}

/// Over any sessions from an empty disk, each from what the files have, the core is kept, and the files have what it has written.
pub fn kept_on_disk<State>()
    ensures kept { (process : Process State) (n : ℕ) (events : List Session_event) → IsKept process n (disk_sessions (ranks process) n (empty_disk (ranks process)) events).core }
    ensures filed { (process : Process State) (n : ℕ) (events : List Session_event) → Filed n (disk_sessions (ranks process) n (empty_disk (ranks process)) events).files (disk_sessions (ranks process) n (empty_disk (ranks process)) events).core }
    ensures kept_paused { (process : Stepping State) (n : ℕ) (events : List Session_event) → IsKeptPausing process n (disk_sessions (stepping process) n (empty_disk (stepping process)) events).core }
    ensures filed_paused { (process : Stepping State) (n : ℕ) (events : List Session_event) → Filed n (disk_sessions (stepping process) n (empty_disk (stepping process)) events).files (disk_sessions (stepping process) n (empty_disk (stepping process)) events).core }
{}

/// After each event no rank is due, and rank 0 has answered what it noted; an event commits at most one line, and takes none back.
pub fn prompt<State>()
    ensures begins { (process : Process State) (n : ℕ) → 0 < n → Prompt n (start_of (ranks process)).protocol }
    ensures next { (process : Process State) (n : ℕ) (core : Core State) (event : Core_event) → 0 < n → IsKept process n core → Prompt n core.protocol → Prompt n (next_of (ranks process) n core event).protocol }
    ensures restart { (n line : ℕ) (saved : ℕ → Written State) → 0 < n → Prompt n (restart_from line saved).protocol }
    ensures session { (process : Process State) (n : ℕ) (events : List Session_event) → 0 < n → Prompt n (session_of (ranks process) n (start_of (ranks process)) events).protocol }
    ensures least { (process : Process State) (n : ℕ) (core : Core State) (event : Session_event) → IsKept process n core → core.protocol.wave.line ≤ (session_next_of (ranks process) n core event).protocol.wave.line }
    ensures most { (process : Process State) (n : ℕ) (core : Core State) (event : Session_event) → IsKept process n core → (session_next_of (ranks process) n core event).protocol.wave.line ≤ suc core.protocol.wave.line }
{}

/// Where a wave is under way, every rank has saved and none is killed, any events without Kill and Restart and with four sweeps
/// among them commit its line.
pub fn four_sweeps<State>()
    ensures commits { (process : Process State) (n : ℕ) (core : Core State) (events : List Session_event) → 0 < n → IsKept process n core → Prompt n core.protocol → AllSaved n core → AllByRecursion Peaceful events → 4 ≤ sweeps_in events → CommitsAfter (ranks process) n core.protocol.wave.line core events }
    ensures unless_finished { (process : Process State) (ended : Rank State → Bool) (n : ℕ) (core : Core State) (events : List Session_event) → 0 < n → IsKept process n core → Prompt n core.protocol → AllSaved n core → AllByRecursion Peaceful events → 4 ≤ sweeps_in events → finished ended n (session_to_end (ranks process) ended n core events) ≡ false → core.protocol.wave.line < (session_to_end (ranks process) ended n core events).protocol.wave.line }
    ensures session { (process : Process State) (n : ℕ) (before events : List Session_event) → 0 < n → AllSaved n (session_of (ranks process) n (start_of (ranks process)) before) → AllByRecursion Peaceful events → 4 ≤ sweeps_in events → CommitsAfter (ranks process) n (session_of (ranks process) n (start_of (ranks process)) before).protocol.wave.line (session_of (ranks process) n (start_of (ranks process)) before) events }
    ensures first { (process : Process State) (n : ℕ) (core : Core State) → IsKept process n core → Prompt n core.protocol → AllSaved n core → Staged n 0 core.protocol.wave.line (IsKept process n) core }
    ensures each { (process : Process State) (n : ℕ) (core : Core State) (event : Session_event) (stage line : ℕ) → 0 < n → Peaceful event → Staged n stage line (IsKept process n) core → Staged n (with_sweep event stage) line (IsKept process n) (session_next_of (ranks process) n core event) }
    ensures last { (process : Process State) (n : ℕ) (core : Core State) (stage line : ℕ) → 4 ≤ stage → Staged n stage line (IsKept process n) core → line < core.protocol.wave.line }
{}

/// The same of ranks that pause.
pub fn prompt_with_pauses<State>()
    ensures begins { (process : Stepping State) (n : ℕ) → 0 < n → Prompt n (start_of (stepping process)).protocol }
    ensures next { (process : Stepping State) (n : ℕ) (core : Core State) (event : Core_event) → 0 < n → IsKeptPausing process n core → Prompt n core.protocol → Prompt n (next_of (stepping process) n core event).protocol }
    ensures restart { (n line : ℕ) (saved : ℕ → Written State) → 0 < n → Prompt n (restart_from line saved).protocol }
    ensures session { (process : Stepping State) (n : ℕ) (events : List Session_event) → 0 < n → Prompt n (session_of (stepping process) n (start_of (stepping process)) events).protocol }
    ensures least { (process : Stepping State) (n : ℕ) (core : Core State) (event : Session_event) → IsKeptPausing process n core → core.protocol.wave.line ≤ (session_next_of (stepping process) n core event).protocol.wave.line }
    ensures most { (process : Stepping State) (n : ℕ) (core : Core State) (event : Session_event) → IsKeptPausing process n core → (session_next_of (stepping process) n core event).protocol.wave.line ≤ suc core.protocol.wave.line }
{}

/// Four sweeps commit, also where ranks pause.
pub fn four_sweeps_with_pauses<State>()
    ensures commits { (process : Stepping State) (n : ℕ) (core : Core State) (events : List Session_event) → 0 < n → IsKeptPausing process n core → Prompt n core.protocol → AllSaved n core → AllByRecursion Peaceful events → 4 ≤ sweeps_in events → CommitsAfter (stepping process) n core.protocol.wave.line core events }
    ensures unless_finished { (process : Stepping State) (ended : Rank State → Bool) (n : ℕ) (core : Core State) (events : List Session_event) → 0 < n → IsKeptPausing process n core → Prompt n core.protocol → AllSaved n core → AllByRecursion Peaceful events → 4 ≤ sweeps_in events → finished ended n (session_to_end (stepping process) ended n core events) ≡ false → core.protocol.wave.line < (session_to_end (stepping process) ended n core events).protocol.wave.line }
    ensures session { (process : Stepping State) (n : ℕ) (before events : List Session_event) → 0 < n → AllSaved n (session_of (stepping process) n (start_of (stepping process)) before) → AllByRecursion Peaceful events → 4 ≤ sweeps_in events → CommitsAfter (stepping process) n (session_of (stepping process) n (start_of (stepping process)) before).protocol.wave.line (session_of (stepping process) n (start_of (stepping process)) before) events }
    ensures first { (process : Stepping State) (n : ℕ) (core : Core State) → IsKeptPausing process n core → Prompt n core.protocol → AllSaved n core → Staged n 0 core.protocol.wave.line (IsKeptPausing process n) core }
    ensures each { (process : Stepping State) (n : ℕ) (core : Core State) (event : Session_event) (stage line : ℕ) → 0 < n → Peaceful event → Staged n stage line (IsKeptPausing process n) core → Staged n (with_sweep event stage) line (IsKeptPausing process n) (session_next_of (stepping process) n core event) }
    ensures last { (process : Stepping State) (n : ℕ) (core : Core State) (stage line : ℕ) → 4 ≤ stage → Staged n stage line (IsKeptPausing process n) core → line < core.protocol.wave.line }
{}

/// An event that takes the line on has written so.
pub fn written_commit<State>()
    ensures { (turns : Ranks State) (n : ℕ) (core : Core State) (event : Core_event) → core.protocol.wave.line < (next_of turns n core event).protocol.wave.line → Has (effects_of turns n core event) (Commits (suc core.protocol.wave.line)) }
{}

/// Each Ready and each Stopped on the way says the line of the wave under way.
pub fn says<State>()
    ensures begins { (process : Process State) (n : ℕ) → Says n (start_of (ranks process)).protocol }
    ensures next { (process : Process State) (n : ℕ) (core : Core State) (event : Core_event) → IsKept process n core → Says n core.protocol → Says n (next_of (ranks process) n core event).protocol }
    ensures restart { (n line : ℕ) (saved : ℕ → Written State) → Says n (restart_from line saved).protocol }
{}

/// What code rests on, of a core that is kept.
pub fn regular<State>()
    ensures kept { (process : Process State) (n : ℕ) (core : Core State) → IsKept process n core → Regular n core }
    ensures within { (process : Stepping State) (n bound most : ℕ) (core : Core State) → IsKeptWithin process n bound most core → Regular n core }
    ensures paused { (process : Stepping State) (n : ℕ) (core : Core State) → IsKeptPausing process n core → Regular n core }
{}
