ghost use Rattle.std.specs.Prelude.{◌≡◌, ◌≤◌, ◌^◌, length, IfSome};
ghost use Rattle.job_schedule.specs.Reading as reading;
ghost use Rattle.job_schedule.specs.Schedule.{Answer, Reads, said};

use crate::byte::{first_word, is_white};
use crate::entry::entry;
use crate::fault::ScheduleFault;
use crate::schedule::Schedule;
use std::alloc::Global;

/// The most events that a schedule may count as.
const MOST_EVENTS: u64 = 200000;

/// The schedule that the text is, or its fault: its first wrong word, or else too many events.
pub fn read_schedule(alloc: Global, text: &[u8]) -> Result<Schedule, ScheduleFault>
    requires { length text.now ≤ 2 ^ 20 }
    // The answer is right, and no other would be.
    ensures right { IfSome (said result) (Reads text.now) }
    ensures exact { (a : Answer) → Reads text.now a → IfSome (said result) (λ b. b ≡ a) }
{
    let mut entries = Vec::new(alloc);
    let mut count: u64 = 0;
    // Whether a word may begin here.
    let mut is_fresh = true;
    for (at, byte) in text.iter().enumerate() {
        if is_fresh && !is_white(*byte) {
            match entry(first_word(&text[at..])) {
                None => return Err(ScheduleFault::BadEvent { at: at as u32 }),
                Some(entry) => {
                    count += entry.count();
                    entries.push(entry)?;
                }
            }
        }
        is_fresh = is_white(*byte);
    }
    if count > MOST_EVENTS {
        return Err(ScheduleFault::TooMany { count });
    }
    Ok(Schedule::new(entries))
}
