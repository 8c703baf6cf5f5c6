//! A rank's layer.

ghost use Rattle.std.specs.Prelude.{◌≡◌, ◌+◌, ◌<◌, ◌^◌, ℕ, Option, suc, [], length, map, IfOk, OnErr, OnOk, slice_index};
ghost use Rattle.std.specs.Prelude as lists;
ghost use Rattle.mpi_words.specs.declared.control.Control.TheVariants.{Count};
ghost use Rattle.late_logs.specs.declared.entry.Entry.{Entry as Logged};
ghost use Rattle.core_laws.specs.Protocol as protocol;
ghost use Rattle.core_laws.specs.Handling.{all_below, ready_due};
ghost use Rattle.core_laws.specs.Handling as handling;
ghost use Rattle.core_laws.specs.Ties.{Are};
ghost use Rattle.epoch_protocol.specs.Layers.{IsLayer, HasRoom, send_as, after_send, met_as, counted_as, log_after, after_ready, told_by, after_control, log_of};

use crate::answers::{Class, SendAs, Told};
use c3_base::NoMemory;
use early_suppress::Skips;
use late_logs::{Entry, Log};
use mpi_words::{Control, Label, List, Message};
use std::alloc::Global;
use std::marker::Model;
use std::mem;

/// One rank's epoch, its counts of messages by rank, and what it logs.
#[derive(Drop)]
pub struct Layer {
    ranks: u16,
    rank: u16,
    epoch: u16,
    logging: bool,
    asked: bool,
    was_ready: bool,
    sent: Vec<u32>,
    got: Vec<u32>,
    // of the epoch before
    before: Vec<u32>,
    // of the next epoch
    early: Vec<u32>,
    told: Vec<Option<u32>>,
    skips: Skips,
    log: List<Entry>,
}

impl Model for Layer {
    ghost use Rattle.epoch_protocol.specs.Layers.{Kept, HasEach};

    ghost Value = { Kept };

    ghost view = { λ l. record { ranks = l.ranks; rank = l.rank; epoch = l.epoch; logging = l.logging; asked = l.asked; was_ready = l.was_ready; sent = l.sent.items; got = l.got.items; before = l.before.items; early = l.early.items; told = l.told.items; skip = l.skips; log = l.log } };

    ghost invariant = { λ l. HasEach l.ranks l.sent.items l.got.items l.before.items l.early.items l.told.items l.skips };
}

impl Layer {
    /// At a program's start.
    pub fn new(alloc: Global, ranks: u16, rank: u16) -> Result<Layer, NoMemory>
        ensures { IfOk result (λ layer. IsLayer ranks rank layer (protocol.layer_restarted 0 (λ x. 0) (λ x. 0)) []) }
    {
        let early = Vec::from_elem(alloc, 0, usize::from(ranks))?;
        let skips = Skips::new(Vec::from_elem(alloc, 0, usize::from(ranks))?);
        Layer::with(alloc, ranks, rank, 0, early, skips)
    }

    /// At a restart from a line, with the early counts of the rank's own image.
    pub fn restarted(
        alloc: Global,
        ranks: u16,
        rank: u16,
        line: u16,
        early: &[u32],
        skips: Skips,
    ) -> Result<Layer, NoMemory>
        requires early { length early.now ≡ ranks }
        requires skips { length skips ≡ ranks }
        ensures { (its skip : ℕ → ℕ) → Are ranks early.now its → Are ranks skips skip → IfOk result (λ layer. IsLayer ranks rank layer (protocol.layer_restarted line its skip) []) }
    {
        let got = Vec::from_slice(alloc, early)?;
        Layer::with(alloc, ranks, rank, line, got, skips)
    }

    // Nothing sent and nobody told.
    fn with(
        alloc: Global,
        ranks: u16,
        rank: u16,
        epoch: u16,
        got: Vec<u32>,
        skips: Skips,
    ) -> Result<Layer, NoMemory>
        requires got { length got.items ≡ ranks }
        requires skips { length skips ≡ ranks }
        ensures { (its skip : ℕ → ℕ) → Are ranks got.items its → Are ranks skips skip → IfOk result (λ layer. IsLayer ranks rank layer (protocol.layer_restarted epoch its skip) []) }
    {
        let each = usize::from(ranks);
        let sent = Vec::from_elem(alloc, 0, each)?;
        let before = Vec::from_elem(alloc, 0, each)?;
        let early = Vec::from_elem(alloc, 0, each)?;
        let told = Vec::from_elem(alloc, None, each)?;
        Ok(Layer {
            ranks,
            rank,
            epoch,
            logging: false,
            asked: false,
            was_ready: false,
            sent,
            got,
            before,
            early,
            told,
            skips,
            log: List::new(alloc),
        })
    }

    /// Counts a send.
    pub fn send(&mut self, to: u16) -> SendAs
        requires inside { to < self.old.ranks }
        requires room { slice_index self.old.sent to + 1 < 2 ^ 32 }
        ensures { (n rank : ℕ) (l : protocol.Layer) (log : lists.List Logged) → IsLayer n rank self.old l log → (result ≡ send_as l to) × IsLayer n rank self.new (after_send l to) log }
    {
        self.sent[usize::from(to)] += 1;
        if self.skips.take(to) {
            return SendAs::Suppressed;
        }
        SendAs::Out(Label {
            epoch: self.epoch,
            logging: self.logging,
        })
    }

    /// How an arrival with this label is met.
    pub fn classify(&self, label: Label) -> Class
        ensures { (n rank : ℕ) (l : protocol.Layer) (log : lists.List Logged) → IsLayer n rank self.now l log → result ≡ met_as l label }
    {
        if label.epoch < self.epoch {
            return Class::Late;
        }
        if label.epoch > self.epoch {
            return Class::Early;
        }
        if self.logging && !label.logging {
            return Class::IntraAndStopped;
        }
        Class::Intra
    }

    /// Counts an arrival, and logs it where the rank goes on logging.
    pub fn arrive(
        &mut self,
        source: u16,
        label: Label,
        message: &Message,
    ) -> Result<Class, NoMemory>
        requires inside { source < self.old.ranks }
        requires room { HasRoom self.old source }
        ensures ok { (n rank : ℕ) (l : protocol.Layer) (log : lists.List Logged) → IsLayer n rank self.old l log → IfOk result (λ class. (class ≡ met_as l label) × IsLayer n rank self.new (protocol.layer_arrive l source (protocol.class_of l.epoch label.epoch)) (log_after l.logging (met_as l label) log source message.now)) }
        ensures err { OnErr result (self.new ≡ self.old) }
    {
        let class = self.classify(label);
        log_arrival(&mut self.log, self.logging, class, source, message)?;
        self.count(class, source);
        Ok(class)
    }

    // Counts an arrival.
    fn count(&mut self, class: Class, source: u16)
        requires inside { source < self.old.ranks }
        requires room { HasRoom self.old source }
        ensures { (n rank : ℕ) (l : protocol.Layer) (log : lists.List Logged) → IsLayer n rank self.old l log → IsLayer n rank self.new (protocol.layer_arrive l source (counted_as class)) log }
    {
        let at = usize::from(source);
        match class {
            Class::Late => self.before[at] += 1,
            Class::Intra | Class::IntraAndStopped => self.got[at] += 1,
            Class::Early => self.early[at] += 1,
        }
    }

    /// Begins the next epoch, in which the rank logs, and gives what each rank is told, by ranks.
    pub fn checkpoint(&mut self) -> Result<Vec<Control>, NoMemory>
        requires { self.old.epoch + 1 < 2 ^ 16 }
        ensures ok { (n rank : ℕ) (l : protocol.Layer) (log : lists.List Logged) → IsLayer n rank self.old l log → IfOk result (λ counts. Are n counts.items (λ x. Count (suc l.epoch) (l.sent x)) × IsLayer n rank self.new (protocol.layer_save l) []) }
        ensures err { OnErr result (self.new ≡ self.old) }
    {
        let line = self.epoch + 1;
        let counts = counts_for(line, &self.sent, *self.sent.allocator())?;
        mem::swap(&mut self.before, &mut self.got);
        mem::swap(&mut self.got, &mut self.early);
        self.early.fill(0);
        self.sent.fill(0);
        self.epoch = line;
        self.logging = true;
        self.asked = false;
        self.was_ready = false;
        self.log = List::new(*self.sent.allocator());
        Ok(counts)
    }

    /// Takes a control message.
    pub fn control(&mut self, source: u16, c: Control) -> Told
        requires { source < self.old.ranks }
        ensures { (n rank : ℕ) (l : protocol.Layer) (log : lists.List Logged) → IsLayer n rank self.old l log → (result ≡ told_by n l source c) × IsLayer n rank self.new (after_control n l source c) log }
    {
        match c {
            Control::Request(_) => {
                self.asked = true;
                Told::Nothing
            }
            Control::Count(_, sent) => self.take_count(source, sent),
            Control::Stop(_) if self.logging => Told::StopNow,
            Control::Stop(_) | Control::Ready(_) | Control::Stopped(_) | Control::Restored => {
                Told::Nothing
            }
        }
    }

    // Takes how many messages a rank sent in the epoch before.
    fn take_count(&mut self, source: u16, sent: u32) -> Told
        requires { source < self.old.ranks }
        ensures { (n rank line : ℕ) (l : protocol.Layer) (log : lists.List Logged) → IsLayer n rank self.old l log → (result ≡ told_by n l source (Count line sent)) × IsLayer n rank self.new (after_control n l source (Count line sent)) log }
    {
        self.told[usize::from(source)] = Some(sent);
        if self.ready_due() {
            return Told::SendReady;
        }
        Told::Nothing
    }

    /// Whether rank 0 is to be told now that the rank is ready.
    pub fn ready_due(&mut self) -> bool
        ensures { (n rank : ℕ) (l : protocol.Layer) (log : lists.List Logged) → IsLayer n rank self.old l log → (result ≡ ready_due n l) × IsLayer n rank self.new (after_ready n l) log }
    {
        if !self.is_ready() {
            return false;
        }
        self.was_ready = true;
        self.told.fill(None);
        true
    }

    // Whether the rank logs, hasn't been ready, and has all messages of the epoch before.
    fn is_ready(&self) -> bool
        ensures { (n rank : ℕ) (l : protocol.Layer) (log : lists.List Logged) → IsLayer n rank self.now l log → result ≡ ready_due n l }
    {
        if !self.logging || self.was_ready {
            return false;
        }
        all_told(self.ranks, &self.told, &self.before)
    }

    /// Ends the log, after so many operations of the rank.
    pub fn stop(&mut self, ops: u64) -> Log
        ensures { (n rank : ℕ) (l : protocol.Layer) (log : lists.List Logged) → IsLayer n rank self.old l log → (result ≡ log_of n rank l.epoch ops log) × IsLayer n rank self.new (protocol.layer_stop l) [] }
    {
        self.logging = false;
        let entries = mem::replace(&mut self.log, List::new(*self.sent.allocator()));
        Log {
            ranks: self.ranks,
            rank: self.rank,
            line: self.epoch,
            stop: ops,
            entries,
        }
    }

    /// Whether a checkpoint is asked for.
    pub fn asked(&self) -> bool
        ensures { result ≡ self.now.asked }
    {
        self.asked
    }

    pub fn epoch(&self) -> u16
        ensures { result ≡ self.now.epoch }
    {
        self.epoch
    }

    /// How many messages of the next epoch have come, by ranks.
    pub fn early(&self) -> &[u32]
        ensures { result.now ≡ self.now.early }
    {
        self.early.as_slice()
    }
}

// Logs an arrival where the rank goes on logging.
fn log_arrival(
    log: &mut List<Entry>,
    logging: bool,
    class: Class,
    source: u16,
    message: &Message,
) -> Result<(), NoMemory>
    ensures ok { OnOk result (log.new ≡ log_after logging class log.old source message.now) }
    ensures err { OnErr result (log.new ≡ log.old) }
{
    if !logging {
        return Ok(());
    }
    match class {
        Class::Late => {
            let message = message.copy()?;
            log.push(Entry::Late { source, message })
        }
        Class::Intra => log.push(Entry::Intra { source }),
        Class::Early | Class::IntraAndStopped => Ok(()),
    }
}

// What each rank is told of a line: how many messages it was sent in the epoch before.
fn counts_for(line: u16, sent: &[u32], alloc: Global) -> Result<Vec<Control>, NoMemory>
    ensures { IfOk result (λ counts. counts.items ≡ map (λ k. Count line k) sent.now) }
{
    let counts: Vec<Control> = sent
        .iter()
        .map(|sent| Control::Count(line, *sent))
        .collect(alloc)?;
    Ok(counts)
}

// Whether each rank has told as many messages of the epoch before as have come from it.
fn all_told(ranks: u16, told: &[Option<u32>], old: &[u32]) -> bool
    requires told { length told.now ≡ ranks }
    requires old { length old.now ≡ ranks }
    ensures { (n : ℕ) (its : ℕ → Option ℕ) (come : ℕ → ℕ) → Are n told.now its → Are n old.now come → result ≡ all_below n (λ x. handling.is_told (its x) (come x)) }
{
    for rank in 0..ranks {
        let at = usize::from(rank);
        if !is_told(told[at], old[at]) {
            return false;
        }
    }
    true
}

// Whether so many messages were told.
fn is_told(told: Option<u32>, count: u32) -> bool
    ensures { result ≡ handling.is_told told count }
{
    match told {
        None => false,
        Some(its) => its == count,
    }
}
