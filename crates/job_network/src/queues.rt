//! Queues of every ordered pair of ranks.

ghost use Rattle.std.specs.Prelude.{◌≡◌, ◌<◌, ℕ, [], ◌∷◌, ◌++◌, List, length, replicate, IfOk, IfSome, IfNone, OnErr, OnOk, slice_index_or};
ghost use Rattle.std.specs.List.{slice_set};
ghost use Rattle.core_laws.specs.Rows.{set_pair};
ghost use Rattle.core_laws.specs.CoreTies as ties;
ghost use Rattle.job_network.specs.Queues.{with_more};

use c3_base::NoMemory;
use std::alloc::Global;
use std::collections::VecDeque;
use std::marker::Model;

/// What goes from one rank to one rank, the oldest first.
#[derive(Drop)]
pub struct Queue<T> {
    items: VecDeque<T>,
}

impl<T> Model for Queue<T> {
    ghost use Rattle.std.specs.Prelude.{List};
    ghost use Rattle.std.specs.Coded.{coded_list};

    ghost Value = { List T };

    ghost coded = { coded_list T.code };

    ghost view = { λ q. q.items.items };
}

impl<T: Drop> Queue<T> {
    /// No item, and no memory.
    pub fn new(alloc: Global) -> Self
        ensures { result ≡ [] }
    {
        Queue {
            items: VecDeque::new(alloc),
        }
    }

    pub fn push(&mut self, item: T) -> Result<(), NoMemory>
        ensures { OnOk result (self.new ≡ self.old ++ item ∷ []) }
    {
        self.items.push_back(item)?;
        Ok(())
    }

    /// Takes out the oldest.
    pub fn pop(&mut self) -> Option<T>
        ensures some { IfSome result (λ item. self.old ≡ item ∷ self.new) }
        ensures none { IfNone result ((self.old ≡ []) × (self.new ≡ [])) }
    {
        self.items.pop_front()
    }

    /// The oldest.
    pub fn front(&self) -> Option<&T>
        ensures some { IfSome result (λ item. (rest : List T) × (self.now ≡ item.now ∷ rest)) }
        ensures none { IfNone result (self.now ≡ []) }
    {
        self.items.front()
    }

    pub fn len(&self) -> usize
        ensures { result ≡ length self.now }
    {
        self.items.len()
    }
}

/// What goes from one rank to each rank.
#[derive(Drop)]
pub struct Row<T> {
    queues: Vec<Queue<T>>,
}

impl<T> Model for Row<T> {
    ghost use Rattle.std.specs.Prelude.{List};
    ghost use Rattle.std.specs.Coded.{coded_list};

    ghost Value = { List (List T) };

    ghost coded = { coded_list (coded_list T.code) };

    ghost view = { λ r. r.queues.items };
}

impl<T: Drop> Row<T> {
    /// So many ranks, and no item.
    pub fn new(alloc: Global, ranks: u16) -> Result<Self, NoMemory>
        ensures { IfOk result (λ row. row ≡ replicate ranks []) }
    {
        let mut queues = Vec::new(alloc);
        for _ in 0..ranks {
            queues.push(Queue::new(alloc))?;
        }
        Ok(Row { queues })
    }

    pub fn push(&mut self, to: u16, item: T) -> Result<(), NoMemory>
        requires { to < length self.old }
        ensures { OnOk result (self.new ≡ slice_set self.old to (slice_index_or self.old to [] ++ item ∷ [])) }
    {
        self.queues[usize::from(to)].push(item)
    }

    /// Takes out the oldest that goes to a rank.
    pub fn pop(&mut self, to: u16) -> Option<T>
        requires { to < length self.old }
        ensures some { IfSome result (λ item. (rest : List T) × (slice_index_or self.old to [] ≡ item ∷ rest) × (self.new ≡ slice_set self.old to rest)) }
        ensures none { IfNone result ((slice_index_or self.old to [] ≡ []) × (self.new ≡ self.old)) }
    {
        self.queues[usize::from(to)].pop()
    }

    /// How many go to a rank.
    pub fn len(&self, to: u16) -> usize
        requires { to < length self.now }
        ensures { result ≡ length (slice_index_or self.now to []) }
    {
        self.queues[usize::from(to)].len()
    }
}

/// A queue for each ordered pair of ranks.
#[derive(Drop)]
pub struct Pairs<T> {
    rows: Vec<Row<T>>,
}

impl<T> Model for Pairs<T> {
    ghost use Rattle.std.specs.Prelude.{List};
    ghost use Rattle.std.specs.Coded.{coded_list};

    ghost Value = { List (List (List T)) };

    ghost coded = { coded_list (coded_list (coded_list T.code)) };

    ghost view = { λ p. p.rows.items };
}

impl<T: Drop> Pairs<T> {
    /// So many ranks, and no item.
    pub fn new(alloc: Global, ranks: u16) -> Result<Self, NoMemory>
        ensures { IfOk result (λ pairs. ties.Pairs ranks pairs (λ from to. [])) }
    {
        let mut rows = Vec::new(alloc);
        for _ in 0..ranks {
            rows.push(Row::new(alloc, ranks)?)?;
        }
        Ok(Pairs { rows })
    }

    pub fn push(&mut self, from: u16, to: u16, item: T) -> Result<(), NoMemory>
        requires from { from < length self.old }
        requires to { to < length (slice_index_or self.old from []) }
        ensures { OnOk result (self.new ≡ with_more self.old from to item) }
    {
        self.rows[usize::from(from)].push(to, item)
    }

    /// Takes out the oldest of a pair.
    pub fn pop(&mut self, from: u16, to: u16) -> Option<T>
        requires from { from < length self.old }
        requires to { to < length (slice_index_or self.old from []) }
        ensures some { (n : ℕ) (f : ℕ → ℕ → List T) → ties.Pairs n self.old f → from < n → to < n → IfSome result (λ item. (rest : List T) × (f from to ≡ item ∷ rest) × ties.Pairs n self.new (set_pair f from to rest)) }
        ensures none { (n : ℕ) (f : ℕ → ℕ → List T) → ties.Pairs n self.old f → from < n → to < n → IfNone result ((f from to ≡ []) × (self.new ≡ self.old)) }
    {
        self.rows[usize::from(from)].pop(to)
    }

    /// How many items a pair has.
    pub fn len(&self, from: u16, to: u16) -> usize
        requires from { from < length self.now }
        requires to { to < length (slice_index_or self.now from []) }
        ensures { (n : ℕ) (f : ℕ → ℕ → List T) → ties.Pairs n self.now f → from < n → to < n → result ≡ length (f from to) }
    {
        self.rows[usize::from(from)].len(to)
    }
}
