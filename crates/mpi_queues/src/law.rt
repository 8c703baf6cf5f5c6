//! What is proved of channels and mailboxes.

ghost use Rattle.mpi_queues.specs.Laws.{StaysSquare, IsPairAlone, IsLowest, IsNamed, IsFirstMatch, IsGivenForGood, IsGivenAtTheEnd, IsByOrderAlone};

/// Channels have as many receivers as ranks, and each as many senders.
pub fn square()
    ensures { StaysSquare }
{}

/// What is sent between two ranks and taken there leaves the lists of all other pairs as they are.
pub fn pair_alone()
    ensures { IsPairAlone }
{}

/// What a receive takes comes from the lowest source that has a match.
pub fn lowest()
    ensures { IsLowest }
{}

/// A receive that names its source takes nothing from another.
pub fn named()
    ensures { IsNamed }
{}

/// A receive with one pattern takes the first arrival that matches.
pub fn first_match()
    ensures { IsFirstMatch }
{}

/// A later arrival doesn't change what a take gives.
pub fn for_good()
    ensures { IsGivenForGood }
{}

/// Takes give what they would give if all messages had arrived before.
pub fn at_the_end()
    ensures { IsGivenAtTheEnd }
{}

/// The same takes, while the same messages arrive in the same order, give the same, whenever they are made.
pub fn by_order_alone()
    ensures { IsByOrderAlone }
{}
