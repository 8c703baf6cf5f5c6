//! What several parts are found to be, by what each is.

ghost use Rattle.std.specs.Prelude.{◌≡◌, ◌++◌, IfOk, option_map};
ghost use Rattle.c_rules.specs.Judged as nodes;
ghost use Rattle.c_check.specs.Statement as walk;

use crate::judge::Answer;
use sqlite_items::{Boxed, Items};
use std::alloc::{AllocError, Global};

/// Both, where both are sound.
pub fn both<A, B>(a: Option<A>, b: Option<B>) -> Option<(A, B)>
where
    A: Drop,
    B: Drop,
    ensures { result ≡ nodes.both a b }
{
    match a {
        None => None,
        Some(a) => match b {
            None => None,
            Some(b) => Some((a, b)),
        },
    }
}

/// One more, where all are sound.
pub fn gather<T: Drop>(all: Option<Items<T>>, one: Option<T>) -> Answer<Items<T>>
    ensures { IfOk result (λ found. found ≡ nodes.gathered all one) }
{
    match all {
        None => Ok(None),
        Some(mut items) => match one {
            None => Ok(None),
            Some(item) => {
                items.push(item)?;
                Ok(Some(items))
            }
        },
    }
}

/// One more out of its box, where all are sound.
pub fn gather_inner<T: Drop>(all: Option<Items<T>>, one: Option<Boxed<T>>) -> Answer<Items<T>>
    ensures { IfOk result (λ found. found ≡ nodes.gathered all one) }
{
    match one {
        None => Ok(None),
        Some(item) => gather(all, Some(item.into_inner())),
    }
}

/// One and more, where all are sound.
pub fn more<T: Drop>(
    alloc: Global,
    first: Option<Boxed<T>>,
    rest: Option<Items<T>>,
) -> Answer<Items<T>>
    ensures { IfOk result (λ found. found ≡ nodes.more first rest) }
{
    match both(first, rest) {
        None => Ok(None),
        Some((first, rest)) => {
            let mut items = one(alloc, first)?;
            items.append(rest)?;
            Ok(Some(items))
        }
    }
}

/// All so far and more, where all are sound.
pub fn appended<T: Drop>(all: Option<Items<T>>, more: Option<Items<T>>) -> Answer<Items<T>>
    ensures { IfOk result (λ found. found ≡ option_map (λ p. p.0 ++ p.1) (nodes.both all more)) }
{
    match both(all, more) {
        None => Ok(None),
        Some((mut all, more)) => {
            all.append(more)?;
            Ok(Some(all))
        }
    }
}

/// A list of one.
pub fn one<T: Drop>(alloc: Global, x: Boxed<T>) -> Result<Items<T>, AllocError>
    ensures { IfOk result (λ xs. xs ≡ walk.one x) }
{
    let mut items = Items::new(alloc);
    items.push(x.into_inner())?;
    Ok(items)
}

/// A list of one, where it is sound.
pub fn alone<T: Drop>(alloc: Global, x: Option<Boxed<T>>) -> Answer<Items<T>>
    ensures { IfOk result (λ xs. xs ≡ option_map walk.one x) }
{
    match x {
        None => Ok(None),
        Some(x) => Ok(Some(one(alloc, x)?)),
    }
}

/// A list of one, or of none.
pub fn listed<T: Drop>(alloc: Global, x: Option<Boxed<T>>) -> Result<Items<T>, AllocError>
    ensures { IfOk result (λ xs. xs ≡ walk.listed x) }
{
    match x {
        None => Ok(Items::new(alloc)),
        Some(x) => one(alloc, x),
    }
}
