//! Messages and what takes them.

use mpi_queues::{Channels, Mailbox};
use mpi_words::{Datatype, List, Message, Pattern, Patterns, matches};
use std::alloc::Global;
use std::test::Fail;

const ANY: Pattern = Pattern {
    source: None,
    context: 0,
    tag: None,
};

fn message(alloc: Global, tag: i64) -> Message {
    Message {
        context: 0,
        tag,
        kind: Datatype::Int,
        items: List::new(alloc),
    }
}

fn envelope(got: Option<(u16, Message)>) -> Option<(u16, i64)> {
    match got {
        None => None,
        Some((source, message)) => Some((source, message.tag)),
    }
}

#[test]
fn channels_give_the_lowest_source(rt: HostRuntime) -> Result<(), Fail> {
    let mut channels = Channels::new(rt.alloc(), 2)?;
    channels.send(1, 0, message(rt.alloc(), 5))?;
    channels.send(0, 0, message(rt.alloc(), 6))?;
    assert_eq!(rt; envelope(channels.take(0, &ANY)), Some((0, 6)));
    assert_eq!(rt; envelope(channels.take(0, &ANY)), Some((1, 5)));
    assert_eq!(rt; envelope(channels.take(0, &ANY)), None);
    Ok(())
}

// The earlier pattern has the first message, the later one the second.
#[test]
fn a_mailbox_gives_arrivals_to_patterns_in_order(rt: HostRuntime) -> Result<(), Fail> {
    let mut mailbox = Mailbox::new(rt.alloc());
    mailbox.arrive(1, message(rt.alloc(), 5))?;
    mailbox.arrive(1, message(rt.alloc(), 6))?;
    assert_eq!(rt; envelope(mailbox.take(&[ANY, ANY])?), Some((1, 6)));
    assert_eq!(rt; envelope(mailbox.take(&[ANY, ANY])?), None);
    assert_eq!(rt; mailbox.list().len(), 1);
    Ok(())
}

#[test]
fn source_context_and_tag_decide(rt: HostRuntime) -> Result<(), Fail> {
    let mut items = List::new(rt.alloc());
    items.push(41)?;
    assert_eq!(rt; items.as_slice(), [41].as_slice());
    let message = Message {
        context: 0,
        tag: 7,
        kind: Datatype::Int,
        items,
    };
    let message = message.copy()?;
    for (source, context, tag, taken) in [
        (None, 0, None, true),
        (Some(3), 0, Some(7), true),
        (Some(2), 0, Some(7), false),
        (None, 0, Some(8), false),
        (None, 1, None, false),
    ] {
        let patterns = Patterns::one(
            rt.alloc(),
            Pattern {
                source,
                context,
                tag,
            },
        );
        for pattern in patterns.as_slice() {
            assert_eq!(rt; matches(pattern, 3, &message), taken);
        }
    }
    Ok(())
}
