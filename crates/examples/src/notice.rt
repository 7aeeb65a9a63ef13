// A notice: a process is notified once when a message arrives at its empty queue.
ghost use Rattle.std.specs.Prelude.{◌≡◌};
ghost use Rattle.mq.specs.Calls.{IsFree};

use fast_mutex::Look;
use mq::{FastMq, Guarded, Mq, Name, OpenFlags, Process};
use std::alloc::Global;
use std::io::Print;
use std::sync::Wait;
use std::time::Clock;

/// A notice of a message in an empty queue.
pub fn run(rt: &(impl Print + Wait + Clock), alloc: Global) -> anyhow::Result<()> {
    let (mq, mut processes) = FastMq::new(alloc, 2)?;
    let mut sender = processes.pop().unwrap();
    let mut reader = processes.pop().unwrap();
    tell_once(rt, &mq, &mut sender, &mut reader)
}

// The reader registers, and asks for a notice once before the message and twice after it.
fn tell_once<L: Look<Guarded>>(
    rt: &(impl Print + Wait + Clock),
    mq: &Mq<L>,
    sender: &mut Process<L>,
    reader: &mut Process<L>,
) -> anyhow::Result<()>
    requires sender { (sender.old.lock ≡ mq.now) × IsFree sender.old }
    requires reader { (reader.old.lock ≡ mq.now) × IsFree reader.old }
{
    let name = Name::read(b"/mail")?;
    let flags = OpenFlags::read_write().create();
    let inbox = reader.open(rt, mq, &name, flags, None)?;
    let outbox = sender.open(rt, mq, &name, OpenFlags::write_only(), None)?;

    reader.notify(rt, mq, inbox, Some(42))?;
    println!(rt; "before: {:?}", reader.next_notice(rt, mq)?)?;
    sender.send(rt, mq, outbox, b"hello", 0)?;
    println!(rt; "after: {:?}", reader.next_notice(rt, mq)?)?;
    println!(rt; "once: {:?}", reader.next_notice(rt, mq)?)?;
    Ok(())
}
