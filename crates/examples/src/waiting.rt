// A call that would wait, started by a thread that does other work in the meantime.
ghost use Rattle.std.specs.Prelude.{◌≡◌};
ghost use Rattle.mq.specs.Calls.{IsFree};

use fast_mutex::Look;
use mq::{Attr, Collected, FastMq, Guarded, Mq, Name, OpenFlags, Process};
use std::alloc::Global;
use std::io::Print;
use std::sync::Wait;
use std::time::Clock;

/// Waits that are collected later.
pub fn run(rt: &(impl Print + Wait + Clock), alloc: Global) -> anyhow::Result<()> {
    let (mq, mut processes) = FastMq::new(alloc, 2)?;
    let mut sender = processes.pop().unwrap();
    let mut reader = processes.pop().unwrap();
    send_meanwhile(rt, &mq, &mut sender, &mut reader)
}

// The reader starts to receive before there is a message, and collects it once it is sent.
fn send_meanwhile<L: Look<Guarded>>(
    rt: &(impl Print + Wait + Clock),
    mq: &Mq<L>,
    sender: &mut Process<L>,
    reader: &mut Process<L>,
) -> anyhow::Result<()>
    requires sender { (sender.old.lock ≡ mq.now) × IsFree sender.old }
    requires reader { (reader.old.lock ≡ mq.now) × IsFree reader.old }
{
    let name = Name::read(b"/later")?;
    let limits = Attr {
        maxmsg: 1,
        msgsize: 8,
    };
    let flags = OpenFlags::read_write().create();
    let inbox = reader.open(rt, mq, &name, flags, Some(limits))?;
    let outbox = sender.open(rt, mq, &name, OpenFlags::write_only(), None)?;

    let mut buf = [0; 8];
    if let Some(received) = reader.start_receive(rt, mq, inbox, &mut buf)? {
        println!(rt; "at once: {} bytes", received.len)?;
        return Ok(());
    }
    println!(rt; "the receive waits")?;
    sender.send(rt, mq, outbox, b"done", 3)?;
    match reader.collect(rt, mq, &mut buf) {
        Some(Collected::Got(received)) => println!(rt; "collected {} bytes", received.len)?,
        Some(Collected::Sent) => println!(rt; "sent")?,
        None => println!(rt; "not yet")?,
    }
    Ok(())
}
