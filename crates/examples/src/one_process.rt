// One process: it sends to a queue of its own, and receives the message of the highest priority
// first.
ghost use Rattle.std.specs.Prelude.{◌≡◌};
ghost use Rattle.mq.specs.Calls.{IsFree};

use fast_mutex::Look;
use mq::{Attr, FastMq, Guarded, Mq, Name, OpenFlags, Process};
use std::alloc::Global;
use std::io::Print;
use std::sync::Wait;
use std::time::Clock;

/// One process that sends to itself.
pub fn run(rt: &(impl Print + Wait + Clock), alloc: Global) -> anyhow::Result<()> {
    let (mq, mut processes) = FastMq::new(alloc, 1)?;
    let mut process = processes.pop().unwrap();
    take_orders(rt, alloc, &mq, &mut process)
}

// Opens the queue, sends two orders, and receives the more urgent one.
fn take_orders<L: Look<Guarded>>(
    rt: &(impl Print + Wait + Clock),
    alloc: Global,
    mq: &Mq<L>,
    process: &mut Process<L>,
) -> anyhow::Result<()>
    requires { (process.old.lock ≡ mq.now) × IsFree process.old }
{
    let name = Name::read(b"/orders")?;
    let limits = Attr {
        maxmsg: 10,
        msgsize: 64,
    };
    let flags = OpenFlags::read_write().create();
    let orders = process.open(rt, mq, &name, flags, Some(limits))?;
    process.send(rt, mq, orders, b"sweep the floor", 1)?;
    process.send(rt, mq, orders, b"put out the fire", 9)?;

    let mut buf = [0; 64];
    let received = process.receive(rt, mq, orders, &mut buf)?;
    let message = String::from_utf8_lossy(alloc, &buf[..received.len])?;
    println!(rt; "{} (priority {})", message, received.prio)?;
    Ok(())
}
