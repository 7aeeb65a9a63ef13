// Calls that never wait: a descriptor with O_NONBLOCK, and the error of each call that fails.
ghost use Rattle.std.specs.Prelude.{◌≡◌};
ghost use Rattle.mq.specs.Calls.{IsFree};

use fast_mutex::Look;
use mq::{Attr, FastMq, Fault, Guarded, Mq, Name, OpenFlags, Process};
use std::alloc::Global;
use std::io::Print;
use std::sync::Wait;
use std::time::Clock;

/// Calls that never wait.
pub fn run(rt: &(impl Print + Wait + Clock), alloc: Global) -> anyhow::Result<()> {
    let (mq, mut processes) = FastMq::new(alloc, 1)?;
    let mut process = processes.pop().unwrap();
    poll(rt, &mq, &mut process)
}

// Receives from an empty queue, sends to a full one, and opens a name that exists.
fn poll<L: Look<Guarded>>(
    rt: &(impl Print + Wait + Clock),
    mq: &Mq<L>,
    process: &mut Process<L>,
) -> anyhow::Result<()>
    requires { (process.old.lock ≡ mq.now) × IsFree process.old }
{
    let d = open_new(rt, mq, process)?;
    let mut buf = [0; 8];
    match process.receive(rt, mq, d, &mut buf) {
        Err(Fault::Again) => println!(rt; "nothing there yet")?,
        outcome => println!(rt; "{outcome:?}")?,
    }
    process.send(rt, mq, d, b"tick", 0)?;
    if let Err(fault) = process.send(rt, mq, d, b"tock", 0) {
        println!(rt; "a full queue refuses with {fault}")?;
    }
    if let Err(fault) = open_new(rt, mq, process) {
        println!(rt; "a name that is bound refuses with {fault}")?;
    }
    Ok(())
}

// Opens a queue that must be new, with a descriptor whose calls never wait.
fn open_new<L: Look<Guarded>>(
    rt: &impl Wait,
    mq: &Mq<L>,
    process: &mut Process<L>,
) -> Result<u32, Fault>
    requires { (process.old.lock ≡ mq.now) × IsFree process.old }
    ensures { (process.new.lock ≡ mq.now) × IsFree process.new }
{
    let name = Name::read(b"/poll")?;
    let limits = Attr {
        maxmsg: 1,
        msgsize: 8,
    };
    let flags = OpenFlags::read_write().create().exclusive().nonblocking();
    process.open(rt, mq, &name, flags, Some(limits))
}
