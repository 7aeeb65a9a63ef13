// Deadlines: a receive that waits until its deadline, and a receive that gets its message although
// its deadline has passed.
ghost use Rattle.std.specs.Prelude.{◌≡◌};
ghost use Rattle.mq.specs.Calls.{IsFree};

use fast_mutex::Look;
use mq::{Attr, FastMq, Fault, Guarded, Monotonic, Mq, Name, OpenFlags, Process};
use std::alloc::Global;
use std::io::Print;
use std::sync::Wait;
use std::time::{Clock, Duration};

/// Calls that wait until a deadline, by a clock that the program lends.
pub fn run(rt: &(impl Print + Wait + Clock), alloc: Global) -> anyhow::Result<()> {
    let (mq, mut processes) = FastMq::new(alloc, 1)?;
    let mut process = processes.pop().unwrap();
    take_alarms(rt, &mq, &mut process)
}

// Opens the queue of alarms. The first receive gets no alarm, the second gets one.
fn take_alarms<L: Look<Guarded>>(
    rt: &(impl Print + Wait + Clock),
    mq: &Mq<L>,
    process: &mut Process<L>,
) -> anyhow::Result<()>
    requires { (process.old.lock ≡ mq.now) × IsFree process.old }
{
    let limits = Attr {
        maxmsg: 1,
        msgsize: 8,
    };
    let name = Name::read(b"/alarms")?;
    let flags = OpenFlags::read_write().create();
    let alarms = process.open(rt, mq, &name, flags, Some(limits))?;
    await_alarm(rt, mq, process, alarms)?;
    alarm_at_once(rt, mq, process, alarms)
}

// Waits for an alarm that does not come.
fn await_alarm<L: Look<Guarded>>(
    rt: &(impl Print + Wait + Clock),
    mq: &Mq<L>,
    process: &mut Process<L>,
    alarms: u32,
) -> anyhow::Result<()>
    requires { (process.old.lock ≡ mq.now) × IsFree process.old }
    ensures { (process.new.lock ≡ mq.now) × IsFree process.new }
{
    let clock = Monotonic::start(rt)?;
    let until = clock.after(Duration::from_millis(20));
    let mut buf = [0; 8];
    match process.timed_receive(rt, mq, alarms, &mut buf, until, &clock) {
        Err(Fault::TimedOut) => println!(rt; "nothing came in 20 ms")?,
        Err(fault) => println!(rt; "{fault}")?,
        Ok(received) => println!(rt; "{} bytes", received.len)?,
    }
    Ok(())
}

// Sends an alarm and receives it, with a deadline that has passed.
fn alarm_at_once<L: Look<Guarded>>(
    rt: &(impl Print + Wait + Clock),
    mq: &Mq<L>,
    process: &mut Process<L>,
    alarms: u32,
) -> anyhow::Result<()>
    requires { (process.old.lock ≡ mq.now) × IsFree process.old }
{
    let clock = Monotonic::start(rt)?;
    let past = clock.after(Duration::ZERO);
    process.timed_send(rt, mq, alarms, b"smoke", 9, past, &clock)?;
    let mut buf = [0; 8];
    let received = process.timed_receive(rt, mq, alarms, &mut buf, past, &clock)?;
    println!(rt;
        "what need not wait is done, whatever the deadline: {} bytes",
        received.len
    )?;
    Ok(())
}
