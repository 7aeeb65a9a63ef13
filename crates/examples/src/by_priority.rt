// A producer and two consumers, each in its own thread. The consumers take jobs by priority.
ghost use Rattle.std.specs.Prelude.{◌≡◌};
ghost use Rattle.mq.specs.Calls.{IsFree};

use fast_mutex::Look;
use mq::{Attr, FastMq, Fault, Guarded, Mq, Name, OpenFlags, Process};
use std::alloc::Global;
use std::io::Print;
use std::sync::Wait;
use std::thread::{Threads, join};
use std::time::Clock;

/// The number of jobs each consumer takes.
const SHARE: u32 = 50;

// Sends the jobs, each with its number as the message. Every fifth job is urgent.
fn produce<L: Look<Guarded>, R: Wait + Clock>(
    rt: &R,
    mq: &Mq<L>,
    mut process: Process<L>,
    jobs: u32,
) -> Result<(), Fault>
    requires made { process.lock ≡ mq.now }
    requires free { IsFree process }
{
    'jobs: for job in 0..2 * SHARE {
        let prio = u32::from(job % 5 == 0);
        process.send(rt, mq, jobs, &job.to_le_bytes(), prio)?;
    }
    Ok(())
}

// Takes its share of the jobs, and returns how many of them were urgent.
fn consume<L: Look<Guarded>, R: Wait + Clock>(
    rt: &R,
    mq: &Mq<L>,
    mut process: Process<L>,
) -> Result<u32, Fault>
    requires made { process.lock ≡ mq.now }
    requires free { IsFree process }
{
    let name = Name::read(b"/jobs")?;
    let jobs = process.open(rt, mq, &name, OpenFlags::read_only(), None)?;
    let mut buf = [0; 4];
    let mut urgent = 0u32;
    'jobs: for _ in 0..SHARE {
        let received = process.receive(rt, mq, jobs, &mut buf)?;
        if received.prio > 0 {
            urgent = urgent.saturating_add(1);
        }
    }
    Ok(urgent)
}

/// Threads take work by priority from one queue.
pub fn run(rt: &(impl Print + Wait + Clock + Threads + Sync), alloc: Global) -> anyhow::Result<()> {
    let (mq, mut processes) = FastMq::new(alloc, 3)?;
    let two = processes.pop().unwrap();
    let one = processes.pop().unwrap();
    let producer = processes.pop().unwrap();
    let urgent = share_jobs(rt, &mq, producer, one, two)?;
    println!(rt; "{} jobs taken, {urgent} of them urgent", 2 * SHARE)?;
    Ok(())
}

// Creates the queue of jobs and opens it.
fn open_jobs<L: Look<Guarded>>(
    rt: &impl Wait,
    mq: &Mq<L>,
    producer: &mut Process<L>,
) -> Result<u32, Fault>
    requires { (producer.old.lock ≡ mq.now) × IsFree producer.old }
    ensures { (producer.new.lock ≡ mq.now) × IsFree producer.new }
{
    let name = Name::read(b"/jobs")?;
    let limits = Attr {
        maxmsg: 8,
        msgsize: 4,
    };
    let flags = OpenFlags::write_only().create();
    producer.open(rt, mq, &name, flags, Some(limits))
}

// Runs the producer and the consumers, and returns how many jobs were urgent.
fn share_jobs<L: Look<Guarded> + Sync>(
    rt: &(impl Wait + Clock + Threads + Sync),
    mq: &Mq<L>,
    mut producer: Process<L>,
    one: Process<L>,
    two: Process<L>,
) -> Result<u64, Fault>
where
    L::Seat: Send,
    L::Walk: Send,
    requires producer { (producer.lock ≡ mq.now) × IsFree producer }
    requires one { (one.lock ≡ mq.now) × IsFree one }
    requires two { (two.lock ≡ mq.now) × IsFree two }
{
    let jobs = open_jobs(rt, mq, &mut producer)?;
    let (sent, (first, second)) = join(
        rt,
        move ||
            requires { (producer.lock ≡ mq.now) × IsFree producer }
        { produce(rt, mq, producer, jobs) },
        move ||
            requires { (one.lock ≡ mq.now) × IsFree one × (two.lock ≡ mq.now) × IsFree two }
        {
            join(
                rt,
                move ||
                    requires { (one.lock ≡ mq.now) × IsFree one }
                { consume(rt, mq, one) },
                move ||
                    requires { (two.lock ≡ mq.now) × IsFree two }
                { consume(rt, mq, two) },
            )
        },
    );
    sent?;
    Ok(u64::from(first?) + u64::from(second?))
}
