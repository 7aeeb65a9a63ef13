// A real-time system in virtual time: three periodic tasks report to a watchdog, in one thread. The
// simulation keeps the clock, which jumps from one event to the next, so each run prints the same.
ghost use Rattle.std.specs.Prelude.{◌≡◌, true};
ghost use Rattle.fast_mutex.specs.Items.{tickets_from};
ghost use Rattle.mq.specs.Calls.{IsFree, stored_in};
ghost use Rattle.mq_model.specs.Deadlines.{is_moment};

use fast_mutex::Look;
use journal_format::text::write_journal;
use mq::{Attr, Clock, Deadline, FastMq, Fault, Guarded, Journal, Mq, Name, OpenFlags, Process};
use std::alloc::Global;
use std::io;
use std::io::Print;
use std::sync::Wait;
use text_io::output::write_all;

/// The number of times at which something happens.
const EVENTS: u32 = 16;

/// From this time until `HANGS_TO`, in milliseconds, the sensor hangs and sends no report.
const HANGS_FROM: u32 = 60;

const HANGS_TO: u32 = 150;

// A clock that always shows the same time.
#[derive(Clone, Copy)]
struct Simulated {
    moment: Deadline,
    ghost is_moment: { is_moment moment ≡ true },
}

impl Clock for Simulated {
    ghost gives = { λ clock moment. moment ≡ clock.moment };

    fn now(&self) -> Deadline {
        self.moment
    }
}

// The clock this many milliseconds after the start.
fn clock_at(millis: u32) -> Simulated {
    Simulated {
        moment: Deadline {
            sec: i64::from(millis / 1000),
            nsec: i64::from(millis % 1000) * 1_000_000,
        },
    }
}

// Something that happens periodically. Times are in milliseconds.
#[derive(Drop)]
struct Periodic {
    period: u32,
    next: u32,
}

impl Periodic {
    fn every(period: u32) -> Periodic {
        Periodic {
            period,
            next: period,
        }
    }

    // Whether it happens now. If so, it happens next one period later.
    fn is_due(&mut self, now: u32) -> bool {
        let is_due = self.next == now;
        if is_due {
            self.next = now.saturating_add(self.period);
        }
        is_due
    }
}

// The three tasks, the highest priority first, and the watchdog.
#[derive(Drop)]
struct Plan {
    control: Periodic,
    sensor: Periodic,
    logger: Periodic,
    watchdog: Periodic,
}

impl Plan {
    // The time of the next event.
    fn next(&self) -> u32 {
        let tasks = self
            .control
            .next
            .min(self.sensor.next)
            .min(self.logger.next);
        tasks.min(self.watchdog.next)
    }
}

// Opens the queue of reports.
fn open_reports<L: Look<Guarded>>(
    rt: &impl Wait,
    mq: &Mq<L>,
    process: &mut Process<L>,
) -> anyhow::Result<()>
    requires { (process.old.lock ≡ mq.now) × IsFree process.old }
    ensures { (process.new.lock ≡ mq.now) × IsFree process.new }
{
    let name = Name::read(b"/reports")?;
    let limits = Attr {
        maxmsg: 16,
        msgsize: 8,
    };
    process.open(
        rt,
        mq,
        &name,
        OpenFlags::read_write().create(),
        Some(limits),
    )?;
    Ok(())
}

// A task sends a report. The message is its name.
fn report<L: Look<Guarded>>(
    rt: &impl Wait,
    mq: &Mq<L>,
    process: &mut Process<L>,
    name: &[u8],
    prio: u32,
    now: u32,
) -> anyhow::Result<()>
    requires { (process.old.lock ≡ mq.now) × IsFree process.old }
    ensures { (process.new.lock ≡ mq.now) × IsFree process.new }
{
    let clock = clock_at(now);
    process.timed_send(rt, mq, 0, name, prio, clock.moment, &clock)?;
    Ok(())
}

// The watchdog takes all reports. Its deadline is now, so it never waits.
fn watch<L: Look<Guarded>>(
    rt: &(impl Print + Wait),
    mq: &Mq<L>,
    watchdog: &mut Process<L>,
    now: u32,
) -> anyhow::Result<()>
    requires { (watchdog.old.lock ≡ mq.now) × IsFree watchdog.old }
    ensures { (watchdog.new.lock ≡ mq.now) × IsFree watchdog.new }
{
    let clock = clock_at(now);
    let mut heard_of_sensor = false;
    let mut reports = 0u32;
    let mut buf = [0; 8];
    'reports: for _ in 0..16u32 {
        match watchdog.timed_receive(rt, mq, 0, &mut buf, clock.moment, &clock) {
            Ok(received) => {
                reports = reports.saturating_add(1);
                heard_of_sensor |= received.prio == 2;
            }
            Err(Fault::TimedOut) => break,
            Err(fault) => return Err(fault.into()),
        }
    }
    println!(rt; "{now} ms: {reports} reports")?;
    if !heard_of_sensor {
        println!(rt; "{now} ms: the sensor is silent")?;
    }
    Ok(())
}

// Runs the simulation from event to event.
fn simulate<L: Look<Guarded>>(
    rt: &(impl Print + Wait),
    mq: &Mq<L>,
    control: &mut Process<L>,
    sensor: &mut Process<L>,
    logger: &mut Process<L>,
    watchdog: &mut Process<L>,
) -> anyhow::Result<()>
    requires control { (control.old.lock ≡ mq.now) × IsFree control.old }
    requires sensor { (sensor.old.lock ≡ mq.now) × IsFree sensor.old }
    requires logger { (logger.old.lock ≡ mq.now) × IsFree logger.old }
    requires watchdog { (watchdog.old.lock ≡ mq.now) × IsFree watchdog.old }
    ensures control { control.new.lock ≡ mq.now }
    ensures sensor { sensor.new.lock ≡ mq.now }
    ensures logger { logger.new.lock ≡ mq.now }
    ensures watchdog { watchdog.new.lock ≡ mq.now }
{
    open_all(rt, mq, control, sensor, logger, watchdog)?;
    let mut plan = Plan {
        control: Periodic::every(20),
        sensor: Periodic::every(30),
        logger: Periodic::every(50),
        watchdog: Periodic::every(40),
    };
    'events: for _ in 0..EVENTS {
        let now = plan.next();
        if plan.control.is_due(now) {
            report(rt, mq, control, b"control", 3, now)?;
        }
        if plan.sensor.is_due(now) && !(HANGS_FROM..HANGS_TO).contains(&now) {
            report(rt, mq, sensor, b"sensor", 2, now)?;
        }
        if plan.logger.is_due(now) {
            report(rt, mq, logger, b"logger", 1, now)?;
        }
        if plan.watchdog.is_due(now) {
            watch(rt, mq, watchdog, now)?;
        }
    }
    Ok(())
}

// Opens the queue of reports for each process.
fn open_all<L: Look<Guarded>>(
    rt: &impl Wait,
    mq: &Mq<L>,
    control: &mut Process<L>,
    sensor: &mut Process<L>,
    logger: &mut Process<L>,
    watchdog: &mut Process<L>,
) -> anyhow::Result<()>
    requires control { (control.old.lock ≡ mq.now) × IsFree control.old }
    requires sensor { (sensor.old.lock ≡ mq.now) × IsFree sensor.old }
    requires logger { (logger.old.lock ≡ mq.now) × IsFree logger.old }
    requires watchdog { (watchdog.old.lock ≡ mq.now) × IsFree watchdog.old }
    ensures control { (control.new.lock ≡ mq.now) × IsFree control.new }
    ensures sensor { (sensor.new.lock ≡ mq.now) × IsFree sensor.new }
    ensures logger { (logger.new.lock ≡ mq.now) × IsFree logger.new }
    ensures watchdog { (watchdog.new.lock ≡ mq.now) × IsFree watchdog.new }
{
    open_reports(rt, mq, control)?;
    open_reports(rt, mq, sensor)?;
    open_reports(rt, mq, logger)?;
    open_reports(rt, mq, watchdog)
}

fn print(rt: &impl Print, alloc: Global, journal: &Journal) -> anyhow::Result<()> {
    let text = write_journal(alloc, journal)?;
    write_all(&mut io::writer(rt), text.as_slice())?;
    Ok(())
}

/// A real-time system in virtual time.
pub fn run(rt: &(impl Print + Wait), alloc: Global) -> anyhow::Result<()> {
    let (mq, processes) = FastMq::new(alloc, 4)?;
    let journal = journal_of(rt, mq, processes)?;
    print(rt, alloc, &journal)
}

// The journal of the three tasks and the watchdog after all events.
fn journal_of<L: Look<Guarded>>(
    rt: &(impl Print + Wait),
    mq: Mq<L>,
    mut processes: Vec<Process<L>>,
) -> anyhow::Result<Journal>
    requires count { mq.count ≡ 4 }
    requires all { processes.items ≡ tickets_from mq 1 4 }
    requires stored { stored_in mq.fixed ≡ true }
{
    let mut watchdog = processes.pop().unwrap();
    let mut logger = processes.pop().unwrap();
    let mut sensor = processes.pop().unwrap();
    let mut control = processes.pop().unwrap();
    simulate(
        rt,
        &mq,
        &mut control,
        &mut sensor,
        &mut logger,
        &mut watchdog,
    )?;

    processes.push_reserved(control);
    processes.push_reserved(sensor);
    processes.push_reserved(logger);
    processes.push_reserved(watchdog);
    let Ok(journal) = mq.finish(processes) else {
        unreachable!()
    };
    Ok(journal)
}
