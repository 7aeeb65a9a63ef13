// The journal at the end: every call with its reply, in the order of the critical sections.
ghost use Rattle.std.specs.Prelude.{◌≡◌, true};
ghost use Rattle.fast_mutex.specs.Items.{tickets_from};
ghost use Rattle.mq.specs.Calls.{IsFree, stored_in};

use fast_mutex::Look;
use mq::{Attr, FastMq, Guarded, Journal, Mq, Name, OpenFlags, Process, check_history};
use std::alloc::Global;
use std::io::Print;
use std::sync::Wait;
use std::time::Clock;

/// A journal that is read and checked.
pub fn run(rt: &(impl Print + Wait + Clock), alloc: Global) -> anyhow::Result<()> {
    let (mq, processes) = FastMq::new(alloc, 2)?;
    let journal = journal_of(rt, mq, processes)?;
    print(rt, &journal)
}

// The journal of the two processes after their calls.
fn journal_of<L: Look<Guarded>>(
    rt: &(impl Print + Wait + Clock),
    mq: Mq<L>,
    mut processes: Vec<Process<L>>,
) -> anyhow::Result<Journal>
    requires count { mq.count ≡ 2 }
    requires all { processes.items ≡ tickets_from mq 1 2 }
    requires stored { stored_in mq.fixed ≡ true }
{
    let mut two = processes.pop().unwrap();
    let mut one = processes.pop().unwrap();
    talk(rt, &mq, &mut one, &mut two)?;

    processes.push_reserved(one);
    processes.push_reserved(two);
    let Ok(journal) = mq.finish(processes) else {
        unreachable!()
    };
    Ok(journal)
}

fn open_both<L: Look<Guarded>>(
    rt: &impl Wait,
    mq: &Mq<L>,
    one: &mut Process<L>,
    two: &mut Process<L>,
) -> anyhow::Result<()>
    requires one { (one.old.lock ≡ mq.now) × IsFree one.old }
    requires two { (two.old.lock ≡ mq.now) × IsFree two.old }
    ensures one { (one.new.lock ≡ mq.now) × IsFree one.new }
    ensures two { (two.new.lock ≡ mq.now) × IsFree two.new }
{
    let name = Name::read(b"/q")?;
    let limits = Attr {
        maxmsg: 1,
        msgsize: 8,
    };
    let flags = OpenFlags::read_write().create();
    one.open(rt, mq, &name, flags, Some(limits))?;
    two.open(rt, mq, &name, OpenFlags::read_write(), None)?;
    Ok(())
}

// Process one receives before there is a message, so its receive waits until process two sends one.
fn talk<L: Look<Guarded>>(
    rt: &(impl Print + Wait + Clock),
    mq: &Mq<L>,
    one: &mut Process<L>,
    two: &mut Process<L>,
) -> anyhow::Result<()>
    requires one { (one.old.lock ≡ mq.now) × IsFree one.old }
    requires two { (two.old.lock ≡ mq.now) × IsFree two.old }
    ensures one { one.new.lock ≡ mq.now }
    ensures two { two.new.lock ≡ mq.now }
{
    open_both(rt, mq, one, two)?;
    let mut buf = [0; 8];
    if one.start_receive(rt, mq, 0, &mut buf)?.is_some() {
        println!(rt; "a message was there")?;
        return Ok(());
    }
    two.send(rt, mq, 0, b"hi", 4)?;
    let _message = one.collect(rt, mq, &mut buf);
    two.send(rt, mq, 0, b"a", 0)?;
    Ok(())
}

fn print(rt: &impl Print, journal: &Journal) -> anyhow::Result<()> {
    for place in 0..journal.len() {
        if let Some(entry) = journal.entry(place) {
            println!(rt;
                "{place}: process {}, {:?} -> {:?}",
                entry.process, entry.call, entry.reply
            )?;
        }
    }
    println!(rt; "legal: {}", check_history(journal).is_ok())?;
    Ok(())
}
