//! The laws of a legal journal are called once, the numbers of errors told, and a journal of several
//! threads checked.
use crate::same::same;
use mq_core::checker::check_history;
use mq_core::entries::{Access, Call, Entry, OpenFlags, Reply};
use mq_core::faults::Fault;
use mq_core::journals::Journal;
use mq_core::laws;
use std::test::Fail;

const CLOSE: Entry = Entry {
    process: 1,
    call: Call::MqClose { d: 0 },
    reply: Reply::Refused(Fault::BadDescriptor),
};

#[test]
fn laws_take_a_legal_journal(rt: HostRuntime) -> Result<(), Fail> {
    let mut journal = Journal::new(rt.alloc());
    journal.reserve(1, 0)?;
    journal.push(CLOSE, &[]);
    match check_history(&journal) {
        Ok(()) => {
            laws::gives_once(&journal);
            laws::gives_best(&journal);
            laws::leaves_in_order(&journal);
            laws::holds_descriptors(&journal);
            laws::ends_for_good(&journal);
            laws::waits_for_cause(&journal);
            laws::others_leave(&journal, 1);
            laws::registers_latest(&journal);
            laws::refusals_change_nothing(&journal);
            laws::waits_one_at_a_time(&journal);
            laws::threads_share(&journal);
            laws::holds_alone(&journal);
            laws::those_before(&journal);
        }
        Err(place) => panic!(rt; "illegal at {place}"),
    }
    same(&rt, Fault::Again.number(), 1, "the first number");
    same(&rt, Fault::JournalFull.number(), 13, "the last number");
    Ok(())
}

// Callers 1, 33 and 65 are threads of process 1.
static THREADS: [Entry; 5] = [
    Entry {
        process: 33,
        call: Call::MqReceive { d: 0, room: 8192 },
        reply: Reply::Waits,
    },
    Entry {
        process: 1,
        call: Call::MqReceive { d: 0, room: 8192 },
        reply: Reply::Waits,
    },
    Entry {
        process: 65,
        call: Call::MqClose { d: 0 },
        reply: Reply::Done,
    },
    Entry {
        process: 2048,
        call: Call::NextNotice,
        reply: Reply::Notice(None),
    },
    Entry {
        process: 2049,
        call: Call::NextNotice,
        reply: Reply::Notice(None),
    },
];

#[test]
fn callers_up_to_2048_are_checked(rt: HostRuntime) -> Result<(), Fail> {
    let mut journal = Journal::new(rt.alloc());
    let flags = OpenFlags {
        access: Access::Both,
        create: true,
        excl: false,
        nonblock: false,
    };
    journal.reserve(6, 2)?;
    let open = Entry {
        process: 1,
        call: Call::MqOpen { flags, attr: None },
        reply: Reply::Opened {
            d: 0,
            created: true,
        },
    };
    journal.push(open, b"/q");
    for entry in &THREADS {
        journal.reserve(1, 0)?;
        journal.push(*entry, &[]);
    }
    let found = match check_history(&journal) {
        Ok(()) => 6,
        Err(place) => place,
    };
    same(&rt, found, 5, "the first entry that is not legal");
    Ok(())
}
