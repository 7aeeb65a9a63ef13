use exploration::fault::Fault;
use exploration::kind::kind_of;
use exploration::operation::{Choice, Trace};
use exploration::record::record_of;
use exploration::request::{Request, Sleeper, request_text};
use exploration::trace::{Lines, read_trace};
use std::alloc::{AllocError, Global};
use std::process::Abort;
use std::test::Fail;

static MALFORMED: [&str; 22] = [
    "",
    "at 1:send:1:0:1:1",
    "at 1:send:1:0:1:1:0:0",
    "at 0:send:1:0:1:1:0",
    "at 65:send:1:0:1:1:0",
    "at 1:sent:1:0:1:1:0",
    "at 1:send:x:0:1:1:0",
    "at 1:send:1:8:1:1:0",
    "at 1:send:1:0:3:1:0",
    "at 1:send:1:0:1:0:0",
    "at 1:send:1:0:1:65:0",
    "at 1:send:4294967296:0:1:1:0",
    "chose 1",
    "chose 1 0 0",
    "also unlock",
    "also unlok 1",
    "gave 0",
    "gave -1 0",
    "room 1",
    "left 1",
    "end done",
    "end done 2",
];

static WELL_FORMED: [&str; 10] = [
    "at",
    "at 1:send:1:0:1:1:0 64:futexwake:4294967295:7:2:64:4294967295",
    "chose 1 0",
    "also unlock 1",
    "gave 0 18446744073709551615",
    "room 1 10",
    "room 1 10 2",
    "left",
    "left 1:join:0:0:0:1:2",
    "end slept 0",
];

fn is_read(alloc: Global, line: &str) -> Result<bool, AllocError> {
    Ok(record_of(alloc, line.as_bytes())?.is_some())
}

#[test]
fn reads_well_formed_lines_alone(rt: HostRuntime) -> Result<(), Fail> {
    for line in &MALFORMED {
        let is_read = is_read(rt.alloc(), line)?;
        assert!(rt; !is_read, "{line}");
    }
    for line in &WELL_FORMED {
        let is_read = is_read(rt.alloc(), line)?;
        assert!(rt; is_read, "{line}");
    }
    Ok(())
}

fn read(alloc: Global, text: &str) -> Result<Trace, Fault> {
    let mut rooms = Vec::new(alloc);
    let mut lines = Lines::new(alloc, text.as_bytes());
    read_trace(alloc, &mut lines, &mut rooms, 2)
}

static FAULTS: [(&str, Fault); 9] = [
    ("", Fault::Ended),
    ("at 1:send:1:0:1:1:0\nchose 1 0\n", Fault::Ended),
    ("chose 1 0\n", Fault::Malformed { line: 1 }),
    ("gave 0 0\n", Fault::Malformed { line: 1 }),
    ("also unlock 1\n", Fault::Malformed { line: 1 }),
    (
        "at 1:send:1:0:1:1:0\nchose 2 0\n",
        Fault::Malformed { line: 2 },
    ),
    (
        "at 1:send:1:0:0:1:0\nchose 1 0\n",
        Fault::Malformed { line: 2 },
    ),
    (
        "at 1:send:1:0:1:1:0\nchose 1 1\n",
        Fault::Malformed { line: 2 },
    ),
    (
        "at 1:send:1:0:1:1:0\nchose 1 0\ngave 0 0\nat\nnothing\n",
        Fault::Malformed { line: 5 },
    ),
];

fn has_fault(rt: &impl Abort, read: Result<Trace, Fault>, wanted: Fault, text: &str) {
    match read {
        Ok(_) => assert!(rt; false, "read {text}"),
        Err(fault) => assert!(rt; fault == wanted, "{fault:?} of {text}"),
    }
}

#[test]
fn names_the_first_malformed_line(rt: HostRuntime) -> Result<(), Fail> {
    for (text, fault) in &FAULTS {
        has_fault(&rt, read(rt.alloc(), text), *fault, text);
    }
    Ok(())
}

#[test]
fn reads_a_run(rt: HostRuntime) -> Result<(), Fail> {
    let text = "room 1 2\nat 1:send:1:0:1:1:3 2:lock:5:0:1:1:0\nchose 1 0\nalso unlock 5\n\
        gave 0 7\nleft 2:lock:5:0:1:1:0\nend deadlock 1\n";
    let trace = read(rt.alloc(), text)?;
    assert_eq!(rt; trace.steps.len(), 1);
    let step = &trace.steps[0];
    assert_eq!(rt; (step.choice.thread, step.error, step.value), (1, 0, 7));
    assert_eq!(rt;
        (step.parked.len(), step.also.len(), trace.left.len()),
        (2, 1, 1)
    );
    assert!(rt; trace.fails);
    Ok(())
}

#[test]
fn writes_a_request(rt: HostRuntime) -> Result<(), Fail> {
    let alloc = rt.alloc();
    let mut request = Request::first(alloc);
    assert_eq!(rt; request_text(alloc, &request)?.as_str(), "run\n");
    request.choices.push(Choice {
        thread: 2,
        variant: 0,
    })?;
    request.choices.push(Choice {
        thread: 1,
        variant: 3,
    })?;
    request.lead.push(4)?;
    request.sleepers.push(Sleeper {
        thread: 2,
        object: 7,
    })?;
    let text = request_text(alloc, &request)?;
    assert_eq!(rt; text.as_str(), "run 2 1.3 lead 4 sleep 2:7\n");
    assert!(rt; kind_of(b"send").is_some() && kind_of(b"sent").is_none());
    Ok(())
}
