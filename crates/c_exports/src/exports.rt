//! The calls of a process for C. Nothing has changed if the handle is empty, if the process has an
//! open wait and the call needs one without (or the other way round), or if this try did not
//! acquire the lock.
ghost use Rattle.std.specs.Prelude.{◌≡◌, Some, None, IfSome, IfNone, [], length, if◌then◌else◌};
ghost use Rattle.mq_model.specs.declared.entries.Call.{Call};
ghost use Rattle.mq_model.specs.Fault.{number_of};
ghost use Rattle.c_handles.specs.Openings.{open_fault, name_fault, flags_of, attr_of, deadline_of};
ghost use Rattle.mq.specs.Calls.{OneCall, ReceiveCall, Exits};
ghost use Rattle.mq.specs.Says.{open_says, done_says, attributes_says, notice_says, start_send_says, start_receive_says};
ghost use Rattle.c_handles.specs.Tries.{Gives, GivesWith};
ghost use Rattle.c_handles.specs.Endings.{GivesEnd, GivesLook};
ghost use Rattle.c_handles.specs.Handles.{process_in, under_way_in};
ghost use Rattle.c_handles.specs.Codes.{told, code_of, written, given_code, given, notice_code, notice_given, sent_code, got_code, message_got, attributes_got, end_code, end_message};

use c_handles::handle::Handle;
use c_handles::requests::{
    Attributes, Message, Moment, Opening, limits, read_name, read_open, registration,
};
use c_handles::{numbers, with_member};
use mq::Call;
use std::alloc::Global;

/// Opens a queue (`mq_open`) and writes its descriptor. A malformed name or access mode fails
/// before anything else.
#[unsafe(no_mangle)]
pub extern "C" fn yak_open(
    alloc: Global,
    process: &mut Handle,
    name: &[u8],
    opening: &Opening,
    d: &mut u32,
) -> u32
    ensures bad { IfSome (open_fault name.now opening.now) (λ fault. (result ≡ number_of fault) ×
        (process.new ≡ process.old) × (d.new ≡ d.old)) }
    ensures good { IfNone (open_fault name.now opening.now) (Gives (λ old new result.
        OneCall open_says old new (Call.MqOpen (flags_of opening.now)
        (attr_of opening.now)) name.now result) (λ t.
        told (code_of given_code t) (written (given d.old) d.old t)) (process_in process.old)
        (process_in process.new) (told result d.new)) }
{
    let (name, flags) = match read_open(name, opening) {
        Ok(read) => read,
        Err(fault) => return fault.number(),
    };
    let attr = limits(opening);
    let tried = process.make(alloc, Call::MqOpen { flags, attr }, name.bytes(), &mut []);
    numbers::opened(tried, d)
}

/// Unlinks a name (`mq_unlink`). A malformed name fails before anything else.
#[unsafe(no_mangle)]
pub extern "C" fn yak_unlink(alloc: Global, process: &mut Handle, name: &[u8]) -> u32
    ensures bad { IfSome (name_fault name.now) (λ fault. (result ≡ number_of fault) ×
        (process.new ≡ process.old)) }
    ensures good { IfNone (name_fault name.now) (Gives (λ old new result.
        OneCall done_says old new Call.MqUnlink name.now result) (code_of given_code)
        (process_in process.old) (process_in process.new) result) }
{
    let name = match read_name(name) {
        Ok(name) => name,
        Err(fault) => return fault.number(),
    };
    let tried = process.make(alloc, Call::MqUnlink, name.bytes(), &mut []);
    numbers::done(tried)
}

/// Closes a descriptor (`mq_close`).
#[unsafe(no_mangle)]
pub extern "C" fn yak_close(alloc: Global, process: &mut Handle, d: u32) -> u32
    ensures { Gives (λ old new result. OneCall done_says old new (Call.MqClose d) [] result)
        (code_of given_code) (process_in process.old) (process_in process.new) result }
{
    let tried = process.make(alloc, Call::MqClose { d }, &[], &mut []);
    numbers::done(tried)
}

/// Registers the process on the queue of a descriptor with this value, or removes the registration
/// (`mq_notify`).
#[unsafe(no_mangle)]
pub extern "C" fn yak_notify(
    alloc: Global,
    process: &mut Handle,
    d: u32,
    registers: bool,
    value: u64,
) -> u32
    ensures { Gives (λ old new result.
        OneCall done_says old new (Call.MqNotify d (if registers then Some value else None)) []
        result) (code_of given_code) (process_in process.old) (process_in process.new) result }
{
    let value = registration(registers, value);
    let tried = process.make(alloc, Call::MqNotify { d, value }, &[], &mut []);
    numbers::done(tried)
}

/// Writes the attributes of a descriptor (`mq_getattr`).
#[unsafe(no_mangle)]
pub extern "C" fn yak_getattr(
    alloc: Global,
    process: &mut Handle,
    d: u32,
    attributes: &mut Attributes,
) -> u32
    ensures { Gives (λ old new result. OneCall attributes_says old new (Call.MqGetattr d) [] result)
        (λ t. told (code_of given_code t)
        (written (attributes_got attributes.old) attributes.old t)) (process_in process.old)
        (process_in process.new) (told result attributes.new) }
{
    let tried = process.make(alloc, Call::MqGetattr { d }, &[], &mut []);
    numbers::attributes(tried, attributes)
}

/// Sets the nonblocking flag of a descriptor and writes the attributes from before (`mq_setattr`).
#[unsafe(no_mangle)]
pub extern "C" fn yak_setattr(
    alloc: Global,
    process: &mut Handle,
    d: u32,
    nonblock: bool,
    before: &mut Attributes,
) -> u32
    ensures { Gives (λ old new result.
        OneCall attributes_says old new (Call.MqSetattr d nonblock) [] result) (λ t.
        told (code_of given_code t) (written (attributes_got before.old) before.old t))
        (process_in process.old) (process_in process.new) (told result before.new) }
{
    let tried = process.make(alloc, Call::MqSetattr { d, nonblock }, &[], &mut []);
    numbers::attributes(tried, before)
}

/// Takes the oldest notice of the process and writes its value.
#[unsafe(no_mangle)]
pub extern "C" fn yak_next_notice(alloc: Global, process: &mut Handle, value: &mut u64) -> u32
    ensures { Gives (λ old new result. OneCall notice_says old new Call.NextNotice [] result) (λ t.
        told (code_of notice_code t) (written (notice_given value.old) value.old t))
        (process_in process.old) (process_in process.new) (told result value.new) }
{
    let tried = process.make(alloc, Call::NextNotice, &[], &mut []);
    numbers::notice(tried, value)
}

/// Closes all descriptors of the process, as POSIX does when a process ends.
#[unsafe(no_mangle)]
pub extern "C" fn yak_exit(alloc: Global, process: &mut Handle) -> u32
    ensures { Gives (λ old new result. Exits old new result) (code_of given_code)
        (process_in process.old) (process_in process.new) result }
{
    numbers::done(with_member!(process, alloc, |member| member.exit()))
}

/// Sends a message, or starts to wait for its admission (`mq_send`).
#[unsafe(no_mangle)]
pub extern "C" fn yak_start_send(
    alloc: Global,
    process: &mut Handle,
    d: u32,
    bytes: &[u8],
    prio: u32,
) -> u32
    ensures { Gives (λ old new result.
        OneCall start_send_says old new (Call.MqSend d prio (length bytes.now)) bytes.now result)
        (code_of sent_code) (process_in process.old) (process_in process.new) result }
{
    process.start_send(alloc, d, bytes, prio)
}

/// The same with a deadline, at the time `now` (`mq_timedsend`).
#[unsafe(no_mangle)]
pub extern "C" fn yak_start_timed_send(
    alloc: Global,
    process: &mut Handle,
    d: u32,
    bytes: &[u8],
    prio: u32,
    until: &Moment,
    now: &Moment,
) -> u32
    ensures { Gives (λ old new result.
        OneCall start_send_says old new (Call.MqTimedSend d prio (length bytes.now)
        (deadline_of until.now) (deadline_of now.now)) bytes.now result) (code_of sent_code)
        (process_in process.old) (process_in process.new) result }
{
    let call = Call::MqTimedSend {
        d,
        prio,
        len: bytes.len() as u64,
        until: until.deadline(),
        now: now.deadline(),
    };
    let tried = process.make(alloc, call, bytes, &mut []);
    numbers::sent(tried)
}

/// Receives the oldest message of the highest priority to the start of the buffer, or starts to
/// wait for one (`mq_receive`).
#[unsafe(no_mangle)]
pub extern "C" fn yak_start_receive(
    alloc: Global,
    process: &mut Handle,
    d: u32,
    buf: &mut [u8],
    message: &mut Message,
) -> u32
    ensures { GivesWith (buf.new ≡ buf.old) (λ old new result.
        ReceiveCall start_receive_says old new (Call.MqReceive d (length buf.old)) buf.old buf.new
        result) (λ t. told (code_of got_code t) (written (message_got message.old) message.old t))
        (process_in process.old) (process_in process.new) (told result message.new) }
{
    process.start_receive(alloc, d, buf, message)
}

/// The same with a deadline, at the time `now` (`mq_timedreceive`).
#[unsafe(no_mangle)]
pub extern "C" fn yak_start_timed_receive(
    alloc: Global,
    process: &mut Handle,
    d: u32,
    buf: &mut [u8],
    message: &mut Message,
    until: &Moment,
    now: &Moment,
) -> u32
    ensures { GivesWith (buf.new ≡ buf.old) (λ old new result.
        ReceiveCall start_receive_says old new (Call.MqTimedReceive d (length buf.old)
        (deadline_of until.now) (deadline_of now.now)) buf.old buf.new result) (λ t.
        told (code_of got_code t) (written (message_got message.old) message.old t))
        (process_in process.old) (process_in process.new) (told result message.new) }
{
    let call = Call::MqTimedReceive {
        d,
        room: buf.len() as u64,
        until: until.deadline(),
        now: now.deadline(),
    };
    let tried = process.make(alloc, call, &[], buf);
    numbers::got(tried, message)
}

/// Ends the open wait if it is answered. A received message is then at the start of the buffer.
#[unsafe(no_mangle)]
pub extern "C" fn yak_collect(
    alloc: Global,
    process: &mut Handle,
    buf: &mut [u8],
    message: &mut Message,
) -> u32
    ensures { GivesEnd None (λ e. told (end_code e) (end_message message.old e))
        (process_in process.old) (process_in process.new) buf.old buf.new
        (told result message.new) }
{
    let ending = with_member!(process, alloc, |member| member.collect(buf));
    numbers::ended(ending, message)
}

/// Ends the open wait, whose deadline has passed at the time `now`: collects it as `yak_collect`
/// does if it is answered, else withdraws it.
#[unsafe(no_mangle)]
pub extern "C" fn yak_end_wait(
    alloc: Global,
    process: &mut Handle,
    buf: &mut [u8],
    message: &mut Message,
    now: &Moment,
) -> u32
    ensures { GivesEnd (Some (deadline_of now.now)) (λ e.
        told (end_code e) (end_message message.old e)) (process_in process.old)
        (process_in process.new) buf.old buf.new (told result message.new) }
{
    let now = now.deadline();
    let ending = with_member!(process, alloc, |member| member.end_wait(buf, now));
    numbers::ended(ending, message)
}

/// Polls from outside the lock whether the open wait is answered, by one load.
#[unsafe(no_mangle)]
pub extern "C" fn yak_answered(alloc: Global, process: &mut Handle) -> u32
    ensures look { GivesLook (under_way_in process.old) (process_in process.old)
        (process_in process.new) result }
    ensures under_way { under_way_in process.new ≡ under_way_in process.old }
{
    numbers::looked(with_member!(process, alloc, |member| member.answered()))
}
