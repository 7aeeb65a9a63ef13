//! What the lines of a script make their processes do.
ghost use Rattle.std.specs.Prelude.{◌≡◌, ◌++◌, ◌<◌, IfOk, OnOk, map, vec_len};
ghost use Rattle.script_text.specs.Grammar.{said};
ghost use Rattle.script_text.specs.Script.{said_call, said_calls, said_phases};
ghost use Rattle.mq_model.specs.declared.entries.Call.{Call};
ghost use Rattle.script_orders.specs.Plans.{given_by, named_step, plan, plan_of, plans_of, program_of, programs_of, step_by};

use mq_model::entries::{Call, Deadline};
use mq_model::faults::Fault;
use mq_model::names::Name;
use script_text::command::Command;
use script_text::line::ScriptCall;
use script_text::script::Script;
use std::alloc::{AllocError, Global};

/// What a line of a script makes its process do.
#[derive(Clone, Copy)]
pub enum Step {
    /// A call of the queues.
    Call(Call),
    /// A call with a malformed name: it fails before it reaches the queues.
    Refusal(Fault),
    /// Closes all descriptors in one step.
    Exit,
}

/// A line of a script, with its phase, counted from 0. `given` is the name or the message of its
/// call.
#[derive(Drop)]
pub struct Planned {
    pub phase: u64,
    pub line: u64,
    pub step: Step,
    pub given: Vec<u8>,
}

// A call with a name. It fails if the name is malformed.
fn named_step(name: &[u8], call: Call) -> Step
    ensures { result ≡ named_step name.now call }
{
    match Name::read(name) {
        Ok(_) => Step::Call(call),
        Err(fault) => Step::Refusal(fault),
    }
}

// What a command does in a phase with this time.
fn step_by(command: &Command<&[u8]>, now: Deadline) -> Step
    ensures { result ≡ step_by now (said command.now) }
{
    match *command {
        Command::Open { name, flags, attr } => named_step(name, Call::MqOpen { flags, attr }),
        Command::Close { d } => Step::Call(Call::MqClose { d }),
        Command::Unlink { name } => named_step(name, Call::MqUnlink),
        Command::Send { d, prio, message } => Step::Call(Call::MqSend {
            d,
            prio,
            len: message.len() as u64,
        }),
        Command::Receive { d, room } => Step::Call(Call::MqReceive {
            d,
            room: room as u64,
        }),
        Command::TimedSend {
            d,
            prio,
            until,
            message,
        } => Step::Call(Call::MqTimedSend {
            d,
            prio,
            len: message.len() as u64,
            until,
            now,
        }),
        Command::TimedReceive { d, room, until } => Step::Call(Call::MqTimedReceive {
            d,
            room: room as u64,
            until,
            now,
        }),
        Command::Getattr { d } => Step::Call(Call::MqGetattr { d }),
        Command::Setattr { d, nonblock } => Step::Call(Call::MqSetattr { d, nonblock }),
        Command::Notify { d, value } => Step::Call(Call::MqNotify { d, value }),
        Command::Notice => Step::Call(Call::NextNotice),
        Command::Exit => Step::Exit,
    }
}

// The name or the message of a command.
fn given_by<'s>(command: &Command<&'s [u8]>) -> &'s [u8]
    ensures { result.now ≡ given_by (said command.now) }
{
    match *command {
        Command::Open {
            name,
            flags: _,
            attr: _,
        } => name,
        Command::Unlink { name } => name,
        Command::Send {
            d: _,
            prio: _,
            message,
        } => message,
        Command::TimedSend {
            d: _,
            prio: _,
            until: _,
            message,
        } => message,
        _ => &[],
    }
}

// A line of a phase.
fn planned_of(alloc: Global, phase: u64, call: &ScriptCall<&[u8]>) -> Result<Planned, AllocError>
    ensures { IfOk result (λ planned. plan_of planned ≡ plan phase (said_call call.now)) }
{
    let given = given_by(&call.command).to_vec(alloc)?;
    Ok(Planned {
        phase,
        line: call.line,
        step: step_by(&call.command, call.clock.moment),
        given,
    })
}

// Appends the lines of process p in a phase.
fn push_plans(
    alloc: Global,
    program: &mut Vec<Planned>,
    phase: u64,
    calls: &[ScriptCall<&[u8]>],
    p: u32,
) -> Result<(), AllocError>
    ensures { OnOk result (map plan_of program.new.items ≡
        map plan_of program.old.items ++ plans_of phase (said_calls calls.now) p) }
{
    for call in calls {
        if call.process == p {
            program.push(planned_of(alloc, phase, call)?)?;
        }
    }
    Ok(())
}

// The lines of process p, in order.
fn program_of(
    alloc: Global,
    phases: &[Vec<ScriptCall<&[u8]>>],
    p: u32,
) -> Result<Vec<Planned>, AllocError>
    ensures { IfOk result (λ program. map plan_of program.items ≡
        program_of 0 (said_phases phases.now) p) }
{
    let mut program = Vec::new(alloc);
    for phase in 0..phases.len() {
        push_plans(
            alloc,
            &mut program,
            phase as u64,
            phases[phase].as_slice(),
            p,
        )?;
    }
    Ok(program)
}

/// The lines of each process of a script, those of process 1 first.
pub fn programs_of(alloc: Global, script: &Script<'_>) -> Result<Vec<Vec<Planned>>, AllocError>
    ensures programs { IfOk result (λ programs.
        map (λ program. map plan_of program.items) programs.items ≡
        programs_of (said_phases script.now.phases.items) script.now.processes) }
    ensures count { IfOk result (λ programs. vec_len programs ≡ script.now.processes) }
{
    let mut programs = Vec::new(alloc);
    for index in 0..script.processes {
        programs.push(program_of(alloc, script.phases.as_slice(), index + 1)?)?;
    }
    Ok(programs)
}
