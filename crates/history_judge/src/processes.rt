//! The calls of a history, by process.
ghost use Rattle.std.specs.Prelude.{◌≡◌, ◌≤◌, ◌++◌, ◌∷◌, [], List, IfOk, OnOk, length};
ghost use Rattle.history_judge.specs.declared.line.Called.{Called};
ghost use Rattle.history_judge.specs.Processes.{AreByProcess, process_count};

use crate::line::Called;
use histories::operation::Operation;
use mq_model::forms::is_process;
use std::alloc::{AllocError, Global};

/// The number of processes: the greatest process number.
pub fn process_count(calls: &[Called]) -> u32
    ensures count { result ≡ process_count calls.now }
    ensures few { result ≤ 32 }
{
    let mut count = 0;
    for called in calls {
        if is_process(called.process) && count < called.process {
            count = called.process;
        }
    }
    count
}

/// The operations of the processes 1 to `count`, each process's in the order of its calls.
pub fn by_process(
    alloc: Global,
    calls: Vec<Called>,
    count: u32,
) -> Result<Vec<Vec<Operation>>, AllocError>
    ensures count { IfOk result (λ histories. length histories.items ≡ count) }
    ensures each { IfOk result (λ histories. AreByProcess calls.items histories.items) }
{
    let mut histories = without_operations(alloc, count)?;
    for called in calls {
        add(&mut histories, called)?;
    }
    Ok(histories)
}

// This number of processes without operations.
fn without_operations(alloc: Global, count: u32) -> Result<Vec<Vec<Operation>>, AllocError>
    ensures count { IfOk result (λ histories. length histories.items ≡ count) }
    ensures each { IfOk result (λ histories. AreByProcess [] histories.items) }
{
    let mut histories: Vec<Vec<Operation>> = Vec::new(alloc);
    for n in 0..count {
        let _n = n;
        histories.push(Vec::new(alloc))?;
    }
    Ok(histories)
}

// Appends a call to the operations of its process, if that is one of them.
fn add(histories: &mut Vec<Vec<Operation>>, called: Called) -> Result<(), AllocError>
    ensures count { length histories.new.items ≡ length histories.old.items }
    ensures each { OnOk result ((before : List Called) →
        AreByProcess before histories.old.items →
        AreByProcess (before ++ called ∷ []) histories.new.items) }
{
    let Called { process, operation } = called;
    if process == 0 || process as usize > histories.len() {
        return Ok(());
    }
    let operations = &mut histories[process as usize - 1];
    operations.push(operation)?;
    Ok(())
}
