//! The order of a history's calls, queue by queue: the heuristic orders the calls of each queue by
//! themselves, and the orders are merged.
//!
//! They can be merged since linearizability is local (Herlihy and Wing, "Linearizability: A
//! Correctness Condition for Concurrent Objects", 1990). Nothing is proved about the order here.
use super::heuristic::Heuristic;
use super::{Task, Tasks};
use std::alloc::{AllocError, Global};

// The maximum number of queues whose calls are ordered by themselves. Each costs a look at all
// calls.
const MOST_QUEUES: usize = 64;

/// The processes in an order in which their calls can take effect, if one is found. A search for
/// the order of a queue takes at most `steps` steps, and so does one for all queues, if these are
/// too many.
pub fn order_of(alloc: Global, tasks: Tasks, steps: u64) -> Result<Option<Vec<usize>>, AllocError> {
    if tasks.queues > MOST_QUEUES {
        let mut heuristic = Heuristic::new(alloc, tasks)?;
        return heuristic.order(alloc, steps);
    }
    order_by_queue(alloc, &tasks, steps)
}

// The same, queue by queue.
fn order_by_queue(
    alloc: Global,
    tasks: &Tasks,
    steps: u64,
) -> Result<Option<Vec<usize>>, AllocError> {
    let mut orders: Vec<Vec<usize>> = Vec::new(alloc);
    for queue in 0..tasks.queues.saturating_add(1) {
        match order_on(alloc, tasks, queue, steps)? {
            Some(order) => orders.push(order)?,
            None => return Ok(None),
        }
    }
    merged(alloc, &tasks.tasks, &orders)
}

// The processes in an order in which their calls on a queue can take effect, if one is found.
fn order_on(
    alloc: Global,
    tasks: &Tasks,
    queue: usize,
    steps: u64,
) -> Result<Option<Vec<usize>>, AllocError> {
    let mut on: Vec<Vec<Task>> = Vec::new(alloc);
    let mut is_used = false;
    for list in &tasks.tasks {
        let own = tasks_on(alloc, list, queue)?;
        is_used = is_used || !own.is_empty();
        on.push(own)?;
    }
    if !is_used {
        return Ok(Some(Vec::new(alloc)));
    }
    let mut heuristic = Heuristic::new(
        alloc,
        Tasks {
            tasks: on,
            queues: tasks.queues,
            kinds: tasks.kinds,
        },
    )?;
    heuristic.order(alloc, steps)
}

// The tasks of a process on a queue.
fn tasks_on(alloc: Global, list: &Vec<Task>, queue: usize) -> Result<Vec<Task>, AllocError> {
    let mut own = Vec::new(alloc);
    for task in list {
        if task.queue == queue {
            own.push(*task)?;
        }
    }
    Ok(own)
}

// Merges the orders of the queues, if they agree.
fn merged(
    alloc: Global,
    tasks: &Vec<Vec<Task>>,
    orders: &Vec<Vec<usize>>,
) -> Result<Option<Vec<usize>>, AllocError> {
    let mut made = vec![in alloc; 0usize; tasks.len()]?;
    let mut taken = vec![in alloc; 0usize; orders.len()]?;
    let mut order = Vec::new(alloc);
    for _ in 0..call_count(orders) {
        let Some((queue, process)) = next_of(tasks, orders, &made, &taken) else {
            return Ok(None);
        };
        order.push(process)?;
        count_one(&mut made, process);
        count_one(&mut taken, queue);
    }
    Ok(Some(order))
}

fn call_count(orders: &Vec<Vec<usize>>) -> usize {
    let mut count: usize = 0;
    for order in orders {
        count = count.saturating_add(order.len());
    }
    count
}

fn count_one(counts: &mut Vec<usize>, index: usize) {
    if index < counts.len() {
        counts[index] = counts[index].saturating_add(1);
    }
}

// A call that can come next: the next one of its queue and of its process, if it began before any
// call that is left ended. `made` counts the calls of each process so far, `taken` those of each
// queue.
fn next_of(
    tasks: &Vec<Vec<Task>>,
    orders: &Vec<Vec<usize>>,
    made: &Vec<usize>,
    taken: &Vec<usize>,
) -> Option<(usize, usize)> {
    let limit = limit_of(tasks, made);
    for (queue, (order, count)) in orders.iter().zip(taken.iter()).enumerate() {
        if let Some(process) = order.get(*count)
            && let Some(task) = task_at(tasks, made, *process)
            && task.queue == queue
            && task.begin <= limit
        {
            return Some((queue, *process));
        }
    }
    None
}

// The next task of a process.
fn task_at<'t>(tasks: &'t Vec<Vec<Task>>, made: &Vec<usize>, process: usize) -> Option<&'t Task> {
    tasks.get(process)?.get(*made.get(process)?)
}

// The earliest end of a call that is left.
fn limit_of(tasks: &Vec<Vec<Task>>, made: &Vec<usize>) -> u64 {
    let mut limit = u64::MAX;
    for process in 0..tasks.len() {
        if let Some(task) = task_at(tasks, made, process) {
            limit = limit.min(task.end);
        }
    }
    limit
}
