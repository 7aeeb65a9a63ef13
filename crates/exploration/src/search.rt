//! A depth-first search through the schedules of a program.
ghost use Rattle.std.specs.Prelude.{◌≡◌, ◌+◌, ◌*◌, ◌-◌, ◌^◌, ◌<◌, ◌≤◌, suc, true, Bool, List, [], ◌∷◌, ◌++◌, All, IfOk, IfSome, OnOk, length, drop};
ghost use Rattle.exploration.specs.Choices.{can_choose};
ghost use Rattle.exploration.specs.Shown.{AreOpen, IsOpen, Possible, Shows, runs_left, runs_of};
ghost use Rattle.exploration.specs.declared.operation.Choice.{Choice};
ghost use Rattle.exploration.specs.declared.operation.Step.{Step};

use crate::fault::Fault;
use crate::follow::Rules;
use crate::operation::{Choice, End, Parked, Step, Trace, can_choose};
use crate::plan::Plan;
use crate::request::Request;
use crate::trace::Room;
use std::alloc::{AllocError, Global};

/// A point in a run at which the search may choose another step than the last run took. The choices
/// that lead to it are the first of the search's path: as many as there are nodes before it.
#[derive(Drop)]
pub struct Node {
    /// The choices that no run took here.
    pub open: Vec<Choice>,
    /// The threads that are parked.
    pub parked: Vec<Parked>,
}

/// The limits on the size of runs.
#[derive(Clone, Copy)]
pub struct Limits {
    pub steps: usize,
    /// The choices of a step, apart from the one that was made.
    pub choices: usize,
}

// The choices that these parked threads allow, apart from the one that was made.
fn other_choices(alloc: Global, parked: &[Parked], made: Choice) -> Result<Vec<Choice>, AllocError>
    ensures { IfOk result (λ found.
        All (λ choice. can_choose parked.now choice ≡ true) found.items) }
{
    let mut others = Vec::new(alloc);
    for it in parked {
        for variant in 0..it.variants {
            let choice = Choice {
                thread: it.thread,
                variant,
            };
            if choice != made && can_choose(parked, choice) {
                others.push(choice)?;
            }
        }
    }
    Ok(others)
}

// The node of a step.
fn node_of(alloc: Global, limits: Limits, step: &Step) -> Result<Node, Fault>
    ensures few { IfOk result (λ node. length node.open.items ≤ limits.choices) }
    ensures open { IfOk result (λ node.
        All (λ choice. can_choose step.now.parked.items choice ≡ true) node.open.items) }
{
    let open = other_choices(alloc, &step.parked, step.choice)?;
    if open.len() > limits.choices {
        return Err(Fault::TooLarge);
    }
    let parked = step.parked.to_vec(alloc)?;
    Ok(Node { open, parked })
}

// Appends the node of a step that was made after the choices of the path, and its choice.
fn add_step(
    alloc: Global,
    limits: Limits,
    nodes: &mut Vec<Node>,
    path: &mut Vec<Choice>,
    step: &Step,
) -> Result<(), Fault>
    ensures open { (could : List Choice → Choice → Bool) (steps : List Step) →
        AreOpen could path.old.items 0 nodes.old.items → Possible could path.old.items →
        Shows could path.old.items (step.now ∷ steps) →
        OnOk result (AreOpen could path.new.items 0 nodes.new.items
        × Possible could path.new.items × Shows could path.new.items steps) }
    ensures length { OnOk result (length path.new.items ≡ suc (length path.old.items)) }
    ensures work { length path.old.items ≤ limits.steps → OnOk result
        (runs_left limits.choices limits.steps 0 nodes.new.items
        + suc limits.choices ^ (suc limits.steps - length path.new.items)
        ≤ runs_left limits.choices limits.steps 0 nodes.old.items
        + suc limits.choices ^ (suc limits.steps - length path.old.items)) }
{
    if nodes.len() != path.len() {
        return Err(Fault::Unfit);
    }
    if !can_choose(&step.parked, step.choice) {
        return Err(Fault::Unfit);
    }
    let node = node_of(alloc, limits, step)?;
    push_node(nodes, node)?;
    push_choice(path, step.choice)?;
    Ok(())
}

fn push_node(nodes: &mut Vec<Node>, node: Node) -> Result<(), AllocError>
    ensures { OnOk result (nodes.new.items ≡ nodes.old.items ++ node ∷ []) }
{
    nodes.push(node)?;
    Ok(())
}

fn push_choice(choices: &mut Vec<Choice>, choice: Choice) -> Result<(), AllocError>
    ensures { OnOk result (choices.new.items ≡ choices.old.items ++ choice ∷ []) }
{
    choices.push(choice)?;
    Ok(())
}

// Appends the nodes of steps that were made after the choices of the path, and their choices.
fn add_steps(
    alloc: Global,
    limits: Limits,
    nodes: &mut Vec<Node>,
    path: &mut Vec<Choice>,
    steps: &[Step],
) -> Result<(), Fault>
    requires { length path.now.items + length steps.now ≤ limits.steps }
    ensures open { (could : List Choice → Choice → Bool) →
        AreOpen could path.old.items 0 nodes.old.items → Possible could path.old.items →
        Shows could path.old.items steps.now →
        OnOk result (AreOpen could path.new.items 0 nodes.new.items) }
    ensures work { OnOk result
        (runs_left limits.choices limits.steps 0 nodes.new.items
        < runs_left limits.choices limits.steps 0 nodes.old.items
        + suc limits.choices ^ (suc limits.steps - length path.old.items)) }
{
    for step in steps {
        add_step(alloc, limits, nodes, path, step)?;
    }
    Ok(())
}

/// A search, between two runs.
#[derive(Drop)]
pub struct Search {
    nodes: Vec<Node>,
    // The choices of the last run, or of the next one.
    path: Vec<Choice>,
    plan: Plan,
    limits: Limits,
}

impl Search {
    /// A search that has seen no run yet. `bound` is the most preemptions of a schedule, if there is
    /// one.
    pub fn new(alloc: Global, rules: Rules, bound: Option<u32>, limits: Limits) -> Search
        ensures nodes { result.nodes.items ≡ [] }
        ensures path { result.path.items ≡ [] }
        ensures limits { result.limits ≡ limits }
    {
        Search {
            nodes: Vec::new(alloc),
            path: Vec::new(alloc),
            plan: Plan::new(alloc, rules, bound),
            limits,
        }
    }

    /// Whether a choice was left out only because of its cost.
    pub fn is_cut(&self) -> bool {
        self.plan.is_cut()
    }

    /// A hash of the partial order of the last run.
    pub fn order_key(&self) -> u64 {
        self.plan.order_key()
    }

    /// Takes in the run that was asked for. Returns whether the search continues from all of it.
    pub fn learn(&mut self, alloc: Global, rooms: &[Room], trace: &Trace) -> Result<bool, Fault>
        ensures open { (could : List Choice → Choice → Bool) →
            AreOpen could self.old.path.items 0 self.old.nodes.items →
            Possible could self.old.path.items → Shows could [] trace.now.steps.items →
            OnOk result (AreOpen could self.new.path.items 0 self.new.nodes.items) }
        ensures work { OnOk result
            (runs_left self.old.limits.choices self.old.limits.steps 0 self.new.nodes.items
            < runs_left self.old.limits.choices self.old.limits.steps 0 self.old.nodes.items
            + suc self.old.limits.choices
            ^ (suc self.old.limits.steps - length self.old.path.items)) }
        ensures limits { self.new.limits ≡ self.old.limits }
    {
        let steps = trace.steps.as_slice();
        if steps.len() > self.limits.steps {
            return Err(Fault::TooLarge);
        }
        if matches!(trace.end, End::Unfit) {
            return Err(Fault::Unfit);
        }
        if !takes(steps, &self.path) {
            return Err(Fault::Unfit);
        }
        let asked = self.path.len();
        let count = self.plan.learn(alloc, rooms, asked, trace)?;
        if count < asked {
            return Err(Fault::Unfit);
        }
        let rest = &steps[asked..];
        let new = &rest[..count - asked];
        add_steps(alloc, self.limits, &mut self.nodes, &mut self.path, new)?;
        Ok(count == steps.len())
    }

    /// The next run, if there is one left.
    pub fn next(&mut self, alloc: Global) -> Result<Option<Request>, AllocError>
        ensures possible { (could : List Choice → Choice → Bool) →
            AreOpen could self.old.path.items 0 self.old.nodes.items →
            IfOk result (λ next. AreOpen could self.new.path.items 0 self.new.nodes.items
            × IfSome next (λ request. Possible could request.choices.items)) }
        ensures path { IfOk result (λ next. IfSome next (λ request.
            request.choices.items ≡ self.new.path.items)) }
        ensures work { length self.old.nodes.items ≤ suc (length self.old.path.items) →
            IfOk result (λ next. IfSome next (λ request.
            runs_left self.old.limits.choices self.old.limits.steps 0 self.new.nodes.items
            + suc self.old.limits.choices
            ^ (suc self.old.limits.steps - length request.choices.items)
            ≤ runs_left self.old.limits.choices self.old.limits.steps 0 self.old.nodes.items)) }
        ensures limits { self.new.limits ≡ self.old.limits }
    {
        while let Some(node) = self.nodes.pop() {
            let place = self.nodes.len();
            if let Some(at) = self.plan.pick(place, &node.parked, &node.open) {
                return Ok(Some(self.go_on(alloc, node, at)?));
            }
        }
        Ok(None)
    }

    // The run that takes an open choice at a node, which then becomes the last node.
    fn go_on(&mut self, alloc: Global, mut node: Node, at: usize) -> Result<Request, AllocError>
        requires { at < length node.open.items }
        ensures possible { (could : List Choice → Choice → Bool) →
            AreOpen could self.old.path.items 0 self.old.nodes.items →
            IsOpen could self.old.path.items (length self.old.nodes.items) node →
            IfOk result (λ request. AreOpen could self.new.path.items 0 self.new.nodes.items
            × Possible could request.choices.items) }
        ensures path { IfOk result (λ request. request.choices.items ≡ self.new.path.items) }
        ensures work { length self.old.nodes.items ≤ length self.old.path.items →
            IfOk result (λ request.
            runs_left self.old.limits.choices self.old.limits.steps 0 self.new.nodes.items
            + suc self.old.limits.choices
            ^ (suc self.old.limits.steps - length request.choices.items)
            ≤ runs_left self.old.limits.choices self.old.limits.steps 0 self.old.nodes.items
            + runs_of self.old.limits.choices self.old.limits.steps
            (length self.old.nodes.items) node) }
        ensures limits { self.new.limits ≡ self.old.limits }
    {
        let place = self.nodes.len();
        let choice = node.open.remove(at);
        self.plan.go_back(place);
        let lead = self.plan.lead(alloc, place, choice.thread)?;
        let sleepers = self.plan.sleepers(alloc, place, choice.thread)?;
        self.path.truncate(place);
        push_choice(&mut self.path, choice)?;
        push_node(&mut self.nodes, node)?;
        let choices = copied(alloc, &self.path)?;
        Ok(Request {
            choices,
            lead,
            sleepers,
        })
    }
}

fn copied(alloc: Global, choices: &[Choice]) -> Result<Vec<Choice>, AllocError>
    ensures { IfOk result (λ copy. copy.items ≡ choices.now) }
{
    choices.to_vec(alloc)
}

// Whether the steps begin with these choices.
fn takes(steps: &[Step], asked: &[Choice]) -> bool
    ensures { result ≡ true → (length asked.now ≤ length steps.now)
        × ((could : List Choice → Choice → Bool) → Shows could [] steps.now →
        Shows could asked.now (drop (length asked.now) steps.now)) }
{
    if asked.len() > steps.len() {
        return false;
    }
    for i in 0..asked.len() {
        if steps[i].choice != asked[i] {
            return false;
        }
    }
    true
}
