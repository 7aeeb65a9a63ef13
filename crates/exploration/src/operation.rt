//! What the threads of a program do in a run.
ghost use Rattle.std.specs.Prelude.{◌≡◌, ◌&&◌, ◌==◌, not};
ghost use Rattle.exploration.specs.Choices.{can_choose, can_go_on, takes};

use crate::kind::Kind;

/// The maximum number of threads. They have the numbers 1 to `MOST_THREADS`.
pub const MOST_THREADS: u32 = 64;

/// The maximum number of variants of an operation.
pub const MOST_VARIANTS: u32 = 64;

/// Whether a thread can do its operation.
#[derive(Clone, Copy, PartialEq, Eq)]
pub enum Ability {
    Cannot,
    Can,
    /// It can only because its deadline may pass.
    Late,
}

/// An operation that other threads can see.
#[derive(Clone, Copy)]
pub struct Operation {
    pub kind: Kind,
    /// The object that it accesses; 0 for none.
    pub object: u32,
    /// The priority of a send, the mutex of a register or a wake, the thread of a join.
    pub argument: u32,
    pub has_deadline: bool,
    /// Whether it is a try, or its descriptor has `O_NONBLOCK`.
    pub is_try: bool,
}

/// A thread that is parked before an operation.
#[derive(Clone, Copy)]
pub struct Parked {
    pub thread: u32,
    pub operation: Operation,
    pub ability: Ability,
    /// The number of variants of this operation.
    pub variants: u32,
}

/// The thread that goes on, and the variant of its operation.
#[derive(Clone, Copy, PartialEq, Eq)]
pub struct Choice {
    pub thread: u32,
    pub variant: u32,
}

/// Something that a step also did: an unlock, a post, a signal, or the creation of a thread.
#[derive(Clone, Copy)]
pub struct Also {
    pub kind: Kind,
    /// For a creation, the thread.
    pub object: u32,
}

/// A step of a run.
#[derive(Drop)]
pub struct Step {
    /// The threads that were parked before it.
    pub parked: Vec<Parked>,
    pub choice: Choice,
    pub also: Vec<Also>,
    /// 0 for success.
    pub error: u32,
    pub value: u64,
}

/// How a run ended.
#[derive(Clone, Copy, PartialEq, Eq)]
pub enum End {
    Done,
    Deadlock,
    /// The maximum number of steps was reached.
    Steps,
    /// The program did not take the given choices.
    Unfit,
    /// All threads that could go on are in the sleep set.
    Slept,
    Died,
    Hung,
}

impl End {
    /// Whether the last step ended the program, as an exit does.
    pub fn is_sudden(self) -> bool {
        matches!(self, End::Died | End::Hung)
    }
}

/// What a run showed.
#[derive(Drop)]
pub struct Trace {
    pub steps: Vec<Step>,
    /// The threads that are parked at the end.
    pub left: Vec<Parked>,
    pub end: End,
    pub fails: bool,
}

impl Parked {
    ghost use Rattle.std.specs.Prelude.{◌≡◌};
    ghost use Rattle.exploration.specs.Choices.{can_go_on, takes};

    /// Whether the thread can go on.
    pub fn can_go_on(&self) -> bool
        ensures { result ≡ can_go_on self.now }
    {
        !matches!(self.ability, Ability::Cannot)
    }

    /// Whether the choice lets this thread go on, with a variant that exists.
    pub fn takes(&self, choice: Choice) -> bool
        ensures { result ≡ takes self.now choice }
    {
        self.thread == choice.thread && choice.variant < self.variants && self.can_go_on()
    }
}

/// Whether this choice lets one of the parked threads go on.
pub fn can_choose(parked: &[Parked], choice: Choice) -> bool
    ensures { result ≡ can_choose parked.now choice }
{
    parked.iter().any(|it| it.takes(choice))
}

/// The operation before which a thread is parked.
pub fn parked_of(parked: &[Parked], thread: u32) -> Option<Parked> {
    parked.iter().copied().find(|it| it.thread == thread)
}
