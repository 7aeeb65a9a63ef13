//! The laws of every legal journal, whoever made it. Each function does nothing and takes no time:
//! its contract is the law. An entry names its caller. Callers 1 to 32 are the first threads of the
//! processes 1 to 32, and caller o + 32 t is another thread of process o. Waits are those of
//! callers; descriptors, registrations and notices are those of processes.
#![tactic(auto)]

ghost use Rattle.mq_model.specs.Legality.{Legal};
ghost use Rattle.mq_laws.specs.Laws.{GivesOnce, GivesBest, LeavesInOrder, HoldsDescriptors, EndsForGood, WaitsForCause, WaitsOneAtATime};
ghost use Rattle.mq_laws.specs.Refusals.{RefusalsChangeNothing};
ghost use Rattle.mq_laws.specs.Registrations.{RegistersLatest};
ghost use Rattle.mq_laws.specs.Needed.{NeedsWhatIsAsked, StaysEnough};
ghost use Rattle.mq_laws.specs.Sharing.{AreFirst, IsAsBefore, AreThoseBefore, ThreadsShare, HoldsAlone, HoldsFirst};
ghost use Rattle.mq_model.specs.Waits.{OthersLeave};

use mq_model::journals::Journal;

/// No message is received twice, none that was handed to a waiting receive is received again, and
/// each is received after its send. No wait is ended twice, by an entry that serves it or by a
/// withdrawal: none is served by two entries, none is both served and withdrawn, no withdrawn send
/// is accepted, and a withdrawn receive takes nothing. No registration is notified by two entries,
/// and no two collects have the same cause.
pub fn gives_once(journal: &Journal)
    requires { Legal journal.now.records }
    ensures { GivesOnce journal.now.records }
{}

/// The message that a receive got was the best one of its queue before it: the oldest of the
/// highest priority (`mq_receive`).
pub fn gives_best(journal: &Journal)
    requires { Legal journal.now.records }
    ensures { GivesBest journal.now.records }
{}

/// Of two accepted messages of the same queue and priority, the earlier one is taken first. So what
/// one process sends with one priority leaves the queue in the order in which it was sent
/// (`mq_send`).
pub fn leaves_in_order(journal: &Journal)
    requires { Legal journal.now.records }
    ensures { LeavesInOrder journal.now.records }
{}

/// The process of each send and receive that did not fail, with or without a deadline, held the
/// descriptor with the access mode that the call needs. So no descriptor sends or receives after a
/// thread of its process closed it. When a wait is collected or withdrawn whose caller has made all
/// calls of its process, the process still holds what it held when the wait began.
pub fn holds_descriptors(journal: &Journal)
    requires { Legal journal.now.records }
    ensures { HoldsDescriptors journal.now.records }
{}

/// A queue that ceased to exist never exists again, and none of its messages is taken from then on
/// (`mq_unlink`). So each accepted message was taken, or is present in its queue only, or was lost
/// with it.
pub fn ends_for_good(journal: &Journal)
    requires { Legal journal.now.records }
    ensures { EndsForGood journal.now.records }
{}

/// If a receive waits, the queue is empty. If a send waits, the queue holds `mq_maxmsg` messages.
pub fn waits_for_cause(journal: &Journal)
    requires { Legal journal.now.records }
    ensures { WaitsForCause journal.now.records }
{}

/// A caller waits in one call at a time. While it has an open wait, the only call that it makes is
/// the one that ends it: a collect of its answer, or a withdrawal. Other threads of its process may
/// make any call, and may wait too.
pub fn waits_one_at_a_time(journal: &Journal)
    requires { Legal journal.now.records }
    ensures { WaitsOneAtATime journal.now.records }
{}

/// Entries of other callers leave the open wait of caller `p` open, and an answered one answered.
pub fn others_leave(journal: &Journal, p: u32)
    ensures { OthersLeave journal.now.records p }
{}

/// A call that fails changes nothing: after its entry each name, descriptor, queue, message, wait
/// with its deadline, registration and notice is the same as before.
pub fn refusals_change_nothing(journal: &Journal)
    requires { Legal journal.now.records }
    ensures { RefusalsChangeNothing journal.now.records }
{}

/// The registration on a queue is that of the latest successful notify with a value on the queue
/// that no later reply notified, and that no removal on the queue by the same process and no close
/// by that process of the descriptor that it used follows. If there is no such notify, there is no
/// registration (`mq_notify`, `mq_close`).
pub fn registers_latest(journal: &Journal)
    requires { Legal journal.now.records }
    ensures { RegistersLatest journal.now.records }
{}

/// What a later reply can depend on is needed: the names of the queues that exist, the messages
/// that are present in them, the sends that wait on them, and the messages that were handed over
/// and not yet collected. So a system that stores no journal can drop the rest.
pub fn needs_what_is_asked(journal: &Journal)
    requires { Legal journal.now.records }
    ensures { NeedsWhatIsAsked journal.now.records }
{}

/// A store that has everything that is needed still has it if it drops what the latest entry ended
/// and adds a new entry of a kind that is kept, or if it drops what is lost with a queue that no
/// longer exists.
pub fn stays_enough(journal: &Journal)
    requires { Legal journal.now.records }
    ensures { StaysEnough journal.now.records }
{}

/// Threads of one process hold the same descriptors, so an open gives each the same number, and
/// they have the same notices.
pub fn threads_share(journal: &Journal)
    ensures { ThreadsShare journal.now.records }
{}

/// As long as a caller waits that has made all calls of its process, the process holds what it held
/// when the wait began.
pub fn holds_alone(journal: &Journal)
    ensures { HoldsAlone journal.now.records }
{}

/// In a journal of callers 1 to 32 each process holds, as long as it waits, what it held when the
/// wait began.
pub fn holds_first(journal: &Journal)
    requires { AreFirst journal.now.records }
    ensures { HoldsFirst journal.now.records }
{}

/// After calls of callers 1 to 32 alone, each definition of descriptors, queues, messages, waits,
/// registrations and notices gives what it gives for processes with one thread, and so does the
/// reply to each call of these callers.
pub fn as_before(journal: &Journal)
    requires { AreFirst journal.now.records }
    ensures { IsAsBefore journal.now.records }
{}

/// The legal journals of callers 1 to 32 are exactly the legal ones of processes with one thread.
pub fn those_before(journal: &Journal)
    ensures { AreThoseBefore journal.now.records }
{}
