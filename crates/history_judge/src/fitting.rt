//! The numbers of a call fit their types. These functions do nothing at run time.
ghost use Rattle.std.specs.Prelude.{◌≡◌, ◌<◌, true, All};
ghost use Rattle.history_judge.specs.Fitting.{EndsLast, Fits, OutcomeFits};
ghost use Rattle.history_judge.specs.Processes.{is_process};

use crate::line::Called;
use histories::operation::Outcome;
use journal_format::fitting::{call_fits, reply_fits};
use mq_model::entries::Reply;

// The bytes of a payload.
fn bytes_fit(bytes: &[u8])
    ensures { All (λ b. b < 256) bytes.now }
{
    let _bytes = bytes;
}

// The numbers of what a call returned.
fn outcome_fits(outcome: &Outcome)
    ensures { OutcomeFits outcome.now }
{
    match outcome {
        Outcome::Pending => {}
        Outcome::Done => {}
        Outcome::Opened(d) => {
            let _d = *d;
        }
        Outcome::Got { prio, message } => {
            let _prio = *prio;
            bytes_fit(message.as_slice());
        }
        Outcome::Attributes(status) => reply_fits(Reply::Attrs(*status)),
        Outcome::Notice(value) => reply_fits(Reply::Notice(*value)),
        Outcome::Refused(_) => {}
    }
}

/// The numbers of a call of a process from 1 to 32. If the call had not returned, it ended at the
/// greatest time.
pub fn fits(called: &Called)
    requires process { is_process called.now.process ≡ true }
    requires pending { EndsLast called.now }
    ensures { Fits called.now }
{
    let _begin = called.operation.begin;
    let _end = called.operation.end;
    call_fits(called.operation.call);
    bytes_fit(called.operation.given.as_slice());
    outcome_fits(&called.operation.outcome);
}
