//! Tasks on journals and histories as text: running scripts, checking, showing, and checking
//! linearizability.
#![tactic(auto)]

mod called;
mod check;
mod compact;
mod counts;
mod draw;
mod every_order;
mod fault;
mod history;
mod judge;
mod judging_in_time;
mod moments;
mod orders_in_time;
mod pace;
mod record;
mod resume;
mod start;
mod state;
mod verdict;
mod window;

pub use check::check_journal;
pub use compact::{NoShort, compact_journal};
pub use counts::Counts;
pub use draw::{Drawn, draw_journal};
pub use every_order::{Ending, REPORT, Trial, try_orders, try_orders_after};
pub use fault::LogFault;
pub use history::record_history;
pub use history_judge::well_formed::IllFormed;
pub use judge::{PLAIN, Question, judge_history};
pub use judging_in_time::judge_in_time;
pub use orders_in_time::try_orders_in_time;
pub use record::record_script;
pub use resume::resume_script;
pub use start::NoStart;
pub use state::{LAST, NoState, Wanted, state_journal};
pub use verdict::Verdict;
pub use window::{WHOLE, Window};
