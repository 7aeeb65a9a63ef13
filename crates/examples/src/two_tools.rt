// A test of somebody's code that does not depend on a lucky run. Two writers share a pen and a
// sheet of paper, each of them the only message of a queue. One writer takes the pen first, the
// other the paper. Almost every run ends well. The search tries every order of their calls, so it
// also finds the deadlock.
use script_orders::orders::{outcomes_of, play_of};
use script_orders::report::report_text;
use script_text::script::read_script;
use std::alloc::Global;
use std::io;
use std::io::Print;
use text_io::output::write_all;

/// The calls of both writers, as a script.
const WRITERS: &[u8] = b"\
processes 2
1 open /pen bc 1 8
1 open /paper bc 1 8
1 send 0 0 pen
1 send 1 0 paper
--
2 open /pen b
2 open /paper b
--
1 recv 0 8
1 recv 1 8
1 send 1 0 paper
1 send 0 0 pen
2 recv 1 8
2 recv 0 8
2 send 0 0 pen
2 send 1 0 paper
";

/// More steps than the search takes.
const BUDGET: u64 = 10_000;

/// All interleavings of a script of two tools, and its deadlock.
pub fn run(rt: &impl Print, alloc: Global) -> anyhow::Result<()> {
    let script = read_script(alloc, WRITERS)?;
    let mut play = play_of(alloc, &script, WRITERS)?;
    let outcomes = outcomes_of(alloc, &mut play, BUDGET)?;
    let report = report_text(alloc, script.phases.len() as u64, &outcomes)?;
    write_all(&mut io::writer(rt), report.as_slice())?;
    Ok(())
}
