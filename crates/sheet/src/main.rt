// sheet OLD NEW TESTS: prints the sheet that the selector gives, then the record lines of all tests in order, or only `refused,NUMBER,PLACE`.
// The pairs are found once for all lines.
#![tactic(auto)]

ghost use Rattle.std.specs.Prelude.{◌≤◌};
ghost use Rattle.intake.specs.Ready.{Few};
ghost use Rattle.work.specs.Loads.{had_in};

use answer::Refusal;
use std::io;
use std::io::Write;
use suite::Suite;
use versions::Program;
use work::Loaded;
use writer::Sizes;

// Prints a refusal.
fn refused<W: Write>(to: &mut W, refusal: Refusal) -> io::Result<()> {
    files::print_answer(to, b"refused", refusal.fault.number(), refusal.place)
}

// Prints what was written, or the refusal, and says whether it was written.
fn print<W: Write>(to: &mut W, answer: Result<usize, Refusal>, out: &[u8]) -> io::Result<bool> {
    match answer {
        Ok(written) => {
            to.write_all(text::front(out, written))?;
            Ok(true)
        }
        Err(refusal) => {
            refused(to, refusal)?;
            Ok(false)
        }
    }
}

// Prints the record line of the test i, and says whether it was written.
fn record<W: Write>(
    to: &mut W,
    job: &Loaded,
    i: usize,
    w: &[usize],
    set: &[u64],
) -> io::Result<bool>
    requires few { Few (had_in job.now) }
    requires i_bound { i ≤ 200 }
{
    let mut out = [0u8; 1045];
    let answer = work::record_from(job, i, w, set, &mut out);
    print(to, answer, &out)
}

// Prints the record lines of all tests.
fn records<W: Write>(to: &mut W, job: &Loaded, w: &[usize], set: &[u64]) -> io::Result<()>
    requires { Few (had_in job.now) }
{
    for i in 0..job.suite.count() {
        if !record(to, job, i, w, set)? {
            return Ok(());
        }
    }
    Ok(())
}

// Prints the sheet and the record lines of a job that was read.
fn lines<W: Write>(to: &mut W, job: &Loaded) -> io::Result<()>
    requires { Few (had_in job.now) }
{
    let mut w = [0usize; 16912];
    let mut set = [0u64; 16];
    let Some(pairs) = work::select(work::MAX_PAIRS, job.old, job.new, &mut w, &mut set) else {
        return refused(
            to,
            Refusal {
                fault: work::TOO_MANY,
                place: 0,
            },
        );
    };
    let sizes = Sizes {
        pairs,
        olds: job.old_nodes,
        news: job.new_nodes,
        edges: job.old_edges,
    };
    let mut out = [0u8; 65536];
    let answer = writer::write_sheet(&w, &set, sizes, job.suite, &mut out);
    if print(to, answer, &out)? {
        return records(to, job, &w, &set);
    }
    Ok(())
}

// Reads the texts, and prints what the selector writes for them, or the refusal.
fn job<W: Write>(to: &mut W, old: &[u8], new: &[u8], tt: &[u8]) -> io::Result<()> {
    let mut ow = [0usize; 8128];
    let mut nw = [0usize; 8128];
    let mut tests = [0usize; 400];
    let mut rows = [0u64; 3200];
    match intake::read_job(old, new, tt, &mut ow, &mut nw, &mut tests, &mut rows) {
        Ok(had) => lines(
            to,
            &Loaded {
                old: &Program::new(old, &ow, reader::links(&ow)),
                new: &Program::new(new, &nw, reader::links(&nw)),
                suite: &Suite::new(tt, &tests, &rows, had.tests),
                old_nodes: had.old_nodes,
                old_edges: had.old_edges,
                new_nodes: had.new_nodes,
                new_edges: had.new_edges,
            },
        ),
        Err(refusal) => refused(to, refusal),
    }
}

// Each buffer has one byte more than a text may have, so that one that is too long is refused and not cut.
fn main(rt: HostRuntime) -> io::Result<()> {
    if !files::has_args(&rt, &mut rt.stderr(), 4, b"usage: sheet OLD NEW TESTS\n")? {
        return Ok(());
    }
    let mut old = [0u8; 65537];
    let Some(o) = files::load(&rt, 1, &mut old)? else {
        return Ok(());
    };
    let mut new = [0u8; 65537];
    let Some(n) = files::load(&rt, 2, &mut new)? else {
        return Ok(());
    };
    let mut tests = [0u8; 65537];
    let Some(t) = files::load(&rt, 3, &mut tests)? else {
        return Ok(());
    };
    job(
        &mut rt.stdout(),
        text::front(&old, o),
        text::front(&new, n),
        text::front(&tests, t),
    )
}
