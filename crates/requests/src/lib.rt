// What is asked of a job that was read, and the one function that does it, over programs and tests in memory. The exported calls and the
// calls of the lent job all go through it. A new request is a variant here, a line of `serving` in the rules, an arm of `serve`, and what it
// asks of lent texts (docs/ARCHITECTURE.md).
#![tactic(auto, using(crate::proofs::Laws::all))]

ghost use Rattle.std.specs.Prelude.{◌≡◌, ◌≤◌, length};
ghost use Rattle.answer.specs.Refusals.{told};
ghost use Rattle.checker.specs.Checking.{Checks};
ghost use Rattle.intake.specs.Ready.{Few};
ghost use Rattle.rules.specs.Job.{request_by};
ghost use Rattle.rules.specs.Text.{max_pairs, too_many};
ghost use Rattle.work.specs.Loads.{had_in};
ghost use Rattle.work.specs.Work.{Done, told_or};
ghost use Rattle.requests.specs.Requests.{LabelTold, ProgramTold, Served, asked, nodes_on};

use answer::{Fault, Refusal};
use sheet_reader::Bounds;
use versions::Program;
use work::{Loaded, MAX_PAIRS, TOO_MANY};

// What is asked: the sheet; the record line of a test; the check of the sheet that the request comes with; the label of a node, by side and
// node number; the program of a side, written back; the list of probes; no request that there is.
#[derive(Clone, Copy)]
pub enum Request {
    Sheet,
    Record(usize),
    Check,
    Label(usize, usize),
    Program(usize),
    Probes,
    Unknown,
}

// The request of a number, as C programs give it, with two numbers that it may use.
pub fn by_number(number: usize, a: usize, b: usize) -> Request
    ensures { asked result ≡ request_by number a b }
{
    match number {
        0 => Request::Sheet,
        1 => Request::Record(a),
        2 => Request::Check,
        3 => Request::Label(a, b),
        4 => Request::Program(a),
        5 => Request::Probes,
        _ => Request::Unknown,
    }
}

// No such test, side, node or request.
fn not_named() -> Result<usize, Refusal>
    ensures { told result ≡ record { number = 6; place = 0 } }
{
    Err(Refusal {
        fault: Fault::NotNamed,
        place: 0,
    })
}

// How many nodes the version of a side has: 0 the old one, 1 the new one, and none where there is no such side.
fn nodes_on(job: &Loaded, side: usize) -> usize
    ensures { result ≡ nodes_on (had_in job.now) side }
{
    match side {
        0 => job.old_nodes,
        1 => job.new_nodes,
        _ => 0,
    }
}

// Shows a label: refused where there is no such side, or no such node of its version.
fn label(job: &Loaded, side: usize, node: usize) -> Result<usize, Refusal>
    ensures { LabelTold (had_in job.now) side node (told result) }
{
    if node < nodes_on(job, side) {
        Ok(0)
    } else {
        not_named()
    }
}

// Checks a sheet, in the part of the table that 4,096 pairs ask for: its length is fixed, so the compiler drops tests of its bounds.
fn check(job: &Loaded, sheet: &[u8], w: &mut [usize]) -> Result<usize, Refusal>
    requires few { Few (had_in job.now) }
    requires in_bounds { 16912 ≤ length w.old }
    ensures { Checks max_pairs job.now.old.now job.now.new.now job.now.old_nodes job.now.new_nodes job.now.old_edges job.now.suite.now.text job.now.suite.now.names job.now.suite.now.rows job.now.suite.now.count sheet.now (told result) }
{
    let bounds = Bounds {
        limit: MAX_PAIRS,
        olds: job.old_nodes,
        news: job.new_nodes,
        edges: job.old_edges,
    };
    let mut sets = [0u64; 20];
    checker::check_sheet(
        bounds,
        job.old,
        job.new,
        job.suite,
        sheet,
        &mut w[0..16912],
        &mut sets,
    )?;
    Ok(0)
}

// Writes the program of a side back, which is the text that was read: refused where there is no such side.
fn program(old: &Program, new: &Program, side: usize, out: &mut [u8]) -> Result<usize, Refusal>
    ensures { ProgramTold old.now.text new.now.text side out.old (told result) out.new }
{
    match side {
        0 => writer::write_text(old.text(), out),
        1 => writer::write_text(new.text(), out),
        _ => not_named(),
    }
}

// What a call of `work` answers, which is None where more pairs exist than the limit: then with the number for that.
fn within(answer: Option<Result<usize, Refusal>>) -> Result<usize, Refusal>
    ensures { told result ≡ told_or too_many answer }
{
    match answer {
        Some(answer) => answer,
        None => Err(Refusal {
            fault: TOO_MANY,
            place: 0,
        }),
    }
}

// Does what is asked, of programs and tests in memory; `input` is the text that the request comes with, and `w` the table of the pairs.
pub fn serve(
    job: &Loaded,
    request: Request,
    input: &[u8],
    w: &mut [usize],
    out: &mut [u8],
) -> Result<usize, Refusal>
    requires few { Few (had_in job.now) }
    requires in_bounds { 16912 ≤ length w.old }
    ensures { Done w.old w.new out.old out.new (Served (asked request) job.now.old.now job.now.new.now job.now.suite.now.text job.now.suite.now.names job.now.suite.now.rows (had_in job.now) input.now out.old (told result) out.new) }
{
    match request {
        Request::Sheet => within(work::write_sheet(MAX_PAIRS, job, w, out)),
        Request::Record(i) => within(work::write_record(MAX_PAIRS, job, i, w, out)),
        Request::Check => check(job, input, w),
        Request::Label(side, node) => label(job, side, node),
        Request::Program(side) => program(job.old, job.new, side, out),
        Request::Probes => within(work::write_probes(MAX_PAIRS, job, w, out)),
        Request::Unknown => not_named(),
    }
}
