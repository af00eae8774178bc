// The calls for host programs in C. They return number * 4,294,967,296 + place, where nothing else is said: the number is 0 for success, and the
// place is then how many bytes were written. Those of the first part take texts, numbers and an output and run a whole job in their own frames.
// Those of the second part are the calls of a lent job: they work over a job record, nodes, tables and scratch that the caller lends. They answer
// for every text, number and lent memory; a refusal leaves the output as it was. The C interface fixes their parameters.
#![tactic(auto)]

ghost use Rattle.std.specs.Prelude.{◌≡◌, length, replicate};
ghost use Rattle.std.proofs.lemmas.List.Edits.{sets};
ghost use Rattle.rules.specs.Job.{answering, check_answer, output_after, packed, probes_answer, program_answer, read_new_answer, read_old_answer, read_tests_answer, record_answer, request_by, sheet_answer};
ghost use Rattle.answer.specs.Outcomes.{Answered, Told, packing};
ghost use Rattle.answer.specs.Refusals.{number_in, place_in, told};
ghost use Rattle.requests.specs.Requests.{asked};
ghost use Rattle.records.specs.Jobs.{fresh};
ghost use Rattle.records.specs.Nodes.{nodes_of};
ghost use Rattle.job.specs.Taken.{reply};
ghost use Rattle.lent_job.specs.Held.{lent};
ghost use Rattle.lent_job.specs.ReadOld.{ReadOld};
ghost use Rattle.lent_job.specs.ReadNew.{ReadNew};
ghost use Rattle.lent_job.specs.ReadTests.{ReadTests};
ghost use Rattle.lent_job.specs.Calls.{Called, Found, label_span_call, lent_call, lent_job};

use answer::{Refusal, pack, pack_answer};
use job::{Lent, Taken};
use job_calls::{Label, Tests};
use records::{Job, Node};
use requests::Request;
use suite::Suite;
use versions::Program;
use work::Loaded;

// ==== whole jobs

// ---- reading

// The answer of a call that reads: its place is 0 on success.
fn read_answer<T: Drop>(read: Result<T, Refusal>) -> Result<usize, Refusal>
    ensures { told result ≡ record { number = number_in read; place = place_in read } }
{
    match read {
        Ok(_) => Ok(0),
        Err(refusal) => Err(refusal),
    }
}

// Reads the old program.
pub fn ry_read_old(old: &[u8]) -> u64
    ensures { result ≡ packed (read_old_answer old.now) }
{
    let mut work = [0usize; 8128];
    pack_answer(read_answer(reader::read_into(old, &mut work)))
}

// Reads two programs into one work table.
fn read_both(old: &[u8], new: &[u8]) -> Result<usize, Refusal>
    ensures { Answered (read_new_answer old.now new.now) (told result) }
{
    let mut work = [0usize; 8128];
    reader::read_into(old, &mut work)?;
    reader::read_into(new, &mut work)?;
    Ok(0)
}

// Reads the old program, then the new one.
pub fn ry_read_new(old: &[u8], new: &[u8]) -> u64
    ensures { result ≡ packed (read_new_answer old.now new.now) }
{
    pack_answer(read_both(old, new))
}

// Reads the old program, the new one and the tests.
pub fn ry_read_tests(old: &[u8], new: &[u8], tt: &[u8]) -> u64
    ensures { result ≡ packed (read_tests_answer old.now new.now tt.now) }
{
    let mut ow = [0usize; 8128];
    let mut nw = [0usize; 8128];
    let mut tests = [0usize; 400];
    let mut rows = [0u64; 3200];
    let had = intake::read_job(old, new, tt, &mut ow, &mut nw, &mut tests, &mut rows);
    pack_answer(read_answer(had))
}

// ---- requests

// A whole job: its texts are read, and what is asked of it is done. `input` is the text that the request comes with.
fn whole_job(
    old: &[u8],
    new: &[u8],
    tt: &[u8],
    request: Request,
    input: &[u8],
    out: &mut [u8],
) -> Result<usize, Refusal>
    ensures { Told (answering (asked request) old.now new.now tt.now input.now (length out.old)) (told result) out.old out.new }
{
    let mut ow = [0usize; 8128];
    let mut nw = [0usize; 8128];
    let mut tests = [0usize; 400];
    let mut rows = [0u64; 3200];
    let had = intake::read_job(old, new, tt, &mut ow, &mut nw, &mut tests, &mut rows)?;
    let old = Program::new(old, &ow, reader::links(&ow));
    let new = Program::new(new, &nw, reader::links(&nw));
    let suite = Suite::new(tt, &tests, &rows, had.tests);
    let job = Loaded {
        old: &old,
        new: &new,
        suite: &suite,
        old_nodes: had.old_nodes,
        old_edges: had.old_edges,
        new_nodes: had.new_nodes,
        new_edges: had.new_edges,
    };
    let mut w = [0usize; 16912];
    requests::serve(&job, request, input, &mut w, out)
}

// Writes the sheet that the selector gives.
pub fn ry_sheet(old: &[u8], new: &[u8], tt: &[u8], out: &mut [u8]) -> u64
    ensures value { result ≡ packed (sheet_answer old.now new.now tt.now (length out.old)) }
    ensures out_after { out.new ≡ output_after (sheet_answer old.now new.now tt.now (length out.old)) out.old }
{
    pack_answer(whole_job(old, new, tt, Request::Sheet, b"", out))
}

// Writes the record line of a test, by its number.
pub fn ry_record(old: &[u8], new: &[u8], tt: &[u8], test: usize, out: &mut [u8]) -> u64
    ensures value { result ≡ packed (record_answer old.now new.now tt.now test (length out.old)) }
    ensures out_after { out.new ≡ output_after (record_answer old.now new.now tt.now test (length out.old)) out.old }
{
    pack_answer(whole_job(old, new, tt, Request::Record(test), b"", out))
}

// Checks a sheet, the selector's or another's. Success is to pass.
pub fn ry_check(old: &[u8], new: &[u8], tt: &[u8], sheet: &[u8]) -> u64
    ensures { result ≡ packed (check_answer old.now new.now tt.now sheet.now) }
{
    let mut none = [0u8; 0];
    pack_answer(whole_job(old, new, tt, Request::Check, sheet, &mut none))
}

// Writes the program of a side back: 0 the old one, 1 the new one, and 6 for another.
pub fn ry_program(old: &[u8], new: &[u8], tt: &[u8], side: usize, out: &mut [u8]) -> u64
    ensures value { result ≡ packed (program_answer old.now new.now tt.now side (length out.old)) }
    ensures out_after { out.new ≡ output_after (program_answer old.now new.now tt.now side (length out.old)) out.old }
{
    pack_answer(whole_job(old, new, tt, Request::Program(side), b"", out))
}

// Writes the list of probes: a line `Q,edge` for each new edge that needs one.
pub fn ry_probes(old: &[u8], new: &[u8], tt: &[u8], out: &mut [u8]) -> u64
    ensures value { result ≡ packed (probes_answer old.now new.now tt.now (length out.old)) }
    ensures out_after { out.new ≡ output_after (probes_answer old.now new.now tt.now (length out.old)) out.old }
{
    pack_answer(whole_job(old, new, tt, Request::Probes, b"", out))
}

// ==== the lent job: after a refusal the job and the tables are as they were; the scratch is zero after every call

// Makes the job a fresh one, at stage 0.
pub fn ry_job_reset(job: &mut Job)
    ensures { job.new ≡ fresh }
{
    *job = records::fresh_job();
}

// Stores what reading a program left: the job and the nodes that stand in the scratch, which is zero afterwards; after a refusal none.
fn store_taken(
    taken: Result<Taken, Refusal>,
    job: &mut Job,
    nodes: &mut [Node],
    scratch: &mut [usize],
) -> u64
    ensures value { result ≡ packing (reply job.old taken).number (reply job.old taken).place }
    ensures job_after { job.new ≡ (reply job.old taken).job }
    ensures nodes_after { nodes.new ≡ sets nodes.old 0 (nodes_of scratch.old (reply job.old taken).nodes) }
    ensures scratch_after { scratch.new ≡ replicate (length scratch.old) 0 }
{
    match taken {
        Ok(taken) => {
            records::store(scratch, taken.nodes, nodes);
            *job = taken.job;
            pack_answer(Ok(0))
        }
        Err(refusal) => {
            records::store(scratch, 0, nodes);
            pack_answer(Err(refusal))
        }
    }
}

// Reads the old program, at stage 0, into `nodes` and `links`.
pub fn ry_job_read_old(
    job: &mut Job,
    old: &[u8],
    nodes: &mut [Node],
    links: &mut [usize],
    scratch: &mut [usize],
) -> u64
    ensures { ReadOld job.old old.now nodes.old links.old scratch.old result job.new nodes.new links.new scratch.new }
{
    let taken = job::take_old(*job, nodes.len(), old, links, scratch);
    store_taken(taken, job, nodes, scratch)
}

// Reads the new program, at stage 1, with the old version as it was read.
pub fn ry_job_read_new(
    job: &mut Job,
    old: &[u8],
    old_nodes: &[Node],
    old_links: &[usize],
    new: &[u8],
    nodes: &mut [Node],
    links: &mut [usize],
    scratch: &mut [usize],
) -> u64
    ensures { ReadNew job.old (lent old.now old_nodes.now old_links.now) new.now nodes.old links.old scratch.old result job.new nodes.new links.new scratch.new }
{
    records::load(old_nodes, 512, scratch, 0);
    let old = Lent {
        room: old_nodes.len(),
        text: old,
        links: old_links,
    };
    let taken = job::take_new(*job, &old, new, nodes.len(), links, scratch);
    store_taken(taken, job, nodes, scratch)
}

// Reads the tests, at stage 2, with both versions as they were read.
pub fn ry_job_read_tests(
    job: &mut Job,
    old: &[u8],
    old_nodes: &[Node],
    old_links: &[usize],
    new: &[u8],
    new_nodes: &[Node],
    new_links: &[usize],
    text: &[u8],
    tests: &mut [usize],
    rows: &mut [u64],
    scratch: &mut [usize],
) -> u64
    ensures { ReadTests job.old (lent old.now old_nodes.now old_links.now) (lent new.now new_nodes.now new_links.now) text.now tests.old rows.old scratch.old result job.new tests.new rows.new scratch.new }
{
    records::load_both(old_nodes, new_nodes, scratch);
    let old = Lent {
        room: old_nodes.len(),
        text: old,
        links: old_links,
    };
    let new = Lent {
        room: new_nodes.len(),
        text: new,
        links: new_links,
    };
    let taken = job::take_tests(*job, &old, &new, text, tests, rows, scratch);
    text::clear(scratch);
    match taken {
        Ok(next) => {
            *job = next;
            pack_answer(Ok(0))
        }
        Err(refusal) => pack_answer(Err(refusal)),
    }
}

// Does what is asked of a job at stage 3, by the number of the request and two numbers that it may use; `input` is the text that it comes with.
pub fn ry_job_call(
    job: &mut Job,
    old: &[u8],
    old_nodes: &[Node],
    old_links: &[usize],
    new: &[u8],
    new_nodes: &[Node],
    new_links: &[usize],
    text: &[u8],
    tests: &[usize],
    rows: &[u64],
    request: usize,
    a: usize,
    b: usize,
    input: &[u8],
    scratch: &mut [usize],
    out: &mut [u8],
) -> u64
    ensures { Called (lent_call (request_by request a b) (lent_job job.old (lent old.now old_nodes.now old_links.now) (lent new.now new_nodes.now new_links.now) text.now tests.now rows.now (length scratch.old)) input.now (length out.old)) result job.old job.new scratch.old scratch.new out.old out.new }
{
    records::load_both(old_nodes, new_nodes, scratch);
    let old = Lent {
        room: old_nodes.len(),
        text: old,
        links: old_links,
    };
    let new = Lent {
        room: new_nodes.len(),
        text: new,
        links: new_links,
    };
    let tests = Tests {
        text,
        names: tests,
        rows,
    };
    let answer = job_calls::call_on(*job, &old, &new, &tests, request, a, b, input, scratch, out);
    pack_answer(answer)
}

// Where the label of a node stands in the old text (side 0) or in the new one (side 1): start * 4,294,967,296 + length, 0 when refused.
pub fn ry_job_label<'a>(
    job: &mut Job,
    old: &'a [u8],
    old_nodes: &[Node],
    old_links: &[usize],
    new: &'a [u8],
    new_nodes: &[Node],
    new_links: &[usize],
    text: &[u8],
    tests: &[usize],
    rows: &[u64],
    side: usize,
    node: usize,
    scratch: &mut [usize],
) -> u64
    ensures { Found (label_span_call (lent_job job.old (lent old.now old_nodes.now old_links.now) (lent new.now new_nodes.now new_links.now) text.now tests.now rows.now (length scratch.old)) side node) result job.old job.new scratch.old scratch.new }
{
    records::load_both(old_nodes, new_nodes, scratch);
    let old = Lent {
        room: old_nodes.len(),
        text: old,
        links: old_links,
    };
    let new = Lent {
        room: new_nodes.len(),
        text: new,
        links: new_links,
    };
    let tests = Tests {
        text,
        names: tests,
        rows,
    };
    let nowhere = Label { start: 0, len: 0 };
    let label = job_calls::label_on(*job, &old, &new, &tests, side, node, scratch).unwrap_or(
        nowhere,
    );
    pack(label.start, label.len)
}
