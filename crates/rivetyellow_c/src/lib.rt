// The calls of `rivetyellow`, exported to host programs in C under their names: each is one call, with its contract. `include/rivetyellow.h` declares
// them.
#![tactic(auto)]

ghost use Rattle.std.specs.Prelude.{◌≡◌, length};
ghost use Rattle.rules.specs.Job.{check_answer, output_after, packed, probes_answer, program_answer, read_new_answer, read_old_answer, read_tests_answer, record_answer, request_by, sheet_answer};
ghost use Rattle.records.specs.Jobs.{fresh};
ghost use Rattle.lent_job.specs.Held.{lent};
ghost use Rattle.lent_job.specs.ReadOld.{ReadOld};
ghost use Rattle.lent_job.specs.ReadNew.{ReadNew};
ghost use Rattle.lent_job.specs.ReadTests.{ReadTests};
ghost use Rattle.lent_job.specs.Calls.{Called, Found, label_span_call, lent_call, lent_job};

use records::{Job, Node};

// ==== whole jobs

// ---- reading

// Reads the old program.
#[unsafe(no_mangle)]
pub extern "C" fn ry_read_old(old: &[u8]) -> u64
    ensures { result ≡ packed (read_old_answer old.now) }
{
    rivetyellow::ry_read_old(old)
}

// Reads the old program, then the new one.
#[unsafe(no_mangle)]
pub extern "C" fn ry_read_new(old: &[u8], new: &[u8]) -> u64
    ensures { result ≡ packed (read_new_answer old.now new.now) }
{
    rivetyellow::ry_read_new(old, new)
}

// Reads the old program, the new one and the tests.
#[unsafe(no_mangle)]
pub extern "C" fn ry_read_tests(old: &[u8], new: &[u8], tt: &[u8]) -> u64
    ensures { result ≡ packed (read_tests_answer old.now new.now tt.now) }
{
    rivetyellow::ry_read_tests(old, new, tt)
}

// ---- requests

// Writes the sheet that the selector gives.
#[unsafe(no_mangle)]
pub extern "C" fn ry_sheet(old: &[u8], new: &[u8], tt: &[u8], out: &mut [u8]) -> u64
    ensures value { result ≡ packed (sheet_answer old.now new.now tt.now (length out.old)) }
    ensures out_after { out.new ≡ output_after (sheet_answer old.now new.now tt.now (length out.old)) out.old }
{
    rivetyellow::ry_sheet(old, new, tt, out)
}

// Writes the record line of a test, by its number.
#[unsafe(no_mangle)]
pub extern "C" fn ry_record(old: &[u8], new: &[u8], tt: &[u8], test: usize, out: &mut [u8]) -> u64
    ensures value { result ≡ packed (record_answer old.now new.now tt.now test (length out.old)) }
    ensures out_after { out.new ≡ output_after (record_answer old.now new.now tt.now test (length out.old)) out.old }
{
    rivetyellow::ry_record(old, new, tt, test, out)
}

// Checks a sheet, the selector's or another's. Success is to pass.
#[unsafe(no_mangle)]
pub extern "C" fn ry_check(old: &[u8], new: &[u8], tt: &[u8], sheet: &[u8]) -> u64
    ensures { result ≡ packed (check_answer old.now new.now tt.now sheet.now) }
{
    rivetyellow::ry_check(old, new, tt, sheet)
}

// Writes the program of a side back: 0 the old one, 1 the new one, and 6 for another.
#[unsafe(no_mangle)]
pub extern "C" fn ry_program(old: &[u8], new: &[u8], tt: &[u8], side: usize, out: &mut [u8]) -> u64
    ensures value { result ≡ packed (program_answer old.now new.now tt.now side (length out.old)) }
    ensures out_after { out.new ≡ output_after (program_answer old.now new.now tt.now side (length out.old)) out.old }
{
    rivetyellow::ry_program(old, new, tt, side, out)
}

// Writes the list of probes: a line `Q,edge` for each new edge that needs one.
#[unsafe(no_mangle)]
pub extern "C" fn ry_probes(old: &[u8], new: &[u8], tt: &[u8], out: &mut [u8]) -> u64
    ensures value { result ≡ packed (probes_answer old.now new.now tt.now (length out.old)) }
    ensures out_after { out.new ≡ output_after (probes_answer old.now new.now tt.now (length out.old)) out.old }
{
    rivetyellow::ry_probes(old, new, tt, out)
}

// ==== the lent job: after a refusal the job and the tables are as they were; the scratch is zero after every call

// Makes the job a fresh one, at stage 0.
#[unsafe(no_mangle)]
pub extern "C" fn ry_job_reset(job: &mut Job)
    ensures { job.new ≡ fresh }
{
    rivetyellow::ry_job_reset(job);
}

// Reads the old program, at stage 0, into `nodes` and `links`.
#[unsafe(no_mangle)]
pub extern "C" fn ry_job_read_old(
    job: &mut Job,
    old: &[u8],
    nodes: &mut [Node],
    links: &mut [usize],
    scratch: &mut [usize],
) -> u64
    ensures { ReadOld job.old old.now nodes.old links.old scratch.old result job.new nodes.new links.new scratch.new }
{
    rivetyellow::ry_job_read_old(job, old, nodes, links, scratch)
}

// Reads the new program, at stage 1, with the old version as it was read.
#[unsafe(no_mangle)]
pub extern "C" fn ry_job_read_new(
    job: &mut Job,
    old: &[u8],
    old_nodes: &[Node],
    old_links: &[usize],
    new: &[u8],
    nodes: &mut [Node],
    links: &mut [usize],
    scratch: &mut [usize],
) -> u64
    ensures { ReadNew job.old (lent old.now old_nodes.now old_links.now) new.now nodes.old links.old scratch.old result job.new nodes.new links.new scratch.new }
{
    rivetyellow::ry_job_read_new(job, old, old_nodes, old_links, new, nodes, links, scratch)
}

// Reads the tests, at stage 2, with both versions as they were read.
#[unsafe(no_mangle)]
pub extern "C" fn ry_job_read_tests(
    job: &mut Job,
    old: &[u8],
    old_nodes: &[Node],
    old_links: &[usize],
    new: &[u8],
    new_nodes: &[Node],
    new_links: &[usize],
    text: &[u8],
    tests: &mut [usize],
    rows: &mut [u64],
    scratch: &mut [usize],
) -> u64
    ensures { ReadTests job.old (lent old.now old_nodes.now old_links.now) (lent new.now new_nodes.now new_links.now) text.now tests.old rows.old scratch.old result job.new tests.new rows.new scratch.new }
{
    rivetyellow::ry_job_read_tests(
        job, old, old_nodes, old_links, new, new_nodes, new_links, text, tests, rows, scratch,
    )
}

// Does what is asked of a job at stage 3, by the number of the request and two numbers that it may use; `input` is the text that it comes with.
#[unsafe(no_mangle)]
pub extern "C" fn ry_job_call(
    job: &mut Job,
    old: &[u8],
    old_nodes: &[Node],
    old_links: &[usize],
    new: &[u8],
    new_nodes: &[Node],
    new_links: &[usize],
    text: &[u8],
    tests: &[usize],
    rows: &[u64],
    request: usize,
    a: usize,
    b: usize,
    input: &[u8],
    scratch: &mut [usize],
    out: &mut [u8],
) -> u64
    ensures { Called (lent_call (request_by request a b) (lent_job job.old (lent old.now old_nodes.now old_links.now) (lent new.now new_nodes.now new_links.now) text.now tests.now rows.now (length scratch.old)) input.now (length out.old)) result job.old job.new scratch.old scratch.new out.old out.new }
{
    rivetyellow::ry_job_call(
        job, old, old_nodes, old_links, new, new_nodes, new_links, text, tests, rows, request, a,
        b, input, scratch, out,
    )
}

// Where the label of a node stands in the old text (side 0) or in the new one (side 1): start * 4,294,967,296 + length, 0 when refused.
#[unsafe(no_mangle)]
pub extern "C" fn ry_job_label<'a>(
    job: &mut Job,
    old: &'a [u8],
    old_nodes: &[Node],
    old_links: &[usize],
    new: &'a [u8],
    new_nodes: &[Node],
    new_links: &[usize],
    text: &[u8],
    tests: &[usize],
    rows: &[u64],
    side: usize,
    node: usize,
    scratch: &mut [usize],
) -> u64
    ensures { Found (label_span_call (lent_job job.old (lent old.now old_nodes.now old_links.now) (lent new.now new_nodes.now new_links.now) text.now tests.now rows.now (length scratch.old)) side node) result job.old job.new scratch.old scratch.new }
{
    rivetyellow::ry_job_label(
        job, old, old_nodes, old_links, new, new_nodes, new_links, text, tests, rows, side, node,
        scratch,
    )
}
