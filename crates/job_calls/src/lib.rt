// The calls of a job at stage 3, on values: one for every request, and one that finds a label. The scratch `w` holds the numbers of the nodes
// before, and is zero afterwards. `label_shown` takes job and nodes out of what is lent.
#![tactic(auto, using(crate::proofs::Laws::all, crate::proofs::Back::all))]

ghost use Rattle.std.specs.Prelude.{◌≡◌, ◌≤◌, length, replicate};
ghost use Rattle.answer.specs.Outcomes.{Told};
ghost use Rattle.answer.specs.Refusals.{told};
ghost use Rattle.rules.specs.Job.{request_by};
ghost use Rattle.reader.specs.Result.{counts_of};
ghost use Rattle.requests.specs.Requests.{asked};
ghost use Rattle.versions.specs.Memory.{memory};
ghost use Rattle.lent_job.specs.Held.{lent, suite_left};
ghost use Rattle.lent_job.specs.Calls.{
  Shown,
  goes_held,
  label_part_call,
  label_span_call,
  lent_call,
  lent_job,
  limited,
  takes_parts,
};
ghost use Rattle.job_calls.specs.Loaded.{
  BackAnswer,
  CalledOn,
  HeldAnswer,
  SpanIs,
  due_counts,
  due_of,
  label_by_side,
  label_of_node,
  label_told,
  lent_in,
  loaded_job,
  not_held,
  suite_counts,
};

use answer::{Fault, Refusal};
use intake::Counts;
use job::Lent;
use records::{Job, Node};
use requests::Request;
use suite::Suite;
use text::{clear, copy, front, get, part};
use versions::Program;
use work::Loaded;

// The tests as they are lent: their text, where their names stand in it, and their rows.
#[derive(Clone, Copy)]
pub struct Tests<'a> {
    pub text: &'a [u8],
    pub names: &'a [usize],
    pub rows: &'a [u64],
}

// A version as it is lent, with the numbers of its nodes: how many records of nodes there are, and its tables.
#[derive(Clone, Copy)]
struct Version<'a> {
    room: usize,
    text: &'a [u8],
    nodes: &'a [usize],
    links: &'a [usize],
}

impl<'a> Version<'a> {
    fn program(&self) -> Program<'a, 'a>
        ensures { result ≡ memory self.now.text.now self.now.nodes.now self.now.links.now }
    {
        Program::new(self.text, self.nodes, self.links)
    }
}

// What is lent to a call beside the scratch.
#[derive(Clone, Copy)]
struct Held<'a> {
    job: Job,
    old: Version<'a>,
    new: Version<'a>,
    tests: Tests<'a>,
}

// ---- 13 and 14

// Why a call is refused whose job and tables are not what reading leaves.
const NOT_LEFT: Refusal = Refusal {
    fault: Fault::LentMemoryWrong,
    place: 0,
};

// The counts, where the tables of the tests and the job are what reading leaves.
fn suite_due(
    job: Job,
    o: reader::Counts,
    p: reader::Counts,
    tests: &Tests,
) -> Result<Counts, Refusal>
    requires { o.edges ≤ 1024 }
    ensures { due_of result ≡ suite_counts job o p (suite_left o.edges tests.now.text.now tests.now.names.now tests.now.rows.now) }
{
    let count = held::suite_left(
        tests.text,
        o.edges,
        tests.names,
        tests.rows,
        &mut [0; 400],
        &mut [0; 3200],
    )
    .ok_or(NOT_LEFT)?;
    let left = Job {
        stage: 3,
        old_procs: o.procs,
        old_nodes: o.nodes,
        old_edges: o.edges,
        new_procs: p.procs,
        new_nodes: p.nodes,
        new_edges: p.edges,
        tests: count,
    };
    if !records::same_job(job, left) {
        return Err(NOT_LEFT);
    }
    Ok(Counts {
        old_nodes: o.nodes,
        old_edges: o.edges,
        new_nodes: p.nodes,
        new_edges: p.edges,
        tests: count,
    })
}

// The counts of what job and tables hold, or why there are none. The texts of the programs are read again in the scratch, one after the other.
// What it holds afterwards is left open.
fn due(held: &Held, w: &mut [usize]) -> Result<Counts, Refusal>
    ensures { due_of result ≡ due_counts (goes_held (lent_in held.now (length w.old))) }
{
    if held.job.stage != 3 {
        return Err(Refusal {
            fault: Fault::WrongStage,
            place: 0,
        });
    }
    if w.len() < 16912 {
        return Err(NOT_LEFT);
    }
    let Some(o) = held::version_left(held.old.room, &held.old.program(), w) else {
        return Err(NOT_LEFT);
    };
    let Some(p) = held::version_left(held.new.room, &held.new.program(), w) else {
        return Err(NOT_LEFT);
    };
    suite_due(held.job, o, p, &held.tests)
}

// ---- requests

// Whether a request takes of the lent texts of the two versions only names, callees, labels and words.
fn takes_parts(request: Request) -> bool
    ensures { result ≡ takes_parts (asked request) }
{
    match request {
        Request::Program(_) => true,
        _ => false,
    }
}

// Does what is asked, where job and tables are what reading these texts leaves; the scratch is then the table of the pairs. What it holds
// afterwards is left open.
fn call_held(
    held: &Held,
    request: Request,
    input: &[u8],
    w: &mut [usize],
    out: &mut [u8],
) -> Result<usize, Refusal>
    requires { (2048 ≤ length held.now.old.nodes.now) × (2048 ≤ length held.now.new.nodes.now) }
    ensures { HeldAnswer (asked request) (lent_in held.now (length w.old)) input.now out.old (told result) out.new }
{
    let had = due(held, w)?;
    let old = held.old.program();
    let new = held.new.program();
    let suite = Suite::new(
        held.tests.text,
        held.tests.names,
        held.tests.rows,
        had.tests,
    );
    let job = Loaded {
        old: &old,
        new: &new,
        suite: &suite,
        old_nodes: had.old_nodes,
        old_edges: had.old_edges,
        new_nodes: had.new_nodes,
        new_edges: had.new_edges,
    };
    requests::serve(&job, request, input, w, out)
}

// The counts that a job says of a version, each at most its limit.
fn limit(procs: usize, nodes: usize, edges: usize) -> reader::Counts
    ensures { counts_of result ≡ limited procs nodes edges }
{
    reader::Counts {
        procs: procs.min(64),
        nodes: nodes.min(512),
        edges: edges.min(1024),
    }
}

// Why a job is refused whose tables are not what reading leaves, by its stage first.
fn not_held(job: Job) -> Result<usize, Refusal>
    ensures { told result ≡ not_held job }
{
    if job.stage != 3 {
        return Err(Refusal {
            fault: Fault::WrongStage,
            place: 0,
        });
    }
    Err(NOT_LEFT)
}

// Does what is asked, of the texts that the tables write back, where those lent have the same names, labels, callees and words.
fn call_back(
    held: &Held,
    request: Request,
    input: &[u8],
    w: &mut [usize],
    out: &mut [u8],
) -> Result<usize, Refusal>
    requires { (2048 ≤ length held.now.old.nodes.now) × (2048 ≤ length held.now.new.nodes.now) }
    ensures { BackAnswer (asked request) (lent_in held.now (length w.old)) input.now out.old (told result) out.new }
{
    let job = held.job;
    let mut old = [0u8; 65536];
    let mut new = [0u8; 65536];
    let o = limit(job.old_procs, job.old_nodes, job.old_edges);
    let p = limit(job.new_procs, job.new_nodes, job.new_edges);
    let a = writeback::write_program(&held.old.program(), o, &mut old);
    let b = writeback::write_program(&held.new.program(), p, &mut new);
    let oback = front(&old, a);
    let nback = front(&new, b);
    if !writeback::same_parts(&held.old.program(), oback, o) {
        return not_held(job);
    }
    if !writeback::same_parts(&held.new.program(), nback, p) {
        return not_held(job);
    }
    let back = Held {
        job,
        old: Version {
            text: oback,
            ..held.old
        },
        new: Version {
            text: nback,
            ..held.new
        },
        tests: held.tests,
    };
    call_held(&back, request, input, w, out)
}

// Does what is asked, by the lent texts as they are or by what is to be taken of them. `call_back` is called at two places, for a short output
// and for one that is long enough for every program: a function that is called once the compiler puts into its caller, and the 131,072 bytes of
// the two texts would stand in the frame of every request (docs/MEMORY.md).
fn call_in(
    job: Job,
    old: &Lent,
    new: &Lent,
    tests: &Tests,
    request: Request,
    input: &[u8],
    w: &mut [usize],
    out: &mut [u8],
) -> Result<usize, Refusal>
    ensures { Told (lent_call (asked request) (loaded_job job old.now.room old.now.text.now old.now.links.now new.now.room new.now.text.now new.now.links.now tests.now.text.now tests.now.names.now tests.now.rows.now w.old) input.now (length out.old)) (told result) out.old out.new }
{
    let mut on = [0usize; 2048];
    let mut nn = [0usize; 2048];
    copy(&mut on, 0, part(w, 0, 2048));
    copy(&mut nn, 0, part(w, 2048, 2048));
    let held = Held {
        job,
        old: Version {
            room: old.room,
            text: old.text,
            nodes: &on,
            links: old.links,
        },
        new: Version {
            room: new.room,
            text: new.text,
            nodes: &nn,
            links: new.links,
        },
        tests: *tests,
    };
    if takes_parts(request) {
        if out.len() < 65536 {
            return call_back(&held, request, input, w, out);
        }
        return call_back(&held, request, input, w, out);
    }
    call_held(&held, request, input, w, out)
}

// Does what is asked, by the number of the request and two numbers that it may use; `input` is the text that it comes with.
pub fn call_on(
    job: Job,
    old: &Lent,
    new: &Lent,
    tests: &Tests,
    number: usize,
    a: usize,
    b: usize,
    input: &[u8],
    w: &mut [usize],
    out: &mut [u8],
) -> Result<usize, Refusal>
    ensures { CalledOn (lent_call (request_by number a b) (loaded_job job old.now.room old.now.text.now old.now.links.now new.now.room new.now.text.now new.now.links.now tests.now.text.now tests.now.names.now tests.now.rows.now w.old) input.now (length out.old)) (told result) w.old w.new out.old out.new }
{
    let request = requests::by_number(number, a, b);
    let answer = call_in(job, old, new, tests, request, input, w, out);
    clear(w);
    answer
}

// ---- labels

// Where a label stands in its text.
#[derive(Clone, Copy, Debug, PartialEq, Eq)]
pub struct Label {
    pub start: usize,
    pub len: usize,
}

// The label of a node of a version that has so many.
fn label_at(count: usize, nodes: &[usize], node: usize) -> Option<Label>
    requires { count ≤ 512 }
    ensures { label_told result ≡ label_of_node count nodes.now node }
{
    if count <= node {
        return None;
    }
    let start = get(nodes, 4 * node + 1);
    let len = get(nodes, 4 * node + 2);
    Some(Label { start, len })
}

// The label of a node of the version of a side: 0 the old one, 1 the new one.
fn label_of(
    side: usize,
    olds: usize,
    on: &[usize],
    news: usize,
    nn: &[usize],
    node: usize,
) -> Option<Label>
    requires { (olds ≤ 512) × (news ≤ 512) }
    ensures { label_told result ≡ label_by_side side olds on.now news nn.now node }
{
    match side {
        0 => label_at(olds, on, node),
        1 => label_at(news, nn, node),
        _ => None,
    }
}

// Finds a label, by side and node number: none when refused.
pub fn label_on<'a>(
    job: Job,
    old: &Lent<'a>,
    new: &Lent<'a>,
    tests: &Tests,
    side: usize,
    node: usize,
    w: &mut [usize],
) -> Option<Label>
    ensures { SpanIs (label_span_call (loaded_job job old.now.room old.now.text.now old.now.links.now new.now.room new.now.text.now new.now.links.now tests.now.text.now tests.now.names.now tests.now.rows.now w.old) side node) (label_told result) × (w.new ≡ replicate (length w.old) 0) }
{
    let mut on = [0usize; 2048];
    let mut nn = [0usize; 2048];
    copy(&mut on, 0, part(w, 0, 2048));
    copy(&mut nn, 0, part(w, 2048, 2048));
    let held = Held {
        job,
        old: Version {
            room: old.room,
            text: old.text,
            nodes: &on,
            links: old.links,
        },
        new: Version {
            room: new.room,
            text: new.text,
            nodes: &nn,
            links: new.links,
        },
        tests: *tests,
    };
    let due = due(&held, w);
    clear(w);
    match due {
        Ok(had) => label_of(side, had.old_nodes, &on, had.new_nodes, &nn, node),
        Err(_) => None,
    }
}

// The part of the old text (side 0) or of the new one (side 1) that holds the label of a node: no bytes when refused.
pub fn label_shown<'a>(
    job: &mut Job,
    ot: &'a [u8],
    on: &[Node],
    ol: &[usize],
    nt: &'a [u8],
    nn: &[Node],
    nl: &[usize],
    tt: &[u8],
    tests: &[usize],
    rows: &[u64],
    side: usize,
    node: usize,
    scratch: &mut [usize],
) -> &'a [u8]
    ensures { Shown (label_part_call (lent_job job.old (lent ot.now on.now ol.now) (lent nt.now nn.now nl.now) tt.now tests.now rows.now (length scratch.old)) side node) result.now job.old job.new scratch.old scratch.new }
{
    records::load_both(on, nn, scratch);
    let old = Lent {
        room: on.len(),
        text: ot,
        links: ol,
    };
    let new = Lent {
        room: nn.len(),
        text: nt,
        links: nl,
    };
    let tests = Tests {
        text: tt,
        names: tests,
        rows,
    };
    let nowhere = Label { start: 0, len: 0 };
    let label = label_on(*job, &old, &new, &tests, side, node, scratch).unwrap_or(nowhere);
    records::shown_part(ot, nt, side, label.start, label.len)
}
