// What callers lend beside texts and tables: the nodes of a program, one record after another, and the job. Only here are node
// records read and written: `load` and `save` carry them to and from a table of numbers, and all other work is done on numbers and on values.
#![tactic(auto)]

ghost use Rattle.std.specs.Prelude.{◌≡◌, ◌+◌, ◌*◌, length, take, replicate};
ghost use Rattle.std.proofs.lemmas.List.Edits.{sets};
ghost use Rattle.records.specs.Nodes.{flat, node_at, nodes_of, row};
ghost use Rattle.records.specs.Jobs.{fresh, same_job};
ghost use Rattle.records.specs.Shown.{part_shown};

use text::{clear, copy, get, part};

// A node: its kind, where its label stands in the text and how long it is, and the procedures that it calls, as digits to the base 256: 1 + the
// first one's number is the lowest, and so on; 0 if it calls none.
#[repr(C)]
#[derive(Clone, Copy)]
pub struct Node {
    pub kind: usize,
    pub start: usize,
    pub len: usize,
    pub callees: usize,
}

// The job: its stage, and how many procedures, nodes and edges each version has, and how many tests there are.
#[repr(C)]
#[derive(Clone, Copy, PartialEq, Eq)]
pub struct Job {
    pub stage: usize,
    pub old_procs: usize,
    pub old_nodes: usize,
    pub old_edges: usize,
    pub new_procs: usize,
    pub new_nodes: usize,
    pub new_edges: usize,
    pub tests: usize,
}

// ---- one record

// Puts the four numbers of a record into the table, as the record i of those that begin at the place `at`; past the end, nothing.
#[tactic(auto, using(crate::proofs::Laws::rows))]
fn put_row(out: &mut [usize], at: usize, i: usize, v: Node)
    ensures { out.new ≡ sets out.old (at + 4 * i) (row v) }
{
    if at <= out.len() && i <= (out.len() - at) / 4 {
        copy(out, at + 4 * i, &[v.kind, v.start, v.len, v.callees]);
    }
}

// The record i of the numbers.
#[tactic(auto, using(crate::proofs::Laws::rows))]
fn node_at(table: &[usize], i: usize) -> Node
    ensures { result ≡ node_at table.now i }
{
    if table.len() / 4 < i {
        return Node {
            kind: 0,
            start: 0,
            len: 0,
            callees: 0,
        };
    }
    let k = 4 * i;
    Node {
        kind: get(table, k),
        start: get(table, k + 1),
        len: get(table, k + 2),
        callees: get(table, k + 3),
    }
}

// ---- lent records

// Puts the numbers of the first n records, or of all where there are fewer, into the table from the place `at` on, as far as it goes.
#[tactic(auto, using(crate::proofs::Laws::loads))]
pub fn load(nodes: &[Node], n: usize, out: &mut [usize], at: usize)
    ensures { out.new ≡ sets out.old at (flat (take n nodes.now)) }
{
    for i in 0..n.min(nodes.len()) {
        put_row(out, at, i, nodes[i]);
    }
}

// Puts the numbers of the first 512 old records at the front of the table, and those of the first 512 new ones from the place 2,048 on.
pub fn load_both(old: &[Node], new: &[Node], out: &mut [usize])
    ensures { out.new ≡ sets (sets out.old 0 (flat (take 512 old.now))) 2048 (flat (take 512 new.now)) }
{
    load(old, 512, out, 0);
    load(new, 512, out, 2048);
}

// Stores the first n records of the numbers, as far as there are records to store into; the others stay.
#[tactic(auto, using(crate::proofs::Laws::saves))]
pub fn save(table: &[usize], n: usize, nodes: &mut [Node])
    ensures { nodes.new ≡ sets nodes.old 0 (nodes_of table.now n) }
{
    for i in 0..n.min(nodes.len()) {
        nodes[i] = node_at(table, i);
    }
}

// The same from a scratch table, which is zero afterwards.
pub fn store(scratch: &mut [usize], n: usize, nodes: &mut [Node])
    ensures { (nodes.new ≡ sets nodes.old 0 (nodes_of scratch.old n))
        × (scratch.new ≡ replicate (length scratch.old) 0) }
{
    save(scratch, n, nodes);
    clear(scratch);
}

// ---- the job

// The fresh job, at stage 0.
pub fn fresh_job() -> Job
    ensures { result ≡ fresh }
{
    Job {
        stage: 0,
        old_procs: 0,
        old_nodes: 0,
        old_edges: 0,
        new_procs: 0,
        new_nodes: 0,
        new_edges: 0,
        tests: 0,
    }
}

// Whether two jobs are the same.
#[tactic(auto, using(crate::proofs::Laws::jobs_same))]
pub fn same_job(a: Job, b: Job) -> bool
    ensures { result ≡ same_job a b }
{
    a == b
}

// ---- labels

// A part of the old text (side 0) or of the new one (side 1), cut at its end; no bytes for any other side. C programs name the side so.
#[tactic(auto, using(crate::proofs::Laws::shown))]
pub fn shown_part<'a>(
    old: &'a [u8],
    new: &'a [u8],
    side: usize,
    start: usize,
    len: usize,
) -> &'a [u8]
    ensures { result.now ≡ part_shown old.now new.now side start len }
{
    match side {
        0 => part(old, start, len),
        1 => part(new, start, len),
        _ => part(new, 0, 0),
    }
}
