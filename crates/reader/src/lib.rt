// Reads a program file into a work table: the nodes from 0, the links (procedures, edges, heads of chains) from 2,048.
#![tactic(auto, using(crate::proofs::All::all))]

ghost use Rattle.std.specs.Prelude.{◌≡◌, ◌∷◌, ◌+◌, ◌-◌, ◌*◌, ◌≤◌, ◌<◌, length};
ghost use Rattle.answer.specs.Refusals.{fault_number, number_in, place_in};
ghost use Rattle.rules.specs.Text.{bytes, fields_of, split};
ghost use Rattle.rules.specs.ProgramFile.{form_of, node_line, proc_line};
ghost use Rattle.lines.specs.Kinds.{kind_code, kind_meant};
ghost use Rattle.reader.specs.Reading.{
  Added,
  AddedEdge,
  AllFine,
  CalleesIn,
  Completes,
  Finished,
  LinesRead,
  LinkedEdge,
  NodeFine,
  OpenedProc,
  Refused,
  Resolved,
  ResolvedNode,
  Took,
  callee_bytes,
  in_procedure,
  kind_count,
  marked,
  of_current,
  stored_edge,
  stored_node,
};
ghost use Rattle.reader.specs.Result.{DegreesOf, ReadInto, Small, counts_of, links_of, seen};

use answer::{Fault, Refusal};
use lines::Kind;
use text::{after, copy, find, front, get, put};

// How many procedures, nodes and edges were read.
#[derive(Clone, Copy, Debug, PartialEq, Eq)]
pub struct Counts {
    pub procs: usize,
    pub nodes: usize,
    pub edges: usize,
}

// The fewest and the most edges that leave a node.
#[derive(Clone, Copy)]
pub struct Degrees {
    pub fewest: usize,
    pub most: usize,
}

// By kind: E, S, C, X.
const DEGREES: [Degrees; 4] = [
    Degrees { fewest: 1, most: 1 },
    Degrees { fewest: 1, most: 8 },
    Degrees { fewest: 1, most: 1 },
    Degrees { fewest: 0, most: 0 },
];

// The degrees of a kind's number; of any other number, none.
pub fn degrees_of(kind: usize) -> Degrees
    ensures { DegreesOf kind result }
{
    if kind < 4 {
        return DEGREES[kind];
    }
    Degrees { fewest: 0, most: 0 }
}

// The links of a work table.
pub fn links(work: &[usize]) -> &[usize]
    ensures { result.now ≡ links_of work.now }
{
    after(work, 2048)
}

// ---- stores

// Notes an E as the entry of the procedure q, and an X as its exit.
fn mark(work: &mut [usize], kind: Kind, q: usize, node: usize)
    requires { q ≤ 64 }
    ensures { work.new ≡ marked (kind_code kind) q node work.old }
{
    match kind {
        Kind::Entry => put(work, 2048 + 7 * q + 5, node),
        Kind::Exit => put(work, 2048 + 7 * q + 6, node),
        Kind::Step | Kind::Call => {}
    }
}

fn store_node(
    work: &mut [usize],
    q: usize,
    node: usize,
    kind: Kind,
    start: usize,
    len: usize,
    last: usize,
)
    requires { (q ≤ 64) × (node ≤ 512) }
    ensures { work.new ≡ stored_node work.old q node (kind_code kind) start len last }
{
    copy(work, 4 * node, &[kind.number(), start, len, last]);
    put(work, 7616 + node, 0);
    mark(work, kind, q, node);
}

fn store_edge(work: &mut [usize], edge: usize, from: usize, start: usize, key: usize, to: usize)
    requires { (edge ≤ 1024) × (from ≤ 65536) }
    ensures { work.new ≡ stored_edge work.old edge from start key to }
{
    let head = get(work, 7616 + from);
    copy(work, 2496 + 5 * edge, &[from, start, key, to, head]);
    put(work, 7616 + from, edge + 1);
}

// ---- a procedure that is complete

// The number k of the row of the procedure that is being read.
fn of_current(work: &[usize], procs: usize, k: usize) -> usize
    requires { (procs ≤ 64) × (k ≤ 6) }
    ensures { result ≡ of_current work.now procs k }
{
    if procs == 0 {
        0
    } else {
        get(work, 2048 + 7 * (procs - 1) + k)
    }
}

// How many nodes from the first on have the kind.
fn count_kind(work: &[usize], first: usize, nodes: usize, kind: Kind) -> usize
    requires { nodes ≤ 512 }
    ensures { result ≡ kind_count work.now first nodes (kind_code kind) }
{
    let mut n = 0;
    for i in first..nodes {
        if get(work, 4 * i) == kind.number() {
            n += 1;
        }
    }
    n
}

// Whether a node has as many edges as the table says, and `-` on them if it is an E or C.
fn node_fine(work: &[usize], n: usize) -> bool
    requires { n ≤ 512 }
    ensures { NodeFine work.now n result }
{
    let number = get(work, 4 * n);
    let Ok(kind) = Kind::try_from(number) else {
        return false;
    };
    let bounds = degrees_of(number);
    let d = graph::degree(links(work), n);
    if d < bounds.fewest || bounds.most < d {
        return false;
    }
    match kind {
        Kind::Entry | Kind::Call => graph::dashed(links(work), n),
        Kind::Step | Kind::Exit => true,
    }
}

// Whether every node from the first on is fine.
fn all_fine(work: &[usize], first: usize, nodes: usize) -> bool
    requires { nodes ≤ 512 }
    ensures { AllFine work.now first nodes result }
{
    for n in first..nodes {
        if !node_fine(work, n) {
            return false;
        }
    }
    true
}

// Whether the procedure that is being read is complete.
fn complete(work: &[usize], had: Counts) -> bool
    requires { Small (counts_of had) }
    ensures { Completes work.now (counts_of had) result }
{
    let first = of_current(work, had.procs, 3);
    count_kind(work, first, had.nodes, Kind::Entry) == 1
        && count_kind(work, first, had.nodes, Kind::Exit) == 1
        && all_fine(work, first, had.nodes)
}

// ---- a line

// A refusal.
fn refused(fault: Fault, place: usize) -> Result<Counts, Refusal>
    ensures { Refused (fault_number fault) place (seen result) }
{
    Err(Refusal { fault, place })
}

// A P line, where the procedure before it is complete. After a refusal the work table may hold anything.
fn new_proc(
    text: &[u8],
    line: usize,
    at: usize,
    name: &[u8],
    had: Counts,
    work: &mut [usize],
) -> Result<Counts, Refusal>
    requires small { Small (counts_of had) }
    requires at_bound { (at ≤ 65536) × (8128 ≤ length work.old) }
    ensures { OpenedProc text.now line at name.now (counts_of had) work.old (seen result) work.new }
{
    if 64 <= had.procs {
        return refused(Fault::TooManyLines, line);
    }
    if graph::proc_named(text, links(work), had.procs, name).is_some() {
        return refused(Fault::NameTwice, line);
    }
    copy(
        work,
        2048 + 7 * had.procs,
        &[at + 2, name.len(), line, had.nodes, had.edges],
    );
    Ok(Counts {
        procs: had.procs + 1,
        ..had
    })
}

// A P line of this name. After a refusal the work table may hold anything.
fn add_proc(
    text: &[u8],
    line: usize,
    at: usize,
    name: &[u8],
    had: Counts,
    work: &mut [usize],
) -> Result<Counts, Refusal>
    requires small { Small (counts_of had) }
    requires at_bound { (at ≤ 65536) × (8128 ≤ length work.old) }
    ensures { Took text.now line at (proc_line name.now) (counts_of had) work.old (seen result) work.new }
{
    if had.procs != 0 && !complete(work, had) {
        return refused(Fault::ProcedureBroken, of_current(work, had.procs, 2));
    }
    new_proc(text, line, at, name, had, work)
}

// A P line, by what stands behind its first comma: a name has no comma, so it is all of that. After a refusal the work table may hold anything.
fn proc_line(
    text: &[u8],
    line: usize,
    at: usize,
    name: &[u8],
    had: Counts,
    work: &mut [usize],
) -> Result<Counts, Refusal>
    requires small { Small (counts_of had) }
    requires at_bound { (at ≤ 65536) × (8128 ≤ length work.old) }
    ensures { Took text.now line at (form_of (bytes "P" ∷ split 44 name.now)) (counts_of had) work.old (seen result) work.new }
{
    if !text::is_name(name) {
        return refused(Fault::LineMalformed, line);
    }
    add_proc(text, line, at, name, had, work)
}

// An N line of this kind, label and callee field. After a refusal the work table may hold anything.
fn add_node(
    line: usize,
    at: usize,
    kind: Kind,
    label: &[u8],
    callee: &[u8],
    had: Counts,
    work: &mut [usize],
) -> Result<Counts, Refusal>
    requires small { Small (counts_of had) }
    requires at_bound { (at ≤ 65536) × (line ≤ 65536) × (length callee.now ≤ 65536) × (8128 ≤ length work.old) }
    ensures { Added line at (node_line (kind_meant kind) label.now callee.now) (counts_of had) work.old (seen result) work.new }
{
    if had.procs == 0 || of_current(work, had.procs, 4) < had.edges {
        return refused(Fault::LineOutOfPlace, line);
    }
    if 512 <= had.nodes {
        return refused(Fault::TooManyLines, line);
    }
    store_node(
        work,
        had.procs - 1,
        had.nodes,
        kind,
        at + 4,
        label.len(),
        line * 64 + callee.len(),
    );
    Ok(Counts {
        nodes: had.nodes + 1,
        ..had
    })
}

// An N line, by what stands behind its first comma: kind, label, and the callee field, which has no comma, so that it is all the rest. After a
// refusal the work table may hold anything.
fn node_line(
    line: usize,
    at: usize,
    rest: &[u8],
    had: Counts,
    work: &mut [usize],
) -> Result<Counts, Refusal>
    requires small { Small (counts_of had) }
    requires at_bound { (at ≤ 65536) × (line ≤ 65536) × (length rest.now ≤ 65536) × (8128 ≤ length work.old) }
    ensures { Added line at (form_of (bytes "N" ∷ split 44 rest.now)) (counts_of had) work.old (seen result) work.new }
{
    let kind = text::first_short(rest, 44);
    if rest.len() <= kind.len() {
        return refused(Fault::LineMalformed, line);
    }
    let more = after(rest, kind.len() + 1);
    let label = text::first(more, 44);
    if more.len() <= label.len() {
        return refused(Fault::LineMalformed, line);
    }
    let callee = after(more, label.len() + 1);
    let Some(kind) = lines::kind_of(kind, label, callee) else {
        return refused(Fault::LineMalformed, line);
    };
    add_node(line, at, kind, label, callee, had, work)
}

// Whether n is a node from the first on.
fn in_procedure(first: usize, nodes: usize, n: usize) -> bool
    ensures { result ≡ in_procedure first nodes n }
{
    first <= n && n < nodes
}

// A B line whose ends are nodes of its procedure: its word, which begins at `start`. After a refusal the work table may hold anything.
fn new_edge(
    line: usize,
    from: usize,
    start: usize,
    word: &[u8],
    to: usize,
    had: Counts,
    work: &mut [usize],
) -> Result<Counts, Refusal>
    requires small { Small (counts_of had) }
    requires from_bound { (from < 512) × (had.edges < 1024) × (8128 ≤ length work.old) }
    ensures { LinkedEdge line from start word.now to (counts_of had) work.old (seen result) work.new }
{
    let key = graph::key(word);
    if graph::edge_with(links(work), from, key).is_some() {
        return refused(Fault::WordTwice, line);
    }
    store_edge(work, had.edges, from, start, key, to);
    Ok(Counts {
        edges: had.edges + 1,
        ..had
    })
}

// A B line of this word, which begins at `start`: its ends, then the word. After a refusal the work table may hold anything.
fn add_edge(
    line: usize,
    from: usize,
    start: usize,
    word: &[u8],
    to: usize,
    had: Counts,
    work: &mut [usize],
) -> Result<Counts, Refusal>
    requires small { Small (counts_of had) }
    requires in_bounds { 8128 ≤ length work.old }
    ensures { AddedEdge line from start word.now to (counts_of had) work.old (seen result) work.new }
{
    if had.procs == 0 {
        return refused(Fault::LineOutOfPlace, line);
    }
    if 1024 <= had.edges {
        return refused(Fault::TooManyLines, line);
    }
    let first = of_current(work, had.procs, 3);
    if !in_procedure(first, had.nodes, from) || !in_procedure(first, had.nodes, to) {
        return refused(Fault::NotNamed, line);
    }
    new_edge(line, from, start, word, to, had, work)
}

// A B line, by what stands behind its first comma: from, word, and to, a number, which has no comma, so that it is all the rest. After a
// refusal the work table may hold anything.
fn edge_line(
    line: usize,
    at: usize,
    rest: &[u8],
    had: Counts,
    work: &mut [usize],
) -> Result<Counts, Refusal>
    requires small { Small (counts_of had) }
    requires at_bound { (at ≤ 65536) × (length rest.now ≤ 65536) × (8128 ≤ length work.old) }
    ensures { Added line at (form_of (bytes "B" ∷ split 44 rest.now)) (counts_of had) work.old (seen result) work.new }
{
    let from = text::first_short(rest, 44);
    if rest.len() <= from.len() {
        return refused(Fault::LineMalformed, line);
    }
    let more = after(rest, from.len() + 1);
    let word = text::first_short(more, 44);
    if more.len() <= word.len() {
        return refused(Fault::LineMalformed, line);
    }
    let to = after(more, word.len() + 1);
    let Some(source) = text::number(from) else {
        return refused(Fault::LineMalformed, line);
    };
    let Some(target) = text::number(to) else {
        return refused(Fault::LineMalformed, line);
    };
    if !text::is_word(word) {
        return refused(Fault::LineMalformed, line);
    }
    add_edge(line, source, at + from.len() + 3, word, target, had, work)
}

// One line: its number, where it begins, and its bytes. It goes by its first two bytes. After a refusal the work table may hold anything.
fn step(
    text: &[u8],
    line: usize,
    at: usize,
    l: &[u8],
    had: Counts,
    work: &mut [usize],
) -> Result<Counts, Refusal>
    requires small { Small (counts_of had) }
    requires at_bound { (at ≤ 65536) × (line ≤ 65536) × (length l.now ≤ 65536) × (8128 ≤ length work.old) }
    ensures { Took text.now line at (form_of (fields_of l.now)) (counts_of had) work.old (seen result) work.new }
{
    let f = front(l, 2);
    let rest = after(l, 2);
    if text::same(f, b"N,") {
        return node_line(line, at, rest, had, work);
    }
    if text::same(f, b"B,") {
        return edge_line(line, at, rest, had, work);
    }
    if text::same(f, b"P,") {
        return proc_line(text, line, at, rest, had, work);
    }
    refused(Fault::LineMalformed, line)
}

// ---- all lines

// Reads every line into the work table, by the places where they begin, which the tables keep. After a refusal the work table may hold anything.
fn read_lines(text: &[u8], work: &mut [usize]) -> Result<Counts, Refusal>
    requires { (length text.now ≤ 65536) × (8128 ≤ length work.old) }
    ensures { LinesRead text.now (seen result) work.new }
{
    let mut at = 0;
    let mut line = 1;
    let mut had = Counts {
        procs: 0,
        nodes: 0,
        edges: 0,
    };
    while at < text.len() {
        let rest = after(text, at);
        let len = find(rest, 10);
        if rest.len() <= len {
            return refused(Fault::LineMalformed, line);
        }
        had = step(text, line, at, front(rest, len), had, work)?;
        at = at + len + 1;
        line += 1;
    }
    Ok(had)
}

// ---- callees, and the whole text

// The callee field of a node whose label stands at start and has len bytes: the next field, of so many bytes.
fn callee_of(text: &[u8], start: usize, len: usize, size: usize) -> &[u8]
    ensures { result.now ≡ callee_bytes text.now start len size }
{
    let label = after(text, start);
    let comma = after(label, len);
    let callee = after(comma, 1);
    front(callee, size)
}

// The procedures that a callee field names, of which there are at most `most`, as one number: for each a digit to the base 256, 1 + the
// procedure, the first name's the lowest; none where a name is unknown. The remainders cut nothing off a program's numbers; they bound any others.
fn callees_in(
    text: &[u8],
    links: &[usize],
    procs: usize,
    field: &[u8],
    most: usize,
) -> Option<usize>
    requires { most ≤ 4 }
    ensures { CalleesIn text.now links.now procs field.now most result }
{
    if most == 0 {
        return None;
    }
    let name = text::first_short(field, 43);
    let q = graph::proc_named(text, links, procs, name)?;
    if field.len() <= name.len() {
        return Some(q % 255 + 1);
    }
    let behind = callees_in(text, links, procs, after(field, name.len() + 1), most - 1)?;
    Some(behind % 16777216 * 256 + q % 255 + 1)
}

// The same of a whole callee field. One name, as most have, is looked up at once; so the compiler keeps the others out of the reader's loop.
fn all_callees(text: &[u8], links: &[usize], procs: usize, field: &[u8]) -> Option<usize>
    ensures { CalleesIn text.now links.now procs field.now 4 result }
{
    let name = text::first_short(field, 43);
    if field.len() <= name.len() {
        let q = graph::proc_named(text, links, procs, name)?;
        return Some(q % 255 + 1);
    }
    callees_in(text, links, procs, field, 4)
}

// Puts the procedures that the node calls into its row. Where it names an unknown one it is refused at its line, and then the work table may
// hold anything.
fn resolve_node(text: &[u8], work: &mut [usize], procs: usize, n: usize) -> Result<(), Refusal>
    requires { (n < 512) × (8128 ≤ length work.old) }
    ensures { ResolvedNode text.now work.old procs n (number_in result) (place_in result) work.new }
{
    if get(work, 4 * n) != Kind::Call.number() {
        put(work, 4 * n + 3, 0);
        return Ok(());
    }
    let start = get(work, 4 * n + 1);
    let len = get(work, 4 * n + 2);
    let last = get(work, 4 * n + 3);
    let field = callee_of(text, start, len, last % 64);
    let Some(callees) = all_callees(text, links(work), procs, field) else {
        return Err(Refusal {
            fault: Fault::UnknownCallee,
            place: last / 64,
        });
    };
    put(work, 4 * n + 3, callees);
    Ok(())
}

// The same of every node, up to the first with an unknown callee.
fn resolve(text: &[u8], work: &mut [usize], procs: usize, nodes: usize) -> Result<(), Refusal>
    requires { (nodes ≤ 512) × (8128 ≤ length work.old) }
    ensures { Resolved text.now work.old procs nodes (number_in result) (place_in result) work.new }
{
    for n in 0..nodes {
        resolve_node(text, work, procs, n)?;
    }
    Ok(())
}

// The end of a text whose lines were read: no procedure, one that is not complete, or an unknown callee. After a refusal the work table may hold
// anything.
fn finish(text: &[u8], had: Counts, work: &mut [usize]) -> Result<Counts, Refusal>
    requires small { Small (counts_of had) }
    requires in_bounds { 8128 ≤ length work.old }
    ensures { Finished text.now (counts_of had) work.old (seen result) work.new }
{
    if had.procs == 0 {
        return refused(Fault::LineMalformed, 1);
    }
    if !complete(work, had) {
        return refused(Fault::ProcedureBroken, of_current(work, had.procs, 2));
    }
    resolve(text, work, had.procs, had.nodes)?;
    Ok(had)
}

// Reads a program file into the work table. After a refusal the table may hold anything.
pub fn read_into(text: &[u8], work: &mut [usize]) -> Result<Counts, Refusal>
    requires { 8128 ≤ length work.old }
    ensures { ReadInto text.now (seen result) work.new }
{
    if 65536 < text.len() {
        return refused(Fault::TextTooLong, 0);
    }
    let had = read_lines(text, work)?;
    finish(text, had, work)
}
