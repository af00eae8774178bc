// A program written back: the program file that the text and the tables of a version hold; and whether another text has the same names, labels,
// callees and words where the tables say. Every function takes tables of any numbers. A writer stores only inside its output and answers
// the place behind what it writes, so that writing into no bytes measures.
#![tactic(auto, using(crate::proofs::All::all))]

ghost use Rattle.std.specs.Prelude.{◌≡◌, ◌∷◌, [], ◌+◌, ◌-◌, ◌^◌, ◌≤◌, get_or, length};
ghost use Rattle.laws.specs.Tests.{every};
ghost use Rattle.rules.specs.Layout.{kind_field};
ghost use Rattle.rules.specs.Text.{decimal};
ghost use Rattle.reader.specs.Result.{Small, counts_of};
ghost use Rattle.writer.specs.Writes.{Writes};
ghost use Rattle.writeback.specs.Parts.{
  callee_in,
  digits_of,
  label_in,
  name_long,
  names_long,
  name_in,
  parts_same,
  name_same,
  node_same,
  word_same,
  AllBelow,
  word_in,
};
ghost use Rattle.writeback.specs.Back.{
  back_text,
  begins,
  edges_text,
  edge_text,
  kind_from,
  nodes_text,
  node_text,
  procedure_text,
  proc_text,
};
ghost use Rattle.writeback.specs.Runs.{Callable, RunPut};

use lines::Kind;
use reader::Counts;
use versions::{Callees, Program};

// How many digits to the base 256 the number has, at most 8.
fn digits_of(v: usize) -> usize
    ensures { result ≡ digits_of 8 v }
{
    let mut rest = v;
    for n in 0..8 {
        if rest == 0 {
            return n;
        }
        rest /= 256;
    }
    8
}

// ---- parts of the text

// The name of the procedure q.
fn name_in<'t>(version: &Program<'t, '_>, q: usize) -> &'t [u8]
    ensures { result.now ≡ name_in version.now.text version.now.links q }
{
    text::front(version.name(q), 12)
}

// The label of the node m.
fn label_in<'t>(version: &Program<'t, '_>, m: usize) -> &'t [u8]
    ensures { result.now ≡ label_in version.now.text version.now.nodes m }
{
    text::front(version.label(m), 60)
}

// How long the name of the procedure q is, at most 12 bytes.
#[tactic(auto, unfolding(crate::specs::Parts::name_long))]
fn name_long(version: &Program, q: usize) -> usize
    ensures value { result ≡ name_long version.now.links q }
    ensures upper_bound { result ≤ 12 }
{
    12.min(version.proc_number(q, 1))
}

// How many bytes the names take of the procedures that are the digits of this number, at most four, each with the byte before it.
fn names_long(version: &Program, callees: usize) -> usize
    ensures { result ≡ names_long 4 version.now.links callees }
{
    let mut len = 0;
    for q in Callees::of(callees).take(4) {
        len += name_long(version, q) + 1;
    }
    len
}

// The callee field of the node m.
fn callee_in<'t>(version: &Program<'t, '_>, m: usize) -> &'t [u8]
    ensures { result.now ≡ callee_in version.now.text version.now.nodes version.now.links m }
{
    if !version.is_call(m) {
        return text::front(version.text(), 0);
    }
    let len = names_long(version, version.callees(m));
    let label = text::after(version.text(), version.node_number(m, 1));
    let behind = text::after(label, version.node_number(m, 2));
    text::after(text::front(behind, len), 1)
}

// The word of the edge e.
fn word_in<'t>(version: &Program<'t, '_>, e: usize) -> &'t [u8]
    ensures { result.now ≡ word_in version.now.text version.now.links e }
{
    let len = digits_of(version.word_key(e));
    text::part(version.text(), version.edge_number(e, 1), len)
}

// ---- the same parts, of two versions with the same tables

// Whether the procedure q has the same name.
fn same_name(a: &Program, b: &Program, q: usize) -> bool
    requires { a.now.links ≡ b.now.links }
    ensures { result ≡ name_same a.now.text b.now.text a.now.links q }
{
    text::same_long(name_in(a, q), name_in(b, q))
}

// Whether the node m has the same label and the same callee field.
fn same_node(a: &Program, b: &Program, m: usize) -> bool
    requires { (a.now.nodes ≡ b.now.nodes) × (a.now.links ≡ b.now.links) }
    ensures { result ≡ node_same a.now.text b.now.text a.now.nodes a.now.links m }
{
    text::same_long(label_in(a, m), label_in(b, m))
        && text::same_long(callee_in(a, m), callee_in(b, m))
}

// Whether the edge e has the same word.
fn same_word(a: &Program, b: &Program, e: usize) -> bool
    requires { a.now.links ≡ b.now.links }
    ensures { result ≡ word_same a.now.text b.now.text a.now.links e }
{
    text::same_long(word_in(a, e), word_in(b, e))
}

// Whether the test passes of every number below n: as `all` of a range, with a contract that tells of each test.
fn all_below<F: Fn(usize) -> bool>(n: usize, test: F) -> bool
    requires { F.IsAlwaysCallable test }
    ensures { AllBelow (F.post test) n result }
{
    for i in 0..n {
        if !test(i) {
            return false;
        }
    }
    true
}

// The same of every procedure, of every node, of every edge.
fn same_names(a: &Program, b: &Program, procs: usize) -> bool
    requires { a.now.links ≡ b.now.links }
    ensures { result ≡ every procs (name_same a.now.text b.now.text a.now.links) }
{
    all_below(procs, |q| same_name(a, b, q))
}

fn same_nodes(a: &Program, b: &Program, nodes: usize) -> bool
    requires { (a.now.nodes ≡ b.now.nodes) × (a.now.links ≡ b.now.links) }
    ensures { result ≡ every nodes (node_same a.now.text b.now.text a.now.nodes a.now.links) }
{
    all_below(nodes, |m| same_node(a, b, m))
}

fn same_words(a: &Program, b: &Program, edges: usize) -> bool
    requires { a.now.links ≡ b.now.links }
    ensures { result ≡ every edges (word_same a.now.text b.now.text a.now.links) }
{
    all_below(edges, |e| same_word(a, b, e))
}

// Whether the other text is as long as that of the version, and has the same names, labels, callees and words where the tables say.
pub fn same_parts(version: &Program, text: &[u8], had: Counts) -> bool
    ensures { result ≡ parts_same version.now.text text.now version.now.nodes version.now.links (counts_of had) }
{
    let other = Program::new(text, version.nodes(), version.links());
    version.text().len() == text.len()
        && same_names(version, &other, had.procs)
        && same_nodes(version, &other, had.nodes)
        && same_words(version, &other, had.edges)
}

// ---- lines

// A comma and bytes.
fn put_part(out: &mut [u8], at: usize, part: &[u8]) -> usize
    requires { (at ≤ 2 ^ 32) × (length part.now ≤ 60) }
    ensures { Writes out.old at (44 ∷ part.now) 61 result out.new }
{
    let a = text::put_byte(out, at, b',');
    text::put_bytes(out, a, part)
}

// `P,name`, a procedure.
fn put_proc(out: &mut [u8], at: usize, version: &Program, q: usize) -> usize
    requires { at ≤ 2 ^ 31 }
    ensures { Writes out.old at (proc_text version.now.text version.now.links q) 128 result out.new }
{
    let a = text::put_byte(out, at, b'P');
    let b = put_part(out, a, name_in(version, q));
    text::put_byte(out, b, b'\n')
}

// The byte of a kind by its number; a number that no kind has counts as that of an exit.
fn kind_byte(k: usize) -> u8
    ensures { result ∷ [] ≡ kind_field (kind_from k) }
{
    match Kind::try_from(k) {
        Ok(Kind::Entry) => b'E',
        Ok(Kind::Step) => b'S',
        Ok(Kind::Call) => b'C',
        Ok(Kind::Exit) | Err(_) => b'X',
    }
}

// `N,kind`, how a node begins.
fn put_kind(out: &mut [u8], at: usize, k: usize) -> usize
    requires { at ≤ 2 ^ 31 }
    ensures { Writes out.old at (78 ∷ (44 ∷ kind_field (kind_from k))) 3 result out.new }
{
    let a = text::put_bytes(out, at, b"N,");
    text::put_byte(out, a, kind_byte(k))
}

// `N,kind,label,callee`, a node.
fn put_node(out: &mut [u8], at: usize, version: &Program, m: usize) -> usize
    requires { at ≤ 2 ^ 31 }
    ensures { Writes out.old at (node_text version.now.text version.now.nodes version.now.links m) 128 result out.new }
{
    let a = put_kind(out, at, version.kind(m));
    let b = put_part(out, a, label_in(version, m));
    let c = put_part(out, b, callee_in(version, m));
    text::put_byte(out, c, b'\n')
}

// `B,source`, how an edge begins.
fn put_source(out: &mut [u8], at: usize, x: usize) -> usize
    requires { at ≤ 2 ^ 31 }
    ensures { Writes out.old at (66 ∷ (44 ∷ decimal x)) 22 result out.new }
{
    let a = text::put_byte(out, at, b'B');
    writer::put_field(out, a, x)
}

// `B,source,word,target`, an edge.
fn put_edge(out: &mut [u8], at: usize, version: &Program, e: usize) -> usize
    requires { at ≤ 2 ^ 31 }
    ensures { Writes out.old at (edge_text version.now.text version.now.links e) 128 result out.new }
{
    let a = put_source(out, at, version.source(e));
    let b = put_part(out, a, word_in(version, e));
    let c = writer::put_field(out, b, version.target(e));
    text::put_byte(out, c, b'\n')
}

// ---- procedures

// Lets `put` write the lines from `from` up to `to`.
fn put_run<F: Fn(&mut [u8], usize, usize) -> usize>(
    out: &mut [u8],
    at: usize,
    from: usize,
    to: usize,
    put: F,
) -> usize
    requires { (at ≤ 2 ^ 30) × (to ≤ 1024) × Callable F.Fn put }
    ensures { RunPut F.Fn put out.old at from to result out.new }
{
    let mut k = at;
    for i in from..to {
        k = put(out, k, i);
    }
    k
}

// Where the procedure q begins in the nodes (k is 3) or in the edges (k is 4), of which there are `count`.
fn begin(version: &Program, k: usize, procs: usize, count: usize, q: usize) -> usize
    requires { k ≤ 6 }
    ensures { result ≡ begins version.now.links k procs count q }
{
    if procs <= q {
        return count;
    }
    version.proc_number(q, k).min(count)
}

// The nodes and the edges of the procedure q.
fn put_its_nodes(out: &mut [u8], at: usize, version: &Program, had: Counts, q: usize) -> usize
    requires { (at ≤ 2 ^ 29) × Small (counts_of had) × (q ≤ 64) }
    ensures { Writes out.old at (nodes_text version.now.text version.now.nodes version.now.links (counts_of had) q) (2 ^ 16) result out.new }
{
    let from = begin(version, 3, had.procs, had.nodes, q);
    let to = begin(version, 3, had.procs, had.nodes, q + 1);
    put_run(out, at, from, to, |out, k, m| put_node(out, k, version, m))
}

fn put_its_edges(out: &mut [u8], at: usize, version: &Program, had: Counts, q: usize) -> usize
    requires { (at ≤ 2 ^ 29) × Small (counts_of had) × (q ≤ 64) }
    ensures { Writes out.old at (edges_text version.now.text version.now.links (counts_of had) q) (2 ^ 17) result out.new }
{
    let from = begin(version, 4, had.procs, had.edges, q);
    let to = begin(version, 4, had.procs, had.edges, q + 1);
    put_run(out, at, from, to, |out, k, e| put_edge(out, k, version, e))
}

// The procedure q: its P line, its nodes, its edges.
fn put_procedure(out: &mut [u8], at: usize, version: &Program, had: Counts, q: usize) -> usize
    requires { (at ≤ 2 ^ 28) × Small (counts_of had) × (q ≤ 64) }
    ensures { Writes out.old at (procedure_text version.now.text version.now.nodes version.now.links (counts_of had) q) (2 ^ 18) result out.new }
{
    let a = put_proc(out, at, version, q);
    let b = put_its_nodes(out, a, version, had, q);
    put_its_edges(out, b, version, had, q)
}

// Writes the program file that the version holds, and answers its length.
pub fn write_program(version: &Program, had: Counts, out: &mut [u8]) -> usize
    requires { Small (counts_of had) }
    ensures { Writes out.old 0 (back_text version.now.text version.now.nodes version.now.links (counts_of had)) (2 ^ 24) result out.new }
{
    let mut k = 0;
    for q in 0..had.procs {
        k = put_procedure(out, k, version, had, q);
    }
    k
}
