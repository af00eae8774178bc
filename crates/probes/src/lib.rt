// The new edges that need a probe, and the old edges after a dangerous one, as sets of bits, lowest edge first.
#![tactic(auto, using(crate::proofs::All::all))]

ghost use Rattle.probes.specs.Starts.{AllStart, Parts, PartsAt, Starts};
ghost use Rattle.probes.specs.Sets.{AfterFound, OpenFound, ProbesFound};

use selection::Ends;
use versions::Program;

// ---- where the runs may part

// Adds the new edges that part from the old edge e at the pair of n and m.
fn part_at(old: &Program, new: &Program, w: &[usize], e: usize, n: usize, m: usize, set: &mut [u64])
    ensures { PartsAt old.now.nodes old.now.links new.now.nodes new.now.links w.now e n m set.old set.new }
{
    let mut place = selection::joins(old, new, w, e, n, m, Ends::Parted);
    while let Some(f) = place {
        coverage::set_bit(set, f);
        place = selection::joins_before(old, new, w, e, f, Ends::Parted);
    }
}

// The same at every pair that may go on.
fn part(old: &Program, new: &Program, w: &[usize], e: usize, set: &mut [u64])
    ensures { Parts old.now.nodes old.now.links new.now.nodes new.now.links w.now e set.old set.new }
{
    let n = old.source(e);
    let mut place = pairset::last_pair(w, n);
    while let Some(k) = place {
        part_at(old, new, w, e, n, pairset::new_of(w, k), set);
        place = pairset::pair_before(w, k);
    }
}

// The same, if e is dangerous: from no other edge does a new one part.
fn start(old: &Program, new: &Program, w: &[usize], dangers: &[u64], e: usize, set: &mut [u64])
    ensures { Starts old.now.nodes old.now.links new.now.nodes new.now.links w.now dangers.now e set.old set.new }
{
    if coverage::in_set(dangers, e) {
        part(old, new, w, e, set);
    }
}

// Adds the new edges that part from one of the first old edges.
fn start_all(
    old: &Program,
    new: &Program,
    w: &[usize],
    dangers: &[u64],
    edges: usize,
    set: &mut [u64],
)
    ensures { AllStart old.now.nodes old.now.links new.now.nodes new.now.links w.now dangers.now edges edges set.old set.new }
{
    for e in 0..edges {
        start(old, new, w, dangers, e, set);
    }
}

// ---- the sets

// Makes the set, which is empty, that of the new edges that need a probe, where the old version has so many edges and the new one so many nodes. For
// tables that do not hold two programs, their pairs and their dangerous edges it is left open.
pub fn find_probes(
    old: &Program,
    new: &Program,
    w: &[usize],
    dangers: &[u64],
    edges: usize,
    nodes: usize,
    set: &mut [u64],
)
    ensures { ProbesFound old.now.nodes old.now.links new.now.nodes new.now.links w.now dangers.now edges nodes set.old set.new }
{
    start_all(old, new, w, dangers, edges, set);
    after::spread(new, nodes, set);
}

// Makes the set that of the old edges after a dangerous one, itself included, where the old version has so many nodes. For tables that do not hold it,
// and the dangerous edges, it is left open.
pub fn find_after(old: &Program, dangers: &[u64], nodes: usize, set: &mut [u64])
    ensures { AfterFound old.now.nodes old.now.links dangers.now nodes set.old set.new }
{
    text::copy(set, 0, dangers);
    after::spread(old, nodes, set);
}

// Both sets, from empty ones, if the test is repeated: they say which of its marks are open ones, `?`. Otherwise nothing is promised of them.
pub fn find_open(
    old: &Program,
    new: &Program,
    w: &[usize],
    dangers: &[u64],
    edges: usize,
    old_nodes: usize,
    new_nodes: usize,
    again: bool,
    probed: &mut [u64],
    after: &mut [u64],
)
    ensures { OpenFound again
        (ProbesFound old.now.nodes old.now.links new.now.nodes new.now.links w.now dangers.now edges new_nodes probed.old probed.new)
        (AfterFound old.now.nodes old.now.links dangers.now old_nodes after.old after.new) }
{
    if again {
        find_probes(old, new, w, dangers, edges, new_nodes, probed);
        find_after(old, dangers, old_nodes, after);
    }
}
