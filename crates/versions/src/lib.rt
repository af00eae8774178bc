// Two versions of a program in memory, the old one and the new one. Every function takes any tables and any number: what stands past the end
// of a table is 0.
#![tactic(auto)]

ghost use Rattle.std.specs.Prelude.{◌≡◌, ◌+◌, ◌-◌, ◌*◌, ◌%◌, ◌^◌, ◌<◌, ◌≤◌, eqb, get_or};
ghost use Rattle.laws.specs.Places.{place};
ghost use Rattle.graph.specs.Table.{edge_base, head_base, node_base, proc_base};
ghost use Rattle.graph.specs.Reads.{part_at, up_to};
ghost use Rattle.rules.specs.Text.{same_label};
ghost use Rattle.rules.specs.Closing.{same_callee};
ghost use Rattle.pairset.specs.Store.{Has};
ghost use Rattle.versions.specs.Memory.{Memory, memory};
ghost use Rattle.versions.specs.Claims.{Alike, BothCall, CalleesEntered, Entered, ExitsMet, GoesOn, SameCallees};
ghost use Rattle.versions.specs.Opposite.{IsStar, LastOpposite, OppositeBefore, OppositeFrom, SoleOpposite, Takes, WordLost};
ghost use Rattle.versions.specs.Groups.{Known, Regrouped};

use std::marker::Model;

// ---- a version

#[derive(Drop)]
pub struct Program<'t, 'a> {
    text: &'t [u8],
    nodes: &'a [usize],
    links: &'a [usize],
}

impl<'t, 'a> Model for Program<'t, 'a> {
    ghost Value = { Memory };

    ghost view = { λ p. memory p.text.now p.nodes.now p.links.now };
}

// The number `at` of the row i of a table whose rows begin at `base` and have `size` numbers.
fn in_row(table: &[usize], base: usize, size: usize, i: usize, at: usize) -> usize
    requires { (base ≤ 448) × (size ≤ 7) × (1 ≤ size) × (at ≤ 6) }
    ensures { result ≡ get_or table.now (base + size * i + at) 0 }
{
    if table.len() <= i {
        return 0;
    }
    text::get(table, base + size * i + at)
}

// The part of the text whose start is the number `at` of the row i, and whose length is the next.
#[tactic(auto, unfolding(graph::specs::Reads::part_at))]
fn part_in_row<'a>(text: &'a [u8], table: &[usize], size: usize, i: usize, at: usize) -> &'a [u8]
    requires { (size ≤ 7) × (1 ≤ size) × (at ≤ 5) }
    ensures { result.now ≡ part_at text.now table.now (size * i + at) }
{
    text::part(
        text,
        in_row(table, 0, size, i, at),
        in_row(table, 0, size, i, at + 1),
    )
}

impl<'t, 'a> Program<'t, 'a> {
    pub fn new(text: &'t [u8], nodes: &'a [usize], links: &'a [usize]) -> Program<'t, 'a>
        ensures { result ≡ memory text.now nodes.now links.now }
    {
        Program { text, nodes, links }
    }

    pub fn text(&self) -> &'t [u8]
        ensures { result.now ≡ self.now.text }
    {
        self.text
    }

    pub fn nodes(&self) -> &'a [usize]
        ensures { result.now ≡ self.now.nodes }
    {
        self.nodes
    }

    pub fn links(&self) -> &'a [usize]
        ensures { result.now ≡ self.now.links }
    {
        self.links
    }

    // The number k of the row of the node n, of the procedure q, of the edge e.
    pub fn node_number(&self, n: usize, k: usize) -> usize
        requires { k ≤ 3 }
        ensures { result ≡ get_or self.now.nodes (node_base n + k) 0 }
    {
        in_row(self.nodes, 0, 4, n, k)
    }

    pub fn proc_number(&self, q: usize, k: usize) -> usize
        requires { k ≤ 6 }
        ensures { result ≡ get_or self.now.links (proc_base q + k) 0 }
    {
        in_row(self.links, 0, 7, q, k)
    }

    pub fn edge_number(&self, e: usize, k: usize) -> usize
        requires { k ≤ 4 }
        ensures { result ≡ get_or self.now.links (edge_base e + k) 0 }
    {
        in_row(self.links, 448, 5, e, k)
    }

    // The number of the kind of the node n: 0 entry, 1 step, 2 call, 3 exit; a table may hold any number there.
    pub fn kind(&self, n: usize) -> usize
        ensures { result ≡ get_or self.now.nodes (node_base n) 0 }
    {
        self.node_number(n, 0)
    }

    pub fn is_call(&self, n: usize) -> bool
        ensures { result ≡ eqb (get_or self.now.nodes (node_base n) 0) 2 }
    {
        self.kind(n) == 2
    }

    pub fn is_exit(&self, n: usize) -> bool
        ensures { result ≡ eqb (get_or self.now.nodes (node_base n) 0) 3 }
    {
        self.kind(n) == 3
    }

    // The procedures that the node n calls, as the digits of one number; 0 if it calls none.
    pub fn callees(&self, n: usize) -> usize
        ensures { result ≡ get_or self.now.nodes (node_base n + 3) 0 }
    {
        self.node_number(n, 3)
    }

    // The label of the node n.
    pub fn label(&self, n: usize) -> &'t [u8]
        ensures { result.now ≡ part_at self.now.text self.now.nodes (node_base n + 1) }
    {
        part_in_row(self.text, self.nodes, 4, n, 1)
    }

    // The name of the procedure q.
    pub fn name(&self, q: usize) -> &'t [u8]
        ensures { result.now ≡ part_at self.now.text self.now.links (proc_base q) }
    {
        part_in_row(self.text, self.links, 7, q, 0)
    }

    // The entry of the procedure q.
    pub fn entry(&self, q: usize) -> usize
        ensures { result ≡ get_or self.now.links (proc_base q + 5) 0 }
    {
        self.proc_number(q, 5)
    }

    // The exit of the procedure q.
    pub fn exit(&self, q: usize) -> usize
        ensures { result ≡ get_or self.now.links (proc_base q + 6) 0 }
    {
        self.proc_number(q, 6)
    }

    // The node that the edge e leaves.
    pub fn source(&self, e: usize) -> usize
        ensures { result ≡ get_or self.now.links (edge_base e) 0 }
    {
        self.edge_number(e, 0)
    }

    // The node that the edge e ends on.
    pub fn target(&self, e: usize) -> usize
        ensures { result ≡ get_or self.now.links (edge_base e + 3) 0 }
    {
        self.edge_number(e, 3)
    }

    // The key of the word of the edge e.
    pub fn word_key(&self, e: usize) -> usize
        ensures { result ≡ get_or self.now.links (edge_base e + 2) 0 }
    {
        graph::word_key(self.links, e)
    }

    // The last edge of the node n.
    pub fn last_edge(&self, n: usize) -> Option<usize>
        ensures { place result ≡ get_or self.now.links (head_base n) 0 }
    {
        graph::head(self.links, n)
    }

    // The edge before e of the same node; always one below e.
    pub fn edge_before(&self, e: usize) -> Option<usize>
        ensures { place result ≡ up_to e (get_or self.now.links (edge_base e + 4) 0) }
    {
        graph::before(self.links, e)
    }
}

// The procedures that a node calls, from one on: the digits of a number to the base 256, each 1 + a procedure, the first callee's the lowest.
#[derive(Clone, Copy, Drop)]
pub struct Callees {
    digits: usize,
}

impl Callees {
    pub fn of(digits: usize) -> Callees
        ensures { result.digits ≡ digits }
    {
        Callees { digits }
    }
}

impl Iterator for Callees {
    ghost use Rattle.std.specs.Iterator.{at_most};
    ghost use Rattle.versions.specs.Callees.{NextCallee};

    type Item = usize;

    ghost next_gives = { λ a r b. NextCallee a.digits r b.digits };

    ghost remaining = { λ a. at_most a.digits };

    fn next(&mut self) -> Option<usize> {
        let left = self.digits;
        if left == 0 {
            return None;
        }
        self.digits = left / 256;
        Some((left % 256).saturating_sub(1))
    }
}

// The first of the procedures that are the digits of such a number.
pub fn callee(callees: usize) -> usize
    ensures { result ≡ callees % 256 - 1 }
{
    (callees % 256).saturating_sub(1)
}

// ---- two nodes

// Whether the labels of the old node n and the new node m match.
fn same_label(old: &Program, new: &Program, n: usize, m: usize) -> bool
    ensures { result ≡ same_label (part_at old.now.text old.now.nodes (node_base n + 1)) (part_at new.now.text new.now.nodes (node_base m + 1)) }
{
    text::same_label(old.label(n), new.label(m))
}

// Whether the old procedure q and the new procedure k have names that count as equal callees.
#[tactic(auto, using(crate::proofs::Laws::sames))]
fn same_name(old: &Program, new: &Program, q: usize, k: usize) -> bool
    ensures { result ≡ same_callee (part_at old.now.text old.now.links (proc_base q)) (part_at new.now.text new.now.links (proc_base k)) }
{
    text::same(old.name(q), new.name(k))
}

// Whether the callee fields of an old and a new call count as equal, where k and l have their callees as digits: they have as many names, and the
// same.
#[tactic(auto, using(crate::proofs::Walks::callees))]
fn same_callees(old: &Program, new: &Program, k: usize, l: usize) -> bool
    ensures { SameCallees old.now.text old.now.links new.now.text new.now.links k l result }
{
    let mut others = Callees::of(l);
    for q in Callees::of(k) {
        let Some(p) = others.next() else {
            return false;
        };
        if !same_name(old, new, q, p) {
            return false;
        }
    }
    others.next().is_none()
}

// Whether the old node n and the new node m are alike. Only a call has a callee field, of the names of the procedures that it calls.
#[tactic(auto, using(crate::proofs::Laws::alikes))]
pub fn alike<'t, 'a>(old: &Program<'t, 'a>, new: &Program<'t, 'a>, n: usize, m: usize) -> bool
    ensures { Alike old.now new.now n m result }
{
    let kind = old.kind(n);
    if kind != new.kind(m) || !same_label(old, new, n, m) {
        return false;
    }
    kind != 2 || same_callees(old, new, old.callees(n), new.callees(m))
}

// ---- an old edge and the edges of a new node that are opposite to it: taken with it for one word

// The key of the word `*`.
const STAR: usize = 42;

// Whether the old node n takes the edge e for the word of the new edge f.
#[tactic(auto, using(crate::proofs::Options::all))]
fn takes(old: &Program, new: &Program, e: usize, n: usize, f: usize) -> bool
    ensures { Takes old.now.links new.now.links e n f result }
{
    graph::edge_taken(old.links, n, new.word_key(f)) == Some(e)
}

// The first edge from the place down, in the chain of a new node, for whose word the old node n takes the edge e.
#[tactic(auto, using(crate::proofs::Opposites::all))]
fn opposite_from(
    old: &Program,
    new: &Program,
    e: usize,
    n: usize,
    from: Option<usize>,
) -> Option<usize>
    ensures { OppositeFrom old.now.links new.now.links e n (place from) (place result) }
{
    let mut place = from;
    while let Some(f) = place {
        if takes(old, new, e, n, f) {
            return place;
        }
        place = new.edge_before(f);
    }
    None
}

// The last edge of the new node m that is opposite to the old edge e. To an edge with another word than `*`, this is the one that m takes for that
// word.
#[inline(always)]
#[tactic(auto, using(crate::proofs::Opposites::all))]
pub fn last_opposite(old: &Program, new: &Program, e: usize, m: usize) -> Option<usize>
    ensures { LastOpposite old.now.links new.now.links e m (place result) }
{
    match old.word_key(e) {
        STAR => opposite_from(old, new, e, old.source(e), new.last_edge(m)),
        key => graph::edge_taken(new.links, m, key),
    }
}

// Whether the word of the old edge e is `*`: another one has at most one opposite edge.
#[tactic(auto, using(crate::proofs::Opposites::all))]
pub fn is_star(old: &Program, e: usize) -> bool
    ensures { IsStar old.now.links e result }
{
    old.word_key(e) == STAR
}

// The one before f, which is opposite to e. Only `*` has several.
#[tactic(auto, using(crate::proofs::Opposites::all))]
pub fn opposite_before(old: &Program, new: &Program, e: usize, f: usize) -> Option<usize>
    ensures { OppositeBefore old.now.links new.now.links e f (place result) }
{
    if old.word_key(e) == STAR {
        opposite_from(old, new, e, old.source(e), new.edge_before(f))
    } else {
        None
    }
}

// Whether the new node m takes no edge for the word of the old edge e, where `last` is what `last_opposite` found.
#[tactic(auto, using(crate::proofs::Options::all))]
pub fn word_lost(old: &Program, new: &Program, e: usize, m: usize, last: Option<usize>) -> bool
    ensures { WordLost old.now.links new.now.links e m (place last) result }
{
    if old.word_key(e) == STAR {
        graph::edge_with(new.links, m, STAR).is_none()
    } else {
        last.is_none()
    }
}

// The short way to what these three answer, for the common case: the edge of the new node m with the word of the old edge e, which is not `*`. Then it
// is the only opposite one. None says nothing.
#[tactic(auto, using(crate::proofs::Opposites::all))]
pub fn sole_opposite(old: &Program, new: &Program, e: usize, m: usize) -> Option<usize>
    ensures { SoleOpposite old.now.links new.now.links e m (place result) }
{
    match old.word_key(e) {
        STAR => None,
        key => graph::edge_with(new.links, m, key),
    }
}

// Whether the old node n and the new node m are calls.
#[tactic(auto, using(crate::proofs::Laws::calls))]
fn both_call(old: &Program, new: &Program, n: usize, m: usize) -> bool
    ensures { BothCall old.now.nodes new.now.nodes n m result }
{
    old.is_call(n) && new.is_call(m)
}

// ---- a table of pairs

// Whether the entries of the old procedure q and the new procedure p are a pair of the table.
fn entries_paired(old: &Program, new: &Program, w: &[usize], q: usize, p: usize) -> bool
    ensures { Has w.now (get_or old.now.links (proc_base q + 5) 0) (get_or new.now.links (proc_base p + 5) 0) result }
{
    pairset::has(w, old.entry(q), new.entry(p))
}

// Whether their exits are.
pub fn exits_paired(old: &Program, new: &Program, w: &[usize], q: usize, p: usize) -> bool
    ensures { Has w.now (get_or old.now.links (proc_base q + 6) 0) (get_or new.now.links (proc_base p + 6) 0) result }
{
    pairset::has(w, old.exit(q), new.exit(p))
}

// Whether the exits of the procedures that are the digits of k and l, old and new, are one by one pairs of the table.
#[tactic(auto, using(crate::proofs::Walks::exits))]
fn exits_met(old: &Program, new: &Program, w: &[usize], k: usize, l: usize) -> bool
    ensures { ExitsMet old.now.links new.now.links w.now k l result }
{
    let mut others = Callees::of(l);
    for q in Callees::of(k) {
        let p = others.next().unwrap_or(0);
        if !exits_paired(old, new, w, q, p) {
            return false;
        }
    }
    true
}

// Whether the pair of the old node n and the new node m may go on by the pairs of the table: for a call, the exits of all its callees are among them.
#[inline(always)]
#[tactic(auto, using(crate::proofs::Laws::goes))]
pub fn goes_on(old: &Program, new: &Program, w: &[usize], n: usize, m: usize) -> bool
    ensures { GoesOn old.now.nodes old.now.links new.now.nodes new.now.links w.now n m result }
{
    !old.is_call(n) || exits_met(old, new, w, old.callees(n), new.callees(m))
}

// Whether the entries of the procedures that are the first digits of k and l, old and new, are a pair of the table, and those of each later digit, if
// the exits of every one before it are.
#[tactic(auto, using(crate::proofs::Walks::entries))]
fn callees_entered(old: &Program, new: &Program, w: &[usize], k: usize, l: usize) -> bool
    ensures { CalleesEntered old.now.links new.now.links w.now k l result }
{
    let mut others = Callees::of(l);
    for q in Callees::of(k) {
        let p = others.next().unwrap_or(0);
        if !entries_paired(old, new, w, q, p) {
            return false;
        }
        if !exits_paired(old, new, w, q, p) {
            return true;
        }
    }
    true
}

// Whether, where the old node n and the new node m are calls, the entries of their callees are pairs of the table, up to the first whose exits are not.
#[tactic(auto, using(crate::proofs::Laws::goes))]
pub fn entered(old: &Program, new: &Program, w: &[usize], n: usize, m: usize) -> bool
    ensures { Entered old.now.nodes old.now.links new.now.nodes new.now.links w.now n m result }
{
    !both_call(old, new, n, m) || callees_entered(old, new, w, old.callees(n), new.callees(m))
}

// ---- groups of alike nodes of one program

// A hash of the last 4 bytes of a label that are no blanks: which number is left open.
fn ending(label: &[u8]) -> usize
    ensures { result < 512 }
{
    let last = label.iter().rev().filter(|b| **b != b' ').take(4);
    let key = last.fold(0, |key, b| key << 8 | u32::from(*b));
    key as usize % 503
}

// Where the table of groups keeps, behind the 512 nodes, 1 + the latest node that began a group and whose label ends as that of the node x.
fn latest_at(version: &Program, x: usize) -> usize
    ensures { 512 ≤ result }
{
    512 + ending(version.label(x))
}

// Puts the node x into the group of that latest node, where the two are alike, and else into one of its own.
#[tactic(auto, using(crate::proofs::Laws::groups))]
fn group_node(version: &Program, groups: &mut [usize], x: usize)
    requires { x < 512 }
    ensures { Regrouped version.now groups.old groups.new }
{
    let place = latest_at(version, x);
    match text::get(groups, place).checked_sub(1) {
        Some(n) if n < x && alike(version, version, n, x) => text::put(groups, x, n + 1),
        _ => {
            text::put(groups, place, x + 1);
            text::put(groups, x, x + 1);
        }
    }
}

// Puts the nodes of a program into groups, in a table of 1,024 numbers. The line of a node has 6 bytes at least.
#[tactic(auto, using(crate::proofs::Laws::groups))]
pub fn group(version: &Program, groups: &mut [usize])
    ensures { Regrouped version.now groups.old groups.new }
{
    for x in 0..512.min(version.text.len() / 6) {
        group_node(version, groups, x);
    }
}

// Whether the latest partner of the old node a is in the group of the new node b: then a and b are alike.
#[tactic(auto, using(crate::proofs::Laws::knowns))]
pub fn known_alike(w: &[usize], groups: &[usize], a: usize, b: usize) -> bool
    ensures { Known w.now groups.now a b result }
{
    let group = text::get(groups, b);
    match pairset::last_pair(w, a) {
        Some(k) if 0 < group => text::get(groups, pairset::new_of(w, k)) == group,
        _ => false,
    }
}
