// What the pairs of two versions say: the set of the dangerous old edges, and the marks of a test.
#![tactic(auto, using(crate::proofs::All::all))]

ghost use Rattle.std.specs.Prelude.{◌≡◌, ◌≤◌, replicate, set};
ghost use Rattle.std.proofs.lemmas.List.Edits.{sets};
ghost use Rattle.laws.specs.Places.{place};
ghost use Rattle.selection.specs.Compared.{EndsMeet, Fitting, Joins, JoinsBefore, LastFitting, is_met};
ghost use Rattle.selection.specs.Dangers.{DangersCopied};
ghost use Rattle.selection.specs.Marks.{AllCarried, AllOpened, AllRaised, Carried, MarksFound, Only, Opened, RaisedAt, Sees, SetOpened, raised, united};

use versions::Program;

// ---- an old edge at a pair

// How the ends of two opposite edges stand: they are alike, so that the edges are joined, or they are not, so that the edges part.
#[derive(Clone, Copy, Debug, PartialEq, Eq)]
pub enum Ends {
    Met,
    Parted,
}

// Whether the ends of the old edge e and the new edge f stand so: they are a pair just where they are alike.
fn ends_meet(old: &Program, new: &Program, w: &[usize], e: usize, f: usize, ends: Ends) -> bool
    ensures { EndsMeet old.now.links new.now.links w.now e f (is_met ends) result }
{
    let paired = pairset::has(w, old.target(e), new.target(f));
    match ends {
        Ends::Met => paired,
        Ends::Parted => !paired,
    }
}

// The first edge from the place down, among the edges opposite to the old edge e, with such ends; where the nodes that they leave are a pair that may go
// on: then the ends are alike just where they are a pair. This and the next three are put into the walks over partners: what does not change along
// them is then read once.
#[inline(always)]
fn fitting(
    old: &Program,
    new: &Program,
    w: &[usize],
    e: usize,
    from: Option<usize>,
    ends: Ends,
) -> Option<usize>
    ensures { Fitting old.now.links new.now.links w.now e (place from) (is_met ends) (place result) }
{
    let mut place = from;
    while let Some(f) = place {
        if ends_meet(old, new, w, e, f, ends) {
            return place;
        }
        place = versions::opposite_before(old, new, e, f);
    }
    None
}

// The last such edge of the new node m.
#[inline(always)]
fn last_fitting(
    old: &Program,
    new: &Program,
    w: &[usize],
    e: usize,
    m: usize,
    ends: Ends,
) -> Option<usize>
    ensures { LastFitting old.now.links new.now.links w.now e m (is_met ends) (place result) }
{
    let last = versions::last_opposite(old, new, e, m);
    fitting(old, new, w, e, last, ends)
}

// For the pair of n, which the old edge e leaves, and m: the last edge of m that is joined with e, or that parts from it, as `ends` says. For tables that
// do not hold two programs and their pairs it is left open.
#[inline(always)]
pub fn joins(
    old: &Program,
    new: &Program,
    w: &[usize],
    e: usize,
    n: usize,
    m: usize,
    ends: Ends,
) -> Option<usize>
    ensures { Joins old.now.nodes old.now.links new.now.nodes new.now.links w.now e n m (is_met ends) (place result) }
{
    if versions::goes_on(old, new, w, n, m) {
        last_fitting(old, new, w, e, m, ends)
    } else {
        None
    }
}

// The one before f, which is such an edge.
#[inline(always)]
pub fn joins_before(
    old: &Program,
    new: &Program,
    w: &[usize],
    e: usize,
    f: usize,
    ends: Ends,
) -> Option<usize>
    ensures { JoinsBefore old.now.links new.now.links w.now e f (is_met ends) (place result) }
{
    if versions::is_star(old, e) {
        let before = versions::opposite_before(old, new, e, f);
        fitting(old, new, w, e, before, ends)
    } else {
        None
    }
}

// ---- dangerous edges

// Makes the set that of the dangerous edges in the table of the pairs. For a table that does not hold them the set is left open.
pub fn copy_dangers(w: &[usize], set: &mut [u64])
    ensures { DangersCopied w.now set.old set.new }
{
    for k in 0..set.len().min(16) {
        set[k] = pairset::danger_word(w, k) as u64;
    }
}

// ---- counterparts

// What is seen of the counterparts of an old edge.
#[derive(Clone, Copy)]
enum Seen {
    Nothing,
    One(usize),
    Several,
}

// What is seen with the edge f.
fn unite(seen: Seen, f: usize) -> Seen
    ensures { result ≡ united seen f }
{
    match seen {
        Seen::Nothing => Seen::One(f),
        Seen::One(g) => if g == f { seen } else { Seen::Several },
        Seen::Several => seen,
    }
}

// What is seen with the counterparts of the old edge e at the pair of n and m. The walk along edges and pairs stands in each function that goes it: what
// it changes, a value, marks or a set, is of another type in each, and its steps are proved once (proofs/Hits).
fn see(
    old: &Program,
    new: &Program,
    w: &[usize],
    e: usize,
    n: usize,
    m: usize,
    before: Seen,
) -> Seen
    ensures { Sees old.now.nodes old.now.links new.now.nodes new.now.links w.now e n m before result }
{
    let mut seen = before;
    let mut place = joins(old, new, w, e, n, m, Ends::Met);
    while let Some(f) = place {
        seen = unite(seen, f);
        place = joins_before(old, new, w, e, f, Ends::Met);
    }
    seen
}

// The only counterpart of the old edge e, where it has just one.
fn only_counterpart(old: &Program, new: &Program, w: &[usize], e: usize) -> Option<usize>
    ensures { Only old.now.nodes old.now.links new.now.nodes new.now.links w.now e (place result) }
{
    let n = old.source(e);
    let mut seen = Seen::Nothing;
    let mut place = pairset::last_pair(w, n);
    while let Some(k) = place {
        seen = see(old, new, w, e, n, pairset::new_of(w, k), seen);
        place = pairset::pair_before(w, k);
    }
    match seen {
        Seen::One(f) => Some(f),
        _ => None,
    }
}

// ---- marks

// Makes the mark of the edge x a `?` where it is not above `most`: `0` for `0` alone, `1` for both; past the end, nothing. Marks are bytes, as a record
// line shows them.
fn raise(marks: &mut [u8], x: usize, most: u8)
    ensures { marks.new ≡ raised marks.old x most }
{
    if x < marks.len() && marks[x] <= most {
        marks[x] = b'?';
    }
}

// Makes each mark, not above `most`, of a counterpart of the old edge e at the pair of n and m a `?`.
fn raise_at(
    old: &Program,
    new: &Program,
    w: &[usize],
    e: usize,
    n: usize,
    m: usize,
    most: u8,
    marks: &mut [u8],
)
    ensures { RaisedAt old.now.nodes old.now.links new.now.nodes new.now.links w.now e n m most marks.old marks.new }
{
    let mut place = joins(old, new, w, e, n, m, Ends::Met);
    while let Some(f) = place {
        raise(marks, f, most);
        place = joins_before(old, new, w, e, f, Ends::Met);
    }
}

// The same at every pair.
fn raise_all(old: &Program, new: &Program, w: &[usize], e: usize, most: u8, marks: &mut [u8])
    ensures { AllRaised old.now.nodes old.now.links new.now.nodes new.now.links w.now e most marks.old marks.new }
{
    let n = old.source(e);
    let mut place = pairset::last_pair(w, n);
    while let Some(k) = place {
        raise_at(old, new, w, e, n, pairset::new_of(w, k), most, marks);
        place = pairset::pair_before(w, k);
    }
}

// Makes the mark of the edge x a `1`; past the end, nothing.
fn mark_one(marks: &mut [u8], x: usize)
    ensures { marks.new ≡ set marks.old x 49 }
{
    if x < marks.len() {
        marks[x] = b'1';
    }
}

// Marks the counterparts of the old edge e, if the test covers it: its only one with `1`, several with `?` where they have `0`.
fn carry(
    old: &Program,
    new: &Program,
    w: &[usize],
    rows: &[u64],
    test: usize,
    e: usize,
    marks: &mut [u8],
)
    requires { test ≤ 200 }
    ensures { Carried old.now.nodes old.now.links new.now.nodes new.now.links w.now rows.now test e marks.old marks.new }
{
    if coverage::covers(rows, test, e) {
        match only_counterpart(old, new, w, e) {
            Some(f) => mark_one(marks, f),
            None => raise_all(old, new, w, e, b'0', marks),
        }
    }
}

// Carries the test over every old edge.
fn carry_all(
    old: &Program,
    new: &Program,
    w: &[usize],
    rows: &[u64],
    test: usize,
    edges: usize,
    marks: &mut [u8],
)
    requires { test ≤ 200 }
    ensures { AllCarried old.now.nodes old.now.links new.now.nodes new.now.links w.now rows.now test edges edges marks.old marks.new }
{
    for e in 0..edges {
        carry(old, new, w, rows, test, e, marks);
    }
}

// Marks the counterparts of the old edge e with `?`, if the test covers it and it lies after a danger.
fn open_edge(
    old: &Program,
    new: &Program,
    w: &[usize],
    rows: &[u64],
    test: usize,
    after: &[u64],
    e: usize,
    marks: &mut [u8],
)
    requires { test ≤ 200 }
    ensures { Opened old.now.nodes old.now.links new.now.nodes new.now.links w.now rows.now test after.now e marks.old marks.new }
{
    if coverage::covers(rows, test, e) && coverage::in_set(after, e) {
        raise_all(old, new, w, e, b'1', marks);
    }
}

// The same for every old edge.
fn open_all(
    old: &Program,
    new: &Program,
    w: &[usize],
    rows: &[u64],
    test: usize,
    after: &[u64],
    edges: usize,
    marks: &mut [u8],
)
    requires { test ≤ 200 }
    ensures { AllOpened old.now.nodes old.now.links new.now.nodes new.now.links w.now rows.now test after.now edges edges marks.old marks.new }
{
    for e in 0..edges {
        open_edge(old, new, w, rows, test, after, e, marks);
    }
}

// Marks the edges of the set, of the first n, with `?`, as far as the slice goes.
fn open_set(marks: &mut [u8], n: usize, set: &[u64])
    ensures { SetOpened set.now n marks.old marks.new }
{
    for f in 0..n.min(marks.len()) {
        if coverage::in_set(set, f) {
            marks[f] = b'?';
        }
    }
}

// Puts the byte b at the first n places, as far as the slice goes.
fn fill(marks: &mut [u8], n: usize, b: u8)
    ensures { marks.new ≡ sets marks.old 0 (replicate n b) }
{
    let end = n.min(marks.len());
    marks[..end].fill(b);
}

// Finds the marks of a test, where the versions have so many edges. If it is repeated, the new edges that have a probe, and the counterparts of covered
// edges after a danger, get an open mark, `?`. For tables that do not hold two programs, their pairs, the test's row and, if it
// is repeated, these two sets the marks are left open.
pub fn find_marks(
    old: &Program,
    new: &Program,
    w: &[usize],
    rows: &[u64],
    test: usize,
    old_edges: usize,
    new_edges: usize,
    again: bool,
    probes: &[u64],
    after: &[u64],
    marks: &mut [u8],
)
    requires { test ≤ 200 }
    ensures { MarksFound old.now.nodes old.now.links new.now.nodes new.now.links w.now rows.now test old_edges new_edges again probes.now after.now marks.old marks.new }
{
    fill(marks, new_edges, b'0');
    carry_all(old, new, w, rows, test, old_edges, marks);
    if again {
        open_all(old, new, w, rows, test, after, old_edges, marks);
        open_set(marks, new_edges, probes);
    }
}
