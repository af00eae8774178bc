// Look-ups in the tables of a program, and the keys of words. Every function takes any slice and any number: what stands past the end of the
// links is 0, and a walk goes on only downwards.
#![tactic(auto, using(crate::proofs::Laws::reads))]

ghost use Rattle.std.specs.Prelude.{◌≡◌, ◌+◌, ◌<◌, get_or, take};
ghost use Rattle.laws.specs.Places.{place};
ghost use Rattle.rules.specs.Text.{same as same_bytes};
ghost use Rattle.graph.specs.Table.{edge_base, head_base, proc_base};
ghost use Rattle.graph.specs.Keys.{word_key};
ghost use Rattle.graph.specs.Reads.{part_at, up_to};
ghost use Rattle.graph.specs.Lookups.{Dashed, Degree, EdgeTaken, EdgeWith, ProcNamed};

// The part of the text whose start stands at i in the table, and its length behind that.
pub fn part_at<'a>(text: &'a [u8], table: &[usize], i: usize) -> &'a [u8]
    ensures { result.now ≡ part_at text.now table.now i }
{
    match table.get(i) {
        Some(start) => text::part(text, *start, text::get(table, i + 1)),
        None => &text[..0],
    }
}

// Whether the part of the text whose place stands at i in the links has these bytes.
fn spells(text: &[u8], links: &[usize], i: usize, bytes: &[u8]) -> bool
    ensures { result ≡ same_bytes (part_at text.now links.now i) bytes.now }
{
    text::same(part_at(text, links, i), bytes)
}

// Whether the procedure q has this name.
fn name_is(text: &[u8], links: &[usize], q: usize, name: &[u8]) -> bool
    ensures { result ≡ same_bytes (part_at text.now links.now (proc_base q)) name.now }
{
    // past the end one part is as another, and 7 q need not fit
    if links.len() <= q {
        return spells(text, links, q, name);
    }
    spells(text, links, 7 * q, name)
}

// The first procedure of this name.
#[tactic(auto, using(crate::proofs::Laws::names))]
pub fn proc_named(text: &[u8], links: &[usize], procs: usize, name: &[u8]) -> Option<usize>
    ensures { ProcNamed text.now links.now procs name.now (place result) }
{
    for q in 0..procs {
        if name_is(text, links, q, name) {
            return Some(q);
        }
    }
    None
}

// The head of the node n's chain: its last edge. The table holds 1 + the edge, or 0 for none.
pub fn head(links: &[usize], n: usize) -> Option<usize>
    ensures { place result ≡ get_or links.now (head_base n) 0 }
{
    if links.len() <= n {
        return None;
    }
    text::get(links, 5568 + n).checked_sub(1)
}

// The number k of the row of the edge e.
fn edge_number(links: &[usize], e: usize, k: usize) -> usize
    requires { k < 5 }
    ensures { result ≡ get_or links.now (edge_base e + k) 0 }
{
    if links.len() <= e {
        return 0;
    }
    text::get(links, 448 + 5 * e + k)
}

// The edge before e of the same node; none too where the links lead past e.
pub fn before(links: &[usize], e: usize) -> Option<usize>
    ensures { place result ≡ up_to e (get_or links.now (edge_base e + 4) 0) }
{
    // a test, since `filter` compiles to more, and every walk along edges comes by here
    let place = edge_number(links, e, 4);
    if e < place {
        return None;
    }
    place.checked_sub(1)
}

// The key of the word of the edge e.
pub fn word_key(links: &[usize], e: usize) -> usize
    ensures { result ≡ get_or links.now (edge_base e + 2) 0 }
{
    edge_number(links, e, 2)
}

// The edge of the node n with the word of this key.
#[tactic(auto, using(crate::proofs::Laws::takes))]
pub fn edge_with(links: &[usize], n: usize, key: usize) -> Option<usize>
    ensures { EdgeWith links.now n key (place result) }
{
    let mut place = head(links, n);
    while let Some(e) = place {
        if word_key(links, e) == key {
            return place;
        }
        place = before(links, e);
    }
    None
}

// The edge that the node n takes for the word of this key: the one with that word, or else the one with the word `*`, whose key is 42. Walks along
// opposite edges come by here for each edge, so it is put into them.
#[inline(always)]
#[tactic(auto, using(crate::proofs::Laws::takes))]
pub fn edge_taken(links: &[usize], n: usize, key: usize) -> Option<usize>
    ensures { EdgeTaken links.now n key (place result) }
{
    edge_with(links, n, key).or_else(|| edge_with(links, n, 42))
}

// How many edges leave the node n.
#[tactic(auto, using(crate::proofs::Laws::degrees))]
pub fn degree(links: &[usize], n: usize) -> usize
    ensures { Degree links.now n result }
{
    let mut r = 0;
    let mut place = head(links, n);
    while let Some(e) = place {
        r += 1;
        place = before(links, e);
    }
    r
}

// Whether every edge that leaves the node n has the word `-`, whose key is 45.
#[tactic(auto, using(crate::proofs::Laws::dashes))]
pub fn dashed(links: &[usize], n: usize) -> bool
    ensures { Dashed links.now n result }
{
    let mut next = head(links, n);
    while let Some(e) = next {
        if word_key(links, e) != 45 {
            return false;
        }
        next = before(links, e);
    }
    true
}

// The key of a word: of its first 8 bytes, where it has more.
#[tactic(auto, using(crate::proofs::Laws::keys))]
pub fn key(word: &[u8]) -> usize
    ensures { result ≡ word_key (take 8 word.now) }
{
    let s = text::front(word, 8);
    let mut k = 0;
    for b in s.iter().rev() {
        k = k * 256 + *b as usize;
    }
    k
}
