// A set of pairs of nodes in one table, to which pairs are added at the end, and a set of old edges. Every public function takes any slice and
// any number: what stands past the end is 0, a store past the end does nothing, and a link leads only downwards.
#![tactic(auto, using(crate::proofs::Laws::reads))]

ghost use Rattle.std.specs.Prelude.{◌≡◌, ◌+◌, ◌*◌, ◌<◌, get_or};
ghost use Rattle.laws.specs.Places.{place};
ghost use Rattle.pairset.specs.Store.{Appended, DangerMarked, Emptied, Has, NextPartner, RowFrom, danger_word, last_pair, new_at, old_at, pair_base, pair_before};

// The number j of the row of the pair k.
fn pair_number(w: &[usize], k: usize, j: usize) -> usize
    requires { j < 3 }
    ensures { result ≡ get_or w.now (pair_base + j + 3 * k) 0 }
{
    if w.len() <= k {
        return 0;
    }
    text::get(w, 4624 + j + 3 * k)
}

// The old node of the pair k.
pub fn old_of(w: &[usize], k: usize) -> usize
    ensures { result ≡ old_at w.now k }
{
    pair_number(w, k, 0)
}

// The new node of the pair k.
pub fn new_of(w: &[usize], k: usize) -> usize
    ensures { result ≡ new_at w.now k }
{
    pair_number(w, k, 1)
}

// The latest pair of the old node a. The table holds 1 + the pair, or 0 for none.
pub fn last_pair(w: &[usize], a: usize) -> Option<usize>
    ensures { place result ≡ last_pair w.now a }
{
    if 512 <= a {
        return None;
    }
    text::get(w, a).checked_sub(1)
}

// The pair before k of the same old node; none too where the link leads past k.
pub fn pair_before(w: &[usize], k: usize) -> Option<usize>
    ensures { place result ≡ pair_before w.now k }
{
    // a test, since `filter` compiles to more
    let place = pair_number(w, k, 2);
    if k < place {
        return None;
    }
    place.checked_sub(1)
}

// Whether (a, b) is one of the pairs, by its bit.
#[tactic(auto, using(crate::proofs::Laws::finds))]
pub fn has(w: &[usize], a: usize, b: usize) -> bool
    ensures { Has w.now a b result }
{
    a < 512 && b < 512 && text::bit_at(w, 64 * (512 + 8 * a) + b)
}

// Makes the table one of no pairs and no dangerous edges. What stands where pairs do stays: it is of no matter.
#[tactic(auto, using(crate::proofs::Laws::clears))]
pub fn empty(w: &mut [usize])
    ensures { Emptied w.old w.new }
{
    if 4624 <= w.len() {
        text::clear(&mut w[..4624]);
    }
}

// Adds the pair (a, b) after c others.
#[tactic(auto, using(crate::proofs::Laws::adds))]
pub fn append(w: &mut [usize], c: usize, a: usize, b: usize)
    ensures { Appended w.old c a b w.new }
{
    if w.len() <= c || 512 <= a || 512 <= b {
        return;
    }
    let before = text::get(w, a);
    text::copy(w, 4624 + 3 * c, &[a, b, before]);
    text::set_bit(w, 64 * (512 + 8 * a) + b);
    text::put(w, a, c + 1);
}

// Puts the old edge e into the set of dangerous edges.
#[tactic(auto, using(crate::proofs::Laws::dangers))]
pub fn mark_danger(w: &mut [usize], e: usize)
    ensures { DangerMarked w.old e w.new }
{
    if e < 1024 {
        text::set_bit(w, 64 * 4608 + e);
    }
}

// The word k of the set of dangerous edges.
pub fn danger_word(w: &[usize], k: usize) -> usize
    ensures { result ≡ danger_word w.now k }
{
    if w.len() <= k {
        return 0;
    }
    text::get(w, 4608 + k)
}

// The word k of the row of a, with the bits from `from` on only.
#[tactic(auto, using(crate::proofs::Laws::rows))]
fn row_from(w: &[usize], a: usize, k: usize, from: usize) -> usize
    requires { (a < 512) × (k < 8) × (from < 64 * k + 64) }
    ensures { RowFrom w.now a k from result }
{
    let word = text::get(w, 512 + 8 * a + k);
    let skip = from.saturating_sub(64 * k);
    word >> skip << skip
}

// The lowest new node from `from` on that is paired with a: goes over the words of the row of a, at most 8.
#[tactic(auto, using(crate::proofs::Laws::nexts))]
pub fn next_partner(w: &[usize], a: usize, from: usize) -> Option<usize>
    ensures { NextPartner w.now a from (place result) }
{
    if 512 <= a {
        return None;
    }
    for k in from / 64..8 {
        let word = row_from(w, a, k, from);
        if word != 0 {
            return Some(64 * k + word.trailing_zeros() as usize);
        }
    }
    None
}
