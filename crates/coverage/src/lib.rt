// Coverage in memory: the row of a test as words of 64 bits, lowest edge first. Which edges it has, how many, and the lowest dangerous one.
#![tactic(auto, using(crate::proofs::Laws::all))]

ghost use Rattle.std.specs.Prelude.{◌≡◌, ◌≤◌, get_or};
ghost use Rattle.std.specs.Int.Bits.{bit_and};
ghost use Rattle.laws.specs.Bits.{bit_in};
ghost use Rattle.laws.specs.BitSets.{with_bit, without_bit};
ghost use Rattle.coverage.specs.Rows.{edge_bit, edge_found, first_common, row_meets, row_ones};

// ---- words

// The word at i, or 0 past the end.
fn word_at(rows: &[u64], i: usize) -> u64
    ensures { result ≡ get_or rows.now i 0 }
{
    rows.get(i).copied().unwrap_or(0)
}

// ---- what the row of a test says

// Whether the test covers the edge e.
pub fn covers(rows: &[u64], test: usize, e: usize) -> bool
    requires { test ≤ 200 }
    ensures { result ≡ edge_bit rows.now test e }
{
    (word_at(rows, 16 * test + e / 64) >> (e % 64)) % 2 == 1
}

// Whether the set has the bit i.
pub fn in_set(set: &[u64], i: usize) -> bool
    ensures { result ≡ bit_in set.now i }
{
    covers(set, 0, i)
}

// Adds the bit i to the set; past its end, nothing.
pub fn set_bit(set: &mut [u64], i: usize)
    ensures { set.new ≡ with_bit set.old i }
{
    let k = i / 64;
    let bit: u64 = 1 << (i % 64);
    if k < set.len() {
        set[k] |= bit;
    }
}

// Takes the bit i out of the set; past its end, nothing.
pub fn clear_bit(set: &mut [u64], i: usize)
    ensures { set.new ≡ without_bit set.old i }
{
    let k = i / 64;
    let bit: u64 = 1 << (i % 64);
    if k < set.len() {
        set[k] = (set[k] | bit) ^ bit;
    }
}

// How many edges the test covers.
pub fn ones(rows: &[u64], test: usize) -> usize
    requires { test ≤ 200 }
    ensures { result ≡ row_ones rows.now test }
{
    let mut sum = 0;
    for k in 0..16 {
        sum += word_at(rows, 16 * test + k).count_ones() as usize;
    }
    sum
}

// ---- the search for a dangerous edge

// What the words of a row and of a set at a place have in common: nothing where one of them ends before it.
fn common_word(row: &[u64], set: &[u64], at: usize) -> u64
    ensures { result ≡ bit_and (get_or row.now at 0) (get_or set.now at 0) }
{
    if at < row.len() && at < set.len() {
        row[at] & set[at]
    } else {
        0
    }
}

// The lowest edge that the row and the set both have, or that there is none: the lowest bit of the first word, of 16, in which they have one in
// common.
pub fn first_danger(row: &[u64], dangers: &[u64]) -> Option<usize>
    ensures { edge_found result ≡ first_common row.now dangers.now }
{
    for at in 0..16 {
        let w = common_word(row, dangers, at);
        if w != 0 {
            return Some(64 * at + w.trailing_zeros() as usize);
        }
    }
    None
}

// Whether the test covers an edge of the set: the search finds one.
pub fn row_meets(rows: &[u64], test: usize, set: &[u64]) -> bool
    requires { test ≤ 200 }
    ensures { result ≡ row_meets rows.now set.now test }
{
    first_danger(text::part(rows, 16 * test, 16), set).is_some()
}
