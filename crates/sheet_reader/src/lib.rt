// Sheets, read for the check: the pairs go into a table of pairs, the D edges and the R tests into a set of bits.
#![tactic(auto, using(crate::proofs::All::all))]

ghost use Rattle.std.specs.Prelude.{◌≡◌, ◌∷◌, [], ◌≤◌, ◌+◌, ◌*◌, length};
ghost use Rattle.laws.specs.Places.{place};
ghost use Rattle.rules.specs.Text.{split};
ghost use Rattle.pairset.specs.Store.{pair_base};
ghost use Rattle.sheet_reader.specs.Claims.{Reads};
ghost use Rattle.sheet_reader.specs.Reading.{
  AddedEdge,
  AddedEnd,
  AddedPair,
  AddedTest,
  Bounded,
  Field,
  Finishes,
  Lines,
  Opened,
  Small,
  Stepped,
  edge_fits,
  end_fits,
  malformed,
  nothing_read,
  pair_fits,
  test_from,
  underway as is_underway,
  wrong,
};

use answer::{Fault, Refusal};
use suite::Suite;

// What a sheet may list: at most `limit` pairs, of so many old and new nodes, and of so many old edges.
#[derive(Clone, Copy)]
pub struct Bounds {
    pub limit: usize,
    pub olds: usize,
    pub news: usize,
    pub edges: usize,
}

// Before the first line, between it and the last, and after the last.
#[derive(Clone, Copy, Debug, PartialEq, Eq)]
pub enum Stage {
    Before,
    Listing,
    Ended,
}

// What was read so far: how many pairs, edges and tests there are, and of each the least number that may come next, where the pair (a, b)
// counts as 512 * a + b.
#[derive(Clone, Copy)]
pub struct State {
    pub stage: Stage,
    pub pairs: usize,
    pub edges: usize,
    pub tests: usize,
    pub pair: usize,
    pub edge: usize,
    pub test: usize,
}

// ---- refusals of the line n

fn malformed(n: usize) -> Refusal
    ensures { result ≡ malformed n }
{
    Refusal {
        fault: Fault::LineMalformed,
        place: n,
    }
}

fn wrong(n: usize) -> Refusal
    ensures { result ≡ wrong n }
{
    Refusal {
        fault: Fault::SheetWrong,
        place: n,
    }
}

// ---- names

// The first test, from the test k on, that has the name.
fn test_from(suite: &Suite, k: usize, name: &[u8]) -> Option<usize>
    requires { suite.now.count ≤ 200 }
    ensures { place result ≡ test_from suite.now.text suite.now.names k suite.now.count name.now }
{
    for i in k..suite.count() {
        if text::same(suite.name(i), name) {
            return Some(i);
        }
    }
    None
}

// ---- what was read

// Before the first line.
fn nothing_read() -> State
    ensures { result ≡ nothing_read }
{
    State {
        stage: Stage::Before,
        pairs: 0,
        edges: 0,
        tests: 0,
        pair: 0,
        edge: 0,
        test: 0,
    }
}

// Whether the first line was read, and the last was not.
fn underway(had: State) -> bool
    ensures { result ≡ is_underway had }
{
    matches!(had.stage, Stage::Listing)
}

// ---- a line, by its fields

// The number that a field of the line n holds.
fn field(s: &[u8], n: usize) -> Result<usize, Refusal>
    ensures { Field n s.now result }
{
    text::number(s).ok_or(malformed(n))
}

// The first line.
fn open(n: usize, had: State) -> Result<State, Refusal>
    requires { Small had }
    ensures { Opened n had result }
{
    match had.stage {
        Stage::Before => Ok(State {
            stage: Stage::Listing,
            ..had
        }),
        Stage::Listing | Stage::Ended => Err(wrong(n)),
    }
}

// Whether the pair (a, b) may come next.
fn pair_fits(bounds: Bounds, a: usize, b: usize, had: State) -> bool
    requires { Bounded bounds }
    ensures { result ≡ pair_fits bounds.olds bounds.news a b had }
{
    underway(had)
        && had.edges == 0
        && had.tests == 0
        && a < bounds.olds
        && b < bounds.news
        && had.pair <= 512 * a + b
}

// An M line of the fields a and b. What the table holds after a refusal is left open.
fn add_pair(
    bounds: Bounds,
    n: usize,
    a: &[u8],
    b: &[u8],
    had: State,
    w: &mut [usize],
) -> Result<State, Refusal>
    requires small { Small had }
    requires bounded { Bounded bounds }
    requires limit_in_bounds { pair_base + 3 * bounds.limit ≤ length w.old }
    ensures { AddedPair bounds n (a.now ∷ (b.now ∷ [])) had w.old result w.new }
{
    let i = field(a, n)?;
    let j = field(b, n)?;
    if bounds.limit <= had.pairs {
        return Err(Refusal {
            fault: Fault::TooManyLines,
            place: n,
        });
    }
    if !pair_fits(bounds, i, j, had) {
        return Err(wrong(n));
    }
    pairset::append(w, had.pairs, i, j);
    Ok(State {
        pairs: had.pairs + 1,
        pair: 512 * i + j + 1,
        ..had
    })
}

// An M line, by what stands behind its first comma. A number has no comma, so the second field is all that stands behind the next one. What
// the table holds after a refusal is left open.
fn pair_line(
    bounds: Bounds,
    n: usize,
    rest: &[u8],
    had: State,
    w: &mut [usize],
) -> Result<State, Refusal>
    requires small { Small had }
    requires bounded { Bounded bounds }
    requires limit_in_bounds { pair_base + 3 * bounds.limit ≤ length w.old }
    ensures { AddedPair bounds n (split 44 rest.now) had w.old result w.new }
{
    let a = text::first_short(rest, b',');
    if rest.len() <= a.len() {
        return Err(malformed(n));
    }
    let b = text::after(rest, a.len() + 1);
    add_pair(bounds, n, a, b, had, w)
}

// Whether the edge e may come next, where there are so many old edges.
fn edge_fits(edges: usize, e: usize, had: State) -> bool
    ensures { result ≡ edge_fits edges e had }
{
    underway(had) && had.tests == 0 && e < edges && had.edge <= e
}

// A D line of the field e. What the set holds after a refusal is left open.
fn add_edge(
    edges: usize,
    n: usize,
    e: &[u8],
    had: State,
    sets: &mut [u64],
) -> Result<State, Refusal>
    requires small { Small had }
    requires edges_bound { (edges ≤ 1024) × (20 ≤ length sets.old) }
    ensures { AddedEdge edges n (e.now ∷ []) had sets.old result sets.new }
{
    let i = field(e, n)?;
    if !edge_fits(edges, i, had) {
        return Err(wrong(n));
    }
    coverage::set_bit(sets, i);
    Ok(State {
        edges: had.edges + 1,
        edge: i + 1,
        ..had
    })
}

// An R line of the field `name`. The tests come in order, so the name is sought from the least that may come next. What the set holds after a
// refusal is left open.
fn add_test(
    suite: &Suite,
    n: usize,
    name: &[u8],
    had: State,
    sets: &mut [u64],
) -> Result<State, Refusal>
    requires small { Small had }
    requires count_bound { (suite.now.count ≤ 200) × (20 ≤ length sets.old) }
    ensures { AddedTest suite.now.text suite.now.names suite.now.count n (name.now ∷ []) had sets.old result sets.new }
{
    if !text::is_name(name) {
        return Err(malformed(n));
    }
    let Some(i) = test_from(suite, had.test, name) else {
        return Err(wrong(n));
    };
    if !underway(had) {
        return Err(wrong(n));
    }
    coverage::set_bit(sets, 1024 + i);
    Ok(State {
        tests: had.tests + 1,
        test: i + 1,
        ..had
    })
}

// Whether the last line may come next, with these counts.
fn end_fits(a: usize, b: usize, d: usize, had: State) -> bool
    ensures { result ≡ end_fits a b d had }
{
    underway(had) && a == had.pairs && b == had.edges && d == had.tests
}

// The last line, of the fields a, b and d.
fn end(n: usize, a: &[u8], b: &[u8], d: &[u8], had: State) -> Result<State, Refusal>
    requires { Small had }
    ensures { AddedEnd n (a.now ∷ (b.now ∷ (d.now ∷ []))) had result }
{
    let i = field(a, n)?;
    let j = field(b, n)?;
    let k = field(d, n)?;
    if !end_fits(i, j, k, had) {
        return Err(wrong(n));
    }
    Ok(State {
        stage: Stage::Ended,
        ..had
    })
}

// The same, by what stands behind its first comma.
fn end_line(n: usize, rest: &[u8], had: State) -> Result<State, Refusal>
    requires { Small had }
    ensures { AddedEnd n (split 44 rest.now) had result }
{
    let a = text::first_short(rest, b',');
    if rest.len() <= a.len() {
        return Err(malformed(n));
    }
    let more = text::after(rest, a.len() + 1);
    let b = text::first_short(more, b',');
    if more.len() <= b.len() {
        return Err(malformed(n));
    }
    let d = text::after(more, b.len() + 1);
    end(n, a, b, d, had)
}

// Takes a line, numbered n, by its first bytes. A field is handed on as the part of the line that holds it. What the tables hold after a
// refusal is left open.
fn step(
    bounds: Bounds,
    suite: &Suite,
    n: usize,
    line: &[u8],
    had: State,
    w: &mut [usize],
    sets: &mut [u64],
) -> Result<State, Refusal>
    requires small { Small had }
    requires bounded { Bounded bounds }
    requires limit_in_bounds { (suite.now.count ≤ 200) × (pair_base + 3 * bounds.limit ≤ length w.old) × (20 ≤ length sets.old) }
    ensures { Stepped bounds suite.now n line.now had w.old sets.old result w.new sets.new }
{
    let f = text::front(line, 2);
    if text::same(f, b"M,") {
        pair_line(bounds, n, text::after(line, 2), had, w)
    } else if text::same(f, b"D,") {
        add_edge(bounds.edges, n, text::after(line, 2), had, sets)
    } else if text::same(f, b"R,") {
        add_test(suite, n, text::after(line, 2), had, sets)
    } else if text::same(text::front(line, 4), b"end,") {
        end_line(n, text::after(line, 4), had)
    } else if text::same(line, &text::SHEET_HEAD) {
        open(n, had)
    } else {
        Err(malformed(n))
    }
}

// ---- a text

// How many pairs were read, where the line n is one past the last.
fn finish(n: usize, had: State) -> Result<usize, Refusal>
    requires { Small had }
    ensures { Finishes n had result }
{
    match had.stage {
        Stage::Ended => Ok(had.pairs),
        Stage::Before | Stage::Listing => Err(wrong(n)),
    }
}

// Reads the lines of a sheet into tables that hold nothing. What the tables hold after a refusal is left open.
fn read_lines(
    bounds: Bounds,
    sheet: &[u8],
    suite: &Suite,
    w: &mut [usize],
    sets: &mut [u64],
) -> Result<usize, Refusal>
    requires bounded { Bounded bounds }
    requires sheet_len_bound { (length sheet.now ≤ 65536) × (suite.now.count ≤ 200) × (pair_base + 3 * bounds.limit ≤ length w.old) × (20 ≤ length sets.old) }
    ensures { Lines bounds suite.now sheet.now w.old sets.old result w.new sets.new }
{
    let mut at = 0;
    let mut n = 1;
    let mut had = nothing_read();
    while at < sheet.len() {
        let rest = text::after(sheet, at);
        let len = text::find_short(rest, b'\n');
        if rest.len() <= len {
            return Err(malformed(n));
        }
        let line = text::front(rest, len);
        had = step(bounds, suite, n, line, had, w, sets)?;
        at = at + len + 1;
        n += 1;
    }
    finish(n, had)
}

// Reads a sheet within the bounds, for the tests of a suite: how many pairs it lists. What the tables hold after a refusal is left open.
pub fn read_sheet(
    bounds: Bounds,
    sheet: &[u8],
    suite: &Suite,
    w: &mut [usize],
    sets: &mut [u64],
) -> Result<usize, Refusal>
    requires bounded { Bounded bounds }
    requires room { (suite.now.count ≤ 200) × (pair_base + 3 * bounds.limit ≤ length w.old) × (20 ≤ length sets.old) }
    ensures { Reads bounds.limit bounds.olds bounds.news bounds.edges suite.now.text suite.now.names suite.now.count sheet.now result w.new sets.new }
{
    if 65536 < sheet.len() {
        return Err(Refusal {
            fault: Fault::TextTooLong,
            place: 0,
        });
    }
    pairset::empty(w);
    sets.fill(0);
    read_lines(bounds, sheet, suite, w, sets)
}
