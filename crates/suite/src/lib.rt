// Test files, `T,name,row` lines, read into two tables: where each name stands in the text, and the rows as words of 64 bits.
#![tactic(auto, using(crate::proofs::All::all))]

ghost use Rattle.std.specs.Prelude.{◌≡◌, true, ◌+◌, ◌*◌, ◌/◌, ◌%◌, ◌≤◌, ◌<◌, drop, length, set as set_at, take};
ghost use Rattle.laws.specs.Digits.{itself, number};
ghost use Rattle.laws.specs.Bits.{word_of};
ghost use Rattle.laws.specs.BitSets.{with_bit};
ghost use Rattle.rules.specs.Text.{all_bytes};
ghost use Rattle.rules.specs.SuiteFile.{bits_of, hex_byte, hex_value, none_set, row_fine};
ghost use Rattle.text.specs.Hash.{hash_of};
ghost use Rattle.suite.specs.Reading.{Added, LinesRead, Stepped, TestsRead, begins_test, comma_in, name_at, name_in, name_met};
ghost use Rattle.suite.specs.Reads.{read_of};
ghost use Rattle.suite.specs.Tables.{Tests, stored_row, stored_test, tests, turn};
ghost use Rattle.coverage.specs.Rows.{edge_bit, row_meets, row_ones};

use answer::{Fault, Refusal};
use std::marker::Model;
use text::Class;

// The tests of a suite: the text with their names, where each name stands in it, and their rows.
#[derive(Drop)]
pub struct Suite<'t, 'a> {
    text: &'t [u8],
    names: &'a [usize],
    rows: &'a [u64],
    count: usize,
}

impl<'t, 'a> Model for Suite<'t, 'a> {
    ghost Value = { Tests };

    ghost view = { λ s. tests s.text.now s.names.now s.rows.now s.count };
}

impl<'t, 'a> Suite<'t, 'a> {
    pub fn new(text: &'t [u8], names: &'a [usize], rows: &'a [u64], count: usize) -> Suite<'t, 'a>
        ensures { result ≡ tests text.now names.now rows.now count }
    {
        Suite {
            text,
            names,
            rows,
            count,
        }
    }

    // The text with the names.
    pub fn text(&self) -> &'t [u8]
        ensures { result.now ≡ self.now.text }
    {
        self.text
    }

    // Two numbers a test: where its name stands, and how long it is.
    pub fn names(&self) -> &'a [usize]
        ensures { result.now ≡ self.now.names }
    {
        self.names
    }

    // 16 words a test: its row.
    pub fn rows(&self) -> &'a [u64]
        ensures { result.now ≡ self.now.rows }
    {
        self.rows
    }

    // How many tests there are.
    pub fn count(&self) -> usize
        ensures { result ≡ self.now.count }
    {
        self.count
    }

    // The name of the test i.
    pub fn name(&self, i: usize) -> &'t [u8]
        requires { i ≤ 200 }
        ensures { result.now ≡ name_at self.now.text self.now.names i }
    {
        name_at(self.text, self.names, i)
    }

    // Whether the test i covers the edge e.
    pub fn covers(&self, i: usize, e: usize) -> bool
        requires { i ≤ 200 }
        ensures { result ≡ edge_bit self.now.rows i e }
    {
        coverage::covers(self.rows, i, e)
    }

    // How many edges the test i covers.
    pub fn ones(&self, i: usize) -> usize
        requires { i ≤ 200 }
        ensures { result ≡ row_ones self.now.rows i }
    {
        coverage::ones(self.rows, i)
    }

    // Whether the test i covers an edge of the set.
    pub fn meets(&self, i: usize, set: &[u64]) -> bool
        requires { i ≤ 200 }
        ensures { result ≡ row_meets self.now.rows set.now i }
    {
        coverage::row_meets(self.rows, i, set)
    }
}

// ---- words and bits

// Puts the word w at i; past the end, nothing.
fn put_word(rows: &mut [u64], i: usize, w: u64)
    ensures { rows.new ≡ set_at rows.old i w }
{
    if i < rows.len() {
        rows[i] = w;
    }
}

// The number of eight digits to the base 16, the first lowest: their values in a byte each, then two, four and all of them together.
fn eight(digits: [u8; 8]) -> u64
    requires { all_bytes hex_byte digits ≡ true }
    ensures { result ≡ number 16 hex_value digits }
{
    let x = u64::from_le_bytes(digits);
    let one = (x & 0x0f0f0f0f0f0f0f0f) + 9 * ((x & 0x4040404040404040) / 64);
    let two = (one & 0x000f000f000f000f) + (one & 0x0f000f000f000f00) / 16;
    let four = (two & 0x000000ff000000ff) + (two & 0x00ff000000ff0000) / 256;
    four % 65536 + four / 65536
}

// The number of the eight digits from i on.
fn eight_at(s: &[u8], i: usize) -> u64
    requires { (i ≤ 8) × (length s.now ≡ 16) × (all_bytes hex_byte s.now ≡ true) }
    ensures { result ≡ number 16 hex_value (take 8 (drop i s.now)) }
{
    eight([
        s[i],
        s[i + 1],
        s[i + 2],
        s[i + 3],
        s[i + 4],
        s[i + 5],
        s[i + 6],
        s[i + 7],
    ])
}

// The value of a digit.
fn value(x: u8) -> u64
    requires { hex_byte x ≡ true }
    ensures { result ≡ hex_value x }
{
    (x % 16 + 9 * (x / 64)) as u64
}

// The number of at most 16 digits to the base 16, one at a time from the last.
fn few(s: &[u8]) -> u64
    requires { (length s.now ≤ 16) × (all_bytes hex_byte s.now ≡ true) }
    ensures { result ≡ number 16 hex_value s.now }
{
    let mut w: u64 = 0;
    for i in (0..s.len()).rev() {
        w = w * 16 + value(s[i]);
    }
    w
}

// The number with the four bits of each digit to the base 16 turned round: a digit of a row has its highest bit first.
fn turned(w: u64) -> u64
    ensures { result ≡ turn w }
{
    (w & 0x1111111111111111) * 8
        + (w & 0x2222222222222222) * 2
        + (w & 0x4444444444444444) / 2
        + (w & 0x8888888888888888) / 8
}

// The word of at most 16 digits: where there are 16, eight at a time.
fn pack(s: &[u8]) -> u64
    requires { (length s.now ≤ 16) × (all_bytes hex_byte s.now ≡ true) }
    ensures { result ≡ word_of (bits_of s.now) }
{
    if s.len() == 16 {
        turned(eight_at(s, 8) * 4294967296 + eight_at(s, 0))
    } else {
        turned(few(s))
    }
}

// Makes the row of a test that of the digits.
fn store_row(rows: &mut [u64], test: usize, row: &[u8])
    requires { (test ≤ 200) × (all_bytes hex_byte row.now ≡ true) }
    ensures { rows.new ≡ stored_row rows.old test row.now }
{
    for k in 0..16 {
        let w = pack(text::part(row, 16 * k, 16));
        put_word(rows, 16 * test + k, w);
    }
}

// ---- a line

// Whether the line begins with `T`, a comma, a name and a comma.
fn begins_test(line: &[u8]) -> bool
    ensures { result ≡ begins_test line.now }
{
    if !text::same(text::first_short(line, b','), b"T") {
        return false;
    }
    let rest = text::after(line, 2);
    let name = text::first_short(rest, b',');
    text::is_name(name) && name.len() < rest.len()
}

// The name of the test i.
fn name_at<'a>(text: &'a [u8], tests: &[usize], i: usize) -> &'a [u8]
    requires { i ≤ 200 }
    ensures { result.now ≡ name_at text.now tests.now i }
{
    let start = text::get(tests, 2 * i);
    let len = text::get(tests, 2 * i + 1);
    text::part(text, start, len)
}

// Whether one of the first `count` tests has the name.
fn name_seen(text: &[u8], tests: &[usize], count: usize, name: &[u8]) -> bool
    requires { count ≤ 200 }
    ensures { result ≡ name_in text.now tests.now count name.now }
{
    (0..count).any(|i| text::same(name_at(text, tests, i), name))
}

// Whether one of the first `count` tests has the name, where the filter has the bits of their hashes: names are compared only if it has that of
// the name's, which it has afterwards.
fn name_met(text: &[u8], tests: &[usize], count: usize, name: &[u8], filter: &mut [usize]) -> bool
    requires { count ≤ 200 }
    ensures value { result ≡ name_met text.now tests.now count filter.old name.now }
    ensures filter_after { filter.new ≡ with_bit filter.old (hash_of name.now) }
{
    let h = text::hash(name);
    let maybe = text::bit_at(filter, h);
    text::set_bit(filter, h);
    maybe && name_seen(text, tests, count, name)
}

// Whether the bits of a row past its edges are 0.
fn spare_clear(edges: usize, row: &[u8]) -> bool
    requires { (length row.now ≤ edges / 4 + 1) × (all_bytes hex_byte row.now ≡ true) }
    ensures { result ≡ none_set (drop edges (bits_of row.now)) }
{
    let i = edges / 4;
    row.len() <= i || turned(value(row[i])) >> (edges % 4) == 0
}

// Whether a row is one for so many edges.
fn row_fine(edges: usize, row: &[u8]) -> bool
    requires { edges ≤ 1024 }
    ensures { result ≡ row_fine edges row.now }
{
    row.len() == (edges + 3) / 4 && text::all_in(Class::Hex, row) && spare_clear(edges, row)
}

// Whether a row has a comma; one that is fine has none.
fn comma_in(fine: bool, row: &[u8]) -> bool
    ensures { result ≡ comma_in fine row.now }
{
    !fine && text::find(row, b',') < row.len()
}

// Notes where the name of the test i stands, and how long it is.
fn put_test(tests: &mut [usize], i: usize, start: usize, len: usize)
    requires { i ≤ 200 }
    ensures { tests.new ≡ stored_test tests.old i start len }
{
    text::put(tests, 2 * i, start);
    text::put(tests, 2 * i + 1, len);
}

// The filter and the tables are passed one by one: of a struct that holds them each function would have to say that it keeps its references.

// Adds a test after `count` others, and answers how many there are: its line is numbered n and begins at the offset `at`; `fine` says whether its
// row is. What the filter and the tables hold after a refusal is left open.
fn add_test(
    text: &[u8],
    edges: usize,
    n: usize,
    at: usize,
    name: &[u8],
    row: &[u8],
    fine: bool,
    count: usize,
    filter: &mut [usize],
    tests: &mut [usize],
    rows: &mut [u64],
) -> Result<usize, Refusal>
    requires fine_value { fine ≡ row_fine edges row.now }
    requires edges_bound { (edges ≤ 1024) × (at ≤ 65536) × (count ≤ 200) × (64 ≤ length filter.old) × (400 ≤ length tests.old) × (3200 ≤ length rows.old) }
    ensures { Added text.now edges n at name.now row.now count filter.old tests.old rows.old (read_of result) filter.new tests.new rows.new }
{
    if 200 <= count {
        return Err(Refusal {
            fault: Fault::TooManyLines,
            place: n,
        });
    }
    if name_met(text, tests, count, name, filter) {
        return Err(Refusal {
            fault: Fault::NameTwice,
            place: n,
        });
    }
    if !fine {
        return Err(Refusal {
            fault: Fault::RowWrong,
            place: n,
        });
    }
    put_test(tests, count, at + 2, name.len());
    store_row(rows, count, row);
    Ok(count + 1)
}

// Takes a line, numbered n, that begins at the offset `at`, after `count` tests, and answers how many there are. What the filter and the tables
// hold after a refusal is left open.
fn step(
    text: &[u8],
    edges: usize,
    n: usize,
    at: usize,
    line: &[u8],
    count: usize,
    filter: &mut [usize],
    tests: &mut [usize],
    rows: &mut [u64],
) -> Result<usize, Refusal>
    requires { (edges ≤ 1024) × (at ≤ 65536) × (count ≤ 200) × (64 ≤ length filter.old) × (400 ≤ length tests.old) × (3200 ≤ length rows.old) }
    ensures { Stepped text.now edges n at line.now count filter.old tests.old rows.old (read_of result) filter.new tests.new rows.new }
{
    if !begins_test(line) {
        return Err(Refusal {
            fault: Fault::LineMalformed,
            place: n,
        });
    }
    let rest = text::after(line, 2);
    let name = text::first_short(rest, b',');
    let row = text::after(rest, name.len() + 1);
    let fine = row_fine(edges, row);
    if comma_in(fine, row) {
        return Err(Refusal {
            fault: Fault::LineMalformed,
            place: n,
        });
    }
    add_test(
        text, edges, n, at, name, row, fine, count, filter, tests, rows,
    )
}

// ---- a text

// Reads the lines of a text. What the filter holds afterwards is left open, and what the tables hold after a refusal.
fn read_lines(
    text: &[u8],
    edges: usize,
    filter: &mut [usize],
    tests: &mut [usize],
    rows: &mut [u64],
) -> Result<usize, Refusal>
    requires { (length text.now ≤ 65536) × (edges ≤ 1024) × (64 ≤ length filter.old) × (400 ≤ length tests.old) × (3200 ≤ length rows.old) }
    ensures { LinesRead edges text.now (read_of result) tests.new rows.new }
{
    let mut at = 0;
    let mut n = 1;
    let mut count = 0;
    while at < text.len() {
        let rest = text::after(text, at);
        let len = text::find(rest, b'\n');
        if rest.len() <= len {
            return Err(Refusal {
                fault: Fault::LineMalformed,
                place: n,
            });
        }
        let line = text::front(rest, len);
        count = step(text, edges, n, at, line, count, filter, tests, rows)?;
        at = at + len + 1;
        n += 1;
    }
    Ok(count)
}

// Reads a test file, where the old program has so many edges, and answers how many tests there are. What the tables hold after a refusal is left
// open, and what they hold behind the tests of an accepted one.
pub fn read_tests(
    text: &[u8],
    edges: usize,
    tests: &mut [usize],
    rows: &mut [u64],
) -> Result<usize, Refusal>
    requires { (edges ≤ 1024) × (400 ≤ length tests.old) × (3200 ≤ length rows.old) }
    ensures { TestsRead edges text.now (read_of result) tests.new rows.new }
{
    if 65536 < text.len() {
        return Err(Refusal {
            fault: Fault::TextTooLong,
            place: 0,
        });
    }
    let mut filter = [0usize; 64];
    read_lines(text, edges, &mut filter, tests, rows)
}
