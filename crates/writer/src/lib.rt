// Sheets, lists of probes, record lines and texts, written into a lent output. A writer stores only inside its output and answers the place behind what it writes, so
// that writing into no bytes measures. What is written for tables that hold no selection, or no test and marks, is left open, the output's length
// excepted.
#![tactic(auto, using(crate::proofs::All::all))]

ghost use Rattle.std.specs.Prelude.{◌≡◌, ◌∷◌, [], ◌≤◌, ◌*◌, ◌^◌, length};
ghost use Rattle.std.specs.List.{count_by, range_with_len};
ghost use Rattle.laws.specs.Bits.{bit_in};
ghost use Rattle.rules.specs.Text.{decimal, text_of};
ghost use Rattle.rules.specs.Sheet.{end_text, head_text, m_text, r_text, v_text};
ghost use Rattle.answer.specs.Refusals.{told};
ghost use Rattle.coverage.specs.Rows.{row_meets};
ghost use Rattle.writer.specs.Claims.{PairsPut, PartnersPut};
ghost use Rattle.writer.specs.Measured.{Measured};
ghost use Rattle.writer.specs.Sheets.{ProbesWritten, RecordWritten, SheetPut, SheetWritten, TextWritten, selection};
ghost use Rattle.writer.specs.Texts.{edge_line, edge_text, repeat_text, short_name};
ghost use Rattle.writer.specs.Writes.{Writes};

use answer::{Fault, Refusal};
use suite::Suite;

// Why a writer refuses: the output is shorter than what is to be written.
const SHORT: Refusal = Refusal {
    fault: Fault::OutputShort,
    place: 0,
};

// ---- lines

// A comma and a number.
pub fn put_field(out: &mut [u8], at: usize, x: usize) -> usize
    requires { at ≤ 2 ^ 33 }
    ensures { Writes out.old at (44 ∷ decimal x) 21 result out.new }
{
    let a = text::put_byte(out, at, b',');
    text::put_decimal(out, a, x)
}

// A byte, a comma and a name.
fn put_named(out: &mut [u8], at: usize, b: u8, name: &[u8]) -> usize
    requires { (at ≤ 2 ^ 33) × (length name.now ≤ 12) }
    ensures { Writes out.old at (b ∷ (44 ∷ name.now)) 14 result out.new }
{
    let a = text::put_byte(out, at, b);
    let c = text::put_byte(out, a, b',');
    text::put_bytes(out, c, name)
}

// The first line of a sheet.
fn put_head(out: &mut [u8], at: usize) -> usize
    requires { at ≤ 2 ^ 32 }
    ensures { Writes out.old at (text_of (head_text ∷ [])) 8 result out.new }
{
    let a = text::put_bytes(out, at, &text::SHEET_HEAD);
    text::put_byte(out, a, b'\n')
}

// `M,old,new`, a pair.
fn put_pair(out: &mut [u8], at: usize, old: usize, new: usize) -> usize
    requires { at ≤ 2 ^ 32 }
    ensures { Writes out.old at (text_of (m_text old new ∷ [])) 44 result out.new }
{
    let a = text::put_byte(out, at, b'M');
    let b = put_field(out, a, old);
    let c = put_field(out, b, new);
    text::put_byte(out, c, b'\n')
}

// `b,edge`, an edge: `D` for a dangerous one, `Q` for one that needs a probe.
fn put_edge(out: &mut [u8], at: usize, b: u8, edge: usize) -> usize
    requires { at ≤ 2 ^ 32 }
    ensures { Writes out.old at (text_of (edge_line b edge ∷ [])) 23 result out.new }
{
    let a = text::put_byte(out, at, b);
    let c = put_field(out, a, edge);
    text::put_byte(out, c, b'\n')
}

// `R,name`, a test to repeat.
fn put_repeat(out: &mut [u8], at: usize, name: &[u8]) -> usize
    requires { (at ≤ 2 ^ 32) × (length name.now ≤ 12) }
    ensures { Writes out.old at (text_of (r_text name.now ∷ [])) 15 result out.new }
{
    let a = put_named(out, at, b'R', name);
    text::put_byte(out, a, b'\n')
}

// `end,m,d,r`, the last line of a sheet.
fn put_end(out: &mut [u8], at: usize, m: usize, d: usize, r: usize) -> usize
    requires { at ≤ 2 ^ 32 }
    ensures { Writes out.old at (text_of (end_text m d r ∷ [])) 67 result out.new }
{
    let a = text::put_bytes(out, at, b"end");
    let b = put_field(out, a, m);
    let c = put_field(out, b, d);
    let e = put_field(out, c, r);
    text::put_byte(out, e, b'\n')
}

// `V,name,crossed,marks`, a record line.
fn put_record(out: &mut [u8], at: usize, name: &[u8], crossed: usize, marks: &[u8]) -> usize
    requires { (at ≤ 2 ^ 32) × (length name.now ≤ 12) × (length marks.now ≤ 1024) }
    ensures { Writes out.old at (text_of (v_text name.now crossed marks.now ∷ [])) 1061 result out.new }
{
    let a = put_named(out, at, b'V', name);
    let b = put_field(out, a, crossed);
    let c = text::put_byte(out, b, b',');
    let d = text::put_bytes(out, c, marks);
    text::put_byte(out, d, b'\n')
}

// ---- pairs

// An M line for each of the new nodes, ascending, that the table of pairs has with the old node.
fn put_partners(out: &mut [u8], at: usize, w: &[usize], old: usize, news: usize) -> usize
    requires { (at ≤ 2 ^ 31) × (news ≤ 512) }
    ensures { PartnersPut out.old at w.now old news news result out.new }
{
    let mut k = at;
    let mut from = 0;
    while let Some(new) = pairset::next_partner(w, old, from) {
        if new < from || news <= new {
            return k;
        }
        k = put_pair(out, k, old, new);
        from = new + 1;
    }
    k
}

// An M line for each pair of the table, ascending by old node, then new.
fn put_pairs(out: &mut [u8], at: usize, w: &[usize], olds: usize, news: usize) -> usize
    requires { (at ≤ 2 ^ 30) × (olds ≤ 512) × (news ≤ 512) }
    ensures { PairsPut out.old at w.now olds news result out.new }
{
    let mut k = at;
    for n in 0..olds {
        k = put_partners(out, k, w, n, news);
    }
    k
}

// ---- sets of edges

// How many of the edges the set has.
fn count_dangers(set: &[u64], edges: usize) -> usize
    requires { edges ≤ 1024 }
    ensures { result ≡ count_by (bit_in set.now) (range_with_len 0 edges) }
{
    (0..edges).filter(|e| coverage::in_set(set, *e)).count()
}

// A line with the first byte b for each of the edges that the set has.
fn put_edges(out: &mut [u8], at: usize, b: u8, set: &[u64], edges: usize) -> usize
    requires { (at ≤ 2 ^ 31) × (edges ≤ 1024) }
    ensures { Writes out.old at (edge_text b set.now edges) (23 * edges) result out.new }
{
    let mut k = at;
    for e in 0..edges {
        if coverage::in_set(set, e) {
            k = put_edge(out, k, b, e);
        }
    }
    k
}

// ---- tests to repeat

// The name of the test i: at most 12 bytes, whatever the table says.
fn test_name<'a>(suite: &'a Suite, i: usize) -> &'a [u8]
    requires { i ≤ 200 }
    ensures { result.now ≡ short_name suite.now.text suite.now.names i }
{
    text::front(suite.name(i), 12)
}

// How many of the tests have an edge of the set in their rows.
fn count_repeats(suite: &Suite, set: &[u64]) -> usize
    requires { suite.now.count ≤ 200 }
    ensures { result ≡ count_by (row_meets suite.now.rows set.now) (range_with_len 0 suite.now.count) }
{
    (0..suite.count()).filter(|i| suite.meets(*i, set)).count()
}

// An R line for each of the tests whose row has an edge of the set. It is the loop of `put_edges`; one for both would take the test and the line as
// closures with their bounds, and be longer than the two.
fn put_repeats(out: &mut [u8], at: usize, suite: &Suite, set: &[u64]) -> usize
    requires { (at ≤ 2 ^ 31) × (suite.now.count ≤ 200) }
    ensures { Writes out.old at (repeat_text suite.now.text suite.now.names suite.now.rows set.now suite.now.count) (15 * suite.now.count) result out.new }
{
    let mut k = at;
    for i in 0..suite.count() {
        if suite.meets(i, set) {
            k = put_repeat(out, k, test_name(suite, i));
        }
    }
    k
}

// ---- measuring, then writing

// Lets `write` measure, by writing into no bytes, and then write, or refuses where the output is shorter.
fn measured<F: Fn(&mut [u8]) -> usize>(out: &mut [u8], write: F) -> Result<usize, Refusal>
    requires { F.IsAlwaysCallable write }
    ensures { Measured F.Fn write out.old result out.new }
{
    let len = write(&mut out[..0]);
    if out.len() < len {
        return Err(SHORT);
    }
    Ok(write(out))
}

// ---- the sheet

// How many pairs, old nodes, new nodes and old edges there are.
#[derive(Clone, Copy)]
pub struct Sizes {
    pub pairs: usize,
    pub olds: usize,
    pub news: usize,
    pub edges: usize,
}

// The sheet: its first line, the pairs, the dangerous edges, the tests to repeat, and the three counts.
fn put_sheet(out: &mut [u8], w: &[usize], set: &[u64], n: Sizes, suite: &Suite) -> usize
    requires { (n.olds ≤ 512) × (n.news ≤ 512) × (n.edges ≤ 1024) × (suite.now.count ≤ 200) }
    ensures { SheetPut (selection w.now n.pairs n.olds n.news set.now n.edges suite.now.text suite.now.names suite.now.rows suite.now.count) out.old result out.new }
{
    let dangers = count_dangers(set, n.edges);
    let repeats = count_repeats(suite, set);
    let a = put_head(out, 0);
    let b = put_pairs(out, a, w, n.olds, n.news);
    let c = put_edges(out, b, b'D', set, n.edges);
    let d = put_repeats(out, c, suite, set);
    put_end(out, d, n.pairs, dangers, repeats)
}

// Writes the sheet of a selection, or refuses where the output is shorter: measures it first. No sheet has more than 65,536 bytes, so that
// into so many it is written without being measured.
pub fn write_sheet(
    w: &[usize],
    set: &[u64],
    n: Sizes,
    suite: &Suite,
    out: &mut [u8],
) -> Result<usize, Refusal>
    requires { (n.olds ≤ 512) × (n.news ≤ 512) × (n.edges ≤ 1024) × (suite.now.count ≤ 200) }
    ensures { SheetWritten (selection w.now n.pairs n.olds n.news set.now n.edges suite.now.text suite.now.names suite.now.rows suite.now.count) out.old (told result) out.new }
{
    if 65536 <= out.len() {
        return Ok(put_sheet(out, w, set, n, suite));
    }
    measured(out, |out| put_sheet(out, w, set, n, suite))
}

// ---- probes

// Writes a Q line for each of the edges that the set has: measures them, and refuses where the output is shorter.
pub fn write_probes(set: &[u64], edges: usize, out: &mut [u8]) -> Result<usize, Refusal>
    requires { edges ≤ 1024 }
    ensures { ProbesWritten set.now edges out.old (told result) out.new }
{
    measured(out, |out| put_edges(out, 0, b'Q', set, edges))
}

// ---- record lines

// Writes the record line of the test i, with the marks of `edges` new edges: measures it, and refuses where the output is shorter.
pub fn write_record(
    suite: &Suite,
    i: usize,
    marks: &[u8],
    edges: usize,
    out: &mut [u8],
) -> Result<usize, Refusal>
    requires { (i ≤ 200) × (edges ≤ 1024) }
    ensures { RecordWritten suite.now.text suite.now.names suite.now.rows i marks.now edges out.old (told result) out.new }
{
    let name = test_name(suite, i);
    let crossed = suite.ones(i);
    let line = text::front(marks, edges);
    measured(out, |out| put_record(out, 0, name, crossed, line))
}

// ---- a text

// Writes a text, or refuses where the output is shorter.
pub fn write_text(text: &[u8], out: &mut [u8]) -> Result<usize, Refusal>
    ensures { TextWritten text.now out.old (told result) out.new }
{
    if out.len() < text.len() {
        return Err(SHORT);
    }
    Ok(text::put_bytes(out, 0, text))
}
