// Reading a test file into lent tables, and testing whether lent tables are what reading a text leaves. A refusal changes nothing but the
// work tables: `work`, for where the names stand, and `words`, for the rows. What these hold afterwards is left open.
#![tactic(auto, using(crate::proofs::Laws::all))]

ghost use Rattle.std.specs.Prelude.{◌≡◌, ◌≤◌, length};
ghost use Rattle.rules.specs.Text.{same as same_numbers};
ghost use Rattle.suite.specs.Reads.{read_of};
ghost use Rattle.lent_tests.specs.Lent.{ReadLent, TestsLeft, copied_rows, copied_tests};

use answer::Refusal;
use text::{copy, part, same_run};

// Copies where the names of the first tests stand.
fn copy_tests(work: &[usize], count: usize, tests: &mut [usize])
    requires { count ≤ 200 }
    ensures { tests.new ≡ copied_tests work.now count tests.old }
{
    copy(tests, 0, part(work, 0, 2 * count));
}

// Copies the rows of the first tests.
fn copy_rows(words: &[u64], count: usize, rows: &mut [u64])
    requires { count ≤ 200 }
    ensures { rows.new ≡ copied_rows words.now count rows.old }
{
    copy(rows, 0, part(words, 0, 16 * count));
}

// Reads a test file into the lent tables `tests` and `rows`, where the old program has so many edges, and answers how many tests there are. After
// a refusal they are as they were. What the work tables hold afterwards is left open.
pub fn read_lent_tests(
    text: &[u8],
    edges: usize,
    tests: &mut [usize],
    rows: &mut [u64],
    work: &mut [usize],
    words: &mut [u64],
) -> Result<usize, Refusal>
    requires { (edges ≤ 1024) × (400 ≤ length work.old) × (3200 ≤ length words.old) }
    ensures { ReadLent edges text.now (read_of result) tests.old tests.new rows.old rows.new }
{
    let count = suite::read_tests(text, edges, work, words)?;
    copy_tests(work, count, tests);
    copy_rows(words, count, rows);
    Ok(count)
}

// ---- are these tables what reading this text leaves

// Whether copying where the names stand would change nothing.
fn same_tests(work: &[usize], count: usize, tests: &[usize]) -> bool
    requires { count ≤ 200 }
    ensures { result ≡ same_numbers (copied_tests work.now count tests.now) tests.now }
{
    same_run(tests, 0, part(work, 0, 2 * count))
}

// Whether copying the rows would change nothing.
fn same_rows(words: &[u64], count: usize, rows: &[u64]) -> bool
    requires { count ≤ 200 }
    ensures { result ≡ same_numbers (copied_rows words.now count rows.now) rows.now }
{
    same_run(rows, 0, part(words, 0, 16 * count))
}

// How many tests there are, where the lent tables are what reading the text leaves. What the work tables hold afterwards is left open.
pub fn tests_left(
    text: &[u8],
    edges: usize,
    tests: &[usize],
    rows: &[u64],
    work: &mut [usize],
    words: &mut [u64],
) -> Option<usize>
    requires { (edges ≤ 1024) × (400 ≤ length work.old) × (3200 ≤ length words.old) }
    ensures { TestsLeft edges text.now tests.now rows.now result }
{
    let count = suite::read_tests(text, edges, work, words).ok()?;
    let same = same_tests(work, count, tests) && same_rows(words, count, rows);
    same.then_some(count)
}
