// Testing whether lent tables are what reading these texts leaves, with the lengths that they must have.
#![tactic(auto, using(crate::proofs::Laws::all))]

ghost use Rattle.std.specs.Prelude.{◌≡◌, ◌≤◌, length};
ghost use Rattle.held.specs.Left.{count_left, read_left};
ghost use Rattle.lent_job.specs.Held.{numbers, suite_left, version_left};

use reader::Counts;
use versions::Program;

// The counts of a version that is lent with `room` records of nodes, where its tables are long enough and what reading the text leaves. What the
// work table holds afterwards is left open.
pub fn version_left(room: usize, v: &Program, work: &mut [usize]) -> Option<Counts>
    requires { 8128 ≤ length work.old }
    ensures { result ≡ count_left (version_left (numbers room v.now.text v.now.nodes v.now.links)) }
{
    let links = v.links();
    if room < 512 || links.len() < 6080 {
        return None;
    }
    program::tables_left(v.text(), v.nodes(), links, work)
}

// How many tests there are, where their tables are long enough and what reading the text leaves, and the old program has so many edges. What the
// work tables `work` and `words` hold afterwards is left open.
pub fn suite_left(
    text: &[u8],
    edges: usize,
    tests: &[usize],
    rows: &[u64],
    work: &mut [usize],
    words: &mut [u64],
) -> Option<usize>
    requires { (edges ≤ 1024) × (400 ≤ length work.old) × (3200 ≤ length words.old) }
    ensures { result ≡ read_left (suite_left edges text.now tests.now rows.now) }
{
    if tests.len() < 400 || rows.len() < 3200 {
        return None;
    }
    lent_tests::tests_left(text, edges, tests, rows, work, words)
}
