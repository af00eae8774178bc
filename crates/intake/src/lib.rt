// Reading the three texts of a job: the old program, the new one and the tests, in this order. The first refusal is the answer.
#![tactic(auto, using(crate::proofs::Laws::all))]

ghost use Rattle.std.specs.Prelude.{◌≡◌, ◌≤◌, length};
ghost use Rattle.intake.specs.Ready.{JobRead};

use answer::Refusal;

// How many nodes, edges and tests were read.
#[derive(Clone, Copy, Debug, PartialEq, Eq)]
pub struct Counts {
    pub old_nodes: usize,
    pub old_edges: usize,
    pub new_nodes: usize,
    pub new_edges: usize,
    pub tests: usize,
}

// Reads the texts of a job into the work tables of the two programs and the tables of the tests. What the four tables hold after a refusal is left
// open, and what they hold beyond the counts of accepted texts.
pub fn read_job(
    old: &[u8],
    new: &[u8],
    tt: &[u8],
    ow: &mut [usize],
    nw: &mut [usize],
    tests: &mut [usize],
    rows: &mut [u64],
) -> Result<Counts, Refusal>
    requires { (8128 ≤ length ow.old) × (8128 ≤ length nw.old) × (400 ≤ length tests.old) × (3200 ≤ length rows.old) }
    ensures { JobRead old.now ow.new new.now nw.new tt.now tests.new rows.new result }
{
    let o = reader::read_into(old, ow)?;
    let p = reader::read_into(new, nw)?;
    let count = suite::read_tests(tt, o.edges, tests, rows)?;
    Ok(Counts {
        old_nodes: o.nodes,
        old_edges: o.edges,
        new_nodes: p.nodes,
        new_edges: p.edges,
        tests: count,
    })
}
