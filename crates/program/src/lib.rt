// Copying the links of a program that was read to lent tables, and testing whether lent tables are what reading a text leaves.
#![tactic(auto, using(crate::proofs::Laws::all))]

ghost use Rattle.std.specs.Prelude.{◌≡◌, ◌≤◌, length};
ghost use Rattle.reader.specs.Result.{Small, counts_of};
ghost use Rattle.rules.specs.Text.{same as same_numbers};
ghost use Rattle.program.specs.Lent.{TablesLeft, copied_links, copied_nodes, left_count};

use reader::Counts;
use text::{copy, part, same_run};

// Copies the rows of the procedures and the edges, and the heads of the chains.
pub fn copy_links(work: &[usize], had: Counts, lent: &mut [usize])
    requires { Small (counts_of had) }
    ensures { lent.new ≡ copied_links work.now (counts_of had) lent.old }
{
    let from = reader::links(work);
    copy(lent, 0, part(from, 0, 7 * had.procs));
    copy(lent, 448, part(from, 448, 5 * had.edges));
    copy(lent, 5568, part(from, 5568, had.nodes));
}

// ---- are these tables what reading this text leaves

// Whether copying the rows of the nodes would change nothing.
fn same_nodes(work: &[usize], count: usize, nodes: &[usize]) -> bool
    requires { count ≤ 512 }
    ensures { result ≡ same_numbers (copied_nodes work.now count nodes.now) nodes.now }
{
    same_run(nodes, 0, part(work, 0, 4 * count))
}

// Whether copying the links would change nothing.
fn same_links(work: &[usize], had: Counts, lent: &[usize]) -> bool
    requires { Small (counts_of had) }
    ensures { result ≡ same_numbers (copied_links work.now (counts_of had) lent.now) lent.now }
{
    let from = reader::links(work);
    same_run(lent, 0, part(from, 0, 7 * had.procs))
        && same_run(lent, 448, part(from, 448, 5 * had.edges))
        && same_run(lent, 5568, part(from, 5568, had.nodes))
}

// The counts of what reading the text leaves, where the lent tables are that. What the work table holds afterwards is left open.
pub fn tables_left(
    text: &[u8],
    nodes: &[usize],
    lent: &[usize],
    work: &mut [usize],
) -> Option<Counts>
    requires { 8128 ≤ length work.old }
    ensures { TablesLeft text.now nodes.now lent.now (left_count result) }
{
    let Ok(had) = reader::read_into(text, work) else {
        return None;
    };
    if !same_nodes(work, had.nodes, nodes) || !same_links(work, had, lent) {
        return None;
    }
    Some(had)
}
