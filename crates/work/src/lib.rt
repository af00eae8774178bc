// The work of a job whose texts were read: the selection, the sheet, the list of probes, the record lines. `w` is the table of the pairs, with room for
// `limit` of them: a call answers None where more exist, and its contract holds for whatever number its caller has for that. What a call that writes
// leaves in the table is left open.
#![tactic(auto, using(crate::proofs::Laws::all))]

ghost use Rattle.std.specs.Prelude.{◌≡◌, ◌≤◌, IfSome};
ghost use Rattle.answer.specs.Refusals.{told};
ghost use Rattle.closure.specs.Claims.{counted};
ghost use Rattle.intake.specs.Ready.{Few};
ghost use Rattle.work.specs.Loads.{had_in};
ghost use Rattle.work.specs.Work.{Done, ProbesOr, RecordFrom, RecordOr, Selected, SheetOr};

use answer::{Fault, Refusal};
use suite::Suite;
use versions::Program;
use writer::Sizes;

// The limit on pairs, as the callers give it, and why they refuse where more exist.
pub const MAX_PAIRS: usize = 4096;

pub const TOO_MANY: Fault = Fault::TooManyPairs;

// A job that was read: its programs and tests in memory, and how many nodes and edges the programs have.
#[derive(Clone, Copy)]
pub struct Loaded<'a> {
    pub old: &'a Program<'a, 'a>,
    pub new: &'a Program<'a, 'a>,
    pub suite: &'a Suite<'a, 'a>,
    pub old_nodes: usize,
    pub old_edges: usize,
    pub new_nodes: usize,
    pub new_edges: usize,
}

// Finds the pairs of two versions, and their dangerous edges: the number of pairs, or none where there are more than the limit; what the table
// and the set hold then is left open.
pub fn select(
    limit: usize,
    old: &Program,
    new: &Program,
    w: &mut [usize],
    set: &mut [u64],
) -> Option<usize>
    requires { limit ≤ 4096 }
    ensures few { IfSome result (λ c. c ≤ limit) }
    ensures selects { Selected limit old.now new.now w.old w.new set.old set.new (counted limit result) }
{
    let pairs = closure::close(old, new, limit, w)?;
    selection::copy_dangers(w, set);
    Some(pairs)
}

// Writes the sheet of the selection. What the table of the pairs holds afterwards is left open.
pub fn write_sheet(
    limit: usize,
    job: &Loaded,
    w: &mut [usize],
    out: &mut [u8],
) -> Option<Result<usize, Refusal>>
    requires limit_bound { limit ≤ 4096 }
    requires few { Few (had_in job.now) }
    ensures { Done w.old w.new out.old out.new (SheetOr limit job.now.old.now job.now.new.now job.now.suite.now.text job.now.suite.now.names job.now.suite.now.rows (had_in job.now) w.old out.old result out.new) }
{
    let mut set = [0u64; 16];
    let pairs = select(limit, job.old, job.new, w, &mut set)?;
    let sizes = Sizes {
        pairs,
        olds: job.old_nodes,
        news: job.new_nodes,
        edges: job.old_edges,
    };
    Some(writer::write_sheet(w, &set, sizes, job.suite, out))
}

// Writes the list of probes. What the table of the pairs holds afterwards is left open.
pub fn write_probes(
    limit: usize,
    job: &Loaded,
    w: &mut [usize],
    out: &mut [u8],
) -> Option<Result<usize, Refusal>>
    requires limit_bound { limit ≤ 4096 }
    requires few { Few (had_in job.now) }
    ensures { Done w.old w.new out.old out.new (ProbesOr limit job.now.old.now job.now.new.now (had_in job.now) w.old out.old result out.new) }
{
    let mut dangers = [0u64; 16];
    select(limit, job.old, job.new, w, &mut dangers)?;
    let mut set = [0u64; 16];
    probes::find_probes(
        job.old,
        job.new,
        w,
        &dangers,
        job.old_edges,
        job.new_nodes,
        &mut set,
    );
    Some(writer::write_probes(&set, job.new_edges, out))
}

// Writes the record line of a test, from the pairs and the dangerous edges.
pub fn record_from(
    job: &Loaded,
    i: usize,
    w: &[usize],
    set: &[u64],
    out: &mut [u8],
) -> Result<usize, Refusal>
    requires few { Few (had_in job.now) }
    requires i_bound { i ≤ 200 }
    ensures { Done w.now w.now out.old out.new (RecordFrom job.now.old.now.nodes job.now.old.now.links job.now.new.now.nodes job.now.new.now.links job.now.suite.now.text job.now.suite.now.names job.now.suite.now.rows (had_in job.now) i w.now set.now out.old (told result) out.new) }
{
    let mut marks = [0u8; 1024];
    let mut probed = [0u64; 16];
    let mut after = [0u64; 16];
    let again = job.suite.meets(i, set);
    probes::find_open(
        job.old,
        job.new,
        w,
        set,
        job.old_edges,
        job.old_nodes,
        job.new_nodes,
        again,
        &mut probed,
        &mut after,
    );
    selection::find_marks(
        job.old,
        job.new,
        w,
        job.suite.rows(),
        i,
        job.old_edges,
        job.new_edges,
        again,
        &probed,
        &after,
        &mut marks,
    );
    writer::write_record(job.suite, i, &marks, job.new_edges, out)
}

// Writes the record line of a test: refused where there is none of that number. What the table of the pairs holds afterwards is left open.
pub fn write_record(
    limit: usize,
    job: &Loaded,
    i: usize,
    w: &mut [usize],
    out: &mut [u8],
) -> Option<Result<usize, Refusal>>
    requires limit_bound { limit ≤ 4096 }
    requires few { Few (had_in job.now) }
    ensures { Done w.old w.new out.old out.new (RecordOr limit job.now.old.now job.now.new.now job.now.suite.now.text job.now.suite.now.names job.now.suite.now.rows (had_in job.now) i w.old out.old result out.new) }
{
    if job.suite.count() <= i {
        return Some(Err(Refusal {
            fault: Fault::NotNamed,
            place: 0,
        }));
    }
    let mut set = [0u64; 16];
    select(limit, job.old, job.new, w, &mut set)?;
    Some(record_from(job, i, w, &set, out))
}
