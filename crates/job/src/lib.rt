// Reading at the stages 0 to 2 of a job, on values and tables of numbers. The exported calls take the job and the nodes out of what is lent
// and put them back.
#![tactic(auto, using(crate::proofs::All::all))]

ghost use Rattle.std.specs.Prelude.{◌≡◌, ◌≤◌, length};
ghost use Rattle.held.specs.Left.{count_left};
ghost use Rattle.lent_job.specs.Held.{numbers, version_left};
ghost use Rattle.job.specs.Taken.{OldTaken, due_in, reply, with_old, NewTaken, new_part, old_part, TestsTaken, moved};
ghost use Rattle.lent_job.specs.ReadOld.{fresh_due, old_due, roomy};
ghost use Rattle.lent_job.specs.ReadNew.{new_due, with_new};
ghost use Rattle.lent_job.specs.ReadTests.{both_due, tests_due, with_tests};

use answer::{Fault, Refusal};
use reader::Counts;
use records::Job;
use text::part;
use versions::Program;

// A version as it is lent beside a scratch that has the numbers of its nodes: how many records of nodes there are, its text and its links.
#[derive(Clone, Copy)]
pub struct Lent<'a> {
    pub room: usize,
    pub text: &'a [u8],
    pub links: &'a [usize],
}

impl<'a> Lent<'a> {
    // Its counts, where these nodes and its links are what reading its text leaves. What the work table holds afterwards is left open.
    fn counts(&self, nodes: &[usize], work: &mut [usize]) -> Option<Counts>
        requires { 8128 ≤ length work.old }
        ensures { result ≡ count_left (version_left (numbers self.now.room self.now.text.now nodes.now self.now.links.now)) }
    {
        held::version_left(self.room, &Program::new(self.text, nodes, self.links), work)
    }
}

// What reading a program leaves on values: the job, and how many nodes stand in the scratch.
#[derive(Clone, Copy, PartialEq, Eq)]
pub struct Taken {
    pub job: Job,
    pub nodes: usize,
}

// Whether two lengths of what is lent are at least a and b, and the scratch has the numbers that a reader asks for.
fn long_enough(a: usize, b: usize, x: usize, y: usize, work: usize) -> bool
    ensures { result ≡ roomy a b x y work }
{
    a <= x && b <= y && 8128 <= work
}

// ---- reading the old program

// A job that is not a fresh one is refused.
#[tactic(auto, using(crate::proofs::All::all, records::proofs::Laws::jobs_same))]
fn fresh_due(job: Job) -> Result<(), Fault>
    ensures { due_in result ≡ fresh_due job }
{
    if job != records::fresh_job() {
        return Err(Fault::LentMemoryWrong);
    }
    Ok(())
}

// Whether the call is of the job's stage, the tables are long enough and the job is a fresh one.
fn old_due(job: Job, nodes: usize, links: usize, work: usize) -> Result<(), Fault>
    ensures { due_in result ≡ old_due job nodes links work }
{
    if job.stage != 0 {
        return Err(Fault::WrongStage);
    }
    if !long_enough(512, 6080, nodes, links, work) {
        return Err(Fault::LentMemoryWrong);
    }
    fresh_due(job)
}

// The job once the old program was read.
#[tactic(auto, unfolding(crate::specs::Taken::with_old, rules::specs::Job::stage_after))]
fn with_old(had: Counts) -> Job
    ensures { result ≡ with_old had }
{
    Job {
        stage: 1,
        old_procs: had.procs,
        old_nodes: had.nodes,
        old_edges: had.edges,
        ..records::fresh_job()
    }
}

// Reads the old program, for `room` records of nodes: its links go to `lent`, and the numbers of its nodes stay in the scratch. After a refusal
// the job and `lent` are as they were. What else the scratch holds afterwards is left open.
pub fn take_old(
    job: Job,
    room: usize,
    old: &[u8],
    lent: &mut [usize],
    scratch: &mut [usize],
) -> Result<Taken, Refusal>
    ensures { OldTaken job room old.now (reply job result) lent.old lent.new (length scratch.old) scratch.new }
{
    if let Err(fault) = old_due(job, room, lent.len(), scratch.len()) {
        return Err(Refusal { fault, place: 0 });
    }
    let had = reader::read_into(old, scratch)?;
    program::copy_links(scratch, had, lent);
    Ok(Taken {
        job: with_old(had),
        nodes: had.nodes,
    })
}

// ---- reading the new program

// The job once the new program was read too.
#[tactic(auto, unfolding(lent_job::specs::ReadNew::with_new, rules::specs::Job::stage_after))]
fn with_new(job: Job, had: Counts) -> Job
    ensures { result ≡ with_new job had }
{
    Job {
        stage: 2,
        new_procs: had.procs,
        new_nodes: had.nodes,
        new_edges: had.edges,
        tests: 0,
        ..job
    }
}

// Whether the call is of the job's stage, what is lent is long enough, and the old version and the job are what reading the old text leaves. The
// numbers of the old nodes stand at the front of the scratch.
fn new_due(job: Job, old: &Lent, nodes: usize, links: usize, scratch: &[usize]) -> Result<(), Fault>
    ensures { due_in result ≡ new_due job (numbers old.now.room old.now.text.now (old_part scratch.now) old.now.links.now) nodes links (length scratch.now) }
{
    if job.stage != 1 {
        return Err(Fault::WrongStage);
    }
    if !long_enough(512, 6080, nodes, links, scratch.len()) {
        return Err(Fault::LentMemoryWrong);
    }
    let mut work = [0usize; 8128];
    match old.counts(part(scratch, 0, 2048), &mut work) {
        Some(had) if job == with_old(had) => Ok(()),
        _ => Err(Fault::LentMemoryWrong),
    }
}

// Reads the new program, for `nodes` records: its links go to `lent`, and the numbers of its nodes stay in the scratch, which has the numbers of
// the old nodes at its front before. After a refusal the job and `lent` are as they were. What else the scratch holds afterwards is left open.
pub fn take_new(
    job: Job,
    old: &Lent,
    new: &[u8],
    nodes: usize,
    lent: &mut [usize],
    scratch: &mut [usize],
) -> Result<Taken, Refusal>
    ensures { NewTaken job (numbers old.now.room old.now.text.now (old_part scratch.old) old.now.links.now) nodes new.now (reply job result) lent.old lent.new (length scratch.old) scratch.new }
{
    if let Err(fault) = new_due(job, old, nodes, lent.len(), scratch) {
        return Err(Refusal { fault, place: 0 });
    }
    let had = reader::read_into(new, scratch)?;
    program::copy_links(scratch, had, lent);
    Ok(Taken {
        job: with_new(job, had),
        nodes: had.nodes,
    })
}

// ---- reading the tests

// The job once the tests were read.
#[tactic(auto, unfolding(lent_job::specs::ReadTests::with_tests, rules::specs::Job::stage_after))]
fn with_tests(job: Job, count: usize) -> Job
    ensures { result ≡ with_tests job count }
{
    Job {
        stage: 3,
        tests: count,
        ..job
    }
}

// Whether the two versions and the job are what reading the two texts leaves. The numbers of the old nodes stand at the front of the scratch,
// those of the new ones from the place 2,048 on.
fn both_due(job: Job, old: &Lent, new: &Lent, scratch: &[usize]) -> Result<(), Fault>
    ensures { due_in result ≡ both_due job (numbers old.now.room old.now.text.now (old_part scratch.now) old.now.links.now) (numbers new.now.room new.now.text.now (new_part scratch.now) new.now.links.now) }
{
    let mut work = [0usize; 8128];
    let had = old
        .counts(part(scratch, 0, 2048), &mut work)
        .ok_or(Fault::LentMemoryWrong)?;
    let next = new
        .counts(part(scratch, 2048, 2048), &mut work)
        .ok_or(Fault::LentMemoryWrong)?;
    if job == with_new(with_old(had), next) {
        Ok(())
    } else {
        Err(Fault::LentMemoryWrong)
    }
}

// Whether the call is of the job's stage, and what is lent is long enough and what reading the two texts leaves.
fn tests_due(
    job: Job,
    old: &Lent,
    new: &Lent,
    tests: usize,
    rows: usize,
    scratch: &[usize],
) -> Result<(), Fault>
    ensures { due_in result ≡ tests_due job (numbers old.now.room old.now.text.now (old_part scratch.now) old.now.links.now) (numbers new.now.room new.now.text.now (new_part scratch.now) new.now.links.now) tests rows (length scratch.now) }
{
    if job.stage != 2 {
        return Err(Fault::WrongStage);
    }
    if !long_enough(400, 3200, tests, rows, scratch.len()) {
        return Err(Fault::LentMemoryWrong);
    }
    both_due(job, old, new, scratch)
}

// Reads the tests into `tests` and `rows`. The scratch has the numbers of both versions' nodes. After a refusal the job and the tables are as
// they were.
pub fn take_tests(
    job: Job,
    old: &Lent,
    new: &Lent,
    text: &[u8],
    tests: &mut [usize],
    rows: &mut [u64],
    scratch: &[usize],
) -> Result<Job, Refusal>
    ensures { TestsTaken job (numbers old.now.room old.now.text.now (old_part scratch.now) old.now.links.now) (numbers new.now.room new.now.text.now (new_part scratch.now) new.now.links.now) text.now (moved job result) tests.old tests.new rows.old rows.new (length scratch.now) }
{
    if let Err(fault) = tests_due(job, old, new, tests.len(), rows.len(), scratch) {
        return Err(Refusal { fault, place: 0 });
    }
    let mut work = [0usize; 400];
    let mut words = [0u64; 3200];
    let count = lent_tests::read_lent_tests(
        text,
        job.old_edges,
        tests,
        rows,
        &mut work,
        &mut words,
    )?;
    Ok(with_tests(job, count))
}
