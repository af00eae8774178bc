// Edges after others in one version: where a run may go on that has crossed one of a set. A second set has the edges that are left to go on from. A table
// of returns has, in a row of 512 bits for each procedure, the nodes from which a run goes on that has come to its exit: those behind the callees of calls.
// It is made in one pass over the calls, and a node that is gone on from is taken out, so that this happens once.
#![tactic(auto, using(crate::proofs::All::all))]

ghost use Rattle.std.specs.Prelude.{◌≡◌, ◌<◌};
ghost use Rattle.coverage.specs.Rows.{edge_found, first_common};
ghost use Rattle.after.specs.State.{BothSized, Sized, Worked};
ghost use Rattle.after.specs.Claims.{
  AddsLeaving,
  Ends,
  FindsOwners,
  GoesOn,
  GoesOnAt,
  Leaves,
  NotesAll,
  NotesCall,
  NotesCallees,
  NotesFirst,
  ResumesAt,
  Spread,
  Taken,
  Visit,
  return_row,
};

use versions::Program;

// ---- the edges that leave a node

// Adds the edges that leave the node n to the set.
fn add_leaving(program: &Program, n: usize, set: &mut [u64])
    ensures { Sized set.old set.new
        (AddsLeaving program.now.links n set.old set.new) }
{
    let mut place = program.last_edge(n);
    while let Some(e) = place {
        coverage::set_bit(set, e);
        place = program.edge_before(e);
    }
}

// The node whose edges a run may cross next that has come to the node n, which is no exit: the entry of its first callee if it is a call, else n.
fn goes_on_at(program: &Program, n: usize) -> usize
    ensures { GoesOnAt program.now.nodes program.now.links n result }
{
    if program.is_call(n) {
        program.entry(versions::callee(program.callees(n)))
    } else {
        n
    }
}

// ---- the returns

// Finds the procedure of each exit, from the last of 64 rows down: those past the procedures of the program hold anything, and what is put for them is put
// over by the program's own.
fn find_owners(program: &Program, owners: &mut [usize])
    ensures { Sized owners.old owners.new
        (FindsOwners program.now.links owners.old owners.new) }
{
    for q in (0..64).rev() {
        text::put(owners, program.exit(q), q);
    }
}

// The node whose edge a run crosses next that has come to the exit of a callee of the call k, where the callees behind it are the digits of `rest`: the
// entry of the next one, or after the last the call.
fn resumes_at(program: &Program, k: usize, rest: usize) -> usize
    ensures { ResumesAt program.now.links k rest result }
{
    if rest == 0 {
        k
    } else {
        program.entry(versions::callee(rest))
    }
}

// Notes, at the first of the procedures that are the digits of `callees`, the node from which a run goes on behind it at the call k.
fn note_first(program: &Program, k: usize, callees: usize, returns: &mut [u64])
    ensures { Sized returns.old returns.new
        (NotesFirst program.now.links k callees returns.old returns.new) }
{
    let q = versions::callee(callees);
    let j = resumes_at(program, k, callees / 256);
    // no program has more procedures or nodes; with this test the number of the bit is known to be small
    if q < 64 && j < 512 {
        coverage::set_bit(returns, 512 * q + j);
    }
}

// The same for each of these callees.
fn note_callees(program: &Program, k: usize, callees: usize, returns: &mut [u64])
    ensures { Sized returns.old returns.new
        (NotesCallees program.now.links k callees returns.old returns.new) }
{
    let mut a = callees;
    while 0 < a {
        note_first(program, k, a, returns);
        a /= 256;
    }
}

// The same for the node k, if it is a call.
fn note_call(program: &Program, k: usize, returns: &mut [u64])
    ensures { Sized returns.old returns.new
        (NotesCall program.now.nodes program.now.links k returns.old returns.new) }
{
    if program.is_call(k) {
        note_callees(program, k, program.callees(k), returns);
    }
}

// The same for every node.
fn note_all(program: &Program, count: usize, returns: &mut [u64])
    ensures { Sized returns.old returns.new
        (NotesAll program.now.nodes program.now.links count returns.old returns.new) }
{
    for k in 0..count {
        note_call(program, k, returns);
    }
}

// ---- the worklist

// The lowest node that is noted at the procedure q, or that there is none.
fn next_return(returns: &[u64], q: usize) -> Option<usize>
    requires { q < 64 }
    ensures { edge_found result ≡ first_common (return_row returns.now q) (return_row returns.now q) }
{
    let row = text::part(returns, 8 * q, 8);
    // the lowest bit that the row has in common with itself
    coverage::first_danger(row, row)
}

// Adds the edges of the node j, which is noted at the procedure q, and takes it out there.
fn take_return(program: &Program, returns: &mut [u64], set: &mut [u64], q: usize, j: usize)
    requires { (q < 64) × (j < 512) }
    ensures { Taken program.now.links q j returns.old set.old returns.new set.new }
{
    add_leaving(program, j, set);
    coverage::clear_bit(returns, 512 * q + j);
}

// Goes on from the exit of the procedure q: adds the edges of the nodes that are noted there, and takes these out.
fn leave(program: &Program, returns: &mut [u64], set: &mut [u64], q: usize)
    ensures { BothSized returns.old set.old returns.new set.new
        (Leaves program.now.links returns.old set.old q returns.new set.new) }
{
    // no program has so many procedures
    if 64 <= q {
        return;
    }
    while let Some(j) = next_return(returns, q) {
        take_return(program, returns, set, q, j);
    }
}

// What a search has found and left: the procedure of each exit, the edges that are left to go on from, and the returns that are.
#[derive(Drop)]
struct Worklist {
    owners: [usize; 512],
    left: [u64; 16],
    returns: [u64; 512],
}

impl Worklist {
    // Goes on from the node n.
    fn go_on(&mut self, program: &Program, set: &mut [u64], n: usize)
        ensures kept { (self.new.owners ≡ self.old.owners) × (self.new.left ≡ self.old.left) }
        ensures on { BothSized self.old.returns set.old self.new.returns set.new
            (GoesOn program.now.nodes program.now.links self.old.owners
            self.old.returns set.old n self.new.returns set.new) }
    {
        if program.is_exit(n) {
            leave(program, &mut self.returns, set, text::get(&self.owners, n));
        } else {
            add_leaving(program, goes_on_at(program, n), set);
        }
    }

    // Goes on from the edge e, which is left no more.
    fn visit(&mut self, program: &Program, set: &mut [u64], e: usize)
        ensures kept { self.new.owners ≡ self.old.owners }
        ensures visited { Worked self.old.left self.old.returns set.old
            self.new.left self.new.returns set.new
            (Visit program.now.nodes program.now.links self.old.owners
            self.old.left self.old.returns set.old
            e self.new.left self.new.returns set.new) }
    {
        self.go_on(program, set, program.target(e));
        coverage::clear_bit(&mut self.left, e);
    }

    // Goes on from the edges of the set that are left, until there is none.
    fn run(&mut self, program: &Program, set: &mut [u64])
        ensures { Worked self.old.left self.old.returns set.old
            self.new.left self.new.returns set.new
            (Ends program.now.nodes program.now.links self.old.owners
            self.old.left self.old.returns set.old
            self.new.left self.new.returns set.new) }
    {
        while let Some(e) = coverage::first_danger(&self.left, set) {
            self.visit(program, set, e);
        }
    }
}

// Makes the set, of edges of one version with `count` nodes, that of the edges after those that it has, these included. For tables that hold no program
// the set is left open.
//
// The worst case. Each call is noted once, at each of its at most 4 callees. Each edge is gone on from at most once, and so is each noted node: the edges
// of one node are added, at most 8. To find the next edge at most 16 words are looked at, and so for the next noted node. So the cost is linear in edges
// and calls: at the limits of the files at most 1,024 edges and 2,048 noted nodes, with 8 edges and 16 words for each, and 16 words more for each edge to
// an exit, where no noted node is left.
pub fn spread(program: &Program, count: usize, set: &mut [u64])
    ensures { Spread program.now.nodes program.now.links count set.old set.new }
{
    // a copy, so that its parts are read once
    let program = &Program::new(program.text(), program.nodes(), program.links());
    let mut work = Worklist {
        owners: [0; 512],
        left: [u64::MAX; 16],
        returns: [0; 512],
    };
    find_owners(program, &mut work.owners);
    note_all(program, count, &mut work.returns);
    work.run(program, set);
}
