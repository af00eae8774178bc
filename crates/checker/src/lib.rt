// The check of a sheet: its claims are read, and judged by the five rules. No pair is computed: the rules are tested within the sheet's own list.
#![tactic(auto, using(crate::proofs::All::all))]

ghost use Rattle.std.specs.Prelude.{◌≡◌, ◌≤◌, ◌<◌, ◌+◌, ◌*◌, length};
ghost use Rattle.laws.specs.Places.{place};
ghost use Rattle.pairset.specs.Store.{pair_base};
ghost use Rattle.sheet_reader.specs.Reading.{Bounded};
ghost use Rattle.checker.specs.Checking.{Checks, seen};
ghost use Rattle.checker.specs.Rules.{
  AllKept,
  AllPairs,
  EdgeKept,
  EdgesKept,
  EndsListed,
  Judges,
  OppositesListed,
  Rule1,
  Rule2,
  Rule3,
  Rule4,
  Rule5,
  TestKept,
  first_broken,
  rule_number,
};

use answer::{Fault, Refusal};
use sheet_reader::Bounds;
use suite::Suite;
use versions::Program;

// The five rules: the first entries are listed; listed nodes are alike; the entries of a listed call's callees are listed; the edges of a listed
// pair are kept; a test whose coverage holds a D edge is listed.
#[derive(Clone, Copy, Debug, PartialEq, Eq)]
pub enum Rule {
    Start,
    Alike,
    Entered,
    Kept,
    Listed,
}

impl Rule {
    // Its number, which is the place of the refusal.
    pub fn number(self) -> usize
        ensures { result ≡ rule_number self }
    {
        match self {
            Rule::Start => 1,
            Rule::Alike => 2,
            Rule::Entered => 3,
            Rule::Kept => 4,
            Rule::Listed => 5,
        }
    }
}

// ---- the rules; the claims are the pairs of w and the bits of `sets`

// Rule 1: the first entries are listed.
fn rule1(old: &Program, new: &Program, w: &[usize]) -> bool
    ensures { Rule1 old.now new.now w.now result }
{
    pairset::has(w, old.entry(0), new.entry(0))
}

// Of rule 4: whether the ends of the old edge e and the new edge f are listed.
fn ends_listed(old: &Program, new: &Program, w: &[usize], e: usize, f: usize) -> bool
    ensures { EndsListed old.now new.now w.now e f result }
{
    pairset::has(w, old.target(e), new.target(f))
}

// The last term of rule 4: whether the ends are listed for each edge of a new node that is opposite to the old edge e, where `last` is what
// `versions::last_opposite` found.
fn opposites_listed(
    old: &Program,
    new: &Program,
    w: &[usize],
    e: usize,
    last: Option<usize>,
) -> bool
    ensures { OppositesListed old.now new.now w.now e (place last) result }
{
    let mut next = last;
    while let Some(f) = next {
        if !ends_listed(old, new, w, e, f) {
            return false;
        }
        next = versions::opposite_before(old, new, e, f);
    }
    true
}

// Rule 4 of the old edge e at the new node k: e is listed under D, or, for every word for which it is taken, k takes an edge and the ends are
// listed.
fn edge_kept(old: &Program, new: &Program, w: &[usize], sets: &[u64], e: usize, k: usize) -> bool
    ensures { EdgeKept old.now new.now w.now sets.now e k result }
{
    if coverage::in_set(sets, e) {
        return true;
    }
    if let Some(f) = versions::sole_opposite(old, new, e, k) {
        return ends_listed(old, new, w, e, f);
    }
    let last = versions::last_opposite(old, new, e, k);
    if versions::word_lost(old, new, e, k, last) {
        return false;
    }
    opposites_listed(old, new, w, e, last)
}

// Whether each edge of the old node n is kept at the new node k.
fn all_kept(old: &Program, new: &Program, w: &[usize], sets: &[u64], n: usize, k: usize) -> bool
    ensures { AllKept old.now new.now w.now sets.now n k result }
{
    let mut next = old.last_edge(n);
    while let Some(e) = next {
        if !edge_kept(old, new, w, sets, e, k) {
            return false;
        }
        next = old.edge_before(e);
    }
    true
}

// Rule 4 of the pair (n, k): where it may go on, each edge of n is kept at k.
fn edges_kept(old: &Program, new: &Program, w: &[usize], sets: &[u64], n: usize, k: usize) -> bool
    ensures { EdgesKept old.now new.now w.now sets.now n k result }
{
    !versions::goes_on(old, new, w, n, k) || all_kept(old, new, w, sets, n, k)
}

// Whether the test `keeps` passes each of the m pairs.
fn all_pairs<F: Fn(usize, usize) -> bool>(w: &[usize], m: usize, keeps: F) -> bool
    requires { F.IsAlwaysCallable keeps }
    ensures { AllPairs F.Fn keeps w.now m result }
{
    for i in 0..m {
        if !keeps(pairset::old_of(w, i), pairset::new_of(w, i)) {
            return false;
        }
    }
    true
}

// Rule 2: the nodes of each of the m pairs are alike.
fn rule2(old: &Program, new: &Program, w: &[usize], m: usize) -> bool
    ensures { Rule2 old.now new.now w.now m result }
{
    all_pairs(w, m, |n, k| versions::alike(old, new, n, k))
}

// Rule 3: the entries of the callees of each are listed, up to the first whose exits are not.
fn rule3(old: &Program, new: &Program, w: &[usize], m: usize) -> bool
    ensures { Rule3 old.now new.now w.now m result }
{
    all_pairs(w, m, |n, k| versions::entered(old, new, w, n, k))
}

// Rule 4: the edges of each are kept.
fn rule4(old: &Program, new: &Program, w: &[usize], m: usize, sets: &[u64]) -> bool
    ensures { Rule4 old.now new.now w.now m sets.now result }
{
    all_pairs(w, m, |n, k| edges_kept(old, new, w, sets, n, k))
}

// Rule 5 of the test i: it is listed, if its coverage holds a D edge.
fn test_kept(suite: &Suite, sets: &[u64], i: usize) -> bool
    requires { i < 200 }
    ensures { TestKept suite.now.rows sets.now i result }
{
    !suite.meets(i, sets) || coverage::in_set(sets, 1024 + i)
}

// Rule 5, for all tests.
fn rule5(suite: &Suite, sets: &[u64]) -> bool
    requires { suite.now.count ≤ 200 }
    ensures { Rule5 suite.now.rows suite.now.count sets.now result }
{
    for i in 0..suite.count() {
        if !test_kept(suite, sets, i) {
            return false;
        }
    }
    true
}

// The first broken rule, if there is one, where the sheet lists m pairs.
fn judge(
    old: &Program,
    new: &Program,
    w: &[usize],
    m: usize,
    suite: &Suite,
    sets: &[u64],
) -> Result<(), Rule>
    requires { suite.now.count ≤ 200 }
    ensures { Judges old.now new.now w.now m suite.now.rows suite.now.count sets.now (first_broken result) }
{
    if !rule1(old, new, w) {
        Err(Rule::Start)
    } else if !rule2(old, new, w, m) {
        Err(Rule::Alike)
    } else if !rule3(old, new, w, m) {
        Err(Rule::Entered)
    } else if !rule4(old, new, w, m, sets) {
        Err(Rule::Kept)
    } else if !rule5(suite, sets) {
        Err(Rule::Listed)
    } else {
        Ok(())
    }
}

// Checks a sheet within the bounds, for the programs and the tests of a job: its refusal, or that the first broken rule makes a claim false.
// What the tables `w` and `sets` hold afterwards is left open.
pub fn check_sheet(
    bounds: Bounds,
    old: &Program,
    new: &Program,
    suite: &Suite,
    sheet: &[u8],
    w: &mut [usize],
    sets: &mut [u64],
) -> Result<(), Refusal>
    requires bounded { Bounded bounds }
    requires room { (suite.now.count ≤ 200) × (pair_base + 3 * bounds.limit ≤ length w.old) × (20 ≤ length sets.old) }
    ensures { Checks bounds.limit old.now new.now bounds.olds bounds.news bounds.edges suite.now.text suite.now.names suite.now.rows suite.now.count sheet.now (seen result) }
{
    let pairs = sheet_reader::read_sheet(bounds, sheet, suite, w, sets)?;
    judge(old, new, w, pairs, suite, sets).map_err(|rule| Refusal {
        fault: Fault::ClaimFalse,
        place: rule.number(),
    })
}
