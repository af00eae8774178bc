// The pairs of two versions in memory: the smallest set with the closing rules, found by passes over the pairs found so far, until one adds nothing or
// no pair has to wait in it. A visit of a pair that may go on also finds the old edges that are dangerous for it.
// None says that there are more pairs than the limit; every function passes it on. What the table holds then is left open, and what it holds behind
// its pairs always.
#![tactic(auto)]

ghost use Rattle.std.specs.Prelude.{◌≤◌};
ghost use Rattle.std.specs.Option.{IfSome};
ghost use Rattle.laws.specs.Places.{place};
ghost use Rattle.closure.specs.Claims.{
  AddsEntries,
  Closes,
  Enters,
  EntersCallee,
  EntersCallees,
  Finds,
  Follows,
  Grows,
  MarksLost,
  Passes,
  Sized,
  TriesEdge,
  TriesEnds,
  Visits,
  counted,
  grown,
  is_settled,
};

use versions::Program;

// What a pass, or a step of it, came to: how many pairs there are, and whether it is settled: no pair had to wait in it for the exits of its callees.
#[derive(Clone, Copy)]
pub struct Growth {
    pub count: usize,
    pub settled: bool,
}

// What a search for pairs goes by: the two versions, the groups of the nodes of the new one, and how many pairs there may be.
#[derive(Clone, Copy)]
struct Search<'a> {
    old: &'a Program<'a, 'a>,
    new: &'a Program<'a, 'a>,
    groups: &'a [usize],
    limit: usize,
}

impl<'a> Search<'a> {
    // Adds the pair (a, b), which is not there, if the limit allows it.
    #[tactic(auto, using(crate::proofs::Laws::grows))]
    fn grow(&self, w: &mut [usize], count: usize, a: usize, b: usize) -> Option<usize>
        requires { count ≤ self.now.limit }
        ensures few { IfSome result (λ c. c ≤ self.now.limit) }
        ensures grows { Sized w.old w.new (Grows self.now.limit w.old count a b w.new (counted self.now.limit result)) }
    {
        if self.limit <= count {
            return None;
        }
        pairset::append(w, count, a, b);
        Some(count + 1)
    }

    // Adds the entries of the old procedure q and the new procedure k, where they are no pair.
    #[tactic(auto, using(crate::proofs::Laws::entries))]
    fn add_entries(&self, w: &mut [usize], count: usize, q: usize, k: usize) -> Option<usize>
        requires { count ≤ self.now.limit }
        ensures few { IfSome result (λ c. c ≤ self.now.limit) }
        ensures adds { Sized w.old w.new
            (AddsEntries self.now.old.now self.now.new.now self.now.limit
            w.old count q k w.new (counted self.now.limit result)) }
    {
        let a = self.old.entry(q);
        let b = self.new.entry(k);
        if pairset::has(w, a, b) {
            return Some(count);
        }
        self.grow(w, count, a, b)
    }

    // Rule 2 for the callees q and p of a pair: adds their entries. It is settled if their exits are a pair.
    #[tactic(auto, using(crate::proofs::Laws::callees))]
    fn enter_callee(&self, w: &mut [usize], had: usize, q: usize, p: usize) -> Option<Growth>
        requires { had ≤ self.now.limit }
        ensures few { IfSome result (λ g. g.count ≤ self.now.limit) }
        ensures enters { Sized w.old w.new
            (EntersCallee self.now.old.now self.now.new.now self.now.limit
            w.old had q p w.new (grown self.now.limit result) (is_settled result)) }
    {
        let count = self.add_entries(w, had, q, p)?;
        let settled = versions::exits_paired(self.old, self.new, w, q, p);
        Some(Growth { count, settled })
    }

    // Rule 2 for the callees of a pair, which are the digits of k and l: each in turn, until the exits of one are no pair. It is settled if there is no
    // such one.
    #[tactic(auto, using(crate::proofs::Turns::enters))]
    fn enter_callees(&self, w: &mut [usize], had: usize, k: usize, l: usize) -> Option<Growth>
        requires { had ≤ self.now.limit }
        ensures few { IfSome result (λ g. g.count ≤ self.now.limit) }
        ensures enters { Sized w.old w.new
            (EntersCallees self.now.old.now self.now.new.now self.now.limit
            w.old had k l w.new (grown self.now.limit result) (is_settled result)) }
    {
        let mut count = had;
        let mut a = k;
        let mut b = l;
        while 0 < a {
            let one = self.enter_callee(w, count, versions::callee(a), versions::callee(b))?;
            count = one.count;
            if !one.settled {
                return Some(one);
            }
            a /= 256;
            b /= 256;
        }
        Some(Growth {
            count,
            settled: true,
        })
    }

    // Rule 2 for the pair (n, m). It is settled if the pair may go on by the pairs found so far. Only the kind of n is asked for: the nodes of a pair are
    // alike.
    #[tactic(auto, using(crate::proofs::Turns::calls))]
    fn enter(&self, w: &mut [usize], had: usize, n: usize, m: usize) -> Option<Growth>
        requires { had ≤ self.now.limit }
        ensures few { IfSome result (λ g. g.count ≤ self.now.limit) }
        ensures enters { Sized w.old w.new
            (Enters self.now.old.now self.now.new.now self.now.limit
            w.old had n m w.new (grown self.now.limit result) (is_settled result)) }
    {
        if !self.old.is_call(n) {
            return Some(Growth {
                count: had,
                settled: true,
            });
        }
        self.enter_callees(w, had, self.old.callees(n), self.new.callees(m))
    }

    // Marks the old edge e as dangerous if the new node m takes no edge for its word, where `last` is what `last_opposite` found.
    #[tactic(auto, using(crate::proofs::Laws::losts))]
    fn mark_lost(&self, w: &mut [usize], e: usize, m: usize, last: Option<usize>)
        ensures { Sized w.old w.new (MarksLost self.now.old.now self.now.new.now w.old e m (place last) w.new) }
    {
        if versions::word_lost(self.old, self.new, e, m, last) {
            pairset::mark_danger(w, e);
        }
    }

    // Rule 3 for the old edge e and the new edge f, which are opposite (taken for one word) and leave a pair that may go on: if the ends are not
    // alike, e is dangerous. Ends that are a pair already are alike, and are not compared again; nor, if the groups are to be asked, are those that are
    // known to be alike by the groups of the new nodes. The few edges that are opposite to `*`, or that `*` stands for, do without them: so either way is
    // called at one place, and the compiler puts the one by the groups into the search.
    #[tactic(auto, using(crate::proofs::Laws::ends))]
    fn try_ends<const GROUPS: bool>(
        &self,
        w: &mut [usize],
        count: usize,
        e: usize,
        f: usize,
    ) -> Option<usize>
        requires { count ≤ self.now.limit }
        ensures few { IfSome result (λ c. c ≤ self.now.limit) }
        ensures tries { Sized w.old w.new
            (TriesEnds self.now.old.now self.now.new.now self.now.groups.now self.now.limit
            w.old count e f w.new (counted self.now.limit result)) }
    {
        let a = self.old.target(e);
        let b = self.new.target(f);
        if pairset::has(w, a, b) {
            return Some(count);
        }
        if GROUPS && versions::known_alike(w, self.groups, a, b) {
            return self.grow(w, count, a, b);
        }
        if versions::alike(self.old, self.new, a, b) {
            return self.grow(w, count, a, b);
        }
        pairset::mark_danger(w, e);
        Some(count)
    }

    // Rule 3 for the old edge e and the new node m, whose pair may go on: if m takes no edge for the word of e, e is dangerous; then each edge of m that
    // is opposite to e. Only `*` has several.
    #[tactic(auto, using(crate::proofs::Turns::tries))]
    fn try_opposites(&self, w: &mut [usize], count: usize, e: usize, m: usize) -> Option<usize>
        requires { count ≤ self.now.limit }
        ensures few { IfSome result (λ c. c ≤ self.now.limit) }
        ensures tries { Sized w.old w.new
            (TriesEdge self.now.old.now self.now.new.now self.now.groups.now self.now.limit
            w.old count e m w.new (counted self.now.limit result)) }
    {
        let last = versions::last_opposite(self.old, self.new, e, m);
        self.mark_lost(w, e, m, last);
        let mut total = count;
        let mut place = last;
        while let Some(f) = place {
            total = self.try_ends::<false>(w, total, e, f)?;
            place = versions::opposite_before(self.old, self.new, e, f);
        }
        Some(total)
    }

    // The same, by the short way where there is one.
    #[tactic(auto, using(crate::proofs::Turns::soles))]
    fn try_edge(&self, w: &mut [usize], count: usize, e: usize, m: usize) -> Option<usize>
        requires { count ≤ self.now.limit }
        ensures few { IfSome result (λ c. c ≤ self.now.limit) }
        ensures tries { Sized w.old w.new
            (TriesEdge self.now.old.now self.now.new.now self.now.groups.now self.now.limit
            w.old count e m w.new (counted self.now.limit result)) }
    {
        match versions::sole_opposite(self.old, self.new, e, m) {
            Some(f) => self.try_ends::<true>(w, count, e, f),
            None => self.try_opposites(w, count, e, m),
        }
    }

    // Rule 3 for the pair (n, m), which may go on: each edge of the old node.
    #[tactic(auto, using(crate::proofs::Turns::follows))]
    fn follow(&self, w: &mut [usize], count: usize, n: usize, m: usize) -> Option<usize>
        requires { count ≤ self.now.limit }
        ensures few { IfSome result (λ c. c ≤ self.now.limit) }
        ensures follows { Sized w.old w.new
            (Follows self.now.old.now self.now.new.now self.now.groups.now self.now.limit
            w.old count n m w.new (counted self.now.limit result)) }
    {
        let mut total = count;
        let mut place = self.old.last_edge(n);
        while let Some(e) = place {
            total = self.try_edge(w, total, e, m)?;
            place = self.old.edge_before(e);
        }
        Some(total)
    }

    // Rules 2 and 3 for the pair x of the table: rule 3 where it may go on by the pairs found so far; otherwise it waits.
    #[tactic(auto, using(crate::proofs::Turns::visits))]
    fn visit(&self, w: &mut [usize], had: usize, x: usize) -> Option<Growth>
        requires { had ≤ self.now.limit }
        ensures few { IfSome result (λ g. g.count ≤ self.now.limit) }
        ensures visits { Sized w.old w.new
            (Visits self.now.old.now self.now.new.now self.now.groups.now self.now.limit
            w.old had x w.new (grown self.now.limit result) (is_settled result)) }
    {
        let n = pairset::old_of(w, x);
        let m = pairset::new_of(w, x);
        let entered = self.enter(w, had, n, m)?;
        if !entered.settled {
            return Some(entered);
        }
        let count = self.follow(w, entered.count, n, m)?;
        Some(Growth {
            count,
            settled: true,
        })
    }

    // One pass over the three rules: the entries of the first procedures, then each pair of the table, with those that are added on the way.
    #[tactic(auto, using(crate::proofs::Turns::passes))]
    fn pass(&self, w: &mut [usize], had: usize) -> Option<Growth>
        requires { had ≤ self.now.limit }
        ensures few { IfSome result (λ g. g.count ≤ self.now.limit) }
        ensures passes { Sized w.old w.new
            (Passes self.now.old.now self.now.new.now self.now.groups.now self.now.limit
            w.old had w.new (grown self.now.limit result) (is_settled result)) }
    {
        let mut count = self.add_entries(w, had, 0, 0)?;
        let mut settled = true;
        let mut x = 0;
        // the end moves as pairs are added
        while x < count {
            let next = self.visit(w, count, x)?;
            count = next.count;
            x += 1;
            settled &= next.settled;
        }
        Some(Growth { count, settled })
    }

    // Passes until one is settled or adds nothing.
    #[tactic(auto, using(crate::proofs::Turns::repeats))]
    fn repeat(&self, w: &mut [usize]) -> Option<usize>
        ensures few { IfSome result (λ c. c ≤ self.now.limit) }
        ensures finds { Sized w.old w.new
            (Finds self.now.old.now self.now.new.now self.now.groups.now self.now.limit
            w.old w.new (counted self.now.limit result)) }
    {
        let mut count = 0;
        loop {
            let next = self.pass(w, count)?;
            if next.settled || next.count <= count {
                return Some(next.count);
            }
            count = next.count;
        }
    }
}

// Finds all pairs and all dangerous edges, and puts them into the table: how many pairs there are, or None where there are more than the limit; what
// the table holds then is left open.
//
// The worst case. A pass visits each pair once; a visit looks up the entries and the exits of at most 4 callees, and tries the edges of the old
// node, at most 8. A try looks the edge's word up among those of the new node, at most 8, and if it is not there, `*`; it finds at most one opposite
// edge. A try of `*`, which a node has at most once, looks the word of each edge of the new node up among those of the old node in this way, and `*`
// among those of the new node; it finds at most 8. So a visit sets at most 15 pairs of ends against each other. A pair of ends is looked up by its
// bit; labels are compared only for ends that are no pair yet, and not known to be alike by the groups. There is at most one pass more than old
// procedures; one pass is enough where no call waits for its exits. A pass leaves out only what stands behind calls that wait, so one that adds a
// pair, after the first, does so from a call that waited for the exits of a callee, which became a pair in the pass before; the callees i of a pair
// have one name, so there are at most as many such passes as old procedures. If there are as many, the exits of every callee are a pair before the
// last of them, in which so no call waits, and no pass follows it. Otherwise one pass more, which adds nothing, is the last. At the limits of the
// files that is at most 65 * 4,096 * 8 tries, and 65 * 4,096 * 15 pairs of ends.
#[tactic(auto, using(crate::proofs::Turns::closes))]
pub fn close(old: &Program, new: &Program, limit: usize, w: &mut [usize]) -> Option<usize>
    requires { limit ≤ 4096 }
    ensures few { IfSome result (λ c. c ≤ limit) }
    ensures closes { Sized w.old w.new (Closes old.now new.now limit w.old w.new (counted limit result)) }
{
    // for a table without room nothing is promised; behind this test the compiler knows its length
    if w.len() < 4624 + 3 * limit {
        return Some(0);
    }
    pairset::empty(w);
    let mut groups = [0; 1024];
    versions::group(new, &mut groups);
    let search = Search {
        old,
        new,
        groups: &groups,
        limit,
    };
    search.repeat(w)
}
