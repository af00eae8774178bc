// The search for a dangerous edge in a row, exported alone: for the benchmark and for outside vectors. It is no call for makers.
#![tactic(auto, using(crate::proofs::Laws::told))]

ghost use Rattle.std.specs.Prelude.{◌≡◌};
ghost use Rattle.coverage.specs.Rows.{first_common};
ghost use Rattle.row_search.specs.Numbers.{edge_number};

// The lowest edge that the row and the set both have; 1,024 where there is none. Words that a slice does not have are 0, and 16 are looked at.
#[unsafe(no_mangle)]
pub extern "C" fn row_search(row: &[u64], dangers: &[u64]) -> usize
    ensures { result ≡ edge_number (first_common row.now dangers.now) }
{
    coverage::first_danger(row, dangers).unwrap_or(1024)
}
