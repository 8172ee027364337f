// The standing after one that is closed, and the ranks of standings.
ghost use Rattle.std.specs.Prelude.{◌≡◌, ◌-◌, ◌<◌, ◌≤◌, take};
ghost use Rattle.meaning.specs.Plain.{product, rank};
ghost use Rattle.problem.specs.Laid.{size_of, clauses_from, clauses_in};
ghost use Rattle.search.specs.Standing.{Inside};
ghost use Rattle.search.specs.Places.{Advances};

use crate::Standing;
use problem::Problem;

// The standing after s and all under it, if there is one.
pub fn advance(p: &Problem, s: Standing) -> Option<Standing>
    requires { Inside p.now s.picks s.k }
    ensures { Advances p.now s result }
{
    for i in (0..s.k).rev() {
        let next = s.picks[i] + 1;
        if next < p.starts[i + 1] - p.starts[i] {
            let mut picks = s.picks;
            picks[i] = next;
            return Some(Standing { picks, k: i + 1 });
        }
    }
    None
}

// How many alternatives clause k has.
fn size(p: &Problem, k: usize) -> u64
    requires { k < p.now.m }
    ensures { result ≡ size_of p.now k }
{
    u64::from(p.starts[k + 1] - p.starts[k])
}

// How many selections the clauses from k on have.
pub fn under(p: &Problem, k: usize) -> u64
    requires { k ≤ p.now.m }
    ensures { result ≡ product (clauses_from p.now k (p.now.m - k)) }
{
    let mut all = 1u64;
    for i in (k..p.m).rev() {
        all = size(p, i) * all;
    }
    all
}

// The rank of a standing.
pub fn rank_of(p: &Problem, s: Standing) -> u64
    requires { Inside p.now s.picks s.k }
    ensures { result ≡ rank (clauses_in p.now) (take s.k s.picks) }
{
    let mut all = under(p, s.k);
    let mut before = 0u64;
    for i in (0..s.k).rev() {
        before = u64::from(s.picks[i]) * all + before;
        all = size(p, i) * all;
    }
    before
}
