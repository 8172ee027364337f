// The facts among which a reason is looked for: those that may lie on a closed row below 0 with the newest one.
ghost use Rattle.std.specs.Prelude.{◌≡◌, ◌+◌, ◌<◌, ◌≤◌, drop};
ghost use Rattle.meaning.specs.Limits.{most_events};
ghost use Rattle.problem.specs.Arcs.{at};
ghost use Rattle.problem.specs.Laid.{arcs};
ghost use Rattle.facts.specs.Tests.{places, Within};
ghost use Rattle.held.specs.Held.{held};
ghost use Rattle.taking.specs.Tables.{Held};
ghost use Rattle.search.specs.Narrowing.{Narrowed};

use facts::PLACES;
use held::Facts;
use problem::Problem;
use taking::closes;

// The newest of the facts f, and of the others, whose day is lent, those that may lie on a closed row below 0 with it.
pub fn narrowed<const W: usize>(p: &Problem, f: &Facts, day: &[[u32; W]; W]) -> Facts
    requires { Within (arcs p.now) (held f.now) p.now.n × (f.now.at < places) × (p.now.n ≤ W) × (W ≤ most_events) × Held W day.now }
    ensures { Narrowed W p.now f.now day.now result }
{
    let newest = f.buffer[f.at];
    let mut kept = Facts::none();
    for i in (f.at + 1..PLACES).rev() {
        let j = f.buffer[i];
        if closes(day, &p.arcs, usize::from(newest), usize::from(j)) {
            kept.put(j);
        }
    }
    kept.put(newest);
    kept
}
