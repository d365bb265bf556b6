// Parent and depth of a contour, by the edge below its first position (`initialize_from_context`).
ghost use Rattle.std.specs.Prelude.{◌≡◌, false};
ghost use Rattle.starts.specs.Steps.{place, mark_below, nest_at, context_of, Shallow};

#[derive(Clone, Copy)]
pub struct Place {
    // By 9: the edge below is OutIn and has no contour.
    pub refused: bool,
    // The parent + 1, or 0.
    pub parent: u32,
    pub depth: u32,
}

fn placed(parent: u32, depth: u32) -> Place
    ensures { result ≡ place false parent depth }
{
    Place {
        refused: false,
        parent,
        depth,
    }
}

// Above an edge that has no contour.
fn loose(out_in: bool) -> Place
    ensures { result ≡ place out_in 0 0 }
{
    Place {
        refused: out_in,
        parent: 0,
        depth: 0,
    }
}

// One outside the marks has no contour.
#[tactic(auto, unfolding(crate::specs::Steps::mark_below))]
fn mark_below(walked: &[u32], i: usize) -> u32
    ensures { result ≡ mark_below walked.now i }
{
    walked.get(i).copied().unwrap_or(0)
}

// Contour j, where there are count.
#[tactic(auto, unfolding(crate::specs::Steps::nest_at))]
fn nest_at(nests: &[[u32; 4]], count: u32, j: u32) -> [u32; 4]
    ensures { result ≡ nest_at nests.now count j }
{
    if count <= j {
        return [0; 4];
    }
    nests.get(j as usize).copied().unwrap_or([0; 4])
}

// below is the position of the edge below + 1, or 0 for none.
#[tactic(auto, unfolding(crate::specs::Steps::context_of, crate::specs::Steps::above_mark, crate::specs::Steps::above))]
pub fn context_of(walked: &[u32], nests: &[[u32; 4]], count: u32, below: u32, out_in: bool) -> Place
    requires { Shallow nests.now count 4096 }
    ensures { result ≡ context_of walked.now nests.now count below out_in }
{
    if below == 0 {
        return placed(0, 0);
    }
    let mark = mark_below(walked, (below - 1) as usize);
    if mark == 0 {
        return loose(out_in);
    }
    let nest = nest_at(nests, count, mark - 1);
    let parent = nest[2];
    let depth = nest[3];
    if out_in {
        if parent == 0 {
            return placed(mark, depth + 1);
        }
        return placed(parent, depth);
    }
    placed(0, depth)
}
