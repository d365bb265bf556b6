// The holes of every contour: the contours whose parent it is, in their order; those of one contour after those of another.
// A nest is what is kept of a contour: its first corner, where its corners end, its parent + 1 or 0, its depth.
#![tactic(auto)]

ghost use Rattle.std.specs.Prelude.{◌≡◌, ◌*◌, ◌≤◌, ◌<◌, set};
ghost use Rattle.holes.specs.Holes.{nest_in, pile, add_hole, piled, holes_at, holding, hold_one, held_from, holed_on};

use checks::sizes::MAX_EVENTS;

#[tactic(auto, unfolding(crate::specs::Holes::nest_in))]
fn nest_at(nests: &[[u32; 4]], j: u32) -> [u32; 4]
    ensures { result ≡ nest_in nests.now j }
{
    let at = j as usize;
    if nests.len() <= at {
        return [0, 0, 0, 0];
    }
    nests[at]
}

fn put_hole(holes: &mut [u32], i: u32, j: u32)
    ensures { holes.new ≡ set holes.old i j }
{
    let at = i as usize;
    if at < holes.len() {
        holes[at] = j;
    }
}

fn put_contour(contours: &mut [[u32; 6]], c: u32, row: [u32; 6])
    ensures { contours.new ≡ set contours.old c row }
{
    let at = c as usize;
    if at < contours.len() {
        contours[at] = row;
    }
}

// Contour j is put at the end if c is its parent.
#[tactic(auto, unfolding(crate::specs::Holes::add_hole))]
fn add_hole(nests: &[[u32; 4]], holes: &mut [u32], c: u32, end: u32, j: u32) -> u32
    requires { (c < 4096) × (end ≤ 4096 * 4096) }
    ensures { pile holes.new result ≡ add_hole nests.now c holes.old end j }
{
    let nest = nest_at(nests, j);
    let parent = nest[2];
    if parent == c + 1 {
        put_hole(holes, end, j);
        return end + 1;
    }
    end
}

// The holes of contour c among the first count, stored from first on; where they end.
fn holes_of(nests: &[[u32; 4]], holes: &mut [u32], count: u32, c: u32, first: u32) -> u32
    requires { (count ≤ 4096) × (c < 4096) × (first ≤ 4095 * 4096) }
    ensures { pile holes.new result ≡ piled holes.old first (holes_at nests.now c count 0) }
{
    let mut end = first;
    for j in 0..count {
        end = add_hole(nests, holes, c, end, j);
    }
    end
}

// Contour c whole, its holes stored from first on.
fn hold(
    nests: &[[u32; 4]],
    contours: &mut [[u32; 6]],
    holes: &mut [u32],
    count: u32,
    c: u32,
    first: u32,
) -> u32
    requires { (count ≤ 4096) × (c < 4096) × (first ≤ 4095 * 4096) }
    ensures { holding contours.new holes.new result ≡ hold_one nests.now count c contours.old holes.old first }
{
    let nest = nest_at(nests, c);
    let end = holes_of(nests, holes, count, c, first);
    put_contour(
        contours,
        c,
        [nest[0], nest[1], nest[2], nest[3], first, end - first],
    );
    end
}

fn hold_all(nests: &[[u32; 4]], contours: &mut [[u32; 6]], holes: &mut [u32], count: u32) -> u32
    requires { count ≤ 4096 }
    ensures { holding contours.new holes.new result ≡ held_from nests.now count count 0 contours.old holes.old 0 }
{
    let mut end = 0;
    for c in 0..count {
        end = hold(nests, contours, holes, count, c, end);
    }
    end
}

// The first count contours, whole; the number of holes. Where they are above the limit nothing is done.
#[tactic(auto, unfolding(crate::specs::Holes::holed_on))]
pub fn hold_contours(
    nests: &[[u32; 4]],
    contours: &mut [[u32; 6]],
    holes: &mut [u32],
    count: u32,
) -> u32
    ensures { holding contours.new holes.new result ≡ holed_on nests.now count contours.old holes.old }
{
    if count as usize > MAX_EVENTS {
        return 0;
    }
    hold_all(nests, contours, holes, count)
}
