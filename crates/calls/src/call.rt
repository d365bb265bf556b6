// The first word of a line says which call it is.
use crate::words::{MISSING, passed};
use crate::{answers, before, cross, divide, edge_class, neigh, nextup, orient, segcmp};
use crossing::{ORDERED, PLAIN};

pub fn answer(line: &[u8], out: &mut [u8], at: usize) -> usize {
    let orient = passed(line, 0, b"orient");
    if orient != MISSING {
        return orient::answer(line, orient, out, at);
    }
    let cross = passed(line, 0, b"cross");
    if cross != MISSING {
        return cross::answer(line, cross, PLAIN, out, at);
    }
    let nextup = passed(line, 0, b"nextup");
    if nextup != MISSING {
        return nextup::answer(line, nextup, out, at);
    }
    records(line, out, at)
}

// The calls on records that divide none.
fn records(line: &[u8], out: &mut [u8], at: usize) -> usize {
    let before = passed(line, 0, b"before");
    if before != MISSING {
        return before::answer(line, before, out, at);
    }
    let segcmp = passed(line, 0, b"segcmp");
    if segcmp != MISSING {
        return segcmp::answer(line, segcmp, PLAIN, out, at);
    }
    let class = passed(line, 0, b"class");
    if class != MISSING {
        return edge_class::answer(line, class, out, at);
    }
    divisions(line, out, at)
}

// The calls that divide.
fn divisions(line: &[u8], out: &mut [u8], at: usize) -> usize {
    let divide = passed(line, 0, b"divide");
    if divide != MISSING {
        return divide::answer(line, divide, out, at);
    }
    let neigh = passed(line, 0, b"neigh");
    if neigh != MISSING {
        return neigh::answer(line, neigh, PLAIN, out, at);
    }
    ordered(line, out, at)
}

// The calls in the ordered mode of crossing.
fn ordered(line: &[u8], out: &mut [u8], at: usize) -> usize {
    let cross = passed(line, 0, b"ordered-cross");
    if cross != MISSING {
        return cross::answer(line, cross, ORDERED, out, at);
    }
    let segcmp = passed(line, 0, b"ordered-segcmp");
    if segcmp != MISSING {
        return segcmp::answer(line, segcmp, ORDERED, out, at);
    }
    let neigh = passed(line, 0, b"ordered-neigh");
    if neigh != MISSING {
        return neigh::answer(line, neigh, ORDERED, out, at);
    }
    answers::malformed(out, at)
}
