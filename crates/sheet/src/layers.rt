// A layer's lines: its count, and its edges, which are stored as they are read.
ghost use Rattle.std.specs.Prelude.{◌≡◌, map, ◌+◌, drop, length};
ghost use Rattle.std.proofs.lemmas.List.Edits.{sets};
ghost use Rattle.sheet.specs.Reading.{over, count_from, count_of, edges_of, whole_by, layer_of};
ghost use Rattle.sheet.specs.Shown.{shown_count, begun, shown_layer, CountedLayer, reason_of};
ghost use Rattle.sheet.specs.Stored.{row_of};

use crate::edges::read_edge;
use crate::numerals::numeral;
use crate::rows::put_row;
use refusals::{Reason, Refusal};
use text::digits::read_decimal;
use text::words::{after, has_word};

// What is wrong with a count.
#[derive(Clone, Copy, Debug, PartialEq, Eq)]
enum Miscount {
    // It is above the limit.
    Many,
    // It is no number with a line of its own.
    Malformed,
}

impl From<Miscount> for Reason {
    ghost from_gives = { λ miscount reason. reason ≡ reason_of miscount };

    fn from(miscount: Miscount) -> Reason {
        match miscount {
            Miscount::Many => Reason::Size,
            Miscount::Malformed => Reason::Malformed,
        }
    }
}

// Whether a line feed stands at `at`, or nothing.
#[tactic(auto, unfolding(crate::specs::Reading::over))]
fn is_over(s: &[u8], at: usize) -> bool
    ensures { result ≡ over (drop at s.now) }
{
    if at >= s.len() {
        return true;
    }
    has_word(s, at, b"\n")
}

// The count whose n digits stand at `at`, at most `most`, and the place after its line.
fn count_from(s: &[u8], at: usize, n: usize, most: u32) -> Result<(u32, usize), Miscount>
    ensures { shown_count s.now result ≡ count_from most n (drop at s.now) }
{
    if n == 0 {
        return Err(Miscount::Malformed);
    }
    let end = after(at, n, s.len());
    if !is_over(s, end) {
        return Err(Miscount::Malformed);
    }
    let Some(v) = read_decimal(s, at, n) else {
        return Err(Miscount::Many);
    };
    if v > most as u64 {
        return Err(Miscount::Many);
    }
    if has_word(s, end, b"\n") {
        return Ok((v as u32, after(end, 1, s.len())));
    }
    Err(Miscount::Malformed)
}

// The count after a word at `at`.
fn read_count(s: &[u8], at: usize, word: &[u8], most: u32) -> Result<(u32, usize), Miscount>
    ensures { shown_count s.now result ≡ count_of word.now most (drop at s.now) }
{
    if !has_word(s, at, word) {
        return Err(Miscount::Malformed);
    }
    let digits = after(at, word.len(), s.len());
    count_from(s, digits, numeral(s, digits), most)
}

// How many edges were read, and the place after them.
#[derive(Clone, Copy)]
pub struct Section {
    pub count: u32,
    pub after: usize,
}

// Reads edges from `at` on until `count` are read or a line is none, and stores them, the first at `place`.
fn read_edges(s: &[u8], at: usize, count: u32, place: u32, rows: &mut [[u64; 5]]) -> Section
    ensures count_value { result.count ≡ length (edges_of count (drop at s.now)).list }
    ensures s_value { drop result.after s.now ≡ (edges_of count (drop at s.now)).rest }
    ensures rows_after { rows.new ≡ sets rows.old place (map row_of (edges_of count (drop at s.now)).list) }
{
    let mut line = at;
    for read in 0..count {
        let Some((e, next)) = read_edge(s, line) else {
            return Section {
                count: read,
                after: line,
            };
        };
        put_row(rows, place as usize, read as usize, e);
        line = next;
    }
    Section { count, after: line }
}

// The edges from `first` on, stored; a line that is none is told, where theirs begin after `line`.
fn read_whole(
    s: &[u8],
    first: usize,
    count: u32,
    line: u32,
    place: u32,
    rows: &mut [[u64; 5]],
) -> Result<Section, Refusal>
    ensures result_value { shown_layer (edges_of count (drop first s.now)).list s.now result ≡ whole_by (line + 1) (edges_of count (drop first s.now)).list (edges_of count (drop first s.now)).missing (edges_of count (drop first s.now)).rest }
    ensures counted_layer { CountedLayer (edges_of count (drop first s.now)).list result }
    ensures rows_after { rows.new ≡ sets rows.old place (map row_of (edges_of count (drop first s.now)).list) }
{
    let e = read_edges(s, first, count, place, rows);
    if e.count < count {
        return Err(Refusal {
            reason: Reason::Malformed,
            place: line as u64 + 1 + e.count as u64,
        });
    }
    Ok(e)
}

// The layer whose count stands after a word at `at`, in that line; the edges read are stored, also those of one that breaks off.
pub fn read_layer(
    s: &[u8],
    at: usize,
    word: &[u8],
    most: u32,
    line: u32,
    place: u32,
    rows: &mut [[u64; 5]],
) -> Result<Section, Refusal>
    ensures result_value { shown_layer (begun (count_of word.now most (drop at s.now))) s.now result ≡ layer_of word.now most line (drop at s.now) }
    ensures counted_layer { CountedLayer (begun (count_of word.now most (drop at s.now))) result }
    ensures rows_after { rows.new ≡ sets rows.old place (map row_of (begun (count_of word.now most (drop at s.now)))) }
{
    match read_count(s, at, word, most) {
        Ok((n, first)) => read_whole(s, first, n, line, place, rows),
        Err(miscount) => Err(Refusal {
            reason: miscount.into(),
            place: line as u64,
        }),
    }
}
