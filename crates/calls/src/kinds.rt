// The words of operations, edge types and transitions, each after one space, and the place after each.
use crate::words::{MISSING, passed};
use class::Operation;
use events::{EdgeType, ResultTransition};

// The first of these words that stands there.
fn kind<K: Copy>(line: &[u8], from: usize, words: &[(&str, K)]) -> Option<(K, usize)> {
    for (word, kind) in words {
        let after = passed(line, from, word.as_bytes());
        if after != MISSING {
            return Some((*kind, after));
        }
    }
    None
}

pub fn operation(line: &[u8], from: usize) -> Option<(Operation, usize)> {
    let words = [
        (" intersection", Operation::Intersection),
        (" union", Operation::Union),
        (" difference", Operation::Difference),
        (" xor", Operation::Xor),
    ];
    kind(line, from, &words)
}

pub fn edge_type(line: &[u8], from: usize) -> Option<(EdgeType, usize)> {
    let words = [
        (" normal", EdgeType::Normal),
        (" non", EdgeType::NonContributing),
        (" same", EdgeType::SameTransition),
        (" different", EdgeType::DifferentTransition),
    ];
    kind(line, from, &words)
}

pub fn transition(line: &[u8], from: usize) -> Option<(ResultTransition, usize)> {
    let words = [
        (" none", ResultTransition::None),
        (" inout", ResultTransition::InOut),
        (" outin", ResultTransition::OutIn),
    ];
    kind(line, from, &words)
}
