//! Names of blocks: by its name a block is found wherever it stands.

use crate::block::Block;
use crate::finding::Hints;
use crate::near::Near;
use crate::place::Place;

/// Where an entry is looked for first that may stand there.
pub(crate) fn hints_of(names: &Vec<usize>, last: Place, near: Near) -> Hints {
    let block = names.get(near.block).copied().unwrap_or(0);
    Hints {
        last,
        near: Place {
            block,
            index: near.index,
        },
    }
}

/// A place, as others are told of it: the name is 0 where there is no such block.
pub(crate) fn near_at(blocks: &Vec<Block>, at: Place) -> Near {
    let block = match blocks.get(at.block) {
        Some(block) => block.name(),
        None => 0,
    };
    Near {
        block,
        index: at.index,
    }
}

/// The blocks from an index on stand where they stand now.
pub(crate) fn renumber(names: &mut Vec<usize>, blocks: &Vec<Block>, from: usize) {
    for index in from..blocks.as_slice().len() {
        let name = blocks[index].name();
        if name < names.as_slice().len() {
            names[name] = index;
        }
    }
}
