//! Operations that look random and are the same at each run.
use rga_ops::{Op, Refusal};
use test_fixtures::{Random, deletion, insertion};

/// An operation of one of three replicas. An identifier mostly has one insertion, which comes
/// again, before its parent or after its deletion; now and then it is another one.
pub fn random_op(random: &mut Random) -> Result<Op, Refusal> {
    let counter = (random.below(12) as u64).wrapping_add(1);
    let replica = random.replica();
    if random.below(4) == 0 {
        return deletion(counter, replica);
    }
    let usual = counter.wrapping_mul(5).checked_rem(7).unwrap_or(0);
    let above = usual.checked_rem(counter).unwrap_or(0);
    if random.below(20) > 0 {
        return insertion((counter, replica), (above, replica), 'a');
    }
    insertion((counter, replica), (above, random.replica()), 'b')
}
