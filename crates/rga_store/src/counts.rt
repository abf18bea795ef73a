//! What a store keeps as numbers beside its elements: its clock, and how many identifiers it knows.
ghost use Rattle.std.specs.Prelude.{◌≡◌, ◌≤◌, ◌+◌, ◌-◌, if◌then◌else◌, max};
ghost use Rattle.rga_store.specs.declared.text_store.TheConstants.{MAX_LIMIT};

/// The clock rises to a counter that is above it.
pub fn raise(clock: &mut u64, counter: u64)
    ensures { clock.new ≡ max clock.old counter }
{
    if *clock < counter {
        *clock = counter;
    }
}

/// One more, unless it was counted.
pub fn count_unless(counted: bool, count: &mut usize)
    requires { count.old ≤ MAX_LIMIT }
    ensures { count.new ≡ (if counted then count.old else count.old + 1) }
{
    if !counted {
        *count += 1;
    }
}

/// One less, unless it still counts.
pub fn uncount_unless(counts: bool, count: &mut usize)
    requires { (if counts then 0 else 1) ≤ count.old }
    ensures { count.new ≡ (if counts then count.old else count.old - 1) }
{
    if !counts {
        *count -= 1;
    }
}
