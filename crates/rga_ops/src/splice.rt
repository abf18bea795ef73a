//! Changes of a text by place.
use std::marker::Model;

/// Characters `lo` to `hi - 1` of a text are replaced by `put`. Places count characters, from 0.
#[derive(Debug, Drop)]
pub struct Splice {
    /// How many characters stand before what is replaced.
    pub lo: usize,
    /// Where what stays goes on.
    pub hi: usize,
    /// What stands there instead.
    pub put: Vec<char>,
}

impl Model for Splice {
    ghost use Rattle.rga_ops.specs.Splice as spec;

    ghost Value = { spec.Splice };

    ghost view = { λ s. record { lo = s.lo; hi = s.hi; put = s.put.items } };
}
