//! The run of numbers that the last axes of a descriptor make.
ghost use Rattle.std.specs.Prelude.{◌≢◌, ◌<◌, IfSome, IfNone};
ghost use Rattle.apl_base.specs.Array.{size_of};
ghost use Rattle.array_desc.specs.Rows.{IsRun, Joins};

use crate::desc::Desc;
use crate::steps::wrapped_product;
use apl_base::Cell;

/// The last axes, from axis `outer` on, as one run of `length` numbers that lie `step` apart.
#[derive(Clone, Copy)]
pub struct Run {
    pub outer: usize,
    pub length: u64,
    pub step: Cell,
}

/// The longest run that the last axes make.
pub fn last_run(desc: &Desc) -> Run
    requires { 0 < size_of desc.now.shape }
    ensures { IsRun desc.now result.outer result.length result.step }
{
    let strides = desc.strides.as_slice();
    let lengths = desc.shape.lengths();
    let mut run = Run {
        outer: lengths.len(),
        length: 1,
        step: 0,
    };
    for axis in (0..lengths.len()).rev() {
        match joined_step(run, strides[axis], lengths[axis]) {
            Some(step) => run = Run {
                outer: axis,
                length: run.length * lengths[axis],
                step,
            },
            None => return run,
        }
    }
    run
}

// The step of a run with an axis of n elements before it, where they make one run.
fn joined_step(run: Run, stride: Cell, n: u64) -> Option<Cell>
    ensures some { IfSome result (λ step. Joins stride n run.length run.step step) }
    ensures none { IfNone result (run.length ≢ 1) }
{
    if run.length == 1 {
        return Some(stride);
    }
    if n <= 1 || stride == wrapped_product(run.step, Cell::from(run.length)) {
        return Some(run.step);
    }
    None
}
