//! The run of a script over a source and sinks in memory.

ghost use Rattle.std.specs.Prelude.{IfOk};
ghost use Rattle.apl_run.specs.Statuses.{IsLasting};
ghost use Rattle.apl_run.specs.Workspaces.{IsLawfulWorkspace};

use apl_outside::{MemSink, MemSource};
use apl_run::{Cost, Ended, Status, aplm};
use std::alloc::{AllocError, Global};

/// How a run is made to go: the bytes of a piece, and the numbers of the calls that fail, 0 for none: of those that pull,
/// of those that push what is printed, and of those that push a line of the trace.
#[derive(Clone, Copy)]
pub struct Course {
    pub piece: usize,
    pub pull: u64,
    pub push: u64,
    pub line: u64,
}

/// A course on which nothing fails.
pub const PLAIN: Course = Course {
    piece: 64,
    pull: 0,
    push: 0,
    line: 0,
};

/// What a run left, but for its variables.
#[derive(Drop)]
pub struct Left {
    pub status: Status,
    pub costs: Vec<Cost>,
    pub printed: MemSink,
    pub traced: MemSink,
}

impl Left {
    /// The exit status.
    pub fn code(&self) -> u8 {
        self.status.code()
    }

    /// What was printed.
    pub fn text(&self) -> &str {
        text_of(&self.printed)
    }

    /// What the trace has.
    pub fn trace(&self) -> &str {
        text_of(&self.traced)
    }
}

// The text that a sink has, or none where its bytes are no text.
fn text_of(sink: &MemSink) -> &str {
    match str::from_utf8(sink.bytes()) {
        Ok(text) => text,
        Err(_) => "",
    }
}

/// Runs a script with these words.
pub fn run(
    alloc: Global,
    words: &[&str],
    script: &[u8],
    course: Course,
) -> Result<Left, AllocError> {
    let mut printed = sink(alloc, course.piece, course.push)?;
    let mut traced = sink(alloc, course.piece, course.line)?;
    let Ended { status, costs, .. } = end(alloc, words, script, course, &mut printed, &mut traced)?;
    Ok(Left {
        status,
        costs,
        printed,
        traced,
    })
}

/// Runs a script without words, on a course on which nothing fails, for its variables.
pub fn run_for_variables(alloc: Global, script: &[u8]) -> Result<Ended, AllocError>
    ensures { IfOk result (λ ended. IsLasting ended.status → IsLawfulWorkspace ended.ws) }
{
    let mut printed = sink(alloc, PLAIN.piece, PLAIN.push)?;
    let mut traced = sink(alloc, PLAIN.piece, PLAIN.line)?;
    end(alloc, &[], script, PLAIN, &mut printed, &mut traced)
}

// The end of a script with these words, over these sinks.
fn end(
    alloc: Global,
    words: &[&str],
    script: &[u8],
    course: Course,
    printed: &mut MemSink,
    traced: &mut MemSink,
) -> Result<Ended, AllocError>
    ensures { IfOk result (λ ended. IsLasting ended.status → IsLawfulWorkspace ended.ws) }
{
    let mut given = Vec::new(alloc);
    for word in words {
        given.push(String::from_str(alloc, word)?)?;
    }
    let bytes = Vec::from_slice(alloc, script)?;
    let failing = Vec::from_slice(alloc, &[course.pull])?;
    let mut src = MemSource::new(bytes, course.piece.max(1), failing);
    Ok(aplm(alloc, given.as_slice(), &mut src, printed, traced))
}

// A sink that takes pieces of so many bytes, at least one, and fails at one of its calls.
fn sink(alloc: Global, piece: usize, failing: u64) -> Result<MemSink, AllocError> {
    let failing = Vec::from_slice(alloc, &[failing])?;
    MemSink::new(alloc, 65536, piece.max(1), failing).map_err(|_| AllocError)
}
