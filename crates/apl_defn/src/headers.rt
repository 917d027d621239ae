//! Headers: the first lines of definitions.
ghost use Rattle.std.specs.Prelude.{◌≡◌, true, [], IfOk};
ghost use Rattle.apl_model.specs.Refusal as refusal;
ghost use Rattle.apl_model.specs.Script.{opens, IsHeadOf};
ghost use Rattle.apl_defn.specs.HeaderSteps as step;
ghost use Rattle.apl_defn.specs.Reading.{IsReadLine, IfStopped};

use crate::line_faults::{LineFault, ends_early};
use apl_base::{Name, NoMemory};
use apl_model::{Header, Line, Word};
use sqlite_items::Items;
use std::alloc::Global;

/// What was read of a first line of a definition, from the left.
#[derive(Drop)]
enum HeaderSoFar {
    /// `∇` alone.
    Opened,
    /// A header without locals. A name may follow, as long as it has no left argument, and `←` behind one name.
    Named { header: Header },
    /// The result with its `←`.
    Assigned { result: Name },
    /// A header and `;`.
    Semicolon { header: Header },
    /// A header with locals.
    Local { header: Header },
}

impl HeaderSoFar {
    /// With one word more, where a header goes on with it.
    fn take(self, alloc: Global, word: &Word) -> Result<Option<HeaderSoFar>, NoMemory>
        ensures { IfOk result (λ next. next ≡ step.takes self word.now) }
    {
        match word {
            Word::Name { name } => self.take_name(alloc, name.copy(alloc)?),
            Word::Glyph { glyph: '←' } => Ok(self.take_arrow()),
            Word::Glyph { glyph: ';' } => Ok(self.take_semicolon()),
            _ => Ok(None),
        }
    }

    /// With one name more.
    fn take_name(self, alloc: Global, name: Name) -> Result<Option<HeaderSoFar>, NoMemory>
        ensures { IfOk result (λ next. next ≡ step.takes_name self name) }
    {
        match self {
            HeaderSoFar::Opened => Ok(Some(named(alloc, None, name))),
            HeaderSoFar::Named { header } => Ok(with_argument(header, name)),
            HeaderSoFar::Assigned { result } => Ok(Some(named(alloc, Some(result), name))),
            HeaderSoFar::Semicolon { mut header } => {
                header.locals.push(name)?;
                Ok(Some(HeaderSoFar::Local { header }))
            }
            HeaderSoFar::Local { header: _header } => Ok(None),
        }
    }

    /// With `←`: the one name before it is that of the result.
    fn take_arrow(self) -> Option<HeaderSoFar>
        ensures { result ≡ step.takes_arrow self }
    {
        match self {
            HeaderSoFar::Named {
                header: Header {
                    f,
                    result: None,
                    left: None,
                    right: None,
                    ..
                },
            } => Some(HeaderSoFar::Assigned { result: f }),
            _ => None,
        }
    }

    /// With `;`, behind which a local stands.
    fn take_semicolon(self) -> Option<HeaderSoFar>
        ensures { result ≡ step.takes_semicolon self }
    {
        match self {
            HeaderSoFar::Named { header } | HeaderSoFar::Local { header } => {
                Some(HeaderSoFar::Semicolon { header })
            }
            _ => None,
        }
    }

    /// The header, where it may end here.
    fn finish(self) -> Option<Header>
        ensures { result ≡ step.finished self }
    {
        match self {
            HeaderSoFar::Named { header } | HeaderSoFar::Local { header } => Some(header),
            _ => None,
        }
    }
}

/// The header of a function without arguments.
fn named(alloc: Global, own_result: Option<Name>, f: Name) -> HeaderSoFar
    ensures { result ≡ step.named own_result f }
{
    HeaderSoFar::Named {
        header: Header {
            f,
            result: own_result,
            left: None,
            right: None,
            locals: Items::new(alloc),
        },
    }
}

/// The header with one argument more, where it has at most one: a second one makes the name before it the function's.
fn with_argument(header: Header, name: Name) -> Option<HeaderSoFar>
    ensures { result ≡ step.with_argument header name }
{
    let Header {
        f,
        result,
        left,
        right,
        locals,
    } = header;
    match (left, right) {
        (None, None) => Some(HeaderSoFar::Named {
            header: Header {
                f,
                result,
                left: None,
                right: Some(name),
                locals,
            },
        }),
        (None, Some(own)) => Some(HeaderSoFar::Named {
            header: Header {
                f: own,
                result,
                left: Some(f),
                right: Some(name),
                locals,
            },
        }),
        _ => None,
    }
}

/// The header that the first line of a definition is, or the column of the first token that no header goes on with,
/// or one past the last token.
pub(crate) fn read_header(alloc: Global, line: &Line) -> Result<Header, LineFault>
    requires read { IsReadLine line.now }
    requires opens { opens line.now.tokens ≡ true }
    ensures header { IfOk result (IsHeadOf line.now) }
    ensures stopped { IfStopped result
        (refusal.StopsAt refusal.first_line [] line.now.number line.now.tokens) }
{
    let _text = line.text.as_str();
    let tokens = line.tokens.as_slice();
    let mut header = HeaderSoFar::Opened;
    for token in &tokens[1..] {
        match header.take(alloc, &token.word)? {
            Some(next) => header = next,
            None => return Err(LineFault::Stopped { column: token.from }),
        }
    }
    match header.finish() {
        Some(header) => Ok(header),
        None => Err(ends_early(tokens)),
    }
}
