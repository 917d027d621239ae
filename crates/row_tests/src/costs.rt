//! What statements take, as the trace tells it.

use crate::counted::COUNTED;
use crate::runs::{Left, PLAIN, run, run_for_variables};
use apl_base::Name;
use apl_run::Status;
use std::alloc::{AllocError, Global};
use std::test::Fail;

/// The lines of the statements that ended.
fn told(alloc: Global, left: &Left) -> Result<String, AllocError> {
    let mut told = String::new(alloc);
    for cost in left.costs.iter() {
        let line = format!(in alloc; "COST {} {} {}\n", cost.line, cost.begun, cost.ops)?;
        told.push_str(line.as_str())?;
    }
    Ok(told)
}

/// No statement takes more than its row says, and the trace has a line of each and of each global.
#[test]
fn bounds(rt: HostRuntime) -> Result<(), Fail> {
    for (script, code, printed, entries, globals, end) in COUNTED {
        let left = run(rt.alloc(), &["--trace"], script.as_bytes(), PLAIN)?;
        assert_eq!(rt; (script, left.code(), left.text()), (script, code, printed));
        assert_eq!(rt; (script, left.costs.len()), (script, entries.len()));
        for (cost, entry) in left.costs.iter().zip(entries) {
            assert_eq!(rt; (script, cost.line, cost.begun), (script, entry.0, entry.1));
            assert!(rt; cost.ops <= entry.2, "{} of {script}", cost.line);
        }
        assert!(rt; left.trace().starts_with(told(rt.alloc(), &left)?.as_str()));
        assert!(rt; left.trace().ends_with(end));
        assert_eq!(rt;
            left.trace().lines().count(),
            entries.len().saturating_add(globals)
        );
    }
    Ok(())
}

/// How many elements a variable has in the end, or none where it is unset.
fn elements_of(alloc: Global, script: &str, name: &str) -> Result<Option<u64>, Fail> {
    let mut ended = run_for_variables(alloc, script.as_bytes())?;
    let Status::Done = ended.status else {
        return Ok(None);
    };
    let name = Name::of(alloc, name)?;
    match ended.ws.value(&name)? {
        Some(value) => Ok(Some(value.shape.size())),
        None => Ok(None),
    }
}

/// Which variables there are in the end: one that a call changed, and none that only the call had.
#[test]
fn variables_in_the_end(rt: HostRuntime) -> Result<(), Fail> {
    let script = "∇Z←F X\nA[1]←9\nZ←0\n∇\nA←1 2\n(F 0)+A×10";
    assert_eq!(rt; elements_of(rt.alloc(), script, "A")?, Some(2));
    assert_eq!(rt; elements_of(rt.alloc(), script, "X")?, None);
    Ok(())
}
