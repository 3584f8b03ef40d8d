//! Tests of the fixtures that refuse allocations: they fail if a call does not do what they expect.
use refused_growth::attempts::Attempt;
use std::alloc::Global;
use std::process::{ExitCode, Termination};
use std::test::Fail;
use test_fixtures::growths::{each_growth_refused, no_growth_needed};

// What a call does.
#[derive(Clone, Copy)]
enum Kind {
    /// It pushes both numbers, or none of them.
    Right,
    /// It pushes nothing, as it should.
    Idle,
    /// It keeps the first number if an allocation for the second fails.
    KeepsHalf,
    /// It reports success after an allocation failure.
    ClaimsSuccess,
}

// A call that pushes a number into each of two lists.
#[derive(Drop)]
struct Pushes {
    kind: Kind,
    first: Vec<u64>,
    second: Vec<u64>,
}

impl Pushes {
    // Pushes the numbers, and returns whether it reports success.
    fn push_both(&mut self, alloc: Global) -> bool {
        if let Kind::KeepsHalf = self.kind {
            return self.first.push(1).is_ok() && self.second.push(2).is_ok();
        }
        let mut second = Vec::new(alloc);
        if second.push(2).is_err() || self.first.push(1).is_err() {
            return matches!(self.kind, Kind::ClaimsSuccess);
        }
        self.second = second;
        true
    }
}

impl Attempt for Pushes {
    fn attempt(&mut self, alloc: Global) -> Option<bool> {
        if let Kind::Idle = self.kind {
            return Some(true);
        }
        if self.push_both(alloc) {
            return Some(self.first.len() == 1 && self.second.len() == 1);
        }
        if self.first.is_empty() && self.second.is_empty() {
            None
        } else {
            Some(false)
        }
    }
}

// A call of a kind.
fn call(alloc: Global, kind: Kind) -> Pushes {
    Pushes {
        kind,
        first: Vec::new(alloc),
        second: Vec::new(alloc),
    }
}

// Whether a fixture accepts a call. If not, the reason goes to standard error.
fn accepts(rt: &HostRuntime, outcome: Result<(), Fail>) -> bool {
    outcome.report(rt) != ExitCode::FAILURE
}

// Whether `each_growth_refused` accepts a call of a kind, and whether `no_growth_needed` does.
fn accepted(rt: &HostRuntime, kind: Kind) -> (bool, bool) {
    let alloc = rt.alloc();
    let refused = each_growth_refused(alloc, &mut call(alloc, kind));
    let needless = no_growth_needed(alloc, &mut call(alloc, kind));
    (accepts(rt, refused), accepts(rt, needless))
}

#[test]
fn other_calls_fail(rt: HostRuntime) -> Result<(), Fail> {
    assert_eq!(rt; accepted(&rt, Kind::Right), (true, false));
    assert_eq!(rt; accepted(&rt, Kind::Idle), (false, true));
    assert_eq!(rt; accepted(&rt, Kind::KeepsHalf), (false, false));
    assert_eq!(rt; accepted(&rt, Kind::ClaimsSuccess), (false, false));
    Ok(())
}
