//! Tests of comparisons: a bad solution among good ones, readers that fail, and a writer that fails
//! at each byte.

use crate::asserts::{same, same_at};
use crate::devices::{Drip, NEVER, Refusal, Trickle};
use crate::judge::files::{DUALS, THREE_NODES, TOUR};
use std::alloc::{AllocError, Global};
use std::io::ErrorKind;
use std::test::Fail;
use tsp_judge::{
    CertificateKind, ComparisonContext, Follow, Found, Output, RunFault, Solutions, Watched,
    WriteFault, run_compare,
};

/// Four solutions in memory. The last one fails at a read.
struct Four;

/// The solutions: the shortest tour, one with a node twice, a longer one, and one that breaks off.
const TEXTS: [&str; 4] = [
    TOUR,
    "TYPE : TOUR\nTOUR_SECTION\n1 2 1 -1\nEOF\n",
    "TYPE : TOUR\nTOUR_SECTION\n1 3 2 -1\nEOF\n",
    TOUR,
];

impl Solutions<Trickle<'static>> for Four {
    ghost use Rattle.std.specs.Prelude.{[], ◌∷◌, ⊤, codes};

    ghost names = { λ _. codes "a" ∷ codes "b c" ∷ codes "d" ∷ codes "e" ∷ [] };

    ghost opens = { λ _ _ _. ⊤ };

    fn count(&self) -> usize {
        4
    }

    fn name(&self, index: usize) -> &[u8] {
        match index {
            0 => b"a",
            1 => b"b c",
            2 => b"d",
            _ => b"e",
        }
    }

    fn open(&self, index: usize) -> Result<Trickle<'static>, AllocError> {
        let fails_at = if index == 3 { 20 } else { NEVER };
        Ok(Trickle::new(TEXTS[index].as_bytes(), fails_at, ErrorKind::Other))
    }
}

/// Counts the lines, and how many of them accept no solution.
#[derive(Clone, Copy, Debug, PartialEq, Eq)]
struct Counts {
    lines: usize,
    others: usize,
}

impl Follow<Counts> for Four {
    ghost use Rattle.std.specs.Prelude.{⊤};

    ghost tells = { λ _ _ _ _. ⊤ };

    fn written(&self, to: &mut Counts, _: &ComparisonContext, _: usize, found: &Found) {
        to.lines = to.lines.saturating_add(1);
        let yes = match found {
            Found::Solution { verdict, .. } => verdict.is_yes(),
            Found::Fault(_) => false,
        };
        if !yes {
            to.others = to.others.saturating_add(1);
        }
    }
}

/// What is left of a comparison with duals: its status, what its follower counted, and the writer.
/// (It has no contract, which the proofs of the tests would go through.)
fn compared(alloc: Global, writer: Drip) -> (Result<u8, RunFault>, Counts, Drip) {
    let mut inst = Watched::new(THREE_NODES.as_bytes());
    let mut certificate = Some((CertificateKind::Potentials, Watched::new(DUALS.as_bytes())));
    let mut out = Output::new(writer);
    let mut counts = Counts {
        lines: 0,
        others: 0,
    };
    let ended = run_compare(
        alloc,
        &mut inst,
        &mut certificate,
        &Four,
        false,
        &mut out,
        &mut counts,
    );
    let status = match ended {
        Ok(compared) => Ok(compared.status),
        Err(error) => Err(error.fault()),
    };
    (status, counts, out.into_inner())
}

/// The tour 1 3 2 has the length 10 + 10 + 10.
const TEXT: &str =
    "type ATSP\nnodes 3\nbound 6\n6 optimal a\nno RepeatedNode 3 b c\n30 gap 24 d\ndevice e\n";

#[test]
fn each_solution_has_its_line(rt: HostRuntime) {
    let (status, counts, writer) = compared(rt.alloc(), Drip::sound(rt.alloc()));
    same(&rt, status, Ok(5));
    let all = Counts {
        lines: 4,
        others: 2,
    };
    same(&rt, counts, all);
    same(&rt, writer.held(), TEXT.as_bytes());
    // the head, and each line when it is known
    same(&rt, writer.calls(), 5);
}

#[test]
fn a_writer_that_fails_ends_the_comparison(rt: HostRuntime) {
    for fails_at in 0..TEXT.len() {
        let writer = Drip::new(rt.alloc(), 1, fails_at, Refusal::Error(ErrorKind::Other));
        let (status, _, writer) = compared(rt.alloc(), writer);
        same_at(
            &rt,
            fails_at,
            status,
            Err(RunFault::Write(WriteFault::Device)),
        );
        let front = TEXT.as_bytes().get(..fails_at);
        same_at(&rt, fails_at, Some(writer.held()), front);
    }
}
