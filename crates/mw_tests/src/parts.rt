// Cuts, gates and the workload.
use mw_gate::{Gate, MeetGate, NoGate};
use mw_gen::generate;
use mw_split::{BagSplits, ListSplits};
use std::alloc::{AllocError, Global};
use std::test::Fail;
use std::thread::join;

/// What stands before each cut in the lists below.
const CUT: usize = 9;

/// A multiset's cuts in order, as one list. Past the last one there is none, however often it is asked.
fn bag_cuts(alloc: Global, counts: &[usize], parts: usize) -> Result<Vec<usize>, AllocError> {
    let mut splits = BagSplits::new(alloc, counts, parts)?;
    let mut seen = Vec::new(alloc);
    for _ in 0..5 {
        if splits.advance() {
            seen.push(CUT)?;
            seen.extend_from_slice(splits.cut())?;
        }
    }
    Ok(seen)
}

fn list_cuts(alloc: Global, len: usize, parts: usize) -> Result<Vec<usize>, AllocError> {
    let mut splits = ListSplits::new(alloc, len, parts)?;
    let mut seen = Vec::new(alloc);
    for _ in 0..5 {
        if splits.advance() {
            seen.push(CUT)?;
            seen.extend_from_slice(splits.cut())?;
        }
    }
    Ok(seen)
}

/// The counts of a multiset's elements, how many parts, and the cuts.
type Cuts = (&'static [usize], usize, &'static [usize]);

#[test]
fn bags_and_lists_are_cut(rt: HostRuntime) -> Result<(), Fail> {
    let alloc = rt.alloc();
    let rows: [Cuts; 11] = [
        (&[], 0, &[9]),
        (&[], 2, &[9]),
        (&[0], 0, &[9]),
        (&[0], 2, &[9, 0, 0]),
        (&[1], 0, &[]),
        (&[2], 0, &[]),
        (&[3], 1, &[9, 3]),
        (&[2, 1], 1, &[9, 2, 1]),
        (&[0, 1], 2, &[9, 0, 0, 0, 1, 9, 0, 1, 0, 0]),
        (
            &[1, 1],
            2,
            &[9, 0, 0, 1, 1, 9, 0, 1, 1, 0, 9, 1, 0, 0, 1, 9, 1, 1, 0, 0],
        ),
        (&[2], 2, &[9, 0, 2, 9, 1, 1, 9, 2, 0]),
    ];
    for (counts, parts, cuts) in rows {
        assert_eq!(rt;
            bag_cuts(alloc, counts, parts)?.as_slice(),
            cuts,
            "{counts:?}, {parts}"
        );
        if let [len] = counts {
            assert_eq!(rt;
                list_cuts(alloc, *len, parts)?.as_slice(),
                cuts,
                "{len}, {parts}"
            );
        }
    }
    Ok(())
}

/// One claim and one receipt, as a worker tells them.
fn tell<G: Gate>(gate: &G, n: u64) {
    gate.claimed(n);
    gate.given(n);
}

#[test]
fn two_threads_meet_and_one_alone_does_not(rt: HostRuntime) {
    tell(&NoGate, 7);
    for turns in [0, 1000] {
        let gate = MeetGate::new(turns);
        assert!(rt; !gate.met());
        assert_eq!(rt; gate.receipts(), 0);
        tell(&gate, 7);
        tell(&gate, 8);
        assert!(rt; !gate.met());
        assert_eq!(rt; gate.receipts(), 2);
    }
    let gate = MeetGate::new(1_000_000_000);
    join(&rt, || tell(&gate, 7), || tell(&gate, 8));
    assert!(rt; gate.met());
    assert_eq!(rt; gate.receipts(), 2);
}

const MODULE: &str = "omod GEN is
  pr NAT .
  subsort Nat < Oid .
  class Account | bal : Nat .
  msg move : Oid Oid Nat -> Msg .
  op accounts : Nat -> Configuration .
  op moves : Nat Nat -> Configuration .
  vars I J K N B D : Nat .
  eq accounts(0) = none .
  eq accounts(s I) = < I : Account | bal : 100 > accounts(I) .
  eq moves(0, N) = none .
  eq moves(s I, N) = move(I, s I rem N, s (I rem 9)) moves(I, N) .
  crl [move] : move(I, J, K) < I : Account | bal : B > < J : Account | bal : D >
    => < I : Account | bal : sd(B, K) > < J : Account | bal : (D + K) > if K <= B .
endom
";

#[test]
fn the_least_and_the_most_workload(rt: HostRuntime) -> Result<(), Fail> {
    let alloc = rt.alloc();
    let least = format!(in alloc; "{MODULE}rewrite accounts(2) moves(2, 2) .\n")?;
    assert_eq!(rt; generate(alloc, 2)?.as_slice(), least.as_bytes());
    let most = format!(in alloc; "{MODULE}rewrite accounts(2000) moves(2000, 2000) .\n")?;
    assert_eq!(rt; generate(alloc, 2000)?.as_slice(), most.as_bytes());
    Ok(())
}
