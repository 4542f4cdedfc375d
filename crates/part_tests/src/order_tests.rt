// Values from outside: orders written down by hand. A test makes its orders and lends them out: the
// check of a function that owns one takes the longer the more it does.
use room::Room;
use std::alloc::Global;
use std::process::Abort;
use std::test::Fail;
use trace_seq::ChunkSeq;

// Reserves and inserts, where the call may be made; whether it was.
fn try_insert(alloc: Global, seq: &mut ChunkSeq, p: u32, id: usize) -> Result<bool, Fail> {
    if p == 0 || seq.len() == u32::MAX || p > seq.len() + 1 {
        return Ok(false);
    }
    seq.reserve_one(&mut Room::new(alloc))?;
    seq.insert(p, id);
    Ok(true)
}

// Reserves and moves, where the call may be made; whether it was.
fn try_move(alloc: Global, seq: &mut ChunkSeq, a: u32, b: u32) -> Result<bool, Fail> {
    if a == 0 || b == 0 || a > seq.len() || b > seq.len() {
        return Ok(false);
    }
    seq.reserve_one(&mut Room::new(alloc))?;
    seq.move_to(a, b);
    Ok(true)
}

// Removes, where the call may be made; whether it was.
fn try_remove(seq: &mut ChunkSeq, p: u32) -> bool {
    if p == 0 || p > seq.len() {
        return false;
    }
    seq.remove(p);
    true
}

// 2000 ids, each put in front.
fn fill(rt: &impl Abort, alloc: Global, seq: &mut ChunkSeq) -> Result<(), Fail> {
    for id in 0..2000 {
        assert!(rt; try_insert(alloc, seq, 1, id)?);
    }
    assert_eq!(rt; seq.len(), 2000);
    assert_eq!(rt; seq.get(1), Some(1999));
    Ok(())
}

// 2000 ids; the first of them moved behind all; removed there.
fn fill_and_move(rt: &impl Abort, alloc: Global, seq: &mut ChunkSeq) -> Result<(), Fail> {
    fill(rt, alloc, seq)?;
    assert!(rt; try_move(alloc, seq, 1, 2000)?);
    assert_eq!(rt; seq.get(2000), Some(1999));
    assert_eq!(rt; seq.get(1999), Some(0));
    remove_the_last(rt, seq);
    Ok(())
}

fn remove_the_last(rt: &impl Abort, seq: &mut ChunkSeq) {
    assert!(rt; try_remove(seq, 2000));
    assert_eq!(rt; seq.get(2000), None);
    assert_eq!(rt; seq.get(1), Some(1998));
    assert_eq!(rt; seq.get(0), None);
}

// Removes each position that 20 does not divide, the last first.
fn thin(seq: &mut ChunkSeq) {
    for p in (1..2000).rev() {
        if p % 20 != 0 {
            let _ = try_remove(seq, p);
        }
    }
}

fn expect_one_chunk(rt: &impl Abort, seq: &ChunkSeq) {
    assert_eq!(rt; seq.len(), 99);
    assert_eq!(rt; seq.chunks(), 1);
    assert_eq!(rt; seq.get(1), Some(1979));
    assert_eq!(rt; seq.get(99), Some(19));
}

fn fill_and_thin(rt: &impl Abort, alloc: Global, seq: &mut ChunkSeq) -> Result<(), Fail> {
    assert_eq!(rt; seq.chunks(), 0);
    fill_and_move(rt, alloc, seq)?;
    assert!(rt; seq.chunks() <= 16);
    assert!(rt; seq.chunks() > 3);
    thin(seq);
    expect_one_chunk(rt, seq);
    Ok(())
}

#[test]
fn chunk_row(rt: HostRuntime) -> Result<(), Fail> {
    let mut seq = ChunkSeq::new(rt.alloc());
    fill_and_thin(&rt, rt.alloc(), &mut seq)
}

fn expect_all_ids(rt: &impl Abort, seq: &ChunkSeq) {
    let mut ids = seq.ids();
    for id in (0..1999).rev() {
        assert_eq!(rt; ids.next(), Some(id));
    }
    assert_eq!(rt; ids.next(), None);
    assert_eq!(rt; ids.next(), None);
}

fn expect_each_20th_id(rt: &impl Abort, seq: &ChunkSeq) {
    assert_eq!(rt; seq.ids().next(), Some(1979));
    assert_eq!(rt; seq.ids().last(), Some(19));
    let mut left: u32 = 0;
    for _id in seq.ids() {
        left = left.saturating_add(1);
    }
    assert_eq!(rt; left, 99);
}

fn give_ids(rt: &impl Abort, alloc: Global, seq: &mut ChunkSeq) -> Result<(), Fail> {
    assert_eq!(rt; seq.ids().next(), None);
    fill_and_move(rt, alloc, seq)?;
    expect_all_ids(rt, seq);
    thin(seq);
    expect_each_20th_id(rt, seq);
    Ok(())
}

#[test]
fn gives_ids_in_order(rt: HostRuntime) -> Result<(), Fail> {
    let mut seq = ChunkSeq::new(rt.alloc());
    give_ids(&rt, rt.alloc(), &mut seq)
}

fn expect_apart(rt: &impl Abort, seq: &ChunkSeq) {
    assert_eq!(rt; seq.len(), 1995);
    assert_eq!(rt; seq.get(1), Some(1997));
    assert_eq!(rt; seq.get(697), Some(1301));
    assert_eq!(rt; seq.get(698), Some(1298));
    assert_eq!(rt; seq.get(1995), Some(1));
    assert_eq!(rt; seq.get(1996), None);
}

fn remove_apart(rt: &impl Abort, alloc: Global, seq: &mut ChunkSeq) -> Result<(), Fail> {
    fill(rt, alloc, seq)?;

    // The first, the last, two in the middle, and one behind all.
    seq.remove_each(&[1, 2, 700, 701, 2000, 2001]);
    expect_apart(rt, seq);
    seq.remove_each(&[]);
    expect_apart(rt, seq);
    Ok(())
}

#[test]
fn removes_ids_together(rt: HostRuntime) -> Result<(), Fail> {
    let mut seq = ChunkSeq::new(rt.alloc());
    remove_apart(&rt, rt.alloc(), &mut seq)
}
