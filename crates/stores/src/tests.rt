// A table of calls, wrap-around at every place, and the capacities at the edges.
use crate::call::{StoreAnswer, StoreCall, StoreReply};
use crate::ring::{ByteRing, WordRing};
use crate::run::carry_out;
use crate::store::Store;
use std::process::Abort;
use std::test::Fail;
use terms::Refusal;

// Calls with what a list of at most four bytes would answer.
const TABLE: [(StoreCall, StoreAnswer); 16] = [
    (StoreCall::Take(11), Err(Refusal::StoreEmpty)),
    (StoreCall::Put(11, 1), Ok(StoreReply::Done)),
    (StoreCall::Put(11, 2), Ok(StoreReply::Done)),
    (StoreCall::Put(10, 3), Ok(StoreReply::Done)),
    (StoreCall::Put(11, 4), Ok(StoreReply::Done)),
    (StoreCall::Take(11), Ok(StoreReply::Byte(1))),
    (StoreCall::Put(11, 255), Ok(StoreReply::Done)),
    (StoreCall::Put(11, 5), Ok(StoreReply::Done)),
    (StoreCall::Put(11, 6), Err(Refusal::StoreFull)),
    (StoreCall::Level(11), Ok(StoreReply::Count(4))),
    (StoreCall::Take(11), Ok(StoreReply::Byte(2))),
    (StoreCall::Take(11), Ok(StoreReply::Byte(4))),
    (StoreCall::Take(11), Ok(StoreReply::Byte(255))),
    (StoreCall::Take(10), Ok(StoreReply::Byte(3))),
    (StoreCall::Clear, Ok(StoreReply::Done)),
    (StoreCall::Take(11), Err(Refusal::StoreEmpty)),
];

fn answers_the_table<S: Store>(rt: &impl Abort, store: &mut S) {
    for (call, answer) in &TABLE {
        assert_eq!(rt; carry_out(store, *call), *answer);
    }
}

// Puts and takes five bytes as often as the ring has places, so that they begin at each place once.
fn goes_round<S: Store>(rt: &impl Abort, store: &mut S, places: usize) -> Result<(), Fail> {
    let record = [0, 64, 127, 128, 255];
    for _ in 0..places {
        let mut out = [9; 5];
        store.put_all(7, &record)?;
        store.take_all(7, &mut out)?;
        assert_eq!(rt; out, record);
    }
    Ok(())
}

// Is full after as many bytes as its capacity.
fn holds<S: Store>(rt: &impl Abort, store: &mut S, capacity: usize) -> Result<(), Fail> {
    assert_eq!(rt; store.capacity(), capacity);
    for _ in 0..capacity {
        store.put(0, 1)?;
    }
    assert_eq!(rt;
        carry_out(store, StoreCall::Put(0, 1)),
        Err(Refusal::StoreFull)
    );
    Ok(())
}

#[test]
fn tables(rt: HostRuntime) {
    answers_the_table(&rt, &mut ByteRing::new(&mut [255; 48]));
    answers_the_table(&rt, &mut WordRing::new(&mut [0xffff_ffff; 12]));
}

#[test]
fn every_place(rt: HostRuntime) -> Result<(), Fail> {
    goes_round(&rt, &mut ByteRing::new(&mut [255; 84]), 7)?;
    goes_round(&rt, &mut WordRing::new(&mut [0xffff_ffff; 24]), 8)
}

#[test]
fn capacities(rt: HostRuntime) -> Result<(), Fail> {
    holds(&rt, &mut ByteRing::new(&mut []), 0)?;
    holds(&rt, &mut ByteRing::new(&mut [0; 23]), 1)?;
    holds(&rt, &mut ByteRing::new(&mut [0; 84]), 7)?;
    holds(&rt, &mut ByteRing::new(&mut [0; 24600]), 2048)?;
    holds(&rt, &mut WordRing::new(&mut [0; 11]), 0)?;
    holds(&rt, &mut WordRing::new(&mut [0; 12]), 4)?;
    holds(&rt, &mut WordRing::new(&mut [0; 6200]), 2048)
}
