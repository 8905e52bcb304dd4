// What accepted events answer.
use crate::events::{push_raw, push_suppressed};
use layout::Kind;
use reader::read_event;
use std::test::Fail;
use terms::{Pair, Refusal};

// The number of a refusal, if it is one: the numbers of the manual are what is tested.
fn refusal<T: Drop>(answer: Result<T, Refusal>) -> Option<u8> {
    answer.err().map(|refusal| refusal.number())
}

#[test]
fn suppressed_event_answers(rt: HostRuntime) -> Result<(), Fail> {
    let mut bytes = Vec::new(rt.alloc());
    push_suppressed(&mut bytes)?;
    let event = read_event(bytes.as_slice())?;
    assert_eq!(rt; event.kind(), Kind::ZeroSuppressed);
    assert_eq!(rt; event.size(), 104);
    assert_eq!(rt; event.records().count(), 12);
    let table = [
        (0, 11, 100, 300, 1),
        (1, 7, 0, 1023, 0),
        (2, 20, 1, 2, 4),
        (10, 7, 10, 0, 0),
        (11, 10, 100, 100, 1),
    ];
    for (fibre, size, left, right, clusters) in table {
        let record = event.record(fibre)?;
        assert_eq!(rt; record.kind(), Kind::ZeroSuppressed);
        assert_eq!(rt; record.size(), size);
        assert_eq!(rt; record.common_modes(), Some(Pair { left, right }));
        assert_eq!(rt; record.cluster_count(), Some(clusters));
        assert_eq!(rt; refusal(record.cluster(clusters)), Some(32));
        assert_eq!(rt; record.clusters().map(|list| list.count()), Some(clusters));
        assert_eq!(rt; record.word(0), None);
        assert!(rt; record.words().is_none());
    }
    assert_eq!(rt; refusal(event.record(12)), Some(3));
    Ok(())
}

#[test]
fn clusters_in_their_order(rt: HostRuntime) -> Result<(), Fail> {
    let mut bytes = Vec::new(rt.alloc());
    push_suppressed(&mut bytes)?;
    let event = read_event(bytes.as_slice())?;
    let table = [
        (0, 0, 5, 2, 30, 40),
        (2, 0, 0, 1, 9, 9),
        (2, 1, 3, 1, 255, 255),
        (2, 2, 126, 2, 7, 8),
        (2, 3, 128, 1, 42, 42),
        (11, 0, 255, 1, 128, 128),
    ];
    for (fibre, index, address, strips, first, last) in table {
        let cluster = event.record(fibre)?.cluster(index)?;
        assert_eq!(rt; cluster.address, address);
        assert_eq!(rt; cluster.values.len(), strips);
        assert_eq!(rt; cluster.values.first().copied(), Some(first));
        assert_eq!(rt; cluster.values.last().copied(), Some(last));
    }
    Ok(())
}

#[test]
fn raw_event_answers(rt: HostRuntime) -> Result<(), Fail> {
    let mut bytes = Vec::new(rt.alloc());
    push_raw(&mut bytes, 0xE6)?;
    let event = read_event(bytes.as_slice())?;
    assert_eq!(rt; event.kind(), Kind::VirginRaw);
    assert_eq!(rt; event.size(), 6180);
    let table = [
        (0, 0, 0),
        (1, 0, 256),
        (2, 77, 589),
        (3, 255, 1023),
        (11, 254, 1022),
    ];
    for (fibre, index, word) in table {
        let record = event.record(fibre)?;
        assert_eq!(rt; record.size(), 515);
        assert_eq!(rt; record.word(index), Some(word));
        assert_eq!(rt; record.word(256), None);
        assert_eq!(rt;
            record.words().and_then(|mut list| list.nth(index)),
            Some(word)
        );
        assert_eq!(rt; record.common_modes(), None);
        assert_eq!(rt; record.cluster_count(), None);
        assert!(rt; record.clusters().is_none());
        assert_eq!(rt; refusal(record.cluster(0)), Some(33));
    }
    Ok(())
}
