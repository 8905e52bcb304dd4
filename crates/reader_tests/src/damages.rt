// Events with one byte changed, cut short or followed by more: the first question that is answered no.
use crate::events::{RAW_STARTS, SUPPRESSED_STARTS, push_raw, push_suppressed};
use faults::Layer;
use reader::read_event;
use std::process::Abort;
use std::test::Fail;

// The number, layer and offset of a fault: those of the manual are what is tested.
type Found = (u8, Layer, usize);

// What is wrong with an input; None where it is an event.
fn wrong(input: &[u8]) -> Option<Found> {
    let fault = read_event(input).err()?;
    Some((fault.number(), fault.layer(), fault.offset()))
}

// Each row of the table: one byte of a good event, what it becomes, and what is wrong then.
fn check_damages(rt: &impl Abort, event: &mut Vec<u8>, table: &[(usize, u8, Option<Found>)]) {
    for &(at, value, expected) in table {
        assert!(rt; at < event.len());
        let good = event[at];
        event[at] = value;
        assert_eq!(rt; wrong(event.as_slice()), expected, "{}", at);
        event[at] = good;
    }
    assert_eq!(rt; wrong(event.as_slice()), None);
}

#[test]
fn suppressed_event_damaged(rt: HostRuntime) -> Result<(), Fail> {
    let mut event = Vec::new(rt.alloc());
    push_suppressed(&mut event)?;
    check_damages(
        &rt,
        &mut event,
        &[
            (2, 0xEB, Some((22, Layer::Record, 2))),
            (96, 0x00, Some((22, Layer::Record, 96))),
            (13, 0xF2, Some((23, Layer::Record, 13))),
            (96, 0xE6, Some((23, Layer::Record, 96))),
            // Six bytes; 523; 522, where only ten are left; eleven as the length of a raw record.
            (11, 6, Some((24, Layer::Record, 11))),
            (1, 2, Some((24, Layer::Record, 0))),
            (95, 2, Some((24, Layer::Record, 94))),
            (2, 0xF2, Some((24, Layer::Record, 0))),
            (94, 11, Some((25, Layer::Record, 94))),
            (12, 1, Some((25, Layer::Record, 11))),
            // 1024 on the left, 1279 on the right.
            (15, 4, Some((26, Layer::Record, 14))),
            (17, 4, Some((26, Layer::Record, 16))),
            (0, 8, Some((27, Layer::Cluster, 7))),
            (94, 8, Some((27, Layer::Cluster, 101))),
            // No strip; more than a chip has; strips 126 to 128; strips 255 and 256.
            (8, 0, Some((28, Layer::Cluster, 7))),
            (8, 129, Some((28, Layer::Cluster, 7))),
            (32, 3, Some((28, Layer::Cluster, 31))),
            (102, 2, Some((28, Layer::Cluster, 101))),
            (8, 3, Some((29, Layer::Cluster, 7))),
            (36, 2, Some((29, Layer::Cluster, 35))),
            // One strip free; the same strip again; back by one strip.
            (28, 2, Some((30, Layer::Cluster, 28))),
            (28, 0, Some((30, Layer::Cluster, 28))),
            (35, 125, Some((30, Layer::Cluster, 35))),
            (94, 7, Some((31, Layer::Event, 101))),
            // Another value, and another strip with two free before it: events still.
            (33, 200, None),
            (31, 6, None),
        ],
    );
    Ok(())
}

#[test]
fn raw_event_damaged(rt: HostRuntime) -> Result<(), Fail> {
    let mut event = Vec::new(rt.alloc());
    push_raw(&mut event, 0xF2)?;
    check_damages(
        &rt,
        &mut event,
        &[
            (5667, 0xF3, Some((22, Layer::Record, 5667))),
            // Fibre 0 sets the kind of all.
            (2, 0xE6, Some((23, Layer::Record, 517))),
            (2577, 0xE6, Some((23, Layer::Record, 2577))),
            (0, 2, Some((24, Layer::Record, 0))),
            (5665, 4, Some((24, Layer::Record, 5665))),
            (2, 0xEA, Some((24, Layer::Record, 0))),
            // The first word of fibre 0, the last of fibre 3.
            (4, 4, Some((26, Layer::Record, 3))),
            (2059, 4, Some((26, Layer::Record, 2058))),
        ],
    );
    event.push(0)?;
    assert_eq!(rt; wrong(event.as_slice()), Some((31, Layer::Event, 6180)));
    Ok(())
}

// An event cut at every byte: the first record that is not whole has too few bytes for its header, or lies
// outside the input.
fn check_cuts(rt: &impl Abort, event: &[u8], starts: &[usize]) {
    let mut start = 0;
    // By number: the cut is what is tested.
    for cut in 0..event.len() {
        if starts.contains(&cut) {
            start = cut;
        }
        let expected = if cut.saturating_sub(start) < 3 {
            (21, Layer::Event, start)
        } else {
            (25, Layer::Record, start)
        };
        assert_eq!(rt; wrong(&event[0..cut]), Some(expected), "{}", cut);
    }
    assert_eq!(rt; wrong(event), None);
}

#[test]
fn events_cut_short(rt: HostRuntime) -> Result<(), Fail> {
    let mut suppressed = Vec::new(rt.alloc());
    push_suppressed(&mut suppressed)?;
    check_cuts(&rt, suppressed.as_slice(), &SUPPRESSED_STARTS);
    let mut raw = Vec::new(rt.alloc());
    push_raw(&mut raw, 0xE6)?;
    check_cuts(&rt, raw.as_slice(), &RAW_STARTS);
    Ok(())
}
