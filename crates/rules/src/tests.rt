// The rules on lists without a pattern and on lists at the edges.
use crate::{Fixed, Mean, Rank, Rule};
use std::process::Abort;
use terms::Refusal;

// 128 values without a pattern, from `base` on and less than `span` above it.
fn scattered(base: u16, span: u16) -> [u16; 128] {
    let mut x: u32 = 1;
    let mut list = [0; 128];
    for v in list.iter_mut() {
        x = x.wrapping_mul(1_664_525).wrapping_add(1_013_904_223);
        *v = ((u32::from(base) + (x >> 16) % u32::from(span.max(1))) % 1024) as u16;
    }
    list
}

// Every setting, against the values in rising order.
fn agrees(rt: &impl Abort, list: &[u16], rising: &[u16]) {
    assert!(rt; 1 <= rising.len() && rising.len() <= 128);
    for setting in 0..=u8::MAX {
        let position = ((usize::from(setting) + 1) / 2).max(1).min(rising.len());
        assert_eq!(rt; Rank.estimate(23, setting, list), Ok(rising[position - 1]));
    }
}

#[test]
fn rank_agrees_with_sorting(rt: HostRuntime) {
    for (base, span) in [(0, 1024), (0, 1), (1023, 1), (30, 4), (480, 64), (1000, 24)] {
        for length in [1, 2, 127, 128] {
            let list = scattered(base, span);
            let mut rising = list;
            rising[..length].sort_unstable();
            agrees(&rt, &list[..length], &rising[..length]);
        }
    }
}

#[test]
fn mean_is_rounded_down(rt: HostRuntime) {
    assert_eq!(rt; Mean.estimate(0, 0, &[10, 10, 20, 30]), Ok(17));
    assert_eq!(rt; Mean.estimate(23, 255, &[1023; 128]), Ok(1023));
    assert_eq!(rt; Mean.estimate(5, 9, &[0, 0, 1]), Ok(0));
}

#[test]
fn fixed_stops_at_1023(rt: HostRuntime) {
    let mut rule = Fixed { numbers: [7; 24] };
    rule.numbers[23] = 1024;
    assert_eq!(rt; rule.estimate(22, 0, &[500]), Ok(7));
    assert_eq!(rt; rule.estimate(23, 0, &[500]), Ok(1023));
}

fn refuses<R: Rule>(rt: &impl Abort, rule: &R) {
    assert_eq!(rt; rule.estimate(24, 128, &[500]), Err(Refusal::OutOfRange));
    assert_eq!(rt; rule.estimate(0, 128, &[]), Err(Refusal::OutOfRange));
    assert_eq!(rt;
        rule.estimate(0, 128, &[500; 129]),
        Err(Refusal::OutOfRange)
    );
    assert_eq!(rt;
        rule.estimate(0, 128, &[500, 1024]),
        Err(Refusal::OutOfRange)
    );
}

#[test]
fn all_refuse_alike(rt: HostRuntime) {
    refuses(&rt, &Rank);
    refuses(&rt, &Mean);
    refuses(&rt, &Fixed { numbers: [0; 24] });
}
