// Tickers over whole lines.
use crate::level::level;
use crate::state::State;
use crate::ticker::Ticker;
use terms::Enable;

// What a line leaves behind: the last state, how often the ticker pulsed, and a digest of every state
// and pulse on the way.
#[derive(Clone, Copy)]
struct Trace {
    state: State,
    pulses: u32,
    digest: u32,
}

// A line is given by the lengths of its runs: 0s, then 1s, and so on. 512 is a 0 at threshold 16.
fn follow(enable: Enable, runs: &[u16]) -> Trace {
    let mut ticker = Ticker::new();
    ticker.send(enable);
    let mut sample = 512;
    let mut pulses: u32 = 0;
    let mut digest: u32 = 0;
    for run in runs {
        for _ in 0..*run {
            let pulse = ticker.step(enable, level(sample, 16));
            pulses = pulses.wrapping_add(u32::from(pulse));
            digest = digest
                .wrapping_mul(31)
                .wrapping_add(code(ticker.state(), pulse));
        }
        sample = if sample == 512 { 513 } else { 512 };
    }
    let state = ticker.state();
    Trace {
        state,
        pulses,
        digest,
    }
}

// The number that the other program gave to a state and a pulse; the recorded digests are of these numbers.
fn code(state: State, pulse: bool) -> u32 {
    let (kind, position) = match state {
        State::Off => (0, 0),
        State::Hunt => (1000, 0),
        State::Trial(p) => (2000, p),
        State::Locked(p) => (3000, p),
        State::Check(p) => (4000, p),
        State::Frame(p) => (5000, p),
    };
    kind + u32::from(position) + if pulse { 500 } else { 0 }
}

#[test]
fn lines(rt: HostRuntime) {
    let rows: [(&str, Enable, &[u16], State, u32); 11] = [
        (
            "both chips",
            Enable::Both,
            &[5, 2, 68, 2],
            State::Locked(2),
            0,
        ),
        (
            "the left chip",
            Enable::Left,
            &[5, 1, 69, 1, 1],
            State::Locked(2),
            0,
        ),
        (
            "the right chip",
            Enable::Right,
            &[6, 1, 69, 1],
            State::Locked(2),
            0,
        ),
        ("neither chip", Enable::Neither, &[0, 200], State::Off, 0),
        (
            "a tick that does not come again",
            Enable::Both,
            &[0, 2, 68, 1, 1],
            State::Hunt,
            0,
        ),
        (
            "a lost tick",
            Enable::Both,
            &[0, 2, 68, 2, 69],
            State::Hunt,
            0,
        ),
        (
            "a late tick",
            Enable::Both,
            &[0, 2, 68, 2, 69, 1],
            State::Trial(1),
            0,
        ),
        (
            "a frame that breaks off",
            Enable::Both,
            &[0, 2, 68, 2, 68, 5, 1],
            State::Hunt,
            0,
        ),
        (
            "back-to-back frames",
            Enable::Both,
            &[0, 2, 68, 2, 68, 6, 274, 6, 274],
            State::Locked(0),
            2,
        ),
        (
            "a frame of the right chip",
            Enable::Right,
            &[1, 1, 69, 1, 69, 5],
            State::Frame(6),
            1,
        ),
        (
            "a line stuck high",
            Enable::Both,
            &[0, 1000],
            State::Frame(90),
            4,
        ),
    ];
    for (what, enable, runs, state, pulses) in rows {
        let trace = follow(enable, runs);
        assert_eq!(rt; trace.state, state, "{}", what);
        assert_eq!(rt; trace.pulses, pulses, "{}", what);
    }
}

// Every state and pulse against a second program of other authors.
#[test]
fn recorded_lines(rt: HostRuntime) {
    let rows: [(Enable, &[u16], u32); 3] = [
        (Enable::Both, &[80, 2, 68, 2, 68, 2, 68, 111], 1198216421),
        (
            Enable::Right,
            &[69, 2, 28, 1, 39, 2, 68, 94, 1, 152, 68, 2, 68],
            2608554949,
        ),
        (
            Enable::Both,
            &[
                0, 1, 6, 2, 68, 2, 10, 1, 57, 105, 21, 1, 46, 2, 68, 2, 68, 107,
            ],
            2277440261,
        ),
    ];
    for (enable, runs, digest) in rows {
        assert_eq!(rt; follow(enable, runs).digest, digest);
    }
}
