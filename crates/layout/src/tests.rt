// A record written into buffers of several lengths, and runs out of place.
use crate::{Run, Runs, Suppressed, ZeroSuppressed, write_record};
use std::test::Fail;
use terms::{Pair, Refusal};

// Common modes 100 and 300, strips 5 and 6 with the values 30 and 40.
fn one_cluster() -> Option<Suppressed> {
    let mut values = [0u8; 256];
    values[5] = 30;
    values[6] = 40;
    let mut runs = Runs::new();
    let _ = runs.push(Run {
        address: 5,
        strips: 2,
    });
    Suppressed::new(
        Pair {
            left: 100,
            right: 300,
        },
        values,
        runs,
    )
}

#[test]
fn record_into_a_buffer(rt: HostRuntime) -> Result<(), Fail> {
    let Some(content) = one_cluster() else {
        return Err(Fail::new("a common mode is above 1023"));
    };
    let mut short = [0xAA; 10];
    assert_eq!(rt;
        write_record::<ZeroSuppressed>(&content, &mut short),
        Err(Refusal::BufferTooShort(11))
    );
    assert_eq!(rt; short, [0xAA; 10]);
    let mut long = [0xAA; 12];
    assert_eq!(rt; write_record::<ZeroSuppressed>(&content, &mut long), Ok(11));
    assert_eq!(rt;
        long,
        [
            0x0B, 0x00, 0xEA, 0x64, 0x00, 0x2C, 0x01, 0x05, 0x02, 0x1E, 0x28, 0xAA,
        ]
    );
    Ok(())
}

#[test]
fn runs_out_of_place(rt: HostRuntime) {
    let mut runs = Runs::new();
    let table = [
        (
            Run {
                address: 120,
                strips: 9,
            },
            false,
        ),
        (
            Run {
                address: 120,
                strips: 8,
            },
            true,
        ),
        (
            Run {
                address: 120,
                strips: 8,
            },
            false,
        ),
        (
            Run {
                address: 128,
                strips: 1,
            },
            true,
        ),
        (
            Run {
                address: 130,
                strips: 1,
            },
            false,
        ),
        (
            Run {
                address: 131,
                strips: 0,
            },
            false,
        ),
        (
            Run {
                address: 131,
                strips: 125,
            },
            true,
        ),
    ];
    for (run, taken) in table {
        assert_eq!(rt; runs.push(run).is_ok(), taken);
    }
    assert_eq!(rt; runs.len(), 3);
}
