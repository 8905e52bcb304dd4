// Words that are taken, with the word again from what they set, and words that are refused.
use crate::setting::Setting;

// A word, and the number of its refusal; none where it is taken.
const WORDS: [(u32, Option<u8>); 20] = [
    (0x1000_000A, None),
    (0x1000_0012, None),
    (0x1000_0006, None),
    (0x1000_000B, Some(5)),
    (0x1000_002A, Some(4)),
    (0x1C00_000A, Some(4)),
    (0x0000_000A, Some(2)),
    (0x6000_0000, Some(2)),
    (0x2B00_00FF, None),
    (0x2C00_0000, Some(3)),
    (0x2C00_0100, Some(3)),
    (0x2000_0100, Some(4)),
    (0x3BFF_07FF, None),
    (0x3000_0800, Some(4)),
    (0x4000_0A0A, Some(6)),
    (0x4000_FFFF, None),
    (0x4000_FF10, None),
    (0x5B01_00FF, None),
    (0x5002_0000, Some(4)),
    (0x5000_0100, Some(4)),
];

#[test]
fn words(rt: HostRuntime) {
    for (word, refused) in WORDS {
        match Setting::try_from(word) {
            Ok(setting) => {
                assert_eq!(rt; refused, None);
                assert_eq!(rt; u32::from(setting), word);
            }
            Err(refusal) => assert_eq!(rt; refused, Some(refusal.number())),
        }
    }
}
