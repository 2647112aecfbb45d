//! Words and the integers that they spell.

use crate::{BadInt, read_int};
use std::test::Fail;

#[test]
fn words_of_integers(rt: HostRuntime) -> Result<(), Fail> {
    for (word, value) in [
        ("0", 0),
        ("-0", 0),
        ("+7", 7),
        ("007", 7),
        ("-12", -12),
        ("170141183460469231731687303715884105727", i128::MAX),
        ("-170141183460469231731687303715884105728", i128::MIN),
    ] {
        assert_eq!(rt; read_int(word.as_bytes()), Ok(value), "at {word}");
    }
    for word in ["", "+", "-", "+-1", "1.0", " 1", "1 ", "x", "1_000"] {
        assert_eq!(rt; read_int(word.as_bytes()), Err(BadInt::Form), "at {word}");
    }
    for word in [
        "170141183460469231731687303715884105728",
        "-170141183460469231731687303715884105729",
    ] {
        assert_eq!(rt; read_int(word.as_bytes()), Err(BadInt::Wide), "at {word}");
    }
    Ok(())
}
