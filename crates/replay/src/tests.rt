//! A list whose first case has a literal with a period in it, read with the literals of a copybook and without.

use crate::bare::{BareCase, BareCases};
use crate::case::Case;
use crate::cases::Cases;
use definition::Refusal;

const LIST: &[u8] = b"* a comment.
1 A VALUE 'c. d' 7.
300 300 7 1 2 65 66 0 28 4 0 %41B 2 66 65 1 2 66 65 0 28 4 0.
";

#[test]
fn cases(rt: HostRuntime) {
    let mut counts = [0u8; 2];
    for _ in Cases::of(LIST) {
        counts[0] = counts[0].wrapping_add(1);
    }
    for _ in BareCases::of(LIST) {
        counts[1] = counts[1].wrapping_add(1);
    }
    assert_eq!(rt; counts, [2, 3]);
}

#[test]
fn words_with_literals(rt: HostRuntime) {
    let mut case = Case::first(LIST);
    assert!(rt; case.begin());
    for word in ["1", "A", "VALUE", "'c.", "d'", "7"] {
        assert_eq!(rt; case.word().ok(), Some(word.as_bytes()));
    }
    assert!(rt; case.word().is_err());
    assert!(rt; case.end().is_ok());
    case.leave();
    assert!(rt; case.end().is_err());
    assert_eq!(rt; case.take_number().ok(), Some(300));
    case.leave();
    assert!(rt; !case.begin());
}

#[test]
fn words_without_literals(rt: HostRuntime) {
    let mut case = BareCase::first(LIST);
    assert!(rt; case.begin());
    for word in ["1", "A", "VALUE", "'c"] {
        assert_eq!(rt; case.word().ok(), Some(word.as_bytes()));
    }
    assert!(rt; case.end().is_ok());
    case.leave();
    for word in ["d'", "7"] {
        assert_eq!(rt; case.word().ok(), Some(word.as_bytes()));
    }
}

#[test]
fn answers_with_literals(rt: HostRuntime) {
    let refusal = Refusal::NoTarget { position: 4 };
    let mut case = Case::first(LIST);
    case.leave();
    assert_eq!(rt; case.take_number().ok(), Some(300));
    assert!(rt; case.take::<u8>().is_err());
    assert_eq!(rt; case.take::<u8>().ok(), Some(7));
    assert!(rt; case.numbers(&[1, 2]).is_ok());
    assert!(rt; case.bytes(b"AB").is_ok());
    assert!(rt; case.refusal(refusal).is_ok());
    let mut room = *b"X...";
    assert_eq!(rt; case.input(&mut room, 1).ok(), Some(b"XAB".as_slice()));
    // behind what was written stands what stood there before: 2 at place 2
    assert!(rt; case.written(b"BA\x02\x03", 2).is_ok());
    assert!(rt; case.writing(Ok(2), b"BA\x02\x03").is_ok());
    assert!(rt; case.writing(Err(refusal), b"\x00\x01\x02").is_ok());
    assert!(rt; case.end().is_ok());
}
