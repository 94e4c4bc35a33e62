//! Examples of lines that are taken and refused.
use crate::calls::{CallKind, parse_call, split_pages};
use crate::errors::LineError;
use crate::words::{WordError, parse_word};

#[test]
fn words(rt: HostRuntime) {
    assert_eq!(rt; parse_word(b"0042"), Ok(42));
    assert_eq!(rt; parse_word(b"4294967295"), Ok(4_294_967_295));
    assert_eq!(rt; parse_word(b"+5"), Err(WordError::NotNumber));
    assert_eq!(rt; parse_word(b"99999999999x"), Err(WordError::NotNumber));
    assert_eq!(rt; parse_word(b"4294967296"), Err(WordError::TooLarge));
}

#[test]
fn lines_that_are_no_calls(rt: HostRuntime) {
    assert_eq!(rt; parse_call(&[9]), Err(LineError::UnknownCall { number: 9 }));
    let call = CallKind::Declare;
    assert_eq!(rt;
        parse_call(&[1, 3]),
        Err(LineError::MissingArguments { call })
    );
    let call = CallKind::Settle;
    assert_eq!(rt;
        parse_call(&[2, 0]),
        Err(LineError::SurplusArguments { call })
    );
}

#[test]
fn pages_of_a_block(rt: HostRuntime) {
    let (commands, targets) = split_pages(&[1, 0, 5, 2, 0, 1, 7, 0]);
    assert_eq!(rt; commands.len(), 4);
    assert_eq!(rt; targets.len(), 4);
    let (commands, targets) = split_pages(&[4_294_967_295, 4_294_967_295, 3]);
    assert_eq!(rt; commands.len(), 3);
    assert!(rt; targets.is_empty());
}
