// What lines of a script ask for.
use script::call::{BoardCall, Call, Kind, Problem, Purpose};
use script::parse::{parse_call, parse_entry};
use std::alloc::{AllocError, Global};
use std::test::Fail;
use text::hex::bytes_of;
use text::line::{content, is_skipped};
use text::word::word_at;

#[test]
fn calls_are_told_by_name(rt: HostRuntime) {
    assert!(rt; matches!(parse_call("bshow"), Ok(Call::OfBoard(BoardCall::Show))));
    assert!(rt; matches!(parse_call("bquiet"), Ok(Call::OfBoard(BoardCall::Quiet))));
    assert!(rt;
        matches!(
            parse_call("badvance 65535"),
            Ok(Call::OfBoard(BoardCall::Advance(65535)))
        )
    );
    assert!(rt; matches!(parse_call("list -"), Ok(Call::Listing)));
    assert!(rt; matches!(parse_call("step"), Ok(Call::NotOffered)));
    assert!(rt;
        matches!(
            parse_call("board matrix 0a1f"),
            Ok(Call::Make(Purpose::NewMachine, Kind::Matrix(0x0A1F)))
        )
    );
    assert!(rt;
        matches!(
            parse_call("bench schedule 3"),
            Ok(Call::Make(Purpose::Alone, Kind::Schedule(3)))
        )
    );
}

#[test]
fn other_lines_say_what_is_wrong(rt: HostRuntime) {
    assert_eq!(rt; parse_call("bshows").err(), Some(Problem::UnknownCall));
    assert_eq!(rt; parse_call(" bshow").err(), Some(Problem::UnknownCall));
    assert_eq!(rt; parse_call("bshow ").err(), Some(Problem::ExtraArgument));
    assert_eq!(rt;
        parse_call("badvance").err(),
        Some(Problem::MissingArgument)
    );
    assert_eq!(rt;
        parse_call("badvance 65536").err(),
        Some(Problem::BadNumber)
    );
    assert_eq!(rt; parse_call("badvance -1").err(), Some(Problem::BadNumber));
    assert_eq!(rt;
        parse_call("bench switches 0 0 0 0").err(),
        Some(Problem::MissingArgument)
    );
    assert_eq!(rt;
        parse_call("bench matrix 12345").err(),
        Some(Problem::BadKeys)
    );
    assert_eq!(rt;
        parse_call("bench matrix 00FF").err(),
        Some(Problem::BadKeys)
    );
    assert_eq!(rt;
        parse_call("bench keyboard").err(),
        Some(Problem::UnknownBoard)
    );
}

#[test]
fn an_entry_has_a_cycle_and_a_reading(rt: HostRuntime) -> Result<(), Fail> {
    let entry = parse_entry("18446744073709551615 1 2 3 4 5")
        .ok()
        .ok_or("an entry")?;
    assert_eq!(rt; entry.cycle, u64::MAX);
    assert_eq!(rt; entry.reading.level_a, 1);
    assert_eq!(rt; entry.reading.irq, 5);
    assert!(rt; parse_entry("18446744073709551616 1 2 3 4 5").is_err());
    assert!(rt; parse_entry("0 1 2 3 4").is_err());
    assert!(rt; parse_entry("0 1 2 3 4 256").is_err());
    Ok(())
}

// How many bytes the word writes.
fn byte_count(heap: Global, word: &str) -> Result<Option<usize>, AllocError> {
    Ok(bytes_of(heap, word)?.map(|bytes| bytes.len()))
}

#[test]
fn bytes_are_pairs_of_small_digits(rt: HostRuntime) -> Result<(), Fail> {
    let heap = rt.alloc();
    match bytes_of(heap, "00a5ff")? {
        Some(bytes) => assert!(rt; bytes.as_slice() == [0x00, 0xA5, 0xFF].as_slice()),
        None => return Err(Fail::new("three bytes")),
    }
    assert_eq!(rt; byte_count(heap, "-")?, Some(0));
    assert_eq!(rt; byte_count(heap, "a5f")?, None);
    assert_eq!(rt; byte_count(heap, "A5")?, None);
    assert_eq!(rt; byte_count(heap, "")?, None);
    Ok(())
}

#[test]
fn lines_end_and_are_skipped(rt: HostRuntime) {
    assert!(rt; content(b"bshow\r\n") == b"bshow".as_slice());
    assert!(rt; content(b"bshow\n") == b"bshow".as_slice());
    assert!(rt; content(b"bshow") == b"bshow".as_slice());
    assert!(rt; is_skipped(""));
    assert!(rt; is_skipped("# a note"));
    assert!(rt; !is_skipped("bshow"));
    assert_eq!(rt; word_at("open 1 @a.state", 2), Some("@a.state"));
    assert_eq!(rt; word_at("open 1 @a.state", 3), None);
}
