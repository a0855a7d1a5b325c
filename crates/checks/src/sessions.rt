// A session's lines, and the byte strings that they give.
use board::contract::Board;
use part::image::ImageRefused;
use session::failure::Failure;
use session::image::{bytes_in, list};
use session::reply::Reply;
use session::session::Session;
use std::test::Fail;

#[test]
fn a_schedule_is_made_of_its_entries(rt: HostRuntime) -> Result<(), Fail> {
    let mut session = Session::new(rt.alloc());
    assert!(rt; matches!(session.line("board schedule 1")?, Ok(None)));
    assert!(rt; session.awaits_entry());
    let Ok(Some(Reply::Begin(board))) = session.entry("0 1 2 3 4 1")? else {
        return Err(Fail::new("a board"));
    };
    assert_eq!(rt; board.show().level_a, 1);
    assert!(rt; !session.awaits_entry());
    Ok(())
}

#[test]
fn a_line_that_is_no_entry_spoils_its_schedule(rt: HostRuntime) -> Result<(), Fail> {
    let mut session = Session::new(rt.alloc());
    assert!(rt; matches!(session.line("bench schedule 2")?, Ok(None)));
    assert!(rt; matches!(session.line("0 1 2 3")?, Ok(None)));
    assert!(rt; matches!(session.line("0 1 2 3 4 1")?, Err(Failure::BadEntry)));
    Ok(())
}

#[test]
fn bytes_come_from_the_second_word(rt: HostRuntime) -> Result<(), Fail> {
    match bytes_in(&rt, "list 00a5")? {
        Ok(bytes) => assert!(rt; bytes.as_slice() == [0x00, 0xA5].as_slice()),
        Err(_) => return Err(Fail::new("two bytes")),
    }
    assert!(rt; matches!(bytes_in(&rt, "list 0")?, Err(Failure::BadBytes)));
    assert!(rt;
        matches!(
            list(&rt, "list 00")?,
            Err(Failure::Image(ImageRefused::Length))
        )
    );
    Ok(())
}
