// The lines of a listing.
use listing::sweep::next_line;
use std::alloc::{AllocError, Global};
use std::test::Fail;

// The line that the listing of these bytes at $0300 shows from this address on.
fn line_from(heap: Global, code: &[u8; 4], from: u16) -> Result<String, AllocError> {
    let mut image = [0u8; 2048];
    image[0x300..0x304].copy_from_slice(code);
    match next_line(&image, from) {
        Some(line) => line.text(heap),
        None => String::from_str(heap, "none"),
    }
}

#[test]
fn instructions_have_their_operands(rt: HostRuntime) -> Result<(), Fail> {
    let heap = rt.alloc();
    let jump_back = [0x07, 0x1E, 0xFD, 0x00];
    assert_eq!(rt;
        line_from(heap, &jump_back, 0x300)?.as_str(),
        "0300  07 1E FD  BRCLR 3,$1E,$0300     5"
    );
    let store = [0xA6, 0x05, 0xD7, 0x01];
    assert_eq!(rt;
        line_from(heap, &store, 0x300)?.as_str(),
        "0300  A6 05     LDA #$05              2"
    );
    assert_eq!(rt;
        line_from(heap, &store, 0x302)?.as_str(),
        "0302  D7 01 00  STA $0100,X           6"
    );
    let none = [0x9E, 0x42, 0x00, 0x00];
    assert_eq!(rt;
        line_from(heap, &none, 0x300)?.as_str(),
        "0300  9E        FCB $9E               -"
    );
    assert_eq!(rt;
        line_from(heap, &none, 0x301)?.as_str(),
        "0301  42        MUL                   11"
    );
    Ok(())
}

#[test]
fn three_zeros_are_left_out(rt: HostRuntime) -> Result<(), Fail> {
    let heap = rt.alloc();
    assert_eq!(rt;
        line_from(heap, &[0x00, 0x00, 0x00, 0x9D], 0x300)?.as_str(),
        "0303  9D        NOP                   2"
    );
    assert_eq!(rt;
        line_from(heap, &[0x00, 0x00, 0x81, 0x00], 0x300)?.as_str(),
        "0300  00 00 81  BRSET 0,$00,$0284     5"
    );
    assert_eq!(rt;
        line_from(heap, &[0x00, 0x00, 0x00, 0x00], 0x300)?.as_str(),
        "none"
    );
    Ok(())
}
