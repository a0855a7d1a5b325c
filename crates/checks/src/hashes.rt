// Known hashes, and digits in hexadecimal.
use std::test::Fail;
use text::fnv::{fnv_from, fnv_of};
use text::hex_text::HexBytes;

#[test]
fn known_hashes(rt: HostRuntime) {
    assert_eq!(rt; fnv_of(b""), 0x811C9DC5);
    assert_eq!(rt; fnv_of(b"a"), 0xE40C292C);
    assert_eq!(rt; fnv_of(b"foobar"), 0xBF9CF968);
    assert_eq!(rt;
        fnv_from(fnv_of(b"foo"), b"bar"),
        0xBF9CF968,
        "in two pieces"
    );
}

#[test]
fn digits_are_in_lower_case(rt: HostRuntime) -> Result<(), Fail> {
    let heap = rt.alloc();
    assert_eq!(rt;
        format!(in heap; "{:08x}", 0x0A1E_u32)?.as_str(),
        "00000a1e"
    );
    assert_eq!(rt; HexBytes(&[0x00, 0xA5]).to_string(heap)?.as_str(), "00a5");
    Ok(())
}
