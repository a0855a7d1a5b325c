// Which strings of bytes are images.
use part::image::{ImageRefused, check_image};
use part::layout::branch_target;

// What is said of an image with a single byte that is not 0.
fn with_byte(address: usize) -> Result<(), ImageRefused> {
    let mut image = [0u8; 2048];
    if address < 2048 {
        image[address] = 1;
    }
    check_image(&image)
}

#[test]
fn an_image_has_a_byte_for_each_address(rt: HostRuntime) {
    assert_eq!(rt; check_image(&[]), Err(ImageRefused::Length));
    assert_eq!(rt; check_image(&[0; 2047]), Err(ImageRefused::Length));
    assert_eq!(rt; check_image(&[0; 2049]), Err(ImageRefused::Length));
    assert_eq!(rt; check_image(&[0; 2048]), Ok(()));
}

#[test]
fn only_eprom_option_byte_and_vectors_come_from_it(rt: HostRuntime) {
    for address in [0x300, 0x7CF, 0x7F1, 0x7F8, 0x7FF] {
        assert_eq!(rt; with_byte(address), Ok(()));
    }
    for address in [0x000, 0x0C0, 0x2FF, 0x7D0, 0x7F0, 0x7F2, 0x7F7] {
        assert_eq!(rt;
            with_byte(address),
            Err(ImageRefused::Byte((address % 2048) as u16))
        );
    }
}

#[test]
fn branches_count_from_the_next_instruction(rt: HostRuntime) {
    assert_eq!(rt; branch_target(0x302, 0xFE), 0x300);
    assert_eq!(rt; branch_target(0x302, 0x7F), 0x381);
    assert_eq!(rt; branch_target(0x7FF, 0x01), 0x000);
    assert_eq!(rt; branch_target(0x002, 0x80), 0x782);
}
