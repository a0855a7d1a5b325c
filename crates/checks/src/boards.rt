// The three kinds of board on small cases.
use board::any::*;
use board::contract::Board;
use board::matrix::*;
use board::reading::*;
use board::refused::*;
use board::schedule::*;
use board::switches::*;
use std::test::Fail;

// Port A driven at this level, port B open, IRQ at 1.
fn driven(level_a: u8) -> Reading {
    Reading {
        level_a,
        open_a: 0,
        level_b: 0,
        open_b: 63,
        irq: 1,
    }
}

fn at(cycle: u64, level_a: u8) -> Entry {
    Entry {
        cycle,
        reading: driven(level_a),
    }
}

#[test]
fn a_schedule_changes_at_its_cycles(rt: HostRuntime) -> Result<(), Fail> {
    let entries = [at(0, 1), at(10, 2), at(70000, 3)];
    let mut board = Schedule::new(&entries)?;
    assert_eq!(rt; board.show(), driven(1));
    assert_eq!(rt; board.quiet(), 9);
    board.advance(9);
    assert_eq!(rt; board.show(), driven(1), "the cycle before a change");
    board.advance(1);
    assert_eq!(rt; board.show(), driven(2), "the cycle of the change");
    assert_eq!(rt; board.quiet(), 65535);
    board.advance(65535);
    board.advance(65535);
    assert_eq!(rt; board.show(), driven(3), "past the last entry");
    assert_eq!(rt; board.quiet(), 65535);
    Ok(())
}

fn bad_index(entries: &[Entry]) -> Option<usize> {
    match Schedule::new(entries) {
        Ok(_) => None,
        Err(bad) => Some(bad.index),
    }
}

#[test]
fn the_first_bad_entry_is_named(rt: HostRuntime) {
    let wide = Reading {
        level_b: 64,
        ..driven(0)
    };
    assert_eq!(rt; bad_index(&[]), Some(0), "no entry");
    assert_eq!(rt; bad_index(&[at(1, 1)]), Some(0), "not from cycle 0");
    assert_eq!(rt;
        bad_index(&[at(0, 1), at(5, 2), at(5, 3)]),
        Some(2),
        "not rising"
    );
    assert_eq!(rt; bad_index(&[at(0, 1), at(1 << 40, 2)]), Some(1), "too late");
    let seventh = Entry {
        cycle: 1,
        reading: wide,
    };
    assert_eq!(rt;
        bad_index(&[at(0, 1), seventh, at(2, 3)]),
        Some(1),
        "a seventh pin"
    );
    assert_eq!(rt; Switches::new(wide).err(), Some(BadEntry { index: 0 }));
}

// Port A's level and open bits once a matrix of these keys is told these of port B.
fn port_a(keys: u16, direction_b: u8, driven_b: u8) -> (u8, u8) {
    let mut board = Matrix::new(keys);
    board.tell(Outputs {
        direction_a: 0,
        driven_a: 0,
        direction_b,
        driven_b,
    });
    let shown = board.show();
    (shown.level_a, shown.open_a)
}

#[test]
fn a_key_joins_its_row_and_column(rt: HostRuntime) {
    // the key of row 2 and column 1
    let key = 1 << 9;
    assert_eq!(rt;
        Matrix::new(key).show().open_a,
        255,
        "before it is told anything"
    );
    assert_eq!(rt; port_a(key, 4, 4), (2, 253), "PB2 an output at 1");
    assert_eq!(rt; port_a(key, 4, 0), (0, 255), "PB2 an output at 0");
    assert_eq!(rt; port_a(key, 0, 4), (0, 255), "PB2 an input");
    assert_eq!(rt; port_a(key, 2, 2), (0, 255), "another row");
}

#[test]
fn a_board_is_what_its_kind_is(rt: HostRuntime) -> Result<(), Fail> {
    let entries = [at(0, 7), at(3, 9)];
    let mut board = AnyBoard::from(Schedule::new(&entries)?);
    board.advance(3);
    assert_eq!(rt; board.show(), driven(9));
    let board = AnyBoard::from(Switches::new(driven(5))?);
    assert_eq!(rt; board.show(), driven(5));
    let board = AnyBoard::from(Matrix::new(1));
    assert_eq!(rt; board.show().open_a, 255);
    Ok(())
}
