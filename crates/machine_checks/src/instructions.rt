// Known instructions on a machine.
use crate::firmware::*;
use board::switches::*;
use refusal::*;
use std::test::Fail;

#[test]
fn a_sum_sets_half_carry_and_carry(rt: HostRuntime) -> Result<(), Fail> {
    // LDA #$05, ADD #$FE
    let mut machine = machine_with(&[0xA6, 0x05, 0xAB, 0xFE])?;
    machine.run(4)?;
    let registers = machine.registers();
    assert_eq!(rt; registers.a, 0x03);
    assert_eq!(rt; registers.flags.condition_byte(), 0xF9, "H, I and C");
    Ok(())
}

#[test]
fn the_stack_goes_round(rt: HostRuntime) -> Result<(), Fail> {
    // PC $0309 in $C3 and $C4, RTI; there three times JSR to the next instruction
    let code = b"\xA6\x03\xB7\xC3\xA6\x09\xB7\xC4\x80\xCD\x03\x0C\xCD\x03\x0F\xCD\x03\x12";
    let mut machine = machine_with(code)?;
    machine.run(33)?;
    assert_eq!(rt; machine.registers().sp, 0xC0, "5 pulled, 4 pushed");
    machine.step()?;
    assert_eq!(rt; machine.registers().sp, 0xFE);
    assert_eq!(rt; machine.peek(0xC0), 0x12, "the low byte");
    assert_eq!(rt; machine.peek(0xFF), 0x03, "the high byte");
    Ok(())
}

#[test]
fn the_timer_overflows_within_a_step(rt: HostRuntime) -> Result<(), Fail> {
    // BRA to the next instruction, and NOPs
    let mut code = [0x9D; 600];
    code[0] = 0x20;
    code[1] = 0x00;
    let mut machine = machine_with(&code)?;
    machine.run(1021)?;
    assert_eq!(rt; machine.timer().t, 1021);
    machine.step()?;
    assert_eq!(rt; machine.peek(0x0009), 255);
    assert!(rt; !machine.timer().tof);
    machine.step()?;
    assert_eq!(rt; machine.peek(0x0009), 0);
    assert_eq!(rt;
        machine.peek(0x0008),
        0x83,
        "TOF, and the rate after a reset"
    );
    Ok(())
}
