// Calls of a machine, what they refuse, and questions to it.
use crate::firmware::*;
use board::refused::*;
use board::switches::*;
use machine::answer::*;
use machine::machine::Machine;
use part::image::*;
use refusal::*;
use std::test::Fail;
use step::answer::*;

#[test]
fn a_new_machine_has_no_image(rt: HostRuntime) -> Result<(), Fail> {
    let mut machine = Machine::new(Switches::new(port_a(0x05, 0xF0))?);
    assert!(rt; !machine.has_image());
    assert_eq!(rt; machine.registers().sp, 0xFF);
    assert_eq!(rt; machine.step(), Err(Refusal::NoImage));
    assert_eq!(rt; machine.run(10), Err(Refusal::NoImage));
    assert_eq!(rt; machine.run(1 << 40), Err(Refusal::Target));
    assert_eq!(rt; machine.total(), 0);
    Ok(())
}

#[test]
fn what_is_no_image_is_refused(rt: HostRuntime) -> Result<(), Fail> {
    let mut machine = Machine::new(Switches::new(port_a(0, 255))?);
    assert_eq!(rt; machine.load(&[0; 2047]), Err(ImageRefused::Length));
    let mut image = image_of(&[0x9D], 0);
    image[0x2FF] = 1;
    assert_eq!(rt; machine.load(&image), Err(ImageRefused::Byte(0x2FF)));
    assert!(rt; !machine.has_image());
    image[0x2FF] = 0;
    assert_eq!(rt; machine.load(&image), Ok(()));
    assert!(rt; machine.has_image());
    Ok(())
}

#[test]
fn a_run_ends_at_its_target_or_sticks(rt: HostRuntime) -> Result<(), Fail> {
    // three NOPs, then a code without an instruction
    let mut machine = machine_with(&[0x9D, 0x9D, 0x9D, 0x9E])?;
    let reached = RunAnswer {
        steps: 2,
        end: RunEnd::Reached,
    };
    assert_eq!(rt; machine.run(3), Ok(reached));
    assert_eq!(rt; machine.total(), 4);
    let stuck = RunAnswer {
        steps: 1,
        end: RunEnd::Stuck,
    };
    assert_eq!(rt; machine.run(100), Ok(stuck));
    assert_eq!(rt; machine.step(), Err(Refusal::NoInstruction));
    assert_eq!(rt; machine.total(), 6);
    Ok(())
}

#[test]
fn questions_see_pins_and_memory(rt: HostRuntime) -> Result<(), Fail> {
    // LDA #$F0, STA $10: the pulldowns of PA4 to PA7 are off
    let image = image_of(&[0xA6, 0xF0, 0xB7, 0x10], 0x20);
    let mut machine = Machine::new(Switches::new(port_a(0x05, 0xF0))?);
    machine.load(&image)?;
    let pulled = Pins {
        a: 0x05,
        b: 0,
        irq: 1,
    };
    assert_eq!(rt; machine.pins(), pulled, "pulldowns on");
    machine.run(6)?;
    assert_eq!(rt; machine.pins().a, 0xF5, "pulldowns off");
    assert_eq!(rt; machine.peek(0x0000), 0xF5);
    assert_eq!(rt; machine.peek(0x0010), 0, "pulldown bits read 0");
    assert_eq!(rt; machine.peek(0x07F1), 0x20);
    assert_eq!(rt;
        machine.peek(0x0B01),
        0xF0,
        "addresses are taken modulo 2,048"
    );
    Ok(())
}
