// The watchdog's reset comes seven to eight periods after the last service.
use crate::firmware::*;
use board::refused::*;
use board::schedule::*;
use machine::machine::Machine;
use part::image::*;
use refusal::*;
use std::process::Abort;
use std::test::Fail;
use step::answer::*;

// The code: CLR $08 for the shortest period, BRCLR 0,$00 to itself, left at 16,380, a pause, STX $07F0 as the service, and BRA to itself.
// Up to this total there is no reset, and the step from there ends in one of the watchdog.
fn resets_after(rt: &impl Abort, code: &[u8], total: u64) -> Result<(), Fail> {
    let entries = [
        Entry {
            cycle: 0,
            reading: port_a(0, 254),
        },
        Entry {
            cycle: 16375,
            reading: port_a(1, 254),
        },
    ];
    let mut machine = Machine::new(Schedule::new(&entries)?);
    machine.load(&image_of(code, 0x01))?;
    machine.run(total)?;
    assert_eq!(rt; machine.total(), total);
    assert_eq!(rt; machine.registers().pc, 0x30A, "no reset yet");
    assert_eq!(rt; machine.timer().stage, 7);
    assert_eq!(rt;
        machine.step(),
        Ok(StepAnswer {
            kind: Kind::Instruction,
            cost: 3,
            reset: ResetCause::Watchdog,
        })
    );
    assert_eq!(rt; machine.registers().pc, 0x300);
    assert_eq!(rt; machine.timer().t, 0);
    Ok(())
}

#[test]
fn a_service_before_a_tap(rt: HostRuntime) -> Result<(), Fail> {
    // BRA to the next instruction: the service is at 16,383, and the reset 7 periods and 1 cycle later
    let code = b"\x3F\x08\x01\x00\xFD\x20\x00\xCF\x07\xF0\x20\xFE";
    resets_after(&rt, code, 131069)
}

#[test]
fn a_service_after_a_tap(rt: HostRuntime) -> Result<(), Fail> {
    // two NOPs: the service is at 16,384, and the reset 8 periods later
    let code = b"\x3F\x08\x01\x00\xFD\x9D\x9D\xCF\x07\xF0\x20\xFE";
    resets_after(&rt, code, 147453)
}
