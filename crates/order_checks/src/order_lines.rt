// What lines of a script ask for.
use orders::call::{MachineCall, Order};
use orders::parse::parse_order;
use script::call::{BoardCall, Call, Kind, Problem, Purpose};

#[test]
fn calls_are_told_by_name(rt: HostRuntime) {
    assert!(rt;
        matches!(
            parse_order("bshow"),
            Ok(Order::OfScript(Call::OfBoard(BoardCall::Show)))
        )
    );
    assert!(rt;
        matches!(
            parse_order("bquiet"),
            Ok(Order::OfScript(Call::OfBoard(BoardCall::Quiet)))
        )
    );
    assert!(rt;
        matches!(
            parse_order("badvance 65535"),
            Ok(Order::OfScript(Call::OfBoard(BoardCall::Advance(65535))))
        )
    );
    assert!(rt; matches!(parse_order("list -"), Ok(Order::OfScript(Call::Listing))));
    assert!(rt;
        matches!(
            parse_order("save 100"),
            Ok(Order::OfScript(Call::NotOffered))
        )
    );
    assert!(rt;
        matches!(
            parse_order("board matrix 0a1f"),
            Ok(Order::OfScript(Call::Make(Purpose::NewMachine, Kind::Matrix(0x0A1F))))
        )
    );
    assert!(rt;
        matches!(
            parse_order("bench schedule 3"),
            Ok(Order::OfScript(Call::Make(Purpose::Alone, Kind::Schedule(3))))
        )
    );
}

#[test]
fn calls_of_the_machine_have_their_numbers(rt: HostRuntime) {
    assert!(rt; matches!(parse_order("load @a.image"), Ok(Order::Load)));
    assert!(rt; matches!(parse_order("step"), Ok(Order::OfMachine(MachineCall::Step))));
    assert!(rt;
        matches!(
            parse_order("state"),
            Ok(Order::OfMachine(MachineCall::State))
        )
    );
    assert!(rt; matches!(parse_order("show"), Ok(Order::OfMachine(MachineCall::Show))));
    assert!(rt;
        matches!(
            parse_order("steps 4294967295"),
            Ok(Order::OfMachine(MachineCall::Steps(4294967295)))
        )
    );
    assert!(rt;
        matches!(
            parse_order("run 18446744073709551615"),
            Ok(Order::OfMachine(MachineCall::Run(u64::MAX)))
        )
    );
    assert!(rt; matches!(parse_order("trace 0"), Ok(Order::Trace(0))));
    assert_eq!(rt; parse_order("load").err(), Some(Problem::MissingArgument));
    assert_eq!(rt;
        parse_order("load 00 01").err(),
        Some(Problem::ExtraArgument)
    );
    assert_eq!(rt; parse_order("step 1").err(), Some(Problem::ExtraArgument));
    assert_eq!(rt;
        parse_order("steps 4294967296").err(),
        Some(Problem::BadNumber)
    );
    assert_eq!(rt; parse_order("run").err(), Some(Problem::MissingArgument));
}

#[test]
fn other_lines_say_what_is_wrong(rt: HostRuntime) {
    assert_eq!(rt; parse_order("bshows").err(), Some(Problem::UnknownCall));
    assert_eq!(rt; parse_order(" bshow").err(), Some(Problem::UnknownCall));
    assert_eq!(rt; parse_order("bshow ").err(), Some(Problem::ExtraArgument));
    assert_eq!(rt;
        parse_order("badvance").err(),
        Some(Problem::MissingArgument)
    );
    assert_eq!(rt;
        parse_order("badvance 65536").err(),
        Some(Problem::BadNumber)
    );
    assert_eq!(rt; parse_order("badvance -1").err(), Some(Problem::BadNumber));
    assert_eq!(rt;
        parse_order("bench switches 0 0 0 0").err(),
        Some(Problem::MissingArgument)
    );
    assert_eq!(rt;
        parse_order("bench matrix 12345").err(),
        Some(Problem::BadKeys)
    );
    assert_eq!(rt;
        parse_order("bench matrix 00FF").err(),
        Some(Problem::BadKeys)
    );
    assert_eq!(rt;
        parse_order("bench keyboard").err(),
        Some(Problem::UnknownBoard)
    );
}
