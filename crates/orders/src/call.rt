// What a line asks for where a machine is at hand.
use script::call::Call;

// A call of the machine.
#[derive(Clone, Copy)]
pub enum MachineCall {
    Step,
    Steps(u32),
    Run(u64),
    State,
    Show,
}

#[derive(Clone, Copy)]
pub enum Order {
    // a call that needs no machine
    OfScript(Call),
    // the load of an image: the line's second word is its byte string
    Load,
    OfMachine(MachineCall),
    // so many steps of the machine, told line by line
    Trace(u32),
}
