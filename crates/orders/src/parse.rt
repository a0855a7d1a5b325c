// What each line of a script asks for where a machine is at hand.
ghost use Rattle.std.specs.Prelude.{◌≡◌};
ghost use Rattle.text.specs.Words.{words};
ghost use Rattle.orders.specs.Calls.{count_of, call_of};

use crate::call::{MachineCall, Order};
use script::argument::{bare, last_number_at, with_bytes};
use script::call::Problem;
use script::parse::parse_call;
use text::word::word_at;

// How many steps a call asks for.
fn count(line: &str) -> Result<u32, Problem>
    ensures { result ≡ count_of (words line.now) }
{
    let n = last_number_at(line, 1, u64::from(u32::MAX))?;
    Ok(n as u32)
}

// The order of a line: the calls of the machine stand here, and every other call is the script language's.
pub fn parse_order(line: &str) -> Result<Order, Problem>
    ensures { result ≡ call_of line.now }
{
    match word_at(line, 0).ok_or(Problem::UnknownCall)? {
        "load" => with_bytes(line, Order::Load),
        "step" => bare(line, Order::OfMachine(MachineCall::Step)),
        "steps" => Ok(Order::OfMachine(MachineCall::Steps(count(line)?))),
        "run" => Ok(Order::OfMachine(MachineCall::Run(last_number_at(line, 1, u64::MAX)?))),
        "state" => bare(line, Order::OfMachine(MachineCall::State)),
        "show" => bare(line, Order::OfMachine(MachineCall::Show)),
        "trace" => Ok(Order::Trace(count(line)?)),
        _ => Ok(Order::OfScript(parse_call(line)?)),
    }
}
