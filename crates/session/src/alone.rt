// The board that stands alone, beside a machine.
ghost use Rattle.std.specs.Prelude.{◌≡◌};
ghost use Rattle.session.specs.Alone.{placed, placed_reply, alone_after, answered};

use crate::answer::Answer;
use crate::boards::Made;
use crate::failure::Failure;
use crate::reply::Reply;
use board::any::AnyBoard;
use board::contract::Board;
use script::call::{BoardCall, Purpose};

// Puts a board that was made in its place: one for a new machine is handed on.
pub fn place(
    alone: &mut Option<AnyBoard<'static>>,
    purpose: Purpose,
    made: Made,
) -> Result<Reply, Failure>
    ensures after { alone.new ≡ placed purpose made.entry alone.old }
    ensures value { result ≡ placed_reply purpose made.entry }
{
    match purpose {
        Purpose::NewMachine => Ok(Reply::Begin(made?)),
        Purpose::Replacement => Err(Failure::NotOffered),
        Purpose::Alone => {
            *alone = Some(made?);
            Ok(Reply::Said(Answer::Done))
        }
    }
}

// Makes a call of the board that stands alone.
pub fn call_board(alone: &mut Option<AnyBoard<'static>>, call: BoardCall) -> Result<Answer, Failure>
    ensures after { alone.new ≡ alone_after call alone.old }
    ensures value { result ≡ answered call alone.old }
{
    let board = alone.as_mut().ok_or(Failure::NoBoard)?;
    Ok(match call {
        BoardCall::Show => Answer::Shown(board.show()),
        BoardCall::Quiet => Answer::Quiet(board.quiet()),
        BoardCall::Advance(n) => {
            board.advance(n);
            Answer::Done
        }
        BoardCall::Tell(outputs) => {
            board.tell(outputs);
            Answer::Done
        }
    })
}
