// Worked cases of the part.
#![tactic(auto)]

ghost use Rattle.facts.specs.Cases.{KnownCases};

use board::contract::Board;

// Cases that are known of the part hold of the definitions, on every board.
pub fn known_cases<B: Board>()
    ensures { KnownCases B.Board }
{}
