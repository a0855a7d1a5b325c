// What instructions and entries write.
#![tactic(auto)]

ghost use Rattle.writes.specs.Writes.{WritesTell};

// The ports, the timer, the interrupt and RAM change only by the writes that the definitions list, by WAIT and STOP, and by an external entry's clearing of the latch.
pub fn writes_tell()
    ensures { WritesTell }
{}
