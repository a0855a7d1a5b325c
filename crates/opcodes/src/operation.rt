// What an instruction does, apart from where its operand lies.

// A bit of a byte; Bit0 is the least.
#[derive(Clone, Copy)]
pub enum Bit {
    Bit0,
    Bit1,
    Bit2,
    Bit3,
    Bit4,
    Bit5,
    Bit6,
    Bit7,
}

// When a branch is taken: BRA, BRN, BHI, BLS, BCC, BCS, BNE, BEQ, BHCC, BHCS, BPL, BMI, BMC, BMS, BIL, BIH.
#[derive(Clone, Copy)]
pub enum Condition {
    Always,
    Never,
    Higher,
    LowerOrSame,
    CarryClear,
    CarrySet,
    NotEqual,
    Equal,
    HalfCarryClear,
    HalfCarrySet,
    Plus,
    Minus,
    MaskClear,
    MaskSet,
    IrqLow,
    IrqHigh,
}

// Operations that read a byte and write it back; TST only reads it.
#[derive(Clone, Copy)]
pub enum ReadModifyWrite {
    Neg,
    Com,
    Lsr,
    Ror,
    Asr,
    Lsl,
    Rol,
    Dec,
    Inc,
    Tst,
    Clr,
}

// Operations that read a byte into a register or compare it with one.
#[derive(Clone, Copy)]
pub enum RegisterMemory {
    Sub,
    Cmp,
    Sbc,
    Cpx,
    And,
    Bit,
    Lda,
    Eor,
    Adc,
    Ora,
    Add,
    Ldx,
}

// The register that a store writes to memory.
#[derive(Clone, Copy)]
pub enum Register {
    Accumulator,
    Index,
}

// Operations on the CPU alone.
#[derive(Clone, Copy)]
pub enum Control {
    Mul,
    Tax,
    Txa,
    Clc,
    Sec,
    Cli,
    Sei,
    Rsp,
    Nop,
    Rti,
    Rts,
    Swi,
    Stop,
    Wait,
}

// Call is JSR, and BSR where the addressing is relative.
#[derive(Clone, Copy)]
pub enum Operation {
    BranchIfSet(Bit),
    BranchIfClear(Bit),
    SetBit(Bit),
    ClearBit(Bit),
    Branch(Condition),
    Modify(ReadModifyWrite),
    Read(RegisterMemory),
    Store(Register),
    Jump,
    Call,
    Control(Control),
}
