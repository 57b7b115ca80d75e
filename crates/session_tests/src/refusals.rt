//! The texts of refusals.
use bpf_assembler::AsmFault;
use bpf_decode::DecodeFault;
use flow_shape::FlowFault;
use map_server::{AdmissionFault, Refusal};
use std::alloc::{AllocError, Global};
use std::test::Fail;
use verifier::VerifyFault::{
    self, BadExitValue, NotAWindow, OutOfWindow, ReadOnly, SizesTooLarge, UnwrittenBytes,
    UnwrittenRegister, WriteToR10,
};

/// Tests whether the refusal is shown as this text.
fn reads(alloc: Global, refusal: &Refusal, text: &str) -> Result<bool, AllocError> {
    Ok(format!(in alloc; "{refusal}")?.as_str() == text)
}

/// Tests whether the fault is shown as this text, alone and as a refusal.
fn reads_twice(alloc: Global, fault: VerifyFault, text: &str) -> Result<bool, AllocError> {
    let alone = format!(in alloc; "{fault}")?.as_str() == text;
    let refusal = Refusal::Program(AdmissionFault::Verify(fault));
    Ok(alone && reads(alloc, &refusal, text)?)
}

#[test]
fn refusals_are_told_in_words(rt: HostRuntime) -> Result<(), Fail> {
    for (refusal, text) in [
        (Refusal::TooLong, "too many bytes"),
        (Refusal::NoMemory, "no memory"),
        (Refusal::NotHex { place: 3 }, "no hex text at place 3"),
        (
            Refusal::Assemble(AsmFault::BadOperand(2)),
            "bad operand in line 2",
        ),
        (
            Refusal::Program(AdmissionFault::Decode(DecodeFault::UnknownOpcode(7))),
            "unknown opcode at unit 7",
        ),
        (
            Refusal::Program(AdmissionFault::Flow(FlowFault::JumpOut(5))),
            "a jump leaves the program at unit 5",
        ),
    ] {
        assert!(rt; reads(rt.alloc(), &refusal, text)?, "{text}");
    }
    Ok(())
}

#[test]
fn faults_of_the_verifier_are_told_in_words(rt: HostRuntime) -> Result<(), Fail> {
    for (fault, text) in [
        (
            UnwrittenRegister(0),
            "a register is read that was not written at unit 0",
        ),
        (WriteToR10(1), "r10 is written at unit 1"),
        (
            NotAWindow(2),
            "the address does not point into a window at unit 2",
        ),
        (
            OutOfWindow(3),
            "the access does not lie in the window at unit 3",
        ),
        (ReadOnly(10), "the window may only be read at unit 10"),
        (
            UnwrittenBytes(5),
            "bytes are read that were not all written at unit 5",
        ),
        (
            BadExitValue(511),
            "r0 may be neither -1 nor a number of written bytes at unit 511",
        ),
        (SizesTooLarge, "a declared size is above its limit"),
        (VerifyFault::NoMemory, "no memory"),
    ] {
        assert!(rt; reads_twice(rt.alloc(), fault, text)?, "{text}");
    }
    Ok(())
}
