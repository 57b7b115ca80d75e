//! The operations that bind a program's instructions.
use bound_operations::Operation;
use bpf_decode::decode;
use bpf_model::Sizes;
use flow_shape::shape;
use std::test::Fail;
use verifier::verify;

const SIZES: Sizes = Sizes {
    key: 64,
    old: 8,
    arg: 8,
    result: 16,
};

/// A jump skips a wide instruction, and no run reaches the last two.
const CODE: [u8; 88] = [
    0x79, 0x21, 0, 0, 0, 0, 0, 0, // ldd r1, [r2+0]
    0x18, 0x06, 0, 0, 7, 0, 0, 0, 0, 0, 0, 0, 0, 0, 0, 0, // wide r6, 7
    0x15, 0x01, 2, 0, 5, 0, 0, 0, // jeq64 r1, 5, +2
    0x18, 0x07, 0, 0, 9, 0, 0, 0, 0, 0, 0, 0, 0, 0, 0, 0, // wide r7, 9
    0x7b, 0x6a, 0xf8, 0xff, 0, 0, 0, 0, // stxd [r10-8], r6
    0xb7, 0, 0, 0, 0xff, 0xff, 0xff, 0xff, // mov64 r0, -1
    0x95, 0, 0, 0, 0, 0, 0, 0, // exit
    0x79, 0x50, 0, 0, 0, 0, 0, 0, // ldd r0, [r5+0]
    0x95, 0, 0, 0, 0, 0, 0, 0, // exit
];

#[test]
fn operations_have_windows_and_targets(rt: HostRuntime) -> Result<(), Fail> {
    let program = decode(rt.alloc(), &CODE).map_err(|_| "its bytes have no fault")?;
    let shaped = shape(program).map_err(|_| "its flow has no fault")?;
    let verified = verify(rt.alloc(), shaped, SIZES).map_err(|_| "it is safe")?;
    let operations = verified.operations();
    let old_word = matches!(operations.first(), Some(Operation::LoadDoubleWordOld(..)));
    assert!(rt; old_word, "where the register pointed before the load");
    let fourth = matches!(
        operations.get(2),
        Some(Operation::JumpEq64Immediate(_, 4, _))
    );
    assert!(rt; fourth, "the place of the target");
    let stack_word = matches!(
        operations.get(4),
        Some(Operation::StoreDoubleWordStackRegister(..))
    );
    assert!(rt; stack_word, "the stack");
    let nothing = matches!(
        operations.get(5),
        Some(Operation::MovImmediate(_, u64::MAX))
    );
    assert!(rt; nothing, "the sign is extended");
    let never = matches!(operations.get(7), Some(Operation::Exit));
    assert!(rt; never, "an instruction that no run comes to");
    assert_eq!(rt; operations.len(), 9);
    Ok(())
}
