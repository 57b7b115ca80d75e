//! Lists of fields that fill a body after its tag.
ghost use Rattle.std.specs.Prelude.{◌≡◌, [], ◌∷◌, IfOk, OnOk, IfErr, Some, false};
ghost use Rattle.client_protocol.specs.Bodies.{limits_after, kinds_of, takes_tail, body_of_fields, BodyHas};
ghost use Rattle.client_protocol.specs.Bodies.Kind.{a_long, a_key, an_opt};
ghost use Rattle.client_protocol.specs.Bodies.Field.{long, key as the_key, opt};
ghost use Rattle.client_protocol.specs.Buffers.{optional};
ghost use Rattle.client_protocol.specs.Reading.{SpellsBody};

use crate::fault::ProtocolFault;
use crate::field::Field;
use crate::limits::Version;
use crate::request::OptionalValue;
use bpf_model::Key;

/// Reads no field.
pub fn no_field(hello: Option<Version>, tag: u8, bytes: &[u8]) -> Result<(), ProtocolFault>
    requires known { kinds_of tag ≡ Some [] }
    requires no_tail { takes_tail tag ≡ false }
    ensures ok { IfOk result (λ _. SpellsBody (limits_after hello) (tag ∷ bytes.now) (body_of_fields tag [])) }
    ensures err { IfErr result (BodyHas hello (tag ∷ bytes.now)) }
{
    if !bytes.is_empty() {
        return Err(ProtocolFault::TrailingBytes);
    }
    Ok(())
}

/// Reads one field into `first`.
pub fn one_field<A: Field>(
    hello: Option<Version>,
    tag: u8,
    bytes: &[u8],
    first: &mut A,
) -> Result<(), ProtocolFault>
    requires known { kinds_of tag ≡ Some (A.kind ∷ []) }
    requires no_tail { takes_tail tag ≡ false }
    ensures ok { OnOk result (SpellsBody (limits_after hello) (tag ∷ bytes.now)
        (body_of_fields tag (A.field first.new ∷ []))) }
    ensures err { IfErr result (BodyHas hello (tag ∷ bytes.now)) }
{
    let Some(tail) = first.read(hello, bytes) else {
        return Err(ProtocolFault::BadField);
    };
    if !tail.is_empty() {
        return Err(ProtocolFault::TrailingBytes);
    }
    Ok(())
}

/// Reads two fields into `first` and `second`.
pub fn two_fields<A: Field, B: Field>(
    hello: Option<Version>,
    tag: u8,
    bytes: &[u8],
    first: &mut A,
    second: &mut B,
) -> Result<(), ProtocolFault>
    requires known { kinds_of tag ≡ Some (A.kind ∷ B.kind ∷ []) }
    requires no_tail { takes_tail tag ≡ false }
    ensures ok { OnOk result (SpellsBody (limits_after hello) (tag ∷ bytes.now)
        (body_of_fields tag (A.field first.new ∷ B.field second.new ∷ []))) }
    ensures err { IfErr result (BodyHas hello (tag ∷ bytes.now)) }
{
    let Some(rest) = first.read(hello, bytes) else {
        return Err(ProtocolFault::BadField);
    };
    let Some(tail) = second.read(hello, rest) else {
        return Err(ProtocolFault::BadField);
    };
    if !tail.is_empty() {
        return Err(ProtocolFault::TrailingBytes);
    }
    Ok(())
}

/// Reads three fields into `first`, `second` and `third`.
pub fn three_fields<A: Field, B: Field, C: Field>(
    hello: Option<Version>,
    tag: u8,
    bytes: &[u8],
    first: &mut A,
    second: &mut B,
    third: &mut C,
) -> Result<(), ProtocolFault>
    requires known { kinds_of tag ≡ Some (A.kind ∷ B.kind ∷ C.kind ∷ []) }
    requires no_tail { takes_tail tag ≡ false }
    ensures ok { OnOk result (SpellsBody (limits_after hello) (tag ∷ bytes.now)
        (body_of_fields tag (A.field first.new ∷ B.field second.new ∷ C.field third.new ∷ []))) }
    ensures err { IfErr result (BodyHas hello (tag ∷ bytes.now)) }
{
    let Some(rest) = first.read(hello, bytes) else {
        return Err(ProtocolFault::BadField);
    };
    let Some(rest) = second.read(hello, rest) else {
        return Err(ProtocolFault::BadField);
    };
    let Some(tail) = third.read(hello, rest) else {
        return Err(ProtocolFault::BadField);
    };
    if !tail.is_empty() {
        return Err(ProtocolFault::TrailingBytes);
    }
    Ok(())
}

/// Reads the fields of a call that runs a program: its key into `key` and its argument into `arg`. Returns the program.
pub fn compute_fields(
    hello: Option<Version>,
    tag: u8,
    bytes: &[u8],
    key: &mut Key,
    arg: &mut OptionalValue,
) -> Result<u64, ProtocolFault>
    requires known { kinds_of tag ≡ Some (a_key ∷ a_long ∷ an_opt ∷ []) }
    requires no_tail { takes_tail tag ≡ false }
    ensures ok { IfOk result (λ program. SpellsBody (limits_after hello) (tag ∷ bytes.now)
        (body_of_fields tag (the_key key.new ∷ long program ∷ opt (optional arg.new) ∷ []))) }
    ensures err { IfErr result (BodyHas hello (tag ∷ bytes.now)) }
{
    let mut program: u64 = 0;
    three_fields(hello, tag, bytes, key, &mut program, arg)?;
    Ok(program)
}

/// Reads the fields of a walk with a threshold: its argument into `arg`. Returns the program and the threshold.
pub fn walk_fields(
    hello: Option<Version>,
    tag: u8,
    bytes: &[u8],
    arg: &mut OptionalValue,
) -> Result<(u64, u64), ProtocolFault>
    requires known { kinds_of tag ≡ Some (a_long ∷ an_opt ∷ a_long ∷ []) }
    requires no_tail { takes_tail tag ≡ false }
    ensures ok { IfOk result (λ walk. SpellsBody (limits_after hello) (tag ∷ bytes.now)
        (body_of_fields tag (long walk.0 ∷ opt (optional arg.new) ∷ long walk.1 ∷ []))) }
    ensures err { IfErr result (BodyHas hello (tag ∷ bytes.now)) }
{
    let mut program: u64 = 0;
    let mut threshold: u64 = 0;
    three_fields(hello, tag, bytes, &mut program, arg, &mut threshold)?;
    Ok((program, threshold))
}
