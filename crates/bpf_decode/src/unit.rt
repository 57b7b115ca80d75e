//! Units of eight bytes and their fields.
ghost use Rattle.std.specs.Prelude.{◌≡◌, IfErr, OnOk, Some, None, if◌then◌else◌};
ghost use Rattle.bpf_model.specs.Spelling.{unit_bytes};
ghost use Rattle.bpf_decode.specs.UnitFaults.{FitUnit, has_bad_register, has_unused_not_zero, has_bad_width, fault_under, has_imm_alone};
ghost use Rattle.bpf_decode.specs.OpcodeFields.{AreOperands};
ghost use Rattle.bpf_decode.specs.declared.fault.UnitFault.TheVariants.{BadWidth};

use crate::fault::UnitFault;
use byteorder::{ByteOrder, LittleEndian};
use std::marker::Model;

/// A unit has this many bytes.
pub(crate) const UNIT_BYTES: usize = 8;

/// The fields of a unit.
#[derive(Clone, Copy, Debug, PartialEq, Eq)]
pub(crate) struct Fields {
    pub(crate) opcode: u8,
    pub(crate) dst: u8,
    pub(crate) src: u8,
    pub(crate) offset: i16,
    pub(crate) imm: i32,
}

impl Model for Fields {
    ghost use Rattle.bpf_model.specs.Spelling.{Fields as UnitFields};
    ghost use Rattle.bpf_decode.specs.UnitFaults.{FitUnit};

    ghost Value = { UnitFields };

    ghost view = { λ f. record { opcode = f.opcode; dst = f.dst; src = f.src; offset = f.offset; imm = f.imm } };

    ghost invariant = { λ f. FitUnit (record { opcode = f.opcode; dst = f.dst; src = f.src; offset = f.offset; imm = f.imm }) };

    ghost inverse = { λ v. record { opcode = v.opcode; dst = v.dst; src = v.src; offset = v.offset; imm = v.imm } };
}

/// Which fields an instruction uses, besides its opcode.
#[derive(Clone, Copy, Debug, PartialEq, Eq)]
pub(crate) struct UsedFields {
    pub(crate) dst: bool,
    pub(crate) src: bool,
    pub(crate) offset: bool,
    pub(crate) imm: bool,
}

pub(crate) const NO_FIELD: UsedFields = UsedFields {
    dst: false,
    src: false,
    offset: false,
    imm: false,
};

impl Fields {
    /// The fields that the bytes of a unit spell.
    pub(crate) fn from_bytes(unit: &[u8; UNIT_BYTES]) -> Fields
        ensures fit { FitUnit result }
        ensures spelled { unit.now ≡ unit_bytes result }
    {
        Fields {
            opcode: unit[0],
            dst: unit[1] % 16,
            src: unit[1] / 16,
            offset: LittleEndian::read_i16(&unit[2..4]),
            imm: LittleEndian::read_i32(&unit[4..8]),
        }
    }

    /// The bytes of a unit that spell the fields.
    pub(crate) fn to_bytes(self) -> [u8; UNIT_BYTES]
        ensures { result ≡ unit_bytes self }
    {
        let mut unit = [0; UNIT_BYTES];
        unit[0] = self.opcode;
        unit[1] = self.src * 16 + self.dst;
        LittleEndian::write_i16(&mut unit[2..4], self.offset);
        LittleEndian::write_i32(&mut unit[4..8], self.imm);
        unit
    }

    fn has_bad_register(self, used: UsedFields) -> bool
        ensures { result ≡ has_bad_register used self }
    {
        (used.dst && self.dst > 10) || (used.src && self.src > 10)
    }

    fn has_unused_not_zero(self, used: UsedFields) -> bool
        ensures { result ≡ has_unused_not_zero used self }
    {
        (!used.dst && self.dst != 0)
            || (!used.src && self.src != 0)
            || (!used.offset && self.offset != 0)
            || (!used.imm && self.imm != 0)
    }

    /// Tests whether these can be the fields of a wide instruction's second half.
    pub(crate) fn has_imm_alone(self) -> bool
        ensures { result ≡ has_imm_alone self }
    {
        self.opcode == 0 && self.dst == 0 && self.src == 0 && self.offset == 0
    }

    /// Returns the least-numbered fault of the fields if an instruction uses `used` of them. Doesn't check widths.
    pub(crate) fn check(self, used: UsedFields) -> Result<(), UnitFault>
        ensures operands { OnOk result (AreOperands used self) }
        ensures ok { OnOk result
            (fault_under (Some used) self ≡ (if has_bad_width self then Some BadWidth else None)) }
        ensures err { IfErr result (λ e. fault_under (Some used) self ≡ Some e) }
    {
        if self.has_bad_register(used) {
            return Err(UnitFault::BadRegister);
        }
        if self.has_unused_not_zero(used) {
            return Err(UnitFault::UnusedNotZero);
        }
        Ok(())
    }
}
