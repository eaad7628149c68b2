// Whether a record is all of the word that it was taken from.
ghost use Rattle.std.specs.Prelude.{◌≡◌, eqb};
ghost use Rattle.layout.specs.Fields.{record_word};
ghost use Rattle.record.specs.Split.{record_at};

use record::Record;

// The fault code of a debug exception.
const DEBUG_CODE: u64 = 0x22;

// Whether the record at a word's bits makes the word: the bits that its layout doesn't name are 0, and a debug exception has its fault code.
pub(crate) fn whole(r: Record, word: u64) -> bool
    requires { r ≡ record_at word }
    ensures { result ≡ eqb (record_word r) word }
{
    match r {
        Record::Plain(_) => (word & 0xFFFF_FFFF_01FF_FFFF) == 0,
        Record::Wfx(_) => (word & 0xFFFF_FFFF_000F_FFFE) == 0,
        Record::Mcr(_) => (word & 0xFFFF_FFFF_0000_0000) == 0,
        Record::Mcrr(_) => (word & 0xFFFF_FFFF_0000_8000) == 0,
        Record::Ldc(_) => (word & 0xFFFF_FFFF_0000_0C00) == 0,
        Record::Simd(_) => (word & 0xFFFF_FFFF_000F_FFFF) == 0,
        Record::Call(_) => (word & 0xFFFF_FFFF_01FF_0000) == 0,
        Record::Smc(_) => (word & 0xFFFF_FFFF_0007_FFFF) == 0,
        Record::InstructionAbort(_) => (word & 0xFFFF_FFFF_01FF_E140) == 0,
        Record::DataAbort(_) => (word & 0xFFFF_FFFF_0000_2000) == 0,
        Record::Debug(_) => (word & 0xFFFF_FFFF_01FF_FFFF) == DEBUG_CODE,
        Record::Step(_) => (word & 0xFFFF_FFFF_00FF_FFBF) == DEBUG_CODE,
        Record::Watchpoint(_) => (word & 0xFFFF_FFFF_01FF_FEBF) == DEBUG_CODE,
        Record::SError(_) => (word & 0xFFFF_FFFF_01FF_E1C0) == 0,
        Record::System(_) => (word & 0xFFFF_FFFF_01C0_0000) == 0,
    }
}
