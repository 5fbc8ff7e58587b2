// The public calls under the names that C and Rust link: thin, with the same promises. A slice passes as a pointer and then a length, the
// answer by value as three 64-bit numbers, and a choice as those and two bytes. include/strahnuk.h and rust/strahnuk declare these names;
// nothing checks those declarations against this file, so the boundary stays as small as this.
#![tactic(auto)]

ghost use Rattle.std.specs.Float.{binary32, binary64};
ghost use Rattle.rules.specs.Calls.{Measured, Written, Read, ReadVector, Examined, Chosen};

use rules::{Answer, Choice};

#[unsafe(no_mangle)]
pub extern "C" fn alp_measure32(values: &[u32], s: u8, pairs: &[u8]) -> Answer
    ensures { Measured binary32 values.now s pairs.now result }
{
    writer::measure::<u32>(values, s, pairs)
}

#[unsafe(no_mangle)]
pub extern "C" fn alp_measure64(values: &[u64], s: u8, pairs: &[u8]) -> Answer
    ensures { Measured binary64 values.now s pairs.now result }
{
    writer::measure::<u64>(values, s, pairs)
}

#[unsafe(no_mangle)]
pub extern "C" fn alp_write32(values: &[u32], s: u8, pairs: &[u8], out: &mut [u8]) -> Answer
    ensures { Written binary32 values.now s pairs.now out.old result out.new }
{
    writer::write::<u32>(values, s, pairs, out)
}

#[unsafe(no_mangle)]
pub extern "C" fn alp_write64(values: &[u64], s: u8, pairs: &[u8], out: &mut [u8]) -> Answer
    ensures { Written binary64 values.now s pairs.now out.old result out.new }
{
    writer::write::<u64>(values, s, pairs, out)
}

#[unsafe(no_mangle)]
pub extern "C" fn alp_read32(page: &[u8], out: &mut [u32]) -> Answer
    ensures { Read binary32 page.now out.old result out.new }
{
    reader::read::<u32>(page, out)
}

#[unsafe(no_mangle)]
pub extern "C" fn alp_read64(page: &[u8], out: &mut [u64]) -> Answer
    ensures { Read binary64 page.now out.old result out.new }
{
    reader::read::<u64>(page, out)
}

#[unsafe(no_mangle)]
pub extern "C" fn alp_read_vector32(page: &[u8], number: usize, out: &mut [u32]) -> Answer
    ensures { ReadVector binary32 page.now number out.old result out.new }
{
    vector_reader::read_vector::<u32>(page, number, out)
}

#[unsafe(no_mangle)]
pub extern "C" fn alp_read_vector64(page: &[u8], number: usize, out: &mut [u64]) -> Answer
    ensures { ReadVector binary64 page.now number out.old result out.new }
{
    vector_reader::read_vector::<u64>(page, number, out)
}

#[unsafe(no_mangle)]
pub extern "C" fn alp_examine32(page: &[u8]) -> Answer
    ensures { Examined binary32 page.now result }
{
    examiner::examine::<u32>(page)
}

#[unsafe(no_mangle)]
pub extern "C" fn alp_examine64(page: &[u8]) -> Answer
    ensures { Examined binary64 page.now result }
{
    examiner::examine::<u64>(page)
}

#[unsafe(no_mangle)]
pub extern "C" fn alp_choose32(values: &[u32]) -> Choice
    ensures { Chosen binary32 values.now result }
{
    chooser::choose::<u32>(values)
}

#[unsafe(no_mangle)]
pub extern "C" fn alp_choose64(values: &[u64]) -> Choice
    ensures { Chosen binary64 values.now result }
{
    chooser::choose::<u64>(values)
}
