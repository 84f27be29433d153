// Unpacking blocks into the entries of a register.
ghost use Rattle.std.specs.Prelude.{◌≡◌, ◌+◌, ◌*◌, ◌<◌, ◌≤◌, MatchResult, Err, List as Sequence, [], not, slice_index_or, position, ◌++◌, length, drop, Ok, nat_le};
ghost use Rattle.std.specs.List.{All, sum_by, flat_map, enumerate_from};
ghost use Rattle.std.specs.Simd.{first_chunks};
ghost use Rattle.common.specs.Lists.{items, room};
ghost use Rattle.common.specs.Added.{Added};
ghost use Rattle.register.specs.declared.entry.Entry.{Entry as Listed};
ghost use Rattle.block.specs.Parts.{all_zero};
ghost use Rattle.block.specs.Entries.{entry_size, entry_of};
ghost use Rattle.block.specs.Blocks.{per_block, block_size, sum_right, count_right, form_right, count_of, number_of, entries_of};
ghost use Rattle.block.specs.Packing.{most_blocks, packed};
ghost use Rattle.block.specs.Unpacking.{whole, wrong_sum, wrong_form, Judged, unpacked, free, answer, given, told};
ghost use Rattle.block.specs.Theorems.{Register};

use crate::entries::{ENTRY, entry_of};
use crate::layout::{BLOCK, Block, COUNT, MOST_BLOCKS, NUMBER, PER_BLOCK, SUM, ZEROS};
use crate::numbers::array_at;
use common::list::List;
use common::refusal::Refusal;
use framing::checksum::checksum_of;
use register::entry::Entry;

// Why nothing is unpacked.
#[derive(Clone, Copy, PartialEq, Eq, Debug)]
pub enum UnpackFault {
    // The bytes are not whole blocks, or more blocks than a register has.
    NotBlocks,
    // The checksum of this block, counted from 0, is wrong.
    WrongSum(usize),
    // The count, the number, the zeros or the free entries of this block are wrong.
    WrongForm(usize),
    // The table has not room for all entries.
    TableShort,
}

impl From<UnpackFault> for Refusal {
    ghost from_gives = { λ fault refusal. refusal ≡ told fault };

    fn from(fault: UnpackFault) -> Refusal {
        let (number, place) = match fault {
            UnpackFault::NotBlocks => (28, 0),
            UnpackFault::WrongSum(block) => (29, block),
            UnpackFault::WrongForm(block) => (30, block),
            UnpackFault::TableShort => (31, 0),
        };
        Refusal {
            number,
            layer: 4,
            place,
        }
    }
}

fn is_zero(bytes: &[u8]) -> bool
    ensures { result ≡ all_zero bytes.now }
{
    bytes.iter().all(|b| *b == 0)
}

// How many entries a block says that it holds.
fn count_in(block: &Block) -> usize
    ensures { result ≡ count_of block.now }
{
    u16::from_le_bytes(array_at(block, COUNT)) as usize
}

// The number that a block says that it has.
fn number_in(block: &Block) -> usize
    ensures { result ≡ number_of block.now }
{
    u32::from_le_bytes(array_at(block, NUMBER)) as usize
}

// Whether a block's checksum is right.
fn has_right_sum(block: &Block) -> bool
    ensures { result ≡ sum_right block.now }
{
    u16::from_le_bytes(array_at(block, SUM)) == checksum_of(&block[0..SUM])
}

// Whether a block may hold this many entries: one that is not the last is full.
fn is_right_count(count: usize, last: bool) -> bool
    ensures { result ≡ count_right last count }
{
    if last {
        1 <= count && count <= PER_BLOCK
    } else {
        count == PER_BLOCK
    }
}

// Whether block i of some blocks has the right count and number, zeros where zeros stand, and free entries that are zero.
fn has_right_form(block: &Block, i: usize, blocks: usize) -> bool
    requires { i < blocks }
    ensures { result ≡ form_right blocks i block.now }
{
    let count = count_in(block);
    if !is_right_count(count, i + 1 == blocks) || number_in(block) != i {
        return false;
    }
    is_zero(&block[ZEROS..SUM]) && is_zero(&block[ENTRY * count..COUNT])
}

// The first block whose checksum is wrong.
fn first_wrong_sum(blocks: &[Block]) -> Option<usize>
    ensures { result ≡ wrong_sum blocks.now }
{
    blocks.iter().position(|block| !has_right_sum(block))
}

// The first block whose count, number, zeros or free entries are wrong.
fn first_wrong_form(blocks: &[Block]) -> Option<usize>
    ensures { result ≡ wrong_form blocks.now }
{
    let count = blocks.len();
    blocks.iter().enumerate().position(
        |(i, block)| -> bool
            requires { i < count }
        { !has_right_form(block, i, count) },
    )
}

// Whether some bytes are whole blocks, and at most as many as a register has.
fn are_blocks(bytes: &[u8]) -> bool
    ensures { result ≡ whole bytes.now }
{
    bytes.len() % BLOCK == 0 && bytes.len() / BLOCK <= MOST_BLOCKS
}

// Asks all questions of some bytes, and answers with their blocks.
#[tactic(auto, using(crate::proofs::Registers::not_blocks, crate::proofs::Registers::bad_sum, crate::proofs::Registers::bad_form))]
fn judge(bytes: &[u8]) -> Result<&[Block], UnpackFault>
    ensures { MatchResult result (λ blocks. Judged bytes.now blocks.now) (λ fault. unpacked bytes.now ≡ Err fault) }
{
    if !are_blocks(bytes) {
        return Err(UnpackFault::NotBlocks);
    }
    let (blocks, _) = bytes.as_chunks();
    if let Some(i) = first_wrong_sum(blocks) {
        return Err(UnpackFault::WrongSum(i));
    }
    if let Some(i) = first_wrong_form(blocks) {
        return Err(UnpackFault::WrongForm(i));
    }
    Ok(blocks)
}

// How many entries some blocks hold.
fn entry_count(blocks: &[Block]) -> usize
    requires { sum_by count_of blocks.now ≤ per_block * most_blocks }
    ensures { result ≡ sum_by count_of blocks.now }
{
    blocks.iter().map(count_in).sum()
}

// The bytes of a block's entries. The bound is asked of three calls, and holds of blocks that were judged; a type of such blocks would be one more.
fn slots(block: &Block) -> &[[u8; ENTRY]]
    requires { count_of block.now ≤ per_block }
    ensures { result.now ≡ first_chunks entry_size (count_of block.now) block.now }
{
    let (slots, _) = block.as_chunks();
    &slots[..count_in(block)]
}

// Puts the entries of a block behind those of a list, where there is room for them.
fn add_entries(block: &Block, out: &mut List<'_, Entry>)
    requires count { count_of block.now ≤ per_block }
    requires room { length (items out.old) + count_of block.now ≤ room out.old }
    ensures { Added out.old (entries_of block.now) out.new }
{
    for slot in slots(block) {
        let _ = out.push(entry_of(*slot));
    }
}

// Puts the entries of some blocks behind those of a list, where there is room for them.
fn add_blocks(blocks: &[Block], out: &mut List<'_, Entry>)
    requires counts { All (λ block. count_of block ≤ per_block) blocks.now }
    requires room { length (items out.old) + sum_by count_of blocks.now ≤ room out.old }
    ensures { Added out.old (flat_map entries_of blocks.now) out.new }
{
    for block in blocks {
        add_entries(block, out);
    }
}

// Puts the entries of a register's blocks behind those of a list. Nothing is written before every question was asked.
#[tactic(auto, using(crate::proofs::Registers::unpacked_again, crate::proofs::Blocks::entries_count))]
pub fn unpack(bytes: &[u8], out: &mut List<'_, Entry>) -> Result<(), UnpackFault>
    ensures says { result ≡ answer (unpacked bytes.now) (free out.old) }
    ensures items { items out.new ≡ items out.old ++ given (unpacked bytes.now) (free out.old) }
    ensures table { out.new.table.now ≡ items out.new ++ drop (length (items out.new)) out.old.table.now }
    ensures room { room out.new ≡ room out.old }
    ensures lends { out.new.table.ghost_name ≡ out.old.table.ghost_name }
    ensures only { (es : Sequence Listed) → unpacked bytes.now ≡ Ok es → Register es × (bytes.now ≡ packed es) }
    ensures back { (es : Sequence Listed) → Register es → bytes.now ≡ packed es → unpacked bytes.now ≡ Ok es }
{
    let blocks = judge(bytes)?;
    if entry_count(blocks) > out.room() - out.len() {
        return Err(UnpackFault::TableShort);
    }
    add_blocks(blocks, out);
    Ok(())
}
