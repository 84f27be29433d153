// The theorem of blocks, on the contract of a function.
ghost use Rattle.block.specs.Theorems.{OneForm};

// Packing and unpacking undo each other, and every register has exactly one form as blocks.
pub fn one_form() -> bool
    ensures { OneForm }
{
    true
}
