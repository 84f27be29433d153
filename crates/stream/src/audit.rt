// The theorems for the auditor. Each function carries one on its contract.
ghost use Rattle.stream.specs.Theorems.{Complete, CutsDoNotMatter, OneAnswer};

// When a take has said that the stream is drained, the register lists every record of the closed reading of all accepted bytes.
pub fn complete() -> bool
    ensures { Complete }
{
    true
}

// Two drained histories with the same accepted bytes have the same register, however they were cut and interleaved.
pub fn cuts_do_not_matter() -> bool
    ensures { CutsDoNotMatter }
{
    true
}

// Two answers to the same turn after the same history, both by the law, are equal, and so are the space left, the register and the intake.
pub fn one_answer() -> bool
    ensures { OneAnswer }
{
    true
}
